//! The flusher.

ghost use Rattle.std.specs.Prelude.{◌≡◌, ◌+◌, ◌*◌, IfErr, OnOk};
ghost use Rattle.im_front_load.specs.Refusals.{IsStopped};

use crate::stepping::made;
use im_base_steps::Step;
use im_base_types::Fault;
use im_front::{Front, Share};
use im_theory_store_trait::Store;
use std::sync::Wait;
use std::sync::ledger::Ledger;

/// The pages that are written in each round.
const PAGES: u32 = 8;

/// Makes so many rounds of nine steps. It stops where a step is refused.
pub(crate) fn flush_rounds<E: Store, L: Ledger, R: Wait>(
    rt: &R,
    front: &Front<E, L>,
    mine: &mut Share<L>,
    rounds: u64,
) -> Result<(), Fault>
    ensures steps { OnOk result (mine.new.made.amount ≡ mine.old.made.amount + 9 * rounds) }
    ensures causes { IfErr result (IsStopped E.Store) }
{
    for _round in 0..rounds {
        flush_round(rt, front, mine)?;
    }
    Ok(())
}

// One round: a write of each of the first eight pages in turn, then a checkpoint.
fn flush_round<E: Store, L: Ledger, R: Wait>(
    rt: &R,
    front: &Front<E, L>,
    mine: &mut Share<L>,
) -> Result<(), Fault>
    ensures steps { OnOk result (mine.new.made.amount ≡ mine.old.made.amount + 9) }
    ensures causes { IfErr result (IsStopped E.Store) }
{
    for page in 0..PAGES {
        made(rt, front, mine, Step::FlushPage(page))?;
    }
    made(rt, front, mine, Step::Checkpoint)?;
    Ok(())
}
