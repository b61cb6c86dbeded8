//! One step of a load.

ghost use Rattle.std.specs.Prelude.{◌≡◌, ◌≢◌, ◌+◌, false, OnOk, IfErr, IfOk};
ghost use Rattle.im_base_types.specs.declared.fault.Fault.{Fault};
ghost use Rattle.im_base_steps.specs.declared.reply.Reply.TheVariants.{Refused};
ghost use Rattle.im_base_steps.specs.Calls.{asked_by, told_by};
ghost use Rattle.im_base_steps.specs.Replies.{is_full, lacks_memory, Suits};
ghost use Rattle.im_front_load.specs.Refusals.{IsStopped};

use im_base_steps::{Reply, Step};
use im_base_types::Fault;
use im_front::{Front, Share};
use im_theory_store_trait::Store;
use std::sync::Wait;
use std::sync::ledger::Ledger;

/// Makes a step, and counts it. A step that is refused is an `Err`.
pub(crate) fn made<E: Store, L: Ledger, R: Wait>(
    rt: &R,
    front: &Front<E, L>,
    mine: &mut Share<L>,
    step: Step,
) -> Result<Reply, Fault>
    ensures counted { OnOk result (mine.new.made.amount ≡ mine.old.made.amount + 1) }
    ensures suits { IfOk result (λ reply. Suits (asked_by step) (told_by reply)) }
    ensures taken { IfOk result (λ reply. (fault : Fault) → reply ≢ Refused fault) }
    ensures causes { IfErr result (IsStopped E.Store) }
{
    unrefused(front.call(rt, mine, step))
}

// The reply, where it is no refusal.
fn unrefused(reply: Reply) -> Result<Reply, Fault>
    ensures same { IfOk result (λ r. r ≡ reply) }
    ensures taken { IfOk result (λ r. (fault : Fault) → r ≢ Refused fault) }
    ensures full { OnOk result (is_full (told_by reply) ≡ false) }
    ensures memory { OnOk result (lacks_memory (told_by reply) ≡ false) }
    ensures refused { IfErr result (λ fault. reply ≡ Refused fault) }
{
    match reply {
        Reply::Refused(fault) => Err(fault),
        _ => Ok(reply),
    }
}
