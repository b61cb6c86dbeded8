//! What each caller holds.

ghost use Rattle.std.specs.Prelude.{◌≡◌, ◌+◌, ◌≤◌};
ghost use Rattle.std.specs.Arc.{arc_value};
ghost use Rattle.crossbeam_utils.specs.Seq.{cell_view};
ghost use Rattle.im_front_stats.specs.Counts.{reader, IsSound, NoLess};
ghost use Rattle.im_front.specs.Traces.{counts_of};

use crate::stats::Stats;
use im_front_stats::{Pass, StatsCell};
use std::alloc::Global;
use std::sync::ledger::Ledger;
use std::sync::{Arc, ledger};
use std::thread;

/// How often a read tries again where the counts were being written.
const TRIES: u64 = 1_000_000;

/// How often it does so before it lets another thread run in between.
const SPINS: u64 = 100;

/// A caller's part of the ledger of steps, in which `made` counts the steps that it made, and the counts that it read last.
#[derive(Drop)]
pub struct Share<L: Ledger> {
    pub(crate) made: ledger::Share<L>,
    pub(crate) cell: Arc<StatsCell, Global>,
    pub(crate) pass: Pass,
    pub(crate) read: [u64; 3],
    pub ghost one_part: { made.parts ≡ 1 },
    pub ghost of_cell: { pass.table_id ≡ (arc_value cell).table.shared.table_id },
    pub ghost reads: { cell_view pass ≡ reader read },
    pub ghost sound: { IsSound read },
}

impl<L: Ledger> Share<L> {
    // Reads the counts, where nobody writes meanwhile.
    fn look(&mut self) -> bool
        ensures rises { NoLess self.old.read self.new.read }
        ensures made { self.new.made ≡ self.old.made }
    {
        let Share {
            cell,
            pass,
            read,
            ..
        } = self;
        match cell.try_load(pass) {
            Some(counts) => {
                *read = counts;
                true
            }
            None => false,
        }
    }

    /// The counts as they were at one moment since the call before; where none was to be had, those of the call before. It
    /// takes no lock and never waits.
    pub fn stats(&mut self) -> Stats
        ensures sound { result.committed + result.rolled_back ≤ result.started }
        ensures rises { NoLess self.old.read (counts_of result) }
        ensures read { self.new.read ≡ counts_of result }
        ensures made { self.new.made ≡ self.old.made }
    {
        for i in 0..TRIES {
            if self.look() {
                break;
            }
            if i >= SPINS {
                thread::yield_now();
            }
        }
        let [started, committed, rolled_back] = self.read;
        Stats {
            started,
            committed,
            rolled_back,
        }
    }
}
