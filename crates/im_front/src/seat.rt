//! What each caller of an open front holds, and engines at rest.

ghost use Rattle.std.specs.Prelude.{◌≡◌, ◌+◌, ◌≤◌};
ghost use Rattle.std.specs.Arc.{arc_value};
ghost use Rattle.crossbeam_utils.specs.Seq.{cell_view};
ghost use Rattle.im_front_stats.specs.Counts.{reader, IsSound, NoLess};
ghost use Rattle.im_front.specs.Traces.{counts_of};
ghost use Rattle.im_front.specs.Held.{IsResting};

use crate::stats::Stats;
use im_front_stats::{Pass, StatsCell};
use im_theory_store_trait::Store;
use std::alloc::Global;
use std::marker::Model;
use std::sync::Arc;
use std::thread;

/// How often a read tries again where the counts were being written.
const TRIES: u64 = 1_000_000;

/// How often it does so before it lets another thread run in between.
const SPINS: u64 = 100;

/// A caller's part of the ledger of steps, in which `made` counts the steps that it made, and the counts that it read last.
#[derive(Drop)]
pub struct Seat {
    pub(crate) cell: Arc<StatsCell, Global>,
    pub(crate) pass: Pass,
    pub(crate) read: [u64; 3],
    pub ghost of_cell: { pass.table_id ≡ (arc_value cell).table.shared.table_id },
    pub ghost reads: { cell_view pass ≡ reader read },
    pub ghost sound: { IsSound read },
}

impl Seat {
    // Reads the counts, where nobody writes meanwhile.
    fn look(&mut self) -> bool
        ensures rises { NoLess self.old.read self.new.read }
    {
        let Seat {
            cell,
            pass,
            read,
            ..
        } = self;
        match cell.try_load(pass) {
            Some(counts) => {
                *read = counts;
                true
            }
            None => false,
        }
    }

    /// The counts as they were at one moment since the call before; where none was to be had, those of the call before. It
    /// takes no lock and never waits.
    pub fn stats(&mut self) -> Stats
        ensures sound { result.committed + result.rolled_back ≤ result.started }
        ensures rises { NoLess self.old.read (counts_of result) }
        ensures read { self.new.read ≡ counts_of result }
    {
        for i in 0..TRIES {
            if self.look() {
                break;
            }
            if i >= SPINS {
                thread::yield_now();
            }
        }
        let [started, committed, rolled_back] = self.read;
        Stats {
            started,
            committed,
            rolled_back,
        }
    }
}

/// An engine at rest: no transaction is active, and where it tells what it holds it works.
#[derive(Drop)]
pub struct Rested<E: Store> {
    engine: E,
}

impl<E: Store> Model for Rested<E> {
    ghost use Rattle.im_front.specs.Held.{IsResting};

    ghost Value = { E };

    ghost view = { λ r. r.engine };

    ghost invariant = { λ r. IsResting E.Store r.engine };
}

impl<E: Store> Rested<E> {
    /// An engine that is known to be at rest.
    pub fn new(engine: E) -> Rested<E>
        requires { IsResting E.Store engine }
        ensures { result ≡ engine }
    {
        Rested { engine }
    }

    /// The engine.
    pub fn into_engine(self) -> E
        ensures same { result ≡ self }
        ensures rests { IsResting E.Store result }
    {
        let Rested { engine } = self;
        engine
    }
}
