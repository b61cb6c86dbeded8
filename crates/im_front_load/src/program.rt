//! What a load prints.

ghost use Rattle.std.specs.Prelude.{◌≡◌, ◌≤◌, IfOk};
ghost use Rattle.im_front.specs.Held.{IsResting};
ghost use Rattle.im_front_load.specs.Loads.{WasLoaded};

use crate::loading::{Loaded, load};
use im_base_types::{Fault, WorkerStart};
use im_front::LoadArgs;
use im_theory_store_trait::Store;
use std::alloc::Global;
use std::io;
use std::io::Write;
use std::marker::Brand;
use std::sync::Wait;
use std::sync::ledger::Blank;
use std::thread::Threads;

/// Runs a load on a store at rest, and prints what came of it: the transactions, how many entries the store has, and how many
/// steps the trace. It answers the exit status: 0 where the load came to its end, and 1 where a step was refused, whose number it prints.
pub fn load_text<E: Store + Send, T: WorkerStart + Sync, R: Threads + Wait + Sync, W: Write>(
    rt: &R,
    alloc: Global,
    engine: E,
    args: LoadArgs,
    at_start: &T,
    writer: &mut W,
) -> io::Result<u8>
    requires resting { IsResting E.Store engine }
    ensures status { IfOk result (λ status. status ≤ 1) }
    ensures loaded { IfOk result (λ status. status ≡ 0 → WasLoaded E.Store args) }
{
    match load::<E, Brand, T, R>(rt, alloc, engine, Blank::new(1024), args, at_start) {
        Ok(loaded) => print_loaded(alloc, loaded, writer),
        Err(fault) => print_refused(fault, writer),
    }
}

// What came of a load, in three lines.
fn print_loaded<E: Store, W: Write>(
    alloc: Global,
    loaded: Loaded<E>,
    writer: &mut W,
) -> io::Result<u8>
    ensures { IfOk result (λ status. status ≤ 1) }
{
    let Loaded { stats, mut closed } = loaded;
    match closed.engine.entries(alloc) {
        Ok(entries) => {
            writeln!(
                writer,
                "started {} committed {} rolledback {}",
                stats.started, stats.committed, stats.rolled_back
            )?;
            writeln!(writer, "entries {}", entries.len())?;
            writeln!(writer, "trace {}", closed.trace.len())?;
            Ok(0)
        }
        Err(fault) => print_refused(fault, writer),
    }
}

/// Prints a refusal, by its number, and answers the exit status 1.
pub fn print_refused<W: Write>(fault: Fault, writer: &mut W) -> io::Result<u8>
    ensures { IfOk result (λ status. status ≡ 1) }
{
    writeln!(writer, "refused {}", fault.number())?;
    Ok(1)
}
