//! Records appended to a log, forced, and read again, over the model disk, beside the same bytes copied and put down by
//! hand.
//!
//! Without words it does each work with few records and prints what came out, the same each run. With `--time` it
//! prints how long each work takes for one record, in a log of few batches and in one of many.

mod timing;
mod work;

use crate::figures::is_timed;
use im_base_model_disk::ModelDisk;
use im_base_types::Fault;
use std::alloc::Global;
use timing::{print_hand_times, print_times};
use work::{Counts, counted};

// Batches of the shorter log and of the longer one.
const SIZES: [u64; 2] = [10, 2_000];

const ROUNDS: u64 = 3;

// What came out on a new disk, and how often it was called.
fn counts_and_calls(alloc: Global) -> Result<(Counts, u64), Fault> {
    let mut disk = ModelDisk::new(Vec::new(alloc), Vec::new(alloc));
    let counts = counted(alloc, &mut disk, 1_000)?;
    Ok((counts, disk.calls()))
}

fn print_counts(rt: &HostRuntime) -> anyhow::Result<()> {
    let (counts, calls) = counts_and_calls(rt.alloc())?;
    println!(rt;
        "appended: durable below {}, {} bytes wait",
        counts.durable_end, counts.waiting
    )?;
    println!(rt; "read: {} bytes", counts.read)?;
    println!(rt;
        "forced: durable below {}, device calls {calls}",
        counts.end
    )?;
    Ok(())
}

fn print_all_times(rt: &HostRuntime) -> anyhow::Result<()> {
    for batches in SIZES {
        print_times(rt, batches)?;
    }
    print_hand_times(rt)
}

/// Counts, or the times of each work.
pub fn run(rt: &HostRuntime, words: &[String]) -> anyhow::Result<()> {
    if !is_timed(words) {
        return print_counts(rt);
    }
    for _round in 0..ROUNDS {
        print_all_times(rt)?;
    }
    Ok(())
}
