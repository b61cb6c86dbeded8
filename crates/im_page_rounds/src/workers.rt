//! The records of a round, applied by several workers.
ghost use Rattle.std.specs.Prelude.{◌≡◌, ◌≤◌, ◌<◌, ◌+◌, ◌*◌, ℕ, List, All, Bool, length, get_or, min, vec_len, IfErr, IfOk, IsOk, OnOk};
ghost use Rattle.im_base_types.specs.declared.fault.Fault.TheVariants.{Memory, NotAStore};
ghost use Rattle.im_base_types.specs.Pages.{Page};
ghost use Rattle.im_base_types.specs.Records.{Logged};
ghost use Rattle.im_page_rounds.specs.declared.worker.Worker.{Worker};
ghost use Rattle.im_page_rounds.specs.Hand.{AllTaken, AreAmong, AreRising, StandIn};
ghost use Rattle.im_page_rounds.specs.Workers.{AreDealt, AreRedone, AreThese, HandRedone, HaveRoom, SameRoom, Worked, count_below};

use crate::hand::redo_own;
use crate::worker::Worker;
use im_base_types::{Fault, Lsn, PageNo, WorkerStart};
use std::alloc::Global;
use std::thread;
use std::thread::Threads;

fn push_worker(alloc: Global, workers: &mut Vec<Worker>, room: usize) -> Result<(), Fault>
    requires { All (λ w. vec_len w.pages ≡ room) workers.old.items }
    ensures room { OnOk result (All (λ w. vec_len w.pages ≡ room) workers.new.items) }
    ensures length { OnOk result (vec_len workers.new ≡ vec_len workers.old + 1) }
    ensures refused { IfErr result (λ e. e ≡ Memory) }
{
    let worker = Worker::new(alloc, room)?;
    workers.push(worker).map_err(|_| Fault::Memory)
}

/// So many workers, with room for so many pages together. Refused `Memory`.
#[tactic(auto, using(std::proofs::lemmas::Grind::div_ceil_times))]
pub fn workers_for(alloc: Global, count: usize, pages: usize) -> Result<Vec<Worker>, Fault>
    requires { 0 < count }
    ensures count { IfOk result (λ v. vec_len v ≡ count) }
    ensures room { IfOk result (λ v. HaveRoom pages v.items) }
    ensures refused { IfErr result (λ e. e ≡ Memory) }
{
    let room = pages.div_ceil(count);
    let mut workers = Vec::new(alloc);
    for _made in 0..count {
        push_worker(alloc, &mut workers, room)?;
    }
    Ok(workers)
}

// A worker of so many does its part of a round.
fn work<T: WorkerStart>(
    at_start: &T,
    numbers: &[PageNo],
    workers: usize,
    number: usize,
    worker: &mut Worker,
    lsns: &[Lsn],
    from: Lsn,
    span: &[u8],
)
    requires some { 0 < workers }
    requires room { length numbers.now ≤ workers * vec_len worker.old.pages }
    requires rising { AreRising numbers.now }
    ensures redone { (rs : List Logged) (g : ℕ → Page) (changed : ℕ → Bool) → StandIn from span.now lsns.now rs → AreDealt workers number numbers.now worker.old.pages.items g changed
        → IfOk worker.new.applied (λ count. HandRedone workers number numbers.now rs g changed count worker.new.pages.items) }
    ensures taken { (rs : List Logged) (g : ℕ → Page) (changed : ℕ → Bool) → StandIn from span.now lsns.now rs → AreDealt workers number numbers.now worker.old.pages.items g changed → AreAmong numbers.now rs → AllTaken rs g
        → IfErr worker.new.applied (λ e. ⊥) }
    ensures length { vec_len worker.new.pages ≡ vec_len worker.old.pages }
    ensures refused { IfErr worker.new.applied (λ e. e ≡ NotAStore) }
{
    at_start.worker_starts(number as u64);
    worker.applied = redo_own(
        numbers,
        workers,
        number,
        worker.pages.as_mut_slice(),
        &mut worker.spare,
        lsns,
        from,
        span,
    );
}

// The sum of two counts, or the most where it is above.
fn at_most(one: u64, other: u64, most: u64) -> u64
    requires { one ≤ most }
    ensures { result ≡ min (one + other) most }
{
    if other < most - one {
        one + other
    } else {
        most
    }
}

// What came of a round: how many records all workers applied, which are at most so many, or the refusal of the first that met one.
fn count_of(workers: &[Worker], most: u64) -> Result<u64, Fault>
    ensures all { (k : ℕ) (w : Worker) → k < length workers.now → OnOk result (IsOk (get_or workers.now k w).applied) }
    ensures count { (w : Worker) → IfOk result (λ n. n ≡ min (count_below workers.now w (length workers.now)) most) }
    ensures taken { ((k : ℕ) (w : Worker) → k < length workers.now → IfErr (get_or workers.now k w).applied (λ e. ⊥)) → IfErr result (λ e. ⊥) }
    ensures refused { ((k : ℕ) (w : Worker) → k < length workers.now → IfErr (get_or workers.now k w).applied (λ e. e ≡ NotAStore)) → IfErr result (λ e. e ≡ NotAStore) }
{
    let mut count = 0;
    for worker in workers {
        count = at_most(count, worker.applied?, most);
    }
    Ok(count)
}

// Each worker does its part of a round, in a thread of its own where one can be made.
fn work_all<R: Threads + Sync, T: WorkerStart + Sync>(
    rt: &R,
    at_start: &T,
    numbers: &[PageNo],
    workers: &mut [Worker],
    lsns: &[Lsn],
    from: Lsn,
    span: &[u8],
)
    requires some { 0 < length workers.old }
    requires room { HaveRoom (length numbers.now) workers.old }
    requires rising { AreRising numbers.now }
    ensures room { SameRoom workers.old workers.new }
    ensures redone { (k : ℕ) (w : Worker) (rs : List Logged) (g : ℕ → Page) (changed : ℕ → Bool) → k < length workers.old → StandIn from span.now lsns.now rs
        → AreDealt (length workers.old) k numbers.now (get_or workers.old k w).pages.items g changed
        → IfOk (get_or workers.new k w).applied (λ count. HandRedone (length workers.old) k numbers.now rs g changed count (get_or workers.new k w).pages.items) }
    ensures taken { (k : ℕ) (w : Worker) (rs : List Logged) (g : ℕ → Page) (changed : ℕ → Bool) → k < length workers.old → StandIn from span.now lsns.now rs
        → AreDealt (length workers.old) k numbers.now (get_or workers.old k w).pages.items g changed → AreAmong numbers.now rs → AllTaken rs g
        → IfErr (get_or workers.new k w).applied (λ e. ⊥) }
    ensures refused { (k : ℕ) (w : Worker) → k < length workers.old → IfErr (get_or workers.new k w).applied (λ e. e ≡ NotAStore) }
{
    let count = workers.len();
    let part = |number: usize, worker: &mut Worker|
        requires { (0 < count) × (length numbers.now ≤ count * vec_len worker.now.pages) × AreRising numbers.now }
        ensures { Worked count number numbers.entry.now from span.entry.now lsns.entry.now worker.entry.now worker.exit.now }
    { work(at_start, numbers, count, number, worker, lsns, from, span) };
    thread::for_each_mut(rt, workers, count, &part);
}

/// Redoes the records at these LSNs in turn, whose bytes stand in a part of the log that begins at `from`: each changes its page where
/// that needs it. The pages are those of `numbers`, which rise: page i is with worker i mod how many there are. Each worker goes past the
/// records of its pages, in a thread of its own where one can be made, and calls `turn` with its number first. One worker starts no
/// thread. It answers how many records were applied.
///
/// Refused `NotAStore` alone: where a page does not take a record that it needs, no record stands at an LSN, or a record is of none of these
/// pages. The pages are then such as some of the records made them. Nothing grows, so it is never refused for want of memory.
pub fn redo_records<R: Threads + Sync, T: WorkerStart + Sync>(
    rt: &R,
    at_start: &T,
    numbers: &[PageNo],
    workers: &mut [Worker],
    lsns: &[Lsn],
    from: Lsn,
    span: &[u8],
) -> Result<u64, Fault>
    requires some { 0 < length workers.old }
    requires room { HaveRoom (length numbers.now) workers.old }
    requires rising { AreRising numbers.now }
    ensures redone { (rs : List Logged) (g : ℕ → Page) (changed : ℕ → Bool) → StandIn from span.now lsns.now rs → AreThese numbers.now workers.old g changed
        → IfOk result (λ count. AreRedone numbers.now rs g changed count workers.new) }
    ensures taken { (rs : List Logged) (g : ℕ → Page) (changed : ℕ → Bool) → StandIn from span.now lsns.now rs → AreThese numbers.now workers.old g changed → AreAmong numbers.now rs → AllTaken rs g
        → IfErr result (λ e. ⊥) }
    ensures few { IfOk result (λ count. count ≤ length lsns.now) }
    ensures room { SameRoom workers.old workers.new }
    ensures refused { IfErr result (λ e. e ≡ NotAStore) }
{
    work_all(rt, at_start, numbers, workers, lsns, from, span);
    count_of(workers, lsns.len() as u64)
}
