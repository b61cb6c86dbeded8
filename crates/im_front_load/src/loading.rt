//! A load.

ghost use Rattle.std.specs.Prelude.{◌≡◌, ◌≤◌, ◌+◌, ◌*◌, ◌⊎◌, ℕ, All, IfErr, IfOk, IfSome, length};
ghost use Rattle.std.specs.List.{sum_by};
ghost use Rattle.im_base_types.specs.declared.fault.Fault.TheVariants.{Memory, TooMany};
ghost use Rattle.im_front.specs.Traces.{trace_of};
ghost use Rattle.im_front.specs.Held.{IsResting, IsRun, StopKeeps};
ghost use Rattle.im_front_load.specs.Counting.{least_of, IsDone};
ghost use Rattle.im_front_load.specs.Refusals.{IsStopped, IsUnloaded, StopsFor};

use crate::flusher::flush_rounds;
use crate::job::{Ended, Job, Task};
use crate::worker::work;
use im_base_types::{Fault, WorkerStart};
use im_front::{Closed, Front, LoadArgs, Share, Stats};
use im_theory_store_trait::Store;
use std::alloc::Global;
use std::sync::Wait;
use std::sync::ledger::{Blank, Ledger};
use std::thread::{Threads, map_vec};

/// What came of a load.
#[derive(Drop)]
pub struct Loaded<E: Store> {
    /// The transactions, as the statistics show them once all threads have ended.
    pub stats: Stats,
    /// The store, and the trace of the steps. Its sum is there where every share came back.
    pub closed: Closed<E>,
}

/// Runs a load on a store at rest: each worker and, where it has rounds to make, the flusher in a thread of its own. The blank is of
/// a ledger of 1,024 parts.
///
/// Where the store tells what it holds, the trace is a run that ends in it, and a stop then keeps what it acknowledged. Over any store,
/// where the sum is there it is the number of all steps: three at least for each transaction, and nine for each round of the flusher.
///
/// Refused as the first step that was refused, or as the entries are before it, and `Memory`.
pub fn load<
    E: Store + Send,
    L: Ledger + Send + Sync,
    T: WorkerStart + Sync,
    R: Threads + Wait + Sync,
>(
    rt: &R,
    alloc: Global,
    engine: E,
    blank: Blank,
    args: LoadArgs,
    at_start: &T,
) -> Result<Loaded<E>, Fault>
    requires resting { IsResting E.Store engine }
    requires blank { (blank.name ≡ L.name) × (blank.parts ≡ L.parts) × (blank.parts ≡ 1024) }
    ensures run { IfOk result (λ l. E.tells → IsRun E.life l.closed.base.items (trace_of l.closed.trace.items) l.closed.engine) }
    ensures stops { IfOk result (λ l. E.tells → StopKeeps E.leaves l.closed.base.items (trace_of l.closed.trace.items) l.closed.engine) }
    ensures sum { IfOk result (λ l. IfSome l.closed.sum (λ n. n ≡ l.closed.cut + length l.closed.trace.items)) }
    ensures steps { IfOk result (λ l. IfSome l.closed.sum (λ n. args.threads * (3 * args.txns) + 9 * args.flush ≤ n)) }
    ensures sound { IfOk result (λ l. l.stats.committed + l.stats.rolled_back ≤ l.stats.started) }
    ensures causes { IfErr result (IsUnloaded E.Store) }
{
    let front = match Front::<E, L>::new(alloc, engine, blank) {
        Ok(front) => front,
        Err(refused) => return Err(refused.0),
    };
    let mut last = front.share(rt)?;
    let ended = in_threads(rt, alloc, &front, &args, at_start)?;
    let stats = front.stats(&mut last);
    let shares = shares_of::<E, L>(alloc, last, ended)?;
    Ok(Loaded {
        stats,
        closed: front.close(shares),
    })
}

// Makes the jobs, each in a thread of its own where one can be made.
fn in_threads<
    E: Store + Send,
    L: Ledger + Send + Sync,
    T: WorkerStart + Sync,
    R: Threads + Wait + Sync,
>(
    rt: &R,
    alloc: Global,
    front: &Front<E, L>,
    args: &LoadArgs,
    at_start: &T,
) -> Result<Vec<Ended<L>>, Fault>
    ensures done { IfOk result (λ v. All (IsDone args.now.txns args.now.flush) v.items) }
    ensures least { IfOk result (λ v. sum_by (λ e. least_of args.now.txns args.now.flush e.task) v.items ≡ args.now.threads * (3 * args.now.txns) + 9 * args.now.flush) }
    ensures stops { IfOk result (λ v. All (StopsFor E.Store) v.items) }
    ensures causes { IfErr result (λ fault. (fault ≡ TooMany) ⊎ (fault ≡ Memory)) }
{
    let jobs = jobs_of(rt, alloc, front, args)?;
    match map_vec(rt, jobs, &|job| run(rt, alloc, front, job, args, at_start)) {
        Ok(ended) => Ok(ended),
        Err(_) => Err(Fault::Memory),
    }
}

// A job for each worker, and one for the flusher where it makes rounds.
fn jobs_of<E: Store, L: Ledger, R: Wait>(
    rt: &R,
    alloc: Global,
    front: &Front<E, L>,
    args: &LoadArgs,
) -> Result<Vec<Job<L>>, Fault>
    ensures least { IfOk result (λ v. sum_by (λ j. least_of args.now.txns args.now.flush j.task) v.items ≡ args.now.threads * (3 * args.now.txns) + 9 * args.now.flush) }
    ensures causes { IfErr result (λ fault. (fault ≡ TooMany) ⊎ (fault ≡ Memory)) }
{
    let mut jobs = Vec::new(alloc);
    for worker in 0..args.threads() as u32 {
        add(rt, front, &mut jobs, Task::Work(worker))?;
    }
    add_flusher(rt, front, &mut jobs, args)?;
    Ok(jobs)
}

// The flusher's job, where it makes rounds.
fn add_flusher<E: Store, L: Ledger, R: Wait>(
    rt: &R,
    front: &Front<E, L>,
    jobs: &mut Vec<Job<L>>,
    args: &LoadArgs,
) -> Result<(), Fault>
    ensures causes { IfErr result (λ fault. (fault ≡ TooMany) ⊎ (fault ≡ Memory)) }
    ensures more { IfOk result (λ _. (f : ℕ) → sum_by (λ j. least_of f args.now.flush j.task) jobs.new.items ≡ sum_by (λ j. least_of f args.now.flush j.task) jobs.old.items + 9 * args.now.flush) }
{
    if args.flush() == 0 {
        return Ok(());
    }
    add(rt, front, jobs, Task::Flush)?;
    Ok(())
}

// One job more, with a share of its own.
fn add<E: Store, L: Ledger, R: Wait>(
    rt: &R,
    front: &Front<E, L>,
    jobs: &mut Vec<Job<L>>,
    task: Task,
) -> Result<(), Fault>
    ensures causes { IfErr result (λ fault. (fault ≡ TooMany) ⊎ (fault ≡ Memory)) }
    ensures more { IfOk result (λ _. (f : ℕ) (g : ℕ) → sum_by (λ j. least_of f g j.task) jobs.new.items ≡ sum_by (λ j. least_of f g j.task) jobs.old.items + least_of f g task) }
{
    let share = front.share(rt)?;
    match jobs.push(Job { task, share }) {
        Ok(()) => Ok(()),
        Err(_) => Err(Fault::Memory),
    }
}

// Makes one job.
fn run<E: Store, L: Ledger, T: WorkerStart, R: Wait>(
    rt: &R,
    alloc: Global,
    front: &Front<E, L>,
    job: Job<L>,
    args: &LoadArgs,
    at_start: &T,
) -> Ended<L>
    ensures task { result.task ≡ job.task }
    ensures done { IsDone args.now.txns args.now.flush result }
    ensures stops { StopsFor E.Store result }
{
    let Job { task, mut share } = job;
    let end = match task {
        Task::Work(worker) => {
            at_start.worker_starts(u64::from(worker));
            work(rt, alloc, front, &mut share, worker, args.txns() as u32)
        }
        Task::Flush => flush_rounds(rt, front, &mut share, args.flush()),
    };
    Ended {
        task,
        share,
        fault: end.err(),
    }
}

// All shares; or the first fault of a task, or `Memory`.
fn shares_of<E: Store, L: Ledger>(
    alloc: Global,
    last: Share<L>,
    ended: Vec<Ended<L>>,
) -> Result<Vec<Share<L>>, Fault>
    ensures steps { IfOk result (λ v. (f : ℕ) (g : ℕ) → All (IsDone f g) ended.items → sum_by (λ e. least_of f g e.task) ended.items ≤ sum_by (λ s. s.made.amount) v.items) }
    ensures causes { All (StopsFor E.Store) ended.items → IfErr result (IsStopped E.Store) }
{
    let mut shares = Vec::new(alloc);
    let Ok(()) = shares.push(last) else {
        return Err(Fault::Memory);
    };
    for one in ended {
        let Ended { share, fault, .. } = one;
        if let Some(fault) = fault {
            return Err(fault);
        }
        let Ok(()) = shares.push(share) else {
            return Err(Fault::Memory);
        };
    }
    Ok(shares)
}
