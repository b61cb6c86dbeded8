//! A look at a store: what an opening of its disk finds.

ghost use Rattle.std.specs.Prelude.{◌≡◌, ◌≢◌, false, [], List, IfOk, IfErr};
ghost use Rattle.std.specs.FinMap.{empty, entries};
ghost use Rattle.im_base_types.specs.Changes.{Effect, apply_all};
ghost use Rattle.im_base_types.specs.declared.fault.Fault.TheVariants.{NotAStore};
ghost use Rattle.im_base_disk.specs.Disk.{Files};
ghost use Rattle.im_base_disk.specs.Runs.{IsSynced};
ghost use Rattle.im_engine.specs.Stands.{StandsFor};
ghost use Rattle.im_engine.specs.Promise.{IsRunOn};
ghost use Rattle.im_engine.specs.Listing.{IsLook, handed_out};

use crate::config::Config;
use crate::engine::Engine;
use im_base_two_logs::TwoLogs;
use im_base_types::{Fault, Key, Rid};
use std::alloc::Global;
use std::thread::Threads;

/// A look: opens the store of a disk, hands out its entries in rising key order, and hands the disk on. The entries are those that
/// the effects make of an empty index for which the files stand (`shows`). It is a life without a step of those that the promise speaks of
/// (`run`, `the_promise`): whatever a stop at any moment of it leaves stands for what the files stood for.
///
/// Refused as an opening is, or as `Engine::entries` is; the files are then not shown.
pub fn look<D: TwoLogs, R: Threads + Sync>(
    rt: &R,
    alloc: Global,
    disk: D,
    config: Config,
) -> (Result<Vec<(Key, Rid)>, Fault>, D)
    requires working { D.failed disk ≡ false }
    requires synced { IsSynced D.Disk disk }
    ensures look { IsLook D.Disk config disk result.0 result.1 }
    ensures run { D.tells → (c : Files) → D.left_since result.1 (D.moment disk) c
        → IsRunOn StandsFor (D.seen disk) (record { steps = []; replies = []; answered = 0; shown = handed_out result.0; left = c }) }
    ensures shows { IfOk result.0 (λ list. (before : List Effect) → D.tells → StandsFor before (D.seen disk) → list.items ≡ entries (apply_all empty before)) }
    ensures never { IfErr result.0 (λ e. (before : List Effect) → D.tells → StandsFor before (D.seen disk) → e ≢ NotAStore) }
{
    match Engine::open_or_create(rt, alloc, disk, config) {
        Err((fault, disk)) => (Err(fault), disk),
        Ok(opened) => {
            let mut engine = opened;
            let list = engine.entries(alloc);
            (list, engine.into_disk())
        }
    }
}
