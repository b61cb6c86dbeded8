//! What an engine finds in a store that a load has made.

ghost use Rattle.std.specs.Prelude.{◌≡◌, ◌≢◌, false, List, IfOk, IfErr};
ghost use Rattle.im_base_types.specs.Pages.{Entry};
ghost use Rattle.im_base_types.specs.declared.fault.Fault.TheVariants.{NotAStore};
ghost use Rattle.im_base_disk.specs.Runs.{IsSynced};
ghost use Rattle.im_load.specs.Files.{AreOfLoad};

use im_base_two_logs::TwoLogs;
use im_base_types::{Fault, Key, Rid};
use im_engine::{Config, look};
use std::alloc::Global;
use std::thread::Threads;

/// A look at a store, as `look` makes one: of a loaded store it hands out exactly the entries of the load, in their order. An opening never calls such
/// files no store.
pub fn found<D: TwoLogs, R: Threads + Sync>(
    rt: &R,
    alloc: Global,
    disk: D,
    config: Config,
) -> (Result<Vec<(Key, Rid)>, Fault>, D)
    requires working { D.failed disk ≡ false }
    requires synced { IsSynced D.Disk disk }
    ensures found { IfOk result.0 (λ list. (es : List Entry) → D.tells → AreOfLoad es (D.seen disk) → list.items ≡ es) }
    ensures never { IfErr result.0 (λ e. (es : List Entry) → D.tells → AreOfLoad es (D.seen disk) → e ≢ NotAStore) }
{
    look(rt, alloc, disk, config)
}
