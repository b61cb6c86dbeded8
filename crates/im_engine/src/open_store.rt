//! How a store is opened, and how its engine ends.

ghost use Rattle.std.specs.Prelude.{◌≡◌, ◌<◌, ◌≤◌, ◌+◌, ◌⊎◌, ◌↔◌, [], false, true, length, List, None, IfOk, IfErr, IsTrue};
ghost use Rattle.std.specs.Result.{IsErrAnd};
ghost use Rattle.im_base_types.specs.declared.fault.Fault.TheVariants.{Memory};

use crate::config::Config;
use crate::engine::Engine;
use crate::restarting::restart_current;
use crate::syncing::sync_files;
use crate::transactions::Transactions;
use im_base_disk::Disk;
use im_base_two_logs::TwoLogs;
use im_base_types::{Fault, LONGEST_BATCH};
use im_engine_locks::LockTable;
use im_restart::{Alone, ByThreads, Redoes};
use std::alloc::Global;
use std::thread::Threads;

// The room in which records are read again.
fn make_room(alloc: Global) -> Result<Vec<u8>, Fault>
    ensures size { IfOk result (λ room. length room.items ≡ 16384) }
    ensures causes { IfErr result (λ e. e ≡ Memory) }
{
    vec![in alloc; 0; LONGEST_BATCH].map_err(|_| Fault::Memory)
}

impl<D: TwoLogs> Engine<D> {
    ghost use Rattle.im_base_types.specs.Changes.{Effect};
    ghost use Rattle.im_base_types.specs.declared.fault.Fault.TheVariants.{LogFull, Capacity, Device, Memory, NotAStore, PoolSize, Workers};
    ghost use Rattle.im_base_disk.specs.Runs.{IsSynced};
    ghost use Rattle.im_log_choice.specs.Found.{HasFirst};
    ghost use Rattle.im_log_choice.specs.Switching.{ReadsNamed};
    ghost use Rattle.im_restart.specs.Restart.{IsFullLog};
    ghost use Rattle.im_engine.specs.Stands.{StandsFor, SpellsCurrent};
    ghost use Rattle.im_engine.specs.Kept.{OpenKept, disk_of};
    ghost use Rattle.im_engine.specs.Opening.{IsOpening};

    /// Opens the store of a disk, or makes a new one where all its files are empty: what was committed is there, and what was not is
    /// taken back. No transaction is active, and nothing is locked. From there on the current one of the two logs has the name `Log`. Redo is
    /// shared by the workers of the configuration, in threads that the runtime starts. The pool has the frames of the configuration and those that it has
    /// more, and takes the memory of all of them. Gives the disk back with a refusal.
    ///
    /// Refused, with no device call, `PoolSize` where the frames are not 8 to 1,024, and after that `Workers` where the workers are not 1 to 16;
    /// `NotAStore` where the bytes are no store, or nothing says which of two logs is the current one;
    /// `LogFull` only where the log's file then ends less than 32,778 bytes below LSN 2^62; `Capacity` where what is taken back needs
    /// a page and page numbers or levels are used up; `Memory`; `Device`. Where the current log's bytes are no log's, one of its records leads to a
    /// later one or names a page that no page count before it has, or one opens a structure change beside another's, nothing is written.
    pub fn open_or_create<R: Threads + Sync>(
        rt: &R,
        alloc: Global,
        disk: D,
        config: Config,
    ) -> Result<Engine<D>, (Fault, D)>
        requires working { D.failed disk ≡ false }
        requires synced { IsSynced D.Disk disk }
        ensures kept { (before : List Effect) → D.tells → IsSynced D.Disk disk → (stands : StandsFor before (D.seen disk)) → OpenKept D.Disk before disk stands result }
        ensures frames { IsErrAnd result (λ x. x.0 ≡ PoolSize) ↔ ((config.frames < 8) ⊎ (1024 < config.frames)) }
        ensures workers { IsErrAnd result (λ x. x.0 ≡ Workers) ↔ ((8 ≤ config.frames) × (config.frames ≤ 1024)) × ((config.workers < 1) ⊎ (16 < config.workers)) }
        ensures untouched { IfErr result (λ x. (x.0 ≡ PoolSize) ⊎ (x.0 ≡ Workers) → x.1 ≡ disk) }
        ensures opened { IfOk result (λ e. (e.failed ≡ false) × (e.txns.rows ≡ []) × (e.locks ≡ []) × (D.failed e.disk ≡ false)) }
        ensures plain { IfOk result (λ e. (e.stepped ≡ config.stepped) × (e.under ≡ None)) }
        ensures limit { IfOk result (λ e. e.max_pages ≡ config.max_pages) }
        ensures dense { IfOk result (λ e. e.dense ≡ config.dense) }
        ensures group { IfOk result (λ e. e.txns.group ≡ config.group) }
        ensures pool { IfOk result (λ e. e.writer.pool.frames ≡ config.frames + config.more.frames) }
        ensures spelled { IfOk result (λ _. D.tells → SpellsCurrent (D.seen disk)) }
        ensures first { IfOk result (λ e. D.tells → IsTrue e.had_first ↔ HasFirst (D.seen disk)) }
        ensures causes { IfErr result (λ x. (x.0 ≡ PoolSize) ⊎ (x.0 ≡ Workers) ⊎ (x.0 ≡ Memory) ⊎ (x.0 ≡ Device) ⊎ (x.0 ≡ NotAStore) ⊎ (x.0 ≡ LogFull) ⊎ (x.0 ≡ Capacity)) }
        ensures unspelled { D.tells → ¬ (SpellsCurrent (D.seen disk)) → ReadsNamed D.Disk disk (disk_of D.Disk result) × IfErr result (λ x. (x.0 ≡ PoolSize) ⊎ (x.0 ≡ Workers) ⊎ (x.0 ≡ Memory) ⊎ (x.0 ≡ Device) ⊎ (x.0 ≡ NotAStore)) }
        ensures full { IfErr result (λ x. x.0 ≡ LogFull → D.tells → IsFullLog (D.seen x.1)) }
        ensures device { IsErrAnd result (λ x. x.0 ≡ Device) ↔ (D.failed (disk_of D.Disk result) ≡ true) }
    {
        Engine::open_by(&ByThreads::new(rt), alloc, disk, config)
    }

    /// Opens the store of a disk as `open_or_create` does, for a caller who can start no threads: the opening call makes all of redo.
    pub fn open_alone(alloc: Global, disk: D, config: Config) -> Result<Engine<D>, (Fault, D)>
        requires working { D.failed disk ≡ false }
        requires synced { IsSynced D.Disk disk }
        ensures opening { IsOpening D.Disk config disk result }
        ensures first { IfOk result (λ e. D.tells → IsTrue e.had_first ↔ HasFirst (D.seen disk)) }
        ensures group { IfOk result (λ e. e.txns.group ≡ config.group) }
    {
        Engine::open_by(&Alone, alloc, disk, config)
    }

    // Opens the store of a disk, with redo made in the way given.
    fn open_by<H: Redoes>(
        how: &H,
        alloc: Global,
        disk: D,
        config: Config,
    ) -> Result<Engine<D>, (Fault, D)>
        requires shared { H.shared }
        requires working { D.failed disk ≡ false }
        requires synced { IsSynced D.Disk disk }
        ensures kept { (before : List Effect) → D.tells → IsSynced D.Disk disk → (stands : StandsFor before (D.seen disk)) → OpenKept D.Disk before disk stands result }
        ensures frames { IsErrAnd result (λ x. x.0 ≡ PoolSize) ↔ ((config.frames < 8) ⊎ (1024 < config.frames)) }
        ensures workers { IsErrAnd result (λ x. x.0 ≡ Workers) ↔ ((8 ≤ config.frames) × (config.frames ≤ 1024)) × ((config.workers < 1) ⊎ (16 < config.workers)) }
        ensures untouched { IfErr result (λ x. (x.0 ≡ PoolSize) ⊎ (x.0 ≡ Workers) → x.1 ≡ disk) }
        ensures opened { IfOk result (λ e. (e.failed ≡ false) × (e.txns.rows ≡ []) × (e.locks ≡ []) × (D.failed e.disk ≡ false)) }
        ensures plain { IfOk result (λ e. (e.stepped ≡ config.stepped) × (e.under ≡ None)) }
        ensures limit { IfOk result (λ e. e.max_pages ≡ config.max_pages) }
        ensures dense { IfOk result (λ e. e.dense ≡ config.dense) }
        ensures group { IfOk result (λ e. e.txns.group ≡ config.group) }
        ensures pool { IfOk result (λ e. e.writer.pool.frames ≡ config.frames + config.more.frames) }
        ensures spelled { IfOk result (λ _. D.tells → SpellsCurrent (D.seen disk)) }
        ensures first { IfOk result (λ e. D.tells → IsTrue e.had_first ↔ HasFirst (D.seen disk)) }
        ensures causes { IfErr result (λ x. (x.0 ≡ PoolSize) ⊎ (x.0 ≡ Workers) ⊎ (x.0 ≡ Memory) ⊎ (x.0 ≡ Device) ⊎ (x.0 ≡ NotAStore) ⊎ (x.0 ≡ LogFull) ⊎ (x.0 ≡ Capacity)) }
        ensures unspelled { D.tells → ¬ (SpellsCurrent (D.seen disk)) → ReadsNamed D.Disk disk (disk_of D.Disk result) × IfErr result (λ x. (x.0 ≡ PoolSize) ⊎ (x.0 ≡ Workers) ⊎ (x.0 ≡ Memory) ⊎ (x.0 ≡ Device) ⊎ (x.0 ≡ NotAStore)) }
        ensures full { IfErr result (λ x. x.0 ≡ LogFull → D.tells → IsFullLog (D.seen x.1)) }
        ensures device { IsErrAnd result (λ x. x.0 ≡ Device) ↔ (D.failed (disk_of D.Disk result) ≡ true) }
    {
        if let Some(fault) = config.refusal() {
            return Err((fault, disk));
        }
        let room = match make_room(alloc) {
            Ok(room) => room,
            Err(fault) => return Err((fault, disk)),
        };
        let frames = config.frames + config.more.frames();
        let mut disk = disk;
        match restart_current(
            how,
            alloc,
            &mut disk,
            frames,
            config.buffer.batches(),
            config.workers,
        ) {
            Err(fault) => Err((fault, disk)),
            Ok(current) => {
                let had_first = current.had_first;
                let restarted = current.restarted;
                Ok(Engine {
                    alloc,
                    writer: restarted.writer,
                    disk,
                    max_pages: config.max_pages,
                    dense: config.dense,
                    report: restarted.report,
                    had_first,
                    txns: Transactions::starting_at(restarted.next, config.group),
                    locks: LockTable::new(alloc),
                    room,
                    failed: false,
                    stepped: config.stepped,
                    under: None,
                })
            }
        }
    }
}

impl<D: Disk> Engine<D> {
    ghost use Rattle.std.specs.Prelude.{OnOk};
    ghost use Rattle.im_base_types.specs.declared.fault.Fault.TheVariants.{Device, Failed};
    ghost use Rattle.im_base_disk.specs.Disk.{Files};
    ghost use Rattle.im_base_disk.specs.Runs.{IsSynced, LeavesOnly};

    /// The disk, for reading.
    pub fn disk(&self) -> &D
        ensures { result.now ≡ self.now.disk }
    {
        &self.disk
    }

    /// Closes the store: ends the engine, brings its files to the disk, and hands it back, so that the store may be opened again. The
    /// files read as they did. Refused `Failed`, with no device call, where an earlier step broke the engine; `Device`.
    pub fn close(self) -> (Result<(), Fault>, D)
        ensures synced { OnOk result.0 ((self.failed ≡ false) × IsSynced D.Disk result.1 × (D.failed result.1 ≡ false)) }
        ensures seen { D.seen result.1 ≡ D.seen self.disk }
        ensures outcomes { (c : Files) → D.may_leave result.1 c → D.may_leave self.disk c }
        ensures stops { LeavesOnly D.Disk self.disk result.1 (D.may_leave self.disk) }
        ensures causes { IfErr result.0 (λ e. ((e ≡ Failed) × (self.failed ≡ true) × (result.1 ≡ self.disk)) ⊎ ((e ≡ Device) × (D.failed result.1 ≡ true))) }
    {
        let failed = self.failed;
        let mut disk = self.into_disk();
        if failed {
            return (Err(Fault::Failed), disk);
        }
        let synced = sync_files(&mut disk);
        (synced, disk)
    }

    /// Ends the engine, with no device call, and hands the disk back. What was written and not synced is not on the disk then: before its
    /// store is opened again, its files are synced (`close`, `sync_files`), or it is a disk of the files anew.
    pub fn into_disk(self) -> D
        ensures { result ≡ self.disk }
    {
        let Engine {
            alloc: _alloc,
            writer: _writer,
            disk,
            max_pages: _max_pages,
            dense: _dense,
            report: _report,
            had_first: _had_first,
            txns: _txns,
            locks: _locks,
            room: _room,
            failed: _failed,
            stepped: _stepped,
            under: _under,
        } = self;
        disk
    }
}
