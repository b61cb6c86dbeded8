//! A disk in memory that tells its bytes. What a stop might have left at each of its moments stands in a
//! history that takes no memory.
ghost use Rattle.std.specs.Prelude.{◌≡◌, ◌≢◌, ◌+◌, ◌^◌, ◌≤◌, ◌<◌, ◌⊎◌, false, length, take, drop, OnOk, OnErr, IfOk, IfErr, Some};
ghost use Rattle.std.proofs.Common.{inl};
ghost use Rattle.im_base_types.specs.declared.file_id.FileId.{FileId};
ghost use Rattle.im_base_disk.specs.Disk.{Files, both, three, Only, Follows, InFile, Holds, Torn, Unforged, Elapses, Answers};
ghost use Rattle.im_base_disk.specs.Sums.{shows_in};
ghost use Rattle.im_base_model_disk.specs.Past.{MayLeave, LeavesAt, HadBeen, none_since, reads_may_stay};

use crate::either::{sync_either, write_either};
use crate::left::left;
use crate::plan::Plan;
use crate::{Fill, History, Length, ModelFile, Stop};
use im_base_disk::{Count, Disk};
use im_base_types::{Fault, FileId};
use std::alloc::Global;

/// Three files in memory. Device calls are writes and syncs, counted from 1 in each life, which begins with `new`
/// or `after_stop`. A call past number 2^62 fails. A write that fails is made and counts as not synced. Where
/// memory for a growth is refused, the write fails and leaves the file as it was.
#[derive(Drop)]
pub struct ModelDisk {
    log: ModelFile,
    pages: ModelFile,
    log2: ModelFile,
    past: History,
    plan: Plan,
    has_failed: bool,
    writes: Count,
    syncs: Count,
    ghost calls_left: { has_failed ≡ false → plan.calls ≤ 2 ^ 62 },
    ghost reads_left: { has_failed ≡ false → plan.reads ≤ 2 ^ 62 },
}

impl ModelDisk {
    ghost use Rattle.im_base_model_disk.specs.Model.{IsFresh, IsArmed, file_of, armed_of, model_calls, model_reads, model_stopped, model_stop, model_end};
    ghost use Rattle.im_base_model_disk.specs.Left.{IsLeft, IsLeftBy};
    ghost use Rattle.im_base_disk.specs.Runs.{IsSynced, Reads};

    /// A disk with these bytes of the log and of the pages, all synced. The other log is empty.
    pub fn new(log: Vec<u8>, pages: Vec<u8>) -> ModelDisk
        ensures tells { ⟦<ModelDisk as Disk>⟧.tells }
        ensures seen { ⟦<ModelDisk as Disk>⟧.seen result ≡ both log.items pages.items }
        ensures synced { IsSynced ⟦<ModelDisk as Disk>⟧ result }
        ensures working { ⟦<ModelDisk as Disk>⟧.failed result ≡ false }
        ensures fresh { IsFresh result }
    {
        let log2 = Vec::new(*log.allocator());
        ModelDisk::with_log2(log, pages, log2)
    }

    /// The same with these bytes of the other log.
    pub fn with_log2(log: Vec<u8>, pages: Vec<u8>, log2: Vec<u8>) -> ModelDisk
        ensures tells { ⟦<ModelDisk as Disk>⟧.tells }
        ensures seen { ⟦<ModelDisk as Disk>⟧.seen result ≡ three log.items pages.items log2.items }
        ensures synced { IsSynced ⟦<ModelDisk as Disk>⟧ result }
        ensures working { ⟦<ModelDisk as Disk>⟧.failed result ≡ false }
        ensures fresh { IsFresh result }
    {
        ModelDisk {
            log: ModelFile::new(log),
            pages: ModelFile::new(pages),
            log2: ModelFile::new(log2),
            past: History::new(),
            plan: Plan::new(),
            has_failed: false,
            writes: Count::new(),
            syncs: Count::new(),
        }
    }

    /// Stops within a device call to come, which then answers `Device`. A stop that was armed before is forgotten.
    pub fn arm(&mut self, stop: Stop)
        ensures armed { IsArmed (record (armed_of self.old) { stop = Some stop }) self.old self.new }
        ensures reads { Reads ⟦<ModelDisk as Disk>⟧ self.old self.new }
        ensures synced { IsSynced ⟦<ModelDisk as Disk>⟧ self.old → IsSynced ⟦<ModelDisk as Disk>⟧ self.new }
        ensures failed { ⟦<ModelDisk as Disk>⟧.failed self.new ≡ ⟦<ModelDisk as Disk>⟧.failed self.old }
    {
        self.plan.armed.stop = Some(stop);
    }

    /// Fails the device call of that number, counted from 1. One that was told before is forgotten: as no call
    /// follows one that failed, a life has one at most.
    pub fn fail_call(&mut self, call: u64)
        ensures armed { IsArmed (record (armed_of self.old) { failing_call = Some call }) self.old self.new }
        ensures reads { Reads ⟦<ModelDisk as Disk>⟧ self.old self.new }
        ensures synced { IsSynced ⟦<ModelDisk as Disk>⟧ self.old → IsSynced ⟦<ModelDisk as Disk>⟧ self.new }
        ensures failed { ⟦<ModelDisk as Disk>⟧.failed self.new ≡ ⟦<ModelDisk as Disk>⟧.failed self.old }
    {
        self.plan.armed.failing_call = Some(call);
    }

    /// Fails the read or length call of that number. These have a count of their own, from 1.
    pub fn fail_read(&mut self, read: u64)
        ensures armed { IsArmed (record (armed_of self.old) { failing_read = Some read }) self.old self.new }
        ensures reads { Reads ⟦<ModelDisk as Disk>⟧ self.old self.new }
        ensures synced { IsSynced ⟦<ModelDisk as Disk>⟧ self.old → IsSynced ⟦<ModelDisk as Disk>⟧ self.new }
        ensures failed { ⟦<ModelDisk as Disk>⟧.failed self.new ≡ ⟦<ModelDisk as Disk>⟧.failed self.old }
    {
        self.plan.armed.failing_read = Some(read);
    }

    /// The device calls of this life so far, one that failed included.
    pub fn calls(&self) -> u64
        ensures { result ≡ model_calls self.now }
    {
        self.plan.calls
    }

    /// The reads and length calls of this life so far, one that failed included.
    pub fn reads(&self) -> u64
        ensures { result ≡ model_reads self.now }
    {
        self.plan.reads
    }

    /// The greatest written end of a file, in bytes.
    pub fn end(&self, file: FileId) -> u64
        ensures { result ≡ model_end self.now file }
    {
        self.file(file).bytes.len() as u64
    }

    /// The bytes of a file as they read.
    pub fn bytes(&self, file: FileId) -> &[u8]
        ensures { result.now ≡ ⟦<ModelDisk as Disk>⟧.seen self.now file }
    {
        &self.file(file).bytes
    }

    /// How often a file was written since its last successful sync.
    pub fn writes_since_sync(&self, file: FileId) -> usize
        ensures { result ≡ length (file_of self.now file).written.items }
    {
        self.file(file).written.len()
    }

    /// Whether the stop has come.
    pub fn stopped(&self) -> bool
        ensures { result ≡ model_stopped self.now }
    {
        self.plan.has_stopped
    }

    /// The disk that the stop leaves, all synced, at the beginning of its life. A stop that has not come acts
    /// now, and with none armed all is left as written. Refused `Memory`.
    pub fn after_stop(&self, alloc: Global) -> Result<ModelDisk, Fault>
        ensures bytes { IfOk result (λ disk. (file : FileId) → IsLeftBy (model_stop self.now) (file_of self.now file) (⟦<ModelDisk as Disk>⟧.seen disk file)) }
        ensures left { IfOk result (λ disk. ⟦<ModelDisk as Disk>⟧.may_leave self.now (⟦<ModelDisk as Disk>⟧.seen disk)) }
        ensures synced { IfOk result (λ disk. IsSynced ⟦<ModelDisk as Disk>⟧ disk) }
        ensures working { IfOk result (λ disk. ⟦<ModelDisk as Disk>⟧.failed disk ≡ false) }
        ensures fresh { IfOk result IsFresh }
        ensures causes { IfErr result (λ e. e ≡ Fault.Memory) }
    {
        match &self.plan.armed.stop {
            Some(stop) => self.left_by(alloc, stop.length, &stop.fill),
            None => self.left_by(alloc, Length::Long, &Fill::Written),
        }
    }

    fn left_by(&self, alloc: Global, length: Length, fill: &Fill) -> Result<ModelDisk, Fault>
        ensures bytes { IfOk result (λ disk. (file : FileId) → IsLeft length fill.now (file_of self.now file) (⟦<ModelDisk as Disk>⟧.seen disk file)) }
        ensures left { IfOk result (λ disk. ⟦<ModelDisk as Disk>⟧.may_leave self.now (⟦<ModelDisk as Disk>⟧.seen disk)) }
        ensures synced { IfOk result (λ disk. IsSynced ⟦<ModelDisk as Disk>⟧ disk) }
        ensures working { IfOk result (λ disk. ⟦<ModelDisk as Disk>⟧.failed disk ≡ false) }
        ensures fresh { IfOk result IsFresh }
        ensures causes { IfErr result (λ e. e ≡ Fault.Memory) }
    {
        let Ok(log) = left(alloc, &self.log, length, fill) else {
            return Err(Fault::Memory);
        };
        let Ok(pages) = left(alloc, &self.pages, length, fill) else {
            return Err(Fault::Memory);
        };
        let Ok(log2) = left(alloc, &self.log2, length, fill) else {
            return Err(Fault::Memory);
        };
        Ok(ModelDisk::with_log2(log, pages, log2))
    }

    fn file(&self, file: FileId) -> &ModelFile
        ensures { result.now ≡ file_of self.now file }
    {
        match file {
            FileId::Log => &self.log,
            FileId::Pages => &self.pages,
            FileId::Log2 => &self.log2,
        }
    }
}

impl Disk for ModelDisk {
    ghost use Rattle.im_base_model_disk.specs.Model.{CountsCall, CountsRead, file_of, armed_of, model_calls, model_reads};
    ghost use Rattle.im_base_model_disk.specs.Plan.{call_fails_at, read_fails_at};
    ghost use Rattle.im_base_model_disk.specs.Written.{WriteEnds, IsSyncedFrom};
    ghost use Rattle.im_base_disk.specs.Runs.{Costs, Reads};

    ghost tells = { Unit {0} };

    // A stop may leave any bytes.
    ghost sums = { ⊥ };

    ghost seen = { λ d. three d.log.bytes.items d.pages.bytes.items d.log2.bytes.items };

    ghost may_leave = { λ d c. MayLeave d.log d.pages d.log2 c };

    ghost moment = { λ d. length d.past.moments };

    ghost left_since = { λ d t c. MayLeave d.log d.pages d.log2 c ⊎ HadBeen LeavesAt (drop t d.past.moments) c };

    ghost failed = { λ d. d.has_failed };

    ghost writes = { λ d. d.writes.count };

    ghost syncs = { λ d. d.syncs.count };

    ghost counts_now = { λ d t c le now. inl now };

    ghost only_now = { λ d c left. none_since LeavesAt d.past.moments (MayLeave d.log d.pages d.log2 c) c left };

    ghost seen_may_stay = { λ d told. reads_may_stay d.log d.pages d.log2 };

    fn keeps_sums(&self) -> bool
        ensures { result ≡ false }
    {
        false
    }

    fn len(&mut self, file: FileId) -> Result<u64, Fault>
        requires { ⟦<ModelDisk as Disk>⟧.failed self.old ≡ false }
        ensures len { IfOk result (λ n. ⟦<ModelDisk as Disk>⟧.tells → n ≡ length (⟦<ModelDisk as Disk>⟧.seen self.old file)) }
        ensures reads { Reads ⟦<ModelDisk as Disk>⟧ self.old self.new }
        ensures answers { Answers (⟦<ModelDisk as Disk>⟧.failed self.new) result }
        ensures fails { ⟦<ModelDisk as Disk>⟧.failed self.new ≡ read_fails_at (armed_of self.old) (model_reads self.new) }
        ensures counts { CountsRead self.old self.new }
    {
        self.has_failed = self.plan.read_fails();
        if self.has_failed {
            return Err(Fault::Device);
        }
        let len = self.file(file).bytes.len();
        Ok(len as u64)
    }

    fn read(&mut self, file: FileId, at: u64, buf: &mut [u8]) -> Result<(), Fault>
        requires working { ⟦<ModelDisk as Disk>⟧.failed self.old ≡ false }
        requires within { ⟦<ModelDisk as Disk>⟧.tells → at + length buf.old ≤ length (⟦<ModelDisk as Disk>⟧.seen self.old file) }
        ensures read { OnOk result (⟦<ModelDisk as Disk>⟧.tells → buf.new ≡ take (length buf.old) (drop at (⟦<ModelDisk as Disk>⟧.seen self.old file))) }
        ensures reads { Reads ⟦<ModelDisk as Disk>⟧ self.old self.new }
        ensures answers { Answers (⟦<ModelDisk as Disk>⟧.failed self.new) result }
        ensures fails { ⟦<ModelDisk as Disk>⟧.failed self.new ≡ read_fails_at (armed_of self.old) (model_reads self.new) }
        ensures counts { CountsRead self.old self.new }
    {
        self.has_failed = self.plan.read_fails();
        if self.has_failed {
            return Err(Fault::Device);
        }
        let at = at as usize;
        let end = at + buf.len();
        buf.copy_from_slice(&self.file(file).bytes[at..end]);
        Ok(())
    }

    // A write that fails or stops is made all the same.
    fn write_at(&mut self, file: FileId, at: u64, bytes: &[u8]) -> Result<(), Fault>
        requires working { ⟦<ModelDisk as Disk>⟧.failed self.old ≡ false }
        requires place { ⟦<ModelDisk as Disk>⟧.tells → at ≤ length (⟦<ModelDisk as Disk>⟧.seen self.old file) }
        ensures written { OnOk result (⟦<ModelDisk as Disk>⟧.tells → Holds at bytes.now (⟦<ModelDisk as Disk>⟧.seen self.old file) (⟦<ModelDisk as Disk>⟧.seen self.new file)) }
        ensures others { (other : FileId) → other ≢ file → ⟦<ModelDisk as Disk>⟧.seen self.new other ≡ ⟦<ModelDisk as Disk>⟧.seen self.old other }
        ensures crash { Follows (InFile file (Torn at (length bytes.now))) (⟦<ModelDisk as Disk>⟧.may_leave self.old) (⟦<ModelDisk as Disk>⟧.may_leave self.new) }
        ensures unforged { ⟦<ModelDisk as Disk>⟧.sums → Follows (InFile file (Unforged (shows_in file) at bytes.now)) (⟦<ModelDisk as Disk>⟧.may_leave self.old) (⟦<ModelDisk as Disk>⟧.may_leave self.new) }
        ensures time { Elapses (⟦<ModelDisk as Disk>⟧.moment self.old) (⟦<ModelDisk as Disk>⟧.moment self.new) (⟦<ModelDisk as Disk>⟧.left_since self.old) (⟦<ModelDisk as Disk>⟧.left_since self.new) (⟦<ModelDisk as Disk>⟧.may_leave self.new) }
        ensures answers { Answers (⟦<ModelDisk as Disk>⟧.failed self.new) result }
        ensures costs { Costs ⟦<ModelDisk as Disk>⟧ 1 0 self.old self.new }
        ensures ends { WriteEnds (call_fails_at (armed_of self.old) (model_calls self.new)) (⟦<ModelDisk as Disk>⟧.failed self.new) at bytes.now (file_of self.old file) (file_of self.new file) }
        ensures spares { (other : FileId) → other ≢ file → file_of self.new other ≡ file_of self.old other }
        ensures counts { CountsCall self.old self.new }
    {
        self.past = self.past.with(&self.log, &self.pages, &self.log2);
        self.writes = self.writes.with_one_more();
        let outcome = write_either(
            &mut self.log,
            &mut self.pages,
            &mut self.log2,
            file,
            at as usize,
            bytes,
        );
        let fails = self.plan.call_fails();
        self.has_failed = fails || outcome.is_err();
        if self.has_failed {
            return Err(Fault::Device);
        }
        Ok(())
    }

    // A sync that fails or stops syncs nothing.
    fn sync(&mut self, file: FileId) -> Result<(), Fault>
        requires { ⟦<ModelDisk as Disk>⟧.failed self.old ≡ false }
        ensures durable { OnOk result (Only file (⟦<ModelDisk as Disk>⟧.seen self.old) (⟦<ModelDisk as Disk>⟧.may_leave self.new)) }
        ensures seen { ⟦<ModelDisk as Disk>⟧.seen self.new ≡ ⟦<ModelDisk as Disk>⟧.seen self.old }
        ensures crash { (c : Files) → ⟦<ModelDisk as Disk>⟧.may_leave self.new c → ⟦<ModelDisk as Disk>⟧.may_leave self.old c }
        ensures time { Elapses (⟦<ModelDisk as Disk>⟧.moment self.old) (⟦<ModelDisk as Disk>⟧.moment self.new) (⟦<ModelDisk as Disk>⟧.left_since self.old) (⟦<ModelDisk as Disk>⟧.left_since self.new) (⟦<ModelDisk as Disk>⟧.may_leave self.new) }
        ensures answers { Answers (⟦<ModelDisk as Disk>⟧.failed self.new) result }
        ensures fails { ⟦<ModelDisk as Disk>⟧.failed self.new ≡ call_fails_at (armed_of self.old) (model_calls self.new) }
        ensures costs { Costs ⟦<ModelDisk as Disk>⟧ 0 1 self.old self.new }
        ensures synced { OnOk result (IsSyncedFrom (file_of self.old file) (file_of self.new file)) }
        ensures unsynced { OnErr result (file_of self.new file ≡ file_of self.old file) }
        ensures spares { (other : FileId) → other ≢ file → file_of self.new other ≡ file_of self.old other }
        ensures counts { CountsCall self.old self.new }
    {
        self.past = self.past.with(&self.log, &self.pages, &self.log2);
        self.syncs = self.syncs.with_one_more();
        self.has_failed = self.plan.call_fails();
        if self.has_failed {
            return Err(Fault::Device);
        }
        sync_either(&mut self.log, &mut self.pages, &mut self.log2, file);
        Ok(())
    }
}
