//! A store that is open.

ghost use Rattle.std.specs.Prelude.{◌≡◌, ◌↔◌, false, true, None, IfOk, IfErr, IsTrue};
ghost use Rattle.im_base_types.specs.declared.fault.Fault.TheVariants.{Device};
ghost use Rattle.im_base_disk.specs.Runs.{IsSynced, Reads};
ghost use Rattle.im_store.specs.LogFiles.{HasLong};
ghost use Rattle.im_store.specs.Stores.{AreRight, follows};

use crate::bounds::Bounds;
use crate::log_files::{LogFiles, look_at_logs};
use crate::unkept::Unkept;
use crate::upkeep::Upkeep;
use im_base_disk::Disk;
use im_base_steps::{Reply, Step};
use im_base_two_logs::TwoLogs;
use im_base_types::{Fault, Key, Rid};
use im_engine::{Config, Engine};
use std::alloc::Global;
use std::thread::Threads;

/// A store that is open: its engine, and the upkeep that its next opening wants.
#[derive(Drop)]
pub struct OpenStore<D: Disk> {
    pub(crate) engine: Engine<D>,
    upkeep: Upkeep,
    // What of that was refused after the last step.
    unkept: Option<Unkept>,
}

impl<D: TwoLogs + Drop> OpenStore<D> {
    ghost use Rattle.std.specs.Prelude.{◌≡◌, ◌↔◌, List, [], false, None, IfOk, IfErr, OnOk, IsTrue};
    ghost use Rattle.im_base_types.specs.Changes.{Effect};
    ghost use Rattle.im_base_types.specs.Lives.{Shown};
    ghost use Rattle.im_base_disk.specs.Runs.{IsSynced};
    ghost use Rattle.im_page_writer.specs.Outcome.{fault_of};
    ghost use Rattle.im_theory_machine.specs.View.{View};
    ghost use Rattle.im_engine.specs.Kept.{EntriesKept, LookKept};
    ghost use Rattle.im_engine.specs.Looking.{Looks};
    ghost use Rattle.im_engine.specs.Running.{IsLife};
    ghost use Rattle.im_store.specs.Rule.{IsHeldUp, WasRefused};
    ghost use Rattle.im_store.specs.Noted.{fresh};
    ghost use Rattle.im_store.specs.Upkeep.{IsKeptUp};
    ghost use Rattle.im_store.specs.Stores.{IsEnd, IsOpenedStore, IsStepKept, SameLimits, WasEnded, WasKept};

    /// Opens the store of a disk, or makes a new one, with bounds of what its next opening redoes and reads. Redo is made in threads that the runtime starts.
    ///
    /// Refused as `Engine::open_or_create` is; the disk comes back then.
    pub fn open<R: Threads + Sync>(
        rt: &R,
        alloc: Global,
        disk: D,
        config: Config,
        bounds: Bounds,
    ) -> Result<OpenStore<D>, (Fault, D)>
        requires working { D.failed disk ≡ false }
        requires synced { IsSynced D.Disk disk }
        ensures { IsOpenedStore D.Disk config bounds disk result }
    {
        let mut disk = disk;
        let files = match look(&mut disk, config) {
            Ok(files) => files,
            Err(fault) => return Err((fault, disk)),
        };
        match Engine::open_or_create(rt, alloc, disk, config) {
            Ok(engine) => Ok(OpenStore::kept_by(engine, bounds, files)),
            Err(refused) => Err(refused),
        }
    }

    /// The same for a caller who can start no threads: the opening call makes all of redo.
    pub fn open_alone(
        alloc: Global,
        disk: D,
        config: Config,
        bounds: Bounds,
    ) -> Result<OpenStore<D>, (Fault, D)>
        requires working { D.failed disk ≡ false }
        requires synced { IsSynced D.Disk disk }
        ensures { IsOpenedStore D.Disk config bounds disk result }
    {
        let mut disk = disk;
        let files = match look(&mut disk, config) {
            Ok(files) => files,
            Err(fault) => return Err((fault, disk)),
        };
        match Engine::open_alone(alloc, disk, config) {
            Ok(engine) => Ok(OpenStore::kept_by(engine, bounds, files)),
            Err(refused) => Err(refused),
        }
    }

    /// A store over an engine that was opened otherwise, or that a front gives back. Its logs may have long files.
    pub fn over(engine: Engine<D>, bounds: Bounds) -> OpenStore<D>
        ensures engine { result.engine ≡ engine }
        ensures upkeep { result.upkeep ≡ fresh D.Disk bounds engine }
        ensures unkept { result.unkept ≡ None }
    {
        let upkeep = Upkeep::of(&engine, bounds);
        OpenStore {
            engine,
            upkeep,
            unkept: None,
        }
    }

    // The same, over logs whose files were so before the opening.
    fn kept_by(engine: Engine<D>, bounds: Bounds, files: LogFiles) -> OpenStore<D>
        ensures engine { result.engine ≡ engine }
        ensures upkeep { result.upkeep ≡ record (fresh D.Disk bounds engine) { is_upgraded = engine.had_first; is_long = files.is_long; is_bare = files.is_bare } }
        ensures unkept { result.unkept ≡ None }
    {
        let had_first = engine.had_first_format();
        let mut store = OpenStore::over(engine, bounds);
        store.upkeep.know_files(files);
        if had_first {
            store.upkeep.leave_first_format();
        }
        store
    }

    /// Makes a step, and answers it; then what is due after it.
    pub fn step(&mut self, step: &Step) -> Reply
        ensures { IsStepKept D.Disk step.now result self.old self.new }
    {
        let reply = self.upkeep.step(&mut self.engine, step);
        if is_followed(&reply) {
            self.keep();
            return reply;
        }
        self.unkept = None;
        reply
    }

    /// Makes what is due: right after an opening, or at a moment without a transaction. Each step does so by itself.
    pub fn keep(&mut self)
        ensures kept { WasKept D.Disk self.old.upkeep self.old.engine self.new }
        ensures limits { SameLimits D.Disk self.old.engine self.new.engine }
        ensures works { self.old.engine.failed ≡ false → self.new.unkept ≡ None → self.new.engine.failed ≡ false }
        ensures rests { self.old.engine.txns.rows ≡ [] → self.new.engine.txns.rows ≡ [] }
    {
        let due = self.upkeep.due(&self.engine);
        match self.upkeep.make_due(&mut self.engine, due) {
            Ok(()) => self.unkept = None,
            Err(fault) => self.unkept = Some(Unkept { due, fault }),
        }
    }

    /// What was refused of the upkeep after the last step, if anything was.
    pub fn unkept(&self) -> Option<Unkept>
        ensures { result ≡ self.now.unkept }
    {
        self.unkept
    }

    /// Whether the log is as long as its bound, and nothing can be switched since a transaction is active: an opening may have to read more than the bound says.
    pub fn is_held_up(&self) -> bool
        ensures { IsTrue result ↔ IsHeldUp D.Disk self.now.upkeep self.now.engine }
    {
        self.upkeep.is_held_up(&self.engine)
    }

    /// The entries of the map, those of active transactions included, in rising key order. Refused as `Engine::entries` is.
    pub fn entries(&mut self, alloc: Global) -> Result<Vec<(Key, Rid)>, Fault>
        ensures outcome { Looks D.Disk (fault_of result) self.old.engine self.new.engine }
        ensures kept { (before : List Effect) (s : Shown) (v : View) → IsLife D.Disk before s v self.old.engine → LookKept D.Disk before s v self.old.engine self.new.engine }
        ensures entries { IfOk result (λ list. (before : List Effect) (s : Shown) (v : View) → IsLife D.Disk before s v self.old.engine → EntriesKept before s v list.items) }
        ensures upkeep { (self.new.upkeep ≡ self.old.upkeep) × (self.new.unkept ≡ self.old.unkept) }
    {
        self.engine.entries(alloc)
    }

    /// The engine, to be looked at.
    pub fn engine(&self) -> &Engine<D>
        ensures { result.now ≡ self.now.engine }
    {
        &self.engine
    }

    /// Ends the store, and hands the disk back: what is due is made, the log is forced, so that no Commit waits, one that is long, or whose file may be, is left for an empty one where nothing is active, else all pages are written
    /// and a Checkpoint is taken, and the files are synced. What was committed is kept, refused or not; what is active is taken back by the next opening. Where nothing is active and the log
    /// has a bound, it has less than 48 KiB then, or the Switch came last: 64 KiB of each file are enough for the next opening.
    ///
    /// Refused `Failed`, with no device call, where an earlier step broke the engine; else as the step of upkeep is that was refused, or `Device`.
    pub fn close(self) -> (Result<(), Fault>, D)
        ensures { IsEnd D.Disk self result.0 result.1 }
    {
        let mut store = self;
        if store.engine.failed() {
            return (Err(Fault::Failed), store.into_disk());
        }
        let ended = store.end();
        let OpenStore { engine, .. } = store;
        let (synced, disk) = engine.close();
        match ended {
            Ok(()) => (synced, disk),
            Err(fault) => (Err(fault), disk),
        }
    }

    // Makes what is due, and then what the end wants.
    fn end(&mut self) -> Result<(), Fault>
        ensures kept { IsKeptUp D.Disk self.old.engine self.new.engine }
        ensures made { OnOk result (WasEnded D.Disk self.old self.new.engine) }
        ensures refused { IfErr result (WasRefused D.Disk self.old.engine self.new.engine) }
    {
        if let Err(fault) = self.upkeep.keep(&mut self.engine) {
            return Err(fault);
        }
        self.upkeep.close(&mut self.engine)
    }

    /// Hands the engine out, as a front takes it.
    pub fn into_engine(self) -> Engine<D>
        ensures { result ≡ self.engine }
    {
        self.engine
    }

    /// Ends the store with no device call, and hands the disk back. What was committed is kept; the next opening may have much to do.
    pub fn into_disk(self) -> D
        ensures { result ≡ self.engine.disk }
    {
        self.engine.into_disk()
    }
}

// What the files of the logs are. Where the limits will be refused nothing is asked.
fn look<D: Disk>(disk: &mut D, config: Config) -> Result<LogFiles, Fault>
    requires working { D.failed disk.old ≡ false }
    ensures reads { Reads D.Disk disk.old disk.new }
    ensures synced { IsSynced D.Disk disk.old → IsSynced D.Disk disk.new }
    ensures long { AreRight config → IfOk result (λ files. D.tells → IsTrue files.is_long ↔ HasLong (D.seen disk.old)) }
    ensures still { (AreRight config → ⊥) → disk.new ≡ disk.old }
    ensures causes { IfErr result (λ e. (e ≡ Device) × AreRight config) }
    ensures device { result ≡ Err Device ↔ (D.failed disk.new ≡ true) }
{
    if let Some(_fault) = config.refusal() {
        return Ok(LogFiles {
            is_long: false,
            is_bare: false,
        });
    }
    look_at_logs(disk)
}

// Whether something may be due after a reply: the log may have grown, or a transaction has ended.
fn is_followed(reply: &Reply) -> bool
    ensures { result ≡ follows reply.now }
{
    matches!(
        reply,
        Reply::Inserted
            | Reply::Deleted
            | Reply::Committed
            | Reply::RolledBack
            | Reply::More
            | Reply::Done
    )
}
