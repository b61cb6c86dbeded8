//! Upkeep of an open store: Checkpoints, so that its next opening has little to redo, and Switches, so that it has little to read.

ghost use Rattle.std.specs.Prelude.{◌≡◌, ◌⊎◌, ◌↔◌, ◌≤◌, ◌<◌, true, false, OnOk, IfErr, IsTrue};
ghost use Rattle.im_base_steps.specs.Calls.{asked_by};
ghost use Rattle.im_base_steps.specs.Replies.{is_service};
ghost use Rattle.im_base_steps.specs.declared.step.Step.TheVariants as steps;
ghost use Rattle.im_base_steps.specs.declared.reply.Reply.TheVariants.{Refused};
ghost use Rattle.im_engine.specs.Told.{IsStep};
ghost use Rattle.im_store.specs.Noted.{IsNoted, IsNotedBy, IsStill, fresh, noted};
ghost use Rattle.im_store.specs.Numbers.{active_of, durable_end_of, log_length_of};
ghost use Rattle.im_store.specs.Upkeep.{IsKeptUp};
ghost use Rattle.im_store.specs.Rule.{IsByRule, IsDue, IsEnded, IsHeldUp, IsLongAtEnd, IsRedoLong, IsSwitchDue, IsTaken, IsWritten, KnowsPages, MadeLast, MayBeLong, WasRefused, WentOn};

use crate::ahead::Ahead;
use crate::bounds::Bounds;
use crate::due::Due;
use crate::log_files::LogFiles;
use crate::redo_bound::{is_closed, redo_length};
use im_base_disk::Disk;
use im_base_steps::{Reply, Step};
use im_base_two_logs::TwoLogs;
use im_base_types::{Fault, Lsn, PageNo};
use im_engine::Engine;

/// So many eighths of a bound are reached where what it asks for is due.
const DUE: u64 = 7;

/// So many where pages are written for a Switch that is to come.
const NEAR: u64 = 6;

/// So many eighths of its bound does a log have that goes on in the other file in the place of a Checkpoint.
const IN_PLACE: u64 = 4;

/// And so many where pages are written for that.
const NEAR_IN_PLACE: u64 = 3;

/// At the end a log of so many bytes is left for an empty one: a put makes its file longer by up to 16,390 bytes more, and no close leaves one of more than 65,536.
const AT_END: u64 = 49_152;

/// How long a log is that has no record.
const EMPTY: u64 = 47;

/// Takes Checkpoints of an open store, whose steps are made by it, and lets its log go on in the other file.
#[derive(Clone, Copy, Debug)]
pub struct Upkeep {
    bounds: Bounds,
    // An opening would redo from this LSN on, or from a later one, were the store to stop now.
    from: Lsn,
    // How many pages the file has, as far as they were written by it.
    pages: PageNo,
    // What was written for the Switch that is to come.
    ahead: Ahead,
    // The other log is one of the first format.
    is_upgraded: bool,
    // The log of the opening begins with this LSN, so no log has more bytes than were logged from here on, but for what its file had before.
    begun: Lsn,
    // A log's file may have had more bytes at the opening than a close leaves.
    is_long: bool,
    // The log that was left may begin with no batch, so that no close cuts it.
    is_bare: bool,
}

impl Upkeep {
    /// That of a store that was just opened, whose logs may have long files. Of a log that has no record nothing is to be redone, wherever redo began: an opening reads from the log's
    /// begin on.
    pub fn of<D: Disk>(engine: &Engine<D>, bounds: Bounds) -> Upkeep
        ensures bounds { result.bounds ≡ bounds }
        ensures first { result.is_upgraded ≡ false }
        ensures fresh { result ≡ fresh D.Disk bounds engine.now }
    {
        let begun = engine.durable_end().saturating_sub(engine.log_length());
        Upkeep {
            bounds,
            from: engine.redo_report().point.max(begun),
            pages: 0,
            ahead: Ahead::Unseen,
            is_upgraded: false,
            begun,
            is_long: true,
            is_bare: false,
        }
    }

    /// The files of the logs are so, as `look_at_logs` said before the opening.
    pub fn know_files(&mut self, files: LogFiles)
        ensures { self.new ≡ record self.old { is_long = files.is_long; is_bare = files.is_bare } }
    {
        self.is_long = files.is_long;
        self.is_bare = files.is_bare;
    }

    /// The other log is one of the first format, as `Engine::had_first_format` says. A Switch is then due as soon as nothing is active, so that both
    /// files are of the second format, and a program of the first opens neither.
    pub fn leave_first_format(&mut self)
        ensures { self.new ≡ record self.old { is_upgraded = true } }
    {
        self.is_upgraded = true;
    }

    /// Makes a step, and answers it. After a Checkpoint or a Switch that was done less is redone, and is known to be.
    pub fn step<D: TwoLogs>(&mut self, engine: &mut Engine<D>, step: &Step) -> Reply
        ensures made { IsStep D.Disk step.now result engine.old engine.new }
        ensures noted { self.new ≡ noted D.Disk step.now result (durable_end_of D.Disk engine.old) (log_length_of D.Disk engine.old) engine.new self.old }
        ensures pages { self.new.pages ≡ self.old.pages }
        ensures bounds { self.new.bounds ≡ self.old.bounds }
    {
        let end = engine.durable_end();
        let length = engine.log_length();
        let reply = engine.step(step);
        self.note(engine, step, &reply, end, length);
        reply
    }

    // Notes what a step leaves, before which the durable log ended there and was so long.
    fn note<D: Disk>(
        &mut self,
        engine: &Engine<D>,
        step: &Step,
        reply: &Reply,
        end: Lsn,
        length: u64,
    )
        ensures { self.new ≡ noted D.Disk step.now reply.now end length engine.now self.old }
    {
        match (step, reply) {
            (Step::Checkpoint, Reply::Done) => {
                self.from = match engine.oldest_change() {
                    Some(change) => change.rec_lsn.min(end),
                    None => end,
                };
            }
            (Step::Switch, Reply::Done) => {
                self.from = engine.durable_end();
                self.ahead = Ahead::Unseen;
                self.is_upgraded = false;
                self.is_bare = length == EMPTY;
            }
            _ => {}
        }
    }

    /// What is due, after an opening or a reply.
    pub fn due<D: Disk>(&self, engine: &Engine<D>) -> Due
        ensures { IsDue D.Disk self.now engine.now result }
    {
        let is_redo_long = self.is_redo_long(engine, DUE);
        if self.is_log_long(engine, is_redo_long) {
            Due::Switch
        } else if is_redo_long {
            Due::Checkpoint
        } else {
            Due::Nothing
        }
    }

    /// Whether the log is as long as its bound, and nothing can be switched since a transaction is active: an opening may have to read more than the bound says.
    pub fn is_held_up<D: Disk>(&self, engine: &Engine<D>) -> bool
        ensures { IsTrue result ↔ IsHeldUp D.Disk self.now engine.now }
    {
        engine.active() > 0 && self.bounds.log.over(self.pages).has(8, engine.log_length())
    }

    /// Makes what is due, after an opening or a step: a Switch, or a Checkpoint, or, where one of them comes soon, the write of a page.
    ///
    /// Refused as the step is that was refused.
    pub fn keep<D: TwoLogs>(&mut self, engine: &mut Engine<D>) -> Result<(), Fault>
        ensures kept { IsKeptUp D.Disk engine.old engine.new }
        ensures rule { OnOk result (IsByRule D.Disk self.old engine.old engine.new) }
        ensures refused { IfErr result (WasRefused D.Disk engine.old engine.new) }
        ensures bounds { self.new.bounds ≡ self.old.bounds }
        ensures pages { KnowsPages D.Disk engine.old self.old.pages self.new.pages }
        ensures noted { IsNoted D.Disk self.old engine.old engine.new self.new }
    {
        let due = self.due(engine);
        self.make_due(engine, due)
    }

    /// The same of what was found to be due.
    pub(crate) fn make_due<D: TwoLogs>(
        &mut self,
        engine: &mut Engine<D>,
        due: Due,
    ) -> Result<(), Fault>
        requires due { IsDue D.Disk self.old engine.old due }
        ensures kept { IsKeptUp D.Disk engine.old engine.new }
        ensures rule { OnOk result (IsByRule D.Disk self.old engine.old engine.new) }
        ensures refused { IfErr result (WasRefused D.Disk engine.old engine.new) }
        ensures bounds { self.new.bounds ≡ self.old.bounds }
        ensures pages { KnowsPages D.Disk engine.old self.old.pages self.new.pages }
        ensures noted { IsNoted D.Disk self.old engine.old engine.new self.new }
    {
        if engine.failed() {
            return Ok(());
        }
        match due {
            Due::Switch => self.make(engine, &Step::Switch),
            Due::Checkpoint => self.take_checkpoint(engine, false),
            Due::Nothing => self.write_ahead(engine),
        }
    }

    /// Leaves little for the next opening, after the last step, and short logs for whoever cuts them. Where nothing is active, a log of 48 KiB or more is left for an empty one, and so is
    /// one that has a record where so much was logged since the opening, or a file was longer before it: that of the log may be, which is not cut then. Else all changed pages are written
    /// and a Checkpoint is taken, so that nothing is to be redone. A store of which that is so already is left as it is, and so is one that has failed. Before all that the log is forced, whatever
    /// the bounds are: a Commit that waits is made then.
    ///
    /// Refused as the step is that was refused.
    pub fn close<D: TwoLogs>(&mut self, engine: &mut Engine<D>) -> Result<(), Fault>
        ensures kept { IsKeptUp D.Disk engine.old engine.new }
        ensures rule { OnOk result (IsEnded D.Disk self.old engine.old engine.new) }
        ensures refused { IfErr result (WasRefused D.Disk engine.old engine.new) }
        ensures bounds { self.new.bounds ≡ self.old.bounds }
        ensures pages { KnowsPages D.Disk engine.old self.old.pages self.new.pages }
    {
        if engine.failed() {
            return Ok(());
        }
        if let Err(fault) = self.make(engine, &Step::Force) {
            return Err(fault);
        }
        self.end(engine)
    }

    // What is made after the force, at the end.
    fn end<D: TwoLogs>(&mut self, engine: &mut Engine<D>) -> Result<(), Fault>
        ensures switched { OnOk result (IsLongAtEnd D.Disk self.old engine.old → WentOn D.Disk engine.old engine.new) }
        ensures short { OnOk result (1 ≤ self.old.bounds.log.bytes → active_of D.Disk engine.new ≡ 0 → (log_length_of D.Disk engine.new < 49152) ⊎ WentOn D.Disk engine.old engine.new) }
        ensures kept { OnOk result (IsKeptUp D.Disk engine.old engine.new) }
        ensures refused { IfErr result (WasRefused D.Disk engine.old engine.new) }
        ensures bounds { self.new.bounds ≡ self.old.bounds }
        ensures pages { KnowsPages D.Disk engine.old self.old.pages self.new.pages }
    {
        if self.is_long_at_end(engine) {
            return self.leave_log(engine);
        }
        if let Err(fault) = self.write_all(engine) {
            return Err(fault);
        }
        // The full copies of the pages may have made it long.
        if self.is_long_at_end(engine) {
            return self.leave_log(engine);
        }
        Ok(())
    }

    // Leaves the log for an empty one, with a batch by which a cut knows where to end.
    fn leave_log<D: TwoLogs>(&mut self, engine: &mut Engine<D>) -> Result<(), Fault>
        ensures went_on { OnOk result (WentOn D.Disk engine.old engine.new) }
        ensures refused { IfErr result (WasRefused D.Disk engine.old engine.new) }
        ensures bounds { self.new.bounds ≡ self.old.bounds }
        ensures pages { self.new.pages ≡ self.old.pages }
    {
        if engine.log_length() > EMPTY {
            return self.make(engine, &Step::Switch);
        }
        if let Err(fault) = self.make(engine, &Step::Checkpoint) {
            return Err(fault);
        }
        self.make(engine, &Step::Switch)
    }

    // Writes all changed pages and takes a Checkpoint, where something would be redone and that has a bound.
    fn write_all<D: TwoLogs>(&mut self, engine: &mut Engine<D>) -> Result<(), Fault>
        ensures kept { OnOk result (IsKeptUp D.Disk engine.old engine.new) }
        ensures refused { IfErr result (WasRefused D.Disk engine.old engine.new) }
        ensures bounds { self.new.bounds ≡ self.old.bounds }
        ensures pages { KnowsPages D.Disk engine.old self.old.pages self.new.pages }
    {
        if !self.bounds.redo.is_set()
            || is_closed(self.from, engine.durable_end(), engine.dirty_count())
        {
            return Ok(());
        }
        self.take_checkpoint(engine, true)
    }

    // Whether the log is left for an empty one at the end.
    fn is_long_at_end<D: Disk>(&self, engine: &Engine<D>) -> bool
        ensures { IsTrue result ↔ IsLongAtEnd D.Disk self.now engine.now }
    {
        engine.active() == 0
            && self.bounds.log.is_set()
            && (self.is_bare || engine.log_length() > EMPTY)
            && self.may_be_long(engine)
    }

    // Whether a log's file may have more bytes than a close leaves, counted with the full copies that are still to come.
    fn may_be_long<D: Disk>(&self, engine: &Engine<D>) -> bool
        ensures { IsTrue result ↔ MayBeLong D.Disk self.now engine.now }
    {
        self.is_long
            || engine.log_length() >= AT_END
            || redo_length(self.begun, engine.durable_end(), engine.dirty_count())
                >= u128::from(AT_END)
    }

    // Whether so many eighths of what an opening may have to redo are reached.
    fn is_redo_long<D: Disk>(&self, engine: &Engine<D>, eighths: u64) -> bool
        requires few { eighths ≤ 8 }
        ensures { IsTrue result ↔ IsRedoLong D.Disk eighths self.now engine.now }
    {
        self.bounds.redo.over(self.pages).is_reached(
            eighths,
            self.from,
            engine.durable_end(),
            engine.dirty_count(),
        )
    }

    // Whether the log may go on in the other file and is long enough for it, where a Checkpoint is due or not.
    fn is_log_long<D: Disk>(&self, engine: &Engine<D>, is_redo_long: bool) -> bool
        requires redo { IsTrue is_redo_long ↔ IsRedoLong D.Disk 7 self.now engine.now }
        ensures { IsTrue result ↔ IsSwitchDue D.Disk self.now engine.now }
    {
        let bound = self.bounds.log.over(self.pages);
        let length = engine.log_length();
        engine.active() == 0
            && (bound.has(DUE, length)
                || (is_redo_long && bound.has(IN_PLACE, length))
                || (self.is_upgraded && bound.is_set()))
    }

    // Whether a Switch comes soon.
    fn is_near<D: Disk>(&self, engine: &Engine<D>) -> bool {
        let bound = self.bounds.log.over(self.pages);
        let length = engine.log_length();
        bound.has(NEAR, length)
            || (bound.has(NEAR_IN_PLACE, length) && self.is_redo_long(engine, NEAR))
    }

    // Takes a Checkpoint, after writes of pages.
    fn take_checkpoint<D: TwoLogs>(
        &mut self,
        engine: &mut Engine<D>,
        is_last: bool,
    ) -> Result<(), Fault>
        ensures taken { OnOk result (MadeLast D.Disk steps.Checkpoint engine.old engine.new) }
        ensures refused { IfErr result (WasRefused D.Disk engine.old engine.new) }
        ensures bounds { self.new.bounds ≡ self.old.bounds }
        ensures pages { KnowsPages D.Disk engine.old self.old.pages self.new.pages }
        ensures noted { IsNoted D.Disk self.old engine.old engine.new self.new }
    {
        if let Err(fault) = self.write_oldest(engine, is_last) {
            return Err(fault);
        }
        self.make(engine, &Step::Checkpoint)
    }

    // Writes the pages whose changes are the oldest: all of them at the end, else so many that half of
    // the bound is free after a Checkpoint, or most of one that has grown. How long the file of pages is, where a bound grows with it, it knows by the pages that it wrote so.
    fn write_oldest<D: TwoLogs>(
        &mut self,
        engine: &mut Engine<D>,
        is_last: bool,
    ) -> Result<(), Fault>
        ensures written { OnOk result (IsWritten D.Disk engine.old engine.new) }
        ensures refused { IfErr result (WasRefused D.Disk engine.old engine.new) }
        ensures bounds { self.new.bounds ≡ self.old.bounds }
        ensures pages { KnowsPages D.Disk engine.old self.old.pages self.new.pages }
        ensures still { IsStill self.old self.new }
    {
        let most = engine.dirty_count();
        let mut pages = most;
        for _written in 0..most {
            let Some(change) = engine.oldest_change() else {
                break;
            };
            self.pages = self.pages.max(change.page.saturating_add(1));
            let end = engine.durable_end();
            if !is_last
                && !self
                    .bounds
                    .redo
                    .left(self.pages)
                    .wants_write(change.rec_lsn, end, pages)
            {
                break;
            }
            if let Err(fault) = self.make(engine, &Step::FlushPage(change.page)) {
                return Err(fault);
            }
            pages = pages.saturating_sub(1);
        }
        Ok(())
    }

    // Writes the page with the oldest change where a Switch comes soon and that change is from before this was seen.
    fn write_ahead<D: TwoLogs>(&mut self, engine: &mut Engine<D>) -> Result<(), Fault>
        ensures written { OnOk result (IsWritten D.Disk engine.old engine.new) }
        ensures refused { IfErr result (WasRefused D.Disk engine.old engine.new) }
        ensures bounds { self.new.bounds ≡ self.old.bounds }
        ensures pages { KnowsPages D.Disk engine.old self.old.pages self.new.pages }
        ensures still { IsStill self.old self.new }
    {
        if !self.is_near(engine) {
            return Ok(());
        }
        let begun = match self.ahead {
            Ahead::Unseen => engine.durable_end(),
            Ahead::Below(begun) => begun,
            Ahead::Written => return Ok(()),
        };
        self.ahead = Ahead::Below(begun);
        let Some(change) = engine.oldest_change() else {
            return Ok(());
        };
        self.pages = self.pages.max(change.page.saturating_add(1));
        if change.rec_lsn < begun {
            self.make(engine, &Step::FlushPage(change.page))
        } else {
            self.ahead = Ahead::Written;
            Ok(())
        }
    }

    // Makes a step that is of no transaction.
    fn make<D: TwoLogs>(&mut self, engine: &mut Engine<D>, step: &Step) -> Result<(), Fault>
        requires { is_service (asked_by step.now) ≡ true }
        ensures taken { OnOk result (IsTaken D.Disk step.now engine.old engine.new) }
        ensures refused { IfErr result (λ fault. IsStep D.Disk step.now (Refused fault) engine.old engine.new) }
        ensures bounds { self.new.bounds ≡ self.old.bounds }
        ensures pages { self.new.pages ≡ self.old.pages }
        ensures noted { IsNotedBy D.Disk step.now self.old engine.old engine.new self.new }
    {
        match self.step(engine, step) {
            Reply::Refused(fault) => Err(fault),
            _ => Ok(()),
        }
    }
}
