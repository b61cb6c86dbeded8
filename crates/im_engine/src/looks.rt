//! Calls that only look.

ghost use Rattle.std.specs.Prelude.{◌≡◌, ◌≢◌, List, Err, IfOk, IfErr};

use crate::accesses::breaks;
use crate::engine::Engine;
use im_base_disk::Disk;
use im_base_types::{Fault, Key, PageNo, Rid, TxnId};
use im_page::Header;
use im_page_pool::Frame;
use std::alloc::Global;

impl<D: Disk> Engine<D> {
    ghost use Rattle.std.specs.Prelude.{false, true, is_some, Ok};
    ghost use Rattle.std.specs.FinMap.{empty, entries};
    ghost use Rattle.im_base_types.specs.Changes.{Effect, apply_all};
    ghost use Rattle.im_theory_log.specs.Histories.{Base};
    ghost use Rattle.im_theory_log.specs.Histories as histories;
    ghost use Rattle.im_base_types.specs.Lives.{Shown};
    ghost use Rattle.im_base_types.specs.declared.fault.Fault.TheVariants.{Memory, NotAStore, Unfinished};
    ghost use Rattle.im_page_pool.specs.Pool.{page_at, IsAt};
    ghost use Rattle.im_page_writer.specs.Outcome.{fault_of};
    ghost use Rattle.im_theory_machine.specs.View.{View};
    ghost use Rattle.im_engine.specs.Running.{IsRunning, IsLife};
    ghost use Rattle.im_engine.specs.Kept.{LookKept, EntriesKept};
    ghost use Rattle.im_engine.specs.Looking.{Looks, header_of, Counts};
    ghost use Rattle.im_engine.specs.declared.config.Config.{Config};
    ghost use Rattle.im_engine.specs.Opening.{IsOpening};
    ghost use Rattle.im_engine.specs.Stands.{StandsFor};

    /// The entries of the store, those of active transactions included, in rising key order: of one that was just opened those that the
    /// effects make of an empty index for which its files stood (`shown`), whatever steps it makes after that. Refused `Failed`; `Unfinished`
    /// where a structure change is under way that is made page by page; `Memory`, and as a step is that reads a leaf. Every refusal but `Unfinished` and `Memory` breaks
    /// the engine.
    pub fn entries(&mut self, alloc: Global) -> Result<Vec<(Key, Rid)>, Fault>
        ensures outcome { Looks D.Disk (fault_of result) self.old self.new }
        ensures unfinished { self.old.failed ≡ false → is_some self.old.under ≡ true → result ≡ Err Unfinished }
        ensures kept { (before : List Effect) (s : Shown) (v : View) → IsLife D.Disk before s v self.old → LookKept D.Disk before s v self.old self.new }
        ensures entries { IfOk result (λ list. (before : List Effect) (s : Shown) (v : View) → IsLife D.Disk before s v self.old → EntriesKept before s v list.items) }
        ensures shown { IfOk result (λ list. (config : Config) (from : D) → IsOpening D.Disk config from (Ok self.old) → D.tells → (before : List Effect) → StandsFor before (D.seen from) → list.items ≡ entries (apply_all empty before)) }
        ensures never { IfErr result (λ e. (before : List Effect) (s : Shown) (v : View) → IsLife D.Disk before s v self.old → e ≢ NotAStore) }
    {
        if self.failed {
            return Err(Fault::Failed);
        }
        if self.under.is_some() {
            return Err(Fault::Unfinished);
        }
        self.failed = true;
        match im_tree_search::entries(alloc, &mut self.writer, &mut self.disk) {
            Ok(list) => {
                self.failed = false;
                Ok(list)
            }
            Err(fault) => {
                self.failed = breaks(fault);
                Err(fault)
            }
        }
    }

    /// How many changes of a transaction stand: of its replies `Inserted` and `Deleted` those that it did not take back. A later RollTo of as many
    /// returns to here. Refused `Failed`; `NoTransaction` where none of that number is active, or it waits for a force.
    pub fn changes(&self, t: TxnId) -> Result<u64, Fault>
        ensures { Counts D.Disk t self.now result }
    {
        if self.failed {
            return Err(Fault::Failed);
        }
        match self.txns.find(t) {
            Some(row) if !row.mark.is_committing() => Ok(row.changes),
            _ => Err(Fault::NoTransaction),
        }
    }

    /// What a page is for. Refused as `entries` is, but never for want of memory: nothing grows.
    pub fn header(&mut self, page: PageNo) -> Result<Header, Fault>
        ensures outcome { Looks D.Disk (fault_of result) self.old self.new }
        ensures kept { (before : List Effect) (s : Shown) (v : View) → IsLife D.Disk before s v self.old → LookKept D.Disk before s v self.old self.new }
        ensures header { IfOk result (λ header. header ≡ header_of (page_at self.new.writer.pool page)) }
        ensures logged { IfOk result (λ header. (b : Base) (before : List Effect) (s : Shown) (v : View) (r : IsRunning D.Disk b before s v self.old) → header ≡ header_of (histories.page_at b r.now.log page)) }
        ensures never { IfErr result (λ e. (before : List Effect) (s : Shown) (v : View) → IsLife D.Disk before s v self.old → e ≢ NotAStore) }
        ensures memory { result ≢ Err Memory }
    {
        if self.failed {
            return Err(Fault::Failed);
        }
        self.failed = true;
        match self.writer.get(&mut self.disk, page) {
            Ok(frame) => {
                self.failed = false;
                Ok(self.header_at(frame))
            }
            Err(fault) => {
                self.failed = breaks(fault);
                Err(fault)
            }
        }
    }

    // The header of the page that a frame holds.
    fn header_at(&self, frame: Frame) -> Header
        requires at { IsAt self.now.writer.pool frame }
        ensures { result ≡ header_of (page_at self.now.writer.pool frame.number) }
    {
        let page = self.writer.page(frame);
        Header {
            kind: page.kind(),
            level: page.level(),
            count: page.len(),
        }
    }
}
