//! A structure change that goes on page by page, and what others are told of it.

ghost use Rattle.std.specs.Prelude.{◌≡◌, ◌<◌, ℕ, false, true, length, Some, OnErr};
ghost use Rattle.im_theory_log.specs.Histories.{Base};
ghost use Rattle.im_theory_log.specs.Writer.{Writer};
ghost use Rattle.im_page_writer.specs.PageWriter.{IsReadyWriter, StandsAs};
ghost use Rattle.im_page_writer.specs.Outcome.{fault_of, mild, Logs};
ghost use Rattle.im_smo_log.specs.Changes.{ChangeKept, MayChange};
ghost use Rattle.im_smo_log.specs.ChangePages.{numbers_of};
ghost use Rattle.im_smo_log.specs.Stepping.{StepKept};

use im_base_disk::Disk;
use im_base_types::{Fault, Lsn, PageNo};
use im_page_writer::PageWriter;
use im_smo_log::Change;
use im_tree_search::Beside;

/// A structure change under way: its pages' numbers are those of its images, and `count` is how many pages the store had before it.
#[derive(Drop)]
pub struct BegunChange {
    pub(crate) change: Change,
    pub(crate) numbers: Vec<PageNo>,
    pub(crate) count: PageNo,
    ghost named: { numbers.items ≡ numbers_of change.images },
}

impl BegunChange {
    /// As others are told of it.
    pub fn beside(&self) -> Beside<'_>
        ensures pages { result.pages.now ≡ numbers_of self.now.change.images }
        ensures done { result.done ≡ self.now.change.done }
        ensures count { result.count ≡ self.now.count }
    {
        Beside::of(self.numbers.as_slice(), self.change.done(), self.count)
    }

    /// The change itself.
    pub fn change(&self) -> &Change
        ensures { result.now ≡ self.now.change }
    {
        &self.change
    }

    /// Logs its next page, with the mark of a structure change under way, as `Change::step` does.
    pub fn step<D: Disk>(&mut self, writer: &mut PageWriter, disk: &mut D) -> Result<(), Fault>
        requires ready { IsReadyWriter D.Disk writer.old disk.old }
        requires working { writer.old.failed ≡ false }
        requires left { self.old.change.done < length self.old.change.images }
        ensures outcome { Logs D.Disk false mild writer.old disk.old writer.new disk.new (fault_of result) }
        ensures kept { (b : Base) (base : ℕ) (s : Writer) (e : ℕ) → StandsAs D.Disk b base s writer.old disk.old → s.redo_end ≡ Some e
            → StepKept D.Disk b base s self.old.change true disk.old self.new.change writer.new disk.new result }
        ensures same { OnErr result (self.new.change ≡ self.old.change) }
        ensures plan { (self.new.change.images ≡ self.old.change.images) × (self.new.change.transaction ≡ self.old.change.transaction) × (self.new.change.undo_next ≡ self.old.change.undo_next) × (self.new.count ≡ self.old.count) }
    {
        self.change.step(writer, disk, true)
    }

    /// Logs all of it at once, as `Change::run` does, where no page of it is logged yet.
    pub fn run<D: Disk>(&self, writer: &mut PageWriter, disk: &mut D) -> Result<Lsn, Fault>
        requires ready { IsReadyWriter D.Disk writer.old disk.old }
        requires working { writer.old.failed ≡ false }
        ensures outcome { Logs D.Disk true mild writer.old disk.old writer.new disk.new (fault_of result) }
        ensures kept { (b : Base) (base : ℕ) (s : Writer) (e : ℕ) → MayChange D.Disk b base s e self.now.change.images self.now.change.transaction self.now.change.last self.now.change.undo_next writer.old disk.old
            → ChangeKept D.Disk b base s e self.now.change.images self.now.change.transaction self.now.change.undo_next disk.old writer.new disk.new result }
    {
        self.change.run(writer, disk)
    }
}
