//! The steps of a structure change that is made page by page, with records of others between its pages.

ghost use Rattle.std.specs.Prelude.{◌≡◌, ◌<◌, ◌≤◌, ◌↔◌, ℕ, false, true, length, Some, IfErr, IfOk, IsTrue, OnErr};
ghost use Rattle.im_base_types.specs.declared.fault.Fault.TheVariants.{Memory};
ghost use Rattle.im_theory_log.specs.Histories.{Base};
ghost use Rattle.im_theory_log.specs.Writer.{Writer};
ghost use Rattle.im_page_writer.specs.PageWriter.{IsReadyWriter, StandsAs};
ghost use Rattle.im_page_writer.specs.Outcome.{fault_of, mild, none_mild, Logs};
ghost use Rattle.im_smo_log.specs.Changes.{AreCounted, ChangeKept, MayChange};
ghost use Rattle.im_smo_log.specs.ChangePages.{numbers_of};
ghost use Rattle.im_smo_log.specs.Stepping.{StepKept, CloseKept};

use crate::change::Change;
use crate::page_record::{log_closing, log_image};
use crate::plan_numbers::page_numbers;
use crate::structure_change::{are_counted, run};
use im_base_disk::Disk;
use im_base_types::{Fault, Lsn, PageNo, TxnId};
use im_page_writer::PageWriter;
use im_smo_pages::Images;
use std::alloc::Global;

impl Change {
    /// A structure change of which no page is logged. It takes no memory; images that are none of a plan are refused `Memory`, as
    /// `run` refuses them.
    pub fn begin(
        images: Images,
        transaction: TxnId,
        last: Lsn,
        undo_next: Lsn,
    ) -> Result<Change, Fault>
        requires owner { 1 ≤ transaction }
        ensures begun { IfOk result (λ change. (change.images ≡ images) × (change.done ≡ 0) × (change.transaction ≡ transaction) × (change.last ≡ last) × (change.undo_next ≡ undo_next)) }
        ensures refused { IfErr result (λ e. (e ≡ Memory) × ¬ (AreCounted images)) }
    {
        if !are_counted(&images) {
            return Err(Fault::Memory);
        }
        Ok(Change::begin_counted(images, transaction, last, undo_next))
    }

    /// The same of images that are known to be those of a plan (`are_counted`), which is never refused.
    pub fn begin_counted(images: Images, transaction: TxnId, last: Lsn, undo_next: Lsn) -> Change
        requires owner { 1 ≤ transaction }
        requires counted { AreCounted images }
        ensures begun { (result.images ≡ images) × (result.done ≡ 0) × (result.transaction ≡ transaction) × (result.last ≡ last) × (result.undo_next ≡ undo_next) }
    {
        Change {
            images,
            done: 0,
            transaction,
            last,
            undo_next,
        }
    }

    /// Logs the next page, as it is and as it will be, and makes it so. Where `marked` is asked for, the page will be with the mark
    /// of a structure change under way, as others have to see it between two steps. Refused `Memory` with all as it was, so that it may be asked
    /// again; `LogFull`, `Device`, or `NotAStore` where a page's bytes are none.
    pub fn step<D: Disk>(
        &mut self,
        writer: &mut PageWriter,
        disk: &mut D,
        marked: bool,
    ) -> Result<(), Fault>
        requires ready { IsReadyWriter D.Disk writer.old disk.old }
        requires working { writer.old.failed ≡ false }
        requires left { self.old.done < length self.old.images }
        ensures outcome { Logs D.Disk false mild writer.old disk.old writer.new disk.new (fault_of result) }
        ensures kept { (b : Base) (base : ℕ) (s : Writer) (e : ℕ) → StandsAs D.Disk b base s writer.old disk.old → s.redo_end ≡ Some e
            → StepKept D.Disk b base s self.old marked disk.old self.new writer.new disk.new result }
        ensures same { OnErr result (self.new ≡ self.old) }
        ensures plan { (self.new.images ≡ self.old.images) × (self.new.transaction ≡ self.old.transaction) × (self.new.undo_next ≡ self.old.undo_next) }
    {
        let _fits = self.images.len();
        let lsn = log_image(
            writer,
            disk,
            &self.images,
            self.done,
            self.transaction,
            self.last,
            marked,
        )?;
        self.done += 1;
        self.last = lsn;
        Ok(())
    }

    /// Logs the record that closes the change, after its last page, from which undo goes on where it stood. It answers that
    /// record's LSN. It wants no memory; refused `LogFull` or `Device`.
    pub fn close<D: Disk>(&self, writer: &mut PageWriter, disk: &mut D) -> Result<Lsn, Fault>
        requires ready { IsReadyWriter D.Disk writer.old disk.old }
        requires working { writer.old.failed ≡ false }
        requires end { self.now.done ≡ length self.now.images }
        ensures outcome { Logs D.Disk false none_mild writer.old disk.old writer.new disk.new (fault_of result) }
        ensures kept { (b : Base) (base : ℕ) (s : Writer) (e : ℕ) → StandsAs D.Disk b base s writer.old disk.old → s.redo_end ≡ Some e
            → CloseKept D.Disk b base s self.now disk.old writer.new disk.new result }
    {
        log_closing(writer, disk, self.transaction, self.last, self.undo_next)
    }

    /// Logs all of it at once, as `run` does, where no page of it is logged yet. It answers the LSN of the record that closes it, and is refused as
    /// `run` is.
    pub fn run<D: Disk>(&self, writer: &mut PageWriter, disk: &mut D) -> Result<Lsn, Fault>
        requires ready { IsReadyWriter D.Disk writer.old disk.old }
        requires working { writer.old.failed ≡ false }
        ensures outcome { Logs D.Disk true mild writer.old disk.old writer.new disk.new (fault_of result) }
        ensures kept { (b : Base) (base : ℕ) (s : Writer) (e : ℕ) → MayChange D.Disk b base s e self.now.images self.now.transaction self.now.last self.now.undo_next writer.old disk.old
            → ChangeKept D.Disk b base s e self.now.images self.now.transaction self.now.undo_next disk.old writer.new disk.new result }
    {
        run(
            writer,
            disk,
            &self.images,
            self.transaction,
            self.last,
            self.undo_next,
        )
    }

    /// Whether a page of it is still to be logged.
    pub fn is_left(&self) -> bool
        ensures { IsTrue result ↔ (self.now.done < length self.now.images) }
    {
        self.done < self.images.len()
    }

    /// How many of its pages are logged.
    pub fn done(&self) -> usize
        ensures { result ≡ self.now.done }
    {
        self.done
    }

    /// The numbers of all its pages, in the order in which they are logged: of a search beside it the first `done` of them are hidden.
    /// Refused `Memory` where it is wanted for the list.
    pub fn numbers(&self, alloc: Global) -> Result<Vec<PageNo>, Fault>
        ensures numbers { IfOk result (λ list. list.items ≡ numbers_of self.now.images) }
        ensures memory { IfErr result (λ e. e ≡ Memory) }
    {
        page_numbers(alloc, &self.images)
    }

    /// The transaction whose change it is.
    pub fn owner(&self) -> TxnId
        ensures { result ≡ self.now.transaction }
    {
        self.transaction
    }

    /// The LSN of its newest record, or of its transaction's newest one where no page is logged.
    pub fn last(&self) -> Lsn
        ensures { result ≡ self.now.last }
    {
        self.last
    }

    /// Where undo of its transaction goes on after it.
    pub fn undo_next(&self) -> Lsn
        ensures { result ≡ self.now.undo_next }
    {
        self.undo_next
    }
}
