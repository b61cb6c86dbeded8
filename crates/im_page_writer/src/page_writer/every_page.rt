//! Every page that was changed is written, an entry of the dirty table at a time.

ghost use Rattle.std.specs.Prelude.{◌≡◌, ◌<◌, ℕ, [], Ok, false, length, slice_index_or, OnOk};
ghost use Rattle.im_theory_log.specs.Histories.{Base};
ghost use Rattle.im_theory_log.specs.Writer.{Writer};

use crate::PageWriter;
use im_base_disk::Disk;
use im_base_types::{Fault, PageNo};

impl PageWriter {
    ghost use Rattle.im_page_writer.specs.Outcome.{fault_of, Flushes};
    ghost use Rattle.im_page_writer.specs.PageWriter.{IsReadyWriter, StandsAs};
    ghost use Rattle.im_page_writer.specs.FlushedRows.{FlushedNumbers, FlushedAll};
    ghost use Rattle.im_page_flush.specs.Writing.{SameHeld};

    // How many numbers were copied from the dirty table.
    fn number_count(&self) -> usize
        ensures { result ≡ length self.now.numbers.items }
    {
        self.numbers.len()
    }

    // One of them.
    fn number_at(&self, at: usize) -> PageNo
        requires within { at < length self.now.numbers.items }
        ensures { (else : ℕ) → result ≡ slice_index_or self.now.numbers.items at else }
    {
        self.numbers[at]
    }

    // Writes the pages of these numbers, each as `flush_in_company` does.
    fn flush_numbers<D: Disk>(&mut self, disk: &mut D) -> Result<(), Fault>
        requires ready { IsReadyWriter D.Disk self.old disk.old }
        requires working { self.old.failed ≡ false }
        ensures outcome { Flushes D.Disk self.old disk.old self.new disk.new (fault_of result) }
        ensures kept { (b : Base) (base : ℕ) (s : Writer) → StandsAs D.Disk b base s self.old disk.old → OnOk result (FlushedNumbers D.Disk b base s self.old.numbers.items (length self.old.numbers.items) disk.old self.new disk.new) }
        ensures held { OnOk result (SameHeld self.old.pool self.new.pool) }
        ensures none { self.old.numbers.items ≡ [] → (result ≡ Ok tt) × (disk.new ≡ disk.old) }
    {
        for i in 0..self.number_count() {
            let number = self.number_at(i);
            self.flush_in_company(disk, number)?;
        }
        Ok(())
    }

    // Writes every page that was changed, in rising number, each as `flush_in_company` does.
    pub(super) fn flush_every<D: Disk>(&mut self, disk: &mut D) -> Result<(), Fault>
        requires ready { IsReadyWriter D.Disk self.old disk.old }
        requires working { self.old.failed ≡ false }
        ensures outcome { Flushes D.Disk self.old disk.old self.new disk.new (fault_of result) }
        ensures kept { (b : Base) (base : ℕ) (s : Writer) → StandsAs D.Disk b base s self.old disk.old → OnOk result (FlushedAll D.Disk b base s disk.old self.new disk.new) }
        ensures held { OnOk result (SameHeld self.old.pool self.new.pool) }
        ensures none { self.old.table.entries ≡ [] → (result ≡ Ok tt) × (disk.new ≡ disk.old) }
    {
        let _few = self.table.len();
        self.table.copy_numbers(&mut self.numbers);
        self.flush_numbers(disk)
    }
}
