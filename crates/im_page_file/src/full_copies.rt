//! The law of full copies, as the contract of a function that does nothing.
ghost use Rattle.std.specs.Prelude.{◌≡◌, ℕ, true};
ghost use Rattle.im_theory_log.specs.Histories.{Base};
ghost use Rattle.im_theory_log.specs.Writer.{Writer, HasFullCopy};
ghost use Rattle.im_log.specs.declared.log_file.LogFile.{LogFile};
ghost use Rattle.im_page_table.specs.DirtyTable.{TableView};
ghost use Rattle.im_page_file.specs.Stands.{Stands};

use im_base_disk::Disk;

/// A page that was written since the last sync of its file has an entry in the dirty table, and the durable log a full copy of it at
/// or after the redo point of every log that a stop can leave: whatever a stop leaves of the page, redo has that copy.
pub fn written_pages_have_copies<D: Disk>()
    ensures { (disk : D) (b : Base) (base : ℕ) (s : Writer) (log : LogFile) (table : TableView) → Stands D.Disk b base s log table disk
        → (p : ℕ) → (s.pages p).unsynced ≡ true → HasFullCopy s p }
{}
