//! Laws of redo, of what logs cover and of page writes.

ghost use Rattle.im_theory_log.specs.Copies.{redo_all};
ghost use Rattle.im_theory_log.specs.PageLaws.{RedoReachesThePage, ReachedPagesMayBeCopied, CoverIsKept, PageWritesAreCovered};

/// Redo by LSN makes of each page what the whole log made of it, whatever page it begins with, if that has
/// had all its records below the redo point.
pub fn redo_reaches_the_page()
    ensures { RedoReachesThePage redo_all }
{}

/// A page in the middle of redo is one that an Image may hold.
pub fn reached_pages_may_be_copied()
    ensures { ReachedPagesMayBeCopied }
{}

/// A log goes on covering the files that it covers, by every append and by a Checkpoint.
pub fn cover_is_kept()
    ensures { CoverIsKept }
{}

/// Every step of a writer of pages keeps what it keeps, and what a stop leaves at any moment is covered.
pub fn page_writes_are_covered()
    ensures { PageWritesAreCovered }
{}
