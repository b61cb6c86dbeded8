//! What redo needs of a log.

ghost use Rattle.im_theory_log.specs.Copies.{redo_all};
ghost use Rattle.im_engine_checkpoint.specs.RedoPoint.{RedoNeedsNothingBefore, RedoPointIsTheLeast};

/// Redo from the redo point on, of pages that begin as their last full copies from there on, or else as the file has them, makes of each
/// what redo of every record makes of the page that the log began with: it needs nothing before the redo point. The log is any whose
/// LSNs rise and which covers the file, as every stop leaves it. It does nothing: its contract is the law.
pub fn redo_needs_nothing_before_the_redo_point()
    ensures { RedoNeedsNothingBefore redo_all }
{}

/// After a Checkpoint the redo point is the least of its LSN and the rec_lsns that it lists: its own LSN where it lists no page. It does
/// nothing: its contract is the law.
pub fn redo_point_is_the_least()
    ensures { RedoPointIsTheLeast }
{}
