//! The next transaction number and the redo point that the records so far leave.

ghost use Rattle.std.specs.Prelude.{◌≡◌, ℕ, ◌∷◌, Some};
ghost use Rattle.im_theory_log.specs.Histories.{History};
ghost use Rattle.im_theory_log.specs.RedoPoints.{least};
ghost use Rattle.im_log_record.specs.Entry.{view, dirty_rows};
ghost use Rattle.im_log.specs.Whats.{what_of};
ghost use Rattle.im_log.specs.Spelled.{logged_at};
ghost use Rattle.im_restart_analysis.specs.Records.{next_in};
ghost use Rattle.im_restart_analysis.specs.Numbers.{IsNextNumber, redo_point_of};

use im_base_types::{Lsn, TxnId};
use im_log_record::{DirtyList, Record};
use std::cmp::max;

// The next number that a Checkpoint names, 0 for other records.
fn checkpoint_next(record: &Record) -> TxnId
    ensures { result ≡ next_in (what_of (view record.now)) }
{
    match record {
        Record::Checkpoint { next, .. } => *next,
        Record::InsertKey { .. }
        | Record::DeleteKey { .. }
        | Record::UndoInsert { .. }
        | Record::UndoDelete { .. }
        | Record::Smo { .. }
        | Record::UndoSmo { .. }
        | Record::DummyClr { .. }
        | Record::Commit { .. }
        | Record::End { .. }
        | Record::Image { .. } => 0,
    }
}

/// The next transaction number once this record is taken.
pub fn next_after(next: TxnId, record: &Record) -> TxnId
    ensures { (lsn least : ℕ) (older : History) → IsNextNumber least next older → IsNextNumber least result (logged_at lsn (view record.now) ∷ older) }
{
    let above = record.transaction().saturating_add(1);
    max(next, max(above, checkpoint_next(record)))
}

// The least of an LSN and the rec_lsns of dirty pages.
fn least(lsn: Lsn, dirty: &DirtyList) -> Lsn
    ensures { result ≡ least lsn (dirty_rows dirty.now) }
{
    let mut lowest = lsn;
    let count = dirty.len();
    for i in 0..count {
        let rec_lsn = dirty.row(i).rec_lsn;
        if rec_lsn < lowest {
            lowest = rec_lsn;
        }
    }
    lowest
}

/// The redo point once this record is taken.
pub fn point_after(point: Option<Lsn>, lsn: Lsn, record: &Record) -> Lsn
    ensures { (older : History) → point ≡ redo_point_of older → Some result ≡ redo_point_of (logged_at lsn (view record.now) ∷ older) }
{
    if let Record::Checkpoint { dirty, .. } = record {
        return least(lsn, dirty);
    }
    match point {
        None => lsn,
        Some(point) => point,
    }
}
