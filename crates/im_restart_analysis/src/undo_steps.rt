//! Where undo goes on after a record.

ghost use Rattle.std.specs.Prelude.{◌≡◌, ◌<◌, true, false, IfErr, IfOk};
ghost use Rattle.im_base_types.specs.declared.fault.Fault.TheVariants.{NotAStore};
ghost use Rattle.im_theory_log.specs.Transactions.{is_key};
ghost use Rattle.im_log_record.specs.Entry.{view, prev_of, undo_next_of};
ghost use Rattle.im_log.specs.Whats.{what_of};
ghost use Rattle.im_restart_analysis.specs.Undo.{LeadsNowhere, MayLeadOn};

use im_base_types::{Fault, Lsn};
use im_log_record::Record;

/// Whether it is an insert or a delete of a key.
pub fn is_key_record(record: &Record) -> bool
    ensures { result ≡ is_key (what_of (view record.now)) }
{
    match record {
        Record::InsertKey { .. } | Record::DeleteKey { .. } => true,
        Record::UndoInsert { .. }
        | Record::UndoDelete { .. }
        | Record::Smo { .. }
        | Record::UndoSmo { .. }
        | Record::DummyClr { .. }
        | Record::Commit { .. }
        | Record::End { .. }
        | Record::Image { .. }
        | Record::Checkpoint { .. } => false,
    }
}

/// Where undo goes on after the record at an LSN: a key record names its transaction's record before, and a compensation or the end of a
/// structure change the next one to undo.
///
/// Refused `NotAStore` for another record, and where that is no earlier one.
pub fn undo_next_after(record: &Record, lsn: Lsn) -> Result<Lsn, Fault>
    ensures key { IfOk result (λ next. is_key (what_of (view record.now)) ≡ true → next ≡ prev_of (view record.now)) }
    ensures other { IfOk result (λ next. is_key (what_of (view record.now)) ≡ false → MayLeadOn (what_of (view record.now)) × (next ≡ undo_next_of (view record.now))) }
    ensures falls { IfOk result (λ next. next < lsn) }
    ensures refused { IfErr result (λ e. (e ≡ NotAStore) × LeadsNowhere (view record.now) lsn) }
{
    let next = match record {
        Record::InsertKey { prev, .. } | Record::DeleteKey { prev, .. } => *prev,
        Record::UndoInsert { undo_next, .. }
        | Record::UndoDelete { undo_next, .. }
        | Record::UndoSmo { undo_next, .. }
        | Record::DummyClr { undo_next, .. } => *undo_next,
        Record::Smo { .. }
        | Record::Commit { .. }
        | Record::End { .. }
        | Record::Image { .. }
        | Record::Checkpoint { .. } => return Err(Fault::NotAStore),
    };
    if next >= lsn {
        return Err(Fault::NotAStore);
    }
    Ok(next)
}
