//! The structure change that the records so far leave open.

ghost use Rattle.std.specs.Prelude.{◌≡◌, ◌≢◌, ℕ, ◌<◌, ◌↔◌, ◌∷◌, IsTrue, OnOk, IfErr, vec_len};
ghost use Rattle.std.specs.Vec.{vec_capacity};
ghost use Rattle.im_base_types.specs.declared.fault.Fault.TheVariants.{Memory};
ghost use Rattle.im_base_types.specs.Records.{Unreadable};
ghost use Rattle.im_theory_log.specs.Histories.{History};
ghost use Rattle.im_log_record.specs.Entry.{view};
ghost use Rattle.im_log.specs.Spelled.{logged_at};
ghost use Rattle.im_log.specs.Whats.{what_of};
ghost use Rattle.im_restart_analysis.specs.OpenChange.{IsOpenChange, OpensAnother};

use crate::rows::OpenRecord;
use im_base_types::{Fault, Lsn};
use im_log_record::Record;

/// Whether the record opens a structure change while another transaction's is open.
pub fn opens_another(rows: &[OpenRecord], record: &Record) -> bool
    ensures { (lsn : ℕ) (older : History) → IsOpenChange rows.now older → what_of (view record.now) ≢ Unreadable
        → IsTrue result ↔ OpensAnother (logged_at lsn (view record.now)) older }
{
    match record {
        Record::Smo { transaction, .. } => match rows.last() {
            None => false,
            Some(newest) => newest.transaction != *transaction,
        },
        Record::InsertKey { .. }
        | Record::DeleteKey { .. }
        | Record::UndoInsert { .. }
        | Record::UndoDelete { .. }
        | Record::UndoSmo { .. }
        | Record::DummyClr { .. }
        | Record::Commit { .. }
        | Record::End { .. }
        | Record::Image { .. }
        | Record::Checkpoint { .. } => false,
    }
}

/// Makes room for one record more.
pub fn make_room(rows: &mut Vec<OpenRecord>) -> Result<(), Fault>
    ensures same { rows.new.items ≡ rows.old.items }
    ensures room { OnOk result (vec_len rows.new < vec_capacity rows.new) }
    ensures causes { IfErr result (λ e. e ≡ Memory) }
{
    match rows.reserve(1) {
        Ok(()) => Ok(()),
        Err(_) => Err(Fault::Memory),
    }
}

/// Notes the record: one of a structure change joins the open one, an undo takes off the newest, an end closes it.
pub fn note_open(rows: &mut Vec<OpenRecord>, lsn: Lsn, record: &Record)
    requires room { vec_len rows.old < vec_capacity rows.old }
    ensures { (older : History) → IsOpenChange rows.old.items older → what_of (view record.now) ≢ Unreadable
        → IsOpenChange rows.new.items (logged_at lsn (view record.now) ∷ older) }
{
    match record {
        Record::Smo {
            transaction,
            page,
            ..
        } => {
            let row = OpenRecord {
                transaction: *transaction,
                lsn,
                page: *page,
            };
            let _ = rows.push(row);
        }
        Record::UndoSmo { .. } => {
            rows.pop();
        }
        Record::DummyClr { .. } => rows.clear(),
        Record::InsertKey { .. }
        | Record::DeleteKey { .. }
        | Record::UndoInsert { .. }
        | Record::UndoDelete { .. }
        | Record::Commit { .. }
        | Record::End { .. }
        | Record::Image { .. }
        | Record::Checkpoint { .. } => {}
    }
}
