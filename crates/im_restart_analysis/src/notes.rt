//! The losers and the full copies of pages that the records so far leave.

ghost use Rattle.std.specs.Prelude.{◌≡◌, ◌≢◌, ℕ, ◌∷◌, Option, Some, OnOk, OnErr, IfErr};
ghost use Rattle.std.specs.Ordering.{nat_cmp};
ghost use Rattle.std.specs.BTreeMap.{get, IsOrdered, Updates};
ghost use Rattle.im_base_types.specs.declared.fault.Fault.TheVariants.{Memory};
ghost use Rattle.im_base_types.specs.Records.{Unreadable};
ghost use Rattle.im_theory_log.specs.Histories.{History};
ghost use Rattle.im_theory_log.specs.Transactions.{is_end, undo_from};
ghost use Rattle.im_log_record.specs.Entry.{view, page_of};
ghost use Rattle.im_log.specs.Whats.{what_of};
ghost use Rattle.im_log.specs.Spelled.{logged_at};
ghost use Rattle.im_restart_analysis.specs.Losers.{AreLosers};
ghost use Rattle.im_restart_analysis.specs.CopyLsns.{CopyMap, AreCopies, LsnsRise};
ghost use Rattle.im_restart_analysis.specs.Records.{copied_page};
ghost use Rattle.im_restart_analysis.specs.Analysis.{Continues};

use crate::rows::Loser;
use im_base_types::{Fault, Lsn, PageNo, TxnId};
use im_log_record::Record;
use std::collections::BTreeMap;

// Whether its transaction ends with this record.
fn is_end(record: &Record) -> bool
    ensures { result ≡ is_end (what_of (view record.now)) }
{
    match record {
        Record::Commit { .. } | Record::End { .. } => true,
        Record::InsertKey { .. }
        | Record::DeleteKey { .. }
        | Record::UndoInsert { .. }
        | Record::UndoDelete { .. }
        | Record::Smo { .. }
        | Record::UndoSmo { .. }
        | Record::DummyClr { .. }
        | Record::Image { .. }
        | Record::Checkpoint { .. } => false,
    }
}

// Where undo goes on once this record is its transaction's last.
fn undo_from(lsn: Lsn, record: &Record) -> Lsn
    ensures { what_of (view record.now) ≢ Unreadable → result ≡ undo_from (logged_at lsn (view record.now)) (what_of (view record.now)) }
{
    match record {
        Record::InsertKey { .. } | Record::DeleteKey { .. } | Record::Smo { .. } => lsn,
        Record::UndoInsert { undo_next, .. }
        | Record::UndoDelete { undo_next, .. }
        | Record::UndoSmo { undo_next, .. }
        | Record::DummyClr { undo_next, .. } => *undo_next,
        Record::Commit { .. }
        | Record::End { .. }
        | Record::Image { .. }
        | Record::Checkpoint { .. } => 0,
    }
}

// The page of which it holds a full copy.
fn copied_page(record: &Record) -> Option<PageNo>
    ensures { what_of (view record.now) ≢ Unreadable → result ≡ copied_page (page_of (view record.now)) (what_of (view record.now)) }
{
    match record {
        Record::Smo { page, .. } | Record::UndoSmo { page, .. } | Record::Image { page, .. } => {
            Some(*page)
        }
        Record::InsertKey { .. }
        | Record::DeleteKey { .. }
        | Record::UndoInsert { .. }
        | Record::UndoDelete { .. }
        | Record::DummyClr { .. }
        | Record::Commit { .. }
        | Record::End { .. }
        | Record::Checkpoint { .. } => None,
    }
}

// Notes the record in its transaction's row.
fn note_loser(losers: &mut BTreeMap<TxnId, Loser>, lsn: Lsn, record: &Record) -> Result<(), Fault>
    ensures kept { OnOk result ((older : History) → AreLosers losers.old older → Continues (logged_at lsn (view record.now)) older
        → AreLosers losers.new (logged_at lsn (view record.now) ∷ older)) }
    ensures same { OnErr result (losers.new.entries ≡ losers.old.entries) }
    ensures causes { IfErr result (λ e. e ≡ Memory) }
{
    let transaction = record.transaction();
    if transaction == 0 {
        return Ok(());
    }
    if is_end(record) {
        losers.remove(&transaction);
        return Ok(());
    }
    let row = Loser {
        last: lsn,
        undo_next: undo_from(lsn, record),
    };
    match losers.insert(transaction, row) {
        Ok(_) => Ok(()),
        Err(_) => Err(Fault::Memory),
    }
}

// Puts back what stood at a page before the last insert.
fn restore(copies: &mut BTreeMap<PageNo, Lsn>, page: PageNo, before: Option<Lsn>)
    ensures { (was : CopyMap) (lsn : ℕ) → IsOrdered nat_cmp was → before ≡ get nat_cmp was page → Updates nat_cmp was copies.old page (Some lsn)
        → copies.new.entries ≡ was.entries }
{
    match before {
        None => {
            copies.remove(&page);
        }
        Some(lsn) => {
            let _ = copies.insert(page, lsn);
        }
    }
}

/// Notes the record in its transaction's row, and the full copy that it may hold.
pub fn note(
    losers: &mut BTreeMap<TxnId, Loser>,
    copies: &mut BTreeMap<PageNo, Lsn>,
    lsn: Lsn,
    record: &Record,
) -> Result<(), Fault>
    ensures losers { OnOk result ((older : History) → AreLosers losers.old older → Continues (logged_at lsn (view record.now)) older
        → AreLosers losers.new (logged_at lsn (view record.now) ∷ older)) }
    ensures copies { OnOk result ((older : History) → AreCopies 0 copies.old older → Continues (logged_at lsn (view record.now)) older
        → AreCopies 0 copies.new (logged_at lsn (view record.now) ∷ older)) }
    ensures same_losers { OnErr result (losers.new.entries ≡ losers.old.entries) }
    ensures same_copies { OnErr result (copies.new.entries ≡ copies.old.entries) }
    ensures causes { IfErr result (λ e. e ≡ Memory) }
{
    let Some(page) = copied_page(record) else {
        return note_loser(losers, lsn, record);
    };
    let Ok(before) = copies.insert(page, lsn) else {
        return Err(Fault::Memory);
    };
    match note_loser(losers, lsn, record) {
        Ok(()) => Ok(()),
        Err(fault) => {
            restore(copies, page, before);
            Err(fault)
        }
    }
}

/// The copies at or after an LSN.
pub fn since(copies: BTreeMap<PageNo, Lsn>, point: Lsn) -> BTreeMap<PageNo, Lsn>
    ensures { (log : History) → LsnsRise log → AreCopies 0 copies log → AreCopies point result log }
{
    let mut copies = copies;
    copies.retain(|_, lsn| *lsn >= point);
    copies
}
