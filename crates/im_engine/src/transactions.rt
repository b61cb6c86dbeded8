//! Active transactions, and the number that is given next.

ghost use Rattle.std.specs.Prelude.{◌≡◌, ◌<◌, ◌≤◌, ◌^◌, ◌+◌, ◌-◌, ◌++◌, [], ◌∷◌, not, filter, find, length, map, true, false, IfSome, IfNone, Some};
ghost use Rattle.im_base_txn.specs.Rows.{AreRising, begun, changed, is_of, is_committing, is_waiting, waits_at, waiting_in, with_changes, with_mark, with_record, without_waiting};
ghost use Rattle.im_theory_steps.specs.Steps.{counted, with_made, with_undone};
ghost use Rattle.im_base_txn.specs.declared.transaction.Mark.TheVariants.{Committing, Going};
ghost use Rattle.im_base_txn.specs.declared.transaction.Transaction.{Transaction as Row};
ghost use Rattle.im_engine.specs.Numbered.{has_returned, on_again, with_back};

use im_base_txn::{Mark, Table, Transaction, law_numbers_stay_below};
use im_base_types::{LAST_TRANSACTION, Lsn, TxnId};
use std::marker::Model;

/// The active transactions, and the number that is given next, which is above all of theirs.
#[derive(Drop)]
pub struct Transactions {
    table: Table,
    next: TxnId,
    // whether a Commit waits for a force
    group: bool,
    // how many wait
    waiting: usize,
}

impl Model for Transactions {
    ghost use Rattle.im_engine.specs.Numbered.{Numbered};
    ghost use Rattle.im_base_txn.specs.Rows.{AreAbove, AreBelow, waiting_in};
    ghost use Rattle.std.specs.Prelude.{◌≡◌, false, length, ◌≤◌};

    ghost Value = { Numbered };

    ghost view = { λ txns. record { rows = txns.table; next = txns.next; group = txns.group; waiting = txns.waiting } };

    ghost invariant = { λ txns. AreBelow txns.next txns.table × (length txns.table ≤ 64) × AreAbove 0 txns.table × (1 ≤ txns.next) × (txns.waiting ≡ waiting_in txns.table) × (txns.group ≡ false → txns.waiting ≡ 0) };
}

impl Transactions {
    /// No transactions; the first will have this number. A Commit waits for a force, or does not.
    pub fn starting_at(next: TxnId, group: bool) -> Transactions
        requires { 1 ≤ next }
        ensures starts { (result.rows ≡ []) × (result.next ≡ next) × (result.group ≡ group) × (result.waiting ≡ 0) }
    {
        Transactions {
            table: Table::new(),
            next,
            group,
            waiting: 0,
        }
    }

    /// Numbers rise, and the count is of those that wait. It does nothing: its contract says so.
    pub fn law_are_counted(&self)
        ensures rising { AreRising self.now.rows }
        ensures waiting { self.now.waiting ≡ waiting_in self.now.rows }
        ensures alone { self.now.group ≡ false → self.now.waiting ≡ 0 }
    {
        let _rows = self.table.rows();
    }

    /// Whether a Commit waits for a force.
    pub fn group(&self) -> bool
        ensures { result ≡ self.now.group }
    {
        self.group
    }

    /// Their rows, in rising number.
    pub fn rows(&self) -> &[Transaction]
        ensures { result.now ≡ self.now.rows }
    {
        self.table.rows()
    }

    /// Their rows, at most 64.
    pub fn table(&self) -> &Table
        ensures rows { result.now ≡ self.now.rows }
        ensures few { length result.now ≤ 64 }
    {
        &self.table
    }

    /// The number that is given next.
    pub fn next(&self) -> TxnId
        ensures { result ≡ self.now.next }
    {
        self.next
    }

    /// How many are active.
    pub fn len(&self) -> usize
        ensures { result ≡ length self.now.rows }
    {
        self.table.len()
    }

    /// The row of the transaction of this number, if it is active.
    pub fn find(&self, number: TxnId) -> Option<Transaction>
        ensures found { result ≡ find (is_of number) self.now.rows }
        ensures owned { IfSome result (λ row. 1 ≤ number) }
    {
        self.table.find(number)
    }

    /// Begins a transaction, and gives its number. None where numbers are used up.
    pub fn begin(&mut self) -> Option<TxnId>
        requires { length self.old.rows < 64 }
        ensures some { IfSome result (λ number. (number ≡ self.old.next) × (number ≤ 2 ^ 62) × (self.new ≡ record self.old { rows = self.old.rows ++ begun number ∷ []; next = number + 1 })) }
        ensures none { IfNone result (self.new ≡ self.old) }
        ensures used_up { IfNone result (2 ^ 62 < self.old.next) }
    {
        let Transactions { table, next, .. } = self;
        let number = *next;
        if number > LAST_TRANSACTION {
            return None;
        }
        law_numbers_stay_below();
        table.begin(number);
        *next = number + 1;
        Some(number)
    }

    /// Notes a record of the transaction of this number: its LSN, and the transaction's next LSN to undo.
    pub fn note_record(&mut self, number: TxnId, lsn: Lsn, undo_next: Lsn)
        ensures table { self.new ≡ record self.old { rows = map (changed number (with_record lsn undo_next)) self.old.rows } }
    {
        law_numbers_stay_below();
        self.table.note_record(number, lsn, undo_next);
    }

    /// Notes the record of a key at this LSN: one change more of the transaction stands.
    pub fn note_made(&mut self, number: TxnId, lsn: Lsn)
        ensures table { self.new ≡ record self.old { rows = counted number lsn self.old.rows } }
    {
        self.law_are_counted();
        let changes = count_made(self.table.find(number), lsn);
        self.note_change(number, lsn, lsn, changes);
    }

    /// Notes a record with which a change of the transaction was taken back.
    pub fn note_undone(&mut self, number: TxnId, last: Lsn, undo_next: Lsn)
        ensures table { self.new ≡ record self.old { rows = map (changed number (with_undone last undo_next)) self.old.rows } }
    {
        self.law_are_counted();
        let changes = count_undone(self.table.find(number));
        self.note_change(number, last, undo_next, changes);
    }

    /// Notes the last record of the end of a structure change of a rollback: after a split a change was taken back.
    pub fn note_back(&mut self, number: TxnId, last: Lsn, undo_next: Lsn, splits: bool)
        ensures table { self.new ≡ record self.old { rows = map (changed number (with_back splits last undo_next)) self.old.rows } }
    {
        if splits {
            self.note_undone(number, last, undo_next);
        } else {
            self.note_record(number, last, undo_next);
        }
    }

    fn note_change(&mut self, number: TxnId, lsn: Lsn, undo_next: Lsn, changes: u64)
        ensures table { self.new ≡ record self.old { rows = map (changed number (with_changes lsn undo_next changes)) self.old.rows } }
    {
        law_numbers_stay_below();
        self.table.note_change(number, lsn, undo_next, changes);
    }

    /// Marks the transaction of this number, which neither waits for a force nor is to.
    pub fn set_mark(&mut self, number: TxnId, mark: Mark)
        requires before { waits_at (find (is_of number) self.old.rows) ≡ false }
        requires after { is_committing mark ≡ false }
        ensures table { self.new ≡ record self.old { rows = map (changed number (with_mark mark)) self.old.rows } }
    {
        self.law_are_counted();
        law_numbers_stay_below();
        self.table.set_mark(number, mark);
    }

    /// Lets the transaction of this number go on where it returns to a part of its changes, and no more are left. Whether that is so.
    pub fn end_return(&mut self, number: TxnId) -> bool
        ensures done { IfSome (find (is_of number) self.old.rows) (λ row. result ≡ has_returned row) }
        ensures table { self.new ≡ record self.old { rows = on_again number self.old.rows } }
        ensures on { result ≡ true → self.new ≡ record self.old { rows = map (changed number (with_mark Going)) self.old.rows } }
        ensures still { result ≡ false → self.new ≡ self.old }
    {
        self.law_are_counted();
        if !is_back(self.table.find(number)) {
            return false;
        }
        self.set_mark(number, Mark::Going);
        true
    }

    /// The Commit of the transaction of this number is logged, and waits for a force.
    pub fn wait(&mut self, number: TxnId)
        requires group { self.old.group ≡ true }
        requires there { (row : Row) × (find (is_of number) self.old.rows ≡ Some row) × (is_waiting row ≡ false) }
        ensures table { self.new ≡ record self.old { rows = map (changed number (with_mark Committing)) self.old.rows; waiting = self.old.waiting + 1 } }
    {
        self.law_are_counted();
        law_numbers_stay_below();
        self.table.set_mark(number, Mark::Committing);
        self.waiting += 1;
    }

    /// Ends the transactions that wait for a force.
    pub fn end_waiting(&mut self)
        ensures table { self.new ≡ record self.old { rows = without_waiting self.old.rows; waiting = 0 } }
    {
        law_numbers_stay_below();
        self.table.end_waiting();
        self.waiting = 0;
    }

    /// Ends the transaction of this number, which does not wait for a force.
    pub fn end(&mut self, number: TxnId)
        requires { waits_at (find (is_of number) self.old.rows) ≡ false }
        ensures left { self.new ≡ record self.old { rows = filter (λ row. not (is_of number row)) self.old.rows } }
        ensures one { (row : Row) → find (is_of number) self.old.rows ≡ Some row → length self.old.rows ≡ length self.new.rows + 1 }
    {
        self.law_are_counted();
        law_numbers_stay_below();
        self.table.end(number);
    }
}

// How many changes of a transaction stand after the record of a key at this LSN.
fn count_made(row: Option<Transaction>, lsn: Lsn) -> u64
    ensures { IfSome row (λ was. result ≡ (with_made lsn was).changes) }
{
    match row {
        Some(row) if row.changes < lsn => row.changes + 1,
        Some(row) => row.changes,
        None => 0,
    }
}

// How many stand after one was taken back.
fn count_undone(row: Option<Transaction>) -> u64
    ensures { IfSome row (λ was. result ≡ was.changes - 1) }
{
    match row {
        Some(row) => row.changes.saturating_sub(1),
        None => 0,
    }
}

// Whether a transaction returns to a part of its changes, and no more are left.
fn is_back(row: Option<Transaction>) -> bool
    ensures some { IfSome row (λ was. result ≡ has_returned was) }
    ensures none { IfNone row (result ≡ false) }
{
    let Some(row) = row else {
        return false;
    };
    match row.mark {
        Mark::Returning(left) => row.changes <= left,
        _ => false,
    }
}
