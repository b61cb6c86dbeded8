//! The table.

ghost use Rattle.std.specs.Prelude.{◌≡◌, true, ◌<◌, ◌≤◌, ◌++◌, ◌+◌, ◌↔◌, [], ◌∷◌, not, filter, find, length, map, Some};
ghost use Rattle.im_base_txn.specs.Rows.{AreBelow, AreRising, begun, changed, is_of, with_changes, with_mark, with_record, without_waiting};
ghost use Rattle.im_base_txn.specs.declared.transaction.Transaction.{Transaction as Row};

use crate::transaction::{Mark, Transaction};
use arrayvec::ArrayVec;
use im_base_types::{Lsn, MOST_ACTIVE, TxnId};
use std::marker::Model;

/// The active transactions, at most 64, in rising number. Contracts see the list of their rows.
#[derive(Drop)]
pub struct Table {
    rows: ArrayVec<Transaction, MOST_ACTIVE>,
}

impl Model for Table {
    ghost use Rattle.std.specs.Prelude.{List, length, ◌≤◌};
    ghost use Rattle.im_base_txn.specs.declared.transaction.Transaction.{Transaction};

    ghost Value = { List Transaction };

    ghost view = { λ table. table.rows.items };

    ghost use Rattle.im_base_txn.specs.Rows.{AreRising};

    ghost invariant = { λ table. (length table.rows.items ≤ 64) × AreRising table.rows.items };
}

impl Table {
    /// The table without transactions.
    pub fn new() -> Table
        ensures { result ≡ [] }
    {
        Table {
            rows: ArrayVec::new(),
        }
    }

    /// How many transactions are active.
    pub fn len(&self) -> usize
        ensures { result ≡ length self.now }
    {
        self.rows.len()
    }

    /// Whether 64 transactions are active.
    pub fn is_full(&self) -> bool
        ensures { result ≡ true ↔ (length self.now ≡ 64) }
    {
        self.rows.len() == MOST_ACTIVE
    }

    /// The rows, in rising number.
    pub fn rows(&self) -> &[Transaction]
        ensures rows { result.now ≡ self.now }
        ensures rising { AreRising result.now }
    {
        self.rows.as_slice()
    }

    /// The row of the transaction of this number, if it is active.
    pub fn find(&self, number: TxnId) -> Option<Transaction>
        ensures { result ≡ find (is_of number) self.now }
    {
        for row in self.rows.as_slice() {
            if row.number == number {
                return Some(*row);
            }
        }
        None
    }

    /// Adds a transaction, whose number is above all others.
    pub fn begin(&mut self, number: TxnId)
        requires room { length self.old < 64 }
        requires above { AreBelow number self.old }
        ensures { self.new ≡ self.old ++ begun number ∷ [] }
    {
        self.rows.push(Transaction {
            number,
            last: 0,
            undo_next: 0,
            mark: Mark::Going,
            changes: 0,
        });
    }

    /// Notes a record of the transaction of this number: its LSN, and the transaction's next LSN to undo.
    pub fn note_record(&mut self, number: TxnId, lsn: Lsn, undo_next: Lsn)
        ensures { self.new ≡ map (changed number (with_record lsn undo_next)) self.old }
    {
        for row in self.rows.as_mut_slice() {
            if row.number == number {
                *row = Transaction {
                    number: row.number,
                    last: lsn,
                    undo_next,
                    mark: row.mark,
                    changes: row.changes,
                };
            }
        }
    }

    /// Notes the same of a record with which a change of the transaction is made or taken back: so many changes stand then.
    pub fn note_change(&mut self, number: TxnId, lsn: Lsn, undo_next: Lsn, changes: u64)
        ensures { self.new ≡ map (changed number (with_changes lsn undo_next changes)) self.old }
    {
        for row in self.rows.as_mut_slice() {
            if row.number == number {
                *row = Transaction {
                    number: row.number,
                    last: lsn,
                    undo_next,
                    mark: row.mark,
                    changes,
                };
            }
        }
    }

    /// Marks the transaction of this number.
    pub fn set_mark(&mut self, number: TxnId, mark: Mark)
        ensures { self.new ≡ map (changed number (with_mark mark)) self.old }
    {
        for row in self.rows.as_mut_slice() {
            if row.number == number {
                *row = Transaction {
                    number: row.number,
                    last: row.last,
                    undo_next: row.undo_next,
                    mark,
                    changes: row.changes,
                };
            }
        }
    }

    /// Takes the transaction of this number out of the table: one row, where it is active, else none.
    pub fn end(&mut self, number: TxnId)
        ensures left { self.new ≡ filter (λ row. not (is_of number row)) self.old }
        ensures one { (row : Row) → find (is_of number) self.old ≡ Some row → length self.old ≡ length self.new + 1 }
    {
        let mut at = 0;
        while at < self.rows.len() {
            if self.rows.as_slice()[at].number == number {
                self.rows.remove(at);
            } else {
                at += 1;
            }
        }
    }

    /// Takes every transaction whose Commit waits for a force out of the table.
    pub fn end_waiting(&mut self)
        ensures { self.new ≡ without_waiting self.old }
    {
        let mut i = 0;
        while i < self.rows.len() {
            if self.rows.as_slice()[i].mark.is_committing() {
                self.rows.remove(i);
            } else {
                i += 1;
            }
        }
    }
}
