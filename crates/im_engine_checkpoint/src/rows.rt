//! The rows of the table of transactions that a Checkpoint lists.

ghost use Rattle.std.specs.Prelude.{◌≡◌, ◌≤◌, length, take, None};
ghost use Rattle.im_log_record.specs.Spelling.{Rise};
ghost use Rattle.im_engine_checkpoint.specs.Rows.{as_listed, is_listed, listed};

use im_base_txn::{Mark, Table, Transaction};
use im_base_types::ActiveTransaction;

// Whether a Checkpoint lists the transaction.
fn is_listed(row: &Transaction) -> bool
    ensures { result ≡ is_listed row.now }
{
    match row.mark {
        Mark::Committing => false,
        Mark::Going | Mark::MustRollBack | Mark::RollingBack | Mark::Returning(_) => row.last != 0,
    }
}

// Its row there.
fn as_listed(row: &Transaction) -> ActiveTransaction
    ensures { result ≡ as_listed row.now }
{
    ActiveTransaction {
        transaction: row.number,
        last: row.last,
        undo_next: row.undo_next,
    }
}

/// Writes the rows of a table that a Checkpoint lists (`listed`) to the front of a buffer, and answers how many they are. It takes no
/// memory.
pub fn rows_of(table: &Table, rows: &mut [ActiveTransaction]) -> usize
    requires { length table.now ≤ length rows.old }
    ensures rows { take result rows.new ≡ listed table.now }
    ensures count { result ≤ length table.now }
    ensures rising { Rise (λ a. a.transaction) None (take result rows.new) }
{
    let mut count = 0;
    for row in table.rows() {
        if is_listed(row) {
            rows[count] = as_listed(row);
            count += 1;
        }
    }
    count
}
