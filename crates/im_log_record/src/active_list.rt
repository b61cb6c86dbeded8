//! The active transactions of a checkpoint.
ghost use Rattle.std.specs.Prelude.{◌≡◌, ◌<◌, length, get_or, map, None};
ghost use Rattle.std.specs.List.{AllByRecursion};
ghost use Rattle.im_log_record.specs.Entry.{active_in, active_rows};
ghost use Rattle.im_log_record.specs.Reading.{rises};
ghost use Rattle.im_log_record.specs.Spelling.{IsActive};

use crate::fields::is_above;
use byteorder::{BigEndian, ByteOrder};
use im_base_types::ActiveTransaction;

/// The active transactions of a checkpoint: rows that are to be written, or the bytes that spell them, 24 a row.
#[derive(Clone, Copy)]
pub enum ActiveList<'a> {
    Rows(&'a [ActiveTransaction]),
    Spelled(&'a [[u8; 24]]),
}

// The row that these bytes spell.
#[inline]
#[tactic(auto, unfolding(crate::specs::Entry::active_in))]
fn row_of(bytes: &[u8; 24]) -> ActiveTransaction
    ensures { result ≡ active_in bytes.now }
{
    let (transaction, rest) = bytes.split_at(8);
    let (last, undo_next) = rest.split_at(8);
    ActiveTransaction {
        transaction: BigEndian::read_u64(transaction),
        last: BigEndian::read_u64(last),
        undo_next: BigEndian::read_u64(undo_next),
    }
}

// The numbers of the transactions strictly rise.
pub(crate) fn transactions_rise(list: &[[u8; 24]]) -> bool
    ensures { result ≡ rises (λ a. a.transaction) None (map active_in list.now) }
{
    let mut last = None;
    for bytes in list {
        let transaction = row_of(bytes).transaction;
        if !is_above(last, transaction) {
            return false;
        }
        last = Some(transaction);
    }
    true
}

fn law_row_fits(_row: ActiveTransaction)
    ensures { IsActive _row }
{}

// The numbers in the rows fit their bytes, as numbers of their types do.
#[inline]
pub(crate) fn law_actives_fit(rows: &[ActiveTransaction])
    ensures { AllByRecursion IsActive rows.now }
{
    for row in rows {
        law_row_fits(*row);
    }
}

#[inline]
fn row_given(rows: &[ActiveTransaction], i: usize) -> ActiveTransaction
    requires { i < length rows.now }
    ensures { result ≡ get_or rows.now i result }
{
    rows[i]
}

#[inline]
fn row_spelled(rows: &[[u8; 24]], i: usize) -> ActiveTransaction
    requires { i < length rows.now }
    ensures { result ≡ get_or (map active_in rows.now) i result }
{
    row_of(&rows[i])
}

impl ActiveList<'_> {
    /// How many rows it has.
    #[inline]
    pub fn len(&self) -> usize
        ensures { result ≡ length (active_rows self.now) }
    {
        match self {
            ActiveList::Rows(rows) => rows.len(),
            ActiveList::Spelled(rows) => rows.len(),
        }
    }

    /// Its row at a place below its length.
    #[inline]
    pub fn row(&self, i: usize) -> ActiveTransaction
        requires { i < length (active_rows self.now) }
        ensures { result ≡ get_or (active_rows self.now) i result }
    {
        match self {
            ActiveList::Rows(rows) => row_given(rows, i),
            ActiveList::Spelled(rows) => row_spelled(rows, i),
        }
    }
}
