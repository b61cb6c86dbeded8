//! The dirty pages of a checkpoint.
ghost use Rattle.std.specs.Prelude.{◌≡◌, ◌<◌, length, get_or, map, None};
ghost use Rattle.std.specs.List.{AllByRecursion};
ghost use Rattle.im_log_record.specs.Entry.{dirty_in, dirty_rows};
ghost use Rattle.im_log_record.specs.Reading.{rises};
ghost use Rattle.im_log_record.specs.Spelling.{IsDirty};

use crate::fields::is_above;
use byteorder::{BigEndian, ByteOrder};
use im_base_types::DirtyPage;

/// The dirty pages of a checkpoint: rows that are to be written, or the bytes that spell them, 12 a row.
#[derive(Clone, Copy)]
pub enum DirtyList<'a> {
    Rows(&'a [DirtyPage]),
    Spelled(&'a [[u8; 12]]),
}

// The row that these bytes spell.
#[inline]
#[tactic(auto, unfolding(crate::specs::Entry::dirty_in))]
fn row_of(bytes: &[u8; 12]) -> DirtyPage
    ensures { result ≡ dirty_in bytes.now }
{
    let (page, rec_lsn) = bytes.split_at(4);
    DirtyPage {
        page: BigEndian::read_u32(page),
        rec_lsn: BigEndian::read_u64(rec_lsn),
    }
}

// The numbers of the pages strictly rise.
pub(crate) fn pages_rise(list: &[[u8; 12]]) -> bool
    ensures { result ≡ rises (λ d. d.page) None (map dirty_in list.now) }
{
    let mut last = None;
    for bytes in list {
        let page = row_of(bytes).page as u64;
        if !is_above(last, page) {
            return false;
        }
        last = Some(page);
    }
    true
}

fn law_row_fits(_row: DirtyPage)
    ensures { IsDirty _row }
{}

// The numbers in the rows fit their bytes, as numbers of their types do.
#[inline]
pub(crate) fn law_dirties_fit(rows: &[DirtyPage])
    ensures { AllByRecursion IsDirty rows.now }
{
    for row in rows {
        law_row_fits(*row);
    }
}

#[inline]
fn row_given(rows: &[DirtyPage], i: usize) -> DirtyPage
    requires { i < length rows.now }
    ensures { result ≡ get_or rows.now i result }
{
    rows[i]
}

#[inline]
fn row_spelled(rows: &[[u8; 12]], i: usize) -> DirtyPage
    requires { i < length rows.now }
    ensures { result ≡ get_or (map dirty_in rows.now) i result }
{
    row_of(&rows[i])
}

impl DirtyList<'_> {
    /// How many rows it has.
    #[inline]
    pub fn len(&self) -> usize
        ensures { result ≡ length (dirty_rows self.now) }
    {
        match self {
            DirtyList::Rows(rows) => rows.len(),
            DirtyList::Spelled(rows) => rows.len(),
        }
    }

    /// Its row at a place below its length.
    #[inline]
    pub fn row(&self, i: usize) -> DirtyPage
        requires { i < length (dirty_rows self.now) }
        ensures { result ≡ get_or (dirty_rows self.now) i result }
    {
        match self {
            DirtyList::Rows(rows) => row_given(rows, i),
            DirtyList::Spelled(rows) => row_spelled(rows, i),
        }
    }
}
