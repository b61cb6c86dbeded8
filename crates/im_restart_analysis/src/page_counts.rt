//! The page count that the records so far said, and the pages that records name.

ghost use Rattle.std.specs.Prelude.{◌≡◌, ◌≢◌, ◌⊎◌, ◌<◌, ◌≤◌, ◌-◌, ◌^◌, ◌↔◌, ◌==◌, ℕ, ◌∷◌, max, if◌then◌else◌, IsTrue, Some, None, slice_index};
ghost use Rattle.im_base_types.specs.Records.{Unreadable};
ghost use Rattle.im_theory_log.specs.Histories.{History};
ghost use Rattle.im_theory_log.specs.PageCounts.{count_in, greatest_count, names_page};
ghost use Rattle.im_theory_page.specs.Number.{u32_at};
ghost use Rattle.im_log_record.specs.Entry.{view, page_of};
ghost use Rattle.im_log.specs.Whats.{what_of};
ghost use Rattle.im_log.specs.Spelled.{logged_at};
ghost use Rattle.im_restart_analysis.specs.Orderly.{NamesCounted, pages_at_first};
ghost use Rattle.im_restart_analysis.specs.Within.{greatest_in};

use im_base_types::{Lsn, PageNo};
use im_log_record::Record;
use std::cmp::max;

/// The page count that a log begins with at most whose first byte has this LSN: 2 where it is the first log of its store, which begins with
/// the meta page and the root, and no bound where it goes on, since it does not say how many pages it found.
pub fn pages_at_first(base: Lsn) -> PageNo
    ensures { result ≡ pages_at_first base }
{
    if base == 0 { 2 } else { PageNo::MAX }
}

// The byte at a place, 0 after the end.
fn byte_at(bytes: &[u8], at: usize) -> u32
    ensures value { result ≡ slice_index bytes.now at }
    ensures byte { result < 256 }
{
    if at < bytes.len() {
        bytes[at] as u32
    } else {
        0
    }
}

// The field after a page's LSN in which page 0 says its page count.
fn count_behind(body: &[u8]) -> PageNo
    ensures { result ≡ u32_at body.now 16 }
{
    let high = byte_at(body, 16) * 256 + byte_at(body, 17);
    let low = byte_at(body, 18) * 256 + byte_at(body, 19);
    high * 65536 + low
}

// The same of a page of a number, 0 for other pages than page 0.
fn count_at(page: PageNo, body: &[u8]) -> PageNo
    ensures { result ≡ (if page == 0 then u32_at body.now 16 else 0) }
{
    if page == 0 { count_behind(body) } else { 0 }
}

/// The page count that a record of page 0 leaves there, 0 for other records.
pub(crate) fn said_count(record: &Record) -> PageNo
    ensures { what_of (view record.now) ≢ Unreadable → result ≡ (if page_of (view record.now) == 0 then count_in (what_of (view record.now)) else 0) }
{
    match record {
        Record::Smo { page, after, .. } => count_at(*page, after),
        Record::UndoSmo { page, after, .. } => count_at(*page, after),
        Record::InsertKey { .. }
        | Record::DeleteKey { .. }
        | Record::UndoInsert { .. }
        | Record::UndoDelete { .. }
        | Record::DummyClr { .. }
        | Record::Commit { .. }
        | Record::End { .. }
        | Record::Image { .. }
        | Record::Checkpoint { .. } => 0,
    }
}

// The field of a page's bytes in which page 0 says its page count.
fn count_in_page(bytes: &[u8]) -> PageNo
    ensures { result ≡ u32_at bytes.now 24 }
{
    let high = byte_at(bytes, 24) * 256 + byte_at(bytes, 25);
    let low = byte_at(bytes, 26) * 256 + byte_at(bytes, 27);
    high * 65536 + low
}

// The greatest page count of two images of a page, 0 for other pages than page 0.
fn greater_at(page: PageNo, before: &[u8], after: &[u8]) -> PageNo
    ensures { result ≡ (if page == 0 then max (u32_at before.now 16) (u32_at after.now 16) else 0) }
{
    if page == 0 {
        max(count_behind(before), count_behind(after))
    } else {
        0
    }
}

// What a full copy of a page says, 0 for other pages than page 0.
fn copied_count(page: PageNo, bytes: &[u8]) -> PageNo
    ensures { result ≡ (if page == 0 then u32_at bytes.now 24 else 0) }
{
    if page == 0 { count_in_page(bytes) } else { 0 }
}

/// The greatest page count that the images of page 0 in a record say, 0 for other records: of the page as it was and as it is after, and of a full copy.
pub(crate) fn greatest_in(record: &Record) -> PageNo
    ensures { what_of (view record.now) ≢ Unreadable → result ≡ (if page_of (view record.now) == 0 then greatest_in (what_of (view record.now)) else 0) }
{
    match record {
        Record::Smo {
            page,
            before,
            after,
            ..
        } => greater_at(*page, before, after),
        Record::UndoSmo { page, after, .. } => count_at(*page, after),
        Record::Image { page, bytes } => copied_count(*page, bytes),
        Record::InsertKey { .. }
        | Record::DeleteKey { .. }
        | Record::UndoInsert { .. }
        | Record::UndoDelete { .. }
        | Record::DummyClr { .. }
        | Record::Commit { .. }
        | Record::End { .. }
        | Record::Checkpoint { .. } => 0,
    }
}

/// The greatest page count once this record is taken.
pub fn count_after(count: PageNo, record: &Record) -> PageNo
    ensures { (n lsn : ℕ) (older : History) → count ≡ greatest_count n older → what_of (view record.now) ≢ Unreadable
        → result ≡ greatest_count n (logged_at lsn (view record.now) ∷ older) }
{
    max(count, said_count(record))
}

// The page that the record changes, or of which it holds a full copy.
fn named_page(record: &Record) -> Option<PageNo>
    ensures { what_of (view record.now) ≢ Unreadable → result ≡ (if names_page (what_of (view record.now)) then Some (page_of (view record.now)) else None) }
{
    match record {
        Record::InsertKey { page, .. }
        | Record::DeleteKey { page, .. }
        | Record::UndoInsert { page, .. }
        | Record::UndoDelete { page, .. }
        | Record::Smo { page, .. }
        | Record::UndoSmo { page, .. }
        | Record::Image { page, .. } => Some(*page),
        Record::DummyClr { .. }
        | Record::Commit { .. }
        | Record::End { .. }
        | Record::Checkpoint { .. } => None,
    }
}

// Whether a page is below a page count; the greatest one bounds nothing.
fn is_below(page: PageNo, count: PageNo) -> bool
    ensures { IsTrue result ↔ ((page < count) ⊎ (2 ^ 32 - 1 ≤ count)) }
{
    page < count || count == PageNo::MAX
}

/// Whether the page that the record names, if it names one, is below the page count, where that bounds it.
pub fn names_counted(count: PageNo, record: &Record) -> bool
    ensures { (n lsn : ℕ) (older : History) → count ≡ greatest_count n older → what_of (view record.now) ≢ Unreadable
        → IsTrue result ↔ NamesCounted n (logged_at lsn (view record.now)) older }
{
    match named_page(record) {
        None => true,
        Some(page) => is_below(page, count),
    }
}
