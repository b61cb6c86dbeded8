//! The changes of pages that the records so far made.

ghost use Rattle.std.specs.Prelude.{◌≡◌, ◌≢◌, ◌≤◌, ◌+◌, ◌∷◌, ◌&&◌, ◌↔◌, ℕ, [], All, max, nat_le, true, false, IfErr, IfOk, OnOk, None, Some};
ghost use Rattle.im_base_types.specs.declared.fault.Fault.TheVariants.{Memory};
ghost use Rattle.im_base_types.specs.Records.{Unreadable};
ghost use Rattle.im_theory_log.specs.Histories.{History, changes_page};
ghost use Rattle.im_theory_log.specs.PageCounts.{named_to};
ghost use Rattle.im_log_record.specs.Entry.{view};
ghost use Rattle.im_log.specs.Spelled.{logged_at};
ghost use Rattle.im_log.specs.Whats.{what_of};
ghost use Rattle.im_restart_analysis.specs.Changes.{AreChangedAt, AreChanges, AreLastBelow, IsChange, changes_from};

use crate::page_counts::{greatest_in, said_count};
use im_base_types::{Fault, Lsn, PageNo};
use im_log_record::Record;
use std::alloc::Global;
use std::cmp::max;
use std::collections::BTreeMap;

/// A record that changed a page.
#[derive(Clone, Copy, Debug, PartialEq, Eq)]
pub struct Change {
    pub page: PageNo,
    /// The page count that it says, where it is one of page 0 that says one; else 0.
    pub said: PageNo,
    pub lsn: Lsn,
}

/// The changes of pages that the records so far made, and the pages that records name. From an LSN on each change is kept, in 16 bytes;
/// below it only the last one of each page.
#[derive(Drop)]
pub struct Changes {
    /// That LSN.
    start: Lsn,
    /// The changes from there on, the oldest first.
    all: Vec<Change>,
    /// For each page that a record below it changed, the LSN of the last one.
    lsns: BTreeMap<PageNo, Lsn>,
    /// The page count that page 0 says after its own, where that record says one.
    count: Option<PageNo>,
    named: u64,
    /// The greatest page count that images of page 0 say, 0 without one.
    said: PageNo,
}

/// The last change of each page below a redo point. The file of pages was synced with it, or the log has a full copy of the page.
#[derive(Drop)]
pub struct LastChanges {
    /// For each page that a record below the point changed, the LSN of the last one.
    pub lsns: BTreeMap<PageNo, Lsn>,
    /// The page count that page 0 says after its own, where that record says one.
    pub count: Option<PageNo>,
    /// The least number above all pages that records of the whole log name.
    pub named: u64,
    /// The greatest page count that images of page 0 in the whole log say, 0 where it has none.
    pub said: PageNo,
}

// Whether a record's kind is one that changes its page.
fn changes_page(record: &Record) -> bool
    ensures { what_of (view record.now) ≢ Unreadable → result ≡ changes_page (what_of (view record.now)) }
{
    match record {
        Record::InsertKey { .. }
        | Record::DeleteKey { .. }
        | Record::UndoInsert { .. }
        | Record::UndoDelete { .. }
        | Record::Smo { .. }
        | Record::UndoSmo { .. } => true,
        Record::DummyClr { .. }
        | Record::Commit { .. }
        | Record::End { .. }
        | Record::Image { .. }
        | Record::Checkpoint { .. } => false,
    }
}

// The least number above the page that a record names; 0 where it names none.
fn above_named(record: &Record) -> u64
    ensures { (lsn : ℕ) (older : History) → what_of (view record.now) ≢ Unreadable → max (named_to older) result ≡ named_to (logged_at lsn (view record.now) ∷ older) }
{
    match record {
        Record::InsertKey { page, .. }
        | Record::DeleteKey { page, .. }
        | Record::UndoInsert { page, .. }
        | Record::UndoDelete { page, .. }
        | Record::Smo { page, .. }
        | Record::UndoSmo { page, .. }
        | Record::Image { page, .. } => u64::from(*page) + 1,
        Record::DummyClr { .. }
        | Record::Commit { .. }
        | Record::End { .. }
        | Record::Checkpoint { .. } => 0,
    }
}

// The page count that page 0 says after a change: its own, if it says one; a change of another page leaves it.
fn said_behind(count: Option<PageNo>, change: &Change) -> Option<PageNo>
    ensures own { change.now.page ≡ 0 → (n : ℕ) → result ≡ Some n → (n ≡ change.now.said) × (1 ≤ n) }
    ensures other { change.now.page ≢ 0 → result ≡ count }
{
    if change.page != 0 {
        count
    } else if change.said == 0 {
        None
    } else {
        Some(change.said)
    }
}

// Enters a change, where it is below the redo point. It answers the page count that page 0 says then.
fn enter(
    lsns: &mut BTreeMap<PageNo, Lsn>,
    count: Option<PageNo>,
    change: &Change,
    point: Lsn,
) -> Result<Option<PageNo>, Fault>
    ensures kept { IfOk result (λ said. (log : History) → IsChange log change.now → AreChangedAt log point count lsns.old → AreChangedAt log point said lsns.new) }
    ensures causes { IfErr result (λ e. e ≡ Memory) }
{
    if change.lsn >= point {
        return Ok(count);
    }
    match lsns.insert(change.page, change.lsn) {
        Ok(_) => Ok(said_behind(count, change)),
        Err(_) => Err(Fault::Memory),
    }
}

// Enters those of some changes that are below the redo point, the oldest first. It answers the page count that page 0 says then.
fn enter_all(
    lsns: &mut BTreeMap<PageNo, Lsn>,
    count: Option<PageNo>,
    changes: &[Change],
    point: Lsn,
) -> Result<Option<PageNo>, Fault>
    ensures kept { IfOk result (λ said. (log : History) → All (IsChange log) changes.now → AreChangedAt log point count lsns.old → AreChangedAt log point said lsns.new) }
    ensures causes { IfErr result (λ e. e ≡ Memory) }
{
    let mut said = count;
    for change in changes {
        said = enter(lsns, said, change, point)?;
    }
    Ok(said)
}

// Whether a record stands at an LSN or after it, and changes its page.
fn changes_since(start: Lsn, lsn: Lsn, record: &Record) -> bool
    ensures { what_of (view record.now) ≢ Unreadable → result ≡ (nat_le start lsn && changes_page (what_of (view record.now))) }
{
    start <= lsn && changes_page(record)
}

impl Changes {
    /// Before the first record.
    pub fn new(alloc: Global) -> Self
        ensures none { AreChanges [] result }
        ensures start { result.start ≡ 0 }
    {
        Changes {
            start: 0,
            all: Vec::new(alloc),
            lsns: BTreeMap::new(alloc),
            count: None,
            named: 0,
            said: 0,
        }
    }

    /// Notes what a record changes and names. Refused `Memory`.
    pub fn note(&mut self, lsn: Lsn, record: &Record) -> Result<(), Fault>
        ensures kept { OnOk result ((older : History) → what_of (view record.now) ≢ Unreadable → AreChanges older self.old → AreChanges (logged_at lsn (view record.now) ∷ older) self.new) }
        ensures start { self.new.start ≡ self.old.start }
        ensures causes { IfErr result (λ e. e ≡ Memory) }
    {
        self.named = max(self.named, above_named(record));
        self.said = max(self.said, greatest_in(record));
        if !changes_since(self.start, lsn, record) {
            return Ok(());
        }
        let change = Change {
            page: record.page(),
            said: said_count(record),
            lsn,
        };
        match self.all.push(change) {
            Ok(()) => Ok(()),
            Err(_) => Err(Fault::Memory),
        }
    }

    /// Keeps of the changes below an LSN only the last one of each page. Refused `Memory`, and what is kept then is not said.
    pub fn drop_below(&mut self, point: Lsn) -> Result<(), Fault>
        ensures kept { OnOk result ((log : History) → AreChanges log self.old → AreChanges log self.new) }
        ensures start { OnOk result (self.new.start ≡ max self.old.start point) }
        ensures causes { IfErr result (λ e. e ≡ Memory) }
    {
        if point <= self.start {
            return Ok(());
        }
        self.count = enter_all(&mut self.lsns, self.count, &self.all, point)?;
        self.all.retain(|change| change.lsn >= point);
        self.start = point;
        Ok(())
    }

    /// Whether each change from an LSN on is kept.
    pub fn reaches(&self, point: Lsn) -> bool
        ensures { result ≡ true ↔ self.now.start ≤ point }
    {
        self.start <= point
    }

    /// The last change of each page below a redo point, and the changes from there on, the oldest first, where each of these is kept.
    /// Refused `Memory`.
    pub fn parts(self, point: Lsn) -> Result<(LastChanges, Vec<Change>), Fault>
        ensures kept { self.start ≤ point → IfOk result (λ parts. (log : History) → AreChanges log self → AreLastBelow log point parts.0 × (parts.1.items ≡ changes_from point log)) }
        ensures causes { IfErr result (λ e. e ≡ Memory) }
    {
        let mut changes = self;
        changes.drop_below(point)?;
        let Changes {
            all,
            lsns,
            count,
            named,
            said,
            ..
        } = changes;
        let last = LastChanges {
            lsns,
            count,
            named,
            said,
        };
        Ok((last, all))
    }
}
