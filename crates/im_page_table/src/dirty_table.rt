//! The dirty table.
ghost use Rattle.std.specs.Prelude.{◌≡◌, ℕ, ◌+◌, ◌∷◌, ◌++◌, ◌<◌, ◌≤◌, ◌↔◌, ◌||◌, true, false, [], length, nat_eq, slice_index_or, vec_capacity, IsTrue, IfOk, IfSome, IsNone, Option, Some, None, is_some, map, slice_set, Contains, IsPermutation};
ghost use Rattle.std.specs.List.Sorted.{IsNonDecreasing};
ghost use Rattle.std.specs.HashMap.{get, hash_map_len, spare};
ghost use Rattle.im_theory_log.specs.Writer.{PageState};
ghost use Rattle.im_log_record.specs.Spelling.{Rise};
ghost use Rattle.im_theory_log.specs.WriterSteps.{changed_entry, written_entry, synced_entry, forgotten_entry, at_point, is_copied, Lists};
ghost use Rattle.im_page_table.specs.declared.table_entry.TableEntry.{TableEntry};
ghost use Rattle.im_base_types.specs.declared.sizes.TheConstants.{MOST_DIRTY};
ghost use Rattle.im_page_table.specs.DirtyTable.{entry_in, most_entries, table_entry, dirty_entry, dirty_pages, put, has_room, written_in, synced_among, synced_entries, forgotten_entries, uncopied, dirty_page_of, is_before, older, oldest, and_written, with_written, AreApart, ChangesEntry, Finds, IsCopied, IsFound};

use crate::TableEntry;
use crate::rows::make_rows;
use im_base_types::{DirtyPage, Lsn, MOST_DIRTY, PageNo};
use std::alloc::{AllocError, Global};
use std::collections::HashMap;
use std::marker::Model;

/// How many entries a table has room for at most.
const MOST_ROOM: usize = 65_536;

/// How many entries there may be beside a pool of so many frames: as many, but no fewer than 1,024, and no more than 65,536.
pub fn entries_for(frames: usize) -> usize
    ensures entries { result ≡ most_entries frames }
    ensures least { 1024 ≤ result }
    ensures most { result ≤ 65536 }
{
    frames.max(MOST_DIRTY).min(MOST_ROOM)
}

/// The pages that may lack changes in their file, each once. Contracts see the list of the entries, in the order in which they came in,
/// and how many there may be. With room for all of them made once, no later call takes memory, and none is refused.
#[derive(Drop)]
pub struct DirtyTable {
    entries: Vec<TableEntry>,
    /// Where each page's entry stands. It loses none but when it is emptied, since a map does not promise that what is taken out gives its
    /// room back.
    places: HashMap<PageNo, u32>,
    most: usize,
}

impl Model for DirtyTable {
    ghost use Rattle.std.specs.Prelude.{◌≡◌, ◌+◌, ◌≤◌, length, nat_eq, vec_capacity};
    ghost use Rattle.std.specs.HashMap.{get, hash_map_len, spare};
    ghost use Rattle.im_page_table.specs.DirtyTable.{TableView, AreApart, Finds};

    ghost Value = { TableView };

    ghost view = { λ t. record { entries = t.entries.items; most = t.most } };

    ghost invariant = { λ t. AreApart t.entries.items × Finds (get nat_eq t.places) t.entries.items × (length t.entries.items ≤ t.most) × (t.most ≤ vec_capacity t.entries) × (hash_map_len t.places ≡ length t.entries.items) × (t.most ≤ hash_map_len t.places + spare t.places) × (1024 ≤ t.most) × (t.most ≤ 65536) };
}

impl DirtyTable {
    /// With no entry, and room for so many, 1,024 to 65,536.
    pub fn new(alloc: Global, most: usize) -> Result<Self, AllocError>
        requires least { 1024 ≤ most }
        requires most { most ≤ 65536 }
        ensures { IfOk result (λ t. t ≡ record { entries = []; most = most }) }
    {
        let entries = Vec::with_capacity(alloc, most)?;
        let places = HashMap::with_capacity(alloc, most)?;
        Ok(DirtyTable {
            entries,
            places,
            most,
        })
    }

    /// The number of entries.
    pub fn len(&self) -> usize
        ensures len { result ≡ length self.now.entries }
        ensures within { length self.now.entries ≤ self.now.most }
    {
        self.entries.len()
    }

    /// How many there may be.
    pub fn most(&self) -> usize
        ensures most { result ≡ self.now.most }
        ensures least { 1024 ≤ self.now.most }
        ensures within { length self.now.entries ≤ self.now.most }
    {
        self.most
    }

    /// Whether no further page can come in.
    pub fn is_full(&self) -> bool
        ensures full { IsTrue result ↔ (length self.now.entries ≡ self.now.most) }
        ensures within { length self.now.entries ≤ self.now.most }
    {
        self.entries.len() == self.most
    }

    /// Each page comes once: a law, and nothing that runs.
    pub fn law_pages_differ(&self)
        ensures { AreApart self.now.entries }
    {
        self.entries.len();
    }

    // The place of the page's entry.
    fn search(&self, page: PageNo) -> Option<usize>
        ensures found { IfSome result (IsFound self.now.entries page) }
        ensures absent { result ≡ None → entry_in self.now page ≡ None }
    {
        match self.places.get(&page).copied() {
            Some(place) => Some(place as usize),
            None => None,
        }
    }

    /// What the table has of a page.
    pub fn get(&self, page: PageNo) -> Option<TableEntry>
        ensures some { IfSome result (λ e. entry_in self.now page ≡ Some (dirty_entry e)) }
        ensures page { IfSome result (λ e. e.page ≡ page) }
        ensures none { IsNone result → entry_in self.now page ≡ None }
    {
        match self.search(page) {
            Some(at) => Some(self.entries[at]),
            None => None,
        }
    }

    /// Where the log is known to have a full copy of the page at or after its redo point, the page's rec_lsn.
    pub fn copied(&self, page: PageNo) -> Option<Lsn>
        ensures some { IfSome result (λ l. IsCopied self.now page l) }
        ensures none { IsNone result → is_copied (entry_in self.now page) ≡ false }
    {
        match self.get(page) {
            None => None,
            Some(entry) => {
                if entry.copied {
                    Some(entry.rec_lsn)
                } else {
                    None
                }
            },
        }
    }

    // An entry comes in as the last, of a page that has none.
    fn add(&mut self, entry: TableEntry)
        requires absent { entry_in self.old entry.page ≡ None }
        requires room { length self.old.entries < self.old.most }
        ensures { self.new ≡ record self.old { entries = self.old.entries ++ entry ∷ [] } }
    {
        let place = self.entries.len() as u32;
        let _ = self.places.insert(entry.page, place);
        self.entries.push_reserved(entry);
    }

    // The entry at a place becomes another one of its page.
    fn set(&mut self, at: usize, entry: TableEntry)
        requires { IsFound self.old.entries entry.page at }
        ensures { self.new ≡ record self.old { entries = slice_set self.old.entries at entry } }
    {
        self.entries[at] = entry;
    }

    /// The page is changed by the record at an LSN, which holds a full copy of it or does not. An entry that is there keeps its rec_lsn,
    /// and a copy that is known.
    pub fn enter(&mut self, page: PageNo, lsn: Lsn, copied: bool)
        requires room { entry_in self.old page ≡ None → length self.old.entries < self.old.most }
        ensures table { self.new ≡ put page (changed_entry copied lsn) self.old }
        ensures entry { ChangesEntry page (changed_entry copied lsn) self.old self.new }
    {
        match self.search(page) {
            Some(at) => {
                let entry = self.entries[at];
                self.set(at, changed(entry, lsn, copied));
            },
            None => {
                let entry = TableEntry {
                    page,
                    rec_lsn: lsn,
                    since: Some(lsn),
                    copied,
                };
                self.add(entry);
            },
        }
    }

    /// The page is written, once the log has a full copy of it. Where it has no entry it gets one, with the LSN of its Image, if there
    /// is room. It answers whether the page has its entry; where it has none, the table stays as it was.
    pub fn write(&mut self, page: PageNo, lsn: Lsn) -> bool
        ensures entered { result ≡ has_room page self.old }
        ensures table { self.new ≡ written_in page lsn self.old }
        ensures entry { result ≡ true → ChangesEntry page (written_entry lsn) self.old self.new }
    {
        match self.search(page) {
            Some(at) => {
                let entry = self.entries[at];
                self.set(at, written(entry));
                true
            },
            None => {
                if self.is_full() {
                    return false;
                }
                let entry = TableEntry {
                    page,
                    rec_lsn: lsn,
                    since: None,
                    copied: true,
                };
                self.add(entry);
                true
            },
        }
    }

    /// The page is changed by redo, or loaded from its copy, which then is known: it counts as changed since the redo point, whatever its
    /// entry was. A copy that was known stays so.
    pub fn enter_at_point(&mut self, page: PageNo, point: Lsn, copied: bool)
        requires room { entry_in self.old page ≡ None → length self.old.entries < self.old.most }
        ensures table { self.new ≡ put page (λ o. at_point (copied || is_copied o) point) self.old }
        ensures entry { ChangesEntry page (λ o. at_point (copied || is_copied o) point) self.old self.new }
    {
        match self.search(page) {
            Some(at) => {
                let entry = self.entries[at];
                self.set(at, entered_at(entry, point, copied));
            },
            None => {
                let entry = TableEntry {
                    page,
                    rec_lsn: point,
                    since: Some(point),
                    copied,
                };
                self.add(entry);
            },
        }
    }

    /// The file of pages has been synced: a page that has not changed since its last write leaves, each other one counts as
    /// changed since then.
    pub fn sync(&mut self)
        ensures table { self.new ≡ synced_entries self.old }
        ensures entry { (p : ℕ) → entry_in self.new p ≡ synced_entry (entry_in self.old p) }
    {
        keep_changed(&mut self.entries);
        note_places(&mut self.places, self.entries.as_slice());
    }

    /// No copy counts as known any more.
    pub fn forget(&mut self)
        ensures table { self.new ≡ forgotten_entries self.old }
        ensures entry { (p : ℕ) → entry_in self.new p ≡ forgotten_entry (entry_in self.old p) }
    {
        forget_copies(&mut self.entries);
    }

    /// How many of the pages have not changed since their last write: a sync of their file takes them out.
    pub fn written_count(&self) -> usize
        ensures count { result ≡ with_written 0 self.now.entries }
        ensures left { length (synced_entries self.now).entries + result ≡ length self.now.entries }
    {
        let mut count = 0;
        for at in 0..self.entries.len() {
            count = and_written(count, self.entries[at]);
        }
        count
    }

    /// The entries, each page once, in the order in which they came in.
    pub fn entries(&self) -> &[TableEntry]
        ensures same { result.now ≡ self.now.entries }
        ensures apart { AreApart result.now }
    {
        self.entries.as_slice()
    }

    /// The page whose first change since its last write is the oldest, with the LSN of that change; none where each page is written. A
    /// Checkpoint that comes now lists no LSN below it.
    pub fn oldest_change(&self) -> Option<DirtyPage>
        ensures oldest { result ≡ oldest self.now }
    {
        let mut found = None;
        for at in 0..self.entries.len() {
            found = older(found, self.entries[at]);
        }
        found
    }

    /// Makes `rows`, which has room for 1,024, a Checkpoint's list: each page with its rec_lsn, in rising order. A record has no room for more:
    /// of a table with more entries it has those that came in first.
    pub fn copy_rows(&self, rows: &mut Vec<DirtyPage>)
        requires room { MOST_DIRTY ≤ vec_capacity rows.old }
        ensures rows { length self.now.entries ≤ MOST_DIRTY → rows.new.items ≡ dirty_pages self.now }
        ensures lists { length self.now.entries ≤ MOST_DIRTY → (pages : ℕ → PageState) → ((p : ℕ) → entry_in self.now p ≡ (pages p).entry) → Lists pages rows.new.items }
        ensures room { MOST_DIRTY ≤ vec_capacity rows.new }
        ensures few { length rows.new.items ≤ MOST_DIRTY }
        ensures rise { Rise (λ r. r.page) None rows.new.items }
    {
        let count = self.entries.len().min(MOST_DIRTY);
        make_rows(&self.entries[..count], rows);
    }

    /// Makes `numbers`, which has room for them, the numbers of the pages, in rising order.
    pub fn copy_numbers(&self, numbers: &mut Vec<PageNo>)
        requires room { length self.now.entries ≤ vec_capacity numbers.old }
        ensures all { (p : ℕ) → is_some (entry_in self.now p) ≡ true → Contains numbers.new.items p }
        ensures same { IsPermutation (map (λ e. e.page) self.now.entries) numbers.new.items }
        ensures sorted { IsNonDecreasing numbers.new.items }
        ensures none { self.now.entries ≡ [] → numbers.new.items ≡ [] }
        ensures room { vec_capacity numbers.new ≡ vec_capacity numbers.old }
    {
        numbers.clear();
        for at in 0..self.entries.len() {
            numbers.push_reserved(self.entries[at].page);
        }
        numbers.sort_unstable();
    }
}

// Leaves the entries of pages that were changed since their last write, each counting from its first change since then.
fn keep_changed(entries: &mut Vec<TableEntry>)
    ensures items { entries.new.items ≡ synced_among entries.old.items }
    ensures room { vec_capacity entries.new ≡ vec_capacity entries.old }
{
    let mut kept = 0;
    for at in 0..entries.len() {
        let entry = entries[at];
        if let Some(since) = entry.since {
            entries[kept] = TableEntry {
                page: entry.page,
                rec_lsn: since,
                since: Some(since),
                copied: entry.copied,
            };
            kept += 1;
        }
    }
    entries.truncate(kept);
}

// Leaves of no entry a copy that counts as known.
fn forget_copies(entries: &mut Vec<TableEntry>)
    ensures items { entries.new.items ≡ map uncopied entries.old.items }
    ensures room { vec_capacity entries.new ≡ vec_capacity entries.old }
{
    for at in 0..entries.len() {
        let entry = entries[at];
        entries[at] = TableEntry {
            page: entry.page,
            rec_lsn: entry.rec_lsn,
            since: entry.since,
            copied: false,
        };
    }
}

// Has a map find each of these entries, and no other.
fn note_places(places: &mut HashMap<PageNo, u32>, entries: &[TableEntry])
    requires apart { AreApart entries.now }
    requires few { length entries.now ≤ 65536 }
    requires room { length entries.now ≤ hash_map_len places.old + spare places.old }
    ensures found { Finds (get nat_eq places.new) entries.now }
    ensures len { hash_map_len places.new ≡ length entries.now }
    ensures room { hash_map_len places.old + spare places.old ≤ hash_map_len places.new + spare places.new }
{
    places.clear();
    for at in 0..entries.len() {
        let page = page_at(entries, at);
        let _ = places.insert(page, at as u32);
    }
}

// The page of one of the entries.
fn page_at(entries: &[TableEntry], at: usize) -> PageNo
    requires within { at < length entries.now }
    ensures { (else : TableEntry) → result ≡ (slice_index_or entries.now at else).page }
{
    entries[at].page
}

// One page more, where it has not changed since its last write.
fn and_written(count: usize, entry: TableEntry) -> usize
    requires few { count < 65536 }
    ensures value { result ≡ and_written count entry }
    ensures few { result ≤ count + 1 }
{
    match entry.since {
        None => count + 1,
        Some(_) => count,
    }
}

// Whether the one change is older than the other.
fn is_before(one: DirtyPage, other: DirtyPage) -> bool
    ensures { result ≡ is_before one other }
{
    one.rec_lsn < other.rec_lsn || one.rec_lsn == other.rec_lsn && one.page < other.page
}

// The older of a change and the first one of a page since its last write.
fn older(found: Option<DirtyPage>, entry: TableEntry) -> Option<DirtyPage>
    ensures { result ≡ older found (dirty_page_of entry) }
{
    let Some(since) = entry.since else {
        return found;
    };
    let change = DirtyPage {
        page: entry.page,
        rec_lsn: since,
    };
    let Some(first) = found else {
        return Some(change);
    };
    if is_before(change, first) {
        Some(change)
    } else {
        found
    }
}

// The entry of a page that is changed by the record at an LSN, which holds a full copy of it or does not.
fn changed(entry: TableEntry, lsn: Lsn, copied: bool) -> TableEntry
    ensures { result ≡ table_entry entry.page (changed_entry copied lsn (Some (dirty_entry entry))) }
{
    let since = match entry.since {
        None => lsn,
        Some(first) => first,
    };
    TableEntry {
        page: entry.page,
        rec_lsn: entry.rec_lsn,
        since: Some(since),
        copied: copied || entry.copied,
    }
}

// The entry of a page that is written.
fn written(entry: TableEntry) -> TableEntry
    ensures { result ≡ table_entry entry.page (written_entry 0 (Some (dirty_entry entry))) }
{
    TableEntry {
        page: entry.page,
        rec_lsn: entry.rec_lsn,
        since: None,
        copied: true,
    }
}

// The entry of a page that counts as changed since the redo point.
fn entered_at(entry: TableEntry, point: Lsn, copied: bool) -> TableEntry
    ensures { result ≡ table_entry entry.page (at_point (copied || is_copied (Some (dirty_entry entry))) point) }
{
    TableEntry {
        page: entry.page,
        rec_lsn: point,
        since: Some(point),
        copied: copied || entry.copied,
    }
}
