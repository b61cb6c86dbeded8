//! A page of 4,096 bytes.

ghost use Rattle.std.specs.Prelude.{◌≡◌, ◌⊎◌, true, false, Err, IsTrue, ◌+◌, ◌≤◌, ◌<◌, length, take, drop, slice_range, insert, remove, OnOk, OnErr, IsOk, IfOk, IfErr, ◌↔◌, ◌^◌, Some, None};
ghost use Rattle.im_base_types.specs.declared.page_kind.PageKind.TheVariants.{Free, Leaf, Inner};
ghost use Rattle.im_base_types.specs.declared.fault.Fault.TheVariants.{Device, NotAStore};
ghost use Rattle.im_base_types.specs.declared.file_id.FileId.TheVariants.{Pages};
ghost use Rattle.im_base_disk.specs.Runs.{Reads};
ghost use Rattle.im_theory_page.specs.Entry.{entry_at, Parts, IsPlace, taken, size, width};
ghost use Rattle.im_theory_page.specs.Page.{HoldsEntries, is_leaf_kind, page_of, with_entries};
ghost use Rattle.im_theory_page.specs.Header.{HasPrev, HasNext, HasLeftmost, empty_body, initial};
ghost use Rattle.im_theory_page.specs.Content.{IsContent};
ghost use Rattle.im_theory_page.specs.Split.{IsSplitBound, IsSplitPoint, HasRoomForAny, LacksRoom};
ghost use Rattle.im_theory_page.specs.Child.{IsChild};

use crate::cells;
use crate::form::is_form;
use crate::header::{flags, make_empty, make_initial};
use crate::insertion::insert_cell;
use crate::number::{get_u16, get_u32, get_u64, put_u8, put_u32, put_u64};
use crate::read_form::read_form;
use crate::removal::remove_cell;
use crate::split::{copy_cells, split_point};
use im_base_disk::Disk;
use im_base_types::{Fault, PAGE_SIZE, PageKind, PageNo};
use std::marker::Model;
use thiserror::Error;

/// The page has no room for an entry.
#[derive(Clone, Copy, Debug, PartialEq, Eq, Error)]
#[error("the page has no room for the entry")]
pub struct Full;

/// A page of 4,096 bytes. Contracts see its LSN, its header and the list of its entries.
#[derive(Drop)]
pub struct Page {
    bytes: [u8; PAGE_SIZE],
}

impl Model for Page {
    ghost use Rattle.im_base_types.specs.Pages.{Page};
    ghost use Rattle.im_theory_page.specs.Page.{said_by, IsForm};

    ghost Value = { Page };

    ghost view = { λ p. said_by p.bytes };

    ghost invariant = { λ p. IsForm p.bytes };
}

impl Page {
    /// The page of a number before anything was put.
    pub fn initial(number: PageNo) -> Self
        ensures { result ≡ initial number }
    {
        let mut bytes = [0; PAGE_SIZE];
        make_initial(&mut bytes, number);
        Page { bytes }
    }

    /// Makes it the page of a number before anything was put.
    pub fn reset(&mut self, number: PageNo)
        ensures { self.new ≡ initial number }
    {
        make_initial(&mut self.bytes, number);
    }

    /// The page that bytes are. Refused `NotAStore` exactly where they are none.
    pub fn read(bytes: &[u8]) -> Result<Self, Fault>
        ensures page { IfOk result (λ p. page_of bytes.now ≡ Some p) }
        ensures none { OnErr result (page_of bytes.now ≡ None) }
        ensures refused { IfErr result (λ e. e ≡ NotAStore) }
    {
        if bytes.len() != PAGE_SIZE || !is_form(bytes) {
            return Err(Fault::NotAStore);
        }
        let mut page = [0; PAGE_SIZE];
        page.copy_from_slice(bytes);
        Ok(Page { bytes: page })
    }

    /// Makes it the page that bytes are, in place. Refused `NotAStore` exactly where they are none; it then stays as it
    /// was.
    pub fn load(&mut self, bytes: &[u8]) -> Result<(), Fault>
        ensures page { OnOk result (page_of bytes.now ≡ Some self.new) }
        ensures none { OnErr result (page_of bytes.now ≡ None) }
        ensures same { OnErr result (self.new ≡ self.old) }
        ensures refused { IfErr result (λ e. e ≡ NotAStore) }
    {
        if bytes.len() != PAGE_SIZE || !is_form(bytes) {
            return Err(Fault::NotAStore);
        }
        self.bytes.copy_from_slice(bytes);
        Ok(())
    }

    /// Makes it the page that 4,096 bytes of the file of pages are, from a place on, by one read into its own bytes. Refused `Device`
    /// or, exactly where the bytes are no page, `NotAStore`; it is then some page.
    pub fn read_from<D: Disk>(&mut self, disk: &mut D, at: u64) -> Result<(), Fault>
        requires working { D.failed disk.old ≡ false }
        requires within { D.tells → at + 4096 ≤ length (D.seen disk.old Pages) }
        ensures page { OnOk result (D.tells → page_of (take 4096 (drop at (D.seen disk.old Pages))) ≡ Some self.new) }
        ensures none { result ≡ Err NotAStore → D.tells → page_of (take 4096 (drop at (D.seen disk.old Pages))) ≡ None }
        ensures causes { IfErr result (λ e. (e ≡ Device) ⊎ (e ≡ NotAStore)) }
        ensures device { result ≡ Err Device ↔ (D.failed disk.new ≡ true) }
        ensures reads { Reads D.Disk disk.old disk.new }
    {
        let read = read_form(disk, at, &mut self.bytes);
        if read.is_err() {
            make_initial(&mut self.bytes, 0);
        }
        read
    }

    /// Its 4,096 bytes. The page that they are is this one.
    pub fn bytes(&self) -> &[u8]
        ensures page { page_of result.now ≡ Some self.now }
        ensures len { length result.now ≡ 4096 }
    {
        &self.bytes
    }

    /// What every page's contents are: a law, and nothing that runs.
    pub fn law_content(&self)
        ensures { IsContent self.now }
    {
        cells::law_keys_are_short(self.bytes[8] == 2, &self.bytes);
    }

    /// The number of entries.
    pub fn len(&self) -> usize
        ensures { result ≡ length self.now.body.entries }
    {
        get_u16(&self.bytes, 12)
    }

    /// The LSN of the last record applied to it.
    pub fn lsn(&self) -> u64
        ensures { result ≡ self.now.lsn }
    {
        get_u64(&self.bytes, 0)
    }

    /// What it is for.
    pub fn kind(&self) -> PageKind
        ensures { result ≡ self.now.body.kind }
    {
        match self.bytes[8] {
            0 => PageKind::Free,
            1 => PageKind::Meta,
            2 => PageKind::Leaf,
            _ => PageKind::Inner,
        }
    }

    /// How many levels of pages stand below it.
    pub fn level(&self) -> u8
        ensures { result ≡ self.now.body.level }
    {
        self.bytes[9]
    }

    /// Whether a structure change that holds it is under way.
    pub fn is_marked(&self) -> bool
        ensures { result ≡ self.now.body.marked }
    {
        self.bytes[10] == 1
    }

    /// The leaf before it in the chain, 0 for none; in a meta page the number of free pages.
    pub fn prev(&self) -> PageNo
        ensures { result ≡ self.now.body.prev }
    {
        get_u32(&self.bytes, 16)
    }

    /// The leaf after it in the chain, the free page after it, or in a meta page the first free page; 0 for none.
    pub fn next(&self) -> PageNo
        ensures { result ≡ self.now.body.next }
    {
        get_u32(&self.bytes, 20)
    }

    /// The child below the first separator; in a meta page the number of pages.
    pub fn leftmost(&self) -> PageNo
        ensures { result ≡ self.now.body.leftmost }
    {
        get_u32(&self.bytes, 24)
    }

    /// The key of entry i, lent from the page.
    pub fn key(&self, i: usize) -> &[u8]
        requires { i < length self.now.body.entries }
        ensures key { result.now ≡ (entry_at self.now.body.entries i).0 }
        ensures some { 1 ≤ length result.now }
        ensures short { length result.now ≤ 255 }
    {
        cells::key(self.bytes[8] == 2, &self.bytes, i)
    }

    /// The value of entry i: a row id in a leaf, a child's page number in an inner page.
    pub fn value(&self, i: usize) -> u64
        requires { i < length self.now.body.entries }
        ensures value { result ≡ (entry_at self.now.body.entries i).1 }
        ensures child { self.now.body.kind ≡ Inner → result < 2 ^ 32 }
    {
        cells::value(self.bytes[8] == 2, &self.bytes, i)
    }

    /// The place of a key: `Ok` where it stands, `Err` where it would.
    pub fn find(&self, key: &[u8]) -> Result<usize, usize>
        ensures { IsPlace self.now.body.entries key.now result }
    {
        cells::find(self.bytes[8] == 2, &self.bytes, key)
    }

    /// The child of an inner page that holds a key: the leftmost where all separators are above the key, else that of
    /// the last separator that is not.
    pub fn child(&self, key: &[u8]) -> u64
        ensures child { IsChild self.now.body key.now result }
        ensures fits { self.now.body.kind ≡ Inner → result < 2 ^ 32 }
    {
        let _own = &self.bytes;
        match self.find(key) {
            Ok(i) => self.value(i),
            Err(0) => self.leftmost() as u64,
            Err(i) => self.value(i - 1),
        }
    }

    /// Says which record was the last one applied to it.
    pub fn set_lsn(&mut self, lsn: u64)
        ensures { self.new ≡ record self.old { lsn = lsn } }
    {
        put_u64(&mut self.bytes, 0, lsn);
    }

    /// Says whether a structure change that holds it is under way.
    pub fn set_marked(&mut self, marked: bool)
        ensures { self.new ≡ record self.old { body = record self.old.body { marked = marked } } }
    {
        put_u8(&mut self.bytes, 10, flags(marked));
    }

    /// Writes `prev`, which a leaf and a meta page have.
    pub fn set_prev(&mut self, prev: PageNo)
        requires { HasPrev self.old.body.kind }
        ensures { self.new ≡ record self.old { body = record self.old.body { prev = prev } } }
    {
        put_u32(&mut self.bytes, 16, prev);
    }

    /// Writes `next`, which all but an inner page have.
    pub fn set_next(&mut self, next: PageNo)
        requires { HasNext self.old.body.kind }
        ensures { self.new ≡ record self.old { body = record self.old.body { next = next } } }
    {
        put_u32(&mut self.bytes, 20, next);
    }

    /// Writes `leftmost`, which an inner and a meta page have.
    pub fn set_leftmost(&mut self, leftmost: PageNo)
        requires { HasLeftmost self.old.body.kind }
        ensures { self.new ≡ record self.old { body = record self.old.body { leftmost = leftmost } } }
    {
        put_u32(&mut self.bytes, 24, leftmost);
    }

    /// Makes it a free page, the next free one being `next`. The LSN stays.
    pub fn become_free(&mut self, next: PageNo)
        ensures { self.new ≡ record { lsn = self.old.lsn; body = empty_body Free 0 0 next 0 } }
    {
        make_empty(&mut self.bytes, PageKind::Free, 0, 0, next, 0);
    }

    /// Makes it a leaf with no entry. The LSN stays.
    pub fn become_leaf(&mut self, prev: PageNo, next: PageNo)
        ensures { self.new ≡ record { lsn = self.old.lsn; body = empty_body Leaf 0 prev next 0 } }
    {
        make_empty(&mut self.bytes, PageKind::Leaf, 0, prev, next, 0);
    }

    /// Makes it an inner page with one child. The LSN stays.
    pub fn become_inner(&mut self, level: u8, leftmost: PageNo)
        requires { 1 ≤ level }
        ensures { self.new ≡ record { lsn = self.old.lsn; body = empty_body Inner level 0 0 leftmost } }
    {
        make_empty(&mut self.bytes, PageKind::Inner, level, 0, 0, leftmost);
    }

    /// How many entries stay where it is split: the longest front whose cells and slots take at most so many bytes and
    /// that leaves two entries. Both parts then have room for one more entry of any size. Of a page that has no room
    /// for an entry one entry or more stays, and two or more stand right of the point, so that an inner page can give
    /// the first of them to its parent.
    pub fn split_point(&self, bound: usize) -> usize
        requires { IsSplitBound bound }
        ensures point { IsSplitPoint bound (is_leaf_kind self.now.body.kind) self.now.body.entries result }
        ensures left { HasRoomForAny (is_leaf_kind self.now.body.kind) (take result self.now.body.entries) }
        ensures right { HasRoomForAny (is_leaf_kind self.now.body.kind) (drop result self.now.body.entries) }
        ensures parts { LacksRoom (is_leaf_kind self.now.body.kind) self.now.body.entries → (1 ≤ result) × (result + 2 ≤ length self.now.body.entries) }
    {
        cells::law_keys_are_short(self.bytes[8] == 2, &self.bytes);
        split_point(self.bytes[8] == 2, &self.bytes, bound)
    }

    /// Leaves the entries that another page of its kind has from place `low` up to `high`.
    pub fn copy_entries(&mut self, from: &Page, low: usize, high: usize)
        requires holds { HoldsEntries self.old.body.kind }
        requires same { from.now.body.kind ≡ self.old.body.kind }
        requires order { low ≤ high }
        requires within { high ≤ length from.now.body.entries }
        ensures { self.new ≡ with_entries self.old (slice_range from.now.body.entries low high) }
    {
        let _own = &from.bytes;
        let leaf = self.bytes[8] == 2;
        copy_cells(&mut self.bytes, leaf, &from.bytes, low, high);
    }

    /// Whether an entry fits whose key has so many bytes.
    pub fn has_room(&self, key: usize) -> bool
        requires { key ≤ 255 }
        ensures { IsTrue result ↔ (taken (is_leaf_kind self.now.body.kind) self.now.body.entries + (1 + key + width (is_leaf_kind self.now.body.kind) + 2) ≤ 4064) }
    {
        let leaf = self.bytes[8] == 2;
        if cells::room(leaf, &self.bytes) < cells::cell_len(leaf, key) + 2 {
            return false;
        }
        true
    }

    /// Puts an entry at its place, which `find` answered. Refused `Full` exactly where cells and slots with it would take
    /// more than 4,064 bytes; the page then stays as it was.
    pub fn insert(&mut self, i: usize, key: &[u8], value: u64) -> Result<(), Full>
        requires holds { HoldsEntries self.old.body.kind }
        requires place { Parts self.old.body.entries key.now i i }
        requires keyed { 1 ≤ length key.now }
        requires short { length key.now ≤ 255 }
        requires fits { self.old.body.kind ≡ Inner → value < 2 ^ 32 }
        ensures ok { OnOk result (self.new ≡ with_entries self.old (insert self.old.body.entries i (key.now, value))) }
        ensures err { OnErr result (self.new ≡ self.old) }
        ensures full { IsOk result ↔ (taken (is_leaf_kind self.old.body.kind) self.old.body.entries + size (is_leaf_kind self.old.body.kind) (key.now, value) + 2 ≤ 4064) }
    {
        let leaf = self.bytes[8] == 2;
        if cells::room(leaf, &self.bytes) < cells::cell_len(leaf, key.len()) + 2 {
            return Err(Full);
        }
        insert_cell(&mut self.bytes, leaf, i, key, value);
        Ok(())
    }

    /// Takes entry i out, and packs the cells again.
    pub fn remove(&mut self, i: usize)
        requires holds { HoldsEntries self.old.body.kind }
        requires place { i < length self.old.body.entries }
        ensures { self.new ≡ with_entries self.old (remove self.old.body.entries i) }
    {
        let leaf = self.bytes[8] == 2;
        remove_cell(&mut self.bytes, leaf, i);
    }
}
