//! The frames: pages in memory, each with a mark where it was changed.
//!
//! The memory of all frames is taken at once, and nobody touches that of a frame before it is used: the system gives such memory out as
//! it is used. So many frames cost a small store nothing.

ghost use Rattle.std.specs.Prelude.{◌≡◌, ◌↔◌, ◌⊎◌, ℕ, ◌+◌, ◌<◌, ◌≤◌, ◌^◌, true, false, length, Some, None, Err, slice_set, OnOk, OnErr, IfOk, IfErr, IsOk, insert, remove, vec_capacity};
ghost use Rattle.im_base_types.specs.declared.fault.Fault.TheVariants.{Device, Memory, NotAStore};
ghost use Rattle.im_base_types.specs.declared.file_id.FileId.TheVariants.{Pages};
ghost use Rattle.im_base_types.specs.declared.page_kind.PageKind.TheVariants.{Free, Leaf, Inner};
ghost use Rattle.im_base_disk.specs.Runs.{Reads};
ghost use Rattle.im_theory_page.specs.Entry.{Parts, taken, size};
ghost use Rattle.im_theory_page.specs.Page.{HoldsEntries, is_leaf_kind, page_of, with_entries};
ghost use Rattle.im_theory_page.specs.Header.{empty_body, HasPrev, HasNext, HasLeftmost};
ghost use Rattle.im_theory_page.specs.PageFile.{file_page};
ghost use Rattle.im_page_pool.specs.Frames.{frames_in, no_page, stored_at, Puts};

use crate::files::read_page;
use im_base_disk::Disk;
use im_base_types::{Fault, PageNo};
use im_page::{Full, Page};
use std::alloc::Global;
use std::marker::Model;
use std::mem;

/// A page in memory, and whether it was changed since it was read or written.
#[derive(Drop)]
struct Slot {
    page: Page,
    changed: bool,
}

impl Model for Slot {
    ghost use Rattle.im_page_pool.specs.Frames.{Stored};

    ghost Value = { Stored };

    ghost view = { λ s. record { page = s.page; changed = s.changed } };
}

impl Slot {
    // What a frame has before it is used.
    fn unused() -> Slot
        ensures { result ≡ no_page }
    {
        Slot {
            page: Page::initial(0),
            changed: false,
        }
    }
}

/// Frames by their places.
#[derive(Drop)]
pub struct Frames {
    /// The frames used so far, and those of lower places. There is memory for all.
    slots: Vec<Slot>,
    count: usize,
    /// What each other frame has.
    unused: Box<Slot>,
}

impl Model for Frames {
    ghost use Rattle.std.specs.Prelude.{◌≡◌, ◌≤◌, List, length, vec_capacity};
    ghost use Rattle.im_page_pool.specs.Frames.{Stored, frames_in, no_page};

    ghost Value = { List Stored };

    ghost view = { λ f. frames_in f.slots.items f.count };

    ghost invariant = { λ f. (length f.slots.items ≤ f.count) × (f.count ≤ vec_capacity f.slots) × (f.unused.value ≡ no_page) };
}

// Uses the frames up to a place.
fn reach(slots: &mut Vec<Slot>, place: u32)
    requires { place < vec_capacity slots.old }
    ensures there { place < length slots.new.items }
    ensures same { (n : ℕ) → length slots.old.items ≤ n → place < n → frames_in slots.new.items n ≡ frames_in slots.old.items n }
    ensures within { (n : ℕ) → length slots.old.items ≤ n → place < n → length slots.new.items ≤ n }
    ensures capacity { vec_capacity slots.new ≡ vec_capacity slots.old }
{
    while slots.len() <= place as usize {
        slots.push_reserved(Slot::unused());
    }
}

impl Frames {
    /// So many frames.
    pub fn new(alloc: Global, frames: usize) -> Result<Self, Fault>
        ensures len { IfOk result (λ f. length f ≡ frames) }
        ensures refused { IfErr result (λ e. e ≡ Memory) }
    {
        let slots = Vec::with_capacity(alloc, frames).map_err(|_| Fault::Memory)?;
        let unused = Box::new(alloc, Slot::unused()).map_err(|_| Fault::Memory)?;
        Ok(Frames {
            slots,
            count: frames,
            unused,
        })
    }

    /// How many there are.
    pub fn len(&self) -> usize
        ensures { result ≡ length self.now }
    {
        self.count
    }

    // What a frame has.
    fn slot(&self, place: u32) -> &Slot
        requires { place < length self.now }
        ensures { result.now ≡ stored_at self.now place }
    {
        if (place as usize) < self.slots.len() {
            &self.slots[place as usize]
        } else {
            &self.unused
        }
    }

    /// The page in a frame, lent.
    pub fn page(&self, place: u32) -> &Page
        requires { place < length self.now }
        ensures { result.now ≡ (stored_at self.now place).page }
    {
        let slot = self.slot(place);
        &slot.page
    }

    /// Whether the page in a frame was changed.
    pub fn is_changed(&self, place: u32) -> bool
        requires { place < length self.now }
        ensures { result ≡ (stored_at self.now place).changed }
    {
        let slot = self.slot(place);
        slot.changed
    }

    /// Reads a page into a frame. On `Err` the frame has some page.
    pub fn read<D: Disk>(&mut self, place: u32, disk: &mut D, p: PageNo) -> Result<(), Fault>
        requires place { place < length self.old }
        requires working { D.failed disk.old ≡ false }
        ensures page { OnOk result (D.tells → file_page (D.seen disk.old Pages) p ≡ Some (stored_at self.new place).page) }
        ensures others { self.new ≡ slice_set self.old place (record { page = (stored_at self.new place).page; changed = false }) }
        ensures none { result ≡ Err NotAStore → D.tells → file_page (D.seen disk.old Pages) p ≡ None }
        ensures causes { IfErr result (λ e. (e ≡ Device) ⊎ (e ≡ NotAStore)) }
        ensures device { result ≡ Err Device ↔ (D.failed disk.new ≡ true) }
        ensures reads { Reads D.Disk disk.old disk.new }
    {
        reach(&mut self.slots, place);
        let slot = &mut self.slots[place as usize];
        slot.changed = false;
        read_page(disk, p, &mut slot.page)
    }

    /// Says that the page in a frame stands in the file as it is.
    pub fn set_unchanged(&mut self, place: u32)
        requires { place < length self.old }
        ensures { self.new ≡ slice_set self.old place (record { page = (stored_at self.old place).page; changed = false }) }
    {
        reach(&mut self.slots, place);
        let slot = &mut self.slots[place as usize];
        slot.changed = false;
    }

    /// Puts another page into a frame, with a mark, in exchange for the page that it had.
    pub fn exchange(&mut self, place: u32, page: &mut Box<Page>, changed: bool)
        requires { place < length self.old }
        ensures out { page.new.value ≡ (stored_at self.old place).page }
        ensures put { self.new ≡ slice_set self.old place (record { page = page.old.value; changed = changed }) }
    {
        reach(&mut self.slots, place);
        let slot = &mut self.slots[place as usize];
        slot.changed = changed;
        mem::swap(&mut slot.page, &mut **page);
    }

    /// Makes it the page that bytes are. On `Err` it stays as it was.
    pub fn load(&mut self, place: u32, bytes: &[u8]) -> Result<(), Fault>
        requires { place < length self.old }
        ensures page { OnOk result (page_of bytes.now ≡ Some (stored_at self.new place).page) }
        ensures put { OnOk result (Puts place (stored_at self.new place).page self.old self.new) }
        ensures none { OnErr result (page_of bytes.now ≡ None) }
        ensures len { length self.new ≡ length self.old }
        ensures same { OnErr result (self.new ≡ self.old) }
        ensures refused { IfErr result (λ e. e ≡ NotAStore) }
    {
        reach(&mut self.slots, place);
        let slot = &mut self.slots[place as usize];
        slot.page.load(bytes)?;
        slot.changed = true;
        Ok(())
    }

    /// Puts an entry at its place in the page. On `Err` it stays as it was.
    pub fn insert(&mut self, place: u32, i: usize, key: &[u8], value: u64) -> Result<(), Full>
        requires place { place < length self.old }
        requires holds { HoldsEntries (stored_at self.old place).page.body.kind }
        requires parts { Parts (stored_at self.old place).page.body.entries key.now i i }
        requires keyed { 1 ≤ length key.now }
        requires short { length key.now ≤ 255 }
        requires fits { (stored_at self.old place).page.body.kind ≡ Inner → value < 2 ^ 32 }
        ensures ok { OnOk result (Puts place (with_entries (stored_at self.old place).page (insert (stored_at self.old place).page.body.entries i (key.now, value))) self.old self.new) }
        ensures err { OnErr result (self.new ≡ self.old) }
        ensures len { length self.new ≡ length self.old }
        ensures full { IsOk result ↔ (taken (is_leaf_kind (stored_at self.old place).page.body.kind) (stored_at self.old place).page.body.entries + size (is_leaf_kind (stored_at self.old place).page.body.kind) (key.now, value) + 2 ≤ 4064) }
    {
        reach(&mut self.slots, place);
        let slot = &mut self.slots[place as usize];
        slot.page.insert(i, key, value)?;
        slot.changed = true;
        Ok(())
    }

    /// Takes an entry out of the page.
    pub fn remove(&mut self, place: u32, i: usize)
        requires place { place < length self.old }
        requires holds { HoldsEntries (stored_at self.old place).page.body.kind }
        requires within { i < length (stored_at self.old place).page.body.entries }
        ensures { Puts place (with_entries (stored_at self.old place).page (remove (stored_at self.old place).page.body.entries i)) self.old self.new }
    {
        reach(&mut self.slots, place);
        let slot = &mut self.slots[place as usize];
        slot.page.remove(i);
        slot.changed = true;
    }

    /// Says which record was the last one applied to the page.
    pub fn set_lsn(&mut self, place: u32, lsn: u64)
        requires { place < length self.old }
        ensures { Puts place (record (stored_at self.old place).page { lsn = lsn }) self.old self.new }
    {
        reach(&mut self.slots, place);
        let slot = &mut self.slots[place as usize];
        slot.page.set_lsn(lsn);
        slot.changed = true;
    }

    /// Says whether a structure change that holds a held page is under way.
    pub fn set_marked(&mut self, place: u32, marked: bool)
        requires { place < length self.old }
        ensures { Puts place (record (stored_at self.old place).page { body = record (stored_at self.old place).page.body { marked = marked } }) self.old self.new }
    {
        reach(&mut self.slots, place);
        let slot = &mut self.slots[place as usize];
        slot.page.set_marked(marked);
        slot.changed = true;
    }

    /// Writes `prev`, which a leaf and a meta page have.
    pub fn set_prev(&mut self, place: u32, prev: PageNo)
        requires place { place < length self.old }
        requires holds { HasPrev (stored_at self.old place).page.body.kind }
        ensures { Puts place (record (stored_at self.old place).page { body = record (stored_at self.old place).page.body { prev = prev } }) self.old self.new }
    {
        reach(&mut self.slots, place);
        let slot = &mut self.slots[place as usize];
        slot.page.set_prev(prev);
        slot.changed = true;
    }

    /// Writes `next`, which all but an inner page have.
    pub fn set_next(&mut self, place: u32, next: PageNo)
        requires place { place < length self.old }
        requires holds { HasNext (stored_at self.old place).page.body.kind }
        ensures { Puts place (record (stored_at self.old place).page { body = record (stored_at self.old place).page.body { next = next } }) self.old self.new }
    {
        reach(&mut self.slots, place);
        let slot = &mut self.slots[place as usize];
        slot.page.set_next(next);
        slot.changed = true;
    }

    /// Writes `leftmost`, which an inner and a meta page have.
    pub fn set_leftmost(&mut self, place: u32, leftmost: PageNo)
        requires place { place < length self.old }
        requires holds { HasLeftmost (stored_at self.old place).page.body.kind }
        ensures { Puts place (record (stored_at self.old place).page { body = record (stored_at self.old place).page.body { leftmost = leftmost } }) self.old self.new }
    {
        reach(&mut self.slots, place);
        let slot = &mut self.slots[place as usize];
        slot.page.set_leftmost(leftmost);
        slot.changed = true;
    }

    /// Makes a held page a free page, the next free one being `next`. The LSN stays.
    pub fn become_free(&mut self, place: u32, next: PageNo)
        requires { place < length self.old }
        ensures { Puts place (record { lsn = (stored_at self.old place).page.lsn; body = empty_body Free 0 0 next 0 }) self.old self.new }
    {
        reach(&mut self.slots, place);
        let slot = &mut self.slots[place as usize];
        slot.page.become_free(next);
        slot.changed = true;
    }

    /// Makes a held page a leaf with no entry. The LSN stays.
    pub fn become_leaf(&mut self, place: u32, prev: PageNo, next: PageNo)
        requires { place < length self.old }
        ensures { Puts place (record { lsn = (stored_at self.old place).page.lsn; body = empty_body Leaf 0 prev next 0 }) self.old self.new }
    {
        reach(&mut self.slots, place);
        let slot = &mut self.slots[place as usize];
        slot.page.become_leaf(prev, next);
        slot.changed = true;
    }

    /// Makes a held page an inner page with one child. The LSN stays.
    pub fn become_inner(&mut self, place: u32, level: u8, leftmost: PageNo)
        requires place { place < length self.old }
        requires level { 1 ≤ level }
        ensures { Puts place (record { lsn = (stored_at self.old place).page.lsn; body = empty_body Inner level 0 0 leftmost }) self.old self.new }
    {
        reach(&mut self.slots, place);
        let slot = &mut self.slots[place as usize];
        slot.page.become_inner(level, leftmost);
        slot.changed = true;
    }
}
