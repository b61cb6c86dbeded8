//! The pool.

ghost use Rattle.std.specs.Prelude.{◌≡◌, ◌↔◌, ◌⊎◌, ◌+◌, ◌<◌, ◌≤◌, ◌^◌, [], ℕ, List, true, false, length, take, Some, None, Ok, Err, OnOk, OnErr, IfOk, IfErr, IfSome, IsOk, IsTrue, IsSome, insert, remove, reverse, slice_get, option_map};
ghost use Rattle.lru.specs.LruCache.{last_entry};
ghost use Rattle.im_base_types.specs.declared.fault.Fault.TheVariants.{Device, Memory, NotAStore};
ghost use Rattle.im_base_types.specs.declared.file_id.FileId.TheVariants.{Pages};
ghost use Rattle.im_base_types.specs.declared.page_kind.PageKind.TheVariants.{Free, Leaf, Inner};
ghost use Rattle.im_base_disk.specs.Disk.{Stepped, Follows, InFile, Answers};
ghost use Rattle.im_base_disk.specs.Runs.{LeavesOnly, ChangesOnly, Reads, Costs};
ghost use Rattle.im_theory_page.specs.Entry.{Parts, taken, size};
ghost use Rattle.im_theory_page.specs.Page.{HoldsEntries, is_leaf_kind, page_of, with_entries};
ghost use Rattle.im_theory_page.specs.Header.{empty_body, HasPrev, HasNext, HasLeftmost};
ghost use Rattle.im_theory_page.specs.PageFile.{page_count, file_page};
ghost use Rattle.im_page_pool.specs.Writes.{WritesPage, TearsPage};
ghost use Rattle.im_page_pool.specs.Pool.{held_of, Holds, IsAt, page_at, is_changed, page_seen, frame_of, Sets, Changes, Takes, MovesFirst, Evicts, changed_numbers, last_changed};
ghost use Rattle.im_page_pool.specs.Inside.{last_marked, marked_numbers};

use crate::files::write_page;
use crate::frame::Frame;
use crate::frames::Frames;
use crate::places::Places;
use im_base_disk::{Count, Disk};
use im_base_types::{Fault, PageNo};
use im_page::{Full, Page};
use std::alloc::Global;
use std::marker::Model;

/// At most so many pages of the file of pages, each in a frame of its own.
#[derive(Drop)]
pub struct Pool {
    places: Places,
    frames: Frames,
    gets: Count,
}

impl Model for Pool {
    ghost use Rattle.std.specs.Prelude.{◌≡◌, length};
    ghost use Rattle.im_page_pool.specs.Pool.{PoolView};
    ghost use Rattle.im_page_pool.specs.Inside.{held_in, IsWhole};

    ghost Value = { PoolView };

    ghost view = { λ a. record { held = held_in a.frames a.places.taken; frames = length a.frames; gets = a.gets.count } };

    ghost invariant = { λ a. IsWhole a.places a.frames };
}

impl Pool {
    /// A pool of so many frames, 8 to 262,144 (1 GiB), that holds nothing. All memory is taken here: no other call takes any. Refused `Memory`.
    pub fn new(alloc: Global, frames: usize) -> Result<Self, Fault>
        requires least { 8 ≤ frames }
        requires most { frames ≤ 262144 }
        ensures pool { IfOk result (λ pool. pool ≡ record { held = []; frames = frames; gets = 0 }) }
        ensures refused { IfErr result (λ e. e ≡ Memory) }
    {
        let places = Places::new(alloc, frames)?;
        let slots = Frames::new(alloc, frames)?;
        Ok(Pool {
            places,
            frames: slots,
            gets: Count::new(),
        })
    }

    /// How many pages are held.
    pub fn len(&self) -> usize
        ensures len { result ≡ length self.now.held }
        ensures within { length self.now.held ≤ self.now.frames }
        ensures some { 1 ≤ self.now.frames }
    {
        self.places.len()
    }

    /// How many pages may be held.
    pub fn frames(&self) -> usize
        ensures { result ≡ self.now.frames }
    {
        self.frames.len()
    }

    /// Whether no frame is free.
    pub fn is_full(&self) -> bool
        ensures full { result ≡ true → length self.now.held ≡ self.now.frames }
        ensures some { result ≡ true → 1 ≤ length self.now.held }
        ensures room { result ≡ false → length self.now.held < self.now.frames }
    {
        self.len() == self.frames()
    }

    /// Where a page is held. Its use doesn't count.
    pub fn find(&self, p: PageNo) -> Option<Frame>
        ensures found { result ≡ option_map (λ h. frame_of (p, h)) (held_of self.now p) }
        ensures at { IfSome result (IsAt self.now) }
    {
        match self.places.find(p) {
            Some(place) => Some(Frame { number: p, place }),
            None => None,
        }
    }

    /// Whether a page is held.
    pub fn holds(&self, p: PageNo) -> bool
        ensures { IsTrue result ↔ Holds self.now p }
    {
        self.find(p).is_some()
    }

    /// The least recently used page.
    pub fn oldest(&self) -> Option<Frame>
        ensures oldest { result ≡ option_map frame_of (last_entry self.now.held) }
        ensures at { IfSome result (IsAt self.now) }
        ensures some { result ≡ None → self.now.held ≡ [] }
    {
        match self.places.oldest() {
            Some((number, place)) => Some(Frame { number, place }),
            None => None,
        }
    }

    /// The least recently used of those that were changed since they were read or written. It walks over those that are
    /// less recently used.
    pub fn oldest_changed(&self) -> Option<Frame>
        ensures oldest { result ≡ option_map frame_of (last_changed self.now.held) }
        ensures at { IfSome result (IsAt self.now) }
    {
        match last_changed(&self.places, &self.frames) {
            Some((number, place)) => Some(Frame { number, place }),
            None => None,
        }
    }

    /// The pages that were changed since they were read or written, among so many that are the least recently used: their numbers stand
    /// at the front of `numbers` then, the least recently used page first, as many as it has room for. Answers how many those are.
    pub fn oldest_changes(&self, among: usize, numbers: &mut [PageNo]) -> usize
        ensures within { result ≤ length numbers.old }
        ensures room { length numbers.new ≡ length numbers.old }
        ensures numbers { take result numbers.new ≡ take (length numbers.old) (changed_numbers (take among (reverse self.now.held))) }
    {
        note_changed(&self.places, &self.frames, among, numbers)
    }

    /// Whether a held page was changed since it was read or written.
    pub fn is_changed(&self, frame: Frame) -> bool
        requires { IsAt self.now frame }
        ensures { result ≡ is_changed self.now frame.number }
    {
        self.frames.is_changed(frame.place)
    }

    /// A held page, lent.
    pub fn page(&self, frame: Frame) -> &Page
        requires { IsAt self.now frame }
        ensures page { result.now ≡ page_at self.now frame.number }
    {
        self.frames.page(frame.place)
    }

    /// Where a page is held from now on, as the most recently used: as it was where it was held, else as the file has it,
    /// by one read; past the last whole page of the file it is the initial one, by a length call. Each call counts as one
    /// get. A page that is held takes no call of the disk. Refused `Device` or, exactly where the bytes of a page that is not held
    /// are none, `NotAStore`; the pool then holds what it held.
    pub fn get<D: Disk>(&mut self, disk: &mut D, p: PageNo) -> Result<Frame, Fault>
        requires working { D.failed disk.old ≡ false }
        requires room { Holds self.old p ⊎ (length self.old.held < self.old.frames) }
        ensures frame { IfOk result (λ f. f.number ≡ p) }
        ensures at { IfOk result (IsAt self.new) }
        ensures held { Holds self.old p → IsOk result × MovesFirst p self.old self.new }
        ensures quiet { Holds self.old p → disk.new ≡ disk.old }
        ensures read { held_of self.old p ≡ None → IfOk result (λ f. Takes f (page_at self.new p) false self.old self.new) }
        ensures err { OnErr result (self.new.held ≡ self.old.held) }
        ensures frames { self.new.frames ≡ self.old.frames }
        ensures count { self.new.gets ≡ self.old.gets + 1 }
        ensures page { OnOk result (D.tells → page_seen self.old (D.seen disk.old Pages) p ≡ Some (page_at self.new p)) }
        ensures seen { D.tells → (q : ℕ) → page_seen self.new (D.seen disk.new Pages) q ≡ page_seen self.old (D.seen disk.old Pages) q }
        ensures refused { D.tells → D.failed disk.new ≡ false → (result ≡ Err NotAStore ↔ (page_seen self.old (D.seen disk.old Pages) p ≡ None)) }
        ensures causes { IfErr result (λ e. (e ≡ Device) ⊎ (e ≡ NotAStore)) }
        ensures device { result ≡ Err Device ↔ (D.failed disk.new ≡ true) }
        ensures reads { Reads D.Disk disk.old disk.new }
    {
        if let Some(frame) = self.get_held(p) {
            return Ok(frame);
        }
        self.get_absent(disk, p)
    }

    /// The same of a page that is not held, for which a frame is free: its number is not looked up before it is entered.
    pub fn get_absent<D: Disk>(&mut self, disk: &mut D, p: PageNo) -> Result<Frame, Fault>
        requires working { D.failed disk.old ≡ false }
        requires absent { held_of self.old p ≡ None }
        requires room { length self.old.held < self.old.frames }
        ensures frame { IfOk result (λ f. f.number ≡ p) }
        ensures at { IfOk result (IsAt self.new) }
        ensures read { IfOk result (λ f. Takes f (page_at self.new p) false self.old self.new) }
        ensures err { OnErr result (self.new.held ≡ self.old.held) }
        ensures frames { self.new.frames ≡ self.old.frames }
        ensures count { self.new.gets ≡ self.old.gets + 1 }
        ensures page { OnOk result (D.tells → page_seen self.old (D.seen disk.old Pages) p ≡ Some (page_at self.new p)) }
        ensures seen { D.tells → (q : ℕ) → page_seen self.new (D.seen disk.new Pages) q ≡ page_seen self.old (D.seen disk.old Pages) q }
        ensures refused { D.tells → D.failed disk.new ≡ false → (result ≡ Err NotAStore ↔ (page_seen self.old (D.seen disk.old Pages) p ≡ None)) }
        ensures causes { IfErr result (λ e. (e ≡ Device) ⊎ (e ≡ NotAStore)) }
        ensures device { result ≡ Err Device ↔ (D.failed disk.new ≡ true) }
        ensures reads { Reads D.Disk disk.old disk.new }
    {
        self.count();
        self.fetch(disk, p)
    }

    /// Where a held page is, as the most recently used from now on, by one look-up, which counts as one get. `None` where it is not
    /// held; the pool then stays as it was.
    pub fn get_held(&mut self, p: PageNo) -> Option<Frame>
        ensures frame { IfSome result (λ f. f.number ≡ p) }
        ensures at { IfSome result (IsAt self.new) }
        ensures first { IfSome result (λ _. MovesFirst p self.old self.new) }
        ensures page { IfSome result (λ _. (file : List ℕ) → page_seen self.old file p ≡ Some (page_at self.new p)) }
        ensures count { IfSome result (λ _. self.new.gets ≡ self.old.gets + 1) }
        ensures holds { IsSome result ↔ Holds self.old p }
        ensures none { result ≡ None → self.new ≡ self.old }
    {
        match self.touch(p) {
            Some(frame) => {
                self.count();
                Some(frame)
            }
            None => None,
        }
    }

    // One get more.
    fn count(&mut self)
        ensures { self.new ≡ record self.old { gets = self.old.gets + 1 } }
    {
        self.gets = self.gets.with_one_more();
    }

    // Where a page is held, which becomes the most recently used.
    fn touch(&mut self, p: PageNo) -> Option<Frame>
        ensures some { IfSome result (λ f. (f.number ≡ p) × IsAt self.new f × MovesFirst p self.old self.new) }
        ensures holds { IsSome result ↔ Holds self.old p }
        ensures none { result ≡ None → self.new ≡ self.old }
        ensures count { self.new.gets ≡ self.old.gets }
    {
        if let Some(place) = self.places.touch(p) {
            return Some(Frame { number: p, place });
        }
        None
    }

    // Reads a page that is not held into a free frame. That is not counted.
    fn fetch<D: Disk>(&mut self, disk: &mut D, p: PageNo) -> Result<Frame, Fault>
        requires working { D.failed disk.old ≡ false }
        requires absent { held_of self.old p ≡ None }
        requires room { length self.old.held < self.old.frames }
        ensures frame { IfOk result (λ f. f.number ≡ p) }
        ensures read { IfOk result (λ f. Takes f (page_at self.new p) false self.old self.new) }
        ensures err { OnErr result (self.new ≡ self.old) }
        ensures count { self.new.gets ≡ self.old.gets }
        ensures page { OnOk result (D.tells → file_page (D.seen disk.old Pages) p ≡ Some (page_at self.new p)) }
        ensures none { result ≡ Err NotAStore → D.tells → file_page (D.seen disk.old Pages) p ≡ None }
        ensures causes { IfErr result (λ e. (e ≡ Device) ⊎ (e ≡ NotAStore)) }
        ensures device { result ≡ Err Device ↔ (D.failed disk.new ≡ true) }
        ensures reads { Reads D.Disk disk.old disk.new }
    {
        let place = self.places.next();
        self.frames.read(place, disk, p)?;
        self.places.take(p);
        Ok(Frame { number: p, place })
    }

    /// Holds a full copy as the page of a number, whatever the file has. It counts as changed. Refused `NotAStore` exactly where the
    /// bytes are no page; the pool then stays as it was.
    pub fn hold_copy(&mut self, p: PageNo, bytes: &[u8]) -> Result<Frame, Fault>
        requires absent { held_of self.old p ≡ None }
        requires room { length self.old.held < self.old.frames }
        ensures frame { IfOk result (λ f. f.number ≡ p) }
        ensures taken { IfOk result (λ f. Takes f (page_at self.new p) true self.old self.new) }
        ensures page { OnOk result (page_of bytes.now ≡ Some (page_at self.new p)) }
        ensures count { self.new.gets ≡ self.old.gets }
        ensures err { OnErr result (self.new ≡ self.old) }
        ensures none { result ≡ Err NotAStore ↔ (page_of bytes.now ≡ None) }
        ensures refused { IfErr result (λ e. e ≡ NotAStore) }
    {
        let place = self.places.next();
        self.frames.load(place, bytes)?;
        self.places.take(p);
        Ok(Frame { number: p, place })
    }

    /// Makes a held page a full copy. Refused `NotAStore` exactly where the bytes are no page; the pool then stays as it
    /// was.
    pub fn copy_in(&mut self, frame: Frame, bytes: &[u8]) -> Result<(), Fault>
        requires { IsAt self.old frame }
        ensures ok { OnOk result (Changes frame (page_at self.new frame.number) self.old self.new) }
        ensures page { OnOk result (page_of bytes.now ≡ Some (page_at self.new frame.number)) }
        ensures none { OnErr result (page_of bytes.now ≡ None) }
        ensures err { OnErr result (self.new ≡ self.old) }
        ensures refused { IfErr result (λ e. e ≡ NotAStore) }
    {
        self.frames.load(frame.place, bytes)
    }

    /// Puts another page into the frame of a held one, with a mark, in exchange for the page that it had: that one is then lent, until it
    /// comes back by a second exchange. The order of use, the frame and its number stay, so that lent and held pages together are at most as
    /// many as there are frames. The two pages are copied, and no memory is taken.
    pub fn exchange(&mut self, frame: Frame, page: &mut Box<Page>, changed: bool)
        requires { IsAt self.old frame }
        ensures out { page.new.value ≡ page_at self.old frame.number }
        ensures here { Sets frame page.old.value changed self.old self.new }
    {
        self.frames.exchange(frame.place, page, changed);
    }

    /// Writes a held page to its place in the file, one device call, and takes its mark off. Its number is at most the
    /// file's page count, so that no page is left out. A stop within leaves any bytes in the page's range, and each other
    /// page as it was. Refused `Device`; the pool then stays as it was.
    pub fn write_back<D: Disk>(&mut self, disk: &mut D, frame: Frame) -> Result<(), Fault>
        requires held { IsAt self.old frame }
        requires working { D.failed disk.old ≡ false }
        requires place { D.tells → frame.number ≤ page_count (D.seen disk.old Pages) }
        ensures ok { OnOk result (Sets frame (page_at self.old frame.number) false self.old self.new) }
        ensures err { OnErr result (self.new ≡ self.old) }
        ensures written { OnOk result (D.tells → WritesPage frame.number (page_at self.old frame.number) (D.seen disk.old Pages) (D.seen disk.new Pages)) }
        ensures seen { OnOk result (D.tells → (q : ℕ) → page_seen self.new (D.seen disk.new Pages) q ≡ page_seen self.old (D.seen disk.old Pages) q) }
        ensures crash { Follows (InFile Pages (TearsPage frame.number)) (D.may_leave disk.old) (D.may_leave disk.new) }
        ensures changes { ChangesOnly D.Disk Pages disk.old disk.new }
        ensures any_moment { LeavesOnly D.Disk disk.old disk.new (Stepped (InFile Pages (TearsPage frame.number)) (D.may_leave disk.old)) }
        ensures costs { Costs D.Disk 1 0 disk.old disk.new }
        ensures answers { Answers (D.failed disk.new) result }
    {
        write_page(disk, frame.number, self.frames.page(frame.place))?;
        self.frames.set_unchanged(frame.place);
        Ok(())
    }

    /// Makes room: the page is held no more, whether it was changed or not. No memory is taken.
    pub fn evict(&mut self, p: PageNo)
        requires { Holds self.old p }
        ensures { Evicts p self.old self.new }
    {
        self.places.give_back(p);
    }

    /// Puts an entry at its place in a held page, as `Page::insert` does.
    pub fn insert(&mut self, frame: Frame, i: usize, key: &[u8], value: u64) -> Result<(), Full>
        requires held { IsAt self.old frame }
        requires holds { HoldsEntries (page_at self.old frame.number).body.kind }
        requires place { Parts (page_at self.old frame.number).body.entries key.now i i }
        requires keyed { 1 ≤ length key.now }
        requires short { length key.now ≤ 255 }
        requires fits { (page_at self.old frame.number).body.kind ≡ Inner → value < 2 ^ 32 }
        ensures ok { OnOk result (Changes frame (with_entries (page_at self.old frame.number) (insert (page_at self.old frame.number).body.entries i (key.now, value))) self.old self.new) }
        ensures err { OnErr result (self.new ≡ self.old) }
        ensures full { IsOk result ↔ (taken (is_leaf_kind (page_at self.old frame.number).body.kind) (page_at self.old frame.number).body.entries + size (is_leaf_kind (page_at self.old frame.number).body.kind) (key.now, value) + 2 ≤ 4064) }
    {
        self.frames.insert(frame.place, i, key, value)
    }

    /// Takes entry i out of a held page, as `Page::remove` does.
    pub fn remove(&mut self, frame: Frame, i: usize)
        requires held { IsAt self.old frame }
        requires holds { HoldsEntries (page_at self.old frame.number).body.kind }
        requires within { i < length (page_at self.old frame.number).body.entries }
        ensures { Changes frame (with_entries (page_at self.old frame.number) (remove (page_at self.old frame.number).body.entries i)) self.old self.new }
    {
        self.frames.remove(frame.place, i);
    }

    /// Says which record was the last one applied to a held page.
    pub fn set_lsn(&mut self, frame: Frame, lsn: u64)
        requires { IsAt self.old frame }
        ensures { Changes frame (record (page_at self.old frame.number) { lsn = lsn }) self.old self.new }
    {
        self.frames.set_lsn(frame.place, lsn);
    }

    /// Says whether a structure change that holds a held page is under way.
    pub fn set_marked(&mut self, frame: Frame, marked: bool)
        requires { IsAt self.old frame }
        ensures { Changes frame (record (page_at self.old frame.number) { body = record (page_at self.old frame.number).body { marked = marked } }) self.old self.new }
    {
        self.frames.set_marked(frame.place, marked);
    }

    /// Writes `prev`, which a leaf and a meta page have.
    pub fn set_prev(&mut self, frame: Frame, prev: PageNo)
        requires held { IsAt self.old frame }
        requires holds { HasPrev (page_at self.old frame.number).body.kind }
        ensures { Changes frame (record (page_at self.old frame.number) { body = record (page_at self.old frame.number).body { prev = prev } }) self.old self.new }
    {
        self.frames.set_prev(frame.place, prev);
    }

    /// Writes `next`, which all but an inner page have.
    pub fn set_next(&mut self, frame: Frame, next: PageNo)
        requires held { IsAt self.old frame }
        requires holds { HasNext (page_at self.old frame.number).body.kind }
        ensures { Changes frame (record (page_at self.old frame.number) { body = record (page_at self.old frame.number).body { next = next } }) self.old self.new }
    {
        self.frames.set_next(frame.place, next);
    }

    /// Writes `leftmost`, which an inner and a meta page have.
    pub fn set_leftmost(&mut self, frame: Frame, leftmost: PageNo)
        requires held { IsAt self.old frame }
        requires holds { HasLeftmost (page_at self.old frame.number).body.kind }
        ensures { Changes frame (record (page_at self.old frame.number) { body = record (page_at self.old frame.number).body { leftmost = leftmost } }) self.old self.new }
    {
        self.frames.set_leftmost(frame.place, leftmost);
    }

    /// Makes a held page a free page, the next free one being `next`. The LSN stays.
    pub fn become_free(&mut self, frame: Frame, next: PageNo)
        requires { IsAt self.old frame }
        ensures { Changes frame (record { lsn = (page_at self.old frame.number).lsn; body = empty_body Free 0 0 next 0 }) self.old self.new }
    {
        self.frames.become_free(frame.place, next);
    }

    /// Makes a held page a leaf with no entry. The LSN stays.
    pub fn become_leaf(&mut self, frame: Frame, prev: PageNo, next: PageNo)
        requires { IsAt self.old frame }
        ensures { Changes frame (record { lsn = (page_at self.old frame.number).lsn; body = empty_body Leaf 0 prev next 0 }) self.old self.new }
    {
        self.frames.become_leaf(frame.place, prev, next);
    }

    /// Makes a held page an inner page with one child. The LSN stays.
    pub fn become_inner(&mut self, frame: Frame, level: u8, leftmost: PageNo)
        requires held { IsAt self.old frame }
        requires level { 1 ≤ level }
        ensures { Changes frame (record { lsn = (page_at self.old frame.number).lsn; body = empty_body Inner level 0 0 leftmost }) self.old self.new }
    {
        self.frames.become_inner(frame.place, level, leftmost);
    }
}

// The number and the place of the last page whose frame was changed.
fn last_changed(places: &Places, frames: &Frames) -> Option<(PageNo, u32)>
    requires { (i : ℕ) (e : ℕ × ℕ) → slice_get places.now.taken i ≡ Some e → e.1 < length frames.now }
    ensures { result ≡ last_marked frames.now places.now.taken }
{
    for (place, number) in places.iter().rev() {
        if let Some(p) = *number {
            if frames.is_changed(*place) {
                return Some((p, *place));
            }
        }
    }
    None
}

// The numbers of the pages whose frames were changed, among so many that are the least recently used.
fn note_changed(places: &Places, frames: &Frames, among: usize, numbers: &mut [PageNo]) -> usize
    requires { (i : ℕ) (e : ℕ × ℕ) → slice_get places.now.taken i ≡ Some e → e.1 < length frames.now }
    ensures within { result ≤ length numbers.old }
    ensures numbers { take result numbers.new ≡ take (length numbers.old) (marked_numbers frames.now (take among (reverse places.now.taken))) }
{
    let mut passed = 0;
    let mut noted = 0;
    for (place, number) in places.iter().rev() {
        if let Some(p) = *number {
            if passed == among || noted == numbers.len() {
                return noted;
            }
            passed += 1;
            if frames.is_changed(*place) {
                numbers[noted] = p;
                noted += 1;
            }
        }
    }
    noted
}
