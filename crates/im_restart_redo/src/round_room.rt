//! Rounds of redo: room for their pages, and which changes of a segment are one.

ghost use Rattle.std.specs.Prelude.{◌≡◌, ◌<◌, ◌≤◌, ◌++◌, ◌∷◌, ℕ, [], true, false, length, take, drop, vec_capacity, vec_len, IfErr, IfOk};
ghost use Rattle.im_base_types.specs.declared.fault.Fault.TheVariants.{Memory};
ghost use Rattle.im_page_rounds.specs.Hand.{AreRising, IsAmong};
ghost use Rattle.im_page_rounds.specs.Workers.{HaveRoom};
ghost use Rattle.im_restart_redo.specs.Rounds.{IsWholeAt};
ghost use Rattle.im_restart_redo.specs.Segments.{AreApart, AreOnPages, AreOrdered, IsLast, lsns_in};

use im_base_types::{Fault, Lsn, PageNo};
use im_log::whole_size;
use im_page_rounds::{Worker, workers_for};
use std::alloc::Global;

// How many pages a round has at most.
const MOST_PAGES: usize = 256;

// How many changes a segment has at most: 16 bytes each are kept to put them in order, and 8 for its LSN in a round.
const MOST_CHANGES: usize = 524_288;

/// The numbers of a round's pages, in rising order, the LSNs of its records, how many pages it may have at most, how many changes a segment
/// may have, and its workers, who have room for so many pages.
#[derive(Drop)]
pub(crate) struct RoundRoom {
    pub numbers: Vec<PageNo>,
    pub lsns: Vec<Lsn>,
    pub most: usize,
    pub longest: usize,
    pub workers: Vec<Worker>,
    ghost some: { 0 < vec_len workers },
    ghost room: { HaveRoom most workers.items },
    ghost pages: { most ≤ vec_capacity numbers },
    ghost changes: { longest ≤ vec_capacity lsns },
}

// Whether the last of these numbers is this one.
fn ends_with(numbers: &[PageNo], number: PageNo) -> bool
    ensures yes { result ≡ true → IsLast numbers.now number }
    ensures no { result ≡ false → IsLast numbers.now number → ⊥ }
{
    let count = numbers.len();
    if count == 0 {
        return false;
    }
    numbers[count - 1] == number
}

// Room for so many numbers of pages.
fn number_room(alloc: Global, most: usize) -> Result<Vec<PageNo>, Fault>
    ensures room { IfOk result (λ numbers. most ≤ vec_capacity numbers) }
    ensures refused { IfErr result (λ e. e ≡ Memory) }
{
    Vec::with_capacity(alloc, most).map_err(|_| Fault::Memory)
}

// Room for so many LSNs.
fn lsn_room(alloc: Global, most: usize) -> Result<Vec<Lsn>, Fault>
    ensures room { IfOk result (λ lsns. most ≤ vec_capacity lsns) }
    ensures refused { IfErr result (λ e. e ≡ Memory) }
{
    Vec::with_capacity(alloc, most).map_err(|_| Fault::Memory)
}

/// Whether all of a record stands at an LSN, in a part of the log that begins at another.
pub(crate) fn is_whole_at(lsn: Lsn, from: Lsn, span: &[u8]) -> bool
    ensures whole { result ≡ true → IsWholeAt from span.now lsn }
{
    if lsn < from || lsn - from >= span.len() as u64 {
        return false;
    }
    whole_size(&span[(lsn - from) as usize..]).is_some()
}

impl RoundRoom {
    /// Room for the rounds of so many changes over a pool of so many frames, with so many workers. Refused `Memory`.
    pub fn new(alloc: Global, frames: usize, changes: usize, workers: usize) -> Result<Self, Fault>
        requires workers { 0 < workers }
        requires frames { 0 < frames }
        ensures few { IfOk result (λ r. r.most ≤ frames) }
        ensures some { IfOk result (λ r. 0 < r.most) }
        ensures refused { IfErr result (λ e. e ≡ Memory) }
    {
        let most = frames.min(MOST_PAGES).min(changes).max(1);
        let longest = changes.min(MOST_CHANGES);
        let numbers = number_room(alloc, most)?;
        let lsns = lsn_room(alloc, longest)?;
        let workers = workers_for(alloc, workers, most)?;
        Ok(RoundRoom {
            numbers,
            lsns,
            most,
            longest,
            workers,
        })
    }

    // Whether the round has the page as its last one, or takes it, where it has fewer than so many.
    fn takes(&mut self, most: usize, page: PageNo) -> bool
        requires most { most ≤ self.old.most }
        requires rising { AreRising self.old.numbers.items }
        requires above { (p : ℕ) → IsLast self.old.numbers.items p → p ≤ page }
        ensures most { self.new.most ≡ self.old.most }
        ensures longest { self.new.longest ≡ self.old.longest }
        ensures lsns { self.new.lsns ≡ self.old.lsns }
        ensures rising { AreRising self.new.numbers.items }
        ensures few { length self.old.numbers.items ≤ most → length self.new.numbers.items ≤ most }
        ensures last { result ≡ true → IsLast self.new.numbers.items page }
        ensures kept { (p : ℕ) → IsAmong self.old.numbers.items p → IsAmong self.new.numbers.items p }
        ensures same { result ≡ false → self.new.numbers.items ≡ self.old.numbers.items }
        ensures other { result ≡ false → IsLast self.old.numbers.items page → ⊥ }
        ensures room { length self.old.numbers.items < most → result ≡ true }
    {
        if ends_with(&self.numbers, page) {
            return true;
        }
        if self.numbers.len() >= most {
            return false;
        }
        self.numbers.push(page).is_ok()
    }

    // Whether one LSN more is noted. Room for it was made at first.
    fn keep(&mut self, lsn: Lsn) -> bool
        requires room { length self.old.lsns.items < self.old.longest }
        ensures most { self.new.most ≡ self.old.most }
        ensures longest { self.new.longest ≡ self.old.longest }
        ensures numbers { self.new.numbers ≡ self.old.numbers }
        ensures lsns { self.new.lsns.items ≡ self.old.lsns.items ++ lsn ∷ [] }
        ensures kept { result ≡ true }
    {
        self.lsns.push(lsn).is_ok()
    }

    // Whether the round takes one change more: it has its page, or takes that.
    fn take_one(&mut self, most: usize, page: PageNo, lsn: Lsn) -> bool
        requires most { most ≤ self.old.most }
        requires rising { AreRising self.old.numbers.items }
        requires above { (p : ℕ) → IsLast self.old.numbers.items p → p ≤ page }
        requires room { length self.old.lsns.items < self.old.longest }
        ensures most { self.new.most ≡ self.old.most }
        ensures longest { self.new.longest ≡ self.old.longest }
        ensures lsns { result ≡ true → self.new.lsns.items ≡ self.old.lsns.items ++ lsn ∷ [] }
        ensures rising { AreRising self.new.numbers.items }
        ensures few { length self.old.numbers.items ≤ most → length self.new.numbers.items ≤ most }
        ensures last { result ≡ true → IsLast self.new.numbers.items page }
        ensures kept { (p : ℕ) → IsAmong self.old.numbers.items p → IsAmong self.new.numbers.items p }
        ensures same { result ≡ false → (self.new.numbers.items ≡ self.old.numbers.items) × (self.new.lsns.items ≡ self.old.lsns.items) }
        ensures other { result ≡ false → IsLast self.old.numbers.items page → ⊥ }
        ensures room { length self.old.numbers.items < most → result ≡ true }
    {
        if !self.takes(most, page) {
            return false;
        }
        self.keep(lsn)
    }

    /// Plans a round: notes the pages and the LSNs of as many of these changes, which stand in order of pages, from the first on, as are of no
    /// more than so many pages, each page's to its last.
    pub fn plan(&mut self, most: usize, changes: &[(PageNo, Lsn)])
        requires pages { 0 < most }
        requires most { most ≤ self.old.most }
        requires order { AreOrdered changes.now }
        requires room { length changes.now ≤ self.old.longest }
        ensures most { self.new.most ≡ self.old.most }
        ensures longest { self.new.longest ≡ self.old.longest }
        ensures within { length self.new.lsns.items ≤ length changes.now }
        ensures some { 0 < length changes.now → 0 < length self.new.lsns.items }
        ensures lsns { self.new.lsns.items ≡ lsns_in (take (length self.new.lsns.items) changes.now) }
        ensures rising { AreRising self.new.numbers.items }
        ensures few { length self.new.numbers.items ≤ most }
        ensures on { AreOnPages self.new.numbers.items (take (length self.new.lsns.items) changes.now) }
        ensures apart { AreApart (take (length self.new.lsns.items) changes.now) (drop (length self.new.lsns.items) changes.now) }
    {
        self.numbers.clear();
        self.lsns.clear();
        for change in changes {
            if !self.take_one(most, change.0, change.1) {
                break;
            }
        }
    }
}
