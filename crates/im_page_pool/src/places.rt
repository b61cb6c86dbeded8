//! Which page stands in which frame.

ghost use Rattle.std.specs.Prelude.{◌≡◌, ◌+◌, ◌*◌, ◌<◌, ◌≤◌, ◌++◌, ◌∷◌, ◌-◌, [], ℕ, Option, Some, None, nat_eq, length, take, slice_index, vec_capacity, IfOk, IfSome, IfErr, IsSome};
ghost use Rattle.std.specs.Map.{lookup, remove_entry};
ghost use Rattle.std.specs.Map.Iter.{ShowsInOrder, ShowsInReverse, deref_pair};
ghost use Rattle.lru.specs.LruCache.{promoted, last_entry};
ghost use Rattle.im_base_types.specs.declared.fault.Fault.TheVariants.{Memory};
ghost use Rattle.im_page_pool.specs.Places.{taken_in, frame_count, AreUnused, IsAll, AreApart};

use crate::guesses::Guesses;
use crate::numbers::{enter, leave};
use im_base_types::{Fault, PageNo};
use lru::{Iter, LruCache};
use std::alloc::Global;
use std::collections::HashMap;
use std::marker::Model;
use std::num::NonZeroUsize;

/// Which page stands in which frame, by use, and which frames are free. Contracts see both lists. All memory is taken by `new`.
#[derive(Drop)]
pub struct Places {
    /// Every frame, the most recently used first, with the number of its page. A free one has none.
    by_use: LruCache<u32, Option<PageNo>>,
    /// The frame of each held page. Pages that were held may be left in it, with no frame.
    numbers: HashMap<PageNo, Option<u32>>,
    free: Vec<u32>,
    guesses: Guesses,
}

impl Model for Places {
    ghost use Rattle.std.specs.Prelude.{◌≡◌, ◌≤◌, ◌+◌, nat_eq, length, vec_capacity};
    ghost use Rattle.std.specs.HashMap.{get, hash_map_len, spare};
    ghost use Rattle.im_page_pool.specs.Places.{PlacesView, taken_in, GoTogether, Shows};

    ghost Value = { PlacesView };

    ghost view = { λ a. record { taken = taken_in a.by_use.entries; free = a.free.items } };

    ghost invariant = { λ a. GoTogether a.by_use.entries (get nat_eq a.numbers) (hash_map_len a.numbers + spare a.numbers) a.free.items × (length a.by_use.entries ≤ vec_capacity a.free) × Shows a.guesses a.by_use.entries };
}

impl Places {
    /// All of so many frames free.
    pub fn new(alloc: Global, frames: usize) -> Result<Self, Fault>
        requires some { 1 ≤ frames }
        requires most { frames ≤ 262144 }
        ensures none { IfOk result (λ v. v.taken ≡ []) }
        ensures count { IfOk result (λ v. frame_count v ≡ frames) }
        ensures apart { IfOk result AreApart }
        ensures refused { IfErr result (λ e. e ≡ Memory) }
    {
        let by_use = all_unused(alloc, frames)?;
        let numbers = HashMap::with_capacity(alloc, 2 * frames + 1).map_err(|_| Fault::Memory)?;
        let free = all_free(alloc, frames)?;
        let guesses = Guesses::new(alloc, frames)?;
        Ok(Places {
            by_use,
            numbers,
            free,
            guesses,
        })
    }

    /// How many pages are held.
    pub fn len(&self) -> usize
        ensures len { result ≡ length self.now.taken }
        ensures some { 1 ≤ frame_count self.now }
    {
        self.by_use.len() - self.free.len()
    }

    /// The place of a page: by a guess, and only where that is wrong by a look-up. The order stays.
    pub fn find(&self, p: PageNo) -> Option<u32>
        ensures { result ≡ lookup (nat_eq p) self.now.taken }
    {
        if let Some(place) = self.guesses.find(p) {
            return Some(place);
        }
        self.numbers.get(&p).copied().flatten()
    }

    /// The place of a page, which becomes the most recently used.
    pub fn touch(&mut self, p: PageNo) -> Option<u32>
        ensures found { result ≡ lookup (nat_eq p) self.old.taken }
        ensures moved { self.new ≡ record self.old { taken = promoted (nat_eq p) self.old.taken } }
    {
        if let Some(place) = self.find(p) {
            self.guesses.guess(p, place);
            self.by_use.promote(&place);
            return Some(place);
        }
        None
    }

    /// The number and the place of the least recently used page. It walks over free frames alone, where there are any.
    pub fn oldest(&self) -> Option<(PageNo, u32)>
        ensures { result ≡ last_entry self.now.taken }
    {
        for (place, number) in self.by_use.iter().rev() {
            if let Some(p) = *number {
                return Some((p, *place));
            }
        }
        None
    }

    /// The frames with their numbers, the most recently used first, and free ones among them.
    pub fn iter(&self) -> Iter<'_, u32, Option<PageNo>>
        ensures rest { taken_in result ≡ self.now.taken }
        ensures runs { ShowsInOrder (deref_pair {K = ℕ} {X = Option ℕ}) }
        ensures runs_back { ShowsInReverse (deref_pair {K = ℕ} {X = Option ℕ}) }
    {
        self.by_use.iter()
    }

    /// The free frame that is taken next.
    pub fn next(&self) -> u32
        requires { 0 < length self.now.free }
        ensures { result ≡ slice_index self.now.free (length self.now.free - 1) }
    {
        self.free[self.free.len() - 1]
    }

    /// Takes the next free frame for a page that is not held, which becomes the most recently used.
    pub fn take(&mut self, p: PageNo)
        requires new { lookup (nat_eq p) self.old.taken ≡ None }
        requires room { 0 < length self.old.free }
        ensures { self.new ≡ record { taken = (p, slice_index self.old.free (length self.old.free - 1)) ∷ self.old.taken; free = take (length self.old.free - 1) self.old.free } }
    {
        let place = self.next();
        enter(&mut self.numbers, &self.by_use, p, place);
        let _ = self.by_use.put(place, Some(p));
        self.guesses.note(place, p as u64 + 1);
        self.guesses.guess(p, place);
        let _ = self.free.pop();
    }

    /// Gives the frame of a held page back.
    pub fn give_back(&mut self, p: PageNo)
        requires { IsSome (lookup (nat_eq p) self.old.taken) }
        ensures taken { self.new.taken ≡ remove_entry (nat_eq p) self.old.taken }
        ensures free { IfSome (lookup (nat_eq p) self.old.taken) (λ place. self.new.free ≡ self.old.free ++ place ∷ []) }
    {
        if let Some(place) = leave(&mut self.numbers, p) {
            let _ = self.by_use.put(place, None);
            self.guesses.note(place, 0);
            self.free.push_reserved(place);
        }
    }
}

// So many frames, by use, none of which has a page.
fn all_unused(alloc: Global, frames: usize) -> Result<LruCache<u32, Option<PageNo>>, Fault>
    requires some { 1 ≤ frames }
    requires most { frames ≤ 262144 }
    ensures unused { IfOk result (λ c. AreUnused frames c.entries) }
    ensures refused { IfErr result (λ e. e ≡ Memory) }
{
    let most = NonZeroUsize::new(frames).unwrap();
    let mut by_use = LruCache::new(alloc, most).map_err(|_| Fault::Memory)?;
    for i in 0..frames {
        by_use.put(i as u32, None).map_err(|_| Fault::Memory)?;
    }
    Ok(by_use)
}

// So many numbers from 0 on, the least last, which is taken first, in room for just as many.
fn all_free(alloc: Global, frames: usize) -> Result<Vec<u32>, Fault>
    requires { frames ≤ 262144 }
    ensures all { IfOk result (λ v. IsAll frames v.items) }
    ensures room { IfOk result (λ v. frames ≤ vec_capacity v) }
    ensures refused { IfErr result (λ e. e ≡ Memory) }
{
    let mut free = Vec::with_capacity(alloc, frames).map_err(|_| Fault::Memory)?;
    for i in 0..frames {
        free.push((frames - 1 - i) as u32)
            .map_err(|_| Fault::Memory)?;
    }
    Ok(free)
}
