//! The frames of pages, found by the pages' numbers.
//!
//! A map is made with room for one more than twice as many numbers as there are frames, and a page that is evicted leaves its number in
//! it, with no frame: a map does not promise that what is taken out gives its room back. Where the room is used up, the map is emptied,
//! which leaves it all its room, and the held pages are put in again, half as many at most. So no number takes memory, and of as many
//! pages that come in as there are frames one pays for that. The one more is there since a map does not promise either that a number put
//! in again takes no room: it may take one place, and twice as many as there are frames are left.

ghost use Rattle.std.specs.Prelude.{◌≡◌, ◌+◌, ◌*◌, ◌<◌, ◌≤◌, ◌∷◌, ℕ, Some, None, true, false, nat_eq, length, is_some, IfSome, if◌then◌else◌};
ghost use Rattle.std.specs.Option.{option_flatten};
ghost use Rattle.std.specs.Map.{keys_of, lookup};
ghost use Rattle.std.specs.HashMap.{get, hash_map_len, spare};
ghost use Rattle.im_page_pool.specs.Places.{times, taken_in, Finds};

use im_base_types::PageNo;
use lru::LruCache;
use std::collections::HashMap;

/// The frame of a page, by one look-up: the page is held no more, and its number stays with no frame.
pub fn leave(numbers: &mut HashMap<PageNo, Option<u32>>, p: PageNo) -> Option<u32>
    ensures found { result ≡ option_flatten (get nat_eq numbers.old p) }
    ensures noted { IfSome result (λ _. (q : ℕ) → get nat_eq numbers.new q ≡ (if nat_eq p q then Some None else get nat_eq numbers.old q)) }
    ensures room { hash_map_len numbers.new + spare numbers.new ≡ hash_map_len numbers.old + spare numbers.old }
{
    match numbers.get_mut(&p) {
        Some(at) => {
            let place = *at;
            *at = None;
            place
        }
        None => None,
    }
}

// Notes the frame of a page whose number the map has. Says whether it has it.
fn set(numbers: &mut HashMap<PageNo, Option<u32>>, p: PageNo, place: Option<u32>) -> bool
    ensures there { result ≡ is_some (get nat_eq numbers.old p) }
    ensures noted { result ≡ true → (q : ℕ) → get nat_eq numbers.new q ≡ (if nat_eq p q then Some place else get nat_eq numbers.old q) }
    ensures none { result ≡ false → numbers.new ≡ numbers.old }
    ensures room { hash_map_len numbers.new + spare numbers.new ≡ hash_map_len numbers.old + spare numbers.old }
{
    match numbers.get_mut(&p) {
        Some(at) => {
            *at = place;
            true
        }
        None => false,
    }
}

/// Notes the frame of a page that is not held: by one look-up, where there is room for a number more.
pub fn enter(
    numbers: &mut HashMap<PageNo, Option<u32>>,
    by_use: &LruCache<u32, Option<PageNo>>,
    p: PageNo,
    place: u32,
)
    requires new { lookup (nat_eq p) (taken_in by_use.now.entries) ≡ None }
    requires some { 1 ≤ length by_use.now.entries }
    requires once { (q : ℕ) → times q (keys_of (taken_in by_use.now.entries)) ≤ 1 }
    requires found { Finds (get nat_eq numbers.old) (taken_in by_use.now.entries) }
    requires room { 2 * length by_use.now.entries ≤ hash_map_len numbers.old + spare numbers.old }
    ensures found { Finds (get nat_eq numbers.new) ((p, place) ∷ taken_in by_use.now.entries) }
    ensures room { 2 * length by_use.now.entries ≤ hash_map_len numbers.new + spare numbers.new }
{
    if has_room(numbers, by_use.len()) {
        let _ = numbers.insert(p, Some(place));
        return;
    }
    if set(numbers, p, Some(place)) {
        return;
    }
    make_room(numbers, by_use);
    let _ = numbers.insert(p, Some(place));
}

// Whether a number can come in at once, whether the map has it or not: after that, it still has room for twice as many numbers as there
// are frames.
fn has_room(numbers: &HashMap<PageNo, Option<u32>>, frames: usize) -> bool
    requires { 2 * frames ≤ hash_map_len numbers.now + spare numbers.now }
    ensures spare { result ≡ true → 0 < spare numbers.now }
    ensures more { result ≡ true → 2 * frames < hash_map_len numbers.now + spare numbers.now }
{
    let places = numbers.capacity();
    numbers.len() < places && 2 * frames < places
}

// Makes room for a number more: only the held pages are left.
fn make_room(numbers: &mut HashMap<PageNo, Option<u32>>, by_use: &LruCache<u32, Option<PageNo>>)
    requires some { 1 ≤ length by_use.now.entries }
    requires once { (q : ℕ) → times q (keys_of (taken_in by_use.now.entries)) ≤ 1 }
    requires found { Finds (get nat_eq numbers.old) (taken_in by_use.now.entries) }
    requires room { 2 * length by_use.now.entries ≤ hash_map_len numbers.old + spare numbers.old }
    ensures found { Finds (get nat_eq numbers.new) (taken_in by_use.now.entries) }
    ensures fewer { (q : ℕ) → get nat_eq numbers.old q ≡ None → get nat_eq numbers.new q ≡ None }
    ensures room { 2 * length by_use.now.entries ≤ hash_map_len numbers.new + spare numbers.new }
    ensures spare { 0 < spare numbers.new }
{
    numbers.clear();
    for (place, number) in by_use.iter().rev() {
        if let Some(p) = *number {
            let _ = numbers.insert(p, Some(*place));
        }
    }
}
