//! The parts of a long value.
ghost use Rattle.std.specs.Prelude.{◌≡◌, ◌≤◌, ◌<◌, ◌+◌, length, take, true, MatchOption, Some, None, IfSome};
ghost use Rattle.im_names.specs.Parts.{can_be_parted, count_asked, count_of, has_part, part_asked, long_part, room_of};

use crate::buffer::{put, put_number};

/// More parts than this a value may not have: the first byte of their numbers is below FF.
const MOST_PARTS: usize = 0xff_0000;

/// A part, as it was written.
#[derive(Clone, Copy, Debug, PartialEq, Eq)]
pub struct Part {
    /// How many bytes its key has.
    pub len: usize,
    /// Its row id: how many bytes the value has from its first one on.
    pub rid: u64,
}

/// How many bytes of its value a part has room for, after a front of so many.
#[tactic(auto, unfolding(crate::specs::Parts::room_of))]
pub fn part_room(front: usize) -> usize
    requires { front ≤ 219 }
    ensures room { result ≡ room_of front }
    ensures least { 32 ≤ result }
    ensures fits { front + result ≡ 251 }
{
    251 - front
}

/// How many parts a value of so many bytes has; none where they would be too many.
#[tactic(auto, unfolding(crate::specs::Parts::can_be_parted, crate::specs::Parts::count_of), using(crate::proofs::PartLemmas::count_small))]
pub fn part_count(front: usize, size: usize) -> Option<u32>
    requires { front ≤ 219 }
    ensures count { result ≡ count_asked front size }
    ensures few { IfSome result (λ count. count ≤ 16711680) }
{
    let room = part_room(front);
    if size / room >= MOST_PARTS {
        return None;
    }
    Some((size.saturating_sub(1) / room + 1) as u32)
}

// Whether there is a part of this number.
fn has_part(front: usize, size: usize, number: u32) -> bool
    requires { front ≤ 219 }
    ensures { result ≡ has_part front size number }
{
    match part_count(front, size) {
        Some(count) => number < count,
        None => false,
    }
}

// Writes one that is there.
#[tactic(auto, unfolding(crate::specs::Parts::long_part), using(crate::proofs::PartLemmas::is_within, crate::proofs::PartLemmas::is_small, crate::proofs::PartLemmas::piece))]
fn put_part(front: usize, value: &[u8], number: u32, to: &mut [u8]) -> Part
    requires front { front ≤ 219 }
    requires there { has_part front (length value.now) number ≡ true }
    requires room { 255 ≤ length to.old }
    ensures key { take result.len to.new ≡ (long_part (take front to.old) value.now number).0 }
    ensures rid { result.rid ≡ (long_part (take front to.old) value.now number).1 }
    ensures most { result.len ≤ 254 }
{
    let room = part_room(front);
    let from = number as usize * room;
    let left = value.len() - from;
    let bytes = &value[from..from + left.min(room)];
    let at = put_number(to, front, number);
    let len = put(to, at, bytes);
    Part {
        len,
        rid: left as u64,
    }
}

/// Writes the key of the part of a value with this number into a buffer, after the value's front, which lies there
/// (`Which::Front`). None where the value has no such part, or too many; nothing is written then.
pub fn write_part(front: usize, value: &[u8], number: u32, to: &mut [u8]) -> Option<Part>
    requires front { front ≤ 219 }
    requires room { 255 ≤ length to.old }
    ensures part { MatchOption result (part_asked (take front to.old) value.now number ≡ None) (λ p. part_asked (take front to.old) value.now number ≡ Some (take p.len to.new, p.rid)) }
    ensures most { IfSome result (λ p. p.len ≤ 254) }
    ensures same { result ≡ None → to.new ≡ to.old }
{
    if has_part(front, value.len(), number) {
        Some(put_part(front, value, number, to))
    } else {
        None
    }
}
