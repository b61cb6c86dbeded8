//! The same with numbers alone, as C asks it: 0 for none, as no key has no byte.
ghost use Rattle.std.specs.Prelude.{◌≡◌, ◌≤◌, length, take, drop, MatchOption};
ghost use Rattle.im_names.specs.Asked.{key_by_number};
ghost use Rattle.im_names.specs.Kinds.{key_of_part};
ghost use Rattle.im_names.specs.Parts.{part_asked};

use crate::part::write_part;
use crate::unescaping::key_in;
use crate::which::Which;
use crate::writing::write_key;

/// `write_key` by the key's number; 0 also of a number that is none's.
#[tactic(auto, using(crate::proofs::ByNumbers::key_by_some, crate::proofs::ByNumbers::key_by_none))]
pub fn write_key_by_number(number: u32, name: &[u8], key: &[u8], to: &mut [u8]) -> usize
    requires room { 255 ≤ length to.old }
    ensures size { result ≡ length (key_by_number number name.now key.now) }
    ensures key { take result to.new ≡ key_by_number number name.now key.now }
{
    match Which::from_number(number) {
        Some(which) => write_key(which, name, key, to),
        None => 0,
    }
}

/// `write_part`, with the row id beside; answers how many bytes the key has, 0 where there is no such part.
pub fn write_part_beside(
    front: usize,
    value: &[u8],
    number: u32,
    to: &mut [u8],
    rid: &mut u64,
) -> usize
    requires front { front ≤ 219 }
    requires room { 255 ≤ length to.old }
    ensures { MatchOption (part_asked (take front to.old) value.now number) (result ≡ 0) (λ e. (take result to.new ≡ e.0) × (rid.new ≡ e.1)) }
{
    match write_part(front, value, number, to) {
        Some(part) => {
            *rid = part.rid;
            part.len
        }
        None => 0,
    }
}

/// `key_in`, with the length of the front beside; answers how many bytes the key has, 0 where this is no part.
pub fn key_in_beside(part: &[u8], to: &mut [u8], front: &mut usize) -> usize
    requires size { length part.now ≤ 255 }
    requires room { 255 ≤ length to.old }
    ensures { MatchOption (key_of_part part.now) (result ≡ 0) (λ k. (take result to.new ≡ k.0) × (drop front.new part.now ≡ k.1)) }
{
    match key_in(part, to) {
        Some(key) => {
            *front = key.front;
            key.len
        }
        None => 0,
    }
}
