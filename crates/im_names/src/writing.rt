//! A key as bytes, in a buffer.
ghost use Rattle.std.specs.Prelude.{◌≡◌, ◌+◌, ◌≤◌, ◌++◌, ◌&&◌, nat_le, length, take, true};
ghost use Rattle.im_names.specs.Asked.{key_fits, is_name, key_asked, spelled};
ghost use Rattle.im_names.specs.Layout.{escaped, filled, front_of, prefix_of};

use crate::buffer::{escaped_size, fill, put, put_byte, put_escaped};
use crate::which::Which;
use crate::{LONGEST_KEY, LONGEST_NAME};

// The prefix of a name.
fn put_prefix(to: &mut [u8], name: &[u8]) -> usize
    requires name { length name.now ≤ 31 }
    requires room { 255 ≤ length to.old }
    ensures end { result ≡ 1 + length name.now }
    ensures key { take result to.new ≡ prefix_of name.now }
{
    let at = put_byte(to, 0, name.len() as u8);
    put(to, at, name)
}

// The prefix, and bytes after it.
fn put_prefixed(to: &mut [u8], name: &[u8], key: &[u8]) -> usize
    requires name { length name.now ≤ 31 }
    requires key { length name.now + length key.now ≤ 253 }
    requires room { 255 ≤ length to.old }
    ensures end { result ≡ 1 + length name.now + length key.now }
    ensures key { take result to.new ≡ prefix_of name.now ++ key.now }
{
    let at = put_prefix(to, name);
    put(to, at, key)
}

// What all parts of a long value begin with.
fn put_front(to: &mut [u8], name: &[u8], key: &[u8]) -> usize
    requires name { length name.now ≤ 31 }
    requires key { length name.now + length (escaped key.now) ≤ 217 }
    requires room { 255 ≤ length to.old }
    ensures end { result ≡ 2 + length name.now + length (escaped key.now) }
    ensures key { take result to.new ≡ front_of name.now key.now }
{
    let at = put_prefix(to, name);
    let at = put_escaped(to, at, key);
    put_byte(to, at, 0)
}

// Fills a key with FF.
#[tactic(auto, using(crate::proofs::Buffers::filled_front))]
fn put_filled(to: &mut [u8], at: usize, end: usize) -> usize
    requires order { at ≤ end }
    requires room { end ≤ length to.old }
    ensures end { result ≡ end }
    ensures key { take result to.new ≡ filled end (take at to.old) }
{
    fill(to, at, end);
    end
}

fn is_name(name: &[u8]) -> bool
    ensures { result ≡ is_name name.now }
{
    !name.is_empty() && name.len() <= LONGEST_NAME
}

// Whether there is room for a key that stands as it is.
fn has_room(name: &[u8], key: &[u8]) -> bool
    ensures { result ≡ nat_le (length name.now) 31 && nat_le (length name.now + length key.now) 253 }
{
    name.len() <= LONGEST_NAME && key.len() <= 253 && name.len() + key.len() <= 253
}

// Whether there is room for one of a long value.
#[tactic(auto, using(crate::proofs::Escapes::escaped_longer))]
fn has_room_escaped(name: &[u8], key: &[u8]) -> bool
    ensures { result ≡ nat_le (length name.now + length (escaped key.now)) 217 }
{
    name.len() <= 217 && key.len() <= 217 && name.len() + escaped_size(key) <= 217
}

// Whether a key fits.
fn fits(which: Which, name: &[u8], key: &[u8]) -> bool
    ensures { result ≡ key_fits which name.now key.now }
{
    match which {
        Which::Row => is_name(name),
        Which::Guard => name.len() <= LONGEST_NAME,
        Which::Entry => is_name(name) && !key.is_empty() && has_room(name, key),
        Which::First | Which::Last => has_room(name, key),
        Which::Front | Which::End => {
            is_name(name) && !key.is_empty() && has_room_escaped(name, key)
        }
    }
}

// Writes one that fits.
#[tactic(auto, using(crate::proofs::Buffers::length_filled))]
fn put_key(which: Which, name: &[u8], key: &[u8], to: &mut [u8]) -> usize
    requires fits { key_fits which name.now key.now ≡ true }
    requires room { 255 ≤ length to.old }
    ensures end { result ≡ length (spelled which name.now key.now) }
    ensures key { take result to.new ≡ spelled which name.now key.now }
    ensures most { result ≤ 255 }
{
    match which {
        Which::Row => put_prefixed(to, &[], name),
        Which::Guard => {
            let at = put_prefix(to, name);
            put_filled(to, at, LONGEST_KEY)
        }
        Which::Entry | Which::First => put_prefixed(to, name, key),
        Which::Last => {
            let at = put_prefixed(to, name, key);
            put_filled(to, at, LONGEST_KEY - 1)
        }
        Which::Front => put_front(to, name, key),
        Which::End => {
            let at = put_front(to, name, key);
            let at = put_byte(to, at, 0xfe);
            put_filled(to, at, LONGEST_KEY)
        }
    }
}

/// Writes a key into a buffer, and answers how many bytes it has; 0 where it does not fit, as no key has none: the
/// name has 1 to 31 bytes, a key of an index 1 to 253 less those of the name, and one of a long value 1 to 217, with
/// a byte more for each 0 in it. It takes no memory.
pub fn write_key(which: Which, name: &[u8], key: &[u8], to: &mut [u8]) -> usize
    requires room { 255 ≤ length to.old }
    ensures size { result ≡ length (key_asked which name.now key.now) }
    ensures key { take result to.new ≡ key_asked which name.now key.now }
    ensures most { result ≤ 255 }
{
    if fits(which, name, key) {
        put_key(which, name, key, to)
    } else {
        0
    }
}
