//! The bytes that stores of today have, and each function once.

ghost use Rattle.std.specs.Prelude.{◌≤◌, length};

use crate::{
    Found, KeyKind, Reading, Which, key_in, kind_of, write_key, write_key_by_number, write_part,
    write_part_beside,
};
use std::test::Fail;

static OSLO: [u8; 12] = [
    7, 0x62, 0x79, 0x5f, 0x63, 0x69, 0x74, 0x79, 0x6f, 0x73, 0x6c, 0x6f,
];

static ROW: [u8; 6] = [0, 0x6e, 0x6f, 0x74, 0x65, 0x73];

static FRONT: [u8; 11] = [5, 0x6e, 0x6f, 0x74, 0x65, 0x73, 0x61, 0, 0xff, 0x62, 0];

// How many bytes a key has; 0 where it does not fit.
fn size_of(which: Which, name: &[u8], key: &[u8]) -> usize {
    let mut to = [0; 255];
    write_key(which, name, key, &mut to)
}

#[test]
fn keys_are_written(rt: HostRuntime) {
    let mut to = [0; 255];
    let size = write_key(Which::Entry, b"by_city", b"oslo", &mut to);
    assert!(rt; to[..size] == OSLO[..]);
    let size = write_key(Which::Row, b"notes", b"", &mut to);
    assert!(rt; to[..size] == ROW[..]);
    let size = write_key(Which::Front, b"notes", b"a\0b", &mut to);
    assert!(rt; to[..size] == FRONT[..]);
}

#[test]
fn ends_are_written(rt: HostRuntime) {
    let mut to = [0; 255];
    assert!(rt; write_key(Which::Last, b"by_city", b"os", &mut to) == 254);
    assert!(rt; to[..10] == OSLO[..10]);
    assert!(rt; to[10..254] == [0xff; 244][..]);
    assert!(rt; write_key(Which::End, b"notes", b"a\0b", &mut to) == 255);
    assert!(rt; to[..11] == FRONT[..]);
    assert!(rt; to[11] == 0xfe);
    assert!(rt; to[12..] == [0xff; 243][..]);
}

#[test]
fn names_that_do_not_fit_are_refused(rt: HostRuntime) {
    let many = [0x6b; 255];
    assert!(rt; size_of(Which::Row, b"", b"") == 0);
    assert!(rt; size_of(Which::Row, &many[..31], b"") == 32);
    assert!(rt; size_of(Which::Row, &many[..32], b"") == 0);
}

#[test]
fn keys_that_do_not_fit_are_refused(rt: HostRuntime) {
    let many = [0x6b; 255];
    assert!(rt; size_of(Which::Entry, b"n", b"") == 0);
    assert!(rt; size_of(Which::Entry, b"n", &many[..252]) == 254);
    assert!(rt; size_of(Which::Entry, b"n", &many[..253]) == 0);
    assert!(rt; size_of(Which::Entry, &many[..31], &many[..223]) == 0);
}

#[test]
fn keys_of_long_values_that_do_not_fit_are_refused(rt: HostRuntime) {
    let (many, zeros) = ([0x6b; 255], [0; 255]);
    assert!(rt; size_of(Which::Front, b"n", &many[..216]) == 219);
    assert!(rt; size_of(Which::Front, b"n", &many[..217]) == 0);
    assert!(rt; size_of(Which::Front, b"n", &zeros[..108]) == 219);
    assert!(rt; size_of(Which::Front, b"n", &zeros[..109]) == 0);
}

// A hash of entries, each by its key and its row id, the lowest byte of it first.
#[derive(Drop)]
struct Entries {
    hash: u64,
    count: u32,
}

impl Entries {
    fn add_byte(&mut self, byte: u8) {
        self.hash = (self.hash ^ byte as u64).wrapping_mul(0x100_0000_01b3);
    }

    fn add(&mut self, key: &[u8], rid: u64) {
        for byte in key {
            self.add_byte(*byte);
        }
        for byte in rid.to_le_bytes() {
            self.add_byte(byte);
        }
        self.count = self.count.wrapping_add(1);
    }

    fn add_key(&mut self, which: Which, name: &[u8], key: &[u8], rid: u64) {
        let mut to = [0; 255];
        let size = write_key(which, name, key, &mut to);
        self.add(&to[..size], rid);
    }

    // The parts of a value, which are read as they are written.
    fn add_value(&mut self, name: &[u8], key: &[u8], value: &[u8]) -> Found {
        let mut to = [0; 255];
        let front = write_key(Which::Front, name, key, &mut to);
        let mut reading = Reading::begin();
        if front > 219 {
            return Found::Half;
        }
        for number in 0..500 {
            match write_part(front, value, number, &mut to) {
                Some(part) => {
                    self.add(&to[..part.len], part.rid);
                    if !reading.take(front, &to[..part.len], part.rid) {
                        return reading.found();
                    }
                }
                None => return reading.found(),
            }
        }
        reading.found()
    }
}

// The entries of two names, two entries of the one and four values of the other, in order; and whether each value was whole.
fn entries_of(value: &[u8]) -> (Entries, bool)
    requires more { 300 ≤ length value.now }
    requires less { 240 ≤ length value.now }
{
    let (more, less) = (&value[..300], &value[..240]);
    let mut all = Entries {
        hash: 0xcbf2_9ce4_8422_2325,
        count: 0,
    };
    all.add_key(Which::Row, b"by_city", b"", 1);
    all.add_key(Which::Row, b"notes", b"", 2);
    all.add_key(Which::Guard, b"", b"", 0);
    let none = all.add_value(b"notes", b"a", b"");
    let two = all.add_value(b"notes", b"a\0", more);
    let many = all.add_value(b"notes", b"a\0b", value);
    let one = all.add_value(b"notes", b"b", less);
    all.add_key(Which::Guard, b"notes", b"", 0);
    all.add_key(Which::Entry, b"by_city", b"oslo", 7);
    all.add_key(Which::Entry, b"by_city", b"rome", 8);
    all.add_key(Which::Guard, b"by_city", b"", 0);
    let are_whole = none == Found::Whole
        && two == Found::Whole
        && many == Found::Whole
        && one == Found::Whole;
    (all, are_whole)
}

// The hash is that of the entries that C, Rust and Python made of the same names and values, each by a spelling of its own.
#[test]
fn stores_of_today_have_these_entries(rt: HostRuntime) -> Result<(), Fail> {
    let mut value = Vec::new(rt.alloc());
    for i in 0..100_000u32 {
        value.push((i.wrapping_mul(7).wrapping_add(i / 256) % 256) as u8)?;
    }
    let value = value.as_slice();
    assert!(rt; value.len() == 100_000);
    let (all, are_whole) = entries_of(value);
    assert!(rt; are_whole);
    assert!(rt; all.count == 428);
    assert!(rt; all.hash == 0xa228_3477_b801_0e86);
    Ok(())
}

#[test]
fn half_a_value_is_found(rt: HostRuntime) {
    let mut reading = Reading::begin();
    assert!(rt; reading.found() == Found::Nothing);
    // the first part of 300 bytes is there, and its second one is not
    let mut to = [0x61; 255];
    to[2] = 0;
    to[3] = 0;
    to[4] = 0;
    assert!(rt; reading.take(2, &to[..254], 300));
    assert!(rt; reading.found() == Found::Half);
    // and its second part is not the first
    let mut other = Reading::begin();
    to[4] = 1;
    assert!(rt; !other.take(2, &to[..56], 51));
    assert!(rt; other.found() == Found::Half);
}

#[test]
fn keys_are_told_apart(rt: HostRuntime) {
    assert!(rt; kind_of(&OSLO) == KeyKind::Named);
    assert!(rt; kind_of(&ROW) == KeyKind::Row);
    assert!(rt; kind_of(b"oslo") == KeyKind::Own);
    let mut to = [0; 255];
    assert!(rt; write_key(Which::Guard, b"", b"", &mut to) == 255);
    assert!(rt; kind_of(&to) == KeyKind::Guard);
}

#[test]
fn keys_are_asked_for_by_number(rt: HostRuntime) {
    let (mut to, mut rid) = ([0; 255], 0);
    assert!(rt; write_key_by_number(2, b"by_city", b"oslo", &mut to) == 12);
    assert!(rt; write_key_by_number(7, b"by_city", b"oslo", &mut to) == 0);
    let front = write_key_by_number(5, b"notes", b"a\0b", &mut to);
    assert!(rt; front == 11);
    assert!(rt; write_part_beside(11, b"abc", 0, &mut to, &mut rid) == 17);
    assert!(rt; rid == 3);
    assert!(rt; write_part_beside(11, b"abc", 1, &mut to, &mut rid) == 0);
}

#[test]
fn the_key_of_a_part_is_read(rt: HostRuntime) {
    let mut to = [0; 255];
    let key = key_in(&FRONT, &mut to);
    assert!(rt; key.is_some());
    if let Some(key) = key {
        assert!(rt; key.front == 11);
        assert!(rt; key.len == 3);
        assert!(rt; to[..3] == b"a\0b"[..]);
    }
    assert!(rt; key_in(&OSLO, &mut to).is_none());
}
