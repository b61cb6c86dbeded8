//! Where do named indexes and long values lie among the keys of a store?
//!
//! Every name has keys of its own, so that one store has many indexes, and values of any length. A key has 1 to 255
//! bytes, and an entry has a row id beside it. N is a name of 1 to 31 bytes, and L one byte, how many it has; so a
//! key whose first byte is 32 or more is of no name, and the program's own.
//!
//! | Key | Bytes | Row id |
//! |---|---|---|
//! | of the catalogue, one for each name | `00 N` | 1: an index, 2: long values |
//! | of an index's entry | `L N KEY`, KEY of 1 to 253 - L bytes | the entry's |
//! | of a part of a long value | `L N E 00 P BYTES`, 254 at most | how many bytes the value has from this part's first one on |
//! | guards, of each name and of the catalogue | `L N FF..FF` and `00 FF..FF`, 255 bytes | 0 |
//!
//! E is the key of a long value with a byte FF after each 00, at most 217 - L bytes; P is the part's number in three
//! bytes, the highest first, from 0 on and below FF0000; what is in front of P is the value's front. Each part but
//! the last has as many bytes as fit, 251 less those of the front, and a value of no byte has one part. That an index
//! and long values have the same form does not matter, as a name is one of the two.
//!
//! **Bounds.** What begins with L N and some bytes of KEY lies from these on to the same filled with FF to 254 bytes;
//! the guard lies above all of the name's entries, and is no entry, as it has 255. The parts of a value lie from its
//! front on to the front followed by FE and then filled with FF to 255 bytes. Entries of an index are in the order of
//! their KEYs, and all parts of a value before those of a greater key.
//!
//! **A writer** makes a name by its guard and that of the catalogue first and its key in the catalogue last: a name
//! that was made in part is none. It puts a value by taking out those parts of the old one that do not stay, and only
//! then putting in those of the new one that are not there. All are changes of one transaction, so that a stop at any
//! moment keeps all of them or none.
//!
//! **A reader** takes the parts of a range in their order: numbered 0, 1, 2 and on, each saying how many bytes are
//! left. No part is no value; parts that end before nothing is left, or are not so numbered, are half a value, which
//! is refused. Whatever parts of one value there are, they read as that value if they are all there, as none if there
//! is none, and else as half (`parts_of_one`); so after any of a writer's changes a reader of the same transaction
//! finds the old value, the new one, none, or is refused, and never a mixture (`whole_or_refused`).
//!
//! `write_key` writes each kind of key, `write_part` a part, `kind_of` tells the kinds apart, `key_in` reads the key
//! of a long value back, and `Reading` takes parts. The laws of the keys are `keys_apart`, `keys_in_order` and
//! `ranges`. Nothing here takes memory. The crate stands on `im_base_types` for the order of keys.
#![tactic(auto)]

mod buffer;
mod key_kind;
mod key_laws;
mod long_laws;
mod numbered;
mod part;
mod reading;
#[cfg(test)]
mod tests;
mod unescaping;
mod which;
mod writing;

pub use key_kind::{KeyKind, kind_of};
pub use key_laws::{keys_apart, keys_in_order, ranges};
pub use long_laws::{parts_of_one, put_in_full, values_read_back, whole_or_refused};
pub use numbered::{key_in_beside, write_key_by_number, write_part_beside};
pub use part::{Part, part_count, part_room, write_part};
pub use reading::{Found, Reading};
pub use unescaping::{KeyInPart, key_in};
pub use which::Which;
pub use writing::write_key;

/// The longest name.
pub const LONGEST_NAME: usize = 31;

/// Bytes of the longest key: a guard's. Those of entries have one less at most.
pub const LONGEST_KEY: usize = 255;
