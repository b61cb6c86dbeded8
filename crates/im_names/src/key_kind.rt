//! Which kind is a key?
ghost use Rattle.std.specs.Prelude.{◌≡◌, ◌≤◌, length};
ghost use Rattle.im_names.specs.Kinds.{kind_by, kind_by_bytes};

use crate::{LONGEST_KEY, LONGEST_NAME};

/// What a key of a store is. Which of the two a name is, an index or long values, says its row.
#[derive(Clone, Copy, Debug, PartialEq, Eq)]
pub enum KeyKind {
    /// The program's own, of no name.
    Own,
    /// That of a name in the catalogue.
    Row,
    /// A guard, of a name or of the catalogue.
    Guard,
    /// An entry of an index, or a part of a long value.
    Named,
    /// None that is written here.
    Other,
}

// By its first byte and its length.
fn kind_by(first: u8, size: usize) -> KeyKind
    ensures { result ≡ kind_by first size }
{
    if first as usize > LONGEST_NAME {
        KeyKind::Own
    } else if size == LONGEST_KEY {
        KeyKind::Guard
    } else if first == 0 {
        if size >= 2 && size <= 32 {
            KeyKind::Row
        } else {
            KeyKind::Other
        }
    } else if first as usize + 1 < size && size < LONGEST_KEY {
        KeyKind::Named
    } else {
        KeyKind::Other
    }
}

/// The kind of a key.
#[tactic(auto, using(crate::proofs::KindLemmas::kind_of_none, crate::proofs::KindLemmas::kind_of_some))]
pub fn kind_of(key: &[u8]) -> KeyKind
    ensures { result ≡ kind_by_bytes key.now }
{
    if key.is_empty() {
        return KeyKind::Other;
    }
    kind_by(key[0], key.len())
}
