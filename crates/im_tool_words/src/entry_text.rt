//! An entry as text, in one piece.

ghost use Rattle.std.specs.Prelude.{◌≡◌, ◌≤◌, ◌<◌, ◌++◌, ◌∷◌, length, take, decimal};
ghost use Rattle.hex.specs.Hex.{encode_lower};

use im_base_types::{LONGEST_KEY, Rid};
use itoa::Buffer;

/// The most bytes of an entry's text, and one more: a space, two digits for each byte of a key, a space, and twenty digits of a row id.
pub(crate) const ENTRY_ROOM: usize = 2 * LONGEST_KEY + 23;

/// Puts an entry into the front of some room: a space, the key in hexadecimal digits, a space, and the row id. Answers how many bytes they
/// are. At least one byte of the room is left.
pub(crate) fn put_entry(text: &mut [u8; ENTRY_ROOM], key: &[u8], rid: Rid) -> usize
    requires { length key.now ≤ 255 }
    ensures within { result < 533 }
    ensures text { take result text.new ≡ 32 ∷ encode_lower key.now ++ 32 ∷ decimal rid }
{
    let middle = 1 + 2 * key.len();
    text[0] = b' ';
    let _ = hex::encode_to_slice(key, &mut text[1..middle]);
    text[middle] = b' ';
    let mut buffer = Buffer::new();
    let number = buffer.format(rid).as_bytes();
    let end = middle + 1 + number.len();
    text[middle + 1..end].copy_from_slice(number);
    end
}
