//! Whether all of a record stands at the front of bytes.

ghost use Rattle.std.specs.Prelude.{◌≡◌, None, IfSome};
ghost use Rattle.im_log.specs.Span.{IsWhole};
ghost use Rattle.im_log.specs.Spelled.{record_size};

use byteorder::{BigEndian, ByteOrder};

/// How many bytes the record at the front of these has, if all of them are there.
#[tactic(auto, using(crate::proofs::Places::size_in_front))]
pub fn whole_size(bytes: &[u8]) -> Option<usize>
    ensures whole { IfSome result (λ size. (size ≡ record_size bytes.now) × IsWhole bytes.now) }
    ensures none { result ≡ None → ¬ (IsWhole bytes.now) }
{
    if bytes.len() < 4 {
        return None;
    }
    let size = BigEndian::read_u32(bytes) as usize;
    if size < 4 || size > bytes.len() {
        return None;
    }
    Some(size)
}
