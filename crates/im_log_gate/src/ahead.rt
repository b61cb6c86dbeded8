//! What bytes show that were read from a gate on.

ghost use Rattle.std.specs.Prelude.{◌≡◌, ◌≢◌, ◌↔◌, ◌≤◌, true, None, length, drop, slice_index, IfSome};
ghost use Rattle.im_log_gate.specs.Batches.{batch_length, BeginsWhole};

use byteorder::{BigEndian, ByteOrder};
use im_base_types::LONGEST_BATCH;

// How many bytes the batch has after the open gate at the front of these, if all of it and the next gate are there.
#[tactic(auto, using(crate::proofs::BatchesAhead::length_in_front))]
pub(crate) fn whole_batch(bytes: &[u8]) -> Option<usize>
    ensures whole { IfSome result (λ size. (size ≡ batch_length (drop 1 bytes.now)) × BeginsWhole bytes.now) }
    ensures none { result ≡ None → ¬ (BeginsWhole bytes.now) }
{
    if bytes.len() < 6 || bytes[0] != 1 {
        return None;
    }
    let size = BigEndian::read_u32(&bytes[1..5]) as usize;
    if size == 0 || size > LONGEST_BATCH || size + 5 >= bytes.len() {
        return None;
    }
    Some(size)
}

// A closed gate stands at the front of these bytes.
pub(crate) fn begins_closed(bytes: &[u8]) -> bool
    ensures { result ≡ true ↔ (1 ≤ length bytes.now) × (slice_index bytes.now 0 ≢ 1) }
{
    !bytes.is_empty() && bytes[0] != 1
}

/// A gate and the length of its batch have so many bytes.
pub const AHEAD: usize = 5;

/// A gate of this byte is open.
pub fn is_open(gate: u8) -> bool
    ensures { (result ≡ true) ↔ (gate ≡ 1) }
{
    gate == 1
}

/// How many bytes the records of the batch have that begins, after its gate, with these bytes, as they say themselves: of a batch that counts 1 to 16,384.
#[tactic(auto, unfolding(crate::specs::Batches::batch_length))]
pub fn length_of(behind: &[u8]) -> u32
    requires room { 4 ≤ length behind.now }
    ensures { result ≡ batch_length behind.now }
{
    BigEndian::read_u32(&behind[..4])
}
