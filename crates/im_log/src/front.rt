//! The record at the front of bytes.

ghost use Rattle.std.specs.Prelude.{◌≡◌, ◌≤◌, length, IfErr, IfOk, None};
ghost use Rattle.im_base_types.specs.declared.fault.Fault.TheVariants.{NotAStore};
ghost use Rattle.im_log.specs.Spelled.{record_size, first_record};

use byteorder::{BigEndian, ByteOrder};
use im_base_types::Fault;

// The length of the record at the front of these bytes, in which all of it lies. Refused `NotAStore` where that is not so.
#[tactic(auto, unfolding(crate::specs::Spelled::first_record), using(std::proofs::lemmas::Bool::Decides::nat_tests, crate::proofs::Places::size_in_front))]
pub(crate) fn front_size(bytes: &[u8]) -> Result<usize, Fault>
    ensures size { IfOk result (λ size. (size ≡ record_size bytes.now) × (4 ≤ size) × (size ≤ length bytes.now)) }
    ensures refused { IfErr result (λ e. (e ≡ NotAStore) × (first_record bytes.now ≡ None)) }
{
    if bytes.len() < 4 {
        return Err(Fault::NotAStore);
    }
    let size = BigEndian::read_u32(bytes) as usize;
    if size < 4 || size > bytes.len() {
        return Err(Fault::NotAStore);
    }
    Ok(size)
}
