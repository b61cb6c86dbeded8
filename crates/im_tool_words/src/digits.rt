//! Bytes as scripts write them.

ghost use Rattle.std.specs.Prelude.{◌≡◌, ◌≢◌, ◌⊎◌, ℕ, List, IfOk, IfErr};
ghost use Rattle.hex.specs.Hex.{decode_of};
ghost use Rattle.im_base_types.specs.declared.fault.Fault.TheVariants.{BadScript, Memory};

use hex::FromHexError;
use im_base_types::Fault;
use std::alloc::Global;

/// The bytes that the word writes in hexadecimal digits of either case.
pub fn bytes_of(alloc: Global, word: &[u8]) -> Result<Vec<u8>, Fault>
    ensures says { IfOk result (λ bytes. decode_of word.now ≡ Ok bytes.items) }
    ensures refused { result ≡ Err BadScript → (bytes : List ℕ) → decode_of word.now ≢ Ok bytes }
    ensures causes { IfErr result (λ e. (e ≡ Memory) ⊎ (e ≡ BadScript)) }
{
    match hex::decode(alloc, word) {
        Ok(bytes) => Ok(bytes),
        Err(FromHexError::OutOfMemory) => Err(Fault::Memory),
        Err(_) => Err(Fault::BadScript),
    }
}
