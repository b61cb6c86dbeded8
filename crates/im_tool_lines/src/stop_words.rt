//! The words of lines that stop a life.

ghost use Rattle.std.specs.Prelude.{◌≡◌, ◌⊎◌, ℕ, IfOk, IfErr, MatchOption};
ghost use Rattle.im_base_types.specs.declared.fault.Fault.TheVariants.{BadScript, Memory};
ghost use Rattle.im_base_model_disk.specs.declared.stop.Fill.{Fill};
ghost use Rattle.im_base_model_disk.specs.declared.stop.Length.{Length};
ghost use Rattle.im_tool_lines.specs.Lines.{IsCall, IsLengthWord, IsFillWord};

use im_base_model_disk::{Fill, Length};
use im_base_types::Fault;
use im_tool_words::{bytes_of, number_of};
use std::alloc::Global;

/// The device call: a number, or `end`, which is no call's.
pub(crate) fn call_of(word: &[u8]) -> Option<u64>
    ensures { MatchOption result ((n : ℕ) → ¬ (IsCall word.now n)) (λ n. IsCall word.now n) }
{
    if word == b"end".as_slice() {
        return Some(0);
    }
    number_of(word)
}

/// How long each file is.
pub(crate) fn length_of(word: &[u8]) -> Option<Length>
    ensures { MatchOption result ((size : Length) → ¬ (IsLengthWord word.now size)) (λ size. IsLengthWord word.now size) }
{
    if word == b"long".as_slice() {
        return Some(Length::Long);
    }
    if word == b"short".as_slice() {
        return Some(Length::Short);
    }
    None
}

/// What stands at the places that were not synced: what was written, or 1 to 64 bytes, over and over.
pub(crate) fn fill_of(alloc: Global, word: &[u8]) -> Result<Fill, Fault>
    ensures says { IfOk result (λ fill. IsFillWord word.now fill) }
    ensures refused { result ≡ Err BadScript → (fill : Fill) → ¬ (IsFillWord word.now fill) }
    ensures causes { IfErr result (λ e. (e ≡ Memory) ⊎ (e ≡ BadScript)) }
{
    if word == b"written".as_slice() {
        return Ok(Fill::Written);
    }
    let bytes = bytes_of(alloc, word)?;
    if bytes.is_empty() || bytes.len() > 64 {
        return Err(Fault::BadScript);
    }
    Ok(Fill::Bytes(bytes))
}
