//! Key words, as scripts write them.

ghost use Rattle.std.specs.Prelude.{◌≡◌, ◌⊎◌, ◌≤◌, ◌++◌, ◌∷◌, ℕ, List, true, replicate, IfOk, IfErr};
ghost use Rattle.im_base_types.specs.declared.fault.Fault.TheVariants.{BadScript, Memory};
ghost use Rattle.im_tool_words.specs.Words.{LacksByte};
ghost use Rattle.im_tool_words.specs.Steps.{IsKeyWord, IsRepeated, is_text};
ghost use Rattle.im_tool_words.specs.Steps as steps;

use crate::number::number_of;
use crate::pieces::first_piece;
use im_base_types::Fault;
use std::alloc::Global;

/// The most that a key word says after its `*`.
const MOST: u64 = 1_000;

/// The bytes of the key that the word writes: `TEXT`, which is some printable ASCII without space, `+` or `*`; or `T+C*N`,
/// which is T, such a text or empty, and then the letter or digit C N times, N 0 to 1,000. Such a key can have no
/// bytes, or more than a store takes.
///
/// Refused `BadScript` exactly where the word writes no key; `Memory`.
#[tactic(auto, using(crate::proofs::KeyWords::key_bad))]
pub(crate) fn key_of(alloc: Global, word: &[u8]) -> Result<Vec<u8>, Fault>
    ensures says { IfOk result (λ key. IsKeyWord word.now key.items) }
    ensures refused { result ≡ Err BadScript → (key : List ℕ) → ¬ (IsKeyWord word.now key) }
    ensures causes { IfErr result (λ e. (e ≡ Memory) ⊎ (e ≡ BadScript)) }
{
    let (text, repeated) = first_piece(word, b'+');
    if !is_text_word(text) {
        return Err(Fault::BadScript);
    }
    match repeated {
        Some(repeated) => repeating_key(alloc, text, repeated),
        None => plain_key(alloc, text),
    }
}

// The key of a text alone.
#[tactic(auto, using(crate::proofs::KeyWords::plain_is, crate::proofs::KeyWords::empty_bad))]
fn plain_key(alloc: Global, text: &[u8]) -> Result<Vec<u8>, Fault>
    requires plain { is_text text.now ≡ true }
    requires lacks { LacksByte 43 text.now }
    ensures says { IfOk result (λ key. IsKeyWord text.now key.items) }
    ensures refused { result ≡ Err BadScript → (key : List ℕ) → ¬ (IsKeyWord text.now key) }
    ensures causes { IfErr result (λ e. (e ≡ Memory) ⊎ (e ≡ BadScript)) }
{
    if text.is_empty() {
        return Err(Fault::BadScript);
    }
    match Vec::from_slice(alloc, text) {
        Ok(key) => Ok(key),
        Err(_) => Err(Fault::Memory),
    }
}

// The key of a text and what stands after its `+`.
#[tactic(auto, using(crate::proofs::KeyWords::repeating_is, crate::proofs::KeyWords::repeating_said))]
fn repeating_key(alloc: Global, text: &[u8], repeated: &[u8]) -> Result<Vec<u8>, Fault>
    requires plain { is_text text.now ≡ true }
    requires lacks { LacksByte 43 text.now }
    ensures says { IfOk result (λ key. IsKeyWord (text.now ++ 43 ∷ repeated.now) key.items) }
    ensures refused { result ≡ Err BadScript → (key : List ℕ) → ¬ (IsKeyWord (text.now ++ 43 ∷ repeated.now) key) }
    ensures causes { IfErr result (λ e. (e ≡ Memory) ⊎ (e ≡ BadScript)) }
{
    let (letter, times) = repeated_of(repeated)?;
    repeated_key(alloc, text, letter, times)
}

// The text, and then the letter so many times.
fn repeated_key(alloc: Global, text: &[u8], letter: u8, times: usize) -> Result<Vec<u8>, Fault>
    requires { times ≤ 1000 }
    ensures key { IfOk result (λ key. key.items ≡ text.now ++ replicate times letter) }
    ensures memory { IfErr result (λ e. e ≡ Memory) }
{
    let mut key = Vec::with_capacity(alloc, text.len() + times).map_err(|_| Fault::Memory)?;
    key.extend_from_slice(text).map_err(|_| Fault::Memory)?;
    key.resize(text.len() + times, letter)
        .map_err(|_| Fault::Memory)?;
    Ok(key)
}

// What `C*N` says.
#[tactic(auto, using(crate::proofs::KeyWords::repeated_is, crate::proofs::KeyWords::repeated_cut, crate::proofs::KeyWords::repeated_alone, crate::proofs::KeyWords::number_once))]
fn repeated_of(word: &[u8]) -> Result<(u8, usize), Fault>
    ensures says { IfOk result (λ said. IsRepeated word.now said.0 said.1) }
    ensures most { IfOk result (λ said. said.1 ≤ 1000) }
    ensures refused { IfErr result (λ e. (letter times : ℕ) → ¬ (IsRepeated word.now letter times)) }
    ensures cause { IfErr result (λ e. e ≡ BadScript) }
{
    let (sign, times) = first_piece(word, b'*');
    let Some(times) = times else {
        return Err(Fault::BadScript);
    };
    if sign.len() != 1 {
        return Err(Fault::BadScript);
    }
    let letter = sign[0];
    if !letter.is_ascii_alphanumeric() {
        return Err(Fault::BadScript);
    }
    let Some(times) = number_of(times) else {
        return Err(Fault::BadScript);
    };
    if times > MOST {
        return Err(Fault::BadScript);
    }
    Ok((letter, times as usize))
}

// A key's text has these bytes.
fn is_text_word(text: &[u8]) -> bool
    ensures { result ≡ is_text text.now }
{
    text.iter().all(|byte| is_plain(*byte))
}

// A byte that a key's text may have.
fn is_plain(byte: u8) -> bool
    ensures { result ≡ steps.is_plain byte }
{
    byte.is_ascii_graphic() && byte != b'+' && byte != b'*'
}
