//! The lines that scripts may have.

ghost use Rattle.std.specs.Prelude.{◌≡◌, ◌⊎◌, ◌++◌, codes, IfOk, IfErr};
ghost use Rattle.im_base_types.specs.declared.fault.Fault.TheVariants.{BadScript, Memory};
ghost use Rattle.im_tool_lines.specs.declared.line.Line.{Line};
ghost use Rattle.im_tool_words.specs.Words.{LacksByte};
ghost use Rattle.im_tool_lines.specs.Lines.{SpellsLine};

use crate::set_words::file_of;
use crate::stop_words::{call_of, fill_of, length_of};
use crate::{Batch, Line};
use im_base_model_disk::Stop;
use im_base_types::Fault;
use im_tool_words::{bytes_of, first_piece};
use std::alloc::Global;

/// What the line says. It has no newline. Refused `BadScript` exactly where the grammar has no such line; `Memory`.
#[tactic(auto, using(crate::proofs::Spelled::word_said))]
pub fn parse_line(alloc: Global, line: &[u8]) -> Result<Line, Fault>
    ensures says { IfOk result (λ said. SpellsLine line.now said) }
    ensures refused { result ≡ Err BadScript → (said : Line) → ¬ (SpellsLine line.now said) }
    ensures causes { IfErr result (λ e. (e ≡ Memory) ⊎ (e ≡ BadScript)) }
{
    let (word, rest) = first_piece(line, b' ');
    let Some(rest) = rest else {
        return lone_word(word);
    };
    if word == b"put".as_slice() {
        return put_line(alloc, rest);
    }
    if word == b"set".as_slice() {
        return set_line(alloc, rest);
    }
    if word == b"stop".as_slice() {
        return stop_line(alloc, rest);
    }
    Err(Fault::BadScript)
}

// The line of one word.
#[tactic(auto, using(crate::proofs::Spelled::lone_bad))]
fn lone_word(word: &[u8]) -> Result<Line, Fault>
    requires { LacksByte 32 word.now }
    ensures says { IfOk result (λ said. SpellsLine word.now said) }
    ensures refused { result ≡ Err BadScript → (said : Line) → ¬ (SpellsLine word.now said) }
    ensures causes { IfErr result (λ e. (e ≡ Memory) ⊎ (e ≡ BadScript)) }
{
    if word == b"raw".as_slice() {
        return Ok(Line::Raw);
    }
    if word == b"calls".as_slice() {
        return Ok(Line::Calls);
    }
    Err(Fault::BadScript)
}

#[tactic(auto, using(crate::proofs::Spelled::put_said))]
fn put_line(alloc: Global, rest: &[u8]) -> Result<Line, Fault>
    ensures says { IfOk result (λ said. SpellsLine (codes "put " ++ rest.now) said) }
    ensures refused { result ≡ Err BadScript → (said : Line) → ¬ (SpellsLine (codes "put " ++ rest.now) said) }
    ensures causes { IfErr result (λ e. (e ≡ Memory) ⊎ (e ≡ BadScript)) }
{
    let bytes = bytes_of(alloc, rest)?;
    match Batch::new(bytes) {
        Some(batch) => Ok(Line::Put(batch)),
        None => Err(Fault::BadScript),
    }
}

#[tactic(auto, using(crate::proofs::SetSpelled::set_two, crate::proofs::SetSpelled::set_file, crate::proofs::SetSpelled::set_hex, crate::proofs::SetSpelled::set_bytes))]
fn set_line(alloc: Global, rest: &[u8]) -> Result<Line, Fault>
    ensures says { IfOk result (λ said. SpellsLine (codes "set " ++ rest.now) said) }
    ensures refused { result ≡ Err BadScript → (said : Line) → ¬ (SpellsLine (codes "set " ++ rest.now) said) }
    ensures causes { IfErr result (λ e. (e ≡ Memory) ⊎ (e ≡ BadScript)) }
{
    let (word, rest) = first_piece(rest, b' ');
    let Some(rest) = rest else {
        return Err(Fault::BadScript);
    };
    let Some(file) = file_of(word) else {
        return Err(Fault::BadScript);
    };
    if rest.is_empty() {
        return Err(Fault::BadScript);
    }
    let bytes = bytes_of(alloc, rest)?;
    Ok(Line::Set(file, bytes))
}

#[tactic(auto, using(crate::proofs::Spelled::stop_one, crate::proofs::Spelled::stop_call, crate::proofs::Spelled::stop_two, crate::proofs::Spelled::stop_length, crate::proofs::Spelled::stop_fill))]
fn stop_line(alloc: Global, rest: &[u8]) -> Result<Line, Fault>
    ensures says { IfOk result (λ said. SpellsLine (codes "stop " ++ rest.now) said) }
    ensures refused { result ≡ Err BadScript → (said : Line) → ¬ (SpellsLine (codes "stop " ++ rest.now) said) }
    ensures causes { IfErr result (λ e. (e ≡ Memory) ⊎ (e ≡ BadScript)) }
{
    let (call, rest) = first_piece(rest, b' ');
    let Some(rest) = rest else {
        return Err(Fault::BadScript);
    };
    let Some(call) = call_of(call) else {
        return Err(Fault::BadScript);
    };
    let (length, rest) = first_piece(rest, b' ');
    let Some(rest) = rest else {
        return Err(Fault::BadScript);
    };
    let Some(length) = length_of(length) else {
        return Err(Fault::BadScript);
    };
    let fill = fill_of(alloc, rest)?;
    Ok(Line::Stop(Stop { call, length, fill }))
}
