//! The lines that scripts of lives of a store may have.

ghost use Rattle.std.specs.Prelude.{◌≡◌, ◌≢◌, ◌⊎◌, ◌++◌, ◌↔◌, ℕ, Bool, List, Option, true, codes, IfOk, IfErr};
ghost use Rattle.im_base_types.specs.declared.fault.Fault.TheVariants.{BadScript, Memory};
ghost use Rattle.im_tool_lines.specs.declared.store_script_line.StoreScriptLine.{StoreScriptLine};
ghost use Rattle.im_tool_lines.specs.StoreScripts.{SpellsStore, IsOption, IsBehindOption, IsPlainLine, Number, Word};
ghost use Rattle.im_tool_words.specs.Words.{LacksByte};
ghost use Rattle.im_tool_lines.specs.Lines.{behind_word};

use crate::Line;
use crate::grammar::parse_line;
use crate::store_life::{LifeOptions, StoreLine};
use crate::store_script_line::StoreScriptLine;
use im_base_types::Fault;
use im_tool_words::{count_of, first_piece, page_of, step_line};
use std::alloc::Global;

/// What the line of a script of lives of a store says. It has no newline. Refused `BadScript` exactly where the grammar has no
/// such line; `Memory`.
#[tactic(auto, using(crate::proofs::StoreSpelled::no_spaced_line))]
pub fn parse_store_line(alloc: Global, line: &[u8]) -> Result<StoreScriptLine, Fault>
    ensures says { IfOk result (λ said. SpellsStore line.now said) }
    ensures refused { result ≡ Err BadScript → (said : StoreScriptLine) → ¬ (SpellsStore line.now said) }
    ensures causes { IfErr result (λ e. (e ≡ Memory) ⊎ (e ≡ BadScript)) }
{
    let (word, rest) = first_piece(line, b' ');
    if word == b"life".as_slice() {
        return life_line(rest);
    }
    let Some(rest) = rest else {
        return lone_line(alloc, word);
    };
    if word == b"page".as_slice() {
        return page_line(rest);
    }
    if word == b"changes".as_slice() {
        return changes_line(rest);
    }
    plain_line(alloc, line)
}

// The line of one word other than `life`.
#[tactic(auto, using(crate::proofs::StoreSpelled::no_lone_line))]
fn lone_line(alloc: Global, word: &[u8]) -> Result<StoreScriptLine, Fault>
    requires { LacksByte 32 word.now }
    ensures says { IfOk result (λ said. SpellsStore word.now said) }
    ensures refused { result ≡ Err BadScript → word.now ≢ codes "life" → (said : StoreScriptLine) → ¬ (SpellsStore word.now said) }
    ensures causes { IfErr result (λ e. (e ≡ Memory) ⊎ (e ≡ BadScript)) }
{
    if word == b"redo".as_slice() {
        return Ok(StoreScriptLine::Within(StoreLine::Redo));
    }
    if word == b"log".as_slice() {
        return Ok(StoreScriptLine::Within(StoreLine::Log));
    }
    plain_line(alloc, word)
}

// A life with its options.
fn life_line(words: Option<&[u8]>) -> Result<StoreScriptLine, Fault>
    ensures says { IfOk result (λ said. SpellsStore (codes "life" ++ behind_word words.entry) said) }
    ensures refused { result ≡ Err BadScript → (said : StoreScriptLine) → ¬ (SpellsStore (codes "life" ++ behind_word words.entry) said) }
    ensures cause { IfErr result (λ e. e ≡ BadScript) }
{
    let (frames, words) = option_of(b"frames".as_slice(), words)?;
    let (max_pages, words) = option_of(b"max".as_slice(), words)?;
    let (failing_call, words) = option_of(b"fail".as_slice(), words)?;
    let (failing_read, words) = option_of(b"failread".as_slice(), words)?;
    let (stepped, words) = word_of(b"stepped".as_slice(), words);
    let (group, words) = word_of(b"group".as_slice(), words);
    let (dense, words) = word_of(b"dense".as_slice(), words);
    let (workers, words) = option_of(b"workers".as_slice(), words)?;
    if words.is_some() {
        return Err(Fault::BadScript);
    }
    Ok(StoreScriptLine::Life(LifeOptions {
        frames,
        max_pages,
        failing_call,
        failing_read,
        stepped,
        group,
        dense,
        workers,
    }))
}

// The number of the option of this name that the words begin with, and the words after it; none, where they begin with no such
// option.
fn option_of<'a>(
    name: &[u8],
    words: Option<&'a [u8]>,
) -> Result<(Option<u64>, Option<&'a [u8]>), Fault>
    requires { LacksByte 32 name.now }
    ensures says { IfOk result (λ said. IsOption name.now (behind_word words.entry) (Number said.0) (behind_word said.1)) }
    ensures once { IfOk result (λ said. (option : Option ℕ) (left : List ℕ) → IsOption name.now (behind_word words.entry) (Number option) left → IsBehindOption name.now left
        → (option ≡ said.0) × (left ≡ behind_word said.1)) }
    ensures refused { IfErr result (λ e. (option : Option ℕ) (left : List ℕ) → IsBehindOption name.now left → ¬ (IsOption name.now (behind_word words.entry) (Number option) left)) }
    ensures cause { IfErr result (λ e. e ≡ BadScript) }
{
    let Some(text) = words else {
        return Ok((None, None));
    };
    let (word, rest) = first_piece(text, b' ');
    if !is_word(word, name) {
        return Ok((None, words));
    }
    let Some(rest) = rest else {
        return Err(Fault::BadScript);
    };
    let (digits, more) = first_piece(rest, b' ');
    let number = count_of(digits)?;
    Ok((Some(number), more))
}

// Whether the words begin with the option of this name that is a word alone, and the words after it.
fn word_of<'a>(name: &[u8], words: Option<&'a [u8]>) -> (bool, Option<&'a [u8]>)
    requires { LacksByte 32 name.now }
    ensures says { IsOption name.now (behind_word words.entry) (Word result.0) (behind_word result.1) }
    ensures once { (option : Bool) (left : List ℕ) → IsOption name.now (behind_word words.entry) (Word option) left → IsBehindOption name.now left
        → (option ≡ result.0) × (left ≡ behind_word result.1) }
{
    let Some(text) = words else {
        return (false, None);
    };
    let (word, rest) = first_piece(text, b' ');
    if !is_word(word, name) {
        return (false, words);
    }
    (true, rest)
}

// The word is this name.
fn is_word(word: &[u8], name: &[u8]) -> bool
    ensures { result ≡ true ↔ word.now ≡ name.now }
{
    word == name
}

#[tactic(auto, using(crate::proofs::StoreSpelled::page_said))]
fn page_line(rest: &[u8]) -> Result<StoreScriptLine, Fault>
    ensures says { IfOk result (λ said. SpellsStore (codes "page " ++ rest.now) said) }
    ensures refused { result ≡ Err BadScript → (said : StoreScriptLine) → ¬ (SpellsStore (codes "page " ++ rest.now) said) }
    ensures causes { IfErr result (λ e. (e ≡ Memory) ⊎ (e ≡ BadScript)) }
{
    let page = page_of(rest)?;
    Ok(StoreScriptLine::Within(StoreLine::Page(page)))
}

#[tactic(auto, using(crate::proofs::StoreSpelled::changes_said))]
fn changes_line(rest: &[u8]) -> Result<StoreScriptLine, Fault>
    ensures says { IfOk result (λ said. SpellsStore (codes "changes " ++ rest.now) said) }
    ensures refused { result ≡ Err BadScript → (said : StoreScriptLine) → ¬ (SpellsStore (codes "changes " ++ rest.now) said) }
    ensures causes { IfErr result (λ e. (e ≡ Memory) ⊎ (e ≡ BadScript)) }
{
    let number = count_of(rest)?;
    Ok(StoreScriptLine::Within(StoreLine::Changes(number)))
}

// A line that stands in other scripts too, or asks for a step.
#[tactic(auto, using(crate::proofs::StoreSpelled::not_raw, crate::proofs::StoreSpelled::not_put, crate::proofs::StoreSpelled::no_store_line))]
fn plain_line(alloc: Global, line: &[u8]) -> Result<StoreScriptLine, Fault>
    ensures says { IfOk result (λ said. SpellsStore line.now said) }
    ensures refused { result ≡ Err BadScript → (said : StoreScriptLine) → IsPlainLine said → ¬ (SpellsStore line.now said) }
    ensures causes { IfErr result (λ e. (e ≡ Memory) ⊎ (e ≡ BadScript)) }
{
    match parse_line(alloc, line) {
        Ok(Line::Set(file, bytes)) => Ok(StoreScriptLine::Set(file, bytes)),
        Ok(Line::Calls) => Ok(StoreScriptLine::Within(StoreLine::Calls)),
        Ok(Line::Stop(stop)) => Ok(StoreScriptLine::Stop(stop)),
        Ok(Line::Raw) => Err(Fault::BadScript),
        Ok(Line::Put(_)) => Err(Fault::BadScript),
        Err(Fault::BadScript) => match step_line(alloc, line) {
            Ok(step) => Ok(StoreScriptLine::Within(StoreLine::Step(step))),
            Err(fault) => Err(fault),
        },
        Err(fault) => Err(fault),
    }
}
