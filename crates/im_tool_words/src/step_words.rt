//! The lines that ask for steps.

ghost use Rattle.std.specs.Prelude.{◌≡◌, ◌≢◌, ◌⊎◌, ◌++◌, ◌∷◌, ℕ, List, codes, IfOk, IfErr};
ghost use Rattle.im_base_types.specs.declared.fault.Fault.TheVariants.{BadScript, Memory};
ghost use Rattle.im_base_steps.specs.declared.step.Step.{Step};
ghost use Rattle.im_tool_words.specs.Words.{LacksByte, IsNumber, IsPageNumber};
ghost use Rattle.im_tool_words.specs.Steps.{SpellsStep, IsNumbered, IsKeyed, IsBehindKey};

use crate::key_word::key_of;
use crate::number::number_of;
use crate::pieces::first_piece;
use im_base_steps::Step;
use im_base_types::Fault;
use std::alloc::Global;

/// The step that the line asks for. It has no newline. Refused `BadScript` exactly where the line asks for none; `Memory`.
#[tactic(auto, using(crate::proofs::StepSpelled::step_word_said))]
pub fn step_line(alloc: Global, line: &[u8]) -> Result<Step, Fault>
    ensures says { IfOk result (λ step. SpellsStep line.now step) }
    ensures refused { result ≡ Err BadScript → (step : Step) → ¬ (SpellsStep line.now step) }
    ensures causes { IfErr result (λ e. (e ≡ Memory) ⊎ (e ≡ BadScript)) }
{
    let (word, rest) = first_piece(line, b' ');
    let Some(rest) = rest else {
        return lone_step(word);
    };
    if word == b"commit".as_slice() {
        return commit_line(rest);
    }
    if word == b"rollback".as_slice() {
        return rollback_line(rest);
    }
    if word == b"continue".as_slice() {
        return continue_line(rest);
    }
    if word == b"rollto".as_slice() {
        return rollto_line(rest);
    }
    if word == b"flush".as_slice() {
        return flush_line(rest);
    }
    access_line(alloc, word, rest)
}

// The line of an access: its word, and what stands after that.
#[tactic(auto, using(crate::proofs::StepSpelled::step_word_said))]
fn access_line(alloc: Global, word: &[u8], rest: &[u8]) -> Result<Step, Fault>
    requires { LacksByte 32 word.now }
    ensures says { IfOk result (λ step. SpellsStep (word.now ++ 32 ∷ rest.now) step) }
    ensures refused { result ≡ Err BadScript → word.now ≢ codes "commit" → word.now ≢ codes "rollback" → word.now ≢ codes "continue" → word.now ≢ codes "rollto" → word.now ≢ codes "flush"
        → (step : Step) → ¬ (SpellsStep (word.now ++ 32 ∷ rest.now) step) }
    ensures causes { IfErr result (λ e. (e ≡ Memory) ⊎ (e ≡ BadScript)) }
{
    if word == b"fetch".as_slice() {
        return fetch_line(alloc, rest);
    }
    if word == b"seek".as_slice() {
        return seek_line(alloc, rest);
    }
    if word == b"next".as_slice() {
        return next_line(alloc, rest);
    }
    if word == b"prev".as_slice() {
        return prev_line(alloc, rest);
    }
    if word == b"scan".as_slice() {
        return scan_line(alloc, rest);
    }
    if word == b"insert".as_slice() {
        return insert_line(alloc, rest);
    }
    if word == b"delete".as_slice() {
        return delete_line(alloc, rest);
    }
    Err(Fault::BadScript)
}

// The line of one word.
#[tactic(auto, using(crate::proofs::StepSpelled::lone_step_bad))]
fn lone_step(word: &[u8]) -> Result<Step, Fault>
    requires { LacksByte 32 word.now }
    ensures says { IfOk result (λ step. SpellsStep word.now step) }
    ensures refused { result ≡ Err BadScript → (step : Step) → ¬ (SpellsStep word.now step) }
    ensures causes { IfErr result (λ e. (e ≡ Memory) ⊎ (e ≡ BadScript)) }
{
    if word == b"begin".as_slice() {
        return Ok(Step::Begin);
    }
    if word == b"force".as_slice() {
        return Ok(Step::Force);
    }
    if word == b"checkpoint".as_slice() {
        return Ok(Step::Checkpoint);
    }
    if word == b"switch".as_slice() {
        return Ok(Step::Switch);
    }
    Err(Fault::BadScript)
}

#[tactic(auto, using(crate::proofs::StepSpelled::commit_said))]
fn commit_line(rest: &[u8]) -> Result<Step, Fault>
    ensures says { IfOk result (λ step. SpellsStep (codes "commit " ++ rest.now) step) }
    ensures refused { result ≡ Err BadScript → (step : Step) → ¬ (SpellsStep (codes "commit " ++ rest.now) step) }
    ensures causes { IfErr result (λ e. (e ≡ Memory) ⊎ (e ≡ BadScript)) }
{
    let number = count_of(rest)?;
    Ok(Step::Commit(number))
}

#[tactic(auto, using(crate::proofs::StepSpelled::rollback_said))]
fn rollback_line(rest: &[u8]) -> Result<Step, Fault>
    ensures says { IfOk result (λ step. SpellsStep (codes "rollback " ++ rest.now) step) }
    ensures refused { result ≡ Err BadScript → (step : Step) → ¬ (SpellsStep (codes "rollback " ++ rest.now) step) }
    ensures causes { IfErr result (λ e. (e ≡ Memory) ⊎ (e ≡ BadScript)) }
{
    let number = count_of(rest)?;
    Ok(Step::Rollback(number))
}

#[tactic(auto, using(crate::proofs::StepSpelled::continue_said))]
fn continue_line(rest: &[u8]) -> Result<Step, Fault>
    ensures says { IfOk result (λ step. SpellsStep (codes "continue " ++ rest.now) step) }
    ensures refused { result ≡ Err BadScript → (step : Step) → ¬ (SpellsStep (codes "continue " ++ rest.now) step) }
    ensures causes { IfErr result (λ e. (e ≡ Memory) ⊎ (e ≡ BadScript)) }
{
    let number = count_of(rest)?;
    Ok(Step::Continue(number))
}

#[tactic(auto, using(crate::proofs::StepSpelled::rollto_said, crate::proofs::StepSpelled::left_same))]
fn rollto_line(rest: &[u8]) -> Result<Step, Fault>
    ensures says { IfOk result (λ step. SpellsStep (codes "rollto " ++ rest.now) step) }
    ensures refused { result ≡ Err BadScript → (step : Step) → ¬ (SpellsStep (codes "rollto " ++ rest.now) step) }
    ensures causes { IfErr result (λ e. (e ≡ Memory) ⊎ (e ≡ BadScript)) }
{
    let (number, last) = numbered(rest)?;
    let left = count_of(last)?;
    Ok(Step::RollTo(number, left))
}

#[tactic(auto, using(crate::proofs::StepSpelled::flush_said))]
fn flush_line(rest: &[u8]) -> Result<Step, Fault>
    ensures says { IfOk result (λ step. SpellsStep (codes "flush " ++ rest.now) step) }
    ensures refused { result ≡ Err BadScript → (step : Step) → ¬ (SpellsStep (codes "flush " ++ rest.now) step) }
    ensures causes { IfErr result (λ e. (e ≡ Memory) ⊎ (e ≡ BadScript)) }
{
    let page = page_of(rest)?;
    Ok(Step::FlushPage(page))
}

#[tactic(auto, using(crate::proofs::StepSpelled::fetch_said))]
fn fetch_line(alloc: Global, rest: &[u8]) -> Result<Step, Fault>
    ensures says { IfOk result (λ step. SpellsStep (codes "fetch " ++ rest.now) step) }
    ensures refused { result ≡ Err BadScript → (step : Step) → ¬ (SpellsStep (codes "fetch " ++ rest.now) step) }
    ensures causes { IfErr result (λ e. (e ≡ Memory) ⊎ (e ≡ BadScript)) }
{
    let (number, key) = keyed(alloc, rest)?;
    Ok(Step::Fetch(number, key))
}

#[tactic(auto, using(crate::proofs::StepSpelled::seek_said))]
fn seek_line(alloc: Global, rest: &[u8]) -> Result<Step, Fault>
    ensures says { IfOk result (λ step. SpellsStep (codes "seek " ++ rest.now) step) }
    ensures refused { result ≡ Err BadScript → (step : Step) → ¬ (SpellsStep (codes "seek " ++ rest.now) step) }
    ensures causes { IfErr result (λ e. (e ≡ Memory) ⊎ (e ≡ BadScript)) }
{
    let (number, key) = keyed(alloc, rest)?;
    Ok(Step::Seek(number, key))
}

#[tactic(auto, using(crate::proofs::StepSpelled::next_said))]
fn next_line(alloc: Global, rest: &[u8]) -> Result<Step, Fault>
    ensures says { IfOk result (λ step. SpellsStep (codes "next " ++ rest.now) step) }
    ensures refused { result ≡ Err BadScript → (step : Step) → ¬ (SpellsStep (codes "next " ++ rest.now) step) }
    ensures causes { IfErr result (λ e. (e ≡ Memory) ⊎ (e ≡ BadScript)) }
{
    let (number, key) = keyed(alloc, rest)?;
    Ok(Step::Next(number, key))
}

#[tactic(auto, using(crate::proofs::StepSpelled::prev_said))]
fn prev_line(alloc: Global, rest: &[u8]) -> Result<Step, Fault>
    ensures says { IfOk result (λ step. SpellsStep (codes "prev " ++ rest.now) step) }
    ensures refused { result ≡ Err BadScript → (step : Step) → ¬ (SpellsStep (codes "prev " ++ rest.now) step) }
    ensures causes { IfErr result (λ e. (e ≡ Memory) ⊎ (e ≡ BadScript)) }
{
    let (number, key) = keyed(alloc, rest)?;
    Ok(Step::Prev(number, key))
}

#[tactic(auto, using(crate::proofs::StepSpelled::scan_said))]
fn scan_line(alloc: Global, rest: &[u8]) -> Result<Step, Fault>
    ensures says { IfOk result (λ step. SpellsStep (codes "scan " ++ rest.now) step) }
    ensures refused { result ≡ Err BadScript → (step : Step) → ¬ (SpellsStep (codes "scan " ++ rest.now) step) }
    ensures causes { IfErr result (λ e. (e ≡ Memory) ⊎ (e ≡ BadScript)) }
{
    let (number, keys) = numbered(rest)?;
    let (lo, rest) = behind_key(alloc, keys)?;
    let (hi, last) = behind_key(alloc, rest)?;
    let limit = count_of(last)?;
    Ok(Step::Scan(number, lo, hi, limit))
}

#[tactic(auto, using(crate::proofs::StepSpelled::delete_said))]
fn delete_line(alloc: Global, rest: &[u8]) -> Result<Step, Fault>
    ensures says { IfOk result (λ step. SpellsStep (codes "delete " ++ rest.now) step) }
    ensures refused { result ≡ Err BadScript → (step : Step) → ¬ (SpellsStep (codes "delete " ++ rest.now) step) }
    ensures causes { IfErr result (λ e. (e ≡ Memory) ⊎ (e ≡ BadScript)) }
{
    let (number, key) = keyed(alloc, rest)?;
    Ok(Step::Delete(number, key))
}

#[tactic(auto, using(crate::proofs::StepSpelled::insert_said))]
fn insert_line(alloc: Global, rest: &[u8]) -> Result<Step, Fault>
    ensures says { IfOk result (λ step. SpellsStep (codes "insert " ++ rest.now) step) }
    ensures refused { result ≡ Err BadScript → (step : Step) → ¬ (SpellsStep (codes "insert " ++ rest.now) step) }
    ensures causes { IfErr result (λ e. (e ≡ Memory) ⊎ (e ≡ BadScript)) }
{
    let (number, rest) = numbered(rest)?;
    let (word, last) = first_piece(rest, b' ');
    let Some(last) = last else {
        return Err(Fault::BadScript);
    };
    let rid = count_of(last)?;
    let key = key_of(alloc, word)?;
    Ok(Step::Insert(number, key, rid))
}

// A number, and the key after it.
#[tactic(auto, using(crate::proofs::StepSpelled::keyed_same))]
fn keyed(alloc: Global, text: &[u8]) -> Result<(u64, Vec<u8>), Fault>
    ensures says { IfOk result (λ said. IsKeyed text.now said.0 said.1.items) }
    ensures refused { result ≡ Err BadScript → (t : ℕ) (key : List ℕ) → ¬ (IsKeyed text.now t key) }
    ensures causes { IfErr result (λ e. (e ≡ Memory) ⊎ (e ≡ BadScript)) }
{
    let (number, word) = numbered(text)?;
    let key = key_of(alloc, word)?;
    Ok((number, key))
}

// The key of a word, and what stands after it and a space.
#[tactic(auto, using(crate::proofs::StepSpelled::behind_one, crate::proofs::StepSpelled::behind_cut))]
fn behind_key(alloc: Global, text: &[u8]) -> Result<(Vec<u8>, &[u8]), Fault>
    ensures says { IfOk result (λ said. IsBehindKey text.now said.0.items said.1.now) }
    ensures refused { result ≡ Err BadScript → (key rest : List ℕ) → ¬ (IsBehindKey text.now key rest) }
    ensures causes { IfErr result (λ e. (e ≡ Memory) ⊎ (e ≡ BadScript)) }
{
    let (word, rest) = first_piece(text, b' ');
    let Some(rest) = rest else {
        return Err(Fault::BadScript);
    };
    let key = key_of(alloc, word)?;
    Ok((key, rest))
}

// A number, and what stands after it and a space.
#[tactic(auto, using(crate::proofs::StepSpelled::numbered_lacks, crate::proofs::StepSpelled::numbered_cut))]
fn numbered(text: &[u8]) -> Result<(u64, &[u8]), Fault>
    ensures says { IfOk result (λ said. IsNumbered text.now said.0 said.1.now) }
    ensures refused { IfErr result (λ e. (n : ℕ) (rest : List ℕ) → ¬ (IsNumbered text.now n rest)) }
    ensures cause { IfErr result (λ e. e ≡ BadScript) }
{
    let (word, rest) = first_piece(text, b' ');
    let Some(rest) = rest else {
        return Err(Fault::BadScript);
    };
    let number = count_of(word)?;
    Ok((number, rest))
}

// A page's number.
pub fn page_of(word: &[u8]) -> Result<u32, Fault>
    ensures says { IfOk result (λ n. IsPageNumber word.now n) }
    ensures refused { IfErr result (λ e. (n : ℕ) → ¬ (IsPageNumber word.now n)) }
    ensures cause { IfErr result (λ e. e ≡ BadScript) }
{
    let number = count_of(word)?;
    if number > u32::MAX as u64 {
        return Err(Fault::BadScript);
    }
    Ok(number as u32)
}

pub fn count_of(word: &[u8]) -> Result<u64, Fault>
    ensures says { IfOk result (λ n. IsNumber word.now n) }
    ensures refused { IfErr result (λ e. (n : ℕ) → ¬ (IsNumber word.now n)) }
    ensures cause { IfErr result (λ e. e ≡ BadScript) }
{
    match number_of(word) {
        Some(number) => Ok(number),
        None => Err(Fault::BadScript),
    }
}
