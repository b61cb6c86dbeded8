//! Lines of steps whose keys stand in the notation of users.

ghost use Rattle.std.specs.Prelude.{◌≤◌, length, IfSome};

use im_base_steps::Step;
use im_base_types::{Fault, TxnId};
use im_tool_look::noted_key;
use im_tool_words::step_line;
use std::alloc::Global;

/// The step that a line asks for: a line of the grammar of steps, or one of them with `x'6100'` or `"a b"` for a key.
///
/// Refused `BadScript` where the line asks for none; `Memory`.
pub fn words_step(alloc: Global, line: &[u8]) -> Result<Step, Fault> {
    let Some(place) = key_place(line) else {
        return step_line(alloc, line);
    };
    let mut plain = Vec::from_slice(alloc, &line[..place]).map_err(|_| Fault::Memory)?;
    let (key, behind) = take_key(alloc, &mut plain, &line[place..])?;
    if line.starts_with(b"scan ") {
        if let [b' ', last @ ..] = behind {
            append(&mut plain, b" ")?;
            let (other, behind) = take_key(alloc, &mut plain, last)?;
            append(&mut plain, behind)?;
            let step = step_line(alloc, &plain)?;
            return Ok(with_second(with_key(step, key), other));
        }
    }
    append(&mut plain, behind)?;
    Ok(with_key(step_line(alloc, &plain)?, key))
}

// The place after the second space, where a key stands.
fn key_place(line: &[u8]) -> Option<usize>
    ensures { IfSome result (λ place. place ≤ length line.now) }
{
    let mut has_space = false;
    for place in 0..line.len() {
        if line[place] == b' ' {
            if has_space {
                return Some(place + 1);
            }
            has_space = true;
        }
    }
    None
}

// Takes a key off the front of a text, and gives what stands after it, from the next space on. A plain one is put at the end of the line; of
// any other a plain key stands there for it.
fn take_key<'a>(
    alloc: Global,
    plain: &mut Vec<u8>,
    text: &'a [u8],
) -> Result<(Option<Vec<u8>>, &'a [u8]), Fault> {
    if let Some((key, rest)) = noted_key(alloc, text)? {
        if !rest.is_empty() && !rest.starts_with(b" ") {
            return Err(Fault::BadScript);
        }
        append(plain, b"k")?;
        return Ok((Some(key), rest));
    }
    for place in 0..text.len() {
        if text[place] == b' ' {
            append(plain, &text[..place])?;
            return Ok((None, &text[place..]));
        }
    }
    append(plain, text)?;
    Ok((None, &text[text.len()..]))
}

fn append(line: &mut Vec<u8>, text: &[u8]) -> Result<(), Fault> {
    line.extend_from_slice(text).map_err(|_| Fault::Memory)
}

/// Three texts as one. Refused `Memory`.
pub(crate) fn joined(
    alloc: Global,
    first: &[u8],
    second: &[u8],
    third: &[u8],
) -> Result<Vec<u8>, Fault> {
    let mut text = Vec::from_slice(alloc, first).map_err(|_| Fault::Memory)?;
    append(&mut text, second)?;
    append(&mut text, third)?;
    Ok(text)
}

// The step with another key, or the first of two.
fn with_key(step: Step, key: Option<Vec<u8>>) -> Step {
    let Some(key) = key else {
        return step;
    };
    match step {
        Step::Fetch(number, _) => Step::Fetch(number, key),
        Step::Seek(number, _) => Step::Seek(number, key),
        Step::Next(number, _) => Step::Next(number, key),
        Step::Prev(number, _) => Step::Prev(number, key),
        Step::Scan(number, _, hi, limit) => Step::Scan(number, key, hi, limit),
        Step::Insert(number, _, rid) => Step::Insert(number, key, rid),
        Step::Delete(number, _) => Step::Delete(number, key),
        other => other,
    }
}

// The step with another second key.
fn with_second(step: Step, key: Option<Vec<u8>>) -> Step {
    let Some(key) = key else {
        return step;
    };
    match step {
        Step::Scan(number, lo, _, limit) => Step::Scan(number, lo, key, limit),
        other => other,
    }
}

/// The step, of another transaction.
pub(crate) fn with_number(step: Step, number: TxnId) -> Step {
    match step {
        Step::Fetch(_, key) => Step::Fetch(number, key),
        Step::Seek(_, key) => Step::Seek(number, key),
        Step::Next(_, key) => Step::Next(number, key),
        Step::Prev(_, key) => Step::Prev(number, key),
        Step::Scan(_, lo, hi, limit) => Step::Scan(number, lo, hi, limit),
        Step::Insert(_, key, rid) => Step::Insert(number, key, rid),
        Step::Delete(_, key) => Step::Delete(number, key),
        Step::Commit(_) => Step::Commit(number),
        Step::Rollback(_) => Step::Rollback(number),
        Step::Continue(_) => Step::Continue(number),
        Step::RollTo(_, left) => Step::RollTo(number, left),
        other => other,
    }
}
