//! What a line asks of a store.
//!
//! A line of steps names its transaction by a number, and its keys stand as its manner says. Lines for daily use are always in words: those that are a
//! transaction by themselves, `put`, `get`, `del` and `list`, and steps that name the transaction begun last by `.`. The lines of savepoints that have names
//! are none of the grammar of steps.

use crate::help::usage_of;
use crate::manner::{Manner, is_change, step_in};
use crate::whole::{Whole, is_whole, whole_line};
use crate::words_step::{joined, with_number, words_step};
use im_base_steps::Step;
use im_base_types::{Fault, TxnId};
use im_tool_words::{first_piece, number_of};
use std::alloc::Global;

/// The most bytes that the name of a savepoint has.
const LONGEST_NAME: usize = 32;

/// What a line asks for.
#[derive(Drop)]
pub enum Asked {
    /// A step.
    Step(Step),
    /// A transaction by itself.
    Whole(Whole),
    /// How many changes of a transaction stand.
    Changes(TxnId),
    /// A savepoint of a transaction, under a name.
    Savepoint(TxnId, Vec<u8>),
    /// A return to the savepoint of a transaction that has this name.
    Return(TxnId, Vec<u8>),
    /// A step of the transaction begun last, where there is none.
    OfNone,
}

impl Asked {
    /// Whether that is a change, of the entries or of the files.
    pub fn is_change(&self) -> bool {
        match self {
            Asked::Step(step) => is_change(step),
            Asked::Whole(whole) => whole.is_change(),
            Asked::Changes(_) | Asked::Savepoint(..) | Asked::Return(..) | Asked::OfNone => false,
        }
    }
}

/// The manner of a line: in words, where it is one for daily use.
pub fn manner_of_line(manner: Manner, line: &[u8]) -> Manner {
    if is_whole(line) || after_dot(line).is_some() {
        return manner.in_words();
    }
    manner
}

/// What a line asks for, where `last` is the transaction that was begun last.
///
/// Refused `BadScript` where the line asks for nothing; `Memory`.
pub fn asked_in(
    alloc: Global,
    manner: Manner,
    last: Option<TxnId>,
    line: &[u8],
) -> Result<Asked, Fault> {
    if is_whole(line) {
        return Ok(Asked::Whole(whole_line(alloc, line)?));
    }
    if let (b"changes", rest) = first_piece(line, b' ') {
        return changes_of(rest, last);
    }
    if let Some((word, txn, name)) = with_name(line) {
        return named(alloc, word, txn, name, last);
    }
    if let Some((word, after)) = after_dot(line) {
        return dotted(alloc, word, after, last);
    }
    Ok(Asked::Step(step_in(alloc, manner, line)?))
}

// The step of a line with `.`: it is read with a number in its place, which is then that of the transaction.
fn dotted(alloc: Global, word: &[u8], after: &[u8], last: Option<TxnId>) -> Result<Asked, Fault> {
    let step = words_step(alloc, &joined(alloc, word, b" 0", after)?)?;
    Ok(match last {
        Some(number) => Asked::Step(with_number(step, number)),
        None => Asked::OfNone,
    })
}

// The changes of the transaction that a line names after its word.
fn changes_of(rest: Option<&[u8]>, last: Option<TxnId>) -> Result<Asked, Fault> {
    let Some(txn) = rest else {
        return Err(Fault::BadScript);
    };
    Ok(match txn_of(txn, last)? {
        Some(number) => Asked::Changes(number),
        None => Asked::OfNone,
    })
}

// What a line with the name of a savepoint asks for.
fn named(
    alloc: Global,
    word: &[u8],
    txn: &[u8],
    name: &[u8],
    last: Option<TxnId>,
) -> Result<Asked, Fault> {
    let Some(number) = txn_of(txn, last)? else {
        return Ok(Asked::OfNone);
    };
    let name = Vec::from_slice(alloc, name).map_err(|_| Fault::Memory)?;
    if word == b"rollto".as_slice() {
        return Ok(Asked::Return(number, name));
    }
    Ok(Asked::Savepoint(number, name))
}

// The transaction that is named by its number or by `.`; none where that is of none. Refused `BadScript` where it is named otherwise.
fn txn_of(txn: &[u8], last: Option<TxnId>) -> Result<Option<TxnId>, Fault> {
    if txn == b".".as_slice() {
        return Ok(last);
    }
    match number_of(txn) {
        Some(number) => Ok(Some(number)),
        None => Err(Fault::BadScript),
    }
}

// The word of a line with the name of a savepoint, its transaction, and that name. None of any other line.
fn with_name(line: &[u8]) -> Option<(&[u8], &[u8], &[u8])> {
    let (word, rest) = first_piece(line, b' ');
    let (txn, name) = first_piece(rest?, b' ');
    let name = name?;
    let may_have = word == b"savepoint".as_slice() || word == b"rollto".as_slice();
    if may_have && is_name(name) {
        Some((word, txn, name))
    } else {
        None
    }
}

/// Whether a savepoint may have this name: printable ASCII without spaces, which begins with a letter, as no number does.
pub(crate) fn is_name(word: &[u8]) -> bool {
    let Some(first) = word.first() else {
        return false;
    };
    first.is_ascii_alphabetic()
        && word.len() <= LONGEST_NAME
        && word.iter().all(|byte| byte.is_ascii_graphic())
}

// The word of a line whose transaction is named by `.`, and what stands after that. None of any other line.
fn after_dot(line: &[u8]) -> Option<(&[u8], &[u8])> {
    let (word, rest) = first_piece(line, b' ');
    match rest? {
        [b'.', after @ ..] if after.is_empty() || after.starts_with(b" ") => {
            if names_number(word) {
                Some((word, after))
            } else {
                None
            }
        }
        _ => None,
    }
}

// Whether the number of a transaction follows this word.
fn names_number(word: &[u8]) -> bool {
    let Some(usage) = usage_of(word) else {
        return false;
    };
    match first_piece(usage.as_bytes(), b' ').1 {
        Some(parts) => parts.starts_with(b"N"),
        None => false,
    }
}

/// Whether a key of a line of steps begins as one that is quoted, or in hexadecimal digits, which stands for itself where the line is not in words.
pub fn has_noted_key(line: &[u8]) -> bool {
    if !line.contains(&b'"') && !line.contains(&b'\'') {
        return false;
    }
    let (word, rest) = first_piece(line, b' ');
    let Some(usage) = usage_of(word) else {
        return false;
    };
    let mut left = rest;
    for part in usage.split(' ').skip(1) {
        let Some(text) = left else {
            return false;
        };
        let (piece, after) = first_piece(text, b' ');
        if part == "KEY" && (piece.starts_with(b"\"") || piece.starts_with(b"x'")) {
            return true;
        }
        left = after;
    }
    false
}
