//! Lines that are a transaction by themselves.

use crate::words_step::{joined, words_step};
use im_base_steps::Step;
use im_base_types::{Fault, LONGEST_KEY, Rid};
use im_tool_words::first_piece;
use std::alloc::Global;

/// What such a line asks for.
#[derive(Drop)]
pub enum Whole {
    /// The key gets the row id, whether it is there or not.
    Put(Vec<u8>, Rid),
    /// The row id of the key.
    Get(Vec<u8>),
    /// The key is taken out.
    Del(Vec<u8>),
    /// The entries from one key to another.
    List(Vec<u8>, Vec<u8>),
}

impl Whole {
    /// Whether it may change the entries.
    pub fn is_change(&self) -> bool {
        matches!(self, Whole::Put(..) | Whole::Del(_))
    }
}

/// Whether a line begins as one of them.
pub(crate) fn is_whole(line: &[u8]) -> bool {
    let word = first_piece(line, b' ').0;
    word == b"put".as_slice()
        || word == b"get".as_slice()
        || word == b"del".as_slice()
        || word == b"list".as_slice()
}

/// What a line asks for that begins so, with keys in the notation of users: `put KEY ROWID`, `get KEY`, `del KEY`, or `list [LO [HI]]`.
///
/// Refused `BadScript` where it is not written so; `Memory`.
pub(crate) fn whole_line(alloc: Global, line: &[u8]) -> Result<Whole, Fault> {
    let (word, rest) = first_piece(line, b' ');
    let Some(rest) = rest else {
        return lone_line(alloc, word);
    };
    match word {
        b"put" => put_line(alloc, rest),
        b"get" => Ok(Whole::Get(key_of(alloc, rest)?)),
        b"del" => Ok(Whole::Del(key_of(alloc, rest)?)),
        b"list" => list_line(alloc, rest),
        _ => Err(Fault::BadScript),
    }
}

fn lone_line(alloc: Global, word: &[u8]) -> Result<Whole, Fault> {
    match word {
        b"list" => Ok(Whole::List(least_key(alloc)?, greatest_key(alloc)?)),
        _ => Err(Fault::BadScript),
    }
}

// The parts of each are read as those of the step that has the same.
fn put_line(alloc: Global, rest: &[u8]) -> Result<Whole, Fault> {
    match words_step(alloc, &joined(alloc, b"insert 0 ", rest, b"")?)? {
        Step::Insert(_, key, rid) => Ok(Whole::Put(key, rid)),
        _ => Err(Fault::BadScript),
    }
}

fn key_of(alloc: Global, text: &[u8]) -> Result<Vec<u8>, Fault> {
    match words_step(alloc, &joined(alloc, b"fetch 0 ", text, b"")?)? {
        Step::Fetch(_, key) => Ok(key),
        _ => Err(Fault::BadScript),
    }
}

// One key, or two.
fn list_line(alloc: Global, keys: &[u8]) -> Result<Whole, Fault> {
    match key_of(alloc, keys) {
        Ok(lo) => Ok(Whole::List(lo, greatest_key(alloc)?)),
        Err(Fault::BadScript) => range_line(alloc, keys),
        Err(fault) => Err(fault),
    }
}

fn range_line(alloc: Global, keys: &[u8]) -> Result<Whole, Fault> {
    match words_step(alloc, &joined(alloc, b"scan 0 ", keys, b" 1")?)? {
        Step::Scan(_, lo, hi, _) => Ok(Whole::List(lo, hi)),
        _ => Err(Fault::BadScript),
    }
}

fn least_key(alloc: Global) -> Result<Vec<u8>, Fault> {
    Vec::from_slice(alloc, &[0]).map_err(|_| Fault::Memory)
}

fn greatest_key(alloc: Global) -> Result<Vec<u8>, Fault> {
    vec![in alloc; 255; LONGEST_KEY].map_err(|_| Fault::Memory)
}
