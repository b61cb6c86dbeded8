//! Why a line asks for no step.

use crate::asked::is_name;
use crate::help::usage_of;
use im_tool_look::noted_key;
use im_tool_words::{first_piece, number_of, page_of};
use std::alloc::Global;
use std::fmt;
use std::fmt::{Display, Formatter};

/// The byte with which what a terminal sends for an arrow key begins.
const ESCAPE: u8 = 27;

/// Why a line that asks for no step is none, where that can be told. The usage is how the line of that word is written, and a part of it one of its words.
#[derive(Clone, Copy, Debug, PartialEq, Eq)]
pub enum NoStep {
    /// No line begins with this word.
    OtherWord,
    /// Nor with this one, by which other programs are ended.
    Quit,
    /// It is a comment.
    Comment,
    /// It has a byte that a key for moving the cursor sends.
    Cursor,
    /// The line ends before this part.
    Missing(&'static str, &'static str),
    /// This part is no number that may stand there.
    NoNumber(&'static str, &'static str),
    /// The name of a savepoint is not written as one.
    NoName(&'static str),
    /// The key is not written as a key.
    NoKey(&'static str),
    /// The key is no text that stands without quotation marks.
    NoText(&'static str),
    /// What stands for a folder names none.
    NoFolder(&'static str),
    /// Something stands after the last part.
    More(&'static str),
}

impl Display for NoStep {
    fn fmt<W: fmt::Write>(&self, f: &mut Formatter<W>) -> fmt::Result {
        match self {
            NoStep::OtherWord => write!(
                f,
                "a bad line: no line begins so, `help` has those that do"
            ),
            NoStep::Quit => write!(
                f,
                "a bad line: no line begins so, `quit` ends the program, as the end of the input does"
            ),
            NoStep::Comment => write!(f, "a bad line: lines have no comments"),
            NoStep::Cursor => write!(
                f,
                "a bad line: lines are not edited here, `rlwrap imstore` gives arrow keys and a history"
            ),
            NoStep::Missing(usage, part) => {
                write!(f, "a bad line: {part} is missing in `{usage}`")
            }
            NoStep::NoNumber(usage, part) => {
                write!(
                    f,
                    "a bad line: {part} is no number that may stand in `{usage}`"
                )
            }
            NoStep::NoName(usage) => {
                write!(
                    f,
                    "a bad line: NAME begins with a letter, and has 1 to 32 printable bytes in `{usage}`"
                )
            }
            NoStep::NoKey(usage) => {
                write!(
                    f,
                    "a bad line: KEY is not written so in `{usage}`, `help KEY` says how"
                )
            }
            NoStep::NoText(usage) => {
                write!(
                    f,
                    "a bad line: KEY has other bytes than printable ASCII in `{usage}`, which stand in quotation marks, or as x'6100'"
                )
            }
            NoStep::NoFolder(usage) => {
                write!(f, "a bad line: FOLDER names no folder in `{usage}`")
            }
            NoStep::More(usage) => write!(f, "a bad line: nothing may follow `{usage}`"),
        }
    }
}

/// Why such a line is none.
pub fn why_no_step(alloc: Global, line: &[u8]) -> NoStep {
    if line.contains(&ESCAPE) {
        return NoStep::Cursor;
    }
    let (word, rest) = first_piece(line, b' ');
    match usage_of(word) {
        Some(usage) => why_not(alloc, usage, rest),
        None => why_no_word(word),
    }
}

fn why_no_word(word: &[u8]) -> NoStep {
    if word.starts_with(b"#") {
        return NoStep::Comment;
    }
    match word {
        b"exit" | b"bye" | b"q" | b".quit" | b".exit" => NoStep::Quit,
        _ => NoStep::OtherWord,
    }
}

// Why what stands after a word does not follow it, in a line that is written so.
fn why_not(alloc: Global, usage: &'static str, rest: Option<&[u8]>) -> NoStep {
    let mut left = rest;
    let mut has_other_bytes = false;
    for part in usage.split(' ').skip(1) {
        let Some(text) = left else {
            if may_lack(part) {
                break;
            }
            return NoStep::Missing(usage, part);
        };
        if part == "FOLDER" {
            return NoStep::NoFolder(usage);
        }
        left = if is_key(part) {
            match after_key(alloc, text) {
                Ok((is_text, after)) => {
                    has_other_bytes = has_other_bytes || !is_text;
                    after
                }
                Err(()) => return NoStep::NoKey(usage),
            }
        } else {
            let (word, after) = first_piece(text, b' ');
            if !is_part(part, word) {
                return not_so(usage, part);
            }
            after
        };
    }
    match left {
        Some(_) => NoStep::More(usage),
        None if has_other_bytes => NoStep::NoText(usage),
        // (what is left to be wrong is a plain key with a sign of repetition that repeats nothing)
        None => NoStep::NoKey(usage),
    }
}

fn is_key(part: &str) -> bool {
    part == "KEY" || part == "[LO" || part == "[HI]]"
}

// Whether a line may end before that part.
fn may_lack(part: &str) -> bool {
    part.as_bytes().starts_with(b"[")
}

// Whether a key is noted, or text of printable ASCII, and what stands after it and a space.
fn after_key(alloc: Global, text: &[u8]) -> Result<(bool, Option<&[u8]>), ()> {
    match noted_key(alloc, text) {
        Ok(Some((_, [b' ', after @ ..]))) => Ok((true, Some(after))),
        Ok(Some((_, []))) => Ok((true, None)),
        Ok(None) => {
            let (key, after) = first_piece(text, b' ');
            Ok((key.iter().all(|byte| byte.is_ascii_graphic()), after))
        }
        _ => Err(()),
    }
}

// What is wrong with a word that may not stand for that part.
fn not_so(usage: &'static str, part: &'static str) -> NoStep {
    match part {
        "NAME" => NoStep::NoName(usage),
        _ => NoStep::NoNumber(usage, part),
    }
}

// Whether this is a name, or a number, that may stand for that part; for that of a transaction also `.`.
fn is_part(part: &str, word: &[u8]) -> bool {
    match part {
        "NAME" => is_name(word),
        "N" => word == b".".as_slice() || number_of(word).is_some(),
        "PAGE" => page_of(word).is_ok(),
        _ => number_of(word).is_some(),
    }
}
