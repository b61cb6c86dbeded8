//! How lines are read, and how refusals and prompts are written.

use crate::help::{write_help, write_help_on};
use crate::words_step::words_step;
use im_base_steps::Step;
use im_base_types::Fault;
use im_tool_words::step_line;
use std::alloc::Global;
use std::fmt::Display;
use std::io;
use std::io::Write;

/// How lines are read and replies are written.
#[derive(Clone, Copy, Debug, Default, PartialEq, Eq)]
pub struct Manner {
    /// Refusals are told in words, and keys are written and read so that they can be typed.
    pub has_words: bool,
    /// A prompt stands in front of each line.
    pub has_prompt: bool,
    /// The first line that is refused ends the run.
    pub is_batch: bool,
    /// The store is only read: a line that would change it is refused.
    pub is_read: bool,
}

impl Manner {
    /// The same, in words.
    pub(crate) fn in_words(self) -> Manner {
        let mut manner = self;
        manner.has_words = true;
        manner
    }
}

/// The number that is printed where a line would change a store that is only read. The engine has no such refusal.
pub const ONLY_READ: u8 = 110;

/// Whether a step asks for a change, of the entries or of the files.
pub(crate) fn is_change(step: &Step) -> bool {
    match step {
        Step::Insert(..)
        | Step::Delete(..)
        | Step::Force
        | Step::FlushPage(_)
        | Step::Checkpoint
        | Step::Switch => true,
        Step::Begin
        | Step::Fetch(..)
        | Step::Seek(..)
        | Step::Next(..)
        | Step::Prev(..)
        | Step::Scan(..)
        | Step::Commit(_)
        | Step::Rollback(_)
        | Step::Continue(_)
        | Step::RollTo(..) => false,
    }
}

/// Refuses a line that would change a store that is only read.
pub fn refuse_change<W: Write>(writer: &mut W, manner: Manner) -> io::Result<()> {
    print_refused(writer, manner, ONLY_READ, &"the store is only read")?;
    Ok(())
}

/// Writes a prompt, where there is one.
pub fn print_prompt<W: Write>(manner: Manner, writer: &mut W) -> io::Result<()> {
    if manner.has_prompt {
        writer.write_all(b"> ")?;
    }
    Ok(())
}

/// Ends the line of the last prompt, after which the input ended.
pub fn end_prompt<W: Write>(manner: Manner, writer: &mut W) -> io::Result<()> {
    if manner.has_prompt {
        writeln!(writer)?;
    }
    Ok(())
}

/// The step that a line asks for, in the notation of keys that is wanted.
///
/// Refused `BadScript` where the line asks for none; `Memory`.
pub(crate) fn step_in(alloc: Global, manner: Manner, line: &[u8]) -> Result<Step, Fault> {
    if manner.has_words {
        words_step(alloc, line)
    } else {
        step_line(alloc, line)
    }
}

/// Writes a refusal, and answers it.
pub fn refuse<W: Write>(writer: &mut W, manner: Manner, fault: Fault) -> io::Result<Option<Fault>> {
    print_refused(writer, manner, fault.number(), &fault)?;
    Ok(Some(fault))
}

/// Whether a line is `help`, or begins with that word.
pub fn is_help(line: &[u8]) -> bool {
    line == b"help".as_slice() || line.starts_with(b"help ")
}

/// Writes the lines that may be written, or what is to be known of a word; and answers the refusal of one that there is not.
pub fn run_help<W: Write>(
    manner: Manner,
    line: &[u8],
    writer: &mut W,
) -> io::Result<Option<Fault>> {
    let Some(word) = line.strip_prefix(b"help ") else {
        write_help(writer)?;
        return Ok(None);
    };
    if write_help_on(writer, word)? {
        return Ok(None);
    }
    let number = Fault::BadScript.number();
    let words = "a bad line: `help` has no such word, alone it has all lines";
    print_refused(writer, manner, number, &words)?;
    Ok(Some(Fault::BadScript))
}

/// Writes a refusal by its number, and in words where they are wanted. It answers true.
pub fn print_refused<W: Write, F: Display>(
    writer: &mut W,
    manner: Manner,
    number: u8,
    words: &F,
) -> io::Result<bool> {
    if manner.has_words {
        writeln!(writer, "refused {number}: {words}")?;
    } else {
        writeln!(writer, "refused {number}")?;
    }
    Ok(true)
}
