//! Entries as text, in two forms.
//!
//! The own form is the line `imstore entries N`, N lines `KEY ROWID`, with keys as users type them, and the line `imstore end N`, which a text may lack whose last
//! entry ends in a newline: so no text is taken that was cut within a number. The portable form is that which LMDB and
//! Berkeley DB dump and load: a head, from `VERSION=3` to `HEADER=END`; two lines an entry, its key and its row id in 8 bytes, the highest
//! first, each a space and hexadecimal digits; and `DATA=END`.

use crate::line_input::{LineInput, without_newline};
use crate::replies::print_keys;
use im_base_types::{Fault, Key, Rid};
use im_tool_look::noted_key;
use im_tool_words::bytes_of;
use std::alloc::Global;
use std::fmt::{Display, Formatter};
use std::io::Write;
use std::{fmt, io};

const TITLE: &[u8] = b"imstore entries ";

const END: &[u8] = b"imstore end ";

const VERSION: &[u8] = b"VERSION=3";

const HEAD: &[u8] = b"VERSION=3\nformat=bytevalue\ntype=btree\nHEADER=END\n";

const HEAD_END: &[u8] = b"HEADER=END";

const DATA_END: &[u8] = b"DATA=END";

/// How entries are written.
#[derive(Clone, Copy, Debug, PartialEq, Eq)]
pub enum Form {
    /// Keys as users type them, and row ids as numbers.
    Own,
    /// As LMDB and Berkeley DB dump and load them.
    Portable,
}

/// Writes what stands before so many entries.
pub fn write_head<W: Write>(writer: &mut W, form: Form, all: u64) -> io::Result<()> {
    match form {
        Form::Own => {
            writer.write_all(TITLE)?;
            writeln!(writer, "{all}")
        }
        Form::Portable => writer.write_all(HEAD),
    }
}

/// Writes some entries.
pub fn write_part<W: Write>(
    alloc: Global,
    writer: &mut W,
    form: Form,
    part: &[(Key, Rid)],
) -> io::Result<()> {
    match form {
        Form::Own => print_keys(alloc, writer, part),
        Form::Portable => write_pairs(alloc, writer, part),
    }
}

// Two lines an entry: its key and its row id.
fn write_pairs<W: Write>(alloc: Global, writer: &mut W, part: &[(Key, Rid)]) -> io::Result<()> {
    for (key, rid) in part {
        let digits = hex::encode(alloc, key.bytes())?;
        writeln!(writer, " {digits}")?;
        writeln!(writer, " {rid:016x}")?;
    }
    Ok(())
}

/// Writes what stands after so many entries.
pub fn write_end<W: Write>(writer: &mut W, form: Form, all: u64) -> io::Result<()> {
    match form {
        Form::Own => {
            writer.write_all(END)?;
            writeln!(writer, "{all}")
        }
        Form::Portable => {
            writer.write_all(DATA_END)?;
            writer.write_all(b"\n")
        }
    }
}

/// Why a line is none of a text of entries.
#[derive(Clone, Copy, Debug, PartialEq, Eq)]
pub enum WhyBad {
    /// The text does not begin as either form does.
    NoDump,
    /// The head of the portable form has another line, or is of another kind of index.
    Head,
    /// The text ends before its last entry, or within it.
    Ended,
    /// No key stands at the line's beginning.
    NoKey,
    /// No row id stands after the key.
    NoRid,
    /// The line of the portable form is not a space and pairs of hexadecimal digits.
    NoDigits,
    /// The row id of the portable form has not 8 bytes.
    OtherRid,
    /// Something follows the end of the portable form.
    More,
    /// What follows the last entry of the own form does not say that it ends there.
    OtherEnd,
}

impl WhyBad {
    fn words(self) -> &'static str {
        match self {
            WhyBad::NoDump =>
                "no dump begins so; one begins with `imstore entries COUNT` or `VERSION=3`",
            WhyBad::Head => "the head of a dump has no such line, or is of another kind of index",
            WhyBad::Ended => "the text ends before its last entry, or within it",
            WhyBad::NoKey =>
                "no key stands there: text without spaces, \"a b\" or x'6100', and then a space",
            WhyBad::NoRid =>
                "no row id stands after the key: a number from 0 to 18446744073709551615",
            WhyBad::NoDigits => "a space and pairs of hexadecimal digits are wanted",
            WhyBad::OtherRid => "a row id of 16 hexadecimal digits is wanted",
            WhyBad::More => "nothing may follow `DATA=END`",
            WhyBad::OtherEnd =>
                "after the last entry only `imstore end COUNT` may stand, with the count of the first line",
        }
    }
}

impl Display for WhyBad {
    fn fmt<W: fmt::Write>(&self, f: &mut Formatter<W>) -> fmt::Result {
        f.write_str(self.words())
    }
}

// Why an entry was not read.
enum Unread {
    Memory,
    Bad(WhyBad),
}

/// What comes next in a text of entries.
#[derive(Drop)]
pub enum Next {
    /// An entry, and the number of the line at which it stands.
    Entry(Vec<u8>, Rid, u64),
    /// No entry is left.
    End,
    /// The line of this number is none of such a text, or the text ends before it.
    Bad(u64, WhyBad),
    /// There was no memory for the line of this number.
    Memory(u64),
}

/// A text of entries that is read line by line.
#[derive(Drop)]
pub struct EntryText {
    // The line that was read last, and its number from 1.
    line: Vec<u8>,
    number: u64,
    form: Form,
    // Of a text in the own form: how many entries it says that it has, and how many of them were not read yet.
    all: u64,
    left: u64,
}

impl EntryText {
    /// No line was read.
    pub fn new(alloc: Global) -> EntryText {
        EntryText {
            line: Vec::new(alloc),
            number: 0,
            form: Form::Own,
            all: 0,
            left: 0,
        }
    }

    /// The number of the line that was read last, from 1.
    pub fn number(&self) -> u64 {
        self.number
    }

    /// How many entries the text says that it has. None where it does not say.
    pub fn all(&self) -> Option<u64> {
        match self.form {
            Form::Own => Some(self.all),
            Form::Portable => None,
        }
    }

    // Reads a line. It answers false at the end of the input.
    fn read_line<R: LineInput>(&mut self, reader: &mut R) -> io::Result<bool> {
        self.line.clear();
        self.number = self.number.saturating_add(1);
        reader.next_line(&mut self.line)
    }

    /// Reads what stands before the entries, in either form. It answers why that is bad, if it is.
    pub fn read_head<R: LineInput>(&mut self, reader: &mut R) -> io::Result<Option<WhyBad>> {
        if !self.read_line(reader)? {
            return Ok(Some(WhyBad::NoDump));
        }
        let first = without_newline(&self.line);
        if first == VERSION {
            self.form = Form::Portable;
            return self.read_portable_head(reader);
        }
        match first.strip_prefix(TITLE).and_then(number_of) {
            Some(count) => {
                self.all = count;
                self.left = count;
                Ok(None)
            }
            None => Ok(Some(WhyBad::NoDump)),
        }
    }

    // The lines `NAME=VALUE` to the end of the head.
    fn read_portable_head<R: LineInput>(&mut self, reader: &mut R) -> io::Result<Option<WhyBad>> {
        for _count in 0..u64::MAX {
            if !self.read_line(reader)? {
                return Ok(Some(WhyBad::Ended));
            }
            let line = without_newline(&self.line);
            if line == HEAD_END {
                return Ok(None);
            }
            if !is_head_line(line) {
                return Ok(Some(WhyBad::Head));
            }
        }
        Ok(Some(WhyBad::Head))
    }

    /// Reads the next entry.
    pub fn next_entry<R: LineInput>(&mut self, alloc: Global, reader: &mut R) -> io::Result<Next> {
        match self.form {
            Form::Own => self.next_own(alloc, reader),
            Form::Portable => self.next_pair(alloc, reader),
        }
    }

    fn next_own<R: LineInput>(&mut self, alloc: Global, reader: &mut R) -> io::Result<Next> {
        if self.left == 0 {
            return self.end_own(reader);
        }
        self.left -= 1;
        if !self.read_line(reader)? {
            return Ok(Next::Bad(self.number, WhyBad::Ended));
        }
        let at = self.number;
        Ok(match entry_of(alloc, without_newline(&self.line)) {
            Ok((key, rid)) => Next::Entry(key, rid, at),
            Err(unread) => refused_at(unread, at),
        })
    }

    fn next_pair<R: LineInput>(&mut self, alloc: Global, reader: &mut R) -> io::Result<Next> {
        if !self.read_line(reader)? {
            return Ok(Next::Bad(self.number, WhyBad::Ended));
        }
        let at = self.number;
        let line = without_newline(&self.line);
        if line == DATA_END {
            return self.end_pairs(reader);
        }
        let key = match value_of(alloc, line) {
            Ok(key) => key,
            Err(unread) => return Ok(refused_at(unread, at)),
        };
        if !self.read_line(reader)? {
            return Ok(Next::Bad(self.number, WhyBad::Ended));
        }
        Ok(match rid_of(alloc, without_newline(&self.line)) {
            Ok(rid) => Next::Entry(key, rid, at),
            Err(unread) => refused_at(unread, self.number),
        })
    }

    // The end of a text says how many entries there were. One without it is taken where its last line was not cut.
    fn end_own<R: LineInput>(&mut self, reader: &mut R) -> io::Result<Next> {
        let is_whole = self.line.ends_with(b"\n");
        let last = self.number;
        if !self.read_line(reader)? {
            if is_whole {
                return Ok(Next::End);
            }
            return Ok(Next::Bad(last, WhyBad::Ended));
        }
        let counted = without_newline(&self.line)
            .strip_prefix(END)
            .and_then(number_of);
        if counted == Some(self.all) {
            return Ok(Next::End);
        }
        Ok(Next::Bad(self.number, WhyBad::OtherEnd))
    }

    // No second dump may follow: it would be another store's.
    fn end_pairs<R: LineInput>(&mut self, reader: &mut R) -> io::Result<Next> {
        if self.read_line(reader)? {
            return Ok(Next::Bad(self.number, WhyBad::More));
        }
        Ok(Next::End)
    }
}

fn refused_at(unread: Unread, at: u64) -> Next {
    match unread {
        Unread::Memory => Next::Memory(at),
        Unread::Bad(why) => Next::Bad(at, why),
    }
}

// What a refusal of text means here.
fn why_unread(fault: Fault, why: WhyBad) -> Unread {
    match fault {
        Fault::Memory => Unread::Memory,
        _ => Unread::Bad(why),
    }
}

// A line of the head of the portable form: any `NAME=VALUE`, but for values that are not written as hexadecimal digits, and for entries
// without keys.
fn is_head_line(line: &[u8]) -> bool {
    if line.starts_with(b"format=") {
        return line == b"format=bytevalue".as_slice();
    }
    if line.starts_with(b"type=") {
        return line == b"type=btree".as_slice() || line == b"type=hash".as_slice();
    }
    line.contains(&b'=')
}

// The bytes of a line of the portable form.
fn value_of(alloc: Global, line: &[u8]) -> Result<Vec<u8>, Unread> {
    match line {
        [b' ', digits @ ..] => {
            bytes_of(alloc, digits).map_err(|fault| why_unread(fault, WhyBad::NoDigits))
        }
        _ => Err(Unread::Bad(WhyBad::NoDigits)),
    }
}

// The row id of a line of the portable form: 8 bytes, the highest first.
fn rid_of(alloc: Global, line: &[u8]) -> Result<Rid, Unread> {
    let bytes = value_of(alloc, line)?;
    match bytes.as_slice() {
        [a, b, c, d, e, f, g, h] => { Ok(u64::from_be_bytes([*a, *b, *c, *d, *e, *f, *g, *h])) }
        _ => Err(Unread::Bad(WhyBad::OtherRid)),
    }
}

// A key and its row id, in a line of the own form.
fn entry_of(alloc: Global, line: &[u8]) -> Result<(Vec<u8>, Rid), Unread> {
    let noted = match noted_key(alloc, line) {
        Ok(noted) => noted,
        Err(fault) => return Err(why_unread(fault, WhyBad::NoKey)),
    };
    let (key, rest) = match noted {
        Some(noted) => noted,
        None => plain_key(alloc, line)?,
    };
    match rest {
        [b' ', digits @ ..] => match number_of(digits) {
            Some(rid) => Ok((key, rid)),
            None => Err(Unread::Bad(WhyBad::NoRid)),
        },
        _ => Err(Unread::Bad(WhyBad::NoRid)),
    }
}

// The text before the first space, and what stands from that space on.
fn plain_key(alloc: Global, line: &[u8]) -> Result<(Vec<u8>, &[u8]), Unread> {
    for place in 0..line.len() {
        if line[place] == b' ' {
            let key = Vec::from_slice(alloc, &line[..place]).map_err(|_| Unread::Memory)?;
            return Ok((key, &line[place..]));
        }
    }
    Err(Unread::Bad(WhyBad::NoKey))
}

fn number_of(digits: &[u8]) -> Option<u64> {
    if digits.first().copied() == Some(b'+') {
        return None;
    }
    match std::str::from_utf8(digits) {
        Ok(text) => text.parse::<u64>().ok(),
        Err(_) => None,
    }
}
