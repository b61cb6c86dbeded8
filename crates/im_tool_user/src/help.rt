//! What the program says of its lines to a user who asks.

use std::io;
use std::io::Write;

/// Each line that asks for something: how it is written, what it does, and what else is to be known of it.
static LINES: [(&str, &str, &str); 27] = [
    (
        "put KEY ROWID",
        "puts a key in, or gives it another row id, and keeps that",
        "A transaction by itself, kept once it answers `committed`. Refused 15 where an active transaction is in the way.",
    ),
    (
        "get KEY",
        "answers the row id of a key",
        "Answers it, or `absent`. What active transactions changed is refused, 15.",
    ),
    (
        "del KEY",
        "takes a key out, and keeps that",
        "A transaction by itself, kept once it answers `committed`; or it answers `absent`. Refused 15 where an active transaction is in the way.",
    ),
    (
        "list [LO [HI]]",
        "all keys, or those from LO on, or from LO to HI",
        "Answers `total COUNT` and a line for each, as they are at one moment. What active transactions changed is refused, 15.",
    ),
    (
        "begin",
        "a transaction begins; its number is answered",
        "Numbers rise, also from one run to the next. Refused 12 where 64 transactions are active.",
    ),
    (
        "insert N KEY ROWID",
        "puts a key in, in transaction N",
        "Answers `inserted`, or `duplicate` where the key is there: to give it another row id, delete it first.",
    ),
    (
        "delete N KEY",
        "takes a key out",
        "Answers `deleted`, or `absent` where the key is not there.",
    ),
    (
        "fetch N KEY",
        "answers the row id of a key",
        "Answers `found ROWID`, or `absent`.",
    ),
    (
        "seek N KEY",
        "answers the first key from this one on, with its row id",
        "Answers `entry KEY ROWID`, or `end` where no such key is left.",
    ),
    (
        "next N KEY",
        "answers the first key after this one, with its row id",
        "Answers `entry KEY ROWID`, or `end` where no such key is left.",
    ),
    (
        "prev N KEY",
        "answers the last key before this one, with its row id",
        "Answers `entry KEY ROWID`, or `end` where no such key is there.",
    ),
    (
        "scan N KEY KEY LIMIT",
        "answers the keys from one to another, LIMIT at most",
        "A LIMIT above 256 is taken for 256, and 0 for 1. Where a scan stops for that, it says how to go on.",
    ),
    (
        "commit N",
        "what transaction N did is kept from now on",
        "Only the answer `committed` says so. Then it is kept over a kill and a power cut too.",
    ),
    (
        "rollback N",
        "takes back what transaction N did: at once, or step by step",
        "Answers `rolledback`; or `more`, and then `continue N` until that answers `rolledback`.",
    ),
    (
        "changes N",
        "how many changes of transaction N stand, to return to by `rollto`",
        "Answers `changes COUNT`: one for each `inserted` and each `deleted` that was not taken back.",
    ),
    (
        "rollto N COUNT",
        "takes back the newest changes of transaction N until COUNT are left",
        "Answers `done` where no more stand; or `more`, and then `continue N` until that answers `done`. N goes on, also after `die`, with all of its locks. `rollto N NAME` does so to the COUNT of a savepoint.",
    ),
    (
        "savepoint N NAME",
        "gives the changes of transaction N that stand a name, for `rollto N NAME`",
        "Answers `savepoint COUNT`. NAME begins with a letter, and has 32 bytes at most. It is forgotten once N has ended, or fewer stand; noted again, it is here. Refused 12 where 64 savepoints have names.",
    ),
    (
        "continue N",
        "takes back the next of it",
        "Answers `more` while something is left to be taken back, and then `rolledback`, or `done` after `rollto`.",
    ),
    (
        "entries",
        "all keys with their row ids",
        "Answers `total COUNT` and a line for each, those of active transactions too.",
    ),
    (
        "force",
        "makes the log durable",
        "A commit does that by itself.",
    ),
    (
        "flush PAGE",
        "writes a page to the file of pages",
        "Pages are written by themselves where there is need.",
    ),
    (
        "checkpoint",
        "makes the log durable, with a record that says where a restart begins to redo",
        "One is taken as the option --checkpoint says, and one at the end.",
    ),
    (
        "switch",
        "goes on in the other log, empty, so that the next opening reads nothing of this one",
        "One is made as the option --switch says, and a long log is left so at the end. Refused while a transaction is active.",
    ),
    (
        "redo",
        "where the opening began to redo the log, and how many records it applied",
        "Answers `redo POINT COUNT`.",
    ),
    (
        "copy FOLDER",
        "copies the store, as a stop now would leave it, into a new folder",
        "Answers `copied N`, N bytes, and then the copy is a store, with what was committed. The folder is made, or is empty. This one goes on, also where the copy is refused.",
    ),
    (
        "help [WORD]",
        "this list, or more on one of its words",
        "The words are the first of each line, and `KEY`, `N`, `blocked`, `die`, `more`.",
    ),
    (
        "quit",
        "ends the program, as the end of the input does",
        "What was not committed is taken back when the store is opened again.",
    ),
];

const NOTES: &str =
    "KEY is text without spaces, \"text with spaces\", or x'6100'. Up to 64 transactions are active at a time.
N is the number of a transaction, or `.` for the one begun last. `put`, `get`, `del` and `list` are a transaction by themselves.
A step that is `blocked` is asked for again once that transaction has ended; after `die` its transaction has to roll back.
";

/// The words that begin no line.
static WORDS: [(&str, &str); 5] = [
    (
        "KEY",
        "A key has 1 to 255 bytes. It is text without spaces, where a+b*3 stands for abbb; \"a b\", any bytes but a quotation mark; or x'6100', in hexadecimal digits.",
    ),
    (
        "N",
        "The number of a transaction, as `begin` answered it, or `.` for the one that the last `begin` of this run began.",
    ),
    (
        "blocked",
        "`blocked lock T`: nothing was done. Make the same step again once transaction T has ended.",
    ),
    (
        "die",
        "Nothing was done: an older transaction is in the way. `rollback N`, `continue N` while there is `more`, and begin again. `rollto N COUNT` goes on without this step.",
    ),
    ("more", "Something is left to be taken back: `continue N`."),
];

/// Writes all lines that may be written, and what they do.
pub fn write_help<W: Write>(writer: &mut W) -> io::Result<()> {
    for (usage, what, _) in &LINES {
        writeln!(writer, "{usage:<24} {what}")?;
    }
    writer.write_all(NOTES.as_bytes())
}

/// Writes what is to be known of a word. It answers whether there is such a word.
pub fn write_help_on<W: Write>(writer: &mut W, word: &[u8]) -> io::Result<bool> {
    for (usage, what, more) in &LINES {
        if is_of(usage, word) {
            writeln!(writer, "{usage:<24} {what}")?;
            writeln!(writer, "{more}")?;
            return Ok(true);
        }
    }
    for (other, more) in &WORDS {
        if other.as_bytes() == word {
            writeln!(writer, "{more}")?;
            return Ok(true);
        }
    }
    Ok(false)
}

/// How the line of a word is written.
pub(crate) fn usage_of(word: &[u8]) -> Option<&'static str> {
    for (usage, _, _) in &LINES {
        if is_of(usage, word) {
            return Some(usage);
        }
    }
    None
}

// The line that is written so begins with this word.
fn is_of(usage: &str, word: &[u8]) -> bool {
    match usage.as_bytes().strip_prefix(word) {
        Some(rest) => !word.is_empty() && (rest.is_empty() || rest.starts_with(b" ")),
        None => false,
    }
}
