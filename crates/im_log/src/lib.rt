//! Which records are there, and which are durable?
//!
//! The log: records in turn, each with an LSN, of which a front is durable.
//!
//! Above this layer nobody speaks of bytes, batches or gates. There is a list of records, the newest first, and a front of it
//! that is durable. An append adds a record to the list, a force makes all of it durable, and a stop at any moment leaves a
//! front between the durable one and the whole. An LSN is the base and the place of a record's first byte in the file; LSNs
//! rise. Records wait for a force in a buffer that is made at the opening, of one batch of 16,384 bytes or of several: an append that
//! fits makes no device call and takes no memory, and one that does not fit forces first.
//!
//! `IsOpen` holds on any bytes and is asked and given by each call. `IsLog` says which list the log is, over a disk that tells
//! its bytes; what each call keeps of it stands in its clause `kept`. After a call that failed every later one is refused: how an append or
//! a force ends is one fact (`LogOutcome`).
//!
//! `LogFile::switch_log` goes on in the other file, where nothing waits: the log has no record then, and its first LSN is above all of the one from before, which is the
//! other log. A stop within leaves files whose current log is the one, with its records, or the other (`HasEither`).
//!
//! An opening reads the file into that buffer, by a length call and a read for as much as there is room for, and goes over the batches that came. So it takes
//! no more memory, and its calls go by the bytes of the log and not by the number of its batches.
//!
//! Nothing that was written is read again but by `read_at` and `read_span`: an append costs a copy of its record into the buffer, and
//! a force one write of what is buffered and one of a byte, however long the log is. `im_bench log --time` measures it on the model
//! disk; one run on four cores, for records of 50 bytes, in nanoseconds a record:
//!
//! | | log of 160 KB | log of 33 MB | by hand |
//! |---|---|---|---|
//! | append into the buffer | 26 | 28 | 1, a copy of the encoded bytes |
//! | append and force, four device calls | 91 to 165 | 159 to 168 | 52 to 63, the same calls |
//! | `read_at` of a waiting record | 24 | 25 | |
//! | `read_at` of a durable record, here and there in the file | 37 | 182 | |
//!
//! Which log a file's bytes are, `log_of` says by reading them. `logs_are_spelled` says it with no reading, by the spellings of the log's
//! records (`HasLogAt`): the log of a file is that one, and no other.
//!
//! It stands on gates for the batches, and on the codec of records.
#![tactic(auto)]

mod creation;
mod front;
mod log_file;
mod log_opening;
mod read_front;
mod spelling_laws;
mod whole;

pub use creation::open_or_create;
pub use log_file::LogFile;
pub use log_opening::{Opening, open_log};
pub use spelling_laws::logs_are_spelled;
pub use whole::whole_size;
