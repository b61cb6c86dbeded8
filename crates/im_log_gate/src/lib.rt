//! How is a batch made durable, whole or not at all? Which batches does a file have?
//!
//! Batches of bytes in a log file, each on the disk before its gate is opened.
//!
//! # The file
//!
//! | Bytes | Content |
//! |---|---|
//! | 0 | made: 1 is made, any other byte is not |
//! | 1 to 8 | `ARIESIM1` |
//! | 9 to 12 | the page size, 4,096, big-endian |
//! | 13 to 30 | zero |
//! | 31 | the first gate |
//!
//! This is the first format. In the second the name ends in `2`, the header has a generation, a base and a number (`im_log_header`), and the
//! first gate stands at byte 47. A file is opened in either; its first gate has an LSN, the base and its place, of 2^62 at most.
//!
//! A gate is a byte: 1 is open, any other is closed. After a gate stand four bytes of length, big-endian, then so
//! many bytes of records, 1 to 16,384, then the next gate. A batch counts if and only if its gate and every gate in
//! front of it are open (`batches`). An open gate whose length is out of range, or whose records or next gate lie past the
//! end of the file, is refused, and the file with it. What stands after a closed gate means nothing.
//!
//! # A put
//!
//! `Gate::put_batch` makes four device calls: it writes all that stands after the closed gate (length, records,
//! and the next gate as 0), syncs, writes the gate as 1, and syncs. A stop up to the third call leaves the batches as they were;
//! one in the third or fourth leaves them so or with the new batch; once the call answered Ok, every stop leaves the
//! new batch. No call is made after one that failed: the gate has then failed, and refuses every later call.
//!
//! `Gate::create` closes byte 0 and syncs (only where the file has at most one byte: any other is closed already), writes the
//! header and a closed first gate after it and syncs, and writes byte 0 as 1 and syncs: six device calls or four. A stop
//! within leaves a file that is not made, or a made one with no batch, of the first format.
//!
//! `Gate::switch_log` makes the other log file one of the second format with no batch, and goes on in it; `Gate::next_header` says with which header: of the
//! next generation, and with the LSN of this gate as its base. A stop within leaves the one log or the other as the current one.
//!
//! # Reading
//!
//! `Gate::read_into` reads one batch, by a length call and three reads. `Gate::read_ahead` fills a room with what the file has from the gate on,
//! by a length call and one read. In these bytes `Gate::pass` goes past one batch after another, and `Gate::is_closed` sees the gate that ends the
//! log, both with no call: so many short batches cost no more than one read of their bytes. A batch of which the room does not have all is read again,
//! from its gate on or alone. So is one that the format refuses, which `read_into` then tells.
//!
//! # What it stands on, and its invariant
//!
//! It stands on the trait `Disk`, on headers and on how a log goes on in the other file (`im_log_choice`), and makes each change by a write and a sync of one range (`write_synced`). The invariant of a gate
//! is `IsReady`: the gate stands after whole batches and is closed, and all of its file is on the disk. While the
//! batches are read it is `IsReading`, which leaves the gate open. Both hold of a failed gate, and outlive calls on the other files
//! (`ready_spared`, `reading_spared` in the proofs). What is said of bytes is said of a disk that tells them. How a put ends is one fact
//! (`PutOutcome`), and how the next batch is read another (`BatchRead`).
#![tactic(auto)]

mod ahead;
mod creation;
mod gate;
mod put;
mod read_start;
mod size;

pub use ahead::{AHEAD, is_open, length_of};
pub use gate::{FIRST_GATE, Gate};
pub use im_log_header::Header;
pub use put::seal;
