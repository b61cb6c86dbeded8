//! What stands in front of the first gate of a log whose batches have sums?
//!
//! The header of a log of the third format: how it is spelled, read and made.
//!
//! | Bytes | Content |
//! |---|---|
//! | 0 | made: 1 is made, any other byte is not |
//! | 1 to 8 | `ARIESIM3` |
//! | 9 to 12 | the page size, 4,096, big-endian |
//! | 13 | 1: a force makes two syncs; 0: one, where the disk keeps the premise on stops |
//! | 14 and 15 | zero |
//! | 16 to 23 | the generation, 1 to 2^62 - 1 |
//! | 24 to 31 | the base: the LSN of the file's first byte, up to 2^62 - 47 |
//! | 32 to 39 | the least number that a transaction of the log may have, from 1 on |
//! | 40 to 42 | the salt, which goes into the sum of each batch |
//! | 43 to 46 | the sum of bytes 1 to 42: the low 32 bits of SipHash-1-3 with keys 0 and 0, big-endian |
//! | 47 | the first gate |
//!
//! Numbers and first gate stand where the second format has them (`im_log_header`). Byte 0 is asked first, as there. A header whose sum is another, or
//! whose numbers are out of range, is none: so each changed bit of it is told, but for what 32 bits cannot tell.
//!
//! `header_in` reads bytes that are at hand, `read_third` a file. `make_third` makes an empty log of any file, also of one that has a log: byte 0 is closed,
//! the header and a closed first gate are written after it, and byte 0 is opened, each on the disk before the next. A stop within leaves the file as
//! it was, or not made, or the whole new log. `third_headers_say` is the law: a file has one header at most, which the bytes in front of the first
//! gate determine; by it the file shows its batches (`specs/Sums.antt` of im_base_disk); and no log of this format is one of the first two.
//!
//! No store has such a log yet. The crate stands on the trait `Disk` and on `im_log_header`.
#![tactic(auto)]

mod header;
pub mod headers_say;
mod making;
mod reading;
mod spelling;

pub use header::ThirdHeader;
pub use making::make_third;
pub use reading::{header_in, read_third};
