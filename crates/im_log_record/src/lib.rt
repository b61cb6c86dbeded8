//! Which bytes are a record?
//!
//! The records of the log as bytes: each record has one spelling, and each spelling one record.
//!
//! `Record` has a variant for each of the eleven kinds, with the fields that the kind uses. Keys, page images and
//! the lists of a checkpoint are borrowed, so neither writing nor reading takes memory. `Record::encode` writes a
//! record after the first bytes of a buffer, in one pass. `decode` reads the record that bytes spell, all of them,
//! and `decode_front` the one at the front of a batch. The bytes come from a disk and may be anything: whatever is
//! no spelling is refused `NotAStore`.
//!
//! The grammar stands in `specs/Spelling`: `spelling` has the bytes of each kind, `IsEntry` says which records have
//! a spelling. `decode` gives a record exactly where the bytes are its spelling. `entry_of` and `first_entry` of
//! `specs/Reading` are the same as functions of bytes, for the layers that define a log by its bytes; `law_spellings`
//! has the laws that tie the two, and that a record's length, at least 33, stands in its first four bytes. Who walks over records and reads no
//! payload asks their first bytes alone (`size_of`, `kind_of`, `transaction_of`, `page_of`, of `specs/FirstBytes`).
//!
//! It stands on `im_base_types` for faults and the rows of a checkpoint's tables. Pages in records are bytes here: who
//! uses them reads them. An insert record of an 8-byte key is written in about 3.5 nanoseconds and read in about 7;
//! a loop in C takes 3 and 5.
#![tactic(auto)]

mod active_list;
mod decoding;
mod dirty_list;
mod each_kind;
mod fields;
mod first_bytes;
mod kind;
mod payloads;
mod record;
mod spelling_laws;
mod writing;

pub use active_list::ActiveList;
pub use decoding::{decode, decode_front};
pub use dirty_list::DirtyList;
pub use first_bytes::{HEAD, kind_of, page_of, size_of, transaction_of};
pub use kind::Kind;
pub use record::Record;
pub use spelling_laws::{law_spellings, read_back};
