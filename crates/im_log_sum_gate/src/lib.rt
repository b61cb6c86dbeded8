//! How is a batch put by one write and one sync? Which batches does such a log have?
//!
//! Batches with sums in a log file of the third format.
//!
//! # The file
//!
//! `im_log_third_header` has the bytes in front of the first gate, which stands at byte 47. A gate is a byte. After a gate of 1 stand four bytes of length,
//! big-endian, from 9 to 16,384, then the records, then the sum in eight bytes, which the length counts, then the next gate. The sum is SipHash-1-3
//! (keys 0 and 0) of the salt, the LSN of the gate, the gate, the length and the records, big-endian (`specs/Sums.antt` of im_base_disk).
//! A batch counts if its gate is 1, it and the next gate lie within the file, and its sum fits. The log is the front of batches that count
//! (`batches`). Nothing is refused: what does not count ends the log.
//!
//! Only 1 opens a gate. A stop within the write of that byte may leave any other there, and then no batch counts behind it, so the next put
//! writes behind it and then the byte. Where a put of all at once was torn the byte may be 1 over a batch that does not count. It is closed first:
//! whatever a stop leaves of that byte, none counts either. So no put is ever stuck, on whatever disk.
//!
//! # A put
//!
//! `SumGate::put` makes one write and one sync where the disk keeps the premise on stops (`keeps_sums`), the header does not ask for two syncs, and the
//! range is known to show nothing: zeros that were written and synced, or the end of the file. Else it makes two of each, behind the gate and then
//! the gate, which want no premise, and one of each more to close a gate that is 1. What it writes ends in zeros up to the end of the caller's room, so that later puts there make one sync.
//! A stop at any moment leaves the batches from before and a front of these, each whole.
//!
//! `seal` gives a batch in a room its gate, its length and its sum. `SumGate::read_into` reads one batch, and tells where the log ends.
//! `sum_gates_hold` is the law under it, over plain data, and stands on that of `im_log_one_sync`.
//!
//! The invariant is `IsReady`: the log ends at the gate, all of its file is on the disk, and from the gate up to a place that it keeps the
//! file shows nothing. While the batches are read it is `IsReading`.
//!
//! No store has such a log yet.
#![tactic(auto)]

mod gate;
pub mod law;
mod putting;
mod reading;
mod sealing;

pub use gate::SumGate;
pub use sealing::seal;
