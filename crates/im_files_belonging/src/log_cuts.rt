//! What may go of the logs of a closed store: of the one that was left all after its first batch, of the current one, where it has no record, all after its closed gate.
ghost use Rattle.std.specs.Prelude.{◌≡◌, ◌≤◌};
ghost use Rattle.im_files_belonging.specs.LogCuts.{end_at, length_kept, first_end, gone_of, has_batch_at, is_empty, kept_at, kept_of, log_cuts_of, size_at, was_left, CutsAreSound};

use crate::folder::{Folder, Front};
use crate::fronts::{first_gate, generation, is_made, is_open, is_second};
use crate::pages::{current_of, has_current_other, left_of};
use im_base_types::LONGEST_BATCH;
use im_log_gate::{AHEAD, length_of};
use im_log_record::HEAD;

/// How much of the logs of a closed store stays, and how much may go. An opening reads no byte of the log that was left but its header, and then, to tell an older file of pages, one
/// record after another from the first: what stays tells a file of pages from before that log, and one from that log's own time no more. Of the current log it reads nothing after the
/// closed gate with which that ends.
#[repr(C)]
#[derive(Clone, Copy, Debug, PartialEq, Eq)]
pub struct LogCuts {
    /// So many bytes of the log that was left stay: its header, and the first batch without the gate after it, so that no opening takes the file for a store by itself. 0 where nothing may go.
    pub kept: u64,
    /// So many come after these, and may go. 0 where nothing may.
    pub gone: u64,
    /// So many bytes of the current log stay: its header, and the closed gate. 0 where nothing may go.
    pub end: u64,
    /// So many come after these, and may go. 0 where nothing may.
    pub after: u64,
    /// The log that was left is `log2`.
    pub is_log2: bool,
}

// How long the records of the batch after the gate at this place are.
fn batch_size(front: &Front, gate: usize) -> u32
    requires within { gate ≤ 60 }
    ensures { result ≡ size_at gate front.now }
{
    length_of(&front.bytes[gate + 1..])
}

// Where they end.
fn batch_end(front: &Front, gate: usize) -> u64
    requires within { gate ≤ 60 }
    ensures { result ≡ end_at gate front.now }
{
    gate as u64 + AHEAD as u64 + u64::from(batch_size(front, gate))
}

// The batch after the gate at this place is there.
fn has_batch(front: &Front, gate: usize) -> bool
    requires within { gate ≤ 60 }
    ensures { result ≡ has_batch_at gate front.now }
{
    let size = u64::from(batch_size(front, gate));
    let end = batch_end(front, gate);
    im_log_gate::is_open(front.bytes[gate])
        && HEAD as u64 <= size
        && size <= LONGEST_BATCH as u64
        && end <= front.long
}

// The end of that batch, 0 where it is not there.
fn end_if_there(front: &Front, gate: usize) -> u64
    requires within { gate ≤ 60 }
    ensures { result ≡ kept_at gate front.now }
{
    if has_batch(front, gate) {
        batch_end(front, gate)
    } else {
        0
    }
}

// The end of the first batch of a log that was made, 0 where it does not begin with one.
fn end_of_first(front: &Front) -> u64
    ensures { result ≡ first_end front.now }
{
    if is_made(front) {
        end_if_there(front, first_gate(front) as usize)
    } else {
        0
    }
}

// A log of an earlier generation than the current one was left for it.
fn was_left_for(folder: &Folder) -> bool
    ensures { result ≡ was_left folder.now }
{
    let current = current_of(folder);
    let left = left_of(folder);
    is_made(&left) && generation(&left) < generation(&current)
}

// How much of the log that was left stays; 0 where there is none, or nothing of it may go.
fn kept_bytes(folder: &Folder) -> u64
    ensures { result ≡ kept_of folder.now }
{
    let left = left_of(folder);
    if was_left_for(folder) {
        end_of_first(&left)
    } else {
        0
    }
}

// The log, of the second format, has no record.
fn has_no_record(front: &Front) -> bool
    ensures { result ≡ is_empty front.now }
{
    is_second(front) && !is_open(front)
}

// How much of the current log stays; 0 where nothing of it may go.
fn end_bytes(folder: &Folder) -> u64
    ensures { result ≡ length_kept folder.now }
{
    let current = current_of(folder);
    if was_left_for(folder) && has_no_record(&current) {
        first_gate(&current) + 1
    } else {
        0
    }
}

// How much of a log comes after so much that stays.
fn gone_bytes(front: &Front, kept: u64) -> u64
    ensures { result ≡ gone_of kept front.now }
{
    if kept == 0 {
        0
    } else {
        front.long.saturating_sub(kept)
    }
}

impl LogCuts {
    /// What may be cut of the logs in a folder, by their beginnings. Nothing where none was left, and where the other log was not made: that one may be a newer log whose first byte was
    /// damaged. Of the log that was left nothing where it does not begin with a whole batch, of the current one nothing where it has a record: in use it has room there for its next
    /// batches. Who cuts has the current log on the disk before: without the other one a power cut would leave none.
    pub fn of(folder: &Folder) -> LogCuts
        ensures { result ≡ log_cuts_of folder.now }
    {
        let kept = kept_bytes(folder);
        let end = end_bytes(folder);
        LogCuts {
            kept,
            gone: gone_bytes(&left_of(folder), kept),
            end,
            after: gone_bytes(&current_of(folder), end),
            is_log2: !has_current_other(folder),
        }
    }
}

/// No cut makes another verdict over the folder: what is refused after it was before, and what is taken is taken still. A law, and nothing that runs.
pub fn cuts_are_sound()
    ensures { CutsAreSound }
{}
