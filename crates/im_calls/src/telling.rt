//! Replies as answers.

ghost use Rattle.std.specs.Prelude.{◌≤◌, ◌++◌, List, ℕ, length};
ghost use Rattle.im_base_types.specs.Faults.{number_of};
ghost use Rattle.im_base_steps.specs.Calls.{told_by};
ghost use Rattle.im_calls.specs.Calls.{Tells, TellsWord, Refuses, Shows, BeginsWith, IsAnswered, entry_bytes, entries_bytes, numbers_bytes};

use crate::call::Call;
use im_base_steps::{Blocker, Reply};
use im_base_types::{Fault, Key, Rid};

/// Puts what a reply says in the place of the answer.
pub fn answer(call: &mut Call, reply: &Reply)
    ensures told { Tells call.new (told_by reply.now) }
    ensures question { IsAnswered call.old call.new }
{
    match reply {
        Reply::Started(t) => tell(call, 0, *t),
        Reply::Found(rid) => tell(call, 1, *rid),
        Reply::Absent => tell(call, 2, 0),
        Reply::Entry(key, rid) => tell_entry(call, key, *rid),
        Reply::End => tell(call, 4, 0),
        Reply::Entries(list) => tell_entries(call, list.as_slice()),
        Reply::Inserted => tell(call, 6, 0),
        Reply::Duplicate => tell(call, 7, 0),
        Reply::Deleted => tell(call, 8, 0),
        Reply::Committed => tell(call, 9, 0),
        Reply::RolledBack => tell(call, 10, 0),
        Reply::More => tell(call, 11, 0),
        Reply::Blocked(Blocker::Lock(t)) => tell(call, 12, *t),
        Reply::Blocked(Blocker::Tree) => tell(call, 16, 0),
        Reply::Die => tell(call, 13, 0),
        Reply::Done => tell(call, 14, 0),
        Reply::Refused(fault) => refuse(call, *fault),
    }
}

/// Answers a refusal by its number.
pub fn refuse(call: &mut Call, fault: Fault)
    ensures told { Refuses call.new (number_of fault) }
    ensures question { IsAnswered call.old call.new }
{
    tell(call, 15, 0);
    call.fault = u32::from(fault.number());
}

/// Answers that it is done, with numbers.
pub fn tell_numbers(call: &mut Call, numbers: &[u64])
    ensures told { TellsWord call.new 14 (length numbers.now) }
    ensures shown { Shows call.new (numbers_bytes numbers.now) }
    ensures question { IsAnswered call.old call.new }
{
    tell(call, 14, numbers.len() as u64);
    call.out_len = put_numbers(&mut call.out, numbers) as u64;
}

/// Answers a word with its number.
pub fn tell(call: &mut Call, word: u32, number: u64)
    ensures told { TellsWord call.new word number }
    ensures question { IsAnswered call.old call.new }
{
    call.word = word;
    call.fault = 0;
    call.number = number;
    call.out_len = 0;
}

fn tell_entry(call: &mut Call, key: &Key, rid: Rid)
    ensures told { TellsWord call.new 3 1 }
    ensures shown { Shows call.new (entry_bytes (key.now, rid)) }
    ensures question { IsAnswered call.old call.new }
{
    tell(call, 3, 1);
    call.out_len = put_entry(&mut call.out, 0, key, rid) as u64;
}

fn tell_entries(call: &mut Call, list: &[(Key, Rid)])
    ensures told { TellsWord call.new 5 (length list.now) }
    ensures shown { Shows call.new (entries_bytes list.now) }
    ensures question { IsAnswered call.old call.new }
{
    tell(call, 5, list.len() as u64);
    call.out_len = put_entries(&mut call.out, list) as u64;
}

// Puts entries into the buffer; where they end.
fn put_entries(out: &mut [u8], list: &[(Key, Rid)]) -> usize
    ensures { BeginsWith out.new result (entries_bytes list.now) }
{
    let mut at = 0;
    for entry in list {
        at = put_entry(out, at, &entry.0, entry.1);
    }
    at
}

// Puts numbers into the buffer; where they end.
fn put_numbers(out: &mut [u8], numbers: &[u64]) -> usize
    ensures { BeginsWith out.new result (numbers_bytes numbers.now) }
{
    let mut at = 0;
    for number in numbers {
        at = put(out, at, &number.to_le_bytes());
    }
    at
}

// Puts an entry into the buffer from a place on; where it ends.
fn put_entry(out: &mut [u8], at: usize, key: &Key, rid: Rid) -> usize
    requires { at ≤ length out.old }
    ensures within { result ≤ length out.new }
    ensures put { (before : List ℕ) → BeginsWith out.old at before → BeginsWith out.new result (before ++ entry_bytes (key.now, rid)) }
{
    let at = put(out, at, &[key.bytes().len() as u8]);
    let at = put(out, at, key.bytes());
    put(out, at, &rid.to_le_bytes())
}

// Puts bytes into the buffer from a place on, as many as it has room for; where they end.
fn put(out: &mut [u8], at: usize, bytes: &[u8]) -> usize
    requires { at ≤ length out.old }
    ensures within { result ≤ length out.new }
    ensures put { (before : List ℕ) → BeginsWith out.old at before → BeginsWith out.new result (before ++ bytes.now) }
{
    let count = bytes.len().min(out.len() - at);
    out[at..at + count].copy_from_slice(&bytes[..count]);
    at + count
}
