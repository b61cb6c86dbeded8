//! Bytes as a record.
ghost use Rattle.std.specs.Prelude.{◌≡◌, ◌++◌, ℕ, List, IfOk, Option, Some};
ghost use Rattle.im_log_record.specs.Entry.{Entry, view};
ghost use Rattle.im_log_record.specs.Spelling.{Spells, IsEntry, spelling};
ghost use Rattle.im_log_record.specs.Reading.{Reads, Gives, entry_of, first_entry};

use crate::each_kind::record_of_kind;
use crate::fields::{head_of, part_of, word32_of};
use crate::kind::Kind;
use crate::record::Record;
use im_base_types::Fault;

#[inline(always)]
#[tactic(auto, unfolding(crate::specs::Reading::entry_of))]
fn record_of(bytes: &[u8]) -> Option<Record<'_>>
    ensures { Reads view result (entry_of bytes.now) }
{
    let (head, payload) = head_of(bytes)?;
    let kind = Kind::from_number(head.kind)?;
    if head.size as usize != bytes.len() {
        return None;
    }
    record_of_kind(head, kind, payload)
}

/// The record that the bytes spell, all of the bytes. Refused `NotAStore` where they spell none. It takes no memory.
#[inline]
pub fn decode(bytes: &[u8]) -> Result<Record<'_>, Fault>
    // What is read is spelled so.
    ensures found { IfOk result (λ v. Spells (view v) bytes.now) }
    // What is spelled so is read.
    ensures only { (said : Entry) → Spells said bytes.now → Gives view result (Some said) }
    ensures entry { Gives view result (entry_of bytes.now) }
{
    match record_of(bytes) {
        Some(record) => Ok(record),
        None => Err(Fault::NotAStore),
    }
}

#[inline(always)]
#[tactic(auto, unfolding(crate::specs::Reading::first_entry))]
fn first_of(bytes: &[u8]) -> Option<(Record<'_>, &[u8])>
    ensures { Reads (λ x. (view x.0, x.1.now)) result (first_entry bytes.now) }
{
    let (size, _) = word32_of(bytes)?;
    let (front, rest) = part_of(bytes, size as usize)?;
    let record = record_of(front)?;
    Some((record, rest))
}

/// The record at the front of the bytes, and the bytes after it. Refused `NotAStore` where the front spells none.
/// It takes no memory.
#[inline]
pub fn decode_front(bytes: &[u8]) -> Result<(Record<'_>, &[u8]), Fault>
    ensures found { IfOk result (λ x. (bytes.now ≡ spelling (view x.0) ++ x.1.now) × IsEntry (view x.0)) }
    ensures only { (said : Entry) (rest : List ℕ) → IsEntry said → bytes.now ≡ spelling said ++ rest → let there : Option (Entry × List ℕ) = Some (said, rest) in Gives (λ x. (view x.0, x.1.now)) result there }
    ensures entry { Gives (λ x. (view x.0, x.1.now)) result (first_entry bytes.now) }
{
    match first_of(bytes) {
        Some((record, rest)) => Ok((record, rest)),
        None => Err(Fault::NotAStore),
    }
}
