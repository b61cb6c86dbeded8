//! The record that a head and a payload spell, kind by kind.
ghost use Rattle.std.specs.Prelude.{◌≡◌, ◌==◌, ◌&&◌, length};
ghost use Rattle.im_log_record.specs.declared.kind.Kind.TheVariants as kinds;
ghost use Rattle.im_log_record.specs.Entry.{view};
ghost use Rattle.im_log_record.specs.Reading.{Reads, entry_at};

use crate::fields::Head;
use crate::kind::Kind;
use crate::payloads::{bodies_of, keyed_of, last_body_of, tables_of};
use crate::record::Record;
use im_base_types::PAGE_SIZE;

// The record has no page and no payload.
#[inline]
fn is_bare(head: Head, payload: &[u8]) -> bool
    ensures { result ≡ (head.page == 0 && length payload.now == 0) }
{
    head.page == 0 && payload.is_empty()
}

#[inline(always)]
#[tactic(auto, unfolding(crate::specs::Reading::entry_at))]
fn insert_key_of(head: Head, payload: &[u8]) -> Option<Record<'_>>
    ensures { Reads view result (entry_at head kinds.InsertKey payload.now) }
{
    let (key, rid) = keyed_of(payload)?;
    if !head.has_plain_owner() {
        return None;
    }
    Some(Record::InsertKey {
        transaction: head.transaction,
        prev: head.prev,
        page: head.page,
        key,
        rid,
    })
}

#[inline(always)]
#[tactic(auto, unfolding(crate::specs::Reading::entry_at))]
fn delete_key_of(head: Head, payload: &[u8]) -> Option<Record<'_>>
    ensures { Reads view result (entry_at head kinds.DeleteKey payload.now) }
{
    let (key, rid) = keyed_of(payload)?;
    if !head.has_plain_owner() {
        return None;
    }
    Some(Record::DeleteKey {
        transaction: head.transaction,
        prev: head.prev,
        page: head.page,
        key,
        rid,
    })
}

#[inline]
#[tactic(auto, unfolding(crate::specs::Reading::entry_at))]
fn undo_insert_of(head: Head, payload: &[u8]) -> Option<Record<'_>>
    ensures { Reads view result (entry_at head kinds.UndoInsert payload.now) }
{
    let (key, rid) = keyed_of(payload)?;
    if !head.has_owner() {
        return None;
    }
    Some(Record::UndoInsert {
        transaction: head.transaction,
        prev: head.prev,
        undo_next: head.undo_next,
        page: head.page,
        key,
        rid,
    })
}

#[inline]
#[tactic(auto, unfolding(crate::specs::Reading::entry_at))]
fn undo_delete_of(head: Head, payload: &[u8]) -> Option<Record<'_>>
    ensures { Reads view result (entry_at head kinds.UndoDelete payload.now) }
{
    let (key, rid) = keyed_of(payload)?;
    if !head.has_owner() {
        return None;
    }
    Some(Record::UndoDelete {
        transaction: head.transaction,
        prev: head.prev,
        undo_next: head.undo_next,
        page: head.page,
        key,
        rid,
    })
}

#[inline]
#[tactic(auto, unfolding(crate::specs::Reading::entry_at))]
fn smo_of(head: Head, payload: &[u8]) -> Option<Record<'_>>
    ensures { Reads view result (entry_at head kinds.Smo payload.now) }
{
    let (before, after) = bodies_of(payload)?;
    if !head.has_plain_owner() {
        return None;
    }
    Some(Record::Smo {
        transaction: head.transaction,
        prev: head.prev,
        page: head.page,
        before,
        after,
    })
}

#[inline]
#[tactic(auto, unfolding(crate::specs::Reading::entry_at))]
fn undo_smo_of(head: Head, payload: &[u8]) -> Option<Record<'_>>
    ensures { Reads view result (entry_at head kinds.UndoSmo payload.now) }
{
    let after = last_body_of(payload)?;
    if !head.has_owner() {
        return None;
    }
    Some(Record::UndoSmo {
        transaction: head.transaction,
        prev: head.prev,
        undo_next: head.undo_next,
        page: head.page,
        after,
    })
}

#[inline]
#[tactic(auto, unfolding(crate::specs::Reading::entry_at))]
fn dummy_clr_of(head: Head, payload: &[u8]) -> Option<Record<'_>>
    ensures { Reads view result (entry_at head kinds.DummyClr payload.now) }
{
    if !head.has_owner() || !is_bare(head, payload) {
        return None;
    }
    Some(Record::DummyClr {
        transaction: head.transaction,
        prev: head.prev,
        undo_next: head.undo_next,
    })
}

#[inline]
#[tactic(auto, unfolding(crate::specs::Reading::entry_at))]
fn commit_of(head: Head, payload: &[u8]) -> Option<Record<'_>>
    ensures { Reads view result (entry_at head kinds.Commit payload.now) }
{
    if !head.has_plain_owner() || !is_bare(head, payload) {
        return None;
    }
    Some(Record::Commit {
        transaction: head.transaction,
        prev: head.prev,
    })
}

#[inline]
#[tactic(auto, unfolding(crate::specs::Reading::entry_at))]
fn end_of(head: Head, payload: &[u8]) -> Option<Record<'_>>
    ensures { Reads view result (entry_at head kinds.End payload.now) }
{
    if !head.has_plain_owner() || !is_bare(head, payload) {
        return None;
    }
    Some(Record::End {
        transaction: head.transaction,
        prev: head.prev,
    })
}

#[inline]
#[tactic(auto, unfolding(crate::specs::Reading::entry_at))]
fn image_of(head: Head, payload: &[u8]) -> Option<Record<'_>>
    ensures { Reads view result (entry_at head kinds.Image payload.now) }
{
    if !head.has_none() || payload.len() != PAGE_SIZE {
        return None;
    }
    Some(Record::Image {
        page: head.page,
        bytes: payload,
    })
}

#[inline]
#[tactic(auto, unfolding(crate::specs::Reading::entry_at))]
fn checkpoint_of(head: Head, payload: &[u8]) -> Option<Record<'_>>
    ensures { Reads view result (entry_at head kinds.Checkpoint payload.now) }
{
    let (next, active, dirty) = tables_of(payload)?;
    if !head.has_none() || head.page != 0 {
        return None;
    }
    Some(Record::Checkpoint {
        next,
        active,
        dirty,
    })
}

#[inline(always)]
pub(crate) fn record_of_kind(head: Head, kind: Kind, payload: &[u8]) -> Option<Record<'_>>
    ensures { Reads view result (entry_at head kind payload.now) }
{
    match kind {
        Kind::InsertKey => insert_key_of(head, payload),
        Kind::DeleteKey => delete_key_of(head, payload),
        Kind::UndoInsert => undo_insert_of(head, payload),
        Kind::UndoDelete => undo_delete_of(head, payload),
        Kind::Smo => smo_of(head, payload),
        Kind::UndoSmo => undo_smo_of(head, payload),
        Kind::DummyClr => dummy_clr_of(head, payload),
        Kind::Commit => commit_of(head, payload),
        Kind::End => end_of(head, payload),
        Kind::Image => image_of(head, payload),
        Kind::Checkpoint => checkpoint_of(head, payload),
    }
}
