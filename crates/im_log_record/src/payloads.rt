//! What each kind adds to the fields that every record has.
ghost use Rattle.im_log_record.specs.Entry.{active_rows, dirty_rows};
ghost use Rattle.im_log_record.specs.Reading.{Reads, keyed_at, body_at, bodies_at, last_body_at, count_at, actives_at, dirties_at, tables_at};

use crate::active_list::{ActiveList, transactions_rise};
use crate::dirty_list::{DirtyList, pages_rise};
use crate::fields::{byte_of, part_of, word16_of, word64_of};
use im_base_types::{MOST_ACTIVE, MOST_DIRTY, PAGE_BODY};

// The most entries in the two lists of a checkpoint.
const ACTIVE: u16 = MOST_ACTIVE as u16;

const DIRTY: u16 = MOST_DIRTY as u16;

#[inline(always)]
#[tactic(auto, unfolding(crate::specs::Reading::keyed_at))]
pub(crate) fn keyed_of(bytes: &[u8]) -> Option<(&[u8], u64)>
    ensures { Reads (λ x. (x.0.now, x.1)) result (keyed_at bytes.now) }
{
    let (len, rest) = byte_of(bytes)?;
    let (key, rest) = part_of(rest, len as usize)?;
    let (rid, rest) = word64_of(rest)?;
    if len == 0 || !rest.is_empty() {
        return None;
    }
    Some((key, rid))
}

#[tactic(auto, unfolding(crate::specs::Reading::body_at))]
fn body_of(bytes: &[u8]) -> Option<(&[u8], &[u8])>
    ensures { Reads (λ x. (x.0.now, x.1.now)) result (body_at bytes.now) }
{
    let (lsn, rest) = word64_of(bytes)?;
    let (body, rest) = part_of(rest, PAGE_BODY)?;
    if lsn == 0 { Some((body, rest)) } else { None }
}

#[tactic(auto, unfolding(crate::specs::Reading::bodies_at))]
pub(crate) fn bodies_of(bytes: &[u8]) -> Option<(&[u8], &[u8])>
    ensures { Reads (λ x. (x.0.now, x.1.now)) result (bodies_at bytes.now) }
{
    let (before, rest) = body_of(bytes)?;
    let (after, rest) = body_of(rest)?;
    if rest.is_empty() {
        Some((before, after))
    } else {
        None
    }
}

#[tactic(auto, unfolding(crate::specs::Reading::last_body_at))]
pub(crate) fn last_body_of(bytes: &[u8]) -> Option<&[u8]>
    ensures { Reads (λ x. x.now) result (last_body_at bytes.now) }
{
    let (after, rest) = body_of(bytes)?;
    if rest.is_empty() { Some(after) } else { None }
}

#[tactic(auto, unfolding(crate::specs::Reading::count_at))]
fn count_of(bytes: &[u8], most: u16) -> Option<(u16, &[u8])>
    ensures { Reads (λ x. (x.0, x.1.now)) result (count_at most bytes.now) }
{
    let (count, rest) = word16_of(bytes)?;
    if count <= most {
        Some((count, rest))
    } else {
        None
    }
}

// So many active transactions, in rising number.
#[tactic(auto, unfolding(crate::specs::Reading::actives_at, crate::specs::Reading::rows_at))]
fn actives_of(bytes: &[u8], count: u16) -> Option<(ActiveList<'_>, &[u8])>
    ensures { Reads (λ x. (active_rows x.0, x.1.now)) result (actives_at count bytes.now) }
{
    let (spelled, rest) = part_of(bytes, 24 * count as usize)?;
    let (rows, _) = spelled.as_chunks::<24>();
    if transactions_rise(rows) {
        Some((ActiveList::Spelled(rows), rest))
    } else {
        None
    }
}

// So many dirty pages, in rising number.
#[tactic(auto, unfolding(crate::specs::Reading::dirties_at, crate::specs::Reading::rows_at))]
fn dirties_of(bytes: &[u8], count: u16) -> Option<(DirtyList<'_>, &[u8])>
    ensures { Reads (λ x. (dirty_rows x.0, x.1.now)) result (dirties_at count bytes.now) }
{
    let (spelled, rest) = part_of(bytes, 12 * count as usize)?;
    let (rows, _) = spelled.as_chunks::<12>();
    if pages_rise(rows) {
        Some((DirtyList::Spelled(rows), rest))
    } else {
        None
    }
}

#[tactic(auto, unfolding(crate::specs::Reading::tables_at))]
pub(crate) fn tables_of(bytes: &[u8]) -> Option<(u64, ActiveList<'_>, DirtyList<'_>)>
    ensures { Reads (λ x. (x.0, active_rows x.1, dirty_rows x.2)) result (tables_at bytes.now) }
{
    let (next, rest) = word64_of(bytes)?;
    let (count, rest) = count_of(rest, ACTIVE)?;
    let (active, rest) = actives_of(rest, count)?;
    let (count, rest) = count_of(rest, DIRTY)?;
    let (dirty, rest) = dirties_of(rest, count)?;
    if rest.is_empty() {
        Some((next, active, dirty))
    } else {
        None
    }
}
