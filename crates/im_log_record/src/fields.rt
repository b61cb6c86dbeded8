//! The fields of a record, from left to right.
ghost use Rattle.std.specs.Prelude.{◌≡◌, length, IfSome};
ghost use Rattle.im_log_record.specs.Reading.{Reads, part_at, byte_at, word16_at, word32_at, word64_at, head_at, is_above, has_owner, has_plain_owner, has_none};

use byteorder::{BigEndian, ByteOrder};

/// What stands in front of every record's payload.
#[derive(Clone, Copy)]
pub(crate) struct Head {
    pub(crate) size: u32,
    pub(crate) kind: u8,
    pub(crate) transaction: u64,
    pub(crate) prev: u64,
    pub(crate) undo_next: u64,
    pub(crate) page: u32,
}

// The number is above the one before, where there is one.
#[inline]
pub(crate) fn is_above(last: Option<u64>, number: u64) -> bool
    ensures { result ≡ is_above last number }
{
    match last {
        None => true,
        Some(last) => last < number,
    }
}

impl Head {
    // A transaction wrote the record.
    #[inline]
    pub(crate) fn has_owner(self) -> bool
        ensures { result ≡ has_owner self }
    {
        self.transaction != 0
    }

    // A transaction wrote the record, and it compensates nothing.
    #[inline]
    pub(crate) fn has_plain_owner(self) -> bool
        ensures { result ≡ has_plain_owner self }
    {
        self.transaction != 0 && self.undo_next == 0
    }

    // No transaction wrote the record.
    #[inline]
    pub(crate) fn has_none(self) -> bool
        ensures { result ≡ has_none self }
    {
        self.transaction == 0 && self.prev == 0 && self.undo_next == 0
    }
}

#[inline(always)]
#[tactic(auto, unfolding(crate::specs::Reading::part_at))]
pub(crate) fn part_of(bytes: &[u8], len: usize) -> Option<(&[u8], &[u8])>
    ensures read { Reads (λ x. (x.0.now, x.1.now)) result (part_at len bytes.now) }
    ensures len { IfSome result (λ x. length x.0.now ≡ len) }
{
    if len <= bytes.len() {
        Some(bytes.split_at(len))
    } else {
        None
    }
}

#[inline(always)]
#[tactic(auto, unfolding(crate::specs::Reading::byte_at))]
pub(crate) fn byte_of(bytes: &[u8]) -> Option<(u8, &[u8])>
    ensures { Reads (λ x. (x.0, x.1.now)) result (byte_at bytes.now) }
{
    match bytes {
        [] => None,
        [byte, rest @ ..] => Some((*byte, rest)),
    }
}

#[inline]
#[tactic(auto, unfolding(crate::specs::Reading::word16_at, crate::specs::Reading::part_at))]
pub(crate) fn word16_of(bytes: &[u8]) -> Option<(u16, &[u8])>
    ensures { Reads (λ x. (x.0, x.1.now)) result (word16_at bytes.now) }
{
    if bytes.len() < 2 {
        return None;
    }
    let (front, rest) = bytes.split_at(2);
    Some((BigEndian::read_u16(front), rest))
}

#[inline(always)]
#[tactic(auto, unfolding(crate::specs::Reading::word32_at))]
pub(crate) fn word32_of(bytes: &[u8]) -> Option<(u32, &[u8])>
    ensures { Reads (λ x. (x.0, x.1.now)) result (word32_at bytes.now) }
{
    let (front, rest) = part_of(bytes, 4)?;
    Some((BigEndian::read_u32(front), rest))
}

#[inline(always)]
#[tactic(auto, unfolding(crate::specs::Reading::word64_at))]
pub(crate) fn word64_of(bytes: &[u8]) -> Option<(u64, &[u8])>
    ensures { Reads (λ x. (x.0, x.1.now)) result (word64_at bytes.now) }
{
    let (front, rest) = part_of(bytes, 8)?;
    Some((BigEndian::read_u64(front), rest))
}

#[inline(always)]
#[tactic(auto, unfolding(crate::specs::Reading::head_at))]
pub(crate) fn head_of(bytes: &[u8]) -> Option<(Head, &[u8])>
    ensures { Reads (λ x. (x.0, x.1.now)) result (head_at bytes.now) }
{
    let (size, rest) = word32_of(bytes)?;
    let (kind, rest) = byte_of(rest)?;
    let (transaction, rest) = word64_of(rest)?;
    let (prev, rest) = word64_of(rest)?;
    let (undo_next, rest) = word64_of(rest)?;
    let (page, rest) = word32_of(rest)?;
    let head = Head {
        size,
        kind,
        transaction,
        prev,
        undo_next,
        page,
    };
    Some((head, rest))
}
