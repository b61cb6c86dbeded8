//! Whether two replies say the same.

ghost use Rattle.std.specs.Prelude.{◌≡◌, ◌↔◌, true};
ghost use Rattle.im_base_steps.specs.Calls.{told_by, entries_in};
ghost use Rattle.im_tool_judge.specs.Disturbed.{SaysSame};
ghost use Rattle.im_tool_judge.specs.Replies.{key_in, kind_of, number_in};

use im_base_steps::{Blocker, Reply};
use im_base_types::{Key, Rid};
use im_tool_lines::StoreReply;

/// Whether the replies to two lines say the same.
pub(crate) fn says_same(told: &StoreReply, plain: &StoreReply) -> bool
    ensures { result ≡ true ↔ SaysSame told.now plain.now }
{
    match told {
        StoreReply::Step(told) => match plain {
            StoreReply::Step(plain) => is_same_reply(told, plain),
            _ => false,
        },
        StoreReply::Calls(told) => match plain {
            StoreReply::Calls(plain) => told == plain,
            _ => false,
        },
        StoreReply::Page(page, header) => match plain {
            StoreReply::Page(other, plain) => page == other && header == plain,
            _ => false,
        },
        StoreReply::Redo(told) => match plain {
            StoreReply::Redo(plain) => told == plain,
            _ => false,
        },
        StoreReply::Log(told) => match plain {
            StoreReply::Log(plain) => told == plain,
            _ => false,
        },
        StoreReply::Changes(told) => match plain {
            StoreReply::Changes(plain) => told == plain,
            _ => false,
        },
        StoreReply::Refused(told) => match plain {
            StoreReply::Refused(plain) => told == plain,
            _ => false,
        },
        StoreReply::Stopped => match plain {
            StoreReply::Stopped => true,
            _ => false,
        },
    }
}

// Whether two replies to steps do: they are of one kind, with the same number, key and entries.
#[tactic(auto, using(crate::proofs::Replies::same_parts))]
fn is_same_reply(told: &Reply, plain: &Reply) -> bool
    ensures { result ≡ true ↔ told_by told.now ≡ told_by plain.now }
{
    if kind(told) != kind(plain) {
        return false;
    }
    if number(told) != number(plain) {
        return false;
    }
    if key(told) != key(plain) {
        return false;
    }
    are_same(entries(told), entries(plain))
}

// Which kind of reply it is.
fn kind(reply: &Reply) -> u8
    ensures { result ≡ kind_of (told_by reply.now) }
{
    match reply {
        Reply::Started(_) => 0,
        Reply::Found(_) => 1,
        Reply::Absent => 2,
        Reply::Entry(_, _) => 3,
        Reply::End => 4,
        Reply::Entries(_) => 5,
        Reply::Inserted => 6,
        Reply::Duplicate => 7,
        Reply::Deleted => 8,
        Reply::Committed => 9,
        Reply::RolledBack => 10,
        Reply::More => 11,
        Reply::Blocked(Blocker::Lock(_)) => 12,
        Reply::Blocked(Blocker::Tree) => 13,
        Reply::Die => 14,
        Reply::Done => 15,
        Reply::Refused(_) => 16,
    }
}

// The number that it carries: of a transaction, a row id or a refusal.
fn number(reply: &Reply) -> u64
    ensures { result ≡ number_in (told_by reply.now) }
{
    match reply {
        Reply::Started(number) => *number,
        Reply::Found(rid) => *rid,
        Reply::Absent => 0,
        Reply::Entry(_, rid) => *rid,
        Reply::End => 0,
        Reply::Entries(_) => 0,
        Reply::Inserted => 0,
        Reply::Duplicate => 0,
        Reply::Deleted => 0,
        Reply::Committed => 0,
        Reply::RolledBack => 0,
        Reply::More => 0,
        Reply::Blocked(Blocker::Lock(holder)) => *holder,
        Reply::Blocked(Blocker::Tree) => 0,
        Reply::Die => 0,
        Reply::Done => 0,
        Reply::Refused(fault) => u64::from(fault.number()),
    }
}

// The key of a single entry.
fn key(reply: &Reply) -> &[u8]
    ensures { result.now ≡ key_in (told_by reply.now) }
{
    match reply {
        Reply::Started(_) => &[],
        Reply::Found(_) => &[],
        Reply::Absent => &[],
        Reply::Entry(key, _) => key.bytes(),
        Reply::End => &[],
        Reply::Entries(_) => &[],
        Reply::Inserted => &[],
        Reply::Duplicate => &[],
        Reply::Deleted => &[],
        Reply::Committed => &[],
        Reply::RolledBack => &[],
        Reply::More => &[],
        Reply::Blocked(Blocker::Lock(_)) => &[],
        Reply::Blocked(Blocker::Tree) => &[],
        Reply::Die => &[],
        Reply::Done => &[],
        Reply::Refused(_) => &[],
    }
}

// The entries of a range.
fn entries(reply: &Reply) -> &[(Key, Rid)]
    ensures { result.now ≡ entries_in (told_by reply.now) }
{
    match reply {
        Reply::Started(_) => &[],
        Reply::Found(_) => &[],
        Reply::Absent => &[],
        Reply::Entry(_, _) => &[],
        Reply::End => &[],
        Reply::Entries(list) => list.as_slice(),
        Reply::Inserted => &[],
        Reply::Duplicate => &[],
        Reply::Deleted => &[],
        Reply::Committed => &[],
        Reply::RolledBack => &[],
        Reply::More => &[],
        Reply::Blocked(Blocker::Lock(_)) => &[],
        Reply::Blocked(Blocker::Tree) => &[],
        Reply::Die => &[],
        Reply::Done => &[],
        Reply::Refused(_) => &[],
    }
}

// Whether two lists have the same entries.
fn are_same(some: &[(Key, Rid)], others: &[(Key, Rid)]) -> bool
    ensures { result ≡ true ↔ some.now ≡ others.now }
{
    if some.len() != others.len() {
        return false;
    }
    for i in 0..some.len() {
        if !is_same_entry(&some[i], &others[i]) {
            return false;
        }
    }
    true
}

fn is_same_entry(entry: &(Key, Rid), other: &(Key, Rid)) -> bool
    ensures { result ≡ true ↔ entry.now ≡ other.now }
{
    entry.0.bytes() == other.0.bytes() && entry.1 == other.1
}
