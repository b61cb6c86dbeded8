//! Replies as the trace keeps them.

ghost use Rattle.std.specs.Prelude.{◌≡◌, ◌≤◌, ◌+◌, ◌++◌, true, [], length, vec_len, vec_capacity, IfSome};
ghost use Rattle.im_base_steps.specs.Calls.{asked_by, told_by, has_entry, entries_in, most_entries, most_key};
ghost use Rattle.im_front.specs.Traces.{reply_of_told};

use im_base_steps::{Blocker, Reply, Step};
use im_base_types::{Fault, Key, Rid, TxnId};
use std::alloc::Global;

/// A reply as the trace keeps it: it says what the `Reply` said. The key of an entry lies on the heap, so that a step of the trace
/// takes little room.
#[derive(Drop)]
pub enum Told {
    Started(TxnId),
    Found(Rid),
    Absent,
    Entry(Vec<u8>, Rid),
    End,
    Entries(Vec<(Key, Rid)>),
    Inserted,
    Duplicate,
    Deleted,
    Committed,
    RolledBack,
    More,
    Blocked(Blocker),
    Die,
    Done,
    Refused(Fault),
}

/// Room for what the reply to a step may have: the key of an entry, or entries.
#[derive(Drop)]
pub(crate) struct Room {
    key: Vec<u8>,
    entries: Vec<(Key, Rid)>,
    ghost no_key: { key.items ≡ [] },
    ghost no_entries: { entries.items ≡ [] },
}

impl Room {
    /// Room for the reply to this step; none where there is no memory.
    pub(crate) fn of(alloc: Global, step: &Step) -> Option<Room>
        ensures key { IfSome result (λ room. most_key (asked_by step.now) ≤ vec_capacity room.key) }
        ensures entries { IfSome result (λ room. most_entries (asked_by step.now) ≤ vec_capacity room.entries) }
    {
        let key = Vec::with_capacity(alloc, step.most_key()).ok()?;
        let entries = Vec::with_capacity(alloc, step.most_entries()).ok()?;
        Some(Room { key, entries })
    }
}

impl Told {
    /// What a reply says. Its key and its entries go into the room that is handed in.
    pub(crate) fn of(reply: &Reply, room: Room) -> Told
        requires key { has_entry (told_by reply.now) ≡ true → 255 ≤ vec_capacity room.key }
        requires entries { length (entries_in (told_by reply.now)) ≤ vec_capacity room.entries }
        ensures { reply_of_told result ≡ told_by reply.now }
    {
        let Room { key, entries } = room;
        match reply {
            Reply::Started(t) => Told::Started(*t),
            Reply::Found(rid) => Told::Found(*rid),
            Reply::Absent => Told::Absent,
            Reply::Entry(name, rid) => Told::Entry(named(key, name), *rid),
            Reply::End => Told::End,
            Reply::Entries(list) => Told::Entries(filled(entries, list.as_slice())),
            Reply::Inserted => Told::Inserted,
            Reply::Duplicate => Told::Duplicate,
            Reply::Deleted => Told::Deleted,
            Reply::Committed => Told::Committed,
            Reply::RolledBack => Told::RolledBack,
            Reply::More => Told::More,
            Reply::Blocked(blocker) => Told::Blocked(*blocker),
            Reply::Die => Told::Die,
            Reply::Done => Told::Done,
            Reply::Refused(fault) => Told::Refused(*fault),
        }
    }
}

// The room with the bytes of this key.
fn named(mut room: Vec<u8>, key: &Key) -> Vec<u8>
    requires empty { room.items ≡ [] }
    requires room { 255 ≤ vec_capacity room }
    ensures { result.items ≡ key.now }
{
    append(&mut room, key.bytes());
    room
}

// Puts bytes at the end, for which there is room.
fn append(room: &mut Vec<u8>, bytes: &[u8])
    requires { vec_len room.old + length bytes.now ≤ vec_capacity room.old }
    ensures { room.new.items ≡ room.old.items ++ bytes.now }
{
    let Ok(()) = room.extend_from_slice(bytes) else {
        unreachable!()
    };
}

// The same key.
fn same_key(key: &Key) -> Key
    ensures { result ≡ key.now }
{
    match Key::new(key.bytes()) {
        Ok(copy) => copy,
        Err(_) => unreachable!(),
    }
}

// The room with these entries.
fn filled(mut room: Vec<(Key, Rid)>, list: &[(Key, Rid)]) -> Vec<(Key, Rid)>
    requires empty { room.items ≡ [] }
    requires room { length list.now ≤ vec_capacity room }
    ensures { result.items ≡ list.now }
{
    for entry in list {
        room.push_reserved((same_key(&entry.0), entry.1));
    }
    room
}
