//! Locks as the table keeps them.

ghost use Rattle.std.specs.Prelude.{◌≡◌, ◌++◌, ◌∷◌, [], OnOk, OnErr, IfOk, map, take, length};
ghost use Rattle.im_theory_machine.specs.Locks.{At};
ghost use Rattle.im_engine_locks.specs.Requests.{named};
ghost use Rattle.im_engine_locks.specs.Index.{stored, seen, seen_all, same_name, same_lock};
ghost use Rattle.im_engine_locks.specs.Keys.{IsKeyRoomFor, IsRoomFor};
ghost use Rattle.im_engine_locks.specs.Places.{is_at as is_at_place};

use crate::key_bytes::KeyBytes;
use crate::name::Name;
use im_theory_machine::Mode;
use std::alloc::{AllocError, Global};

/// A name with bytes of its own.
#[derive(Drop)]
pub enum StoredName {
    Key(KeyBytes),
    End,
}

/// A lock in the list of its owner.
#[derive(Drop)]
pub struct StoredLock {
    pub name: StoredName,
    pub mode: Mode,
}

impl StoredLock {
    // Makes its name a copy of the name for which it has room.
    fn set(&mut self, name: Name<'_>)
        requires { IsRoomFor self.old.name name }
        ensures name { stored self.new.name ≡ named name.entry }
        ensures mode { self.new.mode ≡ self.old.mode }
    {
        match name {
            Name::Key(bytes) => set_key(&mut self.name, bytes),
            Name::End => {}
        }
    }
}

// Makes it a copy of the bytes of a key, for which it has room.
fn set_key(name: &mut StoredName, bytes: &[u8])
    requires { IsKeyRoomFor name.old bytes.now }
    ensures { stored name.new ≡ At bytes.now }
{
    if let StoredName::Key(key) = name {
        key.set(bytes);
    }
}

// Room for a copy of the name.
fn room_for(alloc: Global, name: Name<'_>) -> Result<StoredName, AllocError>
    ensures { IfOk result (λ room. IsRoomFor room name.entry) }
{
    match name {
        Name::Key(bytes) => Ok(StoredName::Key(KeyBytes::room_for(alloc, bytes)?)),
        Name::End => Ok(StoredName::End),
    }
}

/// One lock more, at the end of a list.
pub fn push_lock(locks: &mut Vec<StoredLock>, name: Name<'_>, mode: Mode) -> Result<(), AllocError>
    ensures list { OnOk result (seen_all locks.new ≡ seen_all locks.old ++ record { name = named name.entry; mode = mode } ∷ []) }
    ensures front { take (length locks.old.items) locks.new.items ≡ locks.old.items }
    ensures err { OnErr result (locks.new.items ≡ locks.old.items) }
{
    let at = locks.len();
    let room = room_for(*locks.allocator(), name)?;
    locks.push(StoredLock { name: room, mode })?;
    locks[at].set(name);
    Ok(())
}

/// The name, lent.
pub fn lend(name: &StoredName) -> Name<'_>
    ensures { named result ≡ stored name.now }
{
    match name {
        StoredName::Key(key) => Name::Key(key.as_slice()),
        StoredName::End => Name::End,
    }
}

/// Whether the lock at this place of a list is on the name, in this mode.
#[tactic(auto, using(crate::proofs::Locked::at_place, crate::proofs::Locked::at_none))]
pub fn is_at(locks: &[StoredLock], at: usize, name: Name<'_>, mode: Mode) -> bool
    ensures { result ≡ is_at_place (map seen locks.now) at (named name.entry) mode }
{
    if at < locks.len() {
        is_on(&locks[at], name, mode)
    } else {
        false
    }
}

// Whether the lock is on the name, in this mode.
fn is_on(lock: &StoredLock, name: Name<'_>, mode: Mode) -> bool
    ensures { result ≡ same_lock (seen lock.now) (named name.entry) mode }
{
    is_same(lend(&lock.name), name) && lock.mode == mode
}

// Whether two names are equal.
fn is_same(a: Name<'_>, b: Name<'_>) -> bool
    ensures { result ≡ same_name (named a.entry) (named b.entry) }
{
    match (a, b) {
        (Name::Key(a), Name::Key(b)) => a == b,
        (Name::End, Name::End) => true,
        (Name::Key(_), Name::End) => false,
        (Name::End, Name::Key(_)) => false,
    }
}
