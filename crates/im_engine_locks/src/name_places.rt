//! Places of locks, looked up by name, added and taken out.

ghost use Rattle.std.specs.Prelude.{◌≡◌, [], not, IfOk, map, true, false};
ghost use Rattle.im_theory_machine.specs.Locks.{Name as LockName, At, PastAll};
ghost use Rattle.im_engine_locks.specs.Requests.{named};
ghost use Rattle.im_engine_locks.specs.Keys.{digest};
ghost use Rattle.im_engine_locks.specs.Index.{seen, IsLeast};
ghost use Rattle.im_engine_locks.specs.InStep.{owned};
ghost use Rattle.im_engine_locks.specs.Places.{finds as finds_in, is_among, is_rival, listed, places_at, places_in, KeepsAll, KeepsAllIn, KeepsBut, KeepsButIn, KeepsList, KeepsListBut};

use crate::bucket::{Bucket, finds};
use crate::name::Name;
use crate::name_index::NameIndex;
use crate::own_locks::OwnLocks;
use crate::place::Place;
use crate::rivals::smallest_among;
use crate::stored_lock::StoredLock;
use im_base_types::TxnId;
use im_theory_machine::Mode;
use std::alloc::{AllocError, Global};
use std::collections::HashMap;
use std::collections::hash_map::Entry;
use std::hash::{FoldHasher, Hasher};

impl NameIndex {
    /// The smallest number of a holder of the name that is against `t`, who asks in this mode.
    pub fn smallest_rival(
        &self,
        owners: &HashMap<TxnId, OwnLocks>,
        t: TxnId,
        name: Name<'_>,
        mode: Mode,
    ) -> Option<TxnId>
        ensures { IsLeast (is_rival (places_at self.now (named name.entry)) (owned owners.now) t (named name.entry) mode) result }
    {
        match name {
            Name::Key(key) => match self.keys.get(&digest_of(key)) {
                Some(bucket) => bucket.smallest_rival(owners, t, name, mode),
                None => None,
            },
            Name::End => smallest_among(self.end.as_slice(), owners, t, name, mode),
        }
    }

    /// One place more, of a lock on the name in this mode, where no lock of its list is that: the list is lent. Answers whether it was added.
    pub fn add(
        &mut self,
        name: Name<'_>,
        mode: Mode,
        place: Place,
        locks: &[StoredLock],
    ) -> Result<bool, AllocError>
        ensures new { IfOk result (λ new. new ≡ not (finds_in (places_at self.old (named name.entry)) place.owner place.span (map seen locks.now) (named name.entry) mode)) }
        ensures there { IfOk result (λ new. new ≡ true → is_among (places_at self.new (named name.entry)) place.owner place.span place.at ≡ true) }
        ensures kept { KeepsAll self.old self.new }
    {
        match name {
            Name::Key(key) => {
                let alloc = *self.end.allocator();
                add_at(alloc, &mut self.keys, key, mode, place, locks)
            }
            Name::End => add_to(&mut self.end, mode, place, locks),
        }
    }

    /// Takes the place of a lock on the name out, and no other.
    pub fn remove(&mut self, name: Name<'_>, place: Place)
        ensures gone { is_among (places_at self.new (named name.entry)) place.owner place.span place.at ≡ false }
        ensures kept { KeepsBut place self.old self.new }
    {
        match name {
            Name::Key(key) => remove_at(&mut self.keys, key, place),
            Name::End => take_out(&mut self.end, place),
        }
    }

    /// Takes all places out.
    pub fn clear(&mut self)
        ensures { (n : LockName) → places_at self.new n ≡ [] }
    {
        self.keys.clear();
        self.end.clear();
    }
}

// A number by which a key is found: it is made of all bytes at once.
fn digest_of(key: &[u8]) -> u64
    ensures { result ≡ digest key.now }
{
    let mut hasher = FoldHasher::default();
    hasher.write(key);
    hasher.finish()
}

// One place more of a lock past the last key, where its list has none.
fn add_to(
    places: &mut Vec<Place>,
    mode: Mode,
    place: Place,
    locks: &[StoredLock],
) -> Result<bool, AllocError>
    ensures new { IfOk result (λ new. new ≡ not (finds_in places.old.items place.owner place.span (map seen locks.now) PastAll mode)) }
    ensures there { IfOk result (λ new. new ≡ true → is_among places.new.items place.owner place.span place.at ≡ true) }
    ensures kept { KeepsList places.old.items places.new.items }
{
    if finds(
        places.as_slice(),
        place.owner,
        place.span,
        locks,
        Name::End,
        mode,
    ) {
        return Ok(false);
    }
    places.push(place)?;
    Ok(true)
}

// One place more of a lock on a key of this digest, where its list has none on this key.
fn add_in(
    bucket: &mut Bucket,
    key: &[u8],
    mode: Mode,
    place: Place,
    locks: &[StoredLock],
) -> Result<bool, AllocError>
    ensures new { IfOk result (λ new. new ≡ not (finds_in (listed bucket.old) place.owner place.span (map seen locks.now) (At key.now) mode)) }
    ensures there { IfOk result (λ new. new ≡ true → is_among (listed bucket.new) place.owner place.span place.at ≡ true) }
    ensures kept { KeepsList (listed bucket.old) (listed bucket.new) }
{
    if bucket.finds(place.owner, place.span, locks, Name::Key(key), mode) {
        return Ok(false);
    }
    bucket.push(place)?;
    Ok(true)
}

// One place more of a lock on a key, where its list has none.
fn add_at(
    alloc: Global,
    keys: &mut HashMap<u64, Bucket>,
    key: &[u8],
    mode: Mode,
    place: Place,
    locks: &[StoredLock],
) -> Result<bool, AllocError>
    ensures new { IfOk result (λ new. new ≡ not (finds_in (places_in keys.old (digest key.now)) place.owner place.span (map seen locks.now) (At key.now) mode)) }
    ensures there { IfOk result (λ new. new ≡ true → is_among (places_in keys.new (digest key.now)) place.owner place.span place.at ≡ true) }
    ensures kept { KeepsAllIn keys.old keys.new }
{
    match keys.entry(digest_of(key))? {
        Entry::Occupied(there) => add_in(there.into_mut(), key, mode, place, locks),
        Entry::Vacant(there) => {
            there.insert(Bucket::one(alloc, place));
            Ok(true)
        }
    }
}

// Takes the place of a lock on a key out, and the digest where none is left.
fn remove_at(keys: &mut HashMap<u64, Bucket>, key: &[u8], place: Place)
    ensures gone { is_among (places_in keys.new (digest key.now)) place.owner place.span place.at ≡ false }
    ensures kept { KeepsButIn place keys.old keys.new }
{
    let Ok(entry) = keys.entry(digest_of(key)) else {
        return;
    };
    match entry {
        Entry::Occupied(mut there) => {
            if there.get_mut().take_out(place) {
                there.remove();
            }
        }
        Entry::Vacant(_) => {}
    }
}

// Takes a place out of a list.
fn take_out(places: &mut Vec<Place>, place: Place)
    ensures gone { is_among places.new.items place.owner place.span place.at ≡ false }
    ensures kept { KeepsListBut place places.old.items places.new.items }
{
    places.retain(|p| !p.is(place));
}
