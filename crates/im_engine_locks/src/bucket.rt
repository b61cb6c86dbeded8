//! Where the locks on the keys of one digest stand.

ghost use Rattle.std.specs.Prelude.{◌≡◌, ◌++◌, ◌∷◌, [], OnOk, OnErr, map, true, false};
ghost use Rattle.im_engine_locks.specs.Requests.{named};
ghost use Rattle.im_engine_locks.specs.Index.{IsLeast, seen};
ghost use Rattle.im_engine_locks.specs.InStep.{owned};
ghost use Rattle.im_engine_locks.specs.Places.{finds as finds_in, is_there, is_rival, listed, without};

use crate::name::Name;
use crate::own_locks::OwnLocks;
use crate::place::{Place, Span};
use crate::rivals::{rival, smaller, smallest_among};
use crate::stored_lock::{StoredLock, is_at};
use im_base_types::TxnId;
use im_theory_machine::Mode;
use std::alloc::{AllocError, Global};
use std::collections::HashMap;

/// The places of the locks on the keys of one digest. There is one at least, and mostly no more, so that it wants no memory.
#[derive(Drop)]
pub struct Bucket {
    pub first: Place,
    pub more: Vec<Place>,
}

impl Bucket {
    /// One place.
    pub fn one(alloc: Global, place: Place) -> Bucket
        ensures { listed result ≡ place ∷ [] }
    {
        Bucket {
            first: place,
            more: Vec::new(alloc),
        }
    }

    /// Whether one of the locks is in this list of the owner, on the name in this mode.
    pub fn finds(
        &self,
        owner: TxnId,
        span: Span,
        locks: &[StoredLock],
        name: Name<'_>,
        mode: Mode,
    ) -> bool
        ensures { result ≡ finds_in (listed self.now) owner span (map seen locks.now) (named name.entry) mode }
    {
        is_found(&self.first, owner, span, locks, name, mode)
            || finds(self.more.as_slice(), owner, span, locks, name, mode)
    }

    /// The smallest number of an owner of one of the locks that is against `t`, who asks for the name in this mode.
    pub fn smallest_rival(
        &self,
        owners: &HashMap<TxnId, OwnLocks>,
        t: TxnId,
        name: Name<'_>,
        mode: Mode,
    ) -> Option<TxnId>
        ensures { IsLeast (is_rival (listed self.now) (owned owners.now) t (named name.entry) mode) result }
    {
        smaller(
            rival(&self.first, owners, t, name, mode),
            smallest_among(self.more.as_slice(), owners, t, name, mode),
        )
    }

    /// One place more.
    pub fn push(&mut self, place: Place) -> Result<(), AllocError>
        ensures ok { OnOk result (listed self.new ≡ listed self.old ++ place ∷ []) }
        ensures err { OnErr result (listed self.new ≡ listed self.old) }
    {
        self.more.push(place)?;
        Ok(())
    }

    /// Takes a place out, if it is there. Answers whether none is left; it is still as it was in part then.
    pub fn take_out(&mut self, place: Place) -> bool
        ensures left { result ≡ false → listed self.new ≡ without place (listed self.old) }
        ensures none { result ≡ true → without place (listed self.old) ≡ [] }
    {
        self.more.retain(|p| !p.is(place));
        if !self.first.is(place) {
            return false;
        }
        if self.more.is_empty() {
            return true;
        }
        self.first = self.more.remove(0);
        false
    }
}

/// Whether one of the places is in this list of the owner, and the lock there on the name in this mode.
pub fn finds(
    places: &[Place],
    owner: TxnId,
    span: Span,
    locks: &[StoredLock],
    name: Name<'_>,
    mode: Mode,
) -> bool
    ensures { result ≡ finds_in places.now owner span (map seen locks.now) (named name.entry) mode }
{
    for place in places {
        if is_found(place, owner, span, locks, name, mode) {
            return true;
        }
    }
    false
}

// The same of one place.
fn is_found(
    place: &Place,
    owner: TxnId,
    span: Span,
    locks: &[StoredLock],
    name: Name<'_>,
    mode: Mode,
) -> bool
    ensures { result ≡ is_there place.now owner span (map seen locks.now) (named name.entry) mode }
{
    place.owner == owner && place.span == span && is_at(locks, place.at, name, mode)
}
