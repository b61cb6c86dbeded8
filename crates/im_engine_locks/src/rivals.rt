//! The smallest holder in conflict with what is asked.

ghost use Rattle.std.specs.Prelude.{◌≡◌, map};
ghost use Rattle.im_theory_machine.specs.Table.{held_of};
ghost use Rattle.im_engine_locks.specs.Requests.{row, named};
ghost use Rattle.im_engine_locks.specs.Index.{seen, smaller_of, IsLeast};
ghost use Rattle.im_engine_locks.specs.InStep.{owned};
ghost use Rattle.im_engine_locks.specs.Places.{is_barred as is_barred_at, is_rival, is_rival_of, list_in, rival_in};

use crate::name::Name;
use crate::name_index::NameIndex;
use crate::own_locks::OwnLocks;
use crate::place::Place;
use crate::request::Request;
use crate::stored_lock::{StoredLock, is_at};
use im_base_types::TxnId;
use im_theory_machine::Mode;
use std::collections::HashMap;

/// The smallest number of a holder in conflict with what `t` asks.
pub fn smallest_rival(
    names: &NameIndex,
    owners: &HashMap<TxnId, OwnLocks>,
    t: TxnId,
    requests: &[Request<'_>],
) -> Option<TxnId>
    ensures { IsLeast (is_rival_of names.now (owned owners.now) t (row requests.now)) result }
{
    let mut least: Option<TxnId> = None;
    for request in requests {
        least = smaller(
            least,
            names.smallest_rival(owners, t, request.name, request.mode),
        );
    }
    least
}

/// The smallest number of an owner of a lock at one of these places that is against `t`, who asks for the name in this mode.
pub fn smallest_among(
    places: &[Place],
    owners: &HashMap<TxnId, OwnLocks>,
    t: TxnId,
    name: Name<'_>,
    mode: Mode,
) -> Option<TxnId>
    ensures { IsLeast (is_rival places.now (owned owners.now) t (named name.entry) mode) result }
{
    let mut least: Option<TxnId> = None;
    for place in places {
        least = smaller(least, rival(place, owners, t, name, mode));
    }
    least
}

/// The owner of the lock at this place, where it is against `t`.
pub fn rival(
    place: &Place,
    owners: &HashMap<TxnId, OwnLocks>,
    t: TxnId,
    name: Name<'_>,
    mode: Mode,
) -> Option<TxnId>
    ensures { result ≡ rival_in place.now (owned owners.now) t (named name.entry) mode }
{
    if place.owner != t && is_against(place, owners, name, mode) {
        Some(place.owner)
    } else {
        None
    }
}

// Whether the lock at this place is on the name, and conflicts with a lock of another owner in this mode.
fn is_against(place: &Place, owners: &HashMap<TxnId, OwnLocks>, name: Name<'_>, mode: Mode) -> bool
    ensures { result ≡ is_barred_at (list_in (held_of (owned owners.now) place.now.owner) place.now.span) place.now.at (named name.entry) mode }
{
    match owners.get(&place.owner) {
        Some(own) => is_barred(own.list(place.span), place.at, name, mode),
        None => false,
    }
}

// The same of a list.
fn is_barred(locks: &[StoredLock], at: usize, name: Name<'_>, mode: Mode) -> bool
    ensures { result ≡ is_barred_at (map seen locks.now) at (named name.entry) mode }
{
    is_at(locks, at, name, Mode::Exclusive)
        || mode == Mode::Exclusive && is_at(locks, at, name, Mode::Shared)
}

/// The smaller of two numbers that may be missing.
pub fn smaller(a: Option<TxnId>, b: Option<TxnId>) -> Option<TxnId>
    ensures { result ≡ smaller_of a b }
{
    match (a, b) {
        (None, b) => b,
        (Some(x), None) => Some(x),
        (Some(x), Some(y)) => Some(if y < x { y } else { x }),
    }
}
