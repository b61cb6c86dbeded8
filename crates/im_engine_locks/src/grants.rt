//! Locks taken and given back, by name and by owner at once.

ghost use Rattle.std.specs.Prelude.{◌≡◌, ◌<◌, ◌-◌, ◌||◌, OnOk, OnErr, take, length, ◌∷◌, []};
ghost use Rattle.im_theory_machine.specs.Locks.{Name as LockName};
ghost use Rattle.im_engine_locks.specs.Requests.{row, requested, named};
ghost use Rattle.im_engine_locks.specs.Index.{IsOnce, is_held, keeps, lasts, seen_all, same_lock};
ghost use Rattle.im_engine_locks.specs.Places.{Covers, KeepsApart, KeepsOthers};
ghost use Rattle.im_engine_locks.specs.Owned.{held_in, all_in, IsKnown, KeepsFront, SameOwn};
ghost use Rattle.im_theory_machine.specs.declared.lock_kind.Mode.{Mode as LockMode};

use crate::name::Name;
use crate::name_index::NameIndex;
use crate::own_locks::OwnLocks;
use crate::place::{Place, Span};
use crate::request::Request;
use crate::stored_lock::{StoredLock, lend, push_lock};
use im_base_types::TxnId;
use im_theory_machine::{Duration, Mode};
use std::alloc::AllocError;

/// Adds to the locks of `t` those requests that are kept, all or none.
pub fn grant(
    names: &mut NameIndex,
    t: TxnId,
    locks: &mut OwnLocks,
    requests: &[Request<'_>],
) -> Result<(), AllocError>
    requires known { IsKnown names.old t (held_in locks.old) }
    ensures known { IsKnown names.new t (held_in locks.new) }
    ensures others { KeepsOthers names.old t names.new }
    ensures held { OnOk result ((n : LockName) (m : LockMode) → is_held (all_in locks.new) n m ≡ (is_held (all_in locks.old) n m || keeps (row requests.now) n m)) }
    ensures lasting { OnOk result ((n : LockName) (m : LockMode) → is_held (seen_all locks.new.lasting) n m ≡ (is_held (seen_all locks.old.lasting) n m || lasts (row requests.now) n m)) }
    ensures err { OnErr result (SameOwn locks.old locks.new) }
{
    let lasting = locks.lasting.len();
    let falling = locks.falling.len();
    for request in requests {
        if let Err(error) = keep(names, t, locks, request) {
            forget_lasting(names, t, locks, lasting);
            forget_falling(names, t, locks, falling);
            return Err(error);
        }
    }
    Ok(())
}

/// Takes the lasting locks of `t` back from the last one on, until so many are left.
pub fn forget_lasting(names: &mut NameIndex, t: TxnId, locks: &mut OwnLocks, left: usize)
    requires known { IsKnown names.old t (held_in locks.old) }
    ensures known { IsKnown names.new t (held_in locks.new) }
    ensures others { KeepsOthers names.old t names.new }
    ensures lasting { locks.new.lasting.items ≡ take left locks.old.lasting.items }
    ensures falling { locks.new.falling.items ≡ locks.old.falling.items }
{
    forget(names, t, Span::Lasting, &mut locks.lasting, left);
}

/// Takes the locks of `t` that fall back from the last one on, until so many are left.
pub fn forget_falling(names: &mut NameIndex, t: TxnId, locks: &mut OwnLocks, left: usize)
    requires known { IsKnown names.old t (held_in locks.old) }
    ensures known { IsKnown names.new t (held_in locks.new) }
    ensures others { KeepsOthers names.old t names.new }
    ensures lasting { locks.new.lasting.items ≡ locks.old.lasting.items }
    ensures falling { locks.new.falling.items ≡ take left locks.old.falling.items }
{
    forget(names, t, Span::Falling, &mut locks.falling, left);
}

// Takes locks of a list of `t` back from the last one on, until so many are left.
fn forget(names: &mut NameIndex, t: TxnId, span: Span, locks: &mut Vec<StoredLock>, left: usize)
    requires known { Covers names.old t span (seen_all locks.old) }
    requires once { IsOnce (seen_all locks.old) }
    ensures known { Covers names.new t span (seen_all locks.new) }
    ensures once { IsOnce (seen_all locks.new) }
    ensures apart { KeepsApart names.old t span names.new }
    ensures items { locks.new.items ≡ take left locks.old.items }
{
    while locks.len() > left {
        forget_last(names, t, span, locks);
    }
}

// Takes the last lock of a list of `t` back.
fn forget_last(names: &mut NameIndex, t: TxnId, span: Span, locks: &mut Vec<StoredLock>)
    requires some { 0 < length locks.old.items }
    requires known { Covers names.old t span (seen_all locks.old) }
    requires once { IsOnce (seen_all locks.old) }
    ensures known { Covers names.new t span (seen_all locks.new) }
    ensures once { IsOnce (seen_all locks.new) }
    ensures apart { KeepsApart names.old t span names.new }
    ensures items { locks.new.items ≡ take (length locks.old.items - 1) locks.old.items }
{
    let Some(lock) = locks.pop() else {
        return;
    };
    let place = Place {
        owner: t,
        span,
        at: locks.len(),
    };
    names.remove(lend(&lock.name), place);
}

// Adds one request to the locks of `t`, where it is kept and not held.
fn keep(
    names: &mut NameIndex,
    t: TxnId,
    locks: &mut OwnLocks,
    request: &Request<'_>,
) -> Result<(), AllocError>
    requires known { IsKnown names.old t (held_in locks.old) }
    ensures known { IsKnown names.new t (held_in locks.new) }
    ensures others { KeepsOthers names.old t names.new }
    ensures held { OnOk result ((n : LockName) (m : LockMode) → is_held (all_in locks.new) n m ≡ (is_held (all_in locks.old) n m || keeps (requested request.now ∷ []) n m)) }
    ensures lasting { OnOk result ((n : LockName) (m : LockMode) → is_held (seen_all locks.new.lasting) n m ≡ (is_held (seen_all locks.old.lasting) n m || lasts (requested request.now ∷ []) n m)) }
    ensures front { KeepsFront locks.old locks.new }
    ensures err { OnErr result (SameOwn locks.old locks.new) }
{
    match request.duration {
        Duration::Instant => Ok(()),
        Duration::ToFinish => keep_falling(names, t, locks, request.name, request.mode),
        Duration::ToCommit => keep_lasting(names, t, locks, request.name, request.mode),
    }
}

// Adds a lock to those of `t` that fall back, where it is not among them.
fn keep_falling(
    names: &mut NameIndex,
    t: TxnId,
    locks: &mut OwnLocks,
    name: Name<'_>,
    mode: Mode,
) -> Result<(), AllocError>
    requires known { IsKnown names.old t (held_in locks.old) }
    ensures known { IsKnown names.new t (held_in locks.new) }
    ensures others { KeepsOthers names.old t names.new }
    ensures held { OnOk result ((n : LockName) (m : LockMode) → is_held (all_in locks.new) n m ≡ (is_held (all_in locks.old) n m || same_lock (record { name = named name.entry; mode = mode }) n m)) }
    ensures lasting { locks.new.lasting.items ≡ locks.old.lasting.items }
    ensures front { take (length locks.old.falling.items) locks.new.falling.items ≡ locks.old.falling.items }
    ensures err { OnErr result (locks.new.falling.items ≡ locks.old.falling.items) }
{
    add(names, t, Span::Falling, &mut locks.falling, name, mode)
}

// Adds a lock to those of `t` that last, where it is not among them.
fn keep_lasting(
    names: &mut NameIndex,
    t: TxnId,
    locks: &mut OwnLocks,
    name: Name<'_>,
    mode: Mode,
) -> Result<(), AllocError>
    requires known { IsKnown names.old t (held_in locks.old) }
    ensures known { IsKnown names.new t (held_in locks.new) }
    ensures others { KeepsOthers names.old t names.new }
    ensures held { OnOk result ((n : LockName) (m : LockMode) → is_held (all_in locks.new) n m ≡ (is_held (all_in locks.old) n m || same_lock (record { name = named name.entry; mode = mode }) n m)) }
    ensures lasting { OnOk result ((n : LockName) (m : LockMode) → is_held (seen_all locks.new.lasting) n m ≡ (is_held (seen_all locks.old.lasting) n m || same_lock (record { name = named name.entry; mode = mode }) n m)) }
    ensures front { take (length locks.old.lasting.items) locks.new.lasting.items ≡ locks.old.lasting.items }
    ensures falling { locks.new.falling.items ≡ locks.old.falling.items }
    ensures err { OnErr result (locks.new.lasting.items ≡ locks.old.lasting.items) }
{
    add(names, t, Span::Lasting, &mut locks.lasting, name, mode)
}

// Adds a lock to a list of `t`, where it is not there: first its place, and then the lock, with the bytes of its name.
fn add(
    names: &mut NameIndex,
    t: TxnId,
    span: Span,
    locks: &mut Vec<StoredLock>,
    name: Name<'_>,
    mode: Mode,
) -> Result<(), AllocError>
    requires known { Covers names.old t span (seen_all locks.old) }
    requires once { IsOnce (seen_all locks.old) }
    ensures known { Covers names.new t span (seen_all locks.new) }
    ensures once { IsOnce (seen_all locks.new) }
    ensures apart { KeepsApart names.old t span names.new }
    ensures held { OnOk result ((n : LockName) (m : LockMode) → is_held (seen_all locks.new) n m ≡ (is_held (seen_all locks.old) n m || same_lock (record { name = named name.entry; mode = mode }) n m)) }
    ensures front { take (length locks.old.items) locks.new.items ≡ locks.old.items }
    ensures err { OnErr result (locks.new.items ≡ locks.old.items) }
{
    let place = Place {
        owner: t,
        span,
        at: locks.len(),
    };
    if !names.add(name, mode, place, locks.as_slice())? {
        return Ok(());
    }
    if let Err(error) = push_lock(locks, name, mode) {
        names.remove(name, place);
        return Err(error);
    }
    Ok(())
}
