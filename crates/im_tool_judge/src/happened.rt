//! What happened to a transaction, and how it is found then.

ghost use Rattle.std.specs.Prelude.{◌≡◌, ◌++◌, true, false, [], None, Some, IfOk};
ghost use Rattle.im_base_types.specs.Answers as answers;
ghost use Rattle.im_base_types.specs.Lives.{Running, idle, oldest, shown_change};
ghost use Rattle.im_tool_judge.specs.Judged.{change_of, newest_before};
ghost use Rattle.im_tool_judge.specs.Shows.{IsFound, behind, effect_in, pending_in, running_from};

use crate::change::Change;
use im_base_types::TxnId;
use std::alloc::{AllocError, Global};

/// What happened to a transaction.
#[derive(Drop)]
pub(crate) enum Happened {
    Began,
    Changed(Change),
    /// Its access that makes this change goes on.
    GoesOn(Change),
    /// An access of it that went on was answered `Inserted`.
    InsertEnded,
    /// An access of it that went on was answered `Deleted`.
    DeleteEnded,
    /// It was answered `Die`.
    Died,
    /// It takes its changes back.
    Turned,
    /// It takes its newest changes back until so many are left.
    Returned(u64),
    /// It has done so, or had none to take back, and goes on.
    Resumed,
    /// Its Commit waits for a force.
    Waited,
    Ended,
}

/// Something that happened to a transaction.
#[derive(Drop)]
pub(crate) struct Event {
    pub(crate) txn: TxnId,
    pub(crate) what: Happened,
}

/// A transaction as it is found: whether it is going, its changes, the oldest first, and the change of its access that goes on.
#[derive(Drop)]
pub(crate) struct Found {
    pub(crate) going: bool,
    pub(crate) changes: Vec<Change>,
    pub(crate) pending: Option<Change>,
}

/// A transaction after all that happened.
pub(crate) fn find(alloc: Global, events: &[Event], txn: TxnId) -> Result<Found, AllocError>
    ensures { IfOk result (λ found. IsFound found (running_from txn idle events.now)) }
{
    let mut found = Found {
        going: false,
        changes: Vec::new(alloc),
        pending: None,
    };
    for event in events {
        if event.txn != txn {
            continue;
        }
        found = behind(alloc, found, &event.what)?;
    }
    Ok(found)
}

fn behind(alloc: Global, found: Found, what: &Happened) -> Result<Found, AllocError>
    ensures { IfOk result (λ new. (r : Running) → IsFound found r → IsFound new (behind what.now r)) }
{
    match what {
        Happened::Began => Ok(Found {
            going: true,
            changes: Vec::new(alloc),
            pending: None,
        }),
        Happened::Changed(change) => {
            let Found {
                going,
                mut changes,
                pending,
            } = found;
            changes.push(copied(alloc, change)?)?;
            Ok(Found {
                going,
                changes,
                pending,
            })
        }
        Happened::GoesOn(change) => {
            let Found {
                going,
                changes,
                pending: _pending,
            } = found;
            let copy = copied(alloc, change)?;
            Ok(Found {
                going,
                changes,
                pending: Some(copy),
            })
        }
        Happened::InsertEnded => insert_ended(found),
        Happened::DeleteEnded => delete_ended(found),
        Happened::Died => Ok(stopped(found)),
        Happened::Turned => Ok(stopped(found)),
        Happened::Returned(left) => Ok(returned(found, *left)),
        Happened::Resumed => Ok(resumed(found)),
        Happened::Waited => Ok(stopped(found)),
        Happened::Ended => Ok(Found {
            going: false,
            changes: Vec::new(alloc),
            pending: None,
        }),
    }
}

// What went on was answered, and shows its change if it was an insert.
fn insert_ended(found: Found) -> Result<Found, AllocError>
    ensures { IfOk result (λ new. (r : Running) → IsFound found r → IsFound new (record r { effect = shown_change r.pending answers.Inserted ++ r.effect; pending = None })) }
{
    let Found {
        going,
        changes,
        pending,
    } = found;
    joined(going, changes, if_insertion(pending))
}

// The same for a delete.
fn delete_ended(found: Found) -> Result<Found, AllocError>
    ensures { IfOk result (λ new. (r : Running) → IsFound found r → IsFound new (record r { effect = shown_change r.pending answers.Deleted ++ r.effect; pending = None })) }
{
    let Found {
        going,
        changes,
        pending,
    } = found;
    joined(going, changes, if_deletion(pending))
}

fn if_insertion(pending: Option<Change>) -> Option<Change>
    ensures { effect_in result ≡ shown_change (pending_in pending) answers.Inserted }
{
    match pending {
        Some(change) => only_insertion(change),
        None => None,
    }
}

fn only_insertion(change: Change) -> Option<Change>
    ensures { effect_in result ≡ shown_change (pending_in (Some change)) answers.Inserted }
{
    match change {
        Change::Insertion(key, rid) => Some(Change::Insertion(key, rid)),
        Change::Deletion(_key) => None,
    }
}

fn if_deletion(pending: Option<Change>) -> Option<Change>
    ensures { effect_in result ≡ shown_change (pending_in pending) answers.Deleted }
{
    match pending {
        Some(change) => only_deletion(change),
        None => None,
    }
}

fn only_deletion(change: Change) -> Option<Change>
    ensures { effect_in result ≡ shown_change (pending_in (Some change)) answers.Deleted }
{
    match change {
        Change::Insertion(_key, _rid) => None,
        Change::Deletion(key) => Some(Change::Deletion(key)),
    }
}

// A transaction with one change more, where there is one, and nothing that goes on.
#[tactic(auto, using(crate::proofs::Shows::newest_push))]
fn joined(going: bool, changes: Vec<Change>, more: Option<Change>) -> Result<Found, AllocError>
    ensures going { IfOk result (λ new. new.going ≡ going) }
    ensures changes { IfOk result (λ new. newest_before new.changes.items [] ≡ effect_in more ++ newest_before changes.items []) }
    ensures pending { IfOk result (λ new. new.pending ≡ None) }
{
    let mut changes = changes;
    if let Some(change) = more {
        changes.push(change)?;
    }
    Ok(Found {
        going,
        changes,
        pending: None,
    })
}

// It makes no more changes, and those that it made are kept.
fn stopped(found: Found) -> Found
    ensures going { result.going ≡ false }
    ensures changes { result.changes ≡ found.changes }
    ensures pending { result.pending ≡ found.pending }
{
    let Found {
        going: _going,
        changes,
        pending,
    } = found;
    Found {
        going: false,
        changes,
        pending,
    }
}

// It makes no more changes until its newest ones are taken back, and so many are left.
#[tactic(auto, using(crate::proofs::Returned::oldest_kept, crate::proofs::Returned::oldest_few))]
fn returned(found: Found, left: u64) -> Found
    ensures going { result.going ≡ false }
    ensures changes { newest_before result.changes.items [] ≡ oldest left (newest_before found.changes.items []) }
    ensures pending { result.pending ≡ found.pending }
{
    let Found {
        going: _going,
        mut changes,
        pending,
    } = found;
    if left < changes.len() as u64 {
        changes.truncate(left as usize);
    }
    Found {
        going: false,
        changes,
        pending,
    }
}

// It goes on with what it has.
fn resumed(found: Found) -> Found
    ensures going { result.going ≡ true }
    ensures changes { result.changes ≡ found.changes }
    ensures pending { result.pending ≡ found.pending }
{
    let Found {
        going: _going,
        changes,
        pending,
    } = found;
    Found {
        going: true,
        changes,
        pending,
    }
}

fn copied(alloc: Global, change: &Change) -> Result<Change, AllocError>
    ensures { IfOk result (λ copy. change_of copy ≡ change_of change.now) }
{
    match change {
        Change::Insertion(key, rid) => Ok(Change::Insertion(Vec::from_slice(alloc, key)?, *rid)),
        Change::Deletion(key) => Ok(Change::Deletion(Vec::from_slice(alloc, key)?)),
    }
}
