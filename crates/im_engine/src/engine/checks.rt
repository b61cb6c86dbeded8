//! What a row of the table lets its transaction do.

ghost use Rattle.std.specs.Prelude.{◌≡◌, not, ◌&&◌, cond, is_some, None};
ghost use Rattle.im_base_types.specs.Refusals.{key_length, unfinished};
ghost use Rattle.im_theory_machine.specs.Machine.{barred_to, barred_to_rollback, barred_to_continue, fits, or_else, fault_if};
ghost use Rattle.im_theory_machine.specs.View.{pending_of};
ghost use Rattle.im_theory_steps.specs.Checks.{mark_at};
ghost use Rattle.im_engine.specs.Aims.{under_of};
ghost use Rattle.im_engine.specs.Kept.{numbered};

use crate::stepped::{Aim, Under};
use im_base_txn::{Mark, Transaction};
use im_base_types::{Fault, LONGEST_KEY, TxnId};

// Whether an Insert or a Delete of a transaction goes on.
pub(crate) fn owns(under: &Option<Under>, t: TxnId) -> bool
    ensures { result ≡ is_some (pending_of (under_of under.now) t) }
{
    let Some(under) = under else {
        return false;
    };
    if under.begun.change().owner() != t {
        return false;
    }
    match &under.aim {
        Aim::Puts(..) => true,
        Aim::Drops(..) => true,
        Aim::TakesBack => false,
        Aim::TookBack => false,
    }
}

// What it refuses to an access, where an insert or delete of it goes on or not, and its keys have their length or not.
pub(crate) fn to_access(row: Option<Transaction>, owns: bool, fit: bool) -> Option<Fault>
    ensures { numbered result ≡ or_else (barred_to (mark_at row)) (or_else (fault_if owns unfinished) (fault_if (not fit) key_length)) }
{
    if let Some(fault) = by_mark(row) {
        return Some(fault);
    }
    if owns {
        return Some(Fault::Unfinished);
    }
    if fit { None } else { Some(Fault::KeyLength) }
}

// What it refuses to a Commit, where an insert or delete of it goes on or not.
pub(crate) fn to_commit(row: Option<Transaction>, owns: bool) -> Option<Fault>
    ensures { numbered result ≡ or_else (barred_to (mark_at row)) (fault_if owns unfinished) }
{
    if let Some(fault) = by_mark(row) {
        return Some(fault);
    }
    if owns { Some(Fault::Unfinished) } else { None }
}

// What its mark refuses to an access and to a Commit.
fn by_mark(row: Option<Transaction>) -> Option<Fault>
    ensures { numbered result ≡ barred_to (mark_at row) }
{
    let Some(row) = row else {
        return Some(Fault::NoTransaction);
    };
    match row.mark {
        Mark::Going => None,
        Mark::MustRollBack => Some(Fault::MustRollBack),
        Mark::RollingBack => Some(Fault::RollingBack),
        Mark::Returning(_) => Some(Fault::RollingBack),
        Mark::Committing => Some(Fault::NoTransaction),
    }
}

// What it refuses to a Rollback and a RollTo, where an insert or delete of it goes on or not.
pub(crate) fn to_rollback(row: Option<Transaction>, owns: bool) -> Option<Fault>
    ensures { numbered result ≡ or_else (barred_to_rollback (mark_at row)) (fault_if owns unfinished) }
{
    if let Some(fault) = by_mark_to_rollback(row) {
        return Some(fault);
    }
    if owns { Some(Fault::Unfinished) } else { None }
}

fn by_mark_to_rollback(row: Option<Transaction>) -> Option<Fault>
    ensures { numbered result ≡ barred_to_rollback (mark_at row) }
{
    let Some(row) = row else {
        return Some(Fault::NoTransaction);
    };
    match row.mark {
        Mark::Going => None,
        Mark::MustRollBack => None,
        Mark::RollingBack => Some(Fault::RollingBack),
        Mark::Returning(_) => Some(Fault::RollingBack),
        Mark::Committing => Some(Fault::NoTransaction),
    }
}

// What it refuses to a Continue, which serves an insert or delete of it that goes on.
pub(crate) fn to_continue(row: Option<Transaction>, owns: bool) -> Option<Fault>
    ensures { numbered result ≡ cond owns None (barred_to_continue (mark_at row)) }
{
    if owns {
        return None;
    }
    let Some(row) = row else {
        return Some(Fault::NoTransaction);
    };
    match row.mark {
        Mark::Going => Some(Fault::NoTransaction),
        Mark::MustRollBack => Some(Fault::NoTransaction),
        Mark::RollingBack => None,
        Mark::Returning(_) => None,
        Mark::Committing => Some(Fault::NoTransaction),
    }
}

// Whether it has 1 to 255 bytes.
pub(crate) fn has_length(key: &Vec<u8>) -> bool
    ensures { result ≡ fits key.now.items }
{
    !key.is_empty() && key.len() <= LONGEST_KEY
}
