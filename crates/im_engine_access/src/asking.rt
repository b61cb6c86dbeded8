//! What was found, asked of the lock table.

ghost use Rattle.std.specs.Prelude.{◌≡◌, Bool, None, Some, IfErr, IfOk, OnErr};
ghost use Rattle.std.specs.FinMap.{get};
ghost use Rattle.im_base_types.specs.declared.fault.Fault.TheVariants.{Memory};
ghost use Rattle.im_base_types.specs.Keys.{Key as KeyBytes};
ghost use Rattle.im_base_types.specs.Maps.{IndexMap, From, first, last_below};
ghost use Rattle.im_base_types.specs.Answers.{Fetch, Prev, found as found_reply};
ghost use Rattle.im_engine_locks.specs.Found.{name_below};
ghost use Rattle.im_engine_locks.specs.Requests.{named, named_if};
ghost use Rattle.im_theory_machine.specs.Rows.{name_of, next_name};
ghost use Rattle.im_theory_machine.specs.Table.{SameLasting, SameTable};
ghost use Rattle.im_tree_search.specs.Levels.{start_at};
ghost use Rattle.im_tree_search.specs.NextKeys.{IsWithin};
ghost use Rattle.im_engine_access.specs.LockAnswers.{as_found, entry_found, verdict_of, IfGranted, name_in as name_among, seek_at};
ghost use Rattle.im_engine_access.specs.Reads.{IsRead};

use crate::lock_answer::LockAnswer;
use im_base_types::{Fault, Key, Rid, TxnId};
use im_engine_locks::{LockTable, Name, fetch_row, prev_row, seek_row};
use im_page::Page;
use im_theory_machine::Verdict;
use im_tree_search::NextKey;

/// The name of the next key beside a leaf.
pub fn name_in<'a>(leaf: &'a Page, next: &'a NextKey) -> Name<'a>
    requires { IsWithin leaf.now.body.entries next.now }
    ensures { named result ≡ name_among leaf.now.body.entries next.now }
{
    match next {
        NextKey::Here(at) => Name::Key(leaf.key(*at)),
        NextKey::There(key) => Name::Key(key.bytes()),
        NextKey::End => Name::End,
    }
}

/// The outcome of a verdict: where the locks are granted, this value is the step's.
pub fn outcome_of<T: Drop>(verdict: Verdict, value: T) -> LockAnswer<T>
    ensures verdict { verdict_of result ≡ verdict }
    ensures value { IfGranted result (λ x. x ≡ value) }
{
    match verdict {
        Verdict::Granted => LockAnswer::Granted(value),
        Verdict::Wait(holder) => LockAnswer::Wait(holder),
        Verdict::Die => LockAnswer::Die,
    }
}

// The name of what was found.
pub(crate) fn name_found(found: &Option<(Box<Key>, Rid)>) -> Name<'_>
    ensures { named result ≡ name_of (as_found found.now) }
{
    match found {
        Some((key, _)) => Name::Key(key.bytes()),
        None => Name::End,
    }
}

// The name of what was found below a key, where anything was.
pub(crate) fn name_if_found(found: &Option<(Box<Key>, Rid)>) -> Option<Name<'_>>
    ensures { named_if result ≡ name_below (as_found found.now) }
{
    match found {
        Some((key, _)) => Some(Name::Key(key.bytes())),
        None => None,
    }
}

// Asks what a Fetch asks of a key that is there.
pub(crate) fn ask_there(
    locks: &mut LockTable,
    transaction: TxnId,
    key: &[u8],
    rid: Rid,
) -> Result<LockAnswer<Option<Rid>>, Fault>
    ensures read { (m : IndexMap) → get m key.now ≡ Some rid → IfOk result (IsRead found_reply transaction (Fetch key.now) m locks.old locks.new) }
    ensures memory { IfErr result (λ e. e ≡ Memory) }
    ensures table { OnErr result (SameTable locks.old locks.new) }
    ensures lasting { OnErr result (SameLasting locks.old locks.new) }
{
    let row = fetch_row(key, true, Name::End);
    let verdict = locks.try_all(transaction, row.as_slice())?;
    Ok(outcome_of(verdict, Some(rid)))
}

// Asks what a Fetch asks of a key that is not there: the name after it, beside its leaf.
pub(crate) fn ask_gap(
    locks: &mut LockTable,
    transaction: TxnId,
    key: &[u8],
    leaf: &Page,
    next: &NextKey,
) -> Result<LockAnswer<Option<Rid>>, Fault>
    requires { IsWithin leaf.now.body.entries next.now }
    ensures read { (m : IndexMap) → get m key.now ≡ None → name_among leaf.now.body.entries next.now ≡ next_name m key.now → IfOk result (IsRead found_reply transaction (Fetch key.now) m locks.old locks.new) }
    ensures memory { IfErr result (λ e. e ≡ Memory) }
    ensures table { OnErr result (SameTable locks.old locks.new) }
    ensures lasting { OnErr result (SameLasting locks.old locks.new) }
{
    let row = fetch_row(key, false, name_in(leaf, next));
    let verdict = locks.try_all(transaction, row.as_slice())?;
    Ok(outcome_of(verdict, None))
}

// Asks the lock of the entry that a search found from a key on, or from above it; else that of the name past the last key.
pub(crate) fn ask_found(
    locks: &mut LockTable,
    transaction: TxnId,
    found: Option<(Box<Key>, Rid)>,
) -> Result<LockAnswer<Option<(Box<Key>, Rid)>>, Fault>
    ensures read { (m : IndexMap) (key : KeyBytes) (inclusive : Bool) → as_found found ≡ first (start_at inclusive key) m → IfOk result (IsRead entry_found transaction (seek_at inclusive key) m locks.old locks.new) }
    ensures memory { IfErr result (λ e. e ≡ Memory) }
    ensures table { OnErr result (SameTable locks.old locks.new) }
    ensures lasting { OnErr result (SameLasting locks.old locks.new) }
{
    let row = seek_row(name_found(&found));
    let verdict = locks.try_all(transaction, row.as_slice())?;
    Ok(outcome_of(verdict, found))
}

// Asks the locks of what a search found around a key: of the first entry at or above it, else of the name past the last key, and of the
// last below it, which is answered.
pub(crate) fn ask_around(
    locks: &mut LockTable,
    transaction: TxnId,
    below: Option<(Box<Key>, Rid)>,
    next: Option<(Box<Key>, Rid)>,
) -> Result<LockAnswer<Option<(Box<Key>, Rid)>>, Fault>
    ensures read { (m : IndexMap) (key : KeyBytes) → as_found below ≡ last_below key m → as_found next ≡ first (From key) m → IfOk result (IsRead entry_found transaction (Prev key) m locks.old locks.new) }
    ensures memory { IfErr result (λ e. e ≡ Memory) }
    ensures table { OnErr result (SameTable locks.old locks.new) }
    ensures lasting { OnErr result (SameLasting locks.old locks.new) }
{
    let row = prev_row(name_if_found(&below), name_found(&next));
    let verdict = locks.try_all(transaction, row.as_slice())?;
    Ok(outcome_of(verdict, below))
}
