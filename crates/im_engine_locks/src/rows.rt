//! What each access asks of the lock table, from what its search found.

ghost use Rattle.std.specs.Prelude.{◌≡◌, ℕ};
ghost use Rattle.im_base_types.specs.Keys.{Key};
ghost use Rattle.im_base_types.specs.Maps.{IndexMap, From, first};
ghost use Rattle.im_base_types.specs.Answers.{Fetch, Seek, Next, Prev, Insert, Delete};
ghost use Rattle.im_theory_machine.specs.Rows.{asked, name_of, next_name};
ghost use Rattle.im_theory_machine.specs.Changing.{asked_begun};
ghost use Rattle.im_engine_locks.specs.Requests.{named, row, named_if, requests_of};
ghost use Rattle.im_engine_locks.specs.Found.{FindsNextName, FindsBelow, FindsNext};
ghost use Rattle.im_theory_machine.specs.declared.lock_kind.Mode.TheVariants.{Shared, Exclusive};
ghost use Rattle.im_theory_machine.specs.declared.lock_kind.Duration.TheVariants.{ToCommit};

use crate::name::Name;
use crate::request::Request;
use crate::row::Row;
use im_theory_machine::{Duration, Mode};

/// A shared lock to commit: what an entry that is read asks, and the end of what is read.
pub fn shared(name: Name<'_>) -> Request<'_>
    ensures { result ≡ record { name = name.entry; mode = Shared; duration = ToCommit } }
{
    Request {
        name,
        mode: Mode::Shared,
        duration: Duration::ToCommit,
    }
}

// An exclusive lock.
fn exclusive(name: Name<'_>, duration: Duration) -> Request<'_>
    ensures { result ≡ record { name = name.entry; mode = Exclusive; duration = duration } }
{
    Request {
        name,
        mode: Mode::Exclusive,
        duration,
    }
}

/// What a Fetch asks: the key where it is there, else the next name, which is looked at only then.
pub fn fetch_row<'a>(key: &'a [u8], there: bool, next: Name<'a>) -> Row<'a>
    ensures { (m : IndexMap) → FindsNextName m key.now there (named next.entry) → row (requests_of result) ≡ asked (Fetch key.now) m }
{
    Row::one(shared(if there { Name::Key(key) } else { next }))
}

/// What a Seek or a Next asks: the name of what was found.
pub fn seek_row(found: Name<'_>) -> Row<'_>
    ensures seek { (m : IndexMap) (k : Key) → named found.entry ≡ name_of (first (From k) m) → row (requests_of result) ≡ asked (Seek k) m }
    ensures next { (m : IndexMap) (k : Key) → named found.entry ≡ next_name m k → row (requests_of result) ≡ asked (Next k) m }
{
    Row::one(shared(found))
}

/// What a Prev asks: the least name at or above its key, which guards the gap below that key, and the key that was found.
pub fn prev_row<'a>(found: Option<Name<'a>>, next: Name<'a>) -> Row<'a>
    ensures { (m : IndexMap) (k : Key) → FindsBelow m k (named_if found.entry) (named next.entry) → row (requests_of result) ≡ asked (Prev k) m }
{
    match found {
        Some(name) => Row::two(shared(next), shared(name)),
        None => Row::one(shared(next)),
    }
}

/// What an Insert asks: where the key is there the key, shared; else the next name for the instant and the key.
pub fn insert_row<'a>(key: &'a [u8], there: bool, next: Name<'a>) -> Row<'a>
    ensures { (m : IndexMap) (rid : ℕ) → FindsNextName m key.now there (named next.entry) → row (requests_of result) ≡ asked (Insert key.now rid) m }
{
    let name = Name::Key(key);
    if there {
        Row::one(shared(name))
    } else {
        Row::two(
            exclusive(next, Duration::Instant),
            exclusive(name, Duration::ToCommit),
        )
    }
}

/// What an Insert of a key that is not there asks where it ends in a later step: the next name until its structure change ends, and the key.
pub fn insert_row_to_finish<'a>(key: &'a [u8], next: Name<'a>) -> Row<'a>
    ensures { (m : IndexMap) → named next.entry ≡ next_name m key.now → row (requests_of result) ≡ asked_begun key.now m }
{
    Row::two(
        exclusive(next, Duration::ToFinish),
        exclusive(Name::Key(key), Duration::ToCommit),
    )
}

/// What a Delete asks: where the key is there the next name and, for the instant, the key; else the next name, shared.
pub fn delete_row<'a>(key: &'a [u8], there: bool, next: Name<'a>) -> Row<'a>
    ensures { (m : IndexMap) → FindsNext m key.now there (named next.entry) → row (requests_of result) ≡ asked (Delete key.now) m }
{
    let name = Name::Key(key);
    if there {
        Row::two(
            exclusive(next, Duration::ToCommit),
            exclusive(name, Duration::Instant),
        )
    } else {
        Row::one(shared(next))
    }
}
