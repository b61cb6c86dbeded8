//! What is asked of a store that many transactions use at once.

ghost use Rattle.std.specs.Prelude.{◌≡◌, ◌<◌, ◌^◌, IfOk};
ghost use Rattle.im_base_types.specs.Faults.{number_of};
ghost use Rattle.im_base_types.specs.Lives.{breaks};
ghost use Rattle.im_base_steps.specs.Calls.{asked_by, told_by, may_end, may_unblock, most_entries, most_key};
ghost use Rattle.im_base_steps.specs.Replies.{waits_after};

use crate::reply::Reply;
use im_base_types::{Fault, LONGEST_KEY, MOST_ENTRIES, PageNo, Rid, TxnId};
use std::alloc::{AllocError, Global};

/// A step, made by one call. A key or a bound is handed in as bytes; where it has 0 bytes or more than 255 the step
/// is refused.
#[derive(Drop)]
pub enum Step {
    /// Begins a transaction.
    Begin,
    /// The row id of a key.
    Fetch(TxnId, Vec<u8>),
    /// The entry of the least key from this one on.
    Seek(TxnId, Vec<u8>),
    /// The entry of the least key above this one.
    Next(TxnId, Vec<u8>),
    /// The entry of the greatest key below this one.
    Prev(TxnId, Vec<u8>),
    /// The first entries from the first key to the second, as many as the limit, which is brought into 1 to 256.
    Scan(TxnId, Vec<u8>, Vec<u8>, u64),
    /// Puts a key with its row id, where it is not there yet.
    Insert(TxnId, Vec<u8>, Rid),
    /// Drops a key.
    Delete(TxnId, Vec<u8>),
    /// Makes all that the transaction did durable, and ends it: at once, or with the next force where it is answered `More`.
    Commit(TxnId),
    /// Takes back what the transaction did: ends it where that is nothing, and else begins to.
    Rollback(TxnId),
    /// Takes back the newest change of a transaction that is rolling back, and ends it after the last.
    Continue(TxnId),
    /// Takes back the newest changes of a transaction until so many are left: answered `Done` where no more are there, and else begins to,
    /// up to the Continue that is answered `Done`. It keeps its locks, and goes on.
    RollTo(TxnId, u64),
    /// Writes a page in place, where something of it is left to be written.
    FlushPage(PageNo),
    /// Makes every record so far durable.
    Force,
    /// Asks that a restart may begin later in the log. A store whose log has no checkpoints makes every record durable, as `Force` does.
    Checkpoint,
    /// Asks that the log goes on empty in another file, so that a restart reads nothing of it so far. Refused `Busy` while a transaction is
    /// active, or its Commit waits for a force. A store without such a log makes every record durable, as `Force` does.
    Switch,
}

impl Step {
    /// A step that asks the same.
    pub fn try_clone(&self, alloc: Global) -> Result<Step, AllocError>
        ensures { IfOk result (λ copy. asked_by copy ≡ asked_by self.now) }
    {
        Ok(match self {
            Step::Begin => Step::Begin,
            Step::Fetch(t, key) => Step::Fetch(*t, copied(alloc, key)?),
            Step::Seek(t, key) => Step::Seek(*t, copied(alloc, key)?),
            Step::Next(t, key) => Step::Next(*t, copied(alloc, key)?),
            Step::Prev(t, key) => Step::Prev(*t, copied(alloc, key)?),
            Step::Scan(t, lo, hi, limit) => {
                Step::Scan(*t, copied(alloc, lo)?, copied(alloc, hi)?, *limit)
            }
            Step::Insert(t, key, rid) => Step::Insert(*t, copied(alloc, key)?, *rid),
            Step::Delete(t, key) => Step::Delete(*t, copied(alloc, key)?),
            Step::Commit(t) => Step::Commit(*t),
            Step::Rollback(t) => Step::Rollback(*t),
            Step::Continue(t) => Step::Continue(*t),
            Step::RollTo(t, left) => Step::RollTo(*t, *left),
            Step::FlushPage(page) => Step::FlushPage(*page),
            Step::Force => Step::Force,
            Step::Checkpoint => Step::Checkpoint,
            Step::Switch => Step::Switch,
        })
    }

    /// Whether it may end a transaction, where so many wait for a force: a Commit, a Rollback, a Continue, and a Force where some wait. Such a
    /// step is never refused for a full trace.
    pub fn may_end(&self, waiting: u64) -> bool
        ensures { result ≡ may_end waiting (asked_by self.now) }
    {
        match self {
            Step::Commit(_) | Step::Rollback(_) | Step::Continue(_) => true,
            Step::Force => waiting > 0,
            _ => false,
        }
    }

    /// Whether a step that is `Blocked` is worth making again after this one with this reply: a transaction has ended, or may have where a
    /// force was made, or a structure change, in a Continue that was made; or the engine has failed.
    pub fn may_unblock(&self, reply: &Reply) -> bool
        ensures { result ≡ may_unblock (asked_by self.now) (told_by reply.now) }
    {
        match reply {
            Reply::Committed | Reply::RolledBack => true,
            Reply::Done => matches!(self, Step::Force | Step::Continue(_)),
            Reply::Refused(fault) => breaks(*fault),
            Reply::Blocked(_) => false,
            _ => matches!(self, Step::Continue(_)),
        }
    }

    /// How many wait for a force after this step with this reply, where so many waited before it.
    pub fn waits_after(&self, waiting: u64, reply: &Reply) -> u64
        requires { waiting < 2 ^ 63 }
        ensures { result ≡ waits_after waiting (asked_by self.now) (told_by reply.now) }
    {
        match (self, reply) {
            (Step::Commit(_), Reply::More) => waiting + 1,
            (Step::Force, Reply::Done) => 0,
            _ => waiting,
        }
    }

    /// How many entries its reply may have at most.
    pub fn most_entries(&self) -> usize
        ensures { result ≡ most_entries (asked_by self.now) }
    {
        match self {
            Step::Scan(_, _, _, limit) => (*limit).clamp(1, MOST_ENTRIES as u64) as usize,
            _ => 0,
        }
    }

    /// How many bytes the key of its reply may have at most.
    pub fn most_key(&self) -> usize
        ensures { result ≡ most_key (asked_by self.now) }
    {
        match self {
            Step::Seek(..) | Step::Next(..) | Step::Prev(..) => LONGEST_KEY,
            _ => 0,
        }
    }
}

// Whether a refusal for this fault leaves an engine that has failed.
fn breaks(fault: Fault) -> bool
    ensures { result ≡ breaks (number_of fault) }
{
    matches!(
        fault,
        Fault::Capacity | Fault::LogFull | Fault::Device | Fault::Failed | Fault::NotAStore
    )
}

// The same bytes.
fn copied(alloc: Global, key: &Vec<u8>) -> Result<Vec<u8>, AllocError>
    ensures { IfOk result (λ copy. copy.items ≡ key.now.items) }
{
    let mut copy = Vec::new(alloc);
    copy.extend_from_slice(key.as_slice())?;
    Ok(copy)
}
