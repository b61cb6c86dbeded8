//! What a Scan asks of the lock table.

ghost use Rattle.std.specs.Prelude.{◌≡◌, ℕ, IfOk, IfErr, ◌++◌, map};
ghost use Rattle.im_base_types.specs.declared.fault.Fault.TheVariants.{Memory};
ghost use Rattle.im_base_types.specs.Keys.{Key as KeyBytes};
ghost use Rattle.im_base_types.specs.Maps.{IndexMap};
ghost use Rattle.im_base_types.specs.Answers.{Scan};
ghost use Rattle.im_theory_machine.specs.Locks.{At};
ghost use Rattle.im_theory_machine.specs.Rows.{asked, shared as asked_shared};
ghost use Rattle.im_engine_locks.specs.Requests.{row, named_if};
ghost use Rattle.im_engine_locks.specs.Found.{IsScanOf, end_row};

use crate::name::Name;
use crate::request::Request;
use crate::rows::shared;
use im_base_types::{Fault, Key, Rid};
use std::alloc::{AllocError, Global};

/// What a Scan asks: each entry that it answers and, where these are fewer than its limit, the name of the first key
/// above its range. Refused `Memory` where it is wanted for the row.
pub fn scan_row<'a>(
    alloc: Global,
    entries: &'a [(Key, Rid)],
    end: Option<Name<'a>>,
) -> Result<Vec<Request<'a>>, Fault>
    ensures row { IfOk result (λ requests. (m : IndexMap) (lo hi : KeyBytes) (n : ℕ) → IsScanOf m lo hi n entries.now (named_if end.entry) → row requests.items ≡ asked (Scan lo hi n) m) }
    ensures refused { IfErr result (λ fault. fault ≡ Memory) }
{
    match read_all(alloc, entries, end) {
        Ok(requests) => Ok(requests),
        Err(_) => Err(Fault::Memory),
    }
}

// A shared lock for each entry, and for the name after them.
fn read_all<'a>(
    alloc: Global,
    entries: &'a [(Key, Rid)],
    end: Option<Name<'a>>,
) -> Result<Vec<Request<'a>>, AllocError>
    ensures { IfOk result (λ requests. row requests.items ≡ map (λ e. asked_shared (At e.0)) entries.now ++ end_row (named_if end.entry)) }
{
    let mut requests = read_entries(alloc, entries)?;
    if let Some(name) = end {
        requests.push(shared(name))?;
    }
    Ok(requests)
}

// A shared lock for each entry.
fn read_entries<'a>(
    alloc: Global,
    entries: &'a [(Key, Rid)],
) -> Result<Vec<Request<'a>>, AllocError>
    ensures { IfOk result (λ requests. row requests.items ≡ map (λ e. asked_shared (At e.0)) entries.now) }
{
    let mut requests = Vec::with_capacity(alloc, entries.len().saturating_add(1))?;
    for (key, _) in entries {
        requests.push(shared(Name::Key(key.bytes())))?;
    }
    Ok(requests)
}
