//! Questions as steps.

ghost use Rattle.std.specs.Prelude.{◌≡◌, ◌≢◌, ◌<◌, ◌≤◌, ◌⊎◌, ◌↔◌, IfOk, IfErr};
ghost use Rattle.im_base_types.specs.declared.fault.Fault.TheVariants.{Memory, BadScript};
ghost use Rattle.im_base_steps.specs.Calls.{asked_by};
ghost use Rattle.im_calls.specs.Calls.{asked_bytes, AsksStep};

use crate::call::Call;
use im_base_steps::Step;
use im_base_types::Fault;
use std::alloc::Global;

/// The step that is asked. Refused `BadScript` where the number is no step's, and `Memory` where a step by a key finds none.
pub fn step_of(alloc: Global, call: &Call) -> Result<Step, Fault>
    ensures asked { IfOk result (λ step. AsksStep call.now (asked_by step)) }
    ensures unknown { result ≡ Err BadScript ↔ ((12 < call.now.step) × (call.now.step ≢ 16) × (call.now.step ≢ 17) × (call.now.step ≢ 24)) }
    ensures causes { IfErr result (λ e. (e ≡ Memory) ⊎ (e ≡ BadScript)) }
    ensures memory { result ≡ Err Memory → ((1 ≤ call.now.step) × (call.now.step ≤ 6)) ⊎ (call.now.step ≡ 17) }
{
    let t = call.txn;
    match call.step {
        0 => Ok(Step::Begin),
        1 => Ok(Step::Fetch(t, key_of(alloc, call)?)),
        2 => Ok(Step::Seek(t, key_of(alloc, call)?)),
        3 => Ok(Step::Next(t, key_of(alloc, call)?)),
        4 => Ok(Step::Scan(
            t,
            key_of(alloc, call)?,
            hi_of(alloc, call)?,
            u64::from(call.limit),
        )),
        5 => Ok(Step::Insert(t, key_of(alloc, call)?, call.number)),
        6 => Ok(Step::Delete(t, key_of(alloc, call)?)),
        7 => Ok(Step::Commit(t)),
        8 => Ok(Step::Rollback(t)),
        9 => Ok(Step::Continue(t)),
        10 => Ok(Step::FlushPage(call.limit)),
        11 => Ok(Step::Force),
        12 => Ok(Step::Checkpoint),
        16 => Ok(Step::Switch),
        17 => Ok(Step::Prev(t, key_of(alloc, call)?)),
        24 => Ok(Step::RollTo(t, call.number)),
        _ => Err(Fault::BadScript),
    }
}

fn key_of(alloc: Global, call: &Call) -> Result<Vec<u8>, Fault>
    ensures key { IfOk result (λ key. key.items ≡ asked_bytes call.now.key_len call.now.key) }
    ensures cause { IfErr result (λ e. e ≡ Memory) }
{
    bytes_of(alloc, &call.key, call.key_len)
}

fn hi_of(alloc: Global, call: &Call) -> Result<Vec<u8>, Fault>
    ensures key { IfOk result (λ key. key.items ≡ asked_bytes call.now.hi_len call.now.hi) }
    ensures cause { IfErr result (λ e. e ≡ Memory) }
{
    bytes_of(alloc, &call.hi, call.hi_len)
}

// The first bytes, all where more are asked for.
fn bytes_of(alloc: Global, bytes: &[u8; 256], len: u32) -> Result<Vec<u8>, Fault>
    ensures key { IfOk result (λ key. key.items ≡ asked_bytes len bytes.now) }
    ensures cause { IfErr result (λ e. e ≡ Memory) }
{
    let count = (len as usize).min(256);
    Vec::from_slice(alloc, &bytes[..count]).map_err(|_| Fault::Memory)
}
