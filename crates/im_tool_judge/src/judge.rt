//! The judges of an opening.

ghost use Rattle.std.specs.Prelude.{◌≡◌, ◌↔◌, true, IfOk};
ghost use Rattle.im_base_types.specs.Lives.{NoneAcked};
ghost use Rattle.im_tool_judge.specs.Judged.{IsAllowed, IsGood, IsPassedOver, asked_in, held_entries};

use crate::change::AskedEffect;
use crate::sorted::Sorted;
use im_base_types::{Fault, Key, Rid};
use std::alloc::{AllocError, Global};

/// Whether the entries that an opening found are those of a front of the effects that were asked, with all that were acknowledged.
pub fn is_allowed(
    alloc: Global,
    asked: &[AskedEffect],
    found: &[(Key, Rid)],
) -> Result<bool, AllocError>
    ensures { IfOk result (λ good. good ≡ true ↔ IsAllowed asked.now found.now) }
{
    let mut map = Sorted::new(alloc);
    let mut good = is_front(asked, &map, found);
    for i in 0..asked.len() {
        map.make_all(alloc, &asked[i].changes)?;
        let front = is_front(&asked[i + 1..], &map, found);
        good = good || front;
    }
    Ok(good)
}

/// Whether an opening that came to this is good: the entries that it found are allowed, or what hid them says nothing against the store.
pub fn is_good(
    alloc: Global,
    asked: &[AskedEffect],
    found: Result<Vec<(Key, Rid)>, Fault>,
) -> Result<bool, AllocError>
    ensures { IfOk result (λ good. good ≡ true ↔ IsGood asked.now found) }
{
    match found {
        Ok(found) => {
            let good = is_allowed(alloc, asked, &found)?;
            Ok(good)
        }
        Err(fault) => Ok(is_passed_over(fault)),
    }
}

/// Whether such a refusal says nothing against a store: the frames or the workers are too few or too many.
pub fn is_passed_over(fault: Fault) -> bool
    ensures { result ≡ true ↔ IsPassedOver fault }
{
    fault == Fault::PoolSize || fault == Fault::Workers
}

// Whether none of the effects after a front was acknowledged, and what was found are the entries of the map after that front.
fn is_front(rest: &[AskedEffect], map: &Sorted, found: &[(Key, Rid)]) -> bool
    ensures { result ≡ true ↔ NoneAcked (asked_in rest.now) × (found.now ≡ held_entries map.now.entries.items) }
{
    none_acked(rest) && map.is(found)
}

// Whether none of these was acknowledged.
fn none_acked(asked: &[AskedEffect]) -> bool
    ensures { result ≡ true ↔ NoneAcked (asked_in asked.now) }
{
    for effect in asked {
        if effect.acked {
            return false;
        }
    }
    true
}
