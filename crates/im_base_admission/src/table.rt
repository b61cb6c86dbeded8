//! Who may begin now, over the table of those that are active.

ghost use Rattle.std.specs.Prelude.{◌≡◌, ◌<◌, ◌≤◌, ◌⊎◌, ◌↔◌, true};
ghost use Rattle.im_base_admission.specs.Admission.{IsOwn, IsAwaitedBy, IsPatient, IsLeastOf, IsLeastWith, Owns, MayBegin, came_for};

use crate::asker::Asker;
use crate::going::Going;
use crate::precedence::Precedence;
use crate::who_begins::{becomes_first, is_left_alone, may_go_on, whose};

/// Whether a transaction may begin now. Who has another one active in its thread does not wait, as somebody may wait for what it would wait for.
pub fn may_begin(going: &[Going], first: u64, asker: &Asker) -> bool
    ensures { result ≡ true ↔ MayBegin going.now first asker.now }
{
    if has_own(going, asker.thread) {
        return true;
    }
    let first = whose(first, asker.ticket);
    let oldest = oldest(going, asker, came_for(first, asker.came));
    may_go_on(asker.mine, oldest, first)
}

/// The least number of those that are active and are waited for by one that asks, and came at this tick; 0 where there is none.
pub fn oldest(going: &[Going], asker: &Asker, came: u64) -> u64
    ensures { IsLeastOf (IsAwaitedBy asker.now came) (λ g. g.number) going.now result }
{
    let mut least = 0;
    for one in going {
        least = with_awaited(least, asker, came, one);
    }
    least
}

/// Of those that wait to begin again and have given way four times, the number of the one that began the earliest; 0 where there is none. It is first from now
/// on, where nobody is.
pub fn earliest(going: &[Going]) -> u64
    ensures { IsLeastOf IsPatient (λ g. g.had) going.now result }
{
    let mut least = 0;
    for one in going {
        least = with_patient(least, one);
    }
    least
}

/// Whether this thread has a transaction active.
pub fn has_own(going: &[Going], thread: u64) -> bool
    ensures { result ≡ true ↔ Owns thread going.now }
{
    own(going, thread) > 0
}

// The least number of those of this thread that are active; 0 where there is none.
fn own(going: &[Going], thread: u64) -> u64
    ensures { IsLeastOf (IsOwn thread) (λ g. g.number) going.now result }
{
    let mut least = 0;
    for one in going {
        least = with_own(least, thread, one);
    }
    least
}

// Since when one that came at this tick has waited for those that are left alone.
fn came_for(first: Precedence, came: u64) -> u64
    ensures { result ≡ came_for first came }
{
    match first {
        Precedence::Nobody | Precedence::Another => came,
        Precedence::Asker => 0,
    }
}

// Whether a transaction is of this thread.
fn is_own(thread: u64, one: &Going) -> bool
    ensures { result ≡ true ↔ IsOwn thread one.now }
{
    thread != 0 && one.number != 0 && one.thread == thread
}

// Whether one that asks, and came at this tick, waits for a transaction.
fn is_awaited(asker: &Asker, came: u64, one: &Going) -> bool
    ensures { result ≡ true ↔ IsAwaitedBy asker.now came one.now }
{
    let Asker {
        tick,
        patience,
        thread,
        ..
    } = *asker;
    one.number != 0
        && !is_own(thread, one)
        && (!is_left_alone(tick, patience, one.seen) || !is_left_alone(tick, patience, came))
}

// Whether one waits to begin again, and has given way so often that it may be first.
fn is_patient(one: &Going) -> bool
    ensures { result ≡ true ↔ IsPatient one.now }
{
    one.had != 0 && becomes_first(one.agains, Precedence::Nobody)
}

// The least number of those that are waited for, where one more is looked at.
fn with_awaited(least: u64, asker: &Asker, came: u64, one: &Going) -> u64
    ensures { IsLeastWith (IsAwaitedBy asker.now came one.now) one.now.number least result }
{
    if is_awaited(asker, came, one) {
        older(least, one.number)
    } else {
        least
    }
}

// The same of those that are patient, by the numbers that they had.
fn with_patient(least: u64, one: &Going) -> u64
    ensures { IsLeastWith (IsPatient one.now) one.now.had least result }
{
    if is_patient(one) {
        older(least, one.had)
    } else {
        least
    }
}

// The same of those of a thread.
fn with_own(least: u64, thread: u64, one: &Going) -> u64
    ensures { IsLeastWith (IsOwn thread one.now) one.now.number least result }
{
    if is_own(thread, one) {
        older(least, one.number)
    } else {
        least
    }
}

// The less of two numbers, where 0 is none.
fn older(number: u64, other: u64) -> u64
    requires { 0 < other }
    ensures some { (0 < result) × (result ≤ other) }
    ensures less { 0 < number → result ≤ number }
    ensures one { (result ≡ number) ⊎ (result ≡ other) }
{
    if number == 0 || other < number {
        other
    } else {
        number
    }
}
