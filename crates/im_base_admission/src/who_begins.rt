//! Who may begin now, over plain numbers.

ghost use Rattle.std.specs.Prelude.{◌≡◌, ◌<◌, ◌≤◌, ◌+◌, ◌↔◌, true};
ghost use Rattle.im_base_admission.specs.declared.precedence.Precedence.TheVariants.{Nobody};
ghost use Rattle.im_base_admission.specs.Admission.{MayGoOn, precedence_of};

use crate::precedence::{FEW, Precedence};

/// Whether a transaction may begin now. `mine` is the number that it had when it gave way, 0 where it begins for the first time; `oldest` the least number of
/// the others that are active and that it waits for, 0 where there is none.
pub fn may_go_on(mine: u64, oldest: u64, first: Precedence) -> bool
    ensures { result ≡ true ↔ MayGoOn mine oldest first }
{
    match first {
        Precedence::Nobody => mine == 0 || oldest == 0 || mine < oldest,
        Precedence::Asker => oldest == 0,
        Precedence::Another => false,
    }
}

/// Whether one that has given way so often is first from now on.
pub fn becomes_first(agains: u64, first: Precedence) -> bool
    ensures { result ≡ true ↔ ((4 ≤ agains) × (first ≡ Nobody)) }
{
    agains >= FEW && matches!(first, Precedence::Nobody)
}

/// Who is first, for one with this ticket, where the one that is first has the other; 0 is nobody's.
pub fn whose(first: u64, ticket: u64) -> Precedence
    ensures { result ≡ precedence_of first ticket }
{
    if first == 0 {
        Precedence::Nobody
    } else if first == ticket {
        Precedence::Asker
    } else {
        Precedence::Another
    }
}

/// Whether one that made its last step, or came, at a tick is left alone by now.
pub fn is_left_alone(now: u64, patience: u64, since: u64) -> bool
    ensures { result ≡ true ↔ (since + patience ≤ now) }
{
    now >= patience && now - patience >= since
}
