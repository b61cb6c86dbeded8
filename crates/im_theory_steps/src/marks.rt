//! What a row's mark lets its transaction do.

ghost use Rattle.std.specs.Prelude.{◌≡◌, ◌↔◌, true};
ghost use Rattle.im_theory_machine.specs.View.{MayRollBack};
ghost use Rattle.im_theory_steps.specs.Serving.{mark_of};

use im_base_txn::Mark;

/// Whether a transaction of this mark may be rolled back: it is going, or was told to die.
pub fn may_roll_back(mark: Mark) -> bool
    ensures { result ≡ true ↔ MayRollBack (mark_of mark) }
{
    match mark {
        Mark::Going => true,
        Mark::MustRollBack => true,
        Mark::RollingBack => false,
        Mark::Returning(_) => false,
        Mark::Committing => false,
    }
}
