//! Laws of look-ups.

ghost use Rattle.im_base_txn.specs.LookUps.{LookUpsFollow, NumbersStayBelow};

/// What is found in a table once a transaction has begun, was changed or has ended. It does nothing: its contract is
/// the law.
pub fn look_ups_follow()
    ensures { LookUpsFollow }
{}

/// Numbers stay below the next one to be given. It does nothing: its contract is the law.
pub fn law_numbers_stay_below()
    ensures { NumbersStayBelow }
{}
