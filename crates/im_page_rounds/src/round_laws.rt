//! Laws of rounds. These functions do nothing: their contracts are the laws.

ghost use Rattle.im_page_rounds.specs.Rounds.{AllHeld, CountsAdd, EntriesFollow, InRounds, NeedChanges, NeedOwnRecords, RoundsAreKept, RoundsLeave};

/// A page needs its own records alone.
pub fn pages_need_their_own_records()
    ensures { NeedOwnRecords }
{}

/// The records that change no page may be passed over.
pub fn pages_need_changes_alone()
    ensures { NeedChanges }
{}

/// Two rounds, one after the other, are one round of both.
pub fn rounds_come_after_another()
    ensures { InRounds }
{}

/// What a round leaves of a writer.
pub fn rounds_leave()
    ensures { RoundsLeave }
{}

/// A round keeps what a writer keeps.
pub fn a_round_is_kept()
    ensures { RoundsAreKept }
{}

/// The pages of a round are all held after the last get.
pub fn a_round_is_held()
    ensures { AllHeld }
{}

/// What a round leaves of a page's entry.
pub fn entries_follow()
    ensures { EntriesFollow }
{}

/// The counts of the pages are the count of the round.
pub fn counts_add()
    ensures { CountsAdd }
{}
