//! Worked runs of the machine.

ghost use Rattle.im_theory_machine.specs.Worked.{AGapStays};
ghost use Rattle.im_theory_machine.specs.WorkedReturns.{AGapOpens, AReturnIsTold};

/// One transaction finds a key missing, and a younger one would put it there: it dies, and no move from there puts
/// the key there. It does nothing: its contract is the run.
pub fn a_gap_that_was_read_stays()
    ensures { AGapStays }
{}

/// One transaction puts two keys, returns to its first change, puts a third and commits: what stands of its story, and of its map. It
/// does nothing: its contract is the run.
pub fn a_return_is_told()
    ensures { AReturnIsTold }
{}

/// A gap that one transaction read ends at a key of its own, which it takes back: another puts a key there and commits. So what was
/// taken back is not what it would be told where it commits. It does nothing: its contract is the run.
pub fn a_gap_opens_at_a_return()
    ensures { AGapOpens }
{}
