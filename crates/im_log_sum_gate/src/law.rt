//! The laws of gates whose batches have sums.

ghost use Rattle.im_log_sum_gate.specs.Laws.{AreThere, Closing, OneSync, TwoSyncs, Walks};
ghost use Rattle.im_log_sum_gate.specs.Sealed.{SealedAreLaid};

/// What a put of batches with sums leaves of a log, at whatever moment a stop falls, and what it makes. A law, and nothing that runs.
pub fn sum_gates_hold()
    ensures walks { Walks }
    ensures one { OneSync }
    ensures two { TwoSyncs }
    ensures closing { Closing }
    ensures there { AreThere }
    ensures sealed { SealedAreLaid }
{}
