//! The law of one sync.

ghost use Rattle.im_log_one_sync.specs.Laws.{OneOrNone, FrontOfAll, AreThere, ZerosAreClear, TwoSyncs, CanBeKept, NoReader, NoneIsZero, GatesGoOn};

/// A stop within one write of a batch with its sum leaves the log as it was, or with all of the batch, where no stop forges a sum; once it is done the
/// batch is there. Without that premise no reader can do it; where no stop leaves garbage, zeros do for a sum. After each batch that is shown
/// comes the next gate, so that all this is said of every put of a log. A law, and nothing that runs.
pub fn one_sync_is_enough()
    ensures stops { OneOrNone }
    ensures fronts { FrontOfAll }
    ensures there { AreThere }
    ensures clear { ZerosAreClear }
    ensures two { TwoSyncs }
    ensures kept { CanBeKept }
    ensures none { NoReader }
    ensures zeros { NoneIsZero }
    ensures goes { GatesGoOn }
{}
