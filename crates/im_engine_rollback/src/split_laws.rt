//! What a split is for that comes in front of a compensation.

ghost use Rattle.im_engine_rollback.specs.SplitsBack.{OthersLeaveSplitsBack, PagesLeaveSplitsBack, SplitsBackBegin};

use im_base_disk::Disk;

/// A split that `undo_beside` hands out is for the record that is undone next, and goes on to be so over all its steps, whatever others log
/// between them: `close_back` asks for that.
pub fn splits_go_on_back<D: Disk>()
    ensures begins { SplitsBackBegin D.Disk }
    ensures others { OthersLeaveSplitsBack }
    ensures pages { PagesLeaveSplitsBack }
{}
