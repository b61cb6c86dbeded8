//! What is told of a structure change that goes on over several steps.

ghost use Rattle.im_smo_actions.specs.GoingBeside.{NoneIsTold, ChangesAreTold, PlansHaveTrees, SplitsStand, DeletionsStand};

use im_base_disk::Disk;

/// Others search and plan beside a structure change: what the log has of the change is what a search beside it is told; then the
/// settled pages are a whole tree, but for those that the change has made.
pub fn told_beside<D: Disk>()
    ensures none { NoneIsTold }
    ensures told { ChangesAreTold }
    ensures tree { PlansHaveTrees D.Disk }
{}

/// What is planned over the pages as they stand may begin there as a change that goes on page by page: its images stand for these pages,
/// which is what `changes_go_on` of im_smo_log asks of a change that begins.
pub fn plans_stand()
    ensures splits { SplitsStand }
    ensures deletions { DeletionsStand }
{}
