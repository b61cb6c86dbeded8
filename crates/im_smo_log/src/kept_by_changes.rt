//! What a structure change leaves as it was.

ghost use Rattle.std.specs.Prelude.{◌≡◌, ◌≢◌, ℕ};
ghost use Rattle.im_theory_log.specs.Histories.{Base, History};
ghost use Rattle.im_theory_log.specs.Transactions.{committed, contents, net};
ghost use Rattle.im_smo_log.specs.BetweenSteps.{OthersGoOn, PagesKeepSettled, InsertsMayEnd};
ghost use Rattle.im_smo_log.specs.ChangePages.{FirstAreDone};
ghost use Rattle.im_smo_log.specs.Changes.{GrowsByChange, IsSameOf};
ghost use Rattle.im_smo_log.specs.GoingOn.{OthersKeepChange, OthersKeepWays, PagesGoOn, OtherPagesAreSettled, PagesAgree, ClosesWell, ChangesBegin, PagesMayCome, ClosesMayCome};

/// The records of a structure change, and Images among them, leave the committed effects, the tree's map and each net as
/// they were, and of each other transaction all that undo asks. So a stop in its middle loses and adds nothing of what
/// was committed.
pub fn changes_keep()
    ensures committed { (t : ℕ) (older longer : History) → GrowsByChange t older longer → committed longer ≡ committed older }
    ensures map { (b : Base) (t : ℕ) (older longer : History) → GrowsByChange t older longer → contents b longer ≡ contents b older }
    ensures nets { (t u : ℕ) (older longer : History) → GrowsByChange t older longer → net u longer ≡ net u older }
    ensures others { (t u : ℕ) (older longer : History) → u ≢ 0 → u ≢ t → GrowsByChange t older longer → IsSameOf u older longer }
{}

/// A structure change that is made page by page goes on whatever others log between its pages, as long as they leave its pages
/// alone: it begins over pages with none open, its next page may come, and its end, and beside it each page that is not made
/// yet is the settled one. The pages that are made are the first of its numbers.
pub fn changes_go_on()
    ensures others { OthersKeepChange }
    ensures ways { OthersKeepWays }
    ensures pages { PagesGoOn }
    ensures settled { OtherPagesAreSettled }
    ensures agrees { PagesAgree }
    ensures done { FirstAreDone }
    ensures closes { ClosesWell }
    ensures begins { ChangesBegin }
    ensures next { PagesMayCome }
    ensures ends { ClosesMayCome }
{}

/// A structure change that goes on over several steps stands, between two of them, as it did: after all that others log in a step, and
/// after a page of its own, which leaves the settled pages as they were. After its end the leaf of a key is the one that
/// the plan named, with the room that its image has.
pub fn changes_outlast_steps()
    ensures others { OthersGoOn }
    ensures pages { PagesKeepSettled }
    ensures ends { InsertsMayEnd }
{}
