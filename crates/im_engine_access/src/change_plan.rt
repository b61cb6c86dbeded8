//! How a key comes or goes beside a structure change of another, before anything is logged.

use im_base_types::{PageNo, Rid};
use im_smo_actions::PlannedChange;

/// How a key comes.
#[derive(Drop)]
pub(crate) enum Coming {
    /// It is there.
    There,
    /// Its leaf, this page, has room for it.
    Fits(PageNo),
    /// Its leaf lacks room: this split comes first, and then the key goes into this page.
    Splits(PlannedChange, PageNo),
    /// The split wants more pages than there are numbers for, or a level too many.
    UsedUp,
}

/// How a key goes.
#[derive(Drop)]
pub(crate) enum Leaving {
    /// It is not there.
    Gone,
    /// This page has it, with this row id.
    Takes(PageNo, Rid),
    /// The same, and nothing else: the page then leaves the tree by this change.
    Empties(PageNo, Rid, PlannedChange),
}
