//! What taking a key record back does to the tree.

use im_base_types::PageNo;
use im_smo_pages::Images;
use im_smo_split::SplitPlan;

/// What is to be logged for a key record that is taken back.
#[derive(Drop)]
pub enum Back {
    /// The compensation alone, on this page.
    Plain(PageNo),
    /// The split of the key's leaf, which lacks room for a key that comes back, and then the compensation, on the leaf that the plan names.
    Split(SplitPlan),
    /// The compensation on this page, whose last key goes, and then the pages with which it leaves the tree.
    Drop(PageNo, Images),
}
