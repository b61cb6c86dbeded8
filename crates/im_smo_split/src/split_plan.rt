//! What a plan of a split answers.

use im_base_types::PageNo;
use im_smo_pages::Images;

/// The pages that have to be written before a key's entry goes into its leaf. Where there are some, `leaf` is the key's leaf after them.
#[derive(Drop)]
pub struct SplitPlan {
    pub images: Images,
    pub leaf: PageNo,
}
