//! Which pages does a split leave?
//!
//! The plan of a split: what pages have to hold before an entry goes into a leaf that lacks room for it.
//!
//! `plan_split` answers images, the pages that a split leaves, and changes none of the pool's: over the images the tree is good and
//! has the entries that it had, and the key's leaf, which it names, has room for one more. Where the leaf has that room already there are
//! none. It is
//! refused `PagesFull` exactly where the store would have too many pages that are not free.
//!
//! An entry that finds no room in its key's leaf has the leaf split in front of it. Of a page that is split a key moves up,
//! and where its parent has no room for that key, the parent is split too, up to the first page with room, or to the root.
//!
//! - `left_to_split`: the splits go from the top down. The page that is to be split stands under a parent with room for its separator
//!   (`IsPending`); a split of it keeps the tree good and the walk as it was, and leaves its child on the key's way to be split;
//!   after the leaf's split the key's leaf has room for an entry of any size. So one law serves all levels, and no step
//!   meets a tree that is not good.
//! - `reading`, `top`: one pass down from the root, by one get for each level, finds the highest page that splits, and how many pages
//!   the split takes: one for each page that splits, and one more for the root (`new_pages`). Each split depends on the unsplit page alone.
//! - `taking`: the pages are taken from the leaf upward, the root's left part in front of its right one.
//! - `pending_split`, `leaves`: one split after another, from the highest page down to the leaf.
//! - `plan`: all of it, in front of any record: `plan_split`.
//!
//! A split is decided before a page is taken, and pages are taken before any is split: what is refused up to there leaves
//! each page as it was.
//!
//! It stands on `im_tree_search` for the way down (`root`, `tree_page`), on `im_smo_pages` for pages that are taken and for what a split makes
//! of pages, and on `im_theory_tree` for the laws of one split.
#![tactic(auto)]

mod leaves;
pub mod left_to_split;
mod pending_split;
mod plan;
mod split_plan;
mod split_room;
mod taking;
mod top;

pub use plan::plan_split;
pub use split_plan::SplitPlan;
