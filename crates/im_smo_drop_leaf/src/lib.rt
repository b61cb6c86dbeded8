//! Which pages does the deletion of an empty leaf leave?
//!
//! The plan of a page deletion: the pages that have to be written so that the empty leaf of a key leaves the tree, as images,
//! before any record is logged.
//!
//! The leaf goes, and with it each page above it that has no other child, up to the first page on the key's way that has two:
//! that page loses the child. Where no page on the way has two children, all pages under the root go, and the root becomes an
//! empty leaf. The leaves beside the leaf name each other then. The pages that went are given back, the leaf first and then
//! upward, so that the highest is the first free one. An inner page with one child left stays.
//!
//! - `way`: one pass down from the root notes the pages that go, and where they hang (`IsPlaced`).
//! - `dropping`: the parent loses the child, and the leaf goes out of the chain of leaves.
//! - `giving`: the pages are given back.
//! - `emptying`: the leaf without its last entry, as the plan is made before that entry is taken out; the leaves beside it.
//!
//! It is total: where the pages are none of a good tree it is refused, and the images are dropped. In a good tree whose leaf for
//! the key is empty and is not page 1, the images, put in the place of the pages that are there, are a good tree with the same
//! walk, in which that leaf is free; and it is not refused `NotAStore` (`IsPlan`). Which pages go, and the order in which
//! they are given back, is said too (`DeletesChain`). A key has one leaf, so the leaf that the pass down finds is the one of
//! which the contract speaks.
//!
//! It stands on `im_tree_search` for the way down (`level_of`, `child_of`), on `im_smo_pages` for images, for pages that are given back and
//! for what a deletion makes of pages, and on `im_theory_tree` for the laws of a deletion.
#![tactic(auto)]

mod beside;
mod dropping;
mod emptying;
mod giving;
mod kept_ways;
mod plan;
mod way;

pub use kept_ways::deletion_plans_keep_ways;
pub use plan::plan_delete_last;
