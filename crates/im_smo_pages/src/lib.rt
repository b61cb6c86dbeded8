//! What do splits, deletions and allocations make of page images, and which pages do they take and give back?
//!
//! Structure changes, page by page: what the pages say that a split, a deletion or an allocation leaves. Nothing here writes
//! a log or changes a page of the pool: all pages of a structure change are made before its first record is.
//!
//! # The calls on pages
//!
//! - `split_leaf`, `split_inner`, `split_root_leaf`, `split_root_inner` make the two parts of a page, from the page as it
//!   was, and put the separator into the parent. The left part has the longest front of entries whose cells and slots take
//!   at most 2,032 bytes (`point_of`); of an inner page the entry after it moves up. Where splits are `dense` the last leaf of the
//!   chain keeps 3,796, so that rising keys leave nearly full leaves behind them. No page is copied whole.
//! - `link_prev`, `link_next` change one link of a leaf.
//! - `drop_entry`, `drop_leftmost` take a child out of its parent; `empty_root` is the root left without a child.
//! - `take_free`, `take_count`, `give_free` change the meta page: the first free page is taken, else the page of the number
//!   that the page count is; a page given back is the first free one.
//!
//! Each says what the pages hold after it, field by field, and is total: where the pages are none of a good tree it is
//! refused `NotAStore`, with nothing changed.
//!
//! # Images
//!
//! `Images` are the pages that a structure change leaves, so far: boxes by page number, each number once, in rising order,
//! which is the order of its records. Its methods of the same names do a step among them. Their contracts speak of what
//! each page holds where the images are applied (`held`), whatever the pages held before: a step makes of that what
//! the step makes of pages (`specs/Changed.antt`). A page joins them in a box of its own.
//!
//! # Pages taken and given back
//!
//! The images of a structure change stand in the place of the writer's pages: `image` takes the page of a number to change
//! it, from the images or as a copy of the pool's; `allocate` and `free` take a page off the free list or the page count, and
//! give one back. These three alone read a page that is not held. None of them logs or changes a page of the pool, so that a
//! refusal leaves the store as it was.
//!
//! # What it means for the tree
//!
//! The laws of `tree_steps` say that the pages of each step, in a good tree, are those of a step of `im_theory_tree`: so the tree stays
//! good, with the same walk. They say too that in a good tree no step is refused `NotAStore`: a page that lacks room
//! can be split where its parent has room for the separator, the leaves beside a leaf are leaves, and the first free
//! page is free.
//!
//! A split over several levels goes from the top down. `split_leaf_for` and `split_root_leaf_for` end it: they answer the
//! leaf of the key, which has room for an entry of any size (`HasRoomIn`). An allocation leaves all ways as they were
//! (`KeepsTree`), so page numbers can be drawn before the first split.
//!
//! Plans over several levels stand above it (`im_smo_split`, `im_smo_drop_leaf`), and so do their records (`im_smo_log`).
//!
//! It stands on `im_page_writer` for the pages of a store, on `im_page` for pages, and on `im_theory_tree` for the laws of
//! the tree.
#![tactic(auto)]

mod allocations;
mod boxes;
mod chain;
mod deletions;
mod image_allocations;
mod image_links;
mod image_splits;
mod images;
mod numbered_image;
mod page_image;
mod seen_images;
mod splits;
pub mod tree_steps;
mod way_splits;
mod writer_allocations;

pub use allocations::{give_free, take_count, take_free};
pub use chain::{link_next, link_prev};
pub use deletions::{drop_entry, drop_leftmost, empty_root};
pub use images::Images;
pub use page_image::image;
pub use seen_images::images_are_seen;
pub use splits::{point_of, split_inner, split_leaf, split_root_inner, split_root_leaf};
pub use writer_allocations::{allocate, free};
