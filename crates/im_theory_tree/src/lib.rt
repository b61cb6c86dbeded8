//! Which page steps keep a good tree, its entries, and the ways of other keys?
//!
//! The tree of pages: what a good tree is, and what keeps it good.
//!
//! A tree is a function from page numbers to what pages say (`Pages`). A level is a list of nodes, each a page number
//! and the separator before it; the level below is the children of its nodes, joined; the leaves are the level that
//! many times below page 1 that page 1's level says, and the walk is their entries, left to right. A tree is good
//! (`IsGoodTree`) where levels fall by one, each key lies in the range that its separators give, the leaf chain is the
//! leaves left to right, and each page below the page count is the meta page, in the tree or in the free list, and in
//! one of these once.
//!
//! # The laws
//!
//! - `search`, `lookups`: the way of a key goes down to its leaf, which has of the key what the walk has; the first entry
//!   past a key stands ahead of it along the leaf chain, and the last below it after; keys rise along the walk; the pages of
//!   a good tree are counted.
//! - `changes`: a change of one leaf's entries within its range is one of the walk there.
//! - `allocation`, `splits`, `deletions`: one step each, from a good tree to a good tree with the same walk.
//! - `halves`, `key_splits`: a full page splits into two with room; what each page holds before and after a split makes it
//!   such a step, and the key's way goes on through one half, under a parent with room.
//! - `steps`, `plans`: steps in a row are a structure change over several levels, and its pages are applied and taken back
//!   as a plan.
//! - `ways`: the way of a key stays where a step, or another's key, leaves its leaf alone.
//! - `theory`: the tree as the theory of lawful logs asks for it. `worked`: a small tree, and wrong ones, by computation.
//!
//! No code runs here. Each law is the contract of a function that does nothing, over what the pages hold before and
//! after a step: whoever changes pages shows that it made such a step, and finds here that the tree stays good and what
//! became of the walk. Nothing is said of bytes, records or frames.
//!
//! It stands on `im_theory_log` for the theory of logs, to which it gives the tree (`theory`), and on `im_theory_page` for what a page's
//! contents are and where a page is split.
#![tactic(auto)]

pub mod allocation;
pub mod changes;
pub mod deletions;
pub mod halves;
pub mod key_splits;
pub mod lookups;
pub mod plans;
pub mod search;
pub mod splits;
pub mod steps;
pub mod theory;
pub mod ways;
pub mod worked;
