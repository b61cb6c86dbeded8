//! What follows from a lawful log?
//!
//! What follows from a log: the theory of lawful logs, of undo, redo and page writes.
//!
//! The abstract state of a store is its log, a list of records with a base. The pages, the open structure
//! change, the unfinished transactions with their nets, the committed effects, the full copies and the redo
//! points are functions of it (`specs/`); `Lawful` says of each front of a log what its next record may be. What
//! is promised for every log and every page is proved here once, over plain data, as
//! contracts of the functions of its modules. It speaks of no file, no pool and no code.
#![tactic(auto)]

pub mod logs;
pub mod one_leaf;
pub mod pages;
pub mod seen_effects;
