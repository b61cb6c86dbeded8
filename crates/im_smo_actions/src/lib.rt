//! Does this key want a structure change now?
//!
//! What a key asks of a structure change: whether its leaf has room, or would be left empty; and a change that is planned, and begins.
//!
//! - `has_room` and `is_last_entry` say of a held leaf whether a key more fits, and whether one less would leave it empty.
//! - `plan_change` takes what others have to be told of a planned change, in front of any record; after that it begins (`BegunChange`), and is never refused.
//! - `told_beside` is the law by which others search and plan while a structure change goes on over several steps (`IsToldOf`, `HasWholeTreeBut`).
//!
//! A change is planned in front of any record (`im_smo_split`, `im_smo_drop_leaf`): so what is refused for want of memory, of pages or of page numbers leaves
//! all as it was. It is logged page by page (`BegunChange::step`), or at once (`BegunChange::run`), where a want of memory after the first record is
//! `Failed`, since there is no way back then but a restart.
//!
//! How a transaction stands that is not finished, in a lawful log whose structure changes are all closed, is `IsUnfinished`; after one of its own it
//! stands so again, its undo goes on where it did, and the tree has the same entries (`Restructured`).
//!
//! It stands on `im_smo_log` for logging a change, and on `im_tree_search` for what others are told of it.
#![tactic(auto)]

mod begun_change;
mod leaf;
mod planned_change;
mod told_laws;

pub use begun_change::BegunChange;
pub use leaf::{has_room, is_last_entry};
pub use planned_change::{PlannedChange, plan_change};
pub use told_laws::{plans_stand, told_beside};
