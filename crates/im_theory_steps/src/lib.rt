//! How do log, machine, replies and tables go on together?
//!
//! Each step of a store of several transactions is a step of the machine of `im_theory_machine` and a growth of the log.
//!
//! The log knows what is committed, what the tree holds and each transaction's net; the machine of `im_theory_machine` knows marks, locks and
//! replies; users are shown steps and replies alone. `IsServing` says what holds between two steps of an engine that works: the log
//! is what the machine sees (`IsSeen`), steps and replies have shown the machine (`IsShownBy`), it came here by a run
//! (`IsReached`), the committed effects are those before this life and the ones asked since, and the table of transactions and the
//! lock table are the machine's. For each kind of step there is one law: from what the log grew by and what the lock table decided
//! it gives the step of the machine, and all of `IsServing` after it (`IsServed`). So whoever writes the engine proves of each step
//! how the log grew, and takes the rest from here.
//!
//! A step whose change needs a structure change first logs that before its key record (`IsOnTheWay`).
//!
//! A row counts the changes of its transaction that stand, as its net in the log has them. A Commit and a Rollback go by that count: one
//! that has records and no change left ends by an End, and no effect joins the others.
//!
//! A change that is taken back is said of the log's growth alone (`UndoesNewest`): whatever records did it, the other transactions and what
//! is committed are as they were (`undo_takes_back`), and an End after the last one leaves nothing of the transaction
//! (`ends_leave_nothing`).
//!
//! What a stop leaves is said of the log's Commits alone (`AreCommitted`, `stops_allow`); and a life goes on after a step that breaks
//! the engine, whose log then says nothing but what a stop leaves (`IsLived`).
//!
//! Two laws carry the rest: whoever is granted the locks of a change finds its key in no other net, so that the log stays lawful
//! (`granted_keys_are_free`); and what a run commits is what its replies show as acknowledged (`runs_commit_what_they_show`).
//!
//! There are no pages here, no disk and no code but `may_roll_back`; growth by structure changes and undo is promised by the crates
//! that log them, in the words of `specs/Growth`.
#![tactic(auto)]

mod durable_laws;
mod growth_laws;
mod lived_laws;
mod marks;
mod shown_laws;
mod step_laws;
mod switch_laws;
mod undone_laws;

pub use durable_laws::{
    commits_stand, cut_commits_stand, others_ask_nothing, quiet_lives_settle, stops_allow,
};
pub use growth_laws::{
    copies_are_images, counts_fit, granted_keys_are_free, growth_within_leaves_others,
    images_change_nothing, log_and_view_go_together, numbers_stay_new, structure_changes_no_key,
};
pub use lived_laws::{lives_go_on, rows_tell_checks};
pub use marks::may_roll_back;
pub use shown_laws::{moves_are_shown, moves_reach, runs_commit_what_they_show};
pub use step_laws::{
    barred_steps_are_served, begins_are_served, begun_ask_the_same, changes_are_served,
    checkpoints_are_served, commits_are_served, deletes_are_served, deletes_begin, deletes_end,
    dies_are_served, drops_are_served, empty_commits_are_served, empty_rollbacks_are_served,
    ends_are_served, flushes_are_served, forces_are_served, images_keep_serving,
    inserts_are_served, inserts_begin, inserts_end, inserts_stay_free, lacks_are_served,
    logged_commits_are_served, new_stores_serve, opened_stores_serve, owners_are_marked,
    pages_are_served, quiet_logs_hold_committed, reads_are_served, returns_stay, returns_turn,
    structure_keeps_serving, trees_block, trees_halt, turns_are_served, turns_begin, turns_drop,
    turns_empty, turns_end, undo_is_served, unlogged_commits_are_served, waits_are_served,
    ways_lead_on,
};
pub use switch_laws::switches_are_served;
pub use undone_laws::{
    ends_leave_nothing, last_undone_changes_are_served, returning_has_more, returns_drop,
    returns_end, returns_go_on, rolling_back_has_more, undo_takes_back, undone_changes_are_served,
};
