//! The laws of logs, of effects, of steps and of analysis, each at a concrete type.

use im_restart_analysis::lawful_logs::{lawful_logs_are_taken, undo_goes_on};
use im_theory_log::logs::{
    compensated_at_most_once, finished_tree_is_committed, fronts_are_lawful, logs_stay_lawful,
    open_change_is_on_top, tree_holds_committed_and_nets, undo_chain_leads_to_the_stack,
};
use im_theory_log::one_leaf::OneLeaf;
use im_theory_log::seen_effects::seen_effects_agree;
use im_theory_steps::{
    copies_are_images, deletes_are_served, inserts_are_served, logged_commits_are_served,
    quiet_logs_hold_committed, stops_allow,
};

#[test]
fn the_laws_hold_of_the_tree_of_one_leaf() {
    seen_effects_agree();
    fronts_are_lawful::<OneLeaf>();
    logs_stay_lawful::<OneLeaf>();
    tree_holds_committed_and_nets::<OneLeaf>();
    finished_tree_is_committed::<OneLeaf>();
    undo_chain_leads_to_the_stack::<OneLeaf>();
    open_change_is_on_top::<OneLeaf>();
    compensated_at_most_once::<OneLeaf>();
}

#[test]
fn the_laws_of_steps_hold_of_the_tree_of_one_leaf() {
    inserts_are_served::<OneLeaf>();
    deletes_are_served::<OneLeaf>();
    logged_commits_are_served::<OneLeaf>();
    copies_are_images::<OneLeaf>();
    quiet_logs_hold_committed::<OneLeaf>();
    stops_allow::<OneLeaf>();
}

#[test]
fn the_laws_of_analysis_hold_of_the_tree_of_one_leaf() {
    undo_goes_on::<OneLeaf>();
    lawful_logs_are_taken::<OneLeaf>();
}
