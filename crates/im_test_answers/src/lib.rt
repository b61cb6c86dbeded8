//! Tests of the programs' work on a store that is open: what it answers to lines, in a folder and on the model disk; what is told of a load, and what it takes
//! of the portable form; and the exit statuses.
//!
//! They are calls of what `im_tool` shows. What it tells of a store that is not open im_test_tool asks, which is proved beside this crate.
#![tactic(auto)]

#[cfg(test)]
mod answered;
#[cfg(test)]
mod loaded;
#[cfg(test)]
mod programs;
