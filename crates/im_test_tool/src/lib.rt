//! Tests of the programs' work on the files of a store: what is told of a store that is not open, of its two logs, and of files that do not belong together; and
//! what a trim leaves, and a close.
//!
//! They are calls of what `im_tool` shows. What a store answers im_test_answers asks, which is proved beside this crate.
#![tactic(auto)]

#[cfg(test)]
mod copies;
#[cfg(test)]
mod looked;
#[cfg(test)]
mod mixed;
#[cfg(test)]
mod switched;
#[cfg(test)]
mod trimmed;
