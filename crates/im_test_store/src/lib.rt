//! Tests of stores that are open, over the model disk and in folders: what an opening redoes and reads within bounds, a log of the first format is left, a log
//! that is long is cut, a close leaves short files, a step or upkeep that fails, an end while something is active, and a folder that is held, is not there, or cannot be. After each the
//! store works on, or an opening finds what was committed. And tests of copies of a store in use (`copies`): steps of several transactions, with a piece of a
//! copy between them (`work`), and what an opening of the copy has.
//!
//! No test asks for a second end: `close` takes the store, so that none can be written.
#![tactic(auto)]

#[cfg(test)]
mod bounded;
#[cfg(test)]
mod copies;
#[cfg(test)]
mod dice;
#[cfg(test)]
mod folders;
#[cfg(test)]
mod keys;
#[cfg(test)]
mod stores;
#[cfg(test)]
mod work;
