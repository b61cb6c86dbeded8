//! Tests of scripts: what a script prints and its exit status, word for word, lines that the grammar lacks, trees that grow and shrink,
//! Commits that wait for a force, openings whose redo workers share, lives that are stopped everywhere, or in which each call fails, logs that go on in the other file, and damaged files of a store.
//!
//! They are calls of what `im_tool_script` and `im_tool_every` show. `drilled` runs a script, and `texts` puts long ones together of parts.
#![tactic(auto)]

#[cfg(test)]
mod damage;
#[cfg(test)]
mod drilled;
#[cfg(test)]
mod every;
#[cfg(test)]
mod grammar;
#[cfg(test)]
mod lives;
#[cfg(test)]
mod stored;
#[cfg(test)]
mod switches;
#[cfg(test)]
mod texts;
#[cfg(test)]
mod trees;
#[cfg(test)]
mod waiting;
#[cfg(test)]
mod workers;
