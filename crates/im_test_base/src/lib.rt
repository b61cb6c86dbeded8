//! Tests of the crates that know nothing of page writes: the bytes of records, of a log and of a page as the format gives them, files of a folder,
//! and the laws, each at a concrete type.
#![tactic(auto)]

#[cfg(test)]
mod cuts;
#[cfg(test)]
mod disk;
#[cfg(test)]
mod laws_at_one_leaf;
#[cfg(test)]
mod log;
#[cfg(test)]
mod mirror;
#[cfg(test)]
mod page;
#[cfg(test)]
mod record;
#[cfg(test)]
mod types;
