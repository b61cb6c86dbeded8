//! Tests of the tree: search and the locks of steps by a key, over pages that are made by hand, more pages taken and given back than any run of a
//! store comes to, and the deletion of a leaf under a chain of pages.
#![tactic(auto)]

#[cfg(test)]
mod alloc;
#[cfg(test)]
mod delete;
#[cfg(test)]
mod index;
#[cfg(test)]
mod pages;
#[cfg(test)]
mod search;
#[cfg(test)]
mod shared;
