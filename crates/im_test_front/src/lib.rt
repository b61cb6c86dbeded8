//! Tests of commits through a front whose store has group commit: what is durable when `commit` returns, who makes the force and who sleeps until it is
//! made, and what each caller is told where the force fails, lacks memory, or meets a full trace; and of work that is done again where its transaction has to
//! give way; and of a structure change that goes on while others wait for it. And of threads that share a store through a front with a trace (`threads`,
//! `traced_stops`), and through one whose trace is kept for proofs alone (`open_fronts`).
//!
//! The store is the engine over a disk in memory, which fails or stops where a test wants it (`stores`, `traced_stores`); and a store of no keys, whose force
//! lacks memory (`lacking`).
#![tactic(auto)]

#[cfg(test)]
mod durable;
#[cfg(test)]
mod failing;
#[cfg(test)]
mod full;
#[cfg(test)]
mod lacking;
#[cfg(test)]
mod load;
#[cfg(test)]
mod memory;
#[cfg(test)]
mod open_fronts;
#[cfg(test)]
mod refused;
#[cfg(test)]
mod sharing;
#[cfg(test)]
mod sleeping;
#[cfg(test)]
mod stepped;
#[cfg(test)]
mod stops;
#[cfg(test)]
mod stores;
#[cfg(test)]
mod threads;
#[cfg(test)]
mod traced_stops;
#[cfg(test)]
mod traced_stores;
#[cfg(test)]
mod writing;
