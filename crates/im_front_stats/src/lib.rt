//! How are the counts of a store that threads share read without a lock?
//!
//! A cell of statistics that threads share: how many transactions were started, committed and rolled back.
//!
//! One pass writes the three counts, any number of passes read them. A read takes no lock and never waits: it is `None`
//! where the writer stored meanwhile, and else all three counts of one moment. No count falls for a pass that reads.
//!
//! The cell is a version and three words. The version is odd while the writer stores, and a read looks at it before and
//! after. Its rule (`Kept`) has two kinds of step: a store by the writer's pass (`StoresCounts`) and a load by a reader's pass
//! (`Loaded`); each changes what that pass knows alone. The crate stands on none of the store's.
#![tactic(auto)]

mod stats_cell;
mod version_rule;

pub use stats_cell::StatsCell;
pub use version_rule::{Known, Law, Pass};
