//! Benches of the layers below the tree, for `im_bench`: pages, the log, the pool and page writes, whose figures stand at the head of
//! their crates, each a module with a `run`; and what every bench and every run of whole stores needs. That is how figures are asked for, taken and printed (`figures`), keys in scattered order (`keys`), and disks: one that counts its calls
//! (`counted`), one in memory (`memory`), and one that fails past a bound (`bounded`).
//!
//! Then steps over many keys, on any `Store`: those of the benches `store` and `tree` (`works`), of `im_bench long` (`spans`), and of
//! `im_bench damage` (`founding`); with the `tally` of the replies, what the pages are for (`page_kinds`), and where a log has its page numbers
//! (`places`).
//!
//! None of them knows the engine, so they are proved while the layers above are still being proved. Each module says what its bench
//! does, which words it takes, and what its figures were. What is printed is compared with a stored output, and stands in no clause.
#![tactic(auto)]

pub mod bounded;
pub mod counted;
pub mod figures;
pub mod flush;
pub mod founding;
pub mod keys;
pub mod log;
mod long_keys;
mod making;
pub mod memory;
pub mod page;
pub mod page_kinds;
pub mod places;
pub mod pool;
pub mod spans;
pub mod tally;
pub mod works;
