//! What do the records of a round make of its pages?
//!
//! Redo in rounds, over plain data. A round is some records of the log in a row, with the pages that they are of.
//!
//! # One page
//!
//! `redo_on` goes past one record of a page: where the page's LSN is lower than the record's, it is changed by it, and otherwise it
//! stays. It needs the page alone: no pool, no dirty table, no disk. Refused `NotAStore` where the page needs the record and does not
//! take it.
//!
//! # Workers
//!
//! `redo_records` goes past the records of a round in turn, whose bytes stand in one part of the log, over its pages: after it each page
//! is what its own records made of it (`AreRedone`). Pages are found by their numbers, which rise. It does so by any number of workers:
//! page i of the round, from 0, is with worker i mod how many there are, and each goes past the records of its own pages, in a thread of
//! its own where one can be made. `workers_for` makes the workers, `deal` tells which pages each of them has.
//!
//! # A round
//!
//! What a round makes of a writer of pages (`redone_all`) is what its records make of it in turn. The laws say why it may be made page
//! by page, by whoever has the page:
//!
//! - `pages_need_their_own_records`: a page needs its own records alone.
//! - `pages_need_changes_alone`: records that change no page may be passed over.
//! - `rounds_come_after_another`: two rounds, one after the other, are one round of both.
//! - `rounds_leave`: a round leaves the log as it was, and each page as its records make it.
//! - `a_round_is_kept`: it keeps what a writer of pages keeps, where its records stand one after another in the durable log.
//! - `a_round_is_held`: at most as many different pages as there are frames are all held after the last of them was got, by the order of
//!   use.
//! - `entries_follow`: a page's entry in the dirty table is as it was where no record was applied to it, else at the redo point.
//! - `counts_add`: the counts of the round's pages add up to the count of the round.
//!
//! It stands on pages, on leaves, on the dirty table, on the copies in records, on the definitions of the log and on threads.
#![tactic(auto)]

mod dealing;
mod hand;
mod one_page;
mod round_laws;
mod round_page;
mod worker;
mod workers;

pub use dealing::deal;
pub use one_page::redo_on;
pub use round_laws::{
    a_round_is_held, a_round_is_kept, counts_add, entries_follow, pages_need_changes_alone,
    pages_need_their_own_records, rounds_come_after_another, rounds_leave,
};
pub use round_page::RoundPage;
pub use worker::Worker;
pub use workers::{redo_records, workers_for};
