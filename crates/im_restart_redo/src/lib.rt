//! How do pages come back?
//!
//! Redo: the pages are brought to what the whole durable log made of them.
//!
//! Analysis (`im_restart_analysis`) says from which LSN on records may be lacking in the file of pages, the redo point, and where the last
//! full copy of each page stands at or after it. `redo` is handed both, the LSNs of the records from the redo point on that change
//! a page, each with that page, and a writer of pages (`im_page_writer`) over the log that was just opened:
//!
//! 1. Each page with a noted copy is loaded from that copy, in rising page number, and never from the file, whose bytes a stop may
//!    have torn. It counts as changed from the redo point on. All copies are loaded before the first record is applied: no write
//!    of another page may come before a page that waits for its copy.
//! 2. The records are applied, those of each page in the order of the log, where the page's LSN is less than the record's. That is
//!    also so for a record that stands before the page's copy in the log: a copy may be older than the records around it, and its
//!    own LSN says which of them it has.
//!
//! The changes are made in segments (`segment`). A segment is the next changes in a row, as many as have records that stand in the room, of
//! 524,288 at most, into which the log is read by one read from the first of them on where it is not there yet (`window`); one change at
//! least. They are put in order of pages, those of a page in order of LSNs, and then made page after page: each page is got once a segment,
//! however many frames there are. Changes of different pages do not meet, so the pages come out as in the order of the log.
//!
//! The pages of a segment are taken in rounds (`rounds`), of no more than there are frames and of 256 at most. A round's pages are got, lent
//! to workers, each of whom changes its own by their records, and taken back (`PageWriter::redo_round`). The caller lends the room: the
//! larger it is, the fewer reads and gets. What else is needed, workers with a spare page for each page of a round among it, is made before
//! the first call of the disk (`round_room`), so that want of memory is told with nothing done.
//!
//! For a caller who can start no threads, `redo_alone` applies the records in the calling thread, one by one (`alone`). Both promise the
//! same, for any number of workers.
//!
//! A page that is evicted on the way is written as in any flush, after its Image, so Images may join the log while redo goes on.
//!
//! # What is kept
//!
//! `kept`: where the writer stands as an opening finds it (`opened`), and each record of the log can be applied to its page as the
//! records before it left that (`AreApplicable`), then after an Ok each page is what the whole log made of it, Images alone joined
//! the log (`Redone`), and redo is over for the writer. A stop at any moment leaves the log with Images more, and a file of pages from
//! which redo can start again (`LeavesRedoing`); and no such store is refused as none. On any other bytes `redo` is total: it is
//! refused `NotAStore` where a page does not take its record, or no record stands at an LSN.
//!
//! How `redo` ends is one fact, its clause `outcome` (`Recovers`, over the fault that it was refused for, if it was): after an Ok the
//! writer works; `Failed`, it had failed before; `Device`, the disk has failed, and `LogFull`, the log has no room, and after both the
//! writer works no more; else `Memory` or `NotAStore`. After a refusal the store is to be opened again, so nothing is said of where the
//! writer goes on then.
//!
//! `lawful_is_applicable`, in proofs/Applicable, gives `AreApplicable` of each lawful log over a tree whose words speak of leaves
//! (`IsOnLeaves`).
//!
//! At a segment's ends redo has gone past a front of the log (`HasPassed`): no page waits, and each has had all records of that front.
//! Within it the log is passed up to an LSN that is a function of the page (`HasPassedTo`): pages that are done have had the segment's
//! records, and the others none of them (`IsWithinSegment`). A stop there leaves what a stop at its ends does, as each page has the records
//! below its own LSN. Records that change no page, and those below the redo point, are gone past in the proof alone.
//!
//! It stands on the writer of pages, on the codec of records, and on the definitions of analysis.
#![tactic(auto)]

mod alone;
mod copies;
mod records;
mod redoing;
mod round_room;
mod rounds;
mod segment;
mod window;

pub use alone::redo_alone;
pub use redoing::redo;
