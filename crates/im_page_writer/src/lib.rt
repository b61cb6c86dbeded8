//! How is a page changed, logged, written and redone, so that each stop can be recovered from?
//!
//! Page writes: which pages may lack changes in their file, and the calls that write pages in place and sync them.
//!
//! A page is changed in memory and written in place later, at any time. That a stop tears the write never matters: before it the
//! log durably has the page's records and a full copy of it, at or after the redo point of every log that a stop can leave. Redo
//! loads a page's last copy from the redo point on, never the file's bytes in its place, and applies what follows: so one copy serves
//! for as long as the redo point stays, however often the page is changed, written and synced.
//!
//! # The writer of pages
//!
//! `PageWriter` has the log, a pool of 8 to 262,144 frames over the file of pages, and the dirty table (im_page_table), which has room for as
//! many entries as the pool has frames, but for no fewer than 1,024 and no more than 65,536. It owns no disk.
//!
//! - A flush (`flush_one`) writes a page that was changed: it alone, where the file has it, and past the file's end every page
//!   from the page count up to it, so that no range of the file is left without a page. First the Images of those pages join the
//!   log of which no full copy is known, in rising page number; then the log is forced, four device calls, and none where nothing
//!   is buffered; then each page is entered and written, one device call each, in rising number. Where the table has no room for the entry of a page that is written along, the file is synced
//!   after them. A page that the file has, and whose last change and full copy are durable, is written with no force, whatever waits
//!   in the log (`IsUnforced`): its LSN is below the log's durable end, and no Image waits that came after the last change of its page. So is
//!   one that comes next after the file's end, where something waits in a buffer that has room for another batch.
//! - A page that is got (`get`) stays in its frame. Where no frame is free, the least recently used page is flushed, if it was
//!   changed, and its frame given up. Where that forces the log, changed pages that go next are flushed with it: of the half of the
//!   frames that were used least recently, the first eight, as far as their Images fit into the log's buffer, in rising number. The log
//!   is forced once for them all, and the order of use stays. Where the buffer holds several batches, they are the first 64. In a pool of
//!   more than 1,024 frames they are those of the oldest changes, which the dirty table tells: a walk by use would go over the unchanged
//!   pages each time, of which there may be 261,120.
//! - `flush_in_company` flushes a page; where that forces the log, whose buffer holds several batches, the Images of other changed pages go
//!   with it, those of the oldest changes, as many as the buffer takes, whether the file has the pages or not. Those pages are written by flushes of their own, which force nothing
//!   then. A Switch writes its pages so. A walk over the dirty table finds 64 such changes, so that a Switch of many pages does not go over it
//!   once a page.
//! - A change (`log_change`) gets the page, makes room for its entry (`make_entry_room`), appends the record, changes the page,
//!   gives it the record's LSN, and enters it. What the page does not take is refused before the append.
//! - Room is made where the table is full: the least recently used page that was changed is flushed, in the same way, and the file synced. In a
//!   pool of more than 1,024 frames it is the page with the oldest change. What stays in the table then is changed pages in frames, each of
//!   which had its entry before: one entry is free, that of the page that was flushed (`room`). Where less than half of the entries are of
//!   written pages, more pages are flushed first, until half of them are, so that one sync takes out many; in a pool of more than 1,024 frames
//!   64 at a time, those of the oldest changes, since each walk over the table is long there.
//! - `log_only` appends a record that changes no page, `log_smo` one page of a structure change, which then is the record's
//!   page; `force` forces the log, `sync_pages` syncs the file, `read_at` reads a record again.
//! - A Checkpoint (`log_checkpoint`) syncs the file, appends one record with the next transaction number, the rows of active transactions
//!   that it is handed and the rows of the dirty table, and forces the log. The redo point moves with it, so that no page counts as
//!   having a full copy at or after it: the next write of each adds its Image. The record has room for 1,024 rows: where the sync would leave
//!   more, pages are written first, as for an entry's room, until it does not.
//! - In redo, `load_copy` takes a page from the full copy that a record holds, in place of what the file has there, and
//!   `redo_change` applies a record to its page, if the page's LSN is below the record's. Both make frame and entry free as at
//!   any time, so that redo needs no more frames than a store that runs. A page so loaded or changed counts as changed from the
//!   redo point on.
//! - `redo_round` does so for a round: all changes of some pages in a run of records whose bytes stand in one part of the log, with those
//!   pages, no more than there are frames. Room is made for the entries of all of them, each page is got, and then they are lent in
//!   exchange for spare pages, changed by the records (`redo_records` of im_page_rounds) by any number of workers and taken back. No call
//!   of the disk comes in between. These pages have then gone past the whole run, and no other page has.
//!
//! A refusal for want of memory, or since a page does not take a record, leaves the writer working. Each other one fails it, and
//! from then on each call answers `Failed` and calls no disk (`fails`, `already`).
//!
//! # Speed
//!
//! By `im_bench flush --time`, over a disk in memory: a get of the page that was got last takes 6 ns; a logged change of a leaf,
//! record, search, entry and all, 54 to 64 ns, the forces among them; a change with a flush and a sync 2.0 to 2.1 µs, in which
//! six device calls are made: four of the force, one write and one sync.
//!
//! # What is kept
//!
//! The definitions have these numbers beside their fields. Over a disk that tells what it has, a writer that works keeps between two calls
//! (`StandsAs`):
//!
//! 1. The log is open, and has the records that the writer says, with those of them that are durable (`Stands`).
//! 2. Of each page the file has what the writer says, as of its last sync and as a read gives it now (`Stands`).
//! 3. The table has the entry of each page (`Stands`, `IsWriting`), and room for as many as the frames ask (`sized`).
//! 4. The pool shows the pages that it holds as they are, and which of them were changed. Of one that it does not hold nothing is left to
//!    be written, and no page at or below a held one waits for its copy (`IsPooled`).
//! 5. Each page can be made from what any stop now leaves: one without an entry is in the file, synced; one that was written since the
//!    last sync has a full copy in the durable log, at or after the redo point; each other one has in the file all that comes before its
//!    entry's LSN, or a copy from there on (`WriterKept` of im_theory_log).
//! 6. A copy that counts as known, by an entry or by a page's LSN, is there, and is durable where no Image waits (`Stands`, `IsKnown`).
//! 7. The other log is older, and on the disk (`Stands`).
//!
//! On any bytes at all:
//!
//! 8. While it works the log is open and works, and there are 262,144 frames at most. After a failure the log's last gate stands in its
//!    file, unless the disk has failed (`IsReadyWriter`).
//!
//! | State | What holds | Which calls go where |
//! |---|---|---|
//! | in redo: a page may wait for its full copy, or lack records | 1 to 8 | `load_copy`, `redo_change`, `redo_round` go on; after the last record it runs |
//! | within `redo_round`: pages are lent to workers | 1, 2, 5, 7, 8; 3 and 4 of the pages that are not lent | `take_all_back`, and it is in redo |
//! | it runs: no page waits, each has all its records | 1 to 8 | all but those three: `get`, `log_change`, `log_smo`, `log_only`, `flush_one`, `flush_in_company`, `force`, `sync_pages`, `log_checkpoint` |
//! | within `switch`: every page is written, and the other file is being made a log | 2 to 5 over the old log or the new one, 8 | it runs, over the new log, or has failed |
//! | it has failed (`failed`) | the end of 8 | none: each call answers `Failed`, and calls no disk |
//!
//! A call that may fail in its midst sets `failed` first and takes it back at its end. What a stop leaves, within a call or after it, redo
//! can start from (`LeavesCovered`), which 1, 2, 5 and 7 give. Each call's clause `kept` says as what the writer stands afterwards. One that flushes on its
//! way leaves each page as it was, and the log with Images more (`Keeps`); after a refusal that leaves it working it stands so, too (`again`).
//!
//! It stands on flushes (im_page_flush), on the log, on pages and their file, on the dirty table, on rounds and their workers, on the pool and on the disk.
#![tactic(auto)]

mod known;
mod leaf_change;
mod page_writer;
mod redone_page;

pub use known::Synced;
pub use page_writer::PageWriter;
