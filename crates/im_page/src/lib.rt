//! How does a page take, give and part its entries? Does a leaf take this key, and where?
//!
//! Pages: a header and a sorted list in 4,096 bytes, searched and changed in place.
//!
//! A `Page` is 4,096 bytes; contracts see it as an LSN and a body (`im_base_types`: kind, level, mark, `prev`, `next`,
//! `leftmost` and the entries, each a key and a value, in rising key order). No call takes memory, and none copies a
//! page but `load`, `read` and `initial`.
//!
//! # The bytes
//!
//! | Bytes | Field |
//! |---|---|
//! | 0 to 7 | LSN |
//! | 8 | kind: 0 free, 1 meta, 2 leaf, 3 inner |
//! | 9 | level: 0 for all but inner pages, whose level is 1 or more |
//! | 10 | bit 0: the mark of a structure change under way; other bits zero |
//! | 11 | zero |
//! | 12 to 13 | number of entries |
//! | 14 to 15 | where the cells begin |
//! | 16 to 19, 20 to 23, 24 to 27 | `prev`, `next`, `leftmost` |
//! | 28 to 31 | zero |
//!
//! All numbers are big-endian. From byte 32 stand the slots, two bytes each: the places of the cells in key order. A
//! cell is the key's length (1 to 255), the key, and a value of eight bytes in a leaf and of four in an inner page.
//! Cells lie in any order, without a gap or an overlap, up to the end of the page; the bytes between slots and cells
//! are zero. A leaf has `prev` and `next`, an inner page `leftmost`, a meta page all three, a free page `next`; a field
//! that the kind does not have is zero, and meta and free pages have no entries.
//!
//! # The contract
//!
//! - `page_of` (in im_theory_page's `specs/Page.antt`) is the page that bytes are, or none: `IsForm` says when. `Page::read` and
//!   `Page::load` answer it, both ways, and `Page::read_from` does of bytes of a disk, which it reads in place;
//!   `Page::bytes` gives bytes whose page is this one.
//! - `insert` and `remove` are those of the sorted list. `insert` is refused `Full` exactly where cells and slots with
//!   the entry take more than 4,064 bytes; the page then stays as it was.
//! - `find` answers the place of a key, or where it would stand; `child` the child of an inner page that holds it.
//! - `split_point` is the longest front of entries whose cells and slots take at most so many bytes, from 532 to 3,798,
//!   and that leaves two entries. Both parts of any split have room for one more entry of any size. Where the longest
//!   key has no room, an entry or more stands left of the point and two or more right of it.
//! - `copy_entries` leaves a range of another page's entries; the setters change one field and nothing else.
//!
//! The invariant of a `Page` is that its bytes have the form (`IsForm`); `law_content` tells it to callers as a fact about
//! the contents.
//!
//! # Keys of a leaf
//!
//! A leaf takes a key where it lacks it and has room for it (`CanPutKey`), and gives one up where it has it (`CanTakeKey`). A record does
//! one of the two with its key (`LeafEdit`); what it asks and what it does to its page are functions of that (`MayEdit`, `HasPlace`,
//! `edit_of`). `place_in` answers the place in the leaf, or that the page is no leaf that takes it.
//!
//! # Speed
//!
//! `im_bench page` times the calls over leaves with keys of eight bytes, and its `peer/page.c` does the same work in
//! C (`cc -O2`) over the same bytes. Nanoseconds a call, the least of six runs of each in turn on one machine with other
//! work on it:
//!
//! | Work | 150 entries | in C | ratio | 200 entries | in C | ratio |
//! |---|---|---|---|---|---|---|
//! | find a key, and its value | 27 | 67 | 0.40 | 36 | 87 | 0.41 |
//! | find, remove, find, insert again | 415 | 379 | 1.10 | 552 | 446 | 1.24 |
//! | read a full page in place | 532 | 2,728 | 0.20 | 623 | 2,290 | 0.27 |
//! | split into two pages | 1,794 | 2,542 | 0.71 | 2,315 | 3,445 | 0.67 |
//!
//! The row of reads is of another machine than the others, with a load of ten to fifteen on its four cores, and from before cells of one
//! size were tested without flags. On that or a like machine the other ratios were, in the same order, 0.22 and 0.22, 0.91 and 0.97, and
//! between 1.1 and 1.6 for a split, which took 2,763 to 4,141 there with 150 entries from run to run, where C took 2,554.
//!
//! Slower than C are a removal and an insertion, as cells and slots move by a rotation, which keeps the shorter side in
//! a buffer meanwhile and moves the rest at once, and as each slot is written again; and on the second machine a split,
//! as each entry is put by an insertion of its own. Keys are compared eight bytes at a time. The first eight bytes of each key are read
//! once by the test of a page's form, as a number that is kept for the next slot; where two such numbers differ, no other byte of the two
//! keys is read. A search reads those of its own key once: each of its steps is then one number read and compared, without a call, and
//! only where the two are equal, or one of the keys is shorter, all bytes are compared.
//!
//! That no two cells share a byte and none is left over is tested in the first of three ways that serves:
//! - The cells lie in the order of their slots, from the page's end down to where the cells begin, as where a page was filled in order, by
//!   `copy_entries` too: one pass over the slots, which looks first whether the last slot's cell is the foremost one.
//! - All cells have one size, as where all keys have one length, and begin at whole numbers of it: one pass for that, without a branch, and
//!   one for the keys. As the keys rise, no two slots have one cell, and together the cells are as long as their place.
//! - Else flags: for the byte where the cells begin and the one after each slot's cell, so that no step waits for the one before; at last
//!   each slot has to name a flagged byte, and the page's end has to be one.
//!
//! What the first two save, on one machine: `load` of one of 64 leaves of 147 entries with keys of eight bytes, after a copy into a buffer,
//! took 410 ns where their cells lie in order, 440 or 555 where they lie scattered, by how the compiler laid the loop out, and 794 where one
//! key has a byte more, so that flags are needed; of one of 2,048 leaves into one of 1,024 pages 933, 1,001 or 1,171, and 1,430 to 1,504 (each
//! the least of some runs of 20 times 20,000 calls).
#![tactic(auto)]

mod cells;
mod form;
mod header;
mod insertion;
mod leaf_edit;
mod number;
mod page;
mod read_form;
mod removal;
mod split;

pub use header::Header;
pub use leaf_edit::{LeafEdit, place_in};
pub use page::{Full, Page};
pub use split::HALF_PAGE;
