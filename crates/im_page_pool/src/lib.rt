//! What is the page of a number, and in which frame does it stand?
//!
//! A bounded pool of pages: each held page stands in a frame, and any other is read when it is wanted.
//!
//! # The contract
//!
//! Contracts see a pool as the list of its held pages, the most recently used first, each with the place of its frame,
//! the page and a mark that says whether it was changed since it was read or written; with the number of frames and a
//! count of gets. Numbers differ, and at most as many pages are held as there are frames.
//!
//! - `page_seen` (in `specs/Pool.antt`) is what the pool is about: a function from page number to page. It is the held
//!   page, else the page in the bytes of the file (`file_page`, in the specs of `im_theory_page`): the initial page from the
//!   file's page count on, and none where the bytes are no page.
//! - `get` leaves that function as it is, and answers the frame at which the page is held. A page that is held costs a
//!   look-up of its number, and one of its frame, which moves in the order of use; any other one length call, one read and one check.
//! - `get_held` does the same of a page that is held, and of any other says that it is not, by one look-up.
//! - `get_absent` does the same of a page that is not held, for which a frame is free. Its number is looked up where it is entered, once
//!   where there is room for it, and not before.
//! - `insert`, `remove`, `copy_in` and the setters change the one page of their frame, as the calls of `im_page` of the
//!   same names do, and mark it.
//! - `exchange` puts another page into a frame, and lends the page that it had: no page is missing from the pool.
//! - `hold_copy` holds a page whatever the file has, without a call of the disk.
//! - `write_back` writes one page at its place and takes the mark off; `write_page` does so for a page outside. A stop
//!   within leaves any bytes where that page stands, and each other page as it was.
//! - `evict` gives the frame of one page back.
//!
//! The caller makes room: `get` and its kin ask for a free frame, or for a page that is held. `oldest` and
//! `oldest_changed` say which page to evict or to write.
//!
//! # Frames by use
//!
//! Which page stands in which frame, `Places` knows. It is seen as two lists (`PlacesView`): the number of each held page with the place
//! of its frame, the most recently used first, and the free frames. `Places` finds a page's frame, makes it the most recently used, names
//! the least recently used, takes a free frame for a page, and gives one back. It knows nothing of what is in a frame. That each place
//! stands once in the two lists (`AreApart`) is so at first, and the pool's to keep.
//!
//! All places are in the order of use from the start, in the list of `lru`, and a map with room for one more than twice as many numbers
//! finds the place of a page (`numbers`). Mostly a guess has found it before (`guesses`), so that a page get is one look-up, in the
//! order of use.
//!
//! # Memory
//!
//! `new` takes the memory of all frames, and of what finds them. No other call takes any, so that no other call is refused `Memory`. It
//! writes what finds the frames, and no frame: these stand in one list, which grows up to a place when the frame there is first changed.
//! The free place that is taken next is the one that was given back last, else the lowest that was never taken. So a system that hands
//! memory out as it is touched hands out that of as many frames as were ever held at once.
//!
//! # Speed
//!
//! By `im_bench pool --time`, with 1,000 pages: a get of a held page takes 12 to 22 ns, beside 4 to 6 for a look-up alone in a hash
//! map of the same numbers; no page is copied and nothing allocated. A get that reads takes 1.3 to 1.6 µs from a disk in
//! memory: one copy of 4 KiB, and the check of the page's form, which is most of it.
//!
//! # What is counted
//!
//! Each call of `get` or of `get_absent` adds one to the pool's `gets`, whether it succeeds or not, and each of `get_held` that finds
//! its page. That number has no bytes (`Count` of `im_base_disk`): it stands in contracts alone.
//!
//! The crate stands on `im_page` and on `im_base_disk`. A place is an index of the list of frames, those not used yet among them; the
//! invariant says that each place stands once among those of the held pages and the free ones.
#![tactic(auto)]

mod files;
mod frame;
mod frames;
mod guesses;
mod numbers;
mod places;
mod pool;

pub use files::write_page;
pub use frame::Frame;
pub use pool::Pool;
