//! Which functions does C see?
//!
//! The store for C. C hands in memory: as many bytes as `im_size` says for a store, an `Opening` of it, and a `Call` for each question. Beside it decisions over what C
//! has read or keeps itself: whether the files of a folder belong together, and what may be cut of them after a close (`im_files_belonging`), who may begin now (`im_base_admission`), and where names
//! and long values lie among the keys of a store (`im_names`).
#![tactic(auto)]

ghost use Rattle.std.specs.Prelude.{◌≡◌, ◌≤◌, ◌+◌, ◌↔◌, true, not, length, take, drop, MatchOption};
ghost use Rattle.std.specs.Borrow.{sem};
ghost use Rattle.im_capi.specs.Pointers.{bytes_of_store, room_for_store, blank_at, store_at, call_at, made_at, store_to_open_at, opening_at, opened_at, Question, ToOpen};
ghost use Rattle.im_files_belonging.specs.Belonging.{DecidesBelonging};
ghost use Rattle.im_files_belonging.specs.LogCuts.{log_cuts_of};
ghost use Rattle.im_files_belonging.specs.LeftLog.{current_log_of, left_log_of, walk_piece, PagesAreOlder};
ghost use Rattle.im_names.specs.Asked.{key_by_number};
ghost use Rattle.im_names.specs.Kinds.{key_of_part};
ghost use Rattle.im_names.specs.Parts.{part_asked};
ghost use Rattle.im_names.specs.Readings.{read_on};
ghost use Rattle.im_base_admission.specs.Admission.{IsAwaitedBy, IsLeastOf, IsPatient, MayBegin, Owns};

use im_base_admission::{Asker, Going};
use im_calls::{Call, Opening, Session, blank, made, open};
use std::alloc::Global;

/// What a handle points to.
#[repr(C)]
#[derive(Drop)]
pub struct Handle {
    tag: u8,
}

/// How many bytes a store takes, at an address that 16 divides.
#[unsafe(no_mangle)]
pub extern "C" fn im_size() -> usize
    ensures { result ≡ bytes_of_store }
{
    std::mem::size_of::<Session>()
}

/// Whether the files of a folder belong together, by their beginnings: the number of `im_files_belonging`.
#[unsafe(no_mangle)]
pub extern "C" fn im_belong(folder: &im_files_belonging::Folder) -> u32
    ensures { DecidesBelonging folder.now result }
{
    im_files_belonging::decide(folder)
}

/// The walk over the log that was left, at its first gate.
#[unsafe(no_mangle)]
pub extern "C" fn im_left_log(
    folder: &im_files_belonging::Folder,
    left: &mut im_files_belonging::LeftLog,
)
    ensures { left.new ≡ left_log_of folder.now }
{
    *left = im_files_belonging::LeftLog::begin(folder);
}

/// The walk over the current log, at its first gate, with what that over the log that was left has found.
#[unsafe(no_mangle)]
pub extern "C" fn im_left_go_on(
    folder: &im_files_belonging::Folder,
    left: &mut im_files_belonging::LeftLog,
)
    ensures { left.new ≡ current_log_of folder.now left.old }
{
    *left = left.go_on(folder);
}

/// Takes bytes of the log, those from the wanted place on, and walks on as far as they reach.
#[unsafe(no_mangle)]
pub extern "C" fn im_left_take(left: &mut im_files_belonging::LeftLog, piece: &[u8])
    ensures { left.new ≡ walk_piece (length piece.now) left.old.place piece.now left.old }
{
    left.take(piece);
}

/// Whether the file of pages lacks the newest change of the log that was left.
#[unsafe(no_mangle)]
pub extern "C" fn im_is_older(left: &im_files_belonging::LeftLog, pages: u64, lsn: u64) -> bool
    ensures { (result ≡ true) ↔ PagesAreOlder left.now pages lsn }
{
    im_files_belonging::is_older(left, pages, lsn)
}

/// What may be cut of the logs of a closed store.
#[unsafe(no_mangle)]
pub extern "C" fn im_log_cuts(
    folder: &im_files_belonging::Folder,
    cuts: &mut im_files_belonging::LogCuts,
)
    ensures { cuts.new ≡ log_cuts_of folder.now }
{
    *cuts = im_files_belonging::LogCuts::of(folder);
}

/// Makes a store that is not open in the room at a pointer.
#[unsafe(no_mangle)]
pub unsafe extern "C" fn im_init(alloc: Global, at: *mut Handle)
    requires* { sem 𝓛 (room_for_store at) }
    ensures* { sem 𝓛 (blank_at at) }
{
    std::ptr::write(at as *mut Session, blank(alloc));
}

/// Opens the store as it is asked: what lies at both pointers then is what `open` of im_calls leaves of what lay there (`Opens`).
#[unsafe(no_mangle)]
pub unsafe extern "C" fn im_open(at: *mut Handle, asked: *mut Opening)
    ghost was: { ToOpen }
    requires* { sem 𝓛 (store_to_open_at at was) ∗ sem 𝓛 (opening_at asked was) }
    ensures* { sem 𝓛 (opened_at at asked was) }
{
    open(&mut *(at as *mut Session), &mut *asked);
}

/// Does what is asked of the store: what lies at both pointers then is what `made` of im_calls leaves of what lay there (`Makes`).
#[unsafe(no_mangle)]
pub unsafe extern "C" fn im_step(at: *mut Handle, call: *mut Call)
    ghost was: { Question }
    requires* { sem 𝓛 (store_at at was) ∗ sem 𝓛 (call_at call was) }
    ensures* { sem 𝓛 (made_at at call was) }
{
    made(&mut *(at as *mut Session), &mut *call);
}

/// Whether a transaction may begin now.
#[unsafe(no_mangle)]
pub extern "C" fn im_may_begin(going: &[Going], first: u64, asker: &Asker) -> bool
    ensures { result ≡ true ↔ MayBegin going.now first asker.now }
{
    im_base_admission::may_begin(going, first, asker)
}

/// The least number of those that one waits for which asks, and came at this tick; 0 where there is none.
#[unsafe(no_mangle)]
pub extern "C" fn im_oldest(going: &[Going], asker: &Asker, came: u64) -> u64
    ensures { IsLeastOf (IsAwaitedBy asker.now came) (λ g. g.number) going.now result }
{
    im_base_admission::oldest(going, asker, came)
}

/// Who is to be first, where nobody is, by the number that it had; 0 where there is none.
#[unsafe(no_mangle)]
pub extern "C" fn im_earliest(going: &[Going]) -> u64
    ensures { IsLeastOf IsPatient (λ g. g.had) going.now result }
{
    im_base_admission::earliest(going)
}

/// Whether this thread has a transaction active.
#[unsafe(no_mangle)]
pub extern "C" fn im_has_own(going: &[Going], thread: u64) -> bool
    ensures { result ≡ true ↔ Owns thread going.now }
{
    im_base_admission::has_own(going, thread)
}

/// Whether one that made its last step at a tick is left alone by now.
#[unsafe(no_mangle)]
pub extern "C" fn im_is_left_alone(now: u64, patience: u64, since: u64) -> bool
    ensures { result ≡ true ↔ (since + patience ≤ now) }
{
    im_base_admission::is_left_alone(now, patience, since)
}

/// Writes a key of a name, by the number of `Which`, and answers how many bytes it has; 0 where it does not fit.
#[unsafe(no_mangle)]
pub extern "C" fn im_name_key(which: u32, name: &[u8], key: &[u8], to: &mut [u8]) -> usize
    requires room { 255 ≤ length to.old }
    ensures size { result ≡ length (key_by_number which name.now key.now) }
    ensures key { take result to.new ≡ key_by_number which name.now key.now }
{
    im_names::write_key_by_number(which, name, key, to)
}

/// Writes the key of a part of a long value after its front, and its row id; answers how many bytes it has, 0 where there is no such part.
#[unsafe(no_mangle)]
pub extern "C" fn im_long_part(
    front: usize,
    value: &[u8],
    number: u32,
    to: &mut [u8],
    rid: &mut u64,
) -> usize
    requires front { front ≤ 219 }
    requires room { 255 ≤ length to.old }
    ensures { MatchOption (part_asked (take front to.old) value.now number) (result ≡ 0) (λ e. (take result to.new ≡ e.0) × (rid.new ≡ e.1)) }
{
    im_names::write_part_beside(front, value, number, to, rid)
}

/// Takes the next entry of a long value's range; false where it is not its next part.
#[unsafe(no_mangle)]
pub extern "C" fn im_long_read(
    reading: &mut im_names::Reading,
    front: usize,
    key: &[u8],
    rid: u64,
) -> bool
    ensures reading { reading.new ≡ read_on front reading.old (key.now, rid) }
    ensures next { result ≡ not reading.new.is_half }
{
    reading.take(front, key, rid)
}

/// The key of the long value whose part this is, and how many bytes its front has; answers how many the key has, 0 where it is no part.
#[unsafe(no_mangle)]
pub extern "C" fn im_long_key(part: &[u8], to: &mut [u8], front: &mut usize) -> usize
    requires size { length part.now ≤ 255 }
    requires room { 255 ≤ length to.old }
    ensures { MatchOption (key_of_part part.now) (result ≡ 0) (λ k. (take result to.new ≡ k.0) × (drop front.new part.now ≡ k.1)) }
{
    im_names::key_in_beside(part, to, front)
}
