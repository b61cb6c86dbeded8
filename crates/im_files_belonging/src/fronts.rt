//! What the first bytes of a log say.
ghost use Rattle.std.specs.Prelude.{◌≡◌, ◌↔◌, ◌<◌, ◌≤◌, ◌+◌, true, drop, length, slice_index, take};
ghost use Rattle.im_log_header.specs.Header.{base_of, first_gate, generation_of, IsMade, IsSecond};
ghost use Rattle.im_log_header.specs.Start.{SaysStart};
ghost use Rattle.im_log_record.specs.FirstBytes.{kind_in};
ghost use Rattle.im_files_belonging.specs.Fronts.{first_transaction, front_says_made, front_says_second, gate_byte, kind_changes, mended, shown, BeginsWithChange, HasOwnRecord, LacksFirstByte};

use crate::folder::{FRONT, Front};
use im_log_gate::AHEAD;
use im_log_header::{
    LogStart, has_second_header, is_made_log, is_second_log, is_whole_log, start_of,
};
use im_log_record::{Kind, kind_of, transaction_of};

// The bytes that were read, as far as the file goes.
fn shown(front: &Front) -> &[u8]
    ensures { result.now ≡ shown front.now }
{
    if front.long < FRONT as u64 {
        &front.bytes[..front.long as usize]
    } else {
        &front.bytes[..]
    }
}

/// The log says that it was made.
pub(crate) fn is_made(front: &Front) -> bool
    ensures { result ≡ front_says_made front.now }
{
    is_made_log(shown(front))
}

/// It says so, and is of the second format.
pub(crate) fn is_second(front: &Front) -> bool
    ensures { result ≡ front_says_second front.now }
{
    is_second_log(shown(front))
}

// What it says of where its log starts.
fn start(front: &Front) -> LogStart
    ensures says { SaysStart result (shown front.now) }
    ensures gate { result.first_gate ≤ 47 }
{
    start_of(shown(front))
}

/// The generation of a log: 0 where it is not made, and 1 in the first format.
pub(crate) fn generation(front: &Front) -> u64
    ensures { result ≡ generation_of (shown front.now) }
{
    start(front).header.generation
}

/// The LSN of a log's first byte: 0 in the first format.
pub(crate) fn base(front: &Front) -> u64
    ensures { result ≡ base_of (shown front.now) }
{
    start(front).header.base
}

/// The place of its first gate.
pub(crate) fn first_gate(front: &Front) -> u64
    ensures is { result ≡ first_gate (shown front.now) }
    ensures low { result ≤ 47 }
{
    start(front).first_gate
}

// The byte at this place, 0 where the file has none.
fn byte(front: &Front, place: u64) -> u8
    requires within { place < 65 }
    ensures { result ≡ slice_index (shown front.now) place }
{
    let bytes = shown(front);
    if place < bytes.len() as u64 {
        bytes[place as usize]
    } else {
        0
    }
}

/// The first gate is open.
pub(crate) fn is_open(front: &Front) -> bool
    ensures { (result ≡ true) ↔ (gate_byte (shown front.now) ≡ 1) }
{
    im_log_gate::is_open(byte(front, first_gate(front)))
}

/// A record of this kind changes a page.
pub(crate) fn changes_page(kind: Option<Kind>) -> bool
    ensures { result ≡ kind_changes kind }
{
    match kind {
        Some(
            Kind::InsertKey
            | Kind::DeleteKey
            | Kind::UndoInsert
            | Kind::UndoDelete
            | Kind::Smo
            | Kind::UndoSmo,
        ) => true,
        _ => false,
    }
}

// What was read of the first record.
fn first_record(front: &Front) -> &[u8]
    ensures { result.now ≡ drop (first_gate (shown front.now) + 5) (shown front.now) }
{
    let bytes = shown(front);
    let place = first_gate(front) as usize + AHEAD;
    if place < bytes.len() {
        &bytes[place..]
    } else {
        &[]
    }
}

// The record after the first gate is of a kind that changes a page.
fn has_change_first(front: &Front) -> bool
    ensures { result ≡ kind_changes (kind_in (drop (first_gate (shown front.now) + 5) (shown front.now))) }
{
    changes_page(kind_of(first_record(front)))
}

// It is a log of either format.
fn is_whole(front: &Front) -> bool
    ensures { (result ≡ true) ↔ IsMade (shown front.now) }
{
    is_whole_log(shown(front))
}

/// The log, of either format, begins with a record that changes a page.
pub(crate) fn begins_with_change(front: &Front) -> bool
    ensures { (result ≡ true) ↔ BeginsWithChange front.now }
{
    if !is_whole(front) {
        return false;
    }
    if !is_open(front) {
        return false;
    }
    has_change_first(front)
}

// The same beginning with the first byte of a log that was made.
fn mended(front: &Front) -> Front
    ensures { result ≡ mended front.now }
{
    let mut made = *front;
    made.bytes[0] = 1;
    made
}

// It has a header of the second format, whatever its first byte is.
fn is_named(front: &Front) -> bool
    ensures { (result ≡ true) ↔ (47 < length (shown front.now)) × IsSecond (take 46 (drop 1 (shown front.now))) }
{
    has_second_header(shown(front))
}

// With its first byte it is of a later generation than the other log, and of a greater base.
fn is_later(made: &Front, other: &Front) -> bool
    ensures { (result ≡ true) ↔ (generation_of (shown other.now) < generation_of (shown made.now)) × (base_of (shown other.now) < base_of (shown made.now)) }
{
    generation(other) < generation(made) && base(other) < base(made)
}

// The number of the transaction that the first record of the second format is of.
fn transaction(front: &Front) -> u64
    ensures { result ≡ first_transaction front.now }
{
    transaction_of(&front.bytes[52..])
}

// The first record is of a transaction that the header allows, and the header allows none that is older than the other log.
fn has_own_record(front: &Front, other: &Front) -> bool
    ensures { (result ≡ true) ↔ HasOwnRecord front.now other.now }
{
    let allowed = start(&mended(front)).header.next;
    allowed <= transaction(front) && start(other).header.next <= allowed
}

/// The log may have been made, and be the newer one, though its first byte does not say so: it has a whole header of a later generation than the other log and of a
/// greater base, its first gate is open, and the record after it is of a transaction that the header allows, which is not older than the other log. A first byte that
/// was damaged leaves that. So does a stop, though hardly ever: where the file had a log without a record, after whose gate a cut put left such bytes, and the header
/// of the next log was cut to such a one with an open gate. Nothing in the files tells the two apart, so no opening is refused for it.
pub fn may_lack_first_byte(front: &Front, other: &Front) -> bool
    ensures { (result ≡ true) ↔ LacksFirstByte front.now other.now }
{
    if is_made(front) {
        return false;
    }
    if !is_named(front) {
        return false;
    }
    let made = mended(front);
    if !is_later(&made, other) {
        return false;
    }
    is_open(&made) && has_own_record(front, other)
}
