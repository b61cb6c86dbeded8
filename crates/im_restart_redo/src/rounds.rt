//! Rounds: changes made again at once to the pages that they are of.

ghost use Rattle.std.specs.Prelude.{◌≡◌, ◌≤◌, ◌<◌, ◌+◌, ℕ, List, false, if◌then◌else◌, length, take, Option, IfOk, OnOk};
ghost use Rattle.im_base_types.specs.Pages.{Page};
ghost use Rattle.im_theory_log.specs.Histories.{Base, History};
ghost use Rattle.im_theory_log.specs.RedoPoints.{redo_point};
ghost use Rattle.im_restart_analysis.specs.CopyLsns.{AreCopies};
ghost use Rattle.im_page_writer.specs.Outcome.{fault_of, no_page};
ghost use Rattle.im_page_writer.specs.PageWriter.{IsReadyWriter};
ghost use Rattle.im_restart_redo.specs.Changes.{lsns_of};
ghost use Rattle.im_restart_redo.specs.Redo.{AreApplicable};
ghost use Rattle.im_restart_redo.specs.Recovery.{Recovers};
ghost use Rattle.im_restart_redo.specs.Applying.{IsApplying};
ghost use Rattle.im_restart_redo.specs.Rounds.{AreWhole, PassedKept, passed_of};
ghost use Rattle.im_restart_redo.specs.Segments.{AreOrdered, IsWithinSegment, PartKept, lsns_in};
ghost use Rattle.im_restart_redo.specs.Window.{Shows};

use crate::records::redo_one;
use crate::round_room::RoundRoom;
use crate::window::Window;
use im_base_disk::Disk;
use im_base_types::{Fault, Lsn, PageNo, WorkerStart};
use im_page_writer::PageWriter;
use im_restart_analysis::Change;
use std::collections::BTreeMap;
use std::thread::Threads;

/// How many changes redo went past, and how many of their records it applied.
#[derive(Clone, Copy)]
pub(crate) struct Passed {
    pub changes: usize,
    pub applied: u64,
}

// How many records were applied, where one was or was not.
fn one_if(applied: bool) -> u64
    ensures { result ≡ (if applied then 1 else 0) }
{
    if applied { 1 } else { 0 }
}

/// Makes the next change alone.
pub(crate) fn redo_first<D: Disk>(
    writer: &mut PageWriter,
    disk: &mut D,
    point: Lsn,
    copies: &BTreeMap<PageNo, Lsn>,
    changes: &[Change],
    window: &mut Window,
    room: &mut [u8],
) -> Result<Passed, Fault>
    requires some { 0 < length changes.now }
    requires room { 16384 ≤ length room.old }
    requires used { window.old.used ≤ length room.old }
    requires ready { IsReadyWriter D.Disk writer.old disk.old }
    requires working { writer.old.failed ≡ false }
    ensures outcome { Recovers D.Disk no_page writer.old writer.new disk.new (fault_of result) }
    ensures room { length room.new ≡ length room.old }
    ensures used { window.new.used ≤ length room.new }
    ensures passed { IfOk result (λ passed. (passed.changes ≡ 1) × (passed.applied ≤ 1)) }
    ensures kept { (b : Base) (base : ℕ) (begun : History) (file : ℕ → Option Page) (from : D) (count : ℕ) → IsApplying D.Disk b base begun file (lsns_of changes.now) count from writer.old disk.old
        → Shows begun window.old room.old → AreApplicable b begun → point ≡ redo_point begun → AreCopies point copies.now begun → PassedKept D.Disk b base begun file (lsns_of changes.now) count from writer.new disk.new result }
    ensures shows { (b : Base) (base : ℕ) (begun : History) (file : ℕ → Option Page) (from : D) (count : ℕ) → IsApplying D.Disk b base begun file (lsns_of changes.now) count from writer.old disk.old
        → Shows begun window.old room.old → OnOk result (Shows begun window.new room.new) }
{
    let applied = redo_one(writer, disk, point, copies, changes[0].lsn, window, room)?;
    Ok(Passed {
        changes: 1,
        applied: one_if(applied),
    })
}

// What went past by a round of so many records, of which so many were applied, if it was redone.
fn passed_by(planned: usize, redone: Option<u64>) -> Passed
    ensures { result ≡ passed_of planned redone }
{
    match redone {
        None => Passed {
            changes: 0,
            applied: 0,
        },
        Some(applied) => Passed {
            changes: planned,
            applied,
        },
    }
}

// Makes the changes of the next pages, of so many at most: from the first of these changes on, which stand in order of pages, each page's to
// its last. None went past where the pages can't all be held at once: then nothing was redone. One page alone can.
#[tactic(auto, using(crate::proofs::Rooms::room_fewer, im_page_rounds::proofs::Places::room_same, im_page_rounds::proofs::Places::some_on))]
fn redo_pages<D: Disk, R: Threads + Sync, T: WorkerStart + Sync>(
    rt: &R,
    at_start: &T,
    writer: &mut PageWriter,
    disk: &mut D,
    point: Lsn,
    copies: &BTreeMap<PageNo, Lsn>,
    window: Window,
    room: &[u8],
    most: usize,
    changes: &[(PageNo, Lsn)],
    rounds: &mut RoundRoom,
) -> Result<Passed, Fault>
    requires some { 0 < length changes.now }
    requires pages { 0 < most }
    requires few { most ≤ rounds.old.most }
    requires order { AreOrdered changes.now }
    requires fits { length changes.now ≤ rounds.old.longest }
    requires used { window.used ≤ length room.now }
    requires ready { IsReadyWriter D.Disk writer.old disk.old }
    ensures outcome { Recovers D.Disk no_page writer.old writer.new disk.new (fault_of result) }
    ensures most { rounds.new.most ≡ rounds.old.most }
    ensures longest { rounds.new.longest ≡ rounds.old.longest }
    ensures passed { IfOk result (λ passed. (passed.changes ≤ length changes.now) × (passed.applied ≤ passed.changes)) }
    ensures kept { (b : Base) (base : ℕ) (begun : History) (file : ℕ → Option Page) (from : D) (all : List (ℕ × ℕ)) (later : List ℕ) (count : ℕ) → IsWithinSegment D.Disk b base begun file all changes.now later count from writer.old disk.old
        → AreWhole window.from (take window.used room.now) (lsns_in changes.now) → Shows begun window room.now → AreApplicable b begun → point ≡ redo_point begun → AreCopies point copies.now begun
        → PartKept D.Disk b base begun file all changes.now later count from writer.new disk.new result }
    ensures one { (b : Base) (base : ℕ) (begun : History) (file : ℕ → Option Page) (from : D) (all : List (ℕ × ℕ)) (later : List ℕ) (count : ℕ) → IsWithinSegment D.Disk b base begun file all changes.now later count from writer.old disk.old
        → most ≡ 1 → IfOk result (λ passed. 0 < passed.changes) }
{
    rounds.plan(most, changes);
    let planned = rounds.lsns.len();
    let redone = writer.redo_round(
        rt,
        at_start,
        disk,
        point,
        copies,
        &rounds.numbers,
        &mut rounds.workers,
        &rounds.lsns,
        window.from,
        &room[..window.used],
    )?;
    Ok(passed_by(planned, redone))
}

/// Makes the changes of the next pages, of one at least: from the first of these changes on, which stand in order of pages, each page's to its
/// last.
///
/// Refused `NotAStore` where the pages can't even be held one by one, which no store leads to.
pub(crate) fn redo_part<D: Disk, R: Threads + Sync, T: WorkerStart + Sync>(
    rt: &R,
    at_start: &T,
    writer: &mut PageWriter,
    disk: &mut D,
    point: Lsn,
    copies: &BTreeMap<PageNo, Lsn>,
    window: Window,
    room: &[u8],
    changes: &[(PageNo, Lsn)],
    rounds: &mut RoundRoom,
) -> Result<Passed, Fault>
    requires some { 0 < length changes.now }
    requires pages { 0 < rounds.old.most }
    requires order { AreOrdered changes.now }
    requires fits { length changes.now ≤ rounds.old.longest }
    requires used { window.used ≤ length room.now }
    requires ready { IsReadyWriter D.Disk writer.old disk.old }
    ensures outcome { Recovers D.Disk no_page writer.old writer.new disk.new (fault_of result) }
    ensures most { rounds.new.most ≡ rounds.old.most }
    ensures longest { rounds.new.longest ≡ rounds.old.longest }
    ensures passed { IfOk result (λ passed. (0 < passed.changes) × (passed.changes ≤ length changes.now) × (passed.applied ≤ passed.changes)) }
    ensures kept { (b : Base) (base : ℕ) (begun : History) (file : ℕ → Option Page) (from : D) (all : List (ℕ × ℕ)) (later : List ℕ) (count : ℕ) → IsWithinSegment D.Disk b base begun file all changes.now later count from writer.old disk.old
        → AreWhole window.from (take window.used room.now) (lsns_in changes.now) → Shows begun window room.now → AreApplicable b begun → point ≡ redo_point begun → AreCopies point copies.now begun
        → PartKept D.Disk b base begun file all changes.now later count from writer.new disk.new result }
{
    let most = rounds.most;
    let passed = redo_pages(
        rt, at_start, writer, disk, point, copies, window, room, most, changes, rounds,
    )?;
    if passed.changes > 0 {
        return Ok(passed);
    }
    let alone = redo_pages(
        rt, at_start, writer, disk, point, copies, window, room, 1, changes, rounds,
    )?;
    if alone.changes == 0 {
        return Err(Fault::NotAStore);
    }
    Ok(alone)
}
