//! How redo is made: by workers in threads of their own, or by the opening call alone.

ghost use denote.Param.Send.{IsSync};
ghost use Rattle.std.specs.Prelude.{◌≡◌, ◌≤◌, ℕ, length, Option, ⊤};
ghost use Rattle.im_base_types.specs.Pages.{Page};
ghost use Rattle.im_theory_log.specs.Histories.{Base, History};
ghost use Rattle.im_theory_log.specs.RedoPoints.{redo_point};
ghost use Rattle.im_theory_log.specs.WriterSteps.{opened};
ghost use Rattle.im_restart_analysis.specs.Changes.{changes_from};
ghost use Rattle.im_restart_analysis.specs.CopyLsns.{AreCopies};
ghost use Rattle.im_page_writer.specs.Outcome.{fault_of, mild};
ghost use Rattle.im_page_writer.specs.PageWriter.{IsReadyWriter, StandsAs};
ghost use Rattle.im_restart_redo.specs.Recovery.{Recovers};
ghost use Rattle.im_restart_redo.specs.Redo.{AreApplicable, RedoneKept};

use im_base_disk::Disk;
use im_base_types::{Fault, Lsn, PageNo, StartAtOnce};
use im_page_writer::PageWriter;
use im_restart_analysis::Change;
use im_restart_redo::redo_alone;
use std::alloc::Global;
use std::collections::BTreeMap;
use std::thread::Threads;

/// How redo is made. However that is, each page is afterwards what the whole durable log made of it, and as many records were applied.
pub trait Redoes {
    /// What is asked of the types of which it is made.
    ghost shared: { Type 0 };

    /// Redo by so many workers, one at least, as `im_restart_redo::redo` tells it.
    fn redo<D: Disk>(
        &self,
        alloc: Global,
        writer: &mut PageWriter,
        disk: &mut D,
        point: Lsn,
        copies: &BTreeMap<PageNo, Lsn>,
        changes: &[Change],
        room: &mut [u8],
        workers: usize,
    ) -> Result<u64, Fault>
        requires shared { shared }
        requires workers { 1 ≤ workers }
        requires room { 16384 ≤ length room.old }
        requires ready { IsReadyWriter D.Disk writer.old disk.old }
        ensures outcome { Recovers D.Disk mild writer.old writer.new disk.new (fault_of result) }
        ensures room { length room.new ≡ length room.old }
        ensures kept { (b : Base) (base : ℕ) (begun : History) (file : ℕ → Option Page) → StandsAs D.Disk b base (opened b begun file) writer.old disk.old
            → AreApplicable b begun → point ≡ redo_point begun → AreCopies point copies.now begun → changes.now ≡ changes_from point begun
            → RedoneKept D.Disk b base begun file disk.old writer.new disk.new result };
}

/// By workers, in threads that a runtime starts.
#[derive(Clone, Copy)]
pub struct ByThreads<'a, R> {
    rt: &'a R,
}

impl<'a, R> ByThreads<'a, R> {
    /// The runtime that starts the threads.
    pub fn new(rt: &'a R) -> ByThreads<'a, R>
        ensures { result.rt.now ≡ rt.now }
    {
        ByThreads { rt }
    }
}

impl<R: Threads + Sync> Redoes for ByThreads<'_, R> {
    ghost shared = { IsSync R.row };

    fn redo<D: Disk>(
        &self,
        alloc: Global,
        writer: &mut PageWriter,
        disk: &mut D,
        point: Lsn,
        copies: &BTreeMap<PageNo, Lsn>,
        changes: &[Change],
        room: &mut [u8],
        workers: usize,
    ) -> Result<u64, Fault> {
        im_restart_redo::redo(
            self.rt,
            alloc,
            writer,
            disk,
            point,
            copies,
            changes,
            room,
            workers,
            &StartAtOnce,
        )
    }
}

/// By the opening call alone, however many workers there may be: for a caller who can start no threads.
#[derive(Clone, Copy, Debug)]
pub struct Alone;

impl Redoes for Alone {
    ghost shared = { ⊤ };

    fn redo<D: Disk>(
        &self,
        _alloc: Global,
        writer: &mut PageWriter,
        disk: &mut D,
        point: Lsn,
        copies: &BTreeMap<PageNo, Lsn>,
        changes: &[Change],
        room: &mut [u8],
        _workers: usize,
    ) -> Result<u64, Fault> {
        redo_alone(writer, disk, point, copies, changes, room)
    }
}
