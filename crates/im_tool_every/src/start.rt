//! What a life begins with.

ghost use Rattle.std.specs.Prelude.{◌≡◌, false, IfOk};
ghost use Rattle.im_base_disk.specs.Runs.{IsSynced};
ghost use Rattle.im_tool_judge.specs.Judged.{asked_effect};
ghost use Rattle.im_tool_every.specs.Swept.{begun_with};

use crate::every::{Counts, judge, new_disk};
use crate::judged_opening::left_by;
use im_base_disk::Disk;
use im_base_model_disk::ModelDisk;
use im_base_two_logs::Renamed;
use im_base_types::{Fault, Key, Rid};
use im_engine::BufferSize;
use im_tool_drill::{open_store, run_store_life};
use im_tool_judge::{AskedEffect, Change, effects_asked};
use im_tool_lines::{LifeOptions, StoreLife, StoreLine, StoreReply};
use std::alloc::{AllocError, Global};
use std::thread::Threads;

// An opening with what is there where nothing is named: so the entries of a disk are those of any opening.
const PLAIN: LifeOptions = LifeOptions {
    frames: None,
    max_pages: None,
    failing_call: None,
    failing_read: None,
    stepped: false,
    group: false,
    dense: false,
    workers: None,
};

/// A disk, and the entries that an opening finds on it.
#[derive(Drop)]
pub struct Start {
    disk: ModelDisk,
    entries: Vec<(Key, Rid)>,
}

impl Start {
    ghost use Rattle.std.specs.Prelude.{◌≡◌, ◌∷◌, IfOk};
    ghost use Rattle.im_tool_judge.specs.Judged.{asked_in};
    ghost use Rattle.im_tool_every.specs.Failing.{IsAfter};
    ghost use Rattle.im_tool_every.specs.Swept.{asked_of, begun_with};

    /// Three empty files.
    pub fn empty(alloc: Global) -> Start {
        Start {
            disk: new_disk(alloc),
            entries: Vec::new(alloc),
        }
    }

    /// The entries that an opening finds on this disk, or why it finds none.
    pub fn of<T: Threads + Sync>(
        rt: &T,
        alloc: Global,
        disk: ModelDisk,
        buffer: BufferSize,
    ) -> Result<Result<Start, Fault>, AllocError>
        ensures { IfOk result (λ found. IfOk found (λ start. start.disk ≡ disk)) }
    {
        let copy = left_by(alloc, &disk)?;
        match entries_on(rt, alloc, copy, buffer) {
            Ok(entries) => Ok(Ok(Start { disk, entries })),
            Err(Fault::Memory) => Err(AllocError),
            Err(fault) => Ok(Err(fault)),
        }
    }

    pub(crate) fn disk(&self) -> &ModelDisk
        ensures { result.now ≡ self.now.disk }
    {
        &self.disk
    }

    /// What a life asked that began with this, by its lines and replies: first stands what it began with, as one effect that was acknowledged.
    pub(crate) fn asked(
        &self,
        alloc: Global,
        lines: &[StoreLine],
        replies: &[StoreReply],
    ) -> Result<Vec<AskedEffect>, AllocError>
        ensures { IfOk result (λ asked. asked_in asked.items ≡ begun_with self.now.entries.items ∷ asked_of lines.now replies.now) }
    {
        let mut asked = effects_asked(alloc, lines, replies)?;
        let first = effect_of(alloc, &self.entries)?;
        asked.insert(0, first)?;
        Ok(asked)
    }

    /// What the next life begins with, after this one as it stands: its end is judged, and counted where it is bad.
    pub(crate) fn after<T: Threads + Sync>(
        &self,
        rt: &T,
        alloc: Global,
        life: &StoreLife,
        buffer: BufferSize,
        counts: &mut Counts,
    ) -> Result<Result<Start, Fault>, AllocError>
        ensures { IfOk result (λ next. IsAfter ⟦<ModelDisk as Disk>⟧ ⟦<Renamed<ModelDisk> as Disk>⟧ self.now life.now next counts.old counts.new) }
    {
        let disk = left_by(alloc, &self.disk)?;
        let (told, disk) = run_store_life(rt, alloc, disk, life, buffer)?;
        let asked = self.asked(alloc, &life.lines, &told.replies)?;
        let left = left_by(alloc, &disk)?;
        let _calls = judge(rt, alloc, &left, PLAIN, buffer, &asked, counts)?;
        let next = Start::of(rt, alloc, left, buffer)?;
        Ok(next)
    }
}

// The entries that an opening finds on this disk.
fn entries_on<T: Threads + Sync>(
    rt: &T,
    alloc: Global,
    disk: ModelDisk,
    buffer: BufferSize,
) -> Result<Vec<(Key, Rid)>, Fault>
    requires working { ⟦<ModelDisk as Disk>⟧.failed disk ≡ false }
    requires synced { IsSynced ⟦<ModelDisk as Disk>⟧ disk }
{
    match open_store(rt, alloc, Renamed::new(disk, false), PLAIN, buffer) {
        Ok(mut engine) => {
            let found = engine.entries(alloc);
            let _disk = engine.into_disk();
            found
        }
        Err((fault, _named)) => Err(fault),
    }
}

// These entries, put by one effect that was acknowledged.
fn effect_of(alloc: Global, entries: &[(Key, Rid)]) -> Result<AskedEffect, AllocError>
    ensures { IfOk result (λ effect. asked_effect effect ≡ begun_with entries.now) }
{
    let mut changes = Vec::new(alloc);
    for entry in entries {
        let key = Vec::from_slice(alloc, entry.0.bytes())?;
        let change = Change::Insertion(key, entry.1);
        changes.push(change)?;
    }
    Ok(AskedEffect {
        txn: 0,
        changes,
        acked: true,
    })
}
