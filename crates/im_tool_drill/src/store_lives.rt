//! Lives of a store, on the model disk.

ghost use Rattle.std.specs.Prelude.{◌≡◌, ◌≢◌, ◌⊎◌, ◌↔◌, true, false, List, IfOk, MatchResult};
ghost use Rattle.std.specs.FinMap.{empty, entries};
ghost use Rattle.im_base_types.specs.declared.fault.Fault.TheVariants.{NotAStore};
ghost use Rattle.im_base_types.specs.Changes.{Effect, apply_all};
ghost use Rattle.im_base_types.specs.Lives.{Shown, nothing_shown, StandsForMore};
ghost use Rattle.im_base_disk.specs.Disk.{Files};
ghost use Rattle.im_base_disk.specs.Runs.{IsSynced};
ghost use Rattle.im_engine.specs.Stands.{StandsFor, Allowed};
ghost use Rattle.im_tool_lines.specs.declared.store_answers.StoreReply.TheVariants.{Stopped};
ghost use Rattle.im_tool_lines.specs.Answered.{AnsweredBy};
ghost use Rattle.im_tool_lines.specs.StoreShown.{asked_by_life, shown_by_lines, IsStoreReply, StoreAnswered};
ghost use Rattle.im_tool_drill.specs.StoreLives.{in_32_bits, GoesOn, IsConfigOf, LineKept};
ghost use Rattle.im_tool_drill.specs.StoreRuns.{IsOpening, IsLifeRun, AreLinesRun, IsLineRun, IsStepRun, IsCountRun, IsLookRun, IsLastRun};

use im_base_disk::Disk;
use im_base_model_disk::{ModelDisk, Stop};
use im_base_steps::Step;
use im_base_two_logs::Renamed;
use im_base_types::{Fault, Key, PageNo, Rid, TxnId};
use im_engine::{BufferSize, Config, Engine, look};
use im_tool_lines::{
    LifeOptions, Opening, StoreAnswers, StoreLife, StoreLine, StoreReply, arm_life, has_come,
    refused_opening,
};
use std::alloc::{AllocError, Global};
use std::thread::Threads;

/// Runs one life on the disk, and gives the disk back as it was when the stop came or the lines ended.
///
/// The stop is armed, and the device call and the read that fail, an engine is opened on the disk, with a log's buffer of this size, and it
/// makes the lines: the answers are its own. Where the files stood for some effects, whatever a stop then leaves stands for these effects and a front of those whose Commit the life asked, with all that were
/// acknowledged; and the opening does not say that the files are no store. Each line has its reply, unless the stop came before or the
/// opening did not succeed.
pub fn run_store_life<T: Threads + Sync>(
    rt: &T,
    alloc: Global,
    disk: ModelDisk,
    life: &StoreLife,
    buffer: BufferSize,
) -> Result<(StoreAnswers, ModelDisk), AllocError>
    requires working { ⟦<ModelDisk as Disk>⟧.failed disk ≡ false }
    requires synced { IsSynced ⟦<ModelDisk as Disk>⟧ disk }
    ensures run { IfOk result (λ run. IsLifeRun ⟦<Renamed<ModelDisk> as Disk>⟧ life.now run.0 disk run.1) }
    ensures answered { IfOk result (λ run. StoreAnswered run.0.opening life.now.lines.items run.0.replies.items) }
    ensures opened { IfOk result (λ run. (before : List Effect) → StandsFor before (⟦<ModelDisk as Disk>⟧.seen disk) → run.0.opening ≢ Opening.Refused NotAStore) }
    ensures kept { IfOk result (λ run. (before : List Effect) → StandsFor before (⟦<ModelDisk as Disk>⟧.seen disk)
        → (c : Files) → ⟦<ModelDisk as Disk>⟧.may_leave run.1 c → StandsForMore StandsFor before (asked_by_life life.now run.0) c) }
{
    let mut disk = disk;
    arm_life(alloc, &mut disk, life)?;
    match open_store(rt, alloc, Renamed::new(disk, false), life.options, buffer) {
        Ok(mut engine) => {
            let opening = Opening::Open(engine.disk().disk().calls());
            let replies = run_store_lines(alloc, &mut engine, &life.lines, &life.stop);
            let disk = engine.into_disk().into_disk();
            let replies = replies?;
            Ok((StoreAnswers { opening, replies }, disk))
        }
        Err((fault, named)) => {
            let disk = named.into_disk();
            let opening = refused_opening(&disk, &life.stop, fault);
            let replies = Vec::new(alloc);
            Ok((StoreAnswers { opening, replies }, disk))
        }
    }
}

/// Opens the store of a disk by these options, with a log's buffer of this size.
pub fn open_store<T: Threads + Sync>(
    rt: &T,
    alloc: Global,
    disk: Renamed<ModelDisk>,
    options: LifeOptions,
    buffer: BufferSize,
) -> Result<Engine<Renamed<ModelDisk>>, (Fault, Renamed<ModelDisk>)>
    requires working { ⟦<Renamed<ModelDisk> as Disk>⟧.failed disk ≡ false }
    requires synced { IsSynced ⟦<Renamed<ModelDisk> as Disk>⟧ disk }
    ensures opening { IsOpening ⟦<Renamed<ModelDisk> as Disk>⟧ options disk result }
    ensures group { IfOk result (λ e. e.txns.group ≡ options.group) }
{
    Engine::open_or_create(rt, alloc, disk, config_of(options, buffer))
}

/// How an engine is opened by these options: 64 frames, 1,000,000 pages and one worker where they are left out. Structure changes
/// are made page by page where `stepped` stands there, Commits wait where `group` does, and splits are dense where `dense` does.
/// The size of the log's buffer is no option of a life, and no life has more frames than it names.
pub fn config_of(options: LifeOptions, buffer: BufferSize) -> Config
    ensures config { IsConfigOf options result }
    ensures buffer { result.buffer ≡ buffer }
{
    let config = Config::default();
    let frames = match options.frames {
        None => config.frames,
        Some(frames) => frames as usize,
    };
    let most = match options.max_pages {
        None => u64::from(config.max_pages),
        Some(most) => most,
    };
    let max_pages = in_32_bits(most);
    let workers = match options.workers {
        None => config.workers,
        Some(workers) => workers as usize,
    };
    Config {
        frames,
        more: config.more,
        max_pages,
        buffer,
        stepped: options.stepped,
        dense: options.dense,
        group: options.group,
        workers,
    }
}

// The number, or the greatest of 32 bits.
fn in_32_bits(number: u64) -> u32
    ensures { result ≡ in_32_bits number }
{
    if number <= u32::MAX as u64 {
        number as u32
    } else {
        u32::MAX
    }
}

fn run_store_lines(
    alloc: Global,
    engine: &mut Engine<Renamed<ModelDisk>>,
    lines: &[StoreLine],
    stop: &Option<Stop>,
) -> Result<Vec<StoreReply>, AllocError>
    ensures run { IfOk result (λ told. AreLinesRun ⟦<Renamed<ModelDisk> as Disk>⟧ stop.now lines.now told.items engine.old engine.new) }
    ensures answered { IfOk result (λ told. AnsweredBy IsStoreReply Stopped lines.now told.items) }
    ensures kept { IfOk result (λ told. (before : List Effect) → GoesOn ⟦<Renamed<ModelDisk> as Disk>⟧ before nothing_shown engine.old
        → (c : Files) → ⟦<Renamed<ModelDisk> as Disk>⟧.may_leave engine.new.disk c → Allowed before (shown_by_lines nothing_shown lines.now told.items) c) }
{
    let mut replies = Vec::new(alloc);
    for line in lines {
        let reply = run_store_line(engine, line, stop);
        let stopped = is_stopped(&reply);
        replies.push(reply)?;
        if stopped {
            return Ok(replies);
        }
    }
    Ok(replies)
}

fn run_store_line(
    engine: &mut Engine<Renamed<ModelDisk>>,
    line: &StoreLine,
    stop: &Option<Stop>,
) -> StoreReply
    ensures run { IsLineRun ⟦<Renamed<ModelDisk> as Disk>⟧ stop.now line.now result engine.old engine.new }
    ensures fits { (result ≡ Stopped) ⊎ IsStoreReply line.now result }
    ensures kept { (before : List Effect) (s : Shown) → GoesOn ⟦<Renamed<ModelDisk> as Disk>⟧ before s engine.old
        → LineKept ⟦<Renamed<ModelDisk> as Disk>⟧ before s line.now result engine.new }
{
    match line {
        StoreLine::Calls => StoreReply::Calls(engine.disk().disk().calls()),
        StoreLine::Step(step) => run_step(engine, step, stop),
        StoreLine::Page(page) => look_at(engine, *page, stop),
        StoreLine::Redo => StoreReply::Redo(engine.redo_report()),
        StoreLine::Log => StoreReply::Log(engine.log_length()),
        StoreLine::Changes(number) => count_changes(engine, *number),
    }
}

fn run_step(engine: &mut Engine<Renamed<ModelDisk>>, step: &Step, stop: &Option<Stop>) -> StoreReply
    ensures run { IsStepRun ⟦<Renamed<ModelDisk> as Disk>⟧ stop.now step.now result engine.old engine.new }
    ensures fits { (result ≡ Stopped) ⊎ IsStoreReply (StoreLine.Step step.now) result }
    ensures kept { (before : List Effect) (s : Shown) → GoesOn ⟦<Renamed<ModelDisk> as Disk>⟧ before s engine.old
        → LineKept ⟦<Renamed<ModelDisk> as Disk>⟧ before s (StoreLine.Step step.now) result engine.new }
{
    let reply = engine.step(step);
    if has_come(stop, engine.disk().disk()) {
        StoreReply::Stopped
    } else {
        StoreReply::Step(reply)
    }
}

// How many changes of a transaction stand.
fn count_changes(engine: &Engine<Renamed<ModelDisk>>, number: TxnId) -> StoreReply
    ensures run { IsCountRun ⟦<Renamed<ModelDisk> as Disk>⟧ number result engine.now }
    ensures fits { IsStoreReply (StoreLine.Changes number) result }
    ensures kept { (before : List Effect) (s : Shown) → GoesOn ⟦<Renamed<ModelDisk> as Disk>⟧ before s engine.now
        → LineKept ⟦<Renamed<ModelDisk> as Disk>⟧ before s (StoreLine.Changes number) result engine.now }
{
    match engine.changes(number) {
        Ok(changes) => StoreReply::Changes(changes),
        Err(fault) => StoreReply::Refused(fault),
    }
}

// What a page is for.
fn look_at(engine: &mut Engine<Renamed<ModelDisk>>, page: PageNo, stop: &Option<Stop>) -> StoreReply
    ensures run { IsLookRun ⟦<Renamed<ModelDisk> as Disk>⟧ stop.now page result engine.old engine.new }
    ensures fits { (result ≡ Stopped) ⊎ IsStoreReply (StoreLine.Page page) result }
    ensures kept { (before : List Effect) (s : Shown) → GoesOn ⟦<Renamed<ModelDisk> as Disk>⟧ before s engine.old
        → LineKept ⟦<Renamed<ModelDisk> as Disk>⟧ before s (StoreLine.Page page) result engine.new }
{
    let header = engine.header(page);
    if has_come(stop, engine.disk().disk()) {
        return StoreReply::Stopped;
    }
    match header {
        Ok(header) => StoreReply::Page(page, header),
        Err(fault) => StoreReply::Refused(fault),
    }
}

// The stop fell into the line.
fn is_stopped(reply: &StoreReply) -> bool
    ensures { result ≡ true ↔ reply.now ≡ Stopped }
{
    matches!(reply, StoreReply::Stopped)
}

/// The entries that a look finds, and the disk after it.
pub(crate) fn last_entries<T: Threads + Sync>(
    rt: &T,
    alloc: Global,
    disk: ModelDisk,
    buffer: BufferSize,
) -> (Result<Vec<(Key, Rid)>, Fault>, ModelDisk)
    requires working { ⟦<ModelDisk as Disk>⟧.failed disk ≡ false }
    requires synced { IsSynced ⟦<ModelDisk as Disk>⟧ disk }
    ensures run { IsLastRun ⟦<Renamed<ModelDisk> as Disk>⟧ disk result.0 result.1 }
    ensures found { (after : List Effect) → StandsFor after (⟦<ModelDisk as Disk>⟧.seen disk)
        → MatchResult result.0 (λ found. found.items ≡ entries (apply_all empty after)) (λ fault. fault ≢ NotAStore) }
{
    let options = LifeOptions {
        frames: None,
        max_pages: None,
        failing_call: None,
        failing_read: None,
        stepped: false,
        group: false,
        dense: false,
        workers: None,
    };
    let (found, named) = look(
        rt,
        alloc,
        Renamed::new(disk, false),
        config_of(options, buffer),
    );
    (found, named.into_disk())
}
