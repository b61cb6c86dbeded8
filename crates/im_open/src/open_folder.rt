//! How the store of a folder is opened.

ghost use Rattle.std.specs.Prelude.{◌≡◌, ◌+◌, [], false, None, Err, IfOk, IfErr};
ghost use Rattle.im_base_disk.specs.Runs.{IsSynced};
ghost use Rattle.im_front.specs.Held.{IsResting};
ghost use Rattle.im_open.specs.Folders.{IsOf};
ghost use Rattle.im_open.specs.Opened.{AreUsual, IsKeptHere, IsOpenedHere};
ghost use Rattle.im_open.specs.Refusals.{IsOpenRefusal, IsRefusalKept};

use crate::folder::Folder;
use crate::not_opened::NotOpened;
use im_base_disk::Disk;
use im_base_mirror_disk::Mirrored;
use im_base_two_logs::Renamed;
use im_engine::{Config, Engine};
use im_files_disk::FileDisk;
use im_front::Rested;
use im_store::{Bounds, LogBound, OpenStore, RedoBound};
use im_theory_store_trait::Store;
use std::thread::Threads;

/// The files of a store in a folder, and those of a copy of it, by their names.
pub type FilesOf<F> = Mirrored<Renamed<F>, Renamed<F>>;

/// Those of a folder of the system.
pub type Files = FilesOf<FileDisk>;

/// Opens the store in a folder, or makes one where there is none, with its upkeep: for one thread. No transaction is active in it and nothing is locked, and
/// it keeps the folder until it ends. Threads are started by `threads` alone. Refused as `FileDisk::open` and `OpenStore::open` are.
pub fn open_store<R: Threads + Sync>(
    rt: &HostRuntime,
    threads: &R,
    folder: &str,
    config: Config,
    bounds: Bounds,
) -> Result<OpenStore<Files>, NotOpened>
    ensures opened { IfOk result (λ s. IsOpenedHere ⟦<Files as Disk>⟧ (IsOf ⟦<FileDisk as Folder>⟧.opens folder.now) config bounds s) }
    ensures works { IfOk result (λ s. (s.engine.failed ≡ false) × (s.engine.txns.rows ≡ [])) }
    ensures limits { IfOk result (λ s. (s.engine.max_pages ≡ config.max_pages) × (s.engine.writer.pool.frames ≡ config.frames + config.more.frames) × (s.engine.txns.group ≡ config.group) × (s.engine.dense ≡ config.dense)) }
    ensures bounds { IfOk result (λ s. s.upkeep.bounds ≡ bounds) }
    ensures causes { IfErr result (λ e. IsOpenRefusal ⟦<Files as Disk>⟧ (IsOf ⟦<FileDisk as Folder>⟧.opens folder.now) (λ error. ⟦<FileDisk as Folder>⟧.opens folder.now (Err error)) config bounds e) }
{
    store_in(rt, threads, folder, config, bounds)
}

/// The same of any folder.
pub fn store_in<F: Folder, R: Threads + Sync>(
    rt: &HostRuntime,
    threads: &R,
    folder: &str,
    config: Config,
    bounds: Bounds,
) -> Result<OpenStore<FilesOf<F>>, NotOpened>
    ensures opened { IfOk result (λ s. IsOpenedHere ⟦<FilesOf<F> as Disk>⟧ (IsOf F.opens folder.now) config bounds s) }
    ensures works { IfOk result (λ s. (s.engine.failed ≡ false) × (s.engine.txns.rows ≡ [])) }
    ensures limits { IfOk result (λ s. (s.engine.max_pages ≡ config.max_pages) × (s.engine.writer.pool.frames ≡ config.frames + config.more.frames) × (s.engine.txns.group ≡ config.group) × (s.engine.dense ≡ config.dense)) }
    ensures bounds { IfOk result (λ s. s.upkeep.bounds ≡ bounds) }
    ensures causes { IfErr result (λ e. IsOpenRefusal ⟦<FilesOf<F> as Disk>⟧ (IsOf F.opens folder.now) (λ error. F.opens folder.now (Err error)) config bounds e) }
{
    let disk = match F::open_in(rt, folder) {
        Ok(disk) => disk,
        Err(error) => return Err(NotOpened::Files(error)),
    };
    match OpenStore::open(threads, rt.alloc(), files_over(disk), config, bounds) {
        Ok(store) => Ok(store),
        Err((fault, _disk)) => Err(NotOpened::Store(fault)),
    }
}

// The files of a folder, by their own names, of which no copy is under way.
fn files_over<F: Folder>(disk: F) -> FilesOf<F>
    requires working { F.failed disk ≡ false }
    requires synced { IsSynced F.Disk disk }
    ensures disk { result.disk.disk ≡ disk }
    ensures own { result.disk.swapped ≡ false }
    ensures alone { result.copy ≡ None }
    ensures working { ⟦<FilesOf<F> as Disk>⟧.failed result ≡ false }
    ensures synced { IsSynced ⟦<FilesOf<F> as Disk>⟧ result }
{
    Mirrored::new(Renamed::new(disk, false))
}

/// The same for threads that share the engine by a front: it is at rest, and what was due is made with the usual bounds, so that a log of the first format is
/// replaced. Refused so too, and where that is refused.
pub fn open<R: Threads + Sync>(
    rt: &HostRuntime,
    threads: &R,
    folder: &str,
    config: Config,
) -> Result<Rested<Engine<Files>>, NotOpened>
    ensures group { IfOk result (λ e. e.txns.group ≡ config.group) }
    ensures frames { IfOk result (λ e. e.writer.pool.frames ≡ config.frames + config.more.frames) }
    ensures limit { IfOk result (λ e. e.max_pages ≡ config.max_pages) }
    ensures dense { IfOk result (λ e. e.dense ≡ config.dense) }
    ensures works { IfOk result (λ e. (e.failed ≡ false) × (e.txns.rows ≡ [])) }
    ensures kept { IfOk result (λ e. IsKeptHere ⟦<Files as Disk>⟧ (IsOf ⟦<FileDisk as Folder>⟧.opens folder.now) config e) }
    ensures causes { IfErr result (λ e. IsRefusalKept ⟦<Files as Disk>⟧ (IsOf ⟦<FileDisk as Folder>⟧.opens folder.now) (λ error. ⟦<FileDisk as Folder>⟧.opens folder.now (Err error)) config e) }
{
    match opened(rt, threads, folder, config) {
        Ok(engine) => Ok(Rested::new(engine)),
        Err(error) => Err(error),
    }
}

// The same, before it is said to be at rest.
fn opened<R: Threads + Sync>(
    rt: &HostRuntime,
    threads: &R,
    folder: &str,
    config: Config,
) -> Result<Engine<Files>, NotOpened>
    ensures rests { IfOk result (λ engine. IsResting ⟦<Engine<Files> as Store>⟧ engine) }
    ensures group { IfOk result (λ e. e.txns.group ≡ config.group) }
    ensures frames { IfOk result (λ e. e.writer.pool.frames ≡ config.frames + config.more.frames) }
    ensures limit { IfOk result (λ e. e.max_pages ≡ config.max_pages) }
    ensures dense { IfOk result (λ e. e.dense ≡ config.dense) }
    ensures works { IfOk result (λ e. (e.failed ≡ false) × (e.txns.rows ≡ [])) }
    ensures kept { IfOk result (λ e. IsKeptHere ⟦<Files as Disk>⟧ (IsOf ⟦<FileDisk as Folder>⟧.opens folder.now) config e) }
    ensures causes { IfErr result (λ e. IsRefusalKept ⟦<Files as Disk>⟧ (IsOf ⟦<FileDisk as Folder>⟧.opens folder.now) (λ error. ⟦<FileDisk as Folder>⟧.opens folder.now (Err error)) config e) }
{
    kept_in(rt, threads, folder, config)
}

/// The engine of any folder's store, of which what was due is made with the usual bounds. Refused as `open` is.
pub fn kept_in<F: Folder, R: Threads + Sync>(
    rt: &HostRuntime,
    threads: &R,
    folder: &str,
    config: Config,
) -> Result<Engine<FilesOf<F>>, NotOpened>
    ensures group { IfOk result (λ e. e.txns.group ≡ config.group) }
    ensures frames { IfOk result (λ e. e.writer.pool.frames ≡ config.frames + config.more.frames) }
    ensures limit { IfOk result (λ e. e.max_pages ≡ config.max_pages) }
    ensures dense { IfOk result (λ e. e.dense ≡ config.dense) }
    ensures works { IfOk result (λ e. (e.failed ≡ false) × (e.txns.rows ≡ [])) }
    ensures kept { IfOk result (λ e. IsKeptHere ⟦<FilesOf<F> as Disk>⟧ (IsOf F.opens folder.now) config e) }
    ensures causes { IfErr result (λ e. IsRefusalKept ⟦<FilesOf<F> as Disk>⟧ (IsOf F.opens folder.now) (λ error. F.opens folder.now (Err error)) config e) }
{
    let mut store = match store_in(rt, threads, folder, config, usual()) {
        Ok(store) => store,
        Err(error) => return Err(error),
    };
    store.keep();
    match store.unkept() {
        Some(unkept) => {
            let_go(store);
            Err(NotOpened::Upkeep(unkept.fault))
        }
        None => Ok(store.into_engine()),
    }
}

// Lets a store go, as a stop would leave it.
fn let_go<F: Folder>(_store: OpenStore<FilesOf<F>>) {}

// The bounds that nobody names.
fn usual() -> Bounds
    ensures { AreUsual result }
{
    Bounds {
        redo: RedoBound::default(),
        log: LogBound::default(),
    }
}
