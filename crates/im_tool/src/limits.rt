//! The limits of the engine, as the words of the command line name them.

use im_base_types::MOST_FRAMES;
use im_engine::{BufferSize, Config, MoreFrames};
use im_store::{Bounds, LogBound, RedoBound};
use im_tool_user::{MOST_MIB, Options};

const MIB: u64 = 1_048_576;

/// The limits of the engine: 1,024 frames for a folder and 64 in memory, a million pages, and one worker of redo, where the words say nothing
/// else. The log of a store in a folder has the buffer that suits files, its pool the more frames the more pages its file has, and its splits are dense.
pub(crate) fn config_of(options: &Options, pages: u64) -> Config {
    let mut config = Config::default();
    if let Some(workers) = options.workers {
        config.workers = workers as usize;
    }
    if options.dir.is_some() {
        config.frames = MOST_FRAMES;
        config.buffer = BufferSize::OVER_FILES;
        config.dense = true;
    }
    if let Some(frames) = options.frames {
        config.frames = frames as usize;
    }
    config.more = more_frames(options, pages);
    if let Some(pages) = options.pages {
        config.max_pages = u32::try_from(pages).unwrap_or(u32::MAX);
    }
    config
}

// How many frames more there are: as many MiB of them as the words say. Where they say neither this nor how many frames there are, as many as suit the
// file of pages of a folder: who names frames alone has no more than these.
fn more_frames(options: &Options, pages: u64) -> MoreFrames {
    match options.cache {
        Some(mib) => MoreFrames::of_mib(mib),
        None if options.dir.is_some() && options.frames.is_none() => MoreFrames::over_pages(pages),
        None => MoreFrames::NONE,
    }
}

/// What an opening may cost.
pub(crate) fn bounds_of(options: &Options) -> Bounds {
    Bounds {
        redo: redo_bound(options),
        log: log_bound(options),
    }
}

// How much log an opening may have to redo: as many MiB as the words say. Where they say nothing, 16 MiB for a folder, or seven times as much as the
// file of pages has, whichever is more. A store in memory is never opened again, and takes no Checkpoint then.
fn redo_bound(options: &Options) -> RedoBound {
    match options.checkpoint {
        Some(mib) => RedoBound::of_bytes(mib.min(MOST_MIB) * MIB),
        None if options.dir.is_some() => RedoBound::default(),
        None => RedoBound::of_bytes(0),
    }
}

// How long the log may get that an opening reads: as many MiB as the words say. Where they say nothing, 64 MiB for a folder, or eight times as much as the
// file of pages has, whichever is more. A store in memory is never opened again.
fn log_bound(options: &Options) -> LogBound {
    match options.switch {
        Some(mib) => LogBound::of_bytes(mib.min(MOST_MIB) * MIB),
        None if options.dir.is_some() => LogBound::default(),
        None => LogBound::of_bytes(0),
    }
}
