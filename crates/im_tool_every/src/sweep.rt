//! The last life of a script, swept in one setting or in each, as text.

ghost use Rattle.std.specs.Prelude.{◌≤◌, IfOk};

use crate::every::{Counts, every_stop};
use crate::failing::every_failure;
use crate::settings::{SETTINGS, Setting, setting_of, write_setting};
use crate::start::Start;
use crate::text::{store_script, write_not_single, write_refused};
use crate::ways::Stops;
use im_base_model_disk::ModelDisk;
use im_base_types::Fault;
use im_engine::BufferSize;
use im_tool_lines::{LifeOptions, ScriptError, StoreLife, StoreScript};
use std::alloc::{AllocError, Global};
use std::io;
use std::io::{Read, Write};
use std::thread::Threads;

/// What is done to a life.
#[derive(Clone, Copy, Debug, PartialEq, Eq)]
pub struct Sweep {
    /// Each of its calls fails in turn, in place of being stopped.
    pub fails: bool,
    /// It is done in each setting that the life's words leave open, in place of the one that they and the defaults have.
    pub in_settings: bool,
    /// The log's buffer; none where it is one of the settings, or of one batch.
    pub buffer: Option<BufferSize>,
}

/// Reads a script, makes its lives but the last as they stand, sweeps the last one, and prints the counts of each setting: `stops A restarts B bad
/// C`, or `failures A restarts B bad C`; with settings, after their words. It answers the exit status: 0 where none is bad.
///
/// A script whose last life has a stop, or that has no life of a store, is answered `script not single`, and a bad line is named alone; where the
/// files that are set, or those that a life before the last leaves, cannot be opened, `open refused N` says so, and `lives before bad N` that so
/// many openings before the last life were bad. The status is 1 then. It writes to `progress` how far it is; where that cannot be written nobody
/// reads it.
pub fn sweep_text<R: Read, W: Write, P: Write, T: Threads + Sync>(
    rt: &T,
    alloc: Global,
    sweep: Sweep,
    reader: &mut R,
    writer: &mut W,
    progress: &mut P,
) -> io::Result<u8>
    ensures { IfOk result (λ status. status ≤ 1) }
{
    let mut text = Vec::new(alloc);
    reader.read_to_end(&mut text)?;
    match lives_of(alloc, &text) {
        Ok(Some((disk, lives, mut last))) => {
            let good = sweep_lives(rt, alloc, sweep, disk, &lives, &mut last, writer, progress)?;
            Ok(if good { 0 } else { 1 })
        }
        Ok(None) => write_not_single(writer),
        Err(error) => write_refused(writer, error),
    }
}

// The disk with which a script begins, its lives but the last, and the last, which has no stop.
fn lives_of(
    alloc: Global,
    text: &[u8],
) -> Result<Option<(ModelDisk, Vec<StoreLife>, StoreLife)>, ScriptError> {
    let Some(script) = store_script(alloc, text)? else {
        return Ok(None);
    };
    let StoreScript {
        log,
        pages,
        log2,
        mut lives,
    } = script;
    let Some(last) = lives.pop() else {
        return Ok(None);
    };
    if last.stop.is_some() {
        return Ok(None);
    }
    Ok(Some((ModelDisk::with_log2(log, pages, log2), lives, last)))
}

// Whether nothing is bad.
fn sweep_lives<W: Write, P: Write, T: Threads + Sync>(
    rt: &T,
    alloc: Global,
    sweep: Sweep,
    disk: ModelDisk,
    lives: &[StoreLife],
    last: &mut StoreLife,
    writer: &mut W,
    progress: &mut P,
) -> io::Result<bool> {
    let buffer = sweep.buffer.unwrap_or(BufferSize::ONE);
    let mut before = Counts::default();
    match start_of(rt, alloc, disk, lives, buffer, &mut before)? {
        Ok(start) => {
            if before.bad != 0 {
                writeln!(writer, "lives before bad {}", before.bad)?;
            }
            let good = sweep_each(rt, alloc, sweep, &start, last, writer, progress)?;
            Ok(good && before.bad == 0)
        }
        Err(fault) => {
            writeln!(writer, "open refused {}", fault.number())?;
            Ok(false)
        }
    }
}

// What the last life begins with.
fn start_of<T: Threads + Sync>(
    rt: &T,
    alloc: Global,
    disk: ModelDisk,
    lives: &[StoreLife],
    buffer: BufferSize,
    counts: &mut Counts,
) -> Result<Result<Start, Fault>, AllocError> {
    let mut start = match Start::of(rt, alloc, disk, buffer)? {
        Ok(start) => start,
        Err(fault) => return Ok(Err(fault)),
    };
    for life in lives {
        start = match start.after(rt, alloc, life, buffer, counts)? {
            Ok(next) => next,
            Err(fault) => return Ok(Err(fault)),
        };
    }
    Ok(Ok(start))
}

// Sweeps a life in each setting.
fn sweep_each<W: Write, P: Write, T: Threads + Sync>(
    rt: &T,
    alloc: Global,
    sweep: Sweep,
    start: &Start,
    life: &mut StoreLife,
    writer: &mut W,
    progress: &mut P,
) -> io::Result<bool> {
    let named = life.options;
    let mut good = true;
    for number in 0..SETTINGS {
        if let Some(setting) = setting_in(sweep, number, named) {
            life.options = setting.options;
            let counts = sweep_one(rt, alloc, sweep, start, life, setting.buffer, progress)?;
            if sweep.in_settings {
                write_setting(writer, setting)?;
            }
            write_counts(writer, sweep.fails, counts)?;
            good = good && counts.bad == 0;
        }
    }
    Ok(good)
}

fn setting_in(sweep: Sweep, number: u64, options: LifeOptions) -> Option<Setting> {
    if sweep.in_settings {
        return setting_of(number, options, sweep.buffer);
    }
    if number != 0 {
        return None;
    }
    Some(Setting {
        options,
        buffer: sweep.buffer.unwrap_or(BufferSize::ONE),
    })
}

fn sweep_one<P: Write, T: Threads + Sync>(
    rt: &T,
    alloc: Global,
    sweep: Sweep,
    start: &Start,
    life: &mut StoreLife,
    buffer: BufferSize,
    progress: &mut P,
) -> Result<Counts, AllocError> {
    if sweep.fails {
        every_failure(rt, alloc, start, life, buffer)
    } else {
        every_stop(rt, alloc, start, life, buffer, Stops::Everywhere, progress)
    }
}

fn write_counts<W: Write>(writer: &mut W, fails: bool, counts: Counts) -> io::Result<()> {
    let word = if fails { "failures" } else { "stops" };
    writeln!(
        writer,
        "{word} {} restarts {} bad {}",
        counts.stops, counts.restarts, counts.bad
    )
}
