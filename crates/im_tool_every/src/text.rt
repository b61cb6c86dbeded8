//! A script as text, and the counts as text.

ghost use Rattle.std.specs.Prelude.{◌≤◌, IfOk};

use crate::every::every_stop;
use crate::start::Start;
use crate::ways::Stops;
use im_base_types::Fault;
use im_engine::BufferSize;
use im_tool_lines::{Script, ScriptError, StoreLife, StoreScript, is_raw};
use std::alloc::{AllocError, Global};
use std::io;
use std::io::{Read, Write};
use std::thread::Threads;

/// Reads a script, stops its life everywhere, with a log's buffer of this size, and prints the counts: `stops A restarts B bad C`. It answers
/// the exit status: 0 where none is bad.
///
/// A script that has not one `life` alone, or has a `set` line or a stop, is answered `script not single`, and a bad line is named alone; the
/// status is 1 then. It writes to `progress` how far it is; where that cannot be written nobody reads it.
pub fn every_text<R: Read, W: Write, P: Write, T: Threads + Sync>(
    rt: &T,
    alloc: Global,
    buffer: BufferSize,
    reader: &mut R,
    writer: &mut W,
    progress: &mut P,
) -> io::Result<u8>
    ensures { IfOk result (λ status. status ≤ 1) }
{
    let mut text = Vec::new(alloc);
    reader.read_to_end(&mut text)?;
    match life_of(alloc, &text) {
        Ok(Some(mut life)) => {
            let start = Start::empty(alloc);
            let stops = Stops::EachCall;
            let counts = every_stop(rt, alloc, &start, &mut life, buffer, stops, progress)?;
            writeln!(
                writer,
                "stops {} restarts {} bad {}",
                counts.stops, counts.restarts, counts.bad
            )?;
            Ok(if counts.bad == 0 { 0 } else { 1 })
        }
        Ok(None) => write_not_single(writer),
        Err(error) => write_refused(writer, error),
    }
}

/// Says that a script has not the lives that are asked for, and answers the status.
pub(crate) fn write_not_single<W: Write>(writer: &mut W) -> io::Result<u8>
    ensures { IfOk result (λ status. status ≤ 1) }
{
    writeln!(writer, "script not single")?;
    Ok(1)
}

/// Says which line of a script is bad, and answers the status.
pub(crate) fn write_refused<W: Write>(writer: &mut W, error: ScriptError) -> io::Result<u8>
    ensures { IfOk result (λ status. status ≤ 1) }
{
    match error {
        ScriptError::BadLine(number) => {
            writeln!(
                writer,
                "refused {} line {number}",
                Fault::BadScript.number()
            )?;
            Ok(1)
        }
        ScriptError::Memory => Err(io::Error::from(AllocError)),
    }
}

// The life of a script that has one, with no `set` line and no stop.
fn life_of(alloc: Global, text: &[u8]) -> Result<Option<StoreLife>, ScriptError> {
    let Some(script) = store_script(alloc, text)? else {
        return Ok(None);
    };
    let StoreScript {
        log,
        pages,
        log2,
        mut lives,
    } = script;
    let Some(life) = lives.pop() else {
        return Ok(None);
    };
    if !log.is_empty()
        || !pages.is_empty()
        || !log2.is_empty()
        || !lives.is_empty()
        || life.stop.is_some()
    {
        return Ok(None);
    }
    Ok(Some(life))
}

/// A script of lives of a store; none, where it is one of lives over batches.
pub(crate) fn store_script(alloc: Global, text: &[u8]) -> Result<Option<StoreScript>, ScriptError> {
    if is_raw(text) {
        let _script = Script::parse(alloc, text)?;
        return Ok(None);
    }
    let script = StoreScript::parse(alloc, text)?;
    Ok(Some(script))
}
