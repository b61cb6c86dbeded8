//! Scripts as text, and their answers as text.

ghost use Rattle.std.specs.Prelude.{◌≤◌, IfOk};

use crate::store_text::{print_opening, print_store};
use im_base_types::Fault;
use im_engine::BufferSize;
use im_tool_drill::drill_store;
use im_tool_lines::{
    Drilled, LifeAnswers, RawReply, Script, ScriptError, StoreScript, drill, is_raw,
};
use std::alloc::{AllocError, Global};
use std::io;
use std::io::{Read, Write};
use std::thread::Threads;

/// Reads a script, runs it, its stores with a log's buffer of this size, and prints what its lives answer. It answers the exit status: 0,
/// or 1 where a line of the script is bad, of which it then prints the number alone.
pub fn drill_text<R: Read, W: Write, T: Threads + Sync>(
    rt: &T,
    alloc: Global,
    buffer: BufferSize,
    reader: &mut R,
    writer: &mut W,
) -> io::Result<u8>
    ensures { IfOk result (λ status. status ≤ 1) }
{
    let mut text = Vec::new(alloc);
    reader.read_to_end(&mut text)?;
    let run = if is_raw(&text) {
        run_raw(alloc, writer, &text)?
    } else {
        run_store(rt, alloc, buffer, writer, &text)?
    };
    match run {
        Ok(()) => Ok(0),
        Err(ScriptError::BadLine(number)) => {
            writeln!(
                writer,
                "refused {} line {number}",
                Fault::BadScript.number()
            )?;
            Ok(1)
        }
        Err(ScriptError::Memory) => Err(io::Error::from(AllocError)),
    }
}

// A script of lives over the gate alone.
fn run_raw<W: Write>(
    alloc: Global,
    writer: &mut W,
    text: &[u8],
) -> io::Result<Result<(), ScriptError>> {
    match Script::parse(alloc, text) {
        Ok(script) => {
            print_answers(alloc, writer, &drill(alloc, &script)?)?;
            Ok(Ok(()))
        }
        Err(error) => Ok(Err(error)),
    }
}

// A script of lives of a store.
fn run_store<W: Write, T: Threads + Sync>(
    rt: &T,
    alloc: Global,
    buffer: BufferSize,
    writer: &mut W,
    text: &[u8],
) -> io::Result<Result<(), ScriptError>> {
    match StoreScript::parse(alloc, text) {
        Ok(script) => {
            print_store(writer, &drill_store(rt, alloc, &script, buffer)?)?;
            Ok(Ok(()))
        }
        Err(error) => Ok(Err(error)),
    }
}

fn print_answers<W: Write>(alloc: Global, writer: &mut W, drilled: &Drilled) -> io::Result<()> {
    for life in &drilled.lives {
        print_life(writer, life)?;
    }
    match &drilled.last {
        Ok(batches) => print_batches(alloc, writer, batches),
        Err(fault) => writeln!(writer, "final refused {}", fault.number()),
    }
}

fn print_life<W: Write>(writer: &mut W, life: &LifeAnswers) -> io::Result<()> {
    print_opening(writer, life.opening)?;
    for reply in &life.replies {
        match *reply {
            RawReply::Put => writeln!(writer, "put ok")?,
            RawReply::Calls(calls) => writeln!(writer, "calls {calls}")?,
            RawReply::Refused(fault) => writeln!(writer, "refused {}", fault.number())?,
            RawReply::Stopped => writeln!(writer, "stopped")?,
        }
    }
    Ok(())
}

fn print_batches<W: Write>(alloc: Global, writer: &mut W, batches: &[Vec<u8>]) -> io::Result<()> {
    writeln!(writer, "final {}", batches.len())?;
    for batch in batches {
        let digits = hex::encode(alloc, batch.as_slice())?;
        writeln!(writer, "{digits}")?;
    }
    Ok(())
}
