//! What is told of the files of a store as they stand, and of the tree that an opening finds in them.

ghost use Rattle.std.specs.Prelude.{◌≤◌, IfOk};

use crate::telling::print_refused_opening;
use im_base_types::{Fault, FileId, PAGE_ROOM};
use im_tool_look::{
    BatchesBehind, Compared, Files, LogDamage, Survey, TreeSurvey, batches_behind, compare_pages,
    doubted_log, file_name, read_log,
};
use std::alloc::{AllocError, Global};
use std::io;
use std::io::Write;

/// What is broken of a store. Of a fault that is none of the store's it is told what kept it from being looked at.
#[derive(Drop)]
pub enum Broken {
    Log(LogDamage),
    // And a log that may be the newer one.
    Pages(Compared, Option<FileId>),
    Opening(Fault),
}

/// What is told of the files as they stand.
#[derive(Drop)]
pub struct Surveyed {
    said: Survey,
    // How long the file of the current log is, and that of the other one.
    file: u64,
    other: u64,
    behind: Option<BatchesBehind>,
    // This log may be the newer one.
    doubted: Option<FileId>,
    compared: Compared,
}

/// What the files say as they stand: the current log, and the pages beside it.
pub fn survey_files<F: Files>(alloc: Global, disk: &mut F) -> Result<Surveyed, Broken> {
    let said = read_log(alloc, disk).map_err(Broken::Log)?;
    let behind = batches_behind(alloc, disk, &said).map_err(Broken::Log)?;
    let file = disk.length(said.log.file).map_err(Broken::Opening)?;
    let other = disk.length(said.log.other_file()).map_err(Broken::Opening)?;
    let doubted = doubted_log(disk, &said.log).map_err(Broken::Opening)?;
    let compared = compare_pages(alloc, &said, disk).map_err(Broken::Opening)?;
    if !compared.damages.is_empty() {
        return Err(Broken::Pages(compared, doubted));
    }
    // Each record makes a page at most.
    let most = compared
        .pages
        .saturating_add(said.records)
        .saturating_add(2);
    if u64::from(said.greatest_page) > most {
        let name = file_name(said.log.file);
        return Err(Broken::Log(LogDamage::NoPage(name, said.greatest_page)));
    }
    Ok(Surveyed {
        said,
        file,
        other,
        behind,
        doubted,
        compared,
    })
}

/// Writes a line for each thing that is broken of the log and of the tree, or `ok`. It answers the exit status.
pub fn whole_text<W: Write>(
    writer: &mut W,
    surveyed: &Surveyed,
    tree: &TreeSurvey,
) -> io::Result<u8>
    ensures { IfOk result (λ status. status ≤ 1) }
{
    let is_cut = behind_text(writer, surveyed)?;
    doubt_text(writer, surveyed.doubted)?;
    for damage in &tree.damages {
        writeln!(writer, "{damage}")?;
    }
    if is_cut || !tree.damages.is_empty() {
        return Ok(1);
    }
    writeln!(writer, "ok")?;
    Ok(0)
}

// What stands after the log's end, and whether that is damage.
fn behind_text<W: Write>(writer: &mut W, surveyed: &Surveyed) -> io::Result<bool> {
    let Some(behind) = surveyed.behind else {
        return Ok(false);
    };
    write!(
        writer,
        "{}: {} whole batches behind the closed gate at {}",
        file_name(surveyed.said.log.file),
        behind.batches,
        surveyed.said.end
    )?;
    if behind.are_damage() {
        writeln!(writer)?;
        return Ok(true);
    }
    writeln!(writer, ", as a stop within a put leaves them")?;
    Ok(false)
}

// That a log may be the newer one.
fn doubt_text<W: Write>(writer: &mut W, doubted: Option<FileId>) -> io::Result<()> {
    let Some(log) = doubted else {
        return Ok(());
    };
    writeln!(
        writer,
        "{}: behind its first byte, which is not 1, stand a newer header and a record: that byte may be damaged",
        file_name(log)
    )
}

/// Writes what is broken. It answers the exit status.
pub fn broken_text<W: Write>(writer: &mut W, broken: &Broken) -> io::Result<u8>
    ensures { IfOk result (λ status. status ≤ 1) }
{
    match broken {
        Broken::Log(LogDamage::Unread(Fault::Memory)) | Broken::Opening(Fault::Memory) => {
            return Err(io::Error::from(AllocError));
        }
        Broken::Log(LogDamage::Unread(fault)) => print_refused_opening(writer, *fault)?,
        Broken::Opening(Fault::Device) => print_refused_opening(writer, Fault::Device)?,
        Broken::Log(damage) => writeln!(writer, "{damage}")?,
        Broken::Pages(compared, doubted) => {
            doubt_text(writer, *doubted)?;
            for damage in &compared.damages {
                writeln!(writer, "{damage}")?;
            }
            if compared.more > 0 {
                writeln!(writer, "pages: {} more are not of this log", compared.more)?;
            }
        }
        Broken::Opening(fault) => {
            writeln!(writer, "opening: refused {}: {fault}", fault.number())?;
        }
    }
    Ok(1)
}

/// Writes what a store has, each number with its name: a line for each, or all as an object of JSON. It answers the exit status.
pub fn numbers_text<W: Write>(
    writer: &mut W,
    surveyed: &Surveyed,
    tree: &TreeSurvey,
    is_json: bool,
) -> io::Result<u8>
    ensures { IfOk result (λ status. status ≤ 1) }
{
    let file = file_name(surveyed.said.log.file);
    if is_json {
        writer.write_all(b"{\"log_file\":\"")?;
        write!(writer, "{file}\"")?;
    }
    tree_text(writer, is_json, tree)?;
    logs_text(writer, is_json, surveyed)?;
    survey_text(writer, is_json, &surveyed.said)?;
    compared_text(writer, is_json, &surveyed.compared)?;
    if is_json {
        writer.write_all(b"}\n")?;
    } else {
        writeln!(writer, "log_file {file}")?;
    }
    Ok(0)
}

// Writes numbers, each with its name.
fn named_text<W: Write>(writer: &mut W, is_json: bool, numbers: &[(&str, u64)]) -> io::Result<()> {
    for (name, number) in numbers {
        if is_json {
            write!(writer, ",\"{name}\":{number}")?;
        } else {
            writeln!(writer, "{name} {number}")?;
        }
    }
    Ok(())
}

fn tree_text<W: Write>(writer: &mut W, is_json: bool, tree: &TreeSurvey) -> io::Result<()> {
    let numbers = [
        ("entries", tree.entries),
        ("height", tree.height),
        ("leaves", tree.leaves),
        ("leaf_fill_percent", fill(tree.leaf_bytes, tree.leaves)),
        ("empty_leaves", tree.empty_leaves),
        ("inner_pages", tree.inner),
        ("inner_fill_percent", fill(tree.inner_bytes, tree.inner)),
        ("free_pages", tree.free),
    ];
    named_text(writer, is_json, &numbers)
}

// Which log is the current one, and how much of the files there is.
fn logs_text<W: Write>(writer: &mut W, is_json: bool, surveyed: &Surveyed) -> io::Result<()> {
    let log = &surveyed.said.log;
    let numbers = [
        ("log_generation", log.header().generation),
        ("log_base", log.header().base),
        ("log_bytes", surveyed.said.end),
        ("log_file_bytes", surveyed.file),
        ("other_log_generation", log.other_header().generation),
        ("other_log_file_bytes", surveyed.other),
    ];
    named_text(writer, is_json, &numbers)
}

fn survey_text<W: Write>(writer: &mut W, is_json: bool, said: &Survey) -> io::Result<()> {
    let losers = said.analysed.losers.len() as u64;
    let numbers = [
        ("log_batches", said.batches),
        ("log_records", said.records),
        ("commits", said.commits),
        ("redo_point", said.analysed.redo_point),
        ("transactions_to_undo", losers),
        ("next_transaction", said.analysed.next),
    ];
    named_text(writer, is_json, &numbers)
}

fn compared_text<W: Write>(writer: &mut W, is_json: bool, compared: &Compared) -> io::Result<()> {
    let numbers = [
        ("pages", compared.pages),
        ("pages_compared", compared.with_synced),
        ("pages_restored", compared.copied),
    ];
    named_text(writer, is_json, &numbers)
}

// How full so many pages are, in a hundred.
fn fill(bytes: u64, pages: u64) -> u64 {
    let room = pages.saturating_mul(PAGE_ROOM as u64).max(1);
    bytes.saturating_mul(100) / room
}
