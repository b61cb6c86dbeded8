//! The records of a log as text.

use crate::current::{CurrentLog, current_log, file_name};
use crate::files::Files;
use crate::key_notation::write_key;
use crate::log_bytes::{LogPiece, first_record, next_gate, place_in};
use crate::log_damage::LogDamage;
use im_base_types::Lsn;
use im_log_record::{Kind, Record, decode_front};
use std::alloc::Global;
use std::io;
use std::io::Write;

/// Writes a line for each record of the current log: its LSN, kind, transaction, prev, undo_next and page, and of a key record the key and its row
/// id. Answers the damage that it ended at, if any.
pub fn log_text<F: Files, W: Write>(
    alloc: Global,
    writer: &mut W,
    files: &mut F,
) -> io::Result<Result<(), LogDamage>> {
    let log = match current_log(alloc, files) {
        Ok(log) => log,
        Err(damage) => return Ok(Err(damage)),
    };
    let Some(mut gate) = log.first_gate() else {
        return Ok(Ok(()));
    };
    let mut piece = LogPiece::new(alloc, log.file);
    for _count in 0..u64::MAX {
        let size = match piece.open_batch(files, gate) {
            Ok(Some(size)) => size,
            Ok(None) => return Ok(Ok(())),
            Err(damage) => return Ok(Err(damage)),
        };
        let records = piece.records(gate, size);
        if let Err(damage) = batch_text(alloc, writer, log, first_record(gate), records)? {
            return Ok(Err(damage));
        }
        gate = next_gate(gate, size);
    }
    Ok(Ok(()))
}

fn batch_text<W: Write>(
    alloc: Global,
    writer: &mut W,
    log: CurrentLog,
    place: u64,
    records: &[u8],
) -> io::Result<Result<(), LogDamage>> {
    let mut left = records;
    for _count in 0..records.len() {
        if left.is_empty() {
            break;
        }
        let at = place_in(place, records, left);
        let Ok((record, rest)) = decode_front(left) else {
            return Ok(Err(LogDamage::NoRecord(file_name(log.file), at)));
        };
        record_text(alloc, writer, log.lsn(at), &record)?;
        left = rest;
    }
    Ok(Ok(()))
}

fn record_text<W: Write>(
    alloc: Global,
    writer: &mut W,
    lsn: Lsn,
    record: &Record,
) -> io::Result<()> {
    let kind = kind_word(record.kind());
    let (transaction, prev) = (record.transaction(), record.prev());
    let (undo_next, page) = (record.undo_next(), record.page());
    write!(
        writer,
        "{lsn} {kind} {transaction} {prev} {undo_next} {page}"
    )?;
    match record {
        Record::InsertKey { key, rid, .. }
        | Record::DeleteKey { key, rid, .. }
        | Record::UndoInsert { key, rid, .. }
        | Record::UndoDelete { key, rid, .. } => {
            write!(writer, " ")?;
            write_key(alloc, writer, key)?;
            write!(writer, " {rid}")?;
        }
        _ => {}
    }
    writeln!(writer)
}

fn kind_word(kind: Kind) -> &'static str {
    match kind {
        Kind::InsertKey => "InsertKey",
        Kind::DeleteKey => "DeleteKey",
        Kind::UndoInsert => "UndoInsert",
        Kind::UndoDelete => "UndoDelete",
        Kind::Smo => "Smo",
        Kind::UndoSmo => "UndoSmo",
        Kind::DummyClr => "DummyClr",
        Kind::Commit => "Commit",
        Kind::End => "End",
        Kind::Image => "Image",
        Kind::Checkpoint => "Checkpoint",
    }
}
