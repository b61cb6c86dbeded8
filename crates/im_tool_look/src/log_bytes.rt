//! The bytes of a log, as its batches and records.

use crate::current::{CurrentLog, current_log, file_name};
use crate::files::{Files, Piece};
use crate::log_damage::LogDamage;
use im_base_types::{Fault, FileId, LONGEST_BATCH, Lsn, PageNo, TxnId};
use im_log_record::{Record, decode_front};
use im_restart_analysis::{Analysed, Analysis, Changes, LastChanges};
use std::alloc::Global;

/// What stands in front of a batch's records: its gate and its length.
const AHEAD: usize = 5;

/// What stands after them: the next gate.
const NEXT_GATE: usize = 1;

/// The most bytes that one put has, of batches with what stands in front of them: those of a buffer for 64.
const MOST_PUT: u64 = 64 * (LONGEST_BATCH as u64 + AHEAD as u64);

/// What the current log says, read once.
#[derive(Drop)]
pub struct Survey {
    pub log: CurrentLog,
    /// The place of the closed gate that ends it; 0 where it is not made.
    pub end: u64,
    pub batches: u64,
    pub records: u64,
    pub commits: u64,
    /// The greatest page that a record names.
    pub greatest_page: PageNo,
    /// The last change of each page below the redo point.
    pub last: LastChanges,
    /// The last change of each page in the log that was left for this one: the file of pages was synced with each. None where that log is not there whole.
    pub before: Option<LastChanges>,
    pub analysed: Analysed,
}

impl Survey {
    /// The LSN that a page has at least in the file, unless it has a copy in the log; and the page count that page 0 has with it, where that is known.
    pub(crate) fn synced(&self, page: PageNo) -> Option<(Lsn, Option<PageNo>)> {
        if let Some(lsn) = self.last.lsns.get(&page) {
            return Some((*lsn, self.last.count));
        }
        match &self.before {
            Some(before) => match before.lsns.get(&page) {
                Some(lsn) => Some((*lsn, before.count)),
                None => None,
            },
            None => None,
        }
    }

    /// The LSN of that gate: each record has a lower one.
    pub fn end_lsn(&self) -> Lsn {
        self.log.lsn(self.end)
    }
}

/// A log of a store, a piece at a time.
#[derive(Drop)]
pub(crate) struct LogPiece {
    name: &'static str,
    piece: Piece,
}

impl LogPiece {
    /// Nothing was read.
    pub(crate) fn new(alloc: Global, file: FileId) -> LogPiece {
        LogPiece {
            name: file_name(file),
            piece: Piece::new(alloc, file),
        }
    }

    fn hold<F: Files>(&mut self, files: &mut F, place: u64, size: usize) -> Result<(), LogDamage> {
        self.piece
            .hold(files, place, size)
            .map_err(LogDamage::Unread)
    }

    /// Whether the gate at a place is open.
    fn is_open<F: Files>(&mut self, files: &mut F, gate: Lsn) -> Result<bool, LogDamage> {
        self.hold(files, gate, 1)?;
        Ok(self.piece.held(gate, 1).first().copied() == Some(1))
    }

    /// How long the records of the whole batch after the gate at a place are, whether that gate is open or not. None where they do not stand there, with the
    /// next gate after them.
    fn batch_at<F: Files>(&mut self, files: &mut F, gate: Lsn) -> Result<Option<usize>, LogDamage> {
        self.hold(files, gate, AHEAD)?;
        let [_, a, b, c, d] = self.piece.held(gate, AHEAD) else {
            return Ok(None);
        };
        let size = u32::from_be_bytes([*a, *b, *c, *d]) as usize;
        if size == 0 || size > LONGEST_BATCH {
            return Ok(None);
        }
        let whole = AHEAD + size + NEXT_GATE;
        self.hold(files, gate, whole)?;
        if self.piece.held(gate, whole).len() < whole {
            return Ok(None);
        }
        Ok(Some(size))
    }

    /// How long the records of the batch after the gate at a place are, where that gate is open; none at the closed gate.
    pub(crate) fn open_batch<F: Files>(
        &mut self,
        files: &mut F,
        gate: Lsn,
    ) -> Result<Option<usize>, LogDamage> {
        if !self.is_open(files, gate)? {
            return Ok(None);
        }
        match self.batch_at(files, gate)? {
            Some(size) => Ok(Some(size)),
            None => Err(LogDamage::BrokenBatch(self.name, gate)),
        }
    }

    // The same where its bytes are records, whatever its gate says, with the greatest number of a transaction that they have.
    fn whole_batch<F: Files>(
        &mut self,
        files: &mut F,
        gate: Lsn,
    ) -> Result<Option<(usize, TxnId)>, LogDamage> {
        let Some(size) = self.batch_at(files, gate)? else {
            return Ok(None);
        };
        match greatest_transaction(self.records(gate, size)) {
            Some(transaction) => Ok(Some((size, transaction))),
            None => Ok(None),
        }
    }

    /// The records of the batch after the gate at a place that was found last.
    pub(crate) fn records(&self, gate: Lsn, size: usize) -> &[u8] {
        self.piece.held(first_record(gate), size)
    }
}

/// The place of a batch's first record.
pub(crate) fn first_record(gate: Lsn) -> Lsn {
    gate.saturating_add(AHEAD as u64)
}

/// The place of the gate after a batch whose records are so long.
pub(crate) fn next_gate(gate: Lsn, size: usize) -> Lsn {
    first_record(gate).saturating_add(size as u64)
}

/// Reads the current log to its closed gate, and the one that was left for it.
pub fn read_log<F: Files>(alloc: Global, files: &mut F) -> Result<Survey, LogDamage> {
    let log = current_log(alloc, files)?;
    let before = changes_before(alloc, files, &log)?;
    let (said, end) = read_records(alloc, files, log)?;
    said.finish(end, before)
}

// What the records of a log say, and the place of its closed gate.
fn read_records<F: Files>(
    alloc: Global,
    files: &mut F,
    log: CurrentLog,
) -> Result<(Said, u64), LogDamage> {
    let mut piece = LogPiece::new(alloc, log.file);
    let mut said = Said::new(alloc, log);
    let mut gate = 0;
    if let Some(first) = log.first_gate() {
        gate = first;
        for _count in 0..u64::MAX {
            let Some(size) = piece.open_batch(files, gate)? else {
                break;
            };
            said.take_batch(first_record(gate), piece.records(gate, size))?;
            gate = next_gate(gate, size);
        }
    }
    Ok((said, gate))
}

// The last change of each page in the log that was left for this one.
fn changes_before<F: Files>(
    alloc: Global,
    files: &mut F,
    log: &CurrentLog,
) -> Result<Option<LastChanges>, LogDamage> {
    let Some(before) = log.log_before() else {
        return Ok(None);
    };
    match read_records(alloc, files, before) {
        Ok((said, end)) if before.lsn(end) == log.header().base => said.all_changes(),
        Ok(_) => Ok(None),
        Err(LogDamage::Unread(fault)) => Err(LogDamage::Unread(fault)),
        Err(_) => Ok(None),
    }
}

// What the records so far said.
#[derive(Drop)]
struct Said {
    log: CurrentLog,
    analysis: Analysis,
    changes: Changes,
    counts: Counts,
}

#[derive(Default, Drop)]
struct Counts {
    batches: u64,
    records: u64,
    commits: u64,
    greatest_page: PageNo,
}

impl Said {
    fn new(alloc: Global, log: CurrentLog) -> Said {
        Said {
            log,
            analysis: Analysis::new(alloc, log.header().next, log.pages()),
            changes: Changes::new(alloc),
            counts: Counts::default(),
        }
    }

    // Takes the records of a batch, the first of which stands at this place.
    fn take_batch(&mut self, place: u64, records: &[u8]) -> Result<(), LogDamage> {
        self.counts.batches = self.counts.batches.saturating_add(1);
        let mut left = records;
        for _count in 0..records.len() {
            if left.is_empty() {
                return Ok(());
            }
            let at = place_in(place, records, left);
            let Ok((record, rest)) = decode_front(left) else {
                return Err(LogDamage::NoRecord(file_name(self.log.file), at));
            };
            self.take(at, &record)?;
            left = rest;
        }
        Ok(())
    }

    // Takes the record at this place.
    fn take(&mut self, place: u64, record: &Record) -> Result<(), LogDamage> {
        let lsn = self.log.lsn(place);
        match self.analysis.take(lsn, record) {
            Ok(()) => {}
            Err(Fault::Memory) => return Err(LogDamage::Unread(Fault::Memory)),
            Err(_) => return Err(self.misplaced(place, record.page())),
        }
        if let Err(fault) = self.changes.note(lsn, record) {
            return Err(LogDamage::Unread(fault));
        }
        count_record(&mut self.counts, record);
        Ok(())
    }

    // What is broken where analysis does not take the record at a place, which names this page: each record before it makes a page at most.
    fn misplaced(&self, place: u64, page: PageNo) -> LogDamage {
        let name = file_name(self.log.file);
        let most = self
            .counts
            .records
            .saturating_add(u64::from(self.log.pages()));
        if u64::from(page) > most {
            return LogDamage::NoPage(name, page);
        }
        LogDamage::Misplaced(name, place)
    }

    // The last change of each page.
    fn all_changes(self) -> Result<Option<LastChanges>, LogDamage> {
        match self.changes.parts(Lsn::MAX) {
            Ok((last, _)) => Ok(Some(last)),
            Err(fault) => Err(LogDamage::Unread(fault)),
        }
    }

    // What the log says that ends at this gate.
    fn finish(self, end: u64, before: Option<LastChanges>) -> Result<Survey, LogDamage> {
        let Said {
            log,
            analysis,
            changes,
            counts,
        } = self;
        let analysed = analysis.finish();
        match changes.parts(analysed.redo_point) {
            Ok((last, _)) => Ok(Survey {
                log,
                end,
                batches: counts.batches,
                records: counts.records,
                commits: counts.commits,
                greatest_page: counts.greatest_page,
                last,
                before,
                analysed,
            }),
            Err(fault) => Err(LogDamage::Unread(fault)),
        }
    }
}

/// The place of the first of the records of a batch that are left, the first of all of which stands at this place.
pub(crate) fn place_in(place: u64, records: &[u8], left: &[u8]) -> u64 {
    place.saturating_add(records.len().saturating_sub(left.len()) as u64)
}

fn count_record(counts: &mut Counts, record: &Record) {
    counts.records = counts.records.saturating_add(1);
    counts.greatest_page = counts.greatest_page.max(record.page());
    if let Record::Commit { .. } = record {
        counts.commits = counts.commits.saturating_add(1);
    }
}

/// Whole batches of a log after the closed gate that ends it, where one with an open gate is among them.
#[derive(Clone, Copy, Debug, PartialEq, Eq)]
pub struct BatchesBehind {
    pub batches: u64,
    // With what stands in front of each.
    bytes: u64,
}

impl BatchesBehind {
    /// They are more than a stop within one put leaves, so that the log was cut there by damage.
    pub fn are_damage(&self) -> bool {
        self.bytes > MOST_PUT
    }
}

/// The whole batches of a log after the gate that ends it, if one with an open gate is among them: a put of several writes all gates open but the first,
/// and opens that last. A file that is used again has batches of an earlier log there too: those that have no record of one of this log's transactions are
/// passed over.
pub fn batches_behind<F: Files>(
    alloc: Global,
    files: &mut F,
    said: &Survey,
) -> Result<Option<BatchesBehind>, LogDamage> {
    let mut log = LogPiece::new(alloc, said.log.file);
    let mut behind = BatchesBehind {
        batches: 0,
        bytes: 0,
    };
    let mut gate = said.end;
    for count in 0..u64::MAX {
        if count > 0 && !log.is_open(files, gate)? {
            break;
        }
        let Some((size, transaction)) = log.whole_batch(files, gate)? else {
            break;
        };
        gate = next_gate(gate, size);
        if said.log.may_have(transaction) {
            behind.batches = behind.batches.saturating_add(1);
            behind.bytes = gate.saturating_sub(said.end);
        }
    }
    if behind.batches > 1 {
        Ok(Some(behind))
    } else {
        Ok(None)
    }
}

// The greatest number of a transaction that these records have, one after another, 0 where they have none. None where they are no records.
fn greatest_transaction(bytes: &[u8]) -> Option<TxnId> {
    let mut left = bytes;
    let mut greatest = 0;
    for _count in 0..bytes.len() {
        match decode_front(left) {
            Ok((record, rest)) => {
                greatest = greatest.max(record.transaction());
                left = rest;
            }
            Err(_) => return None,
        }
        if left.is_empty() {
            return Some(greatest);
        }
    }
    None
}
