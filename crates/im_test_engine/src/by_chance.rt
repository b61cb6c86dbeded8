//! Lives by chance, of several transactions at once, beside a plain table of their keys.

ghost use Rattle.std.specs.Prelude.{◌≡◌, ◌≤◌, false};
ghost use Rattle.im_base_disk.specs.Runs.{IsSynced};

use crate::said::{Said, make};
use im_base_disk::Disk;
use im_base_model_disk::ModelDisk;
use im_base_steps::Step;
use im_base_two_logs::Renamed;
use im_base_types::{Fault, Key, LONGEST_KEY, Rid, TxnId};
use im_engine::{Config, Engine};
use std::alloc::{AllocError, Global};
use std::test::Fail;
use std::thread::Threads;

/// A store on a disk in memory.
type Store = Engine<Renamed<ModelDisk>>;

/// How many transactions are active at once at most.
const ACTIVE: u64 = 3;

/// In so many steps each of them is rolled back.
const MOST_TURNS: u64 = 100_000;

/// What a life asks for.
#[derive(Clone, Copy)]
pub struct Shape {
    /// How many keys there may be, at most 2^24. A leaf has room for fifteen.
    pub keys: u64,
    /// How many steps are made, before those that end it.
    pub steps: u64,
    /// Of so many steps four are a Commit, one a Rollback, and one is of no transaction; the others ask for a key.
    pub apart: u64,
    /// What the last step is.
    pub last: Last,
}

/// What the last step of a life is, after a Commit of each transaction that is active.
#[derive(Clone, Copy, PartialEq, Eq)]
pub enum Last {
    /// A Checkpoint, a Switch, or neither, by chance; in the last case, in half of such lives, there is no Commit.
    Any,
    /// A Checkpoint, the only one.
    Checkpoint,
    /// A Switch, the only one.
    Switch,
}

/// Which step a stop came within.
#[derive(Clone, Copy, PartialEq, Eq)]
pub enum Within {
    Opening,
    Look,
    Key,
    Commit,
    Rollback,
    Checkpoint,
    Switch,
    Other,
}

/// What came of a step, or of a life.
#[derive(Clone, Copy, PartialEq, Eq)]
pub enum Told {
    /// All was answered as the table has it.
    Right,
    /// Something was not.
    Wrong,
    /// The stop came.
    Stopped(Within),
}

// What is known of a key: its row id, where it is there, as it was committed; as it is seen now; and which transaction changed it, where that is active.
#[derive(Clone, Copy)]
struct Known {
    kept: Option<Rid>,
    now: Option<Rid>,
    by: TxnId,
}

/// Chance, and what is known of each key.
#[derive(Drop)]
pub struct Table {
    seed: u64,
    all: Vec<Known>,
    active: [TxnId; 3],
    most_dirty: usize,
    calls: u64,
}

impl Table {
    /// No key is there.
    pub fn new(alloc: Global, seed: u64, keys: u64) -> Result<Table, AllocError> {
        let none = Known {
            kept: None,
            now: None,
            by: 0,
        };
        Ok(Table {
            seed,
            all: vec![in alloc; none; keys as usize]?,
            active: [0; 3],
            most_dirty: 0,
            calls: 0,
        })
    }

    /// The same chance, and the same table.
    pub fn again(&self, alloc: Global) -> Result<Table, AllocError> {
        Ok(Table {
            seed: self.seed,
            all: Vec::from_slice(alloc, &self.all)?,
            active: self.active,
            most_dirty: self.most_dirty,
            calls: self.calls,
        })
    }

    /// How many device calls there were in a life before its last Checkpoint or Switch.
    pub fn calls_before(&self) -> u64 {
        self.calls
    }

    // A Checkpoint or a Switch comes now.
    fn note(&mut self, engine: &Store) {
        self.most_dirty = self.most_dirty.max(engine.dirty_count());
        self.calls = engine.disk().disk().calls();
    }

    /// How many pages were changed, at most, where a Checkpoint or a Switch came since this was asked for last.
    pub fn take_dirty(&mut self) -> usize {
        let most = self.most_dirty;
        self.most_dirty = 0;
        most
    }

    /// A number below n by chance, and 0 where that is 0.
    pub fn below(&mut self, n: u64) -> u64
        ensures { result ≤ n }
    {
        self.seed = self
            .seed
            .wrapping_mul(6_364_136_223_846_793_005)
            .wrapping_add(1_442_695_040_888_963_407);
        if n == 0 {
            return 0;
        }
        (self.seed >> 33) % n
    }

    // What is known of a key.
    fn known(&self, number: u64) -> Known {
        match self.all.get(number as usize) {
            Some(known) => *known,
            None => Known {
                kept: None,
                now: None,
                by: 0,
            },
        }
    }

    // A transaction has changed a key.
    fn change(&mut self, t: TxnId, number: u64, rid: Option<Rid>) {
        if let Some(known) = self.all.get_mut(number as usize) {
            known.now = rid;
            known.by = t;
        }
    }

    // A transaction has ended, and what it did is kept, or taken back.
    fn end(&mut self, t: TxnId, is_kept: bool) {
        for known in &mut self.all {
            if known.by == t {
                if is_kept {
                    known.kept = known.now;
                } else {
                    known.now = known.kept;
                }
                known.by = 0;
            }
        }
        for active in &mut self.active {
            if *active == t {
                *active = 0;
            }
        }
    }

    // The stop came: no transaction is active, and what they did is lost. Of one whose Commit had been asked for nobody knows: what it did stays beside what
    // was there before.
    fn stop(&mut self, asked: TxnId) {
        for known in &mut self.all {
            if known.by != asked {
                known.now = known.kept;
            }
            known.by = 0;
        }
        self.active = [0; 3];
    }

    // Whether these are all entries that there are: as they were kept, or as they were with what nobody knew of. Then that is known.
    fn is_all(&mut self, entries: &[(Key, Rid)]) -> bool {
        if self.are(entries, true) {
            for known in &mut self.all {
                known.now = known.kept;
            }
            return true;
        }
        if self.are(entries, false) {
            for known in &mut self.all {
                known.kept = known.now;
            }
            return true;
        }
        false
    }

    // Whether these are all as they were kept, or as they are now.
    fn are(&self, entries: &[(Key, Rid)], are_kept: bool) -> bool {
        let mut at = 0;
        for (number, known) in self.all.iter().enumerate() {
            let wanted = if are_kept { known.kept } else { known.now };
            if let Some(rid) = wanted {
                match entries.get(at) {
                    Some(entry) if number_of(&entry.0) == number && entry.1 == rid => {
                        at = at.saturating_add(1);
                    }
                    _ => return false,
                }
            }
        }
        at == entries.len()
    }
}

/// The key of a number: its three bytes, the highest first, and more, so that a leaf has few.
pub fn key_of(alloc: Global, number: u64) -> Result<Vec<u8>, Fail> {
    let mut key = Vec::new(alloc);
    key.push((number / 65_536 % 256) as u8)?;
    key.push((number / 256 % 256) as u8)?;
    key.push((number % 256) as u8)?;
    key.resize(LONGEST_KEY, b'z')?;
    Ok(key)
}

/// The number of a key.
pub fn number_of(key: &Key) -> usize {
    match key.bytes() {
        [high, mid, low, ..] => {
            usize::from(*high) * 65_536 + usize::from(*mid) * 256 + usize::from(*low)
        }
        _ => usize::MAX,
    }
}

/// A step was refused: rightly, where the disk has failed in it.
pub fn refused(engine: &Store, within: Within) -> Told {
    if engine.failed() {
        Told::Stopped(within)
    } else {
        Told::Wrong
    }
}

/// What is said where a key is there, and else that it is absent.
pub fn wanted(had: Option<Rid>, there: Said) -> Said {
    match had {
        Some(_) => there,
        None => Said::Absent,
    }
}

// Begins a transaction in a place that has none.
fn begin(engine: &mut Store, table: &mut Table, place: usize) -> Told {
    match make(engine, Step::Begin) {
        Said::Started(t) => {
            if let Some(active) = table.active.get_mut(place) {
                *active = t;
            }
            Told::Right
        }
        _ => refused(engine, Within::Other),
    }
}

// Commits a transaction.
fn commit(engine: &mut Store, table: &mut Table, t: TxnId) -> Told {
    if make(engine, Step::Commit(t)) == Said::Committed {
        table.end(t, true);
        return Told::Right;
    }
    if engine.failed() {
        table.stop(t);
    }
    refused(engine, Within::Commit)
}

// Rolls a transaction back to its begin.
fn roll_back(engine: &mut Store, table: &mut Table, t: TxnId) -> Told {
    let mut said = make(engine, Step::Rollback(t));
    for _ in 0..MOST_TURNS {
        if said != Said::More {
            break;
        }
        said = make(engine, Step::Continue(t));
    }
    if said == Said::RolledBack {
        table.end(t, false);
        return Told::Right;
    }
    refused(engine, Within::Rollback)
}

// Takes a Checkpoint.
fn check(engine: &mut Store, table: &mut Table) -> Told {
    table.note(engine);
    if make(engine, Step::Checkpoint) == Said::Done {
        return Told::Right;
    }
    refused(engine, Within::Checkpoint)
}

// Asks for a Switch, which is refused as busy while a transaction is active.
fn switch(engine: &mut Store, table: &mut Table) -> Told {
    table.note(engine);
    let is_busy = engine.active() > 0;
    match make(engine, Step::Switch) {
        Said::Done if !is_busy => Told::Right,
        Said::Refused(15) if is_busy => Told::Right,
        _ => refused(engine, Within::Switch),
    }
}

// Makes a step of no transaction by chance.
fn keep_up(engine: &mut Store, table: &mut Table, last: Last) -> Told {
    let page = (table.below(1_000_000) % 4_000) as u32;
    let step = match table.below(16) {
        0 | 1 if last == Last::Any => return check(engine, table),
        2 if last == Last::Any => return switch(engine, table),
        3 => Step::Force,
        _ => Step::FlushPage(page),
    };
    if make(engine, step) == Said::Done {
        return Told::Right;
    }
    refused(engine, Within::Other)
}

// The number of a key by chance: mostly from the third of them that is a place's, so that few transactions meet.
fn number_for(table: &mut Table, place: u64, keys: u64) -> u64 {
    if table.below(32) == 0 {
        return table.below(keys);
    }
    let third = keys / ACTIVE;
    third.wrapping_mul(place).wrapping_add(table.below(third))
}

// Asks for a key, where no other active transaction has changed it; one that has is to be waited for, or the one that asks has to roll back.
fn ask(
    alloc: Global,
    engine: &mut Store,
    table: &mut Table,
    t: TxnId,
    number: u64,
) -> Result<Told, Fail> {
    let key = key_of(alloc, number)?;
    let known = table.known(number);
    let rid = table.below(1_000_000);
    let roll = table.below(10);
    let (step, right, after) = if roll < 2 {
        let found = Said::Found(known.now.unwrap_or(0));
        (Step::Fetch(t, key), wanted(known.now, found), known.now)
    } else if roll < 4 {
        (Step::Delete(t, key), wanted(known.now, Said::Deleted), None)
    } else if known.now.is_some() {
        (Step::Insert(t, key, rid), Said::Duplicate, known.now)
    } else {
        (Step::Insert(t, key, rid), Said::Inserted, Some(rid))
    };
    let said = make(engine, step);
    if said == Said::Die {
        return Ok(roll_back(engine, table, t));
    }
    if matches!(said, Said::BlockedBy(_)) {
        return Ok(Told::Right);
    }
    if said != right || (known.by != 0 && known.by != t) {
        return Ok(refused(engine, Within::Key));
    }
    if after != known.now {
        table.change(t, number, after);
    }
    Ok(Told::Right)
}

// Makes one step by chance.
fn turn(alloc: Global, engine: &mut Store, table: &mut Table, shape: Shape) -> Result<Told, Fail> {
    let place = table.below(ACTIVE);
    let t = match table.active.get(place as usize) {
        Some(active) => *active,
        None => 0,
    };
    if t == 0 {
        return Ok(begin(engine, table, place as usize));
    }
    Ok(match table.below(shape.apart) {
        0 | 1 | 2 | 3 => commit(engine, table, t),
        4 => roll_back(engine, table, t),
        5 => keep_up(engine, table, shape.last),
        _ => {
            let number = number_for(table, place, shape.keys);
            return ask(alloc, engine, table, t, number);
        }
    })
}

// Commits what is active.
fn commit_all(engine: &mut Store, table: &mut Table) -> Told {
    for t in table.active {
        if t != 0 {
            let told = commit(engine, table, t);
            if told != Told::Right {
                return told;
            }
        }
    }
    Told::Right
}

// Makes the steps of a life, after a look at what the opening found.
fn steps(alloc: Global, engine: &mut Store, table: &mut Table, shape: Shape) -> Result<Told, Fail> {
    let Ok(entries) = engine.entries(alloc) else {
        return Ok(refused(engine, Within::Look));
    };
    if !table.is_all(&entries) {
        return Ok(Told::Wrong);
    }
    for _ in 0..shape.steps {
        let told = turn(alloc, engine, table, shape)?;
        if told != Told::Right {
            return Ok(told);
        }
    }
    Ok(end_by(engine, table, shape.last))
}

// The last steps of a life.
fn end_by(engine: &mut Store, table: &mut Table, last: Last) -> Told {
    let roll = table.below(4);
    if last == Last::Any && roll == 0 {
        return Told::Right;
    }
    let told = commit_all(engine, table);
    if told != Told::Right {
        return told;
    }
    match last {
        Last::Any if roll == 1 => Told::Right,
        Last::Any if roll == 2 => check(engine, table),
        Last::Checkpoint => check(engine, table),
        _ => switch(engine, table),
    }
}

/// Opens the store of a disk, which may have a stop armed, makes the steps of a life, and hands the disk on.
pub fn life<R: Threads + Sync>(
    rt: &R,
    alloc: Global,
    disk: ModelDisk,
    config: Config,
    table: &mut Table,
    shape: Shape,
) -> Result<(Told, ModelDisk), Fail>
    requires working { ⟦<ModelDisk as Disk>⟧.failed disk ≡ false }
    requires synced { IsSynced ⟦<ModelDisk as Disk>⟧ disk }
{
    match Engine::open_or_create(rt, alloc, Renamed::new(disk, false), config) {
        Ok(mut engine) => {
            let told = steps(alloc, &mut engine, table, shape);
            table.stop(0);
            let disk = engine.into_disk().into_disk();
            Ok((told?, disk))
        }
        Err((fault, named)) => {
            let told = if fault == Fault::Device {
                Told::Stopped(Within::Opening)
            } else {
                Told::Wrong
            };
            Ok((told, named.into_disk()))
        }
    }
}
