//! Lives by chance in which transactions return to a number of their changes, and go on. Beside them stands a plain model: for each transaction the list of
//! its changes, of which a return cuts the newest off, and the keys that it has changed, which nobody else changes before it ends, whatever it takes back.
//! It is compared after each step.

ghost use Rattle.std.specs.Prelude.{◌≡◌, ◌≤◌, false};
ghost use Rattle.im_base_disk.specs.Runs.{IsSynced};

use crate::by_chance::{Table, Told, Within, key_of, refused, wanted};
use crate::large_pools::left_by;
use crate::plain_map::{KEYS, Map};
use crate::said::{Said, make};
use im_base_disk::Disk;
use im_base_model_disk::ModelDisk;
use im_base_steps::Step;
use im_base_two_logs::Renamed;
use im_base_types::{Fault, Key, Rid, TxnId};
use im_engine::{BufferSize, Config, Engine};
use std::alloc::{AllocError, Global};
use std::test::Fail;
use std::thread::Threads;

type Store = Engine<Renamed<ModelDisk>>;

/// How many transactions are active at once at most.
const PLACES: u64 = 3;

/// How many steps a life has.
const STEPS: u64 = 500;

// A change: what the key of a number had before, where it was there.
#[derive(Clone, Copy)]
struct Change {
    number: u64,
    had: Option<Rid>,
}

// How a transaction stands.
#[derive(Clone, Copy, PartialEq, Eq)]
enum State {
    None,
    Going,
    /// It was told to die.
    Dying,
    /// It is rolled back.
    Back,
    /// It returns to some of its changes.
    Returning,
    /// Its Insert or Delete is made page by page.
    GoesOn,
    /// Its Commit waits for a force.
    Waiting,
}

// A transaction, or none.
#[derive(Drop)]
struct Place {
    t: TxnId,
    state: State,
    /// Its changes that stand, the newest last.
    changes: Vec<Change>,
    /// How many of them are to be left, as they are taken back.
    left: u64,
    /// What goes on: the number of a key, and the row id that it is to have.
    pending: (u64, Option<Rid>),
}

/// How many steps were made, how many changes were taken back by returns, and how often a transaction returned that had been told to die.
#[derive(Clone, Copy)]
struct Tally {
    steps: u64,
    taken: u64,
    saved: u64,
}

/// Chance, and what is known of a store.
#[derive(Drop)]
struct Model {
    alloc: Global,
    chance: Table,
    places: Vec<Place>,
    now: Map,
    /// The transaction that has changed each key, and may have taken that back.
    owners: Vec<TxnId>,
    /// What a stop may leave: what was acknowledged, and what each Commit asked for after that, the newest last.
    maps: Vec<Map>,
    is_stepped: bool,
    is_group: bool,
    tally: Tally,
}

impl Model {
    fn new(alloc: Global, seed: u64, config: Config) -> Result<Model, AllocError> {
        let mut places = Vec::new(alloc);
        for _ in 0..PLACES {
            places.push(Place {
                t: 0,
                state: State::None,
                changes: Vec::new(alloc),
                left: 0,
                pending: (0, None),
            })?;
        }
        let mut maps = Vec::new(alloc);
        maps.push(Map::new(alloc)?)?;
        Ok(Model {
            alloc,
            chance: Table::new(alloc, seed, 0)?,
            places,
            now: Map::new(alloc)?,
            owners: vec![in alloc; 0; KEYS as usize]?,
            maps,
            is_stepped: config.stepped,
            is_group: config.group,
            tally: Tally {
                steps: 0,
                taken: 0,
                saved: 0,
            },
        })
    }

    fn below(&mut self, n: u64) -> u64
        ensures { result ≤ n }
    {
        self.chance.below(n)
    }

    // The transaction of a place, how it stands, and how many changes of it stand.
    fn place(&self, at: usize) -> (TxnId, State, u64) {
        match self.places.get(at) {
            Some(place) => (place.t, place.state, place.changes.len() as u64),
            None => (0, State::None, 0),
        }
    }

    fn set_state(&mut self, at: usize, state: State) {
        if let Some(place) = self.places.get_mut(at) {
            place.state = state;
        }
    }

    fn begin(&mut self, at: usize, t: TxnId) {
        if let Some(place) = self.places.get_mut(at) {
            place.t = t;
            place.state = State::Going;
        }
    }

    // Changes are taken back until so many are left.
    fn turn_back(&mut self, at: usize, state: State, left: u64) {
        if let Some(place) = self.places.get_mut(at) {
            place.state = state;
            place.left = left;
        }
    }

    fn left(&self, at: usize) -> u64 {
        match self.places.get(at) {
            Some(place) => place.left,
            None => 0,
        }
    }

    // An Insert or a Delete goes on.
    fn go_on(&mut self, at: usize, number: u64, rid: Option<Rid>) {
        if let Some(place) = self.places.get_mut(at) {
            place.state = State::GoesOn;
            place.pending = (number, rid);
        }
    }

    fn pending(&self, at: usize) -> (u64, Option<Rid>) {
        match self.places.get(at) {
            Some(place) => place.pending,
            None => (0, None),
        }
    }

    // A transaction has changed a key.
    fn change(&mut self, at: usize, number: u64, rid: Option<Rid>) -> Result<(), AllocError> {
        let had = self.now.rid(number);
        self.now.set(number, rid);
        if let Some(place) = self.places.get_mut(at) {
            place.changes.push(Change { number, had })?;
            if let Some(owner) = self.owners.get_mut(number as usize) {
                *owner = place.t;
            }
        }
        Ok(())
    }

    // The newest change of a transaction is taken back. Nobody else changes the key before it ends.
    fn take_back(&mut self, at: usize) {
        if let Some(place) = self.places.get_mut(at) {
            if let Some(change) = place.changes.pop() {
                self.now.set(change.number, change.had);
            }
        }
    }

    // Whether another transaction than that of a place has changed a key, so that this may not be answered: nothing while a change of the key stands, and
    // no change of it where all was taken back.
    fn is_kept_from(&self, at: usize, number: u64, said: Said) -> bool {
        let (t, _, _) = self.place(at);
        let owner = match self.owners.get(number as usize) {
            Some(owner) => *owner,
            None => 0,
        };
        if owner == 0 || owner == t {
            return false;
        }
        self.is_changed(number) || matches!(said, Said::Inserted | Said::Deleted | Said::More)
    }

    // Whether a change of a key stands that an active transaction made.
    fn is_changed(&self, number: u64) -> bool {
        let mut is_changed = false;
        for place in &self.places {
            for change in &place.changes {
                is_changed = is_changed || change.number == number;
            }
        }
        is_changed
    }

    // A Commit is asked for: what stands of the transaction comes behind all that was asked for before.
    fn ask_for(&mut self, at: usize) -> Result<(), AllocError> {
        let mut next = match self.maps.last() {
            Some(map) => map.copied(self.alloc)?,
            None => Map::new(self.alloc)?,
        };
        if let Some(place) = self.places.get(at) {
            for change in &place.changes {
                next.set(change.number, self.now.rid(change.number));
            }
        }
        self.maps.push(next)?;
        Ok(())
    }

    // All that was asked for is acknowledged.
    fn acknowledge(&mut self) -> Result<(), AllocError> {
        if let Some(newest) = self.maps.pop() {
            self.maps.clear();
            self.maps.push(newest)?;
        }
        Ok(())
    }

    // A transaction has ended.
    fn end(&mut self, at: usize) {
        if let Some(place) = self.places.get_mut(at) {
            for owner in &mut self.owners {
                if *owner == place.t {
                    *owner = 0;
                }
            }
            place.t = 0;
            place.state = State::None;
            place.changes.clear();
        }
    }

    // A force was made.
    fn force(&mut self) -> Result<(), AllocError> {
        for at in 0..PLACES as usize {
            if self.place(at).1 == State::Waiting {
                self.end(at);
            }
        }
        self.acknowledge()
    }

    // A life is over, with no transaction.
    fn stop(&mut self) {
        for at in 0..PLACES as usize {
            self.end(at);
        }
    }

    // What a stop left is one of what it may leave. Then that is known.
    fn is_left(&mut self, entries: &[(Key, Rid)]) -> Result<bool, AllocError> {
        let mut at = self.maps.len();
        for (number, map) in self.maps.iter().enumerate() {
            if map.is_all(entries) {
                at = number;
            }
        }
        let (map, again) = match self.maps.get(at) {
            Some(map) => (map.copied(self.alloc)?, map.copied(self.alloc)?),
            None => return Ok(false),
        };
        self.maps.clear();
        self.maps.push(again)?;
        self.now = map;
        Ok(true)
    }

    // Whether this is another active transaction than that of a place.
    fn is_other(&self, at: usize, t: TxnId) -> bool {
        let mut is_other = false;
        for other in 0..PLACES as usize {
            is_other = is_other || (other != at && t != 0 && self.place(other).0 == t);
        }
        is_other
    }

    // Whether another transaction than that of a place is active.
    fn is_beside_any(&self, at: usize) -> bool {
        let mut is_beside = false;
        for other in 0..PLACES as usize {
            is_beside = is_beside || (other != at && self.place(other).0 != 0);
        }
        is_beside
    }

    // Whether pages may be changed one by one for another transaction than that of a place.
    fn is_beside_change(&self, at: usize) -> bool {
        let mut is_beside = false;
        for other in 0..PLACES as usize {
            is_beside = is_beside || (other != at && is_under_way(self.place(other).1));
        }
        self.is_stepped && is_beside
    }

    // The number of a key by chance: mostly from the third of them that is a place's.
    fn number_for(&mut self, at: usize) -> u64 {
        if self.below(8) == 0 {
            return self.below(KEYS);
        }
        let third = KEYS / PLACES;
        third
            .wrapping_mul(at as u64)
            .wrapping_add(self.below(third))
    }
}

// Whether changes are made, or taken back, by each Continue of a transaction that stands so.
fn is_under_way(state: State) -> bool {
    matches!(state, State::Back | State::Returning | State::GoesOn)
}

// The refusal of a step that only one takes which is going; an access and a Commit are refused to one that was told to die, too.
fn refusal(state: State) -> Said {
    match state {
        State::Back | State::Returning => Said::Refused(4),
        State::GoesOn => Said::Refused(17),
        State::Dying => Said::Refused(2),
        _ => Said::Refused(1),
    }
}

// Whether this was answered. A refusal is right too where the disk has failed.
fn expect(engine: &Store, said: Said, wanted: Said, within: Within) -> Told {
    if said == wanted {
        Told::Right
    } else {
        refused(engine, within)
    }
}

fn right_if(is_right: bool) -> Told {
    if is_right { Told::Right } else { Told::Wrong }
}

fn begin(engine: &mut Store, model: &mut Model, at: usize) -> Told {
    match make(engine, Step::Begin) {
        Said::Started(t) => {
            model.begin(at, t);
            Told::Right
        }
        _ => refused(engine, Within::Other),
    }
}

fn commit(engine: &mut Store, model: &mut Model, at: usize) -> Result<Told, Fail> {
    let (t, state, count) = model.place(at);
    let said = make(engine, Step::Commit(t));
    if state != State::Going {
        return Ok(expect(engine, said, refusal(state), Within::Commit));
    }
    if count > 0 {
        model.ask_for(at)?;
    }
    if said == Said::More && model.is_group && count > 0 {
        model.set_state(at, State::Waiting);
        return Ok(Told::Right);
    }
    if said == Said::Committed && (!model.is_group || count == 0) {
        if count > 0 {
            model.acknowledge()?;
        }
        model.end(at);
        return Ok(Told::Right);
    }
    Ok(refused(engine, Within::Commit))
}

fn roll_back(engine: &mut Store, model: &mut Model, at: usize) -> Told {
    let (t, state, count) = model.place(at);
    let said = make(engine, Step::Rollback(t));
    if state != State::Going && state != State::Dying {
        return expect(engine, said, refusal(state), Within::Rollback);
    }
    if said == Said::More && count > 0 {
        model.turn_back(at, State::Back, 0);
        return Told::Right;
    }
    if said == Said::RolledBack && count == 0 {
        model.end(at);
        return Told::Right;
    }
    refused(engine, Within::Rollback)
}

// Asks a transaction to return to some of its changes, or to as many or more than it has.
fn return_to(engine: &mut Store, model: &mut Model, at: usize) -> Told {
    let (t, state, count) = model.place(at);
    let left = model.below(count.saturating_add(3));
    let said = make(engine, Step::RollTo(t, left));
    if state != State::Going && state != State::Dying {
        return expect(engine, said, refusal(state), Within::Rollback);
    }
    if state == State::Dying {
        model.tally.saved = model.tally.saved.saturating_add(1);
    }
    if said == Said::More && left < count {
        model.turn_back(at, State::Returning, left);
        return Told::Right;
    }
    if said == Said::Done && left >= count {
        model.set_state(at, State::Going);
        return Told::Right;
    }
    refused(engine, Within::Rollback)
}

// Goes on with what is under way.
fn go_on(engine: &mut Store, model: &mut Model, at: usize) -> Result<Told, Fail> {
    let (t, state, _) = model.place(at);
    let said = make(engine, Step::Continue(t));
    if said == Said::BlockedByTree {
        return Ok(right_if(model.is_beside_change(at)));
    }
    match state {
        State::GoesOn => Ok(finish(engine, model, at, said)?),
        State::Back | State::Returning => Ok(take_back(engine, model, at, said)),
        _ => Ok(expect(engine, said, Said::Refused(1), Within::Other)),
    }
}

// An Insert or a Delete has made a page more, or is finished. The record of an Insert comes behind its pages, that of a Delete in front of them.
fn finish(
    engine: &mut Store,
    model: &mut Model,
    at: usize,
    said: Said,
) -> Result<Told, AllocError> {
    let (number, rid) = model.pending(at);
    if said == Said::More {
        return Ok(Told::Right);
    }
    if said == Said::Inserted && rid.is_some() {
        model.change(at, number, rid)?;
        model.set_state(at, State::Going);
        return Ok(Told::Right);
    }
    if said == Said::Deleted && rid.is_none() {
        model.set_state(at, State::Going);
        return Ok(Told::Right);
    }
    Ok(refused(engine, Within::Key))
}

// A change was taken back, or with `stepped` a page was changed for that.
fn take_back(engine: &mut Store, model: &mut Model, at: usize, said: Said) -> Told {
    if engine.failed() {
        return Told::Stopped(Within::Rollback);
    }
    let (t, state, count) = model.place(at);
    let left = model.left(at);
    let stand = engine.changes(t).unwrap_or(0);
    let is_one = stand.saturating_add(1) == count;
    if !is_one && !(model.is_stepped && stand == count) {
        return Told::Wrong;
    }
    if is_one {
        model.take_back(at);
        if state == State::Returning {
            model.tally.taken = model.tally.taken.saturating_add(1);
        }
    }
    if said == Said::More {
        return right_if(stand > left || (model.is_stepped && stand == left));
    }
    if said == Said::Done && state == State::Returning && stand == left {
        model.set_state(at, State::Going);
        return Told::Right;
    }
    if said == Said::RolledBack && state == State::Back && stand == 0 {
        model.end(at);
        return Told::Right;
    }
    Told::Wrong
}

// Makes a step of no transaction.
fn keep_up(engine: &mut Store, model: &mut Model) -> Result<Told, Fail> {
    let page = model.below(24) as u32;
    let roll = model.below(8);
    let is_busy = engine.active() > 0;
    let step = match roll {
        0 => Step::Checkpoint,
        1 => Step::Switch,
        2 | 3 | 4 => Step::Force,
        _ => Step::FlushPage(page),
    };
    let said = make(engine, step);
    if roll == 1 && is_busy {
        return Ok(expect(engine, said, Said::Refused(15), Within::Switch));
    }
    if said == Said::Done && (roll == 2 || roll == 3 || roll == 4) {
        model.force()?;
    }
    Ok(expect(engine, said, Said::Done, Within::Other))
}

// Asks for a key. One that another transaction has changed is to be waited for, or the one that asks has to die.
fn ask(alloc: Global, engine: &mut Store, model: &mut Model, at: usize) -> Result<Told, Fail> {
    let (t, state, _) = model.place(at);
    let number = model.number_for(at);
    let key = key_of(alloc, number)?;
    let now = model.now.rid(number);
    let rid = model.below(1_000_000);
    let roll = model.below(10);
    let (step, right, then) = if roll < 2 {
        let found = Said::Found(now.unwrap_or(0));
        (Step::Fetch(t, key), wanted(now, found), now)
    } else if roll < 5 {
        (Step::Delete(t, key), wanted(now, Said::Deleted), None)
    } else if now.is_some() {
        (Step::Insert(t, key, rid), Said::Duplicate, now)
    } else {
        (Step::Insert(t, key, rid), Said::Inserted, Some(rid))
    };
    let said = make(engine, step);
    if state != State::Going {
        return Ok(expect(engine, said, refusal(state), Within::Key));
    }
    match said {
        Said::Die => {
            model.set_state(at, State::Dying);
            Ok(right_if(model.is_beside_any(at)))
        }
        Said::BlockedBy(holder) => Ok(right_if(model.is_other(at, holder))),
        Said::BlockedByTree => Ok(right_if(model.is_beside_change(at))),
        _ if model.is_kept_from(at, number, said) => Ok(refused(engine, Within::Key)),
        Said::More if model.is_stepped && then != now => {
            model.go_on(at, number, then);
            if then.is_none() {
                model.change(at, number, then)?;
            }
            Ok(Told::Right)
        }
        _ if said == right => {
            if then != now {
                model.change(at, number, then)?;
            }
            Ok(Told::Right)
        }
        _ => Ok(refused(engine, Within::Key)),
    }
}

// Makes one step by chance.
fn turn(alloc: Global, engine: &mut Store, model: &mut Model) -> Result<Told, Fail> {
    let at = model.below(PLACES) as usize;
    let (_, state, _) = model.place(at);
    if state == State::None {
        return Ok(begin(engine, model, at));
    }
    match model.below(32) {
        0 => commit(engine, model, at),
        1 => Ok(roll_back(engine, model, at)),
        2 | 3 | 4 => Ok(return_to(engine, model, at)),
        5 | 6 => keep_up(engine, model),
        7 => go_on(engine, model, at),
        _ if is_under_way(state) => go_on(engine, model, at),
        _ => ask(alloc, engine, model, at),
    }
}

// Whether so many changes of each transaction stand as it has in the model.
fn are_counted(engine: &Store, model: &Model) -> bool {
    let mut are = true;
    for at in 0..PLACES as usize {
        let (t, state, count) = model.place(at);
        let wanted = match state {
            State::None | State::Waiting => Err(Fault::NoTransaction),
            _ => Ok(count),
        };
        are = are && engine.changes(t) == wanted;
    }
    are
}

// Makes the steps of a life, after a look at what the opening found.
fn steps(alloc: Global, engine: &mut Store, model: &mut Model) -> Result<Told, Fail> {
    let Ok(entries) = engine.entries(alloc) else {
        return Ok(refused(engine, Within::Look));
    };
    if !model.is_left(&entries)? {
        return Ok(Told::Wrong);
    }
    for _ in 0..STEPS {
        model.tally.steps = model.tally.steps.saturating_add(1);
        let told = turn(alloc, engine, model)?;
        if told != Told::Right {
            return Ok(told);
        }
        if !are_counted(engine, model) {
            return Ok(Told::Wrong);
        }
    }
    look(alloc, engine, model)
}

// Whether the entries in the end are those of the model, those of active transactions too. There are none where pages are changed one by one.
fn look(alloc: Global, engine: &mut Store, model: &Model) -> Result<Told, Fail> {
    match engine.entries(alloc) {
        Ok(entries) => Ok(right_if(model.now.is_all(&entries))),
        Err(Fault::Unfinished) => Ok(right_if(model.is_stepped)),
        Err(_) => Ok(refused(engine, Within::Look)),
    }
}

// Opens the store of a disk, which may have a stop armed, makes the steps of a life, and hands the disk on.
fn life<R: Threads + Sync>(
    rt: &R,
    alloc: Global,
    disk: ModelDisk,
    config: Config,
    model: &mut Model,
) -> Result<(Told, ModelDisk), Fail>
    requires working { ⟦<ModelDisk as Disk>⟧.failed disk ≡ false }
    requires synced { IsSynced ⟦<ModelDisk as Disk>⟧ disk }
{
    match Engine::open_or_create(rt, alloc, Renamed::new(disk, false), config) {
        Ok(mut engine) => {
            let told = steps(alloc, &mut engine, model);
            model.stop();
            let disk = engine.into_disk().into_disk();
            Ok((told?, disk))
        }
        Err((fault, named)) => {
            let told = if fault == Fault::Device {
                Told::Stopped(Within::Opening)
            } else {
                Told::Wrong
            };
            Ok((told, named.into_disk()))
        }
    }
}

// Makes lives, of which all but the first have a stop armed, and counts; or a failure, where something is not as the model has it.
fn lives<R: Threads + Sync>(
    rt: &R,
    alloc: Global,
    config: Config,
    count: u64,
) -> Result<Tally, Fail> {
    let mut model = Model::new(alloc, count, config)?;
    let mut used = ModelDisk::new(Vec::new(alloc), Vec::new(alloc));
    // the first life has no stop armed
    let mut told = Told::Stopped(Within::Opening);
    let mut most = 0;
    for _ in 0..count {
        let disk = left_by(alloc, &used, &mut model.chance, told, most)?;
        let (came, left) = life(rt, alloc, disk, config, &mut model)?;
        if came == Told::Wrong {
            return Err(Fail::from(Fault::Failed));
        }
        most = left.calls().max(most);
        told = came;
        used = left;
    }
    Ok(model.tally)
}

// A log's buffer of so many batches, and how changes and Commits are made.
fn config_of(batches: usize, stepped: bool, group: bool) -> Result<Config, Fail> {
    let Some(buffer) = BufferSize::new(batches) else {
        return Err(Fail::from(Fault::Capacity));
    };
    Ok(Config {
        frames: 16,
        buffer,
        stepped,
        group,
        ..Config::default()
    })
}

#[test]
fn returns_at_once(rt: HostRuntime) -> Result<(), Fail> {
    let tally = lives(&rt, rt.alloc(), config_of(4, false, false)?, 250)?;
    assert!(rt;
        tally.steps > 25_000 && tally.taken > 1_000 && tally.saved > 250,
        "{} {} {}",
        tally.steps,
        tally.taken,
        tally.saved
    );
    Ok(())
}

#[test]
fn returns_page_by_page(rt: HostRuntime) -> Result<(), Fail> {
    let tally = lives(&rt, rt.alloc(), config_of(1, true, false)?, 251)?;
    assert!(rt;
        tally.steps > 25_000 && tally.taken > 1_000 && tally.saved > 250,
        "{} {} {}",
        tally.steps,
        tally.taken,
        tally.saved
    );
    Ok(())
}

#[test]
fn returns_beside_commits_that_wait(rt: HostRuntime) -> Result<(), Fail> {
    let tally = lives(&rt, rt.alloc(), config_of(1, false, true)?, 252)?;
    assert!(rt;
        tally.steps > 25_000 && tally.taken > 1_000 && tally.saved > 250,
        "{} {} {}",
        tally.steps,
        tally.taken,
        tally.saved
    );
    Ok(())
}

#[test]
fn returns_page_by_page_beside_commits_that_wait(rt: HostRuntime) -> Result<(), Fail> {
    let tally = lives(&rt, rt.alloc(), config_of(4, true, true)?, 253)?;
    assert!(rt;
        tally.steps > 25_000 && tally.taken > 1_000 && tally.saved > 250,
        "{} {} {}",
        tally.steps,
        tally.taken,
        tally.saved
    );
    Ok(())
}
