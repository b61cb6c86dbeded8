//! Steps by chance, of several transactions at once, and what is known of them.

use crate::dice::Dice;
use crate::keys::{KEYS, Keys, key_of};
use im_base_mirror_disk::{Mirrored, Piece};
use im_base_steps::{Reply, Step};
use im_base_two_logs::TwoLogs;
use im_base_types::{Fault, PageNo, Rid, TxnId};
use im_engine::Engine;
use std::alloc::{AllocError, Global};

/// How many transactions work at once.
const SLOTS: u64 = 5;

/// So many steps of a round are made by all, and in the rest of it each comes to its end, so that the log may go on in the other file.
const ROUND: u64 = 160;

const BUSY: u64 = 110;

/// What is asked.
#[derive(Clone, Copy)]
enum Asked {
    Begin,
    Put(u64, Rid),
    Take(u64),
    Commit,
    Rollback,
    Continue,
    Flush(PageNo),
    Force,
    Checkpoint,
    Switch,
}

/// What a reply says, as far as it matters here.
#[derive(Clone, Copy)]
enum Told {
    Started(TxnId),
    Inserted,
    Deleted,
    Committed,
    RolledBack,
    More,
    Blocked,
    Die,
    Done,
    Other,
}

/// Where a transaction is.
#[derive(Clone, Copy)]
enum At {
    None,
    Active,
    // What was asked last goes on.
    GoesOn,
    // It has to give way.
    Dies,
}

#[derive(Clone, Copy)]
struct Slot {
    number: TxnId,
    at: At,
    // What was asked last that is no Continue.
    last: Asked,
}

/// What was done.
#[derive(Clone, Copy)]
pub struct Done {
    pub commits: u64,
    pub rollbacks: u64,
    pub switches: u64,
    pub pieces: u64,
}

impl Done {
    /// Nothing.
    pub const NONE: Done = Done {
        commits: 0,
        rollbacks: 0,
        switches: 0,
        pieces: 0,
    };

    /// With more that was done.
    pub fn and(self, more: Done) -> Done {
        Done {
            commits: self.commits.wrapping_add(more.commits),
            rollbacks: self.rollbacks.wrapping_add(more.rollbacks),
            switches: self.switches.wrapping_add(more.switches),
            pieces: self.pieces.wrapping_add(more.pieces),
        }
    }
}

/// Several transactions at work.
#[derive(Drop)]
pub struct Work {
    pub dice: Dice,
    pub keys: Keys,
    pub done: Done,
    slots: [Slot; 5],
    steps: u64,
}

impl Work {
    /// None has begun.
    pub fn new(alloc: Global, seed: u64) -> Result<Work, AllocError> {
        let none = Slot {
            number: 0,
            at: At::None,
            last: Asked::Begin,
        };
        Ok(Work {
            dice: Dice::of(seed),
            keys: Keys::new(alloc)?,
            done: Done::NONE,
            slots: [none; 5],
            steps: 0,
        })
    }

    // What is asked of a slot.
    fn ask(&mut self, slot: Slot) -> Asked {
        self.steps = self.steps.wrapping_add(1);
        let is_quiet = self.steps % ROUND >= BUSY;
        let roll = self.dice.below(100);
        match slot.at {
            At::GoesOn => Asked::Continue,
            At::Dies => Asked::Rollback,
            At::None if is_quiet => between(roll),
            At::None => Asked::Begin,
            At::Active if is_quiet => {
                if roll < 80 {
                    Asked::Commit
                } else {
                    Asked::Rollback
                }
            }
            At::Active => {
                let number = self.dice.below(KEYS);
                beside(roll, number, self.steps)
            }
        }
    }

    // Notes what came of a slot.
    fn note(&mut self, at: usize, slot: Slot, told: Told) {
        let mut slot = slot;
        match told {
            Told::Started(number) => {
                slot.number = number;
                slot.at = At::Active;
            }
            Told::Inserted => {
                slot.at = At::Active;
                if let Asked::Put(number, rid) = slot.last {
                    self.keys.change(number, at, Some(rid));
                }
            }
            Told::Deleted => {
                slot.at = At::Active;
                if let Asked::Take(number) = slot.last {
                    self.keys.change(number, at, None);
                }
            }
            Told::Committed => {
                slot.at = At::None;
                self.keys.keep(at);
                self.done.commits = self.done.commits.wrapping_add(1);
            }
            Told::RolledBack => {
                slot.at = At::None;
                self.keys.take_back(at);
                self.done.rollbacks = self.done.rollbacks.wrapping_add(1);
            }
            Told::More => {
                slot.at = match slot.last {
                    // (it waits for a force)
                    Asked::Commit => At::None,
                    _ => At::GoesOn,
                };
            }
            Told::Die => slot.at = At::Dies,
            Told::Done => {
                if let Asked::Switch = slot.last {
                    self.done.switches = self.done.switches.wrapping_add(1);
                }
            }
            Told::Blocked | Told::Other => {}
        }
        if let Some(kept) = self.slots.get_mut(at) {
            *kept = slot;
        }
    }
}

// What is asked where no transaction is to begin.
fn between(roll: u64) -> Asked {
    if roll < 84 {
        Asked::Force
    } else if roll < 92 {
        Asked::Checkpoint
    } else {
        Asked::Switch
    }
}

// What is asked beside others.
fn beside(roll: u64, number: u64, rid: Rid) -> Asked {
    if roll < 48 {
        Asked::Put(number, rid)
    } else if roll < 72 {
        Asked::Take(number)
    } else if roll < 82 {
        Asked::Commit
    } else if roll < 87 {
        Asked::Rollback
    } else if roll < 92 {
        Asked::Flush((number % 40) as PageNo)
    } else if roll < 97 {
        Asked::Force
    } else {
        Asked::Checkpoint
    }
}

// The step.
fn step_of(alloc: Global, number: TxnId, asked: Asked) -> Result<Step, AllocError> {
    Ok(match asked {
        Asked::Begin => Step::Begin,
        Asked::Put(key, rid) => Step::Insert(number, key_of(alloc, key)?, rid),
        Asked::Take(key) => Step::Delete(number, key_of(alloc, key)?),
        Asked::Commit => Step::Commit(number),
        Asked::Rollback => Step::Rollback(number),
        Asked::Continue => Step::Continue(number),
        Asked::Flush(page) => Step::FlushPage(page),
        Asked::Force => Step::Force,
        Asked::Checkpoint => Step::Checkpoint,
        Asked::Switch => Step::Switch,
    })
}

fn answer_of(reply: &Reply) -> Told {
    match reply {
        Reply::Started(number) => Told::Started(*number),
        Reply::Inserted => Told::Inserted,
        Reply::Deleted => Told::Deleted,
        Reply::Committed => Told::Committed,
        Reply::RolledBack => Told::RolledBack,
        Reply::More => Told::More,
        Reply::Blocked(_) => Told::Blocked,
        Reply::Die => Told::Die,
        Reply::Done => Told::Done,
        _ => Told::Other,
    }
}

// Makes a step, and says what was answered.
fn make<D: TwoLogs>(engine: &mut Engine<D>, step: Step) -> Told {
    let reply = engine.step(&step);
    answer_of(&reply)
}

// Makes the next step.
fn step<D: TwoLogs>(
    alloc: Global,
    engine: &mut Engine<D>,
    work: &mut Work,
) -> Result<(), AllocError> {
    let at = work.dice.below(SLOTS) as usize;
    let mut slot = work.slots[at];
    let asked = work.ask(slot);
    if !matches!(asked, Asked::Continue) {
        slot.last = asked;
    }
    let step = step_of(alloc, slot.number, asked)?;
    let told = make(engine, step);
    work.note(at, slot, told);
    Ok(())
}

/// Makes so many steps, and copies a piece before one in four, where a copy is under way.
pub fn run<D: TwoLogs, T: TwoLogs + Drop>(
    alloc: Global,
    engine: &mut Engine<Mirrored<D, T>>,
    work: &mut Work,
    many: u64,
    room: &mut [u8],
) -> Result<(), Fault> {
    for _ in 0..many {
        if work.dice.below(4) == 0 && engine.copy_piece(room)? == Piece::More {
            work.done.pieces = work.done.pieces.wrapping_add(1);
        }
        if step(alloc, engine, work).is_err() {
            return Err(Fault::Memory);
        }
    }
    Ok(())
}
