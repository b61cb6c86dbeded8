//! Who waits to begin, and who is waited for.
//!
//! A transaction that is told to give way rolls back and begins again, as the youngest of all. If it began at once it would meet the same older ones, and be told
//! so again, without end. So it waits until each older one has ended; and who has given way a few times is first: nobody begins before it.

ghost use Rattle.std.specs.Prelude.{◌≡◌, ◌≢◌, ◌<◌, ◌≤◌, ◌+◌, ◌⊎◌, ◌↔◌, true, false};
ghost use Rattle.std.specs.List.{All};
ghost use Rattle.im_front.specs.Line.{Asks, IsWaitedFor, asker_of, first_begun, next_turn, none_first, ticked, turn_again, with_one};
ghost use Rattle.im_base_admission.specs.Admission.{MayBegin};

use im_base_admission::{Asker, FEW, Going, becomes_first, is_left_alone, may_begin, whose};
use im_base_steps::{Reply, Step};
use im_base_types::TxnId;

/// For how many ticks a transaction makes no step before it counts as left alone.
const PATIENCE: u64 = 10;

/// A place where none is active. A front is told no threads: one has a single transaction.
const NONE: Going = Going {
    number: 0,
    seen: 0,
    thread: 0,
    had: 0,
    agains: 0,
};

/// How many transactions are known. An engine has no more that are active at once; of another store those beyond are not waited for.
const PLACES: usize = 64;

/// What one that waits to begin knows of itself.
#[derive(Clone, Copy, Debug)]
pub(crate) struct Turn {
    /// Who it is; never 0.
    pub(crate) ticket: u64,
    /// The number that it had when it gave way, 0 at first.
    pub(crate) mine: u64,
    /// How often it has given way.
    pub(crate) agains: u64,
    /// The tick at which it came to wait.
    pub(crate) came: u64,
}

impl Turn {
    /// Whether it gave way so often that it may be first.
    pub(crate) fn is_patient(&self) -> bool
        ensures { result ≡ true ↔ (4 ≤ self.now.agains) }
    {
        self.agains >= FEW
    }

    // What it asks at a tick.
    fn asks(&self, tick: u64) -> Asker
        ensures { result ≡ asker_of self.now tick }
    {
        Asker {
            ticket: self.ticket,
            mine: self.mine,
            came: self.came,
            thread: 0,
            tick,
            patience: PATIENCE,
        }
    }
}

/// The transactions that are active, and who is first.
#[derive(Drop)]
pub(crate) struct Line {
    going: [Going; 64],
    // Whether the Commit of the transaction in this place waits for a force.
    waits: [bool; 64],
    // How long somebody has waited, in hundredths of a second.
    tick: u64,
    tickets: u64,
    // The ticket of who is first, 0 where nobody is; the number of its transaction, 0 while it waits to begin; and the tick of its last step.
    first: u64,
    first_number: u64,
    first_seen: u64,
}

impl Line {
    /// Nobody.
    pub(crate) fn new() -> Line {
        Line {
            going: [NONE; 64],
            waits: [false; 64],
            tick: 0,
            tickets: 0,
            first: 0,
            first_number: 0,
            first_seen: 0,
        }
    }

    /// A turn for one that begins for the first time.
    pub(crate) fn come(&mut self) -> Turn
        ensures turn { result ≡ next_turn self.old }
        ensures line { self.new ≡ with_one self.old }
    {
        self.tickets = self.tickets.saturating_add(1);
        Turn {
            ticket: self.tickets,
            mine: 0,
            agains: 0,
            came: self.tick,
        }
    }

    /// The tick that it is now.
    pub(crate) fn now(&self) -> u64
        ensures { result ≡ self.now.tick }
    {
        self.tick
    }

    /// A hundredth of a second has passed since this tick, in which no other one that waits told so.
    pub(crate) fn pass(&mut self, since: u64)
        ensures passed { self.old.tick ≡ since → self.new ≡ ticked self.old }
        ensures other { self.old.tick ≢ since → self.new ≡ self.old }
    {
        if self.tick == since {
            self.tick = self.tick.saturating_add(1);
        }
    }

    /// Whether the one with this turn may begin now. Who has given way four times is first from then on, where nobody is; who is first and was left alone is so
    /// no longer.
    ///
    /// Where it may, nobody is first but itself; each transaction that it waits for is younger than its own was; and where it is first there is none.
    pub(crate) fn ask(&mut self, turn: &Turn) -> bool
        ensures before { result ≡ true → (self.new.first ≡ 0) ⊎ (self.new.first ≡ turn.now.ticket) }
        ensures older { result ≡ true → 0 < turn.now.mine → self.new.first ≡ 0 → All (λ g. IsWaitedFor self.old.tick turn.now.came g → turn.now.mine < g.number) self.old.going }
        ensures alone { result ≡ true → 0 < turn.now.ticket → self.new.first ≡ turn.now.ticket → All (λ g. IsWaitedFor self.old.tick 0 g → ⊥) self.old.going }
        ensures asks { Asks turn.now self.old self.new }
        ensures goes { result ≡ true ↔ MayBegin self.old.going self.new.first (asker_of turn.now self.old.tick) }
    {
        if self.first != 0 && self.is_first_left() {
            self.first = 0;
        }
        if becomes_first(turn.agains, whose(self.first, turn.ticket)) {
            self.first = turn.ticket;
            self.first_number = 0;
        }
        may_begin(&self.going, self.first, &turn.asks(self.tick))
    }

    /// One begins with this turn: its transaction has this number.
    pub(crate) fn begin(&mut self, turn: &Turn, number: TxnId)
        ensures first { self.old.first ≡ turn.now.ticket → self.new ≡ first_begun number self.old }
        ensures other { self.old.first ≢ turn.now.ticket → self.new ≡ self.old }
    {
        if self.first == turn.ticket {
            self.first_number = number;
            self.first_seen = self.tick;
        }
    }

    /// The turn of one that gave way, and has rolled back: it begins again. Where it was first it was told so beside one that was left alone, and waits
    /// as the others do.
    pub(crate) fn come_again(&self, turn: &Turn, number: TxnId, was_first: bool) -> Turn
        ensures { result ≡ turn_again self.now turn.now number was_first }
    {
        Turn {
            ticket: turn.ticket,
            mine: number,
            agains: if was_first {
                0
            } else {
                turn.agains.saturating_add(1)
            },
            came: self.tick,
        }
    }

    /// Whether this turn is first.
    pub(crate) fn is_first(&self, turn: &Turn) -> bool
        ensures { result ≡ true ↔ (self.now.first ≡ turn.now.ticket) }
    {
        self.first == turn.ticket
    }

    /// One with this turn goes away, or its transaction has ended: it is first no longer.
    pub(crate) fn leave(&mut self, turn: &Turn)
        ensures first { self.old.first ≡ turn.now.ticket → self.new ≡ none_first self.old }
        ensures other { self.old.first ≢ turn.now.ticket → self.new ≡ self.old }
    {
        if self.first == turn.ticket {
            self.first = 0;
        }
    }

    /// What a step tells that was answered, and not that it is blocked: which transactions are active, and which was not left alone.
    pub(crate) fn note(&mut self, step: &Step, reply: &Reply) {
        let tick = self.tick;
        match (step, reply) {
            (_, Reply::Started(number)) => put(&mut self.going, &mut self.waits, *number, tick),
            (Step::Force, Reply::Done) => end_all_that_wait(&mut self.going, &mut self.waits),
            (_, Reply::Committed | Reply::RolledBack) => end(&mut self.going, asker(step)),
            (Step::Commit(number), Reply::More) => {
                wait(&mut self.going, &mut self.waits, *number, tick);
            }
            _ => see(&mut self.going, asker(step), tick),
        }
        if self.first_number != 0 && self.first_number == asker(step) {
            self.first_seen = tick;
        }
    }

    // Whether the one that is first was left alone.
    fn is_first_left(&self) -> bool
        ensures { result ≡ true ↔ ((0 < self.now.first_number) × (self.now.first_seen + 10 ≤ self.now.tick)) }
    {
        self.first_number > 0 && is_left_alone(self.tick, PATIENCE, self.first_seen)
    }
}

// The number of the transaction that a step is of, or 0.
fn asker(step: &Step) -> TxnId {
    match step {
        Step::Fetch(t, _)
        | Step::Seek(t, _)
        | Step::Next(t, _)
        | Step::Prev(t, _)
        | Step::Scan(t, _, _, _)
        | Step::Insert(t, _, _)
        | Step::Delete(t, _)
        | Step::Commit(t)
        | Step::Rollback(t)
        | Step::Continue(t)
        | Step::RollTo(t, _) => *t,
        Step::Begin | Step::FlushPage(_) | Step::Force | Step::Checkpoint | Step::Switch => 0,
    }
}

// A transaction of this number is active, where there is a place for it.
fn put(going: &mut [Going; 64], waits: &mut [bool; 64], number: TxnId, tick: u64) {
    for place in 0..PLACES {
        if going[place].number == 0 {
            going[place].number = number;
            going[place].seen = tick;
            waits[place] = false;
            break;
        }
    }
}

// The transaction of this number made a step.
fn see(going: &mut [Going; 64], number: TxnId, tick: u64) {
    for place in 0..PLACES {
        if number != 0 && going[place].number == number {
            going[place].seen = tick;
        }
    }
}

// Its Commit waits for a force.
fn wait(going: &mut [Going; 64], waits: &mut [bool; 64], number: TxnId, tick: u64) {
    for place in 0..PLACES {
        if number != 0 && going[place].number == number {
            going[place].seen = tick;
            waits[place] = true;
        }
    }
}

// It has ended.
fn end(going: &mut [Going; 64], number: TxnId) {
    for place in 0..PLACES {
        if going[place].number == number {
            going[place].number = 0;
        }
    }
}

// A force was made: those whose Commits waited for it have ended.
fn end_all_that_wait(going: &mut [Going; 64], waits: &mut [bool; 64]) {
    for place in 0..PLACES {
        if waits[place] {
            going[place].number = 0;
            waits[place] = false;
        }
    }
}
