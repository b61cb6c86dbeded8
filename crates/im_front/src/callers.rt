//! Who is in a front: the callers that are awake, and those that sleep until a transaction or a structure change has ended or a force was made. No contract speaks
//! of who sleeps; it decides alone when a force is made, and by whom: by what a caller looks at (`Pace`), and by whether another one is awake.

ghost use Rattle.std.specs.Prelude.{◌≡◌, ◌<◌, ◌≤◌, ◌%◌, ◌⊎◌, ◌↔◌, true};

use im_base_steps::{Reply, Step};
use std::sync::atomic::{AtomicU64, Ordering};
use std::sync::{Condvar, MutexGuard, Wait};
use std::time::{Clock, Duration};

/// How many steps are made while transactions wait before one of them makes the force though others are awake.
const PATIENCE: u64 = 256;

/// How long one that waits to begin sleeps before it looks again, in thousandths of a second.
const SLICE: u64 = 10;

/// What a caller looks at before it lets go of the lock.
#[derive(Clone, Copy)]
pub(crate) struct Pace {
    /// How many transactions wait for a force.
    pub(crate) waiting: u64,
    /// How many steps were made since the first of them came to wait, its Commit among them.
    pub(crate) passed: u64,
    /// How many forces were made.
    pub(crate) forces: u64,
    /// Whether an earlier step broke the store.
    pub(crate) failed: bool,
}

impl Pace {
    // Whether they have waited for so many steps.
    fn is_long(self) -> bool
        ensures { result ≡ true ↔ ((0 < self.waiting) × (self.passed % 256 ≡ 0)) }
    {
        self.waiting > 0 && self.passed % PATIENCE == 0
    }

    // Whether one of those that wait for a force is woken, to make it.
    fn wants_one(self, is_alone: bool) -> bool
        ensures { result ≡ true ↔ ((0 < self.waiting) × ((self.passed % 256 ≡ 0) ⊎ (is_alone ≡ true))) }
    {
        self.waiting > 0 && (self.is_long() || is_alone)
    }

    // Whether one that waits since so many forces were made waits no longer: one was made, the store has failed, or it is to make one.
    fn is_due(self, forces: u64, is_alone: bool) -> bool
        ensures { result ≡ true ↔ ((forces < self.forces) ⊎ ((self.failed ≡ true) ⊎ ((256 ≤ self.passed) ⊎ (is_alone ≡ true)))) }
    {
        self.forces > forces || self.failed || self.passed >= PATIENCE || is_alone
    }
}

/// The value behind a lock.
pub(crate) trait Behind {
    fn pace(&self) -> Pace;
}

// A place to sleep in. Both numbers change under the lock alone.
#[derive(Drop)]
struct Room {
    door: Condvar,
    asleep: AtomicU64,
    calls: AtomicU64,
}

impl Room {
    fn new() -> Room {
        Room {
            door: Condvar::new(),
            asleep: AtomicU64::new(0),
            calls: AtomicU64::new(0),
        }
    }

    // Wakes all: they are awake from here on, though they have not run yet.
    fn wake_all(&self, awake: &AtomicU64) {
        let asleep = self.asleep.swap(0, Ordering::SeqCst);
        if asleep > 0 {
            awake.fetch_add(asleep, Ordering::SeqCst);
            self.calls.fetch_add(1, Ordering::SeqCst);
            self.door.notify_all();
        }
    }

    // Sleeps until it is woken. Who was not woken with all is awake from here on.
    fn sleep<'a, T, R: Wait>(
        &self,
        rt: &R,
        awake: &AtomicU64,
        held: MutexGuard<'a, T>,
    ) -> MutexGuard<'a, T> {
        let calls = self.lie_down(awake);
        let held = self.door.wait(rt, held);
        self.get_up(awake, calls);
        held
    }

    // Sleeps until it is woken, and no longer than a slice. Whether it slept so long.
    fn doze<'a, T, R: Wait + Clock>(
        &self,
        rt: &R,
        awake: &AtomicU64,
        held: MutexGuard<'a, T>,
    ) -> (MutexGuard<'a, T>, bool) {
        let calls = self.lie_down(awake);
        let (held, told) = self
            .door
            .wait_timeout(rt, held, Duration::from_millis(SLICE));
        self.get_up(awake, calls);
        (held, told.timed_out())
    }

    // One more sleeps. How often all were woken before.
    fn lie_down(&self, awake: &AtomicU64) -> u64 {
        self.asleep.fetch_add(1, Ordering::SeqCst);
        awake.fetch_sub(1, Ordering::SeqCst);
        self.calls.load(Ordering::SeqCst)
    }

    // One is awake again; where all were woken meanwhile it was counted then.
    fn get_up(&self, awake: &AtomicU64, calls: u64) {
        if self.calls.load(Ordering::SeqCst) == calls {
            self.asleep.fetch_sub(1, Ordering::SeqCst);
            awake.fetch_add(1, Ordering::SeqCst);
        }
    }
}

/// The callers of a front.
#[derive(Drop)]
pub(crate) struct Callers {
    // How many are in a call and do not sleep.
    awake: AtomicU64,
    // Who is blocked sleeps here until a transaction has ended, or a structure change may have.
    ended: Room,
    // Whose Commit waits sleeps here until a force was made.
    forced: Room,
    // Who waits to begin sleeps here until a transaction has ended.
    line: Room,
}

impl Callers {
    /// Nobody.
    pub(crate) fn new() -> Callers {
        Callers {
            awake: AtomicU64::new(0),
            ended: Room::new(),
            forced: Room::new(),
            line: Room::new(),
        }
    }

    /// A caller comes, before it takes the lock.
    pub(crate) fn come(&self) {
        self.awake.fetch_add(1, Ordering::SeqCst);
    }

    /// A caller goes, before it lets go of the lock.
    pub(crate) fn go(&self, pace: Pace) {
        self.nudge(pace);
        self.awake.fetch_sub(1, Ordering::SeqCst);
    }

    /// Wakes whom a step with its reply concerns: who was blocked, where a transaction has ended, or a structure change may have; and who waits
    /// for a force, where one was made or the store has failed.
    pub(crate) fn tell(&self, step: &Step, reply: &Reply) {
        if step.may_unblock(reply) {
            self.ended.wake_all(&self.awake);
            self.line.wake_all(&self.awake);
            if matches!(step, Step::Force) || matches!(reply, Reply::Refused(_)) {
                self.forced.wake_all(&self.awake);
            }
        }
    }

    /// Sleeps until a transaction may have ended, or a structure change.
    pub(crate) fn sleep_blocked<'a, T: Behind, R: Wait>(
        &self,
        rt: &R,
        held: MutexGuard<'a, T>,
    ) -> MutexGuard<'a, T> {
        self.nudge(held.pace());
        self.ended.sleep(rt, &self.awake, held)
    }

    /// Sleeps until a transaction may have ended, and no longer than a slice. Whether it slept so long.
    pub(crate) fn sleep_in_line<'a, T: Behind, R: Wait + Clock>(
        &self,
        rt: &R,
        held: MutexGuard<'a, T>,
    ) -> (MutexGuard<'a, T>, bool) {
        self.nudge(held.pace());
        self.line.doze(rt, &self.awake, held)
    }

    /// Wakes those that wait to begin.
    pub(crate) fn wake_line(&self) {
        self.line.wake_all(&self.awake);
    }

    /// Sleeps until more forces were made than so many, the store has failed, or it is this caller's turn to make one: where nobody else is
    /// awake, or those that wait have waited for long.
    pub(crate) fn sleep_until_due<'a, T: Behind, R: Wait>(
        &self,
        rt: &R,
        held: MutexGuard<'a, T>,
        forces: u64,
    ) -> MutexGuard<'a, T> {
        let mut held = held;
        for _ in rt.forever() {
            if held.pace().is_due(forces, self.is_alone()) {
                break;
            }
            held = self.forced.sleep(rt, &self.awake, held);
        }
        held
    }

    // Whether no other caller is awake.
    fn is_alone(&self) -> bool {
        self.awake.load(Ordering::SeqCst) <= 1
    }

    // The last one awake wakes one that waits for a force, to make it; so does who sees that they have waited for long.
    fn nudge(&self, pace: Pace) {
        if pace.wants_one(self.is_alone()) {
            self.forced.door.notify_one();
        }
    }
}
