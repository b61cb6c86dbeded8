//! Transactions that are made again where they have to give way.

ghost use Rattle.std.specs.Prelude.{IfErr, IfOk};
ghost use Rattle.im_front.specs.Acknowledged.{IsSpent};
ghost use Rattle.im_front.specs.Writing.{IsBegun, IsTakenBack, CameToNothing, IsUnwritten, IsWritten};

use crate::callers::Behind;
use crate::line::Turn;
use crate::open::Open;
use crate::stop::Stop;
use im_base_steps::{Reply, Step};
use im_base_types::{Fault, TxnId};
use im_theory_store_trait::Store;
use std::sync::Wait;
use std::time::Clock;

impl<E: Store> Open<E> {
    /// Does work in a transaction, whose number it is handed, and commits it: it returns once all that the work did is durable. Where the transaction has to give
    /// way it is rolled back, and the work is done again in another one, until it comes through.
    ///
    /// A transaction that gave way waits until each older one has ended. Once it gave way four times nobody begins by `write` before it, until it has ended or was
    /// left alone for a tenth of a second; nor is anybody else waited for who was left alone so long. A `Begin` made by `call` passes by. Where as many are active
    /// as the store takes, it waits until one has ended. A `write` within the work of another is a transaction of its own: by a key that the outer one holds it never
    /// comes through.
    ///
    /// An `Ok` is what the work answered last. Refused as the work stopped, or as a step of it was, once the transaction is rolled back; `Device` or `Failed` where
    /// the store has failed: whether it is committed shows when it is opened again.
    pub fn write<R: Wait + Clock, T: Drop, F: FnMut(TxnId) -> Result<T, Stop> + Drop>(
        &self,
        rt: &R,
        work: F,
    ) -> Result<T, Fault>
        requires { F.IsAlwaysCallable work }
        ensures written { IfOk result (λ x. IsWritten E.Store F.step x work) }
        ensures causes { IfErr result (IsUnwritten E.Store F.step) }
    {
        let mut work = work;
        let mut turn = self.come(rt);
        for _ in rt.forever() {
            let t = self.begin(rt, &turn)?;
            match work(t) {
                Ok(done) => match self.commit(rt, t) {
                    Ok(()) => {
                        self.leave(rt, &turn);
                        return Ok(done);
                    }
                    Err(Fault::MustRollBack) => self.take_back(rt, &turn, t)?,
                    Err(fault) => {
                        let _taken = self.take_back(rt, &turn, t);
                        self.leave(rt, &turn);
                        return Err(fault);
                    }
                },
                Err(Stop::GiveWay) => self.take_back(rt, &turn, t)?,
                Err(Stop::Refused(fault)) => {
                    self.take_back(rt, &turn, t)?;
                    self.leave(rt, &turn);
                    return Err(fault);
                }
            }
            turn = self.come_again(rt, &turn, t);
        }
        unreachable!()
    }

    // A turn.
    fn come<R: Wait>(&self, rt: &R) -> Turn {
        self.held.lock(rt).come()
    }

    // Begins a transaction, once it may.
    fn begin<R: Wait + Clock>(&self, rt: &R, turn: &Turn) -> Result<TxnId, Fault>
        ensures begun { IfOk result (λ t. IsBegun E.made t) }
        ensures causes { IfErr result (CameToNothing E.Store (IsSpent E.Store)) }
    {
        self.callers.come();
        let mut held = self.held.lock(rt);
        for _ in rt.forever() {
            if held.may_begin(turn) {
                let reply = held.step(rt, &Step::Begin);
                held.law_holds_always();
                self.callers.tell(&Step::Begin, &reply);
                match reply {
                    Reply::Started(t) => {
                        held.begin(turn, t);
                        self.callers.go(held.pace());
                        return Ok(t);
                    }
                    Reply::Refused(Fault::TooMany) => {}
                    Reply::Refused(fault) => {
                        held.leave(turn);
                        self.callers.go(held.pace());
                        return Err(fault);
                    }
                    _ => unreachable!(),
                }
            }
            let since = held.tick();
            let (next, is_over) = self.callers.sleep_in_line(rt, held);
            held = next;
            if is_over {
                held.pass(since);
            }
        }
        unreachable!()
    }

    // Rolls a transaction back whole.
    fn take_back<R: Wait>(&self, rt: &R, turn: &Turn, t: TxnId) -> Result<(), Fault>
        ensures taken { IfOk result (λ _. IsTakenBack E.made t) }
        ensures causes { IfErr result (CameToNothing E.Store (IsSpent E.Store)) }
    {
        let mut reply = self.call(rt, Step::Rollback(t));
        for _ in rt.forever() {
            match reply {
                Reply::RolledBack => return Ok(()),
                Reply::Refused(fault) => {
                    self.leave(rt, turn);
                    return Err(fault);
                }
                _ => reply = self.call(rt, Step::Continue(t)),
            }
        }
        unreachable!()
    }

    // The turn after a transaction that gave way.
    fn come_again<R: Wait>(&self, rt: &R, turn: &Turn, t: TxnId) -> Turn {
        let mut held = self.held.lock(rt);
        self.callers.wake_line();
        held.come_again(turn, t)
    }

    // One with this turn goes: where it was first, those that wait look again.
    fn leave<R: Wait>(&self, rt: &R, turn: &Turn) {
        if turn.is_patient() {
            let mut held = self.held.lock(rt);
            held.leave(turn);
            self.callers.wake_line();
        }
    }
}
