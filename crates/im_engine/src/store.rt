//! An engine is a store that a front can share among threads, over any disk: what follows from its lives is claimed over a disk that
//! tells what it holds, and of any that its replies suit their steps and its table counts its transactions.

use crate::accesses::told_look;
use crate::engine::Engine;
use im_base_steps::{Reply, Step};
use im_base_two_logs::TwoLogs;
use im_base_types::{Fault, Key, Rid};
use im_theory_store_trait::Store;
use std::alloc::Global;

impl<D: TwoLogs + Drop> Store for Engine<D> {
    ghost use Rattle.std.specs.Prelude.{◌≡◌, true, length};
    ghost use Rattle.im_base_txn.specs.Rows.{waiting_in};
    ghost use Rattle.im_base_txn.proofs.LookUps.{few_waiting};
    ghost use Rattle.im_engine.specs.Told.{IsStep};
    ghost use Rattle.im_engine.specs.Serves.{IsStoreLife, Leaves, IsRefused, WasLookedAt, stops_keep, settled};

    ghost tells = { D.tells };

    ghost life = { λ before s v e. IsStoreLife D.Disk before s v e };

    ghost leaves = { λ e P. Leaves D.Disk e P };

    ghost actives = { λ e. length e.txns.rows };

    ghost waiting = { λ e. waiting_in e.txns.rows };

    ghost refuses = { λ old new fault. IsRefused D.Disk old new fault };

    ghost looked = { λ old new. WasLookedAt D.Disk old new };

    ghost broken = { λ e. e.failed ≡ true };

    ghost made = { λ old step reply new. IsStep D.Disk step reply old new };

    fn step(&mut self, step: &Step) -> Reply {
        self.txns.law_are_counted();
        let reply = Engine::step(self, step);
        self.txns.law_are_counted();
        reply
    }

    fn entries(&mut self, alloc: Global) -> Result<Vec<(Key, Rid)>, Fault> {
        match Engine::entries(self, alloc) {
            Ok(list) => Ok(list),
            Err(fault) => Err(told_look(fault)),
        }
    }

    fn active(&self) -> usize {
        Engine::active(self)
    }

    fn failed(&self) -> bool {
        Engine::failed(self)
    }

    ghost few = { λ e. few_waiting e.txns.rows };

    ghost stops = { λ before s v e h. stops_keep before s v e h };

    ghost settles = { λ before s v e h works none. settled before s v e h works none };
}
