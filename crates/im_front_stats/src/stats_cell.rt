//! The cell. Word 0 is the version; the three counts follow.

ghost use Rattle.std.specs.Prelude.{◌≡◌, true, false, ◌+◌, ◌%◌, ◌<◌, ◌^◌, [], length, IfOk, IfSome, IfNone};
ghost use Rattle.crossbeam_utils.specs.declared.atomic.seq_cell.Stage.TheVariants.{Writing};
ghost use Rattle.crossbeam_utils.specs.Seq.{Gathered, Stays, IsSamePass, cell_view};
ghost use Rattle.im_front_stats.specs.Counts.{writer, reader, nothing, IsSound, NoLess, Loaded, StoresCounts};

use crate::version_rule::{Check, Cut, Known, Law, Lock, Look, Pass, Peek, Publish, Put};
use atomic_table::Table;
use crossbeam_utils::Backoff;
use crossbeam_utils::atomic::seq_cell::{Doing, Versions};
use std::alloc::{AllocError, Global};
use std::sync::Wait;

/// Three counts: how many transactions were started, committed and rolled back, in this order.
#[derive(Drop)]
pub struct StatsCell {
    table: Table<[u64; 3], Doing<[u64; 3], Known>, (), Versions<Law, 3>, Global>,
    ghost wide: { table.shared.table_id.words ≡ 4 },
}

impl StatsCell {
    /// A cell of three zeros, and the pass of its one writer.
    pub fn new(alloc: Global) -> Result<(StatsCell, Pass), AllocError>
        ensures of_cell { IfOk result (λ c. (c.1.table_id ≡ c.0.table.shared.table_id) × (c.1.me.1 ≡ [])) }
        ensures writes { IfOk result (λ c. cell_view c.1 ≡ writer nothing) }
    {
        let mut words = Vec::new(alloc);
        words.extend_from_slice(&[0u64, 0, 0, 0])?;
        let (table, pass) = Table::of_words(alloc, words.as_slice(), &())?;
        Ok((StatsCell { table }, pass))
    }

    /// A pass that reads, and has seen what the other pass has. It takes no runtime and no memory.
    pub fn reader(&self, pass: &mut Pass) -> Pass
        requires { pass.old.table_id ≡ self.now.table.shared.table_id }
        ensures kept { IsSamePass pass.old pass.new × (cell_view pass.new ≡ cell_view pass.old) }
        ensures of_cell { result.table_id ≡ pass.old.table_id }
        ensures reads { cell_view result ≡ reader (cell_view pass.old).seen }
    {
        self.table.shared.split_seat::<Cut>(pass)
    }

    /// Reads the counts, all of one moment; `None` where the writer stored meanwhile. It takes no lock and never waits.
    pub fn try_load(&self, pass: &mut Pass) -> Option<[u64; 3]>
        requires cell { pass.old.table_id ≡ self.now.table.shared.table_id }
        requires reads { (cell_view pass.old).writes ≡ false }
        ensures cell { IsSamePass pass.old pass.new }
        ensures some { IfSome result (λ counts. (length counts ≡ 3) × Loaded (cell_view pass.old) counts counts (cell_view pass.new)) }
        ensures none { IfNone result (cell_view pass.new ≡ cell_view pass.old) }
    {
        let version = self.table.shared.load::<Look>(pass, 0);
        if version % 2 != 0 {
            return None;
        }
        let bits = self.gather(pass);
        if self.table.shared.load::<Check>(pass, 0) == version {
            Some(bits)
        } else {
            None
        }
    }

    /// Stores counts that are sound and do not fall. Only the writer's pass may, and after it knows just these.
    pub fn store<R: Wait>(&self, rt: &R, pass: &mut Pass, counts: [u64; 3])
        requires cell { pass.old.table_id ≡ self.now.table.shared.table_id }
        requires whole { length counts ≡ 3 }
        requires writes { (cell_view pass.old).writes ≡ true }
        requires sound { IsSound counts }
        requires rises { NoLess (cell_view pass.old).seen counts }
        ensures cell { IsSamePass pass.old pass.new }
        ensures wrote { cell_view pass.new ≡ writer counts }
    {
        let (version, old) = self.lock(rt, pass, counts);
        self.publish(pass, version, old, counts);
    }

    // Reads the three words, between two looks at the version.
    fn gather(&self, pass: &mut Pass) -> [u64; 3]
        requires { pass.old.table_id ≡ self.now.table.shared.table_id }
        ensures { Stays pass.old pass.new × (length result ≡ 3) × Gathered (λ x. x) 3 result pass.old.me.0.stage pass.new.me.0.stage }
    {
        let mut bits = [0u64; 3];
        for i in 0..3 {
            bits[i] = self.table.shared.load::<Peek>(pass, i + 1);
        }
        bits
    }

    // Makes the version odd. There is one writer, so the first round does it.
    fn lock<R: Wait>(&self, rt: &R, pass: &mut Pass, new: [u64; 3]) -> (u64, [u64; 3])
        requires cell { pass.old.table_id ≡ self.now.table.shared.table_id }
        requires whole { length new ≡ 3 }
        ensures { Stays pass.old pass.new × (pass.new.me.0.stage ≡ Writing result.0 result.1 new 0) × (0 < result.0) × (result.0 + 1 < 2 ^ 64) }
    {
        let backoff = Backoff::new();
        for _ in rt.forever() {
            let version = self.table.shared.load::<Look>(pass, 0);
            if version % 2 == 0 && version < u64::MAX - 1 {
                let odd = version + 1;
                let found = self
                    .table
                    .shared
                    .compare_exchange_with::<Lock>(pass, 0, version, odd, &new);
                if found == version {
                    return (odd, self.gather(pass));
                }
            }
            backoff.snooze();
        }
        unreachable!()
    }

    // Writes the words, and makes the version even again.
    fn publish(&self, pass: &mut Pass, version: u64, old: [u64; 3], new: [u64; 3])
        requires cell { pass.old.table_id ≡ self.now.table.shared.table_id }
        requires locked { (pass.old.me.0.stage ≡ Writing version old new 0) × (version + 1 < 2 ^ 64) × (length new ≡ 3) }
        requires writes { ((cell_view pass.old).writes ≡ true) × IsSound new × NoLess (cell_view pass.old).seen new }
        ensures cell { IsSamePass pass.old pass.new }
        ensures rule { StoresCounts (cell_view pass.old) old new (cell_view pass.new) }
    {
        for i in 0..3 {
            self.table.shared.store::<Put>(pass, i + 1, new[i]);
        }
        self.table.shared.store::<Publish>(pass, 0, version + 1);
    }
}
