//! The trait of a store.

ghost use Rattle.std.specs.Prelude.{◌≡◌, ◌≤◌, ◌↔◌, ℕ, List, true, false, ◌++◌, IfOk, IfErr};
ghost use Rattle.std.specs.FinMap.{empty, entries as entries_of};
ghost use Rattle.im_base_types.specs.Changes.{Effect, apply_all};
ghost use Rattle.im_base_types.specs.Lives.{Shown, Survives, effects, nothing_shown};
ghost use Rattle.im_theory_machine.specs.View.{View};
ghost use Rattle.im_theory_machine.specs.Machine.{start};
ghost use Rattle.im_base_types.specs.declared.fault.Fault as faults;
ghost use Rattle.im_base_steps.specs.declared.step.Step as steps;
ghost use Rattle.im_base_steps.specs.declared.reply.Reply as replies;
ghost use Rattle.im_base_steps.specs.Calls.{asked_by, told_by};
ghost use Rattle.im_base_steps.specs.Replies.{IsReply, IsCounted};
ghost use Rattle.im_theory_store_trait.specs.Store.{IsAlive, StepKept, LookKept};

use im_base_steps::{Reply, Step};
use im_base_types::{Fault, Key, Rid};
use std::alloc::Global;

/// A store of many transactions over one map, whose steps are those of the machine, and which a stop leaves with what it
/// acknowledged. That is claimed of a store that tells what it holds; of any store, that its replies suit its steps, and that
/// it counts its transactions.
pub trait Store: Drop {
    /// The premise of what follows from its lives: that it tells what it holds. A store over real files does not.
    ghost tells: { Type 0 };

    /// It goes on from these effects, has shown this since, and is this view of the machine.
    ghost life: { List Effect → Shown → View → Self → Type 0 };

    /// Whatever a stop now leaves stands for such effects.
    ghost leaves: { Self → (List Effect → Type 0) → Type 0 };

    /// How many transactions are active.
    ghost actives: { Self → ℕ };

    /// How many of them wait for a force, their Commit answered `More`.
    ghost waiting: { Self → ℕ };

    /// Why the entries are refused.
    ghost refuses: { Self → Self → faults.Fault → Type 0 };

    /// What a look at its entries makes of it.
    ghost looked: { Self → Self → Type 0 };

    /// An earlier call broke it.
    ghost broken: { Self → Type 0 };

    /// What a step with its reply makes of it.
    ghost made: { Self → steps.Step → replies.Reply → Self → Type 0 };

    /// Makes a step, and answers it.
    fn step(&mut self, step: &Step) -> Reply
        ensures kept { (before : List Effect) (s : Shown) (v : View) → life before s v self.old
            → StepKept life before s v (asked_by step.now) (told_by result) self.new }
        ensures reply { IsAlive life tells self.old → IsReply (asked_by step.now) (told_by result) }
        ensures counted { IsAlive life tells self.old → IsCounted (asked_by step.now) (told_by result) (waiting self.old) (actives self.old) (waiting self.new) (actives self.new) }
        ensures made { made self.old step.now result self.new };

    /// The entries of the map, those of active transactions included, in rising key order. A refusal may break the store.
    fn entries(&mut self, alloc: Global) -> Result<Vec<(Key, Rid)>, Fault>
        ensures list { IfOk result (λ list. (before : List Effect) (s : Shown) (v : View) → life before s v self.old
            → (list.items ≡ entries_of v.walk) × life before s v self.new) }
        ensures kept { IfErr result (λ fault. (before : List Effect) (s : Shown) (v : View) → life before s v self.old → LookKept life before s v self.new) }
        ensures cause { IfErr result (λ fault. refuses self.old self.new fault) }
        ensures looked { looked self.old self.new }
        ensures active { actives self.new ≡ actives self.old }
        ensures waiting { waiting self.new ≡ waiting self.old };

    /// How many transactions are active.
    fn active(&self) -> usize
        ensures count { result ≡ actives self.now }
        ensures machine { (before : List Effect) (s : Shown) (v : View) → life before s v self.now → result ≡ v.active };

    /// Whether an earlier call broke it.
    fn failed(&self) -> bool
        ensures told { result ≡ true ↔ broken self.now }
        ensures machine { (before : List Effect) (s : Shown) (v : View) → life before s v self.now → result ≡ v.failed };

    /// Who waits is active.
    ghost few: { (e : Self) → waiting e ≤ actives e };

    /// What was acknowledged survives a stop: it leaves a front of what was asked, with each acknowledged one.
    ghost stops: { (before : List Effect) (s : Shown) (v : View) (e : Self) → life before s v e → leaves e (λ after. Survives before s.asked after) };

    /// Where nothing is active and the store works, what was asked is committed, and a new life begins with it.
    ghost settles: { (before : List Effect) (s : Shown) (v : View) (e : Self) → life before s v e → v.failed ≡ false → v.active ≡ 0
        → (v.committed ≡ apply_all empty (before ++ effects s.asked)) × life (before ++ effects s.asked) nothing_shown (start v.committed v.next) e };
}
