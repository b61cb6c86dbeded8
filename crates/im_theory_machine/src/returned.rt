//! What a return within a transaction leaves.

ghost use Rattle.std.specs.Prelude.{ℕ};
ghost use Rattle.im_base_types.specs.Maps.{IndexMap};
ghost use Rattle.im_theory_machine.specs.Returns.{ReturnsStand};

/// A transaction that returns to its first n changes keeps its locks and its story of them, whatever others do meanwhile, and has as many
/// changes as replies said so that still stand. It does nothing: its contract is the law.
pub fn returns_stand()
    ensures { (base : IndexMap) (next : ℕ) → ReturnsStand base next }
{}
