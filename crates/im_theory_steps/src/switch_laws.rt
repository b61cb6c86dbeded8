//! What a Switch leaves.

ghost use Rattle.im_theory_steps.specs.Switching.{SwitchesAreServed};

use im_theory_log::logs::PageTree;

/// A log goes on empty where no transaction is active: the empty one serves over what the old one made.
pub fn switches_are_served<T: PageTree>()
    ensures { SwitchesAreServed T.tree }
{}
