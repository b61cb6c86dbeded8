//! The law of effects as users see them.

ghost use Rattle.im_theory_log.specs.LifeLaws.{SeenEffectsAgree};

/// A drop's row id is for undo alone: effects as users see them make the same map.
pub fn seen_effects_agree()
    ensures { SeenEffectsAgree }
{}
