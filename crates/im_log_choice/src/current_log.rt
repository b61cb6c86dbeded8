//! How the choice of the current log goes on.

ghost use Rattle.im_log_choice.specs.Laws.{ChoicesSwitch, StopsHaveOne};

/// There is at most one current log; it stays where the other becomes no newer, and turns where the other is of the next generation. Each
/// stop while a log goes on leaves the one log or the other as the current one. A law, and nothing that runs.
pub fn choices_switch()
    ensures choices { ChoicesSwitch }
    ensures stops { StopsHaveOne }
{}
