//! Is what an opening found allowed? Are these the answers of a life in which a call failed?
//!
//! `effects_asked` reads off a life's lines and replies which effects it asked, as the definition of lives shows them (`shown_by_lines`). `is_allowed` says
//! whether the entries that an opening found are those of a front of these effects, with all that were acknowledged (`IsAllowed`): it keeps a plain
//! ordered list of entries, and knows nothing of pages or logs. `is_good` judges also an opening that was refused (`IsGood`).
//!
//! `is_disturbed` judges the answers of a life in which a device call, a read or a length call fails by those of the same life undisturbed
//! (`IsDisturbed`): it answers as undisturbed up to a refusal by the device, which comes just where one failed, and after that as an engine that has failed.
//!
//! This crate knows lines and answers alone, and no engine.
#![tactic(auto)]

mod change;
mod disturbed;
mod happened;
mod judge;
mod same_replies;
mod showing;
mod sorted;

pub use change::{AskedEffect, Change};
pub use disturbed::is_disturbed;
pub use judge::{is_allowed, is_good, is_passed_over};
pub use showing::effects_asked;
