//! What was found of the two logs.

ghost use Rattle.std.specs.Prelude.{◌↔◌, IsTrue};
ghost use Rattle.im_log_choice.specs.Found.{SaysFirst, StartsFirst};

use im_log_header::LogStart;

// Where the first format has its first gate, in bytes.
const FIRST_GATE: u64 = 31;

/// Where each of the two logs starts, by the names that they have now: none of one that is not made.
#[derive(Clone, Copy)]
pub struct Logs {
    /// The current one.
    pub log: Option<LogStart>,
    /// The other one.
    pub other: Option<LogStart>,
    /// They have changed names: the current one is the file that lay as `Log2`.
    pub is_swapped: bool,
}

// Whether it is a log of the first format.
fn is_first(found: &Option<LogStart>) -> bool
    ensures { IsTrue result ↔ StartsFirst found.now }
{
    match found {
        Some(start) => start.first_gate == FIRST_GATE,
        None => false,
    }
}

impl Logs {
    /// Whether one of the two is a log of the first format.
    pub fn has_first_format(&self) -> bool
        ensures { IsTrue result ↔ SaysFirst self.now }
    {
        let log = is_first(&self.log);
        if log {
            return true;
        }
        is_first(&self.other)
    }
}
