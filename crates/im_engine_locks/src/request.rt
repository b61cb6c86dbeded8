//! What a step asks of the lock table.

use crate::name::Name;
use im_theory_machine::{Duration, Mode};

/// One lock that a step asks.
#[derive(Clone, Copy, Debug)]
pub struct Request<'a> {
    pub name: Name<'a>,
    pub mode: Mode,
    pub duration: Duration,
}
