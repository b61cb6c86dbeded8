//! What a life over the gate alone answers.

use im_base_types::Fault;

/// What an opening answers.
#[derive(Clone, Copy, Debug, PartialEq, Eq)]
pub enum Opening {
    /// It is open, after so many device calls.
    Open(u64),
    /// It was refused.
    Refused(Fault),
    /// The stop fell into it.
    Stopped,
}

/// What a line of a life over the gate alone answers.
#[derive(Clone, Copy, Debug, PartialEq, Eq)]
pub enum RawReply {
    /// The batch is on the disk.
    Put,
    /// The device calls so far.
    Calls(u64),
    /// The batch was refused. It may be on the disk or not.
    Refused(Fault),
    /// The stop fell into it. The life's other lines answer nothing.
    Stopped,
}

/// What a life answers.
#[derive(Debug, Drop)]
pub struct LifeAnswers {
    /// Its opening.
    pub opening: Opening,
    /// One reply for each of its lines, as far as it came.
    pub replies: Vec<RawReply>,
}
