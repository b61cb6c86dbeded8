//! A stop of a model disk.

/// How long each file is after a stop.
#[derive(Clone, Copy, Debug, PartialEq, Eq)]
pub enum Length {
    /// Its greatest written end.
    Long,
    /// Its synced length.
    Short,
}

/// What stands at the places that are not as synced.
#[derive(Debug, Drop)]
pub enum Fill {
    /// What was written.
    Written,
    /// These bytes over and over, by place: byte o of the file is byte o mod n of these n. With none of them, 0.
    Bytes(Vec<u8>),
}

/// A stop within a device call.
#[derive(Debug, Drop)]
pub struct Stop {
    /// The call's number, from 1. One that is never reached stops nothing, and the disk is left as at the end.
    pub call: u64,
    /// How long each file is then.
    pub length: Length,
    /// What stands at the places that are not as synced.
    pub fill: Fill,
}
