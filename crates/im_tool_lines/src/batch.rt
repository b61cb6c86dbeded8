//! A batch of a script.

ghost use Rattle.std.specs.Prelude.{◌≡◌, ◌≤◌, ◌<◌, ◌⊎◌, length, MatchOption};

use im_base_types::LONGEST_BATCH;

/// The bytes that one `put` line puts after a gate: 1 to 16,384.
#[derive(Debug, Drop)]
pub struct Batch {
    /// The bytes.
    pub records: Vec<u8>,
    ghost some: { 1 ≤ length records.items },
    ghost most: { length records.items ≤ 16384 },
}

impl Batch {
    /// These bytes as a batch; none where they are too few or too many.
    pub fn new(records: Vec<u8>) -> Option<Batch>
        ensures { MatchOption result ((length records.items ≡ 0) ⊎ (16384 < length records.items)) (λ batch. batch.records.items ≡ records.items) }
    {
        if records.is_empty() || records.len() > LONGEST_BATCH {
            return None;
        }
        Some(Batch { records })
    }
}
