//! How many batches the log's buffer holds.

ghost use Rattle.std.specs.Prelude.{◌≡◌, ◌≤◌, ◌↔◌, IfSome, IsSome};

/// How many batches a buffer holds at most.
const MOST_BATCHES: usize = 64;

/// How many batches of records the log's buffer holds, 1 to 64: so many wait for one force, which puts them all.
#[derive(Clone, Copy, Debug, PartialEq, Eq)]
pub struct BufferSize {
    batches: usize,
    pub ghost few: { (1 ≤ batches) × (batches ≤ 64) },
}

impl BufferSize {
    /// A buffer of one batch.
    pub const ONE: BufferSize = BufferSize { batches: 1 };

    /// What a program takes whose store is kept in files, where a sync costs most.
    pub const OVER_FILES: BufferSize = BufferSize { batches: 32 };

    /// A buffer of so many batches, where they are 1 to 64.
    pub fn new(batches: usize) -> Option<BufferSize>
        ensures same { IfSome result (λ size. size.batches ≡ batches) }
        ensures taken { IsSome result ↔ ((1 ≤ batches) × (batches ≤ 64)) }
    {
        if batches < 1 || batches > MOST_BATCHES {
            return None;
        }
        Some(BufferSize { batches })
    }

    /// How many batches it holds.
    pub fn batches(self) -> usize
        ensures same { result ≡ self.batches }
        ensures range { (1 ≤ result) × (result ≤ 64) }
    {
        self.batches
    }
}
