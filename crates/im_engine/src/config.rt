//! How an engine is opened.

ghost use Rattle.std.specs.Prelude.{◌≡◌, ◌<◌, ◌≤◌, ◌⊎◌, ◌↔◌, false, IfSome, IsSomeAnd};
ghost use Rattle.im_base_types.specs.declared.fault.Fault.TheVariants.{PoolSize, Workers};

use crate::buffer_size::BufferSize;
use crate::more_frames::MoreFrames;
use im_base_types::{Fault, LEAST_FRAMES, MOST_FRAMES};

/// The most workers of an opening.
pub const MOST_WORKERS: usize = 16;

/// The limits of an engine.
#[derive(Clone, Copy)]
pub struct Config {
    /// The frames of the pool, 8 to 1,024, beside those of `more`.
    pub frames: usize,
    /// How many frames more the pool has, so that a store above 4 MiB can be held in memory: all that is promised holds for each number of them.
    pub more: MoreFrames,
    /// The most pages.
    pub max_pages: u32,
    /// How many batches the log's buffer holds: they share one force, which comes where the next record finds no room, or is asked for.
    pub buffer: BufferSize,
    /// Whether a structure change is made page by page, so that other transactions go on between two of its pages: an Insert or a Delete that needs one is
    /// then answered `More`, and each Continue of its transaction goes on with it.
    pub stepped: bool,
    /// Whether the last leaf of the tree, where it is split, keeps nearly all of its room and not half: keys that rise then leave leaves that are full.
    pub dense: bool,
    /// Whether a Commit waits for a force: it is answered `More`, and the next `Force` commits all that wait.
    pub group: bool,
    /// How many workers share the redo of an opening, 1 to 16.
    pub workers: usize,
}

impl Default for Config {
    fn default() -> Self
        ensures frames { result.frames ≡ 64 }
        ensures more { result.more.frames ≡ 0 }
        ensures pages { result.max_pages ≡ 1000000 }
        ensures buffer { result.buffer.batches ≡ 1 }
        ensures stepped { result.stepped ≡ false }
        ensures dense { result.dense ≡ false }
        ensures group { result.group ≡ false }
        ensures workers { result.workers ≡ 1 }
    {
        Config {
            frames: 64,
            more: MoreFrames::NONE,
            max_pages: 1_000_000,
            buffer: BufferSize::ONE,
            stepped: false,
            dense: false,
            group: false,
            workers: 1,
        }
    }
}

impl Config {
    /// Why an opening with it is refused before anything is read, if it is: `PoolSize` where the frames are not 8 to 1,024, and after that `Workers`
    /// where the workers are not 1 to 16.
    pub fn refusal(&self) -> Option<Fault>
        ensures frames { IsSomeAnd result (λ e. e ≡ PoolSize) ↔ ((self.now.frames < 8) ⊎ (1024 < self.now.frames)) }
        ensures workers { IsSomeAnd result (λ e. e ≡ Workers) ↔ ((8 ≤ self.now.frames) × (self.now.frames ≤ 1024)) × ((self.now.workers < 1) ⊎ (16 < self.now.workers)) }
        ensures causes { IfSome result (λ e. (e ≡ PoolSize) ⊎ (e ≡ Workers)) }
    {
        if self.frames < LEAST_FRAMES || self.frames > MOST_FRAMES {
            return Some(Fault::PoolSize);
        }
        if self.workers < 1 || self.workers > MOST_WORKERS {
            return Some(Fault::Workers);
        }
        None
    }
}
