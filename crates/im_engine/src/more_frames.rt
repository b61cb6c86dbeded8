//! How many frames more a pool has.

ghost use Rattle.std.specs.Prelude.{◌≡◌, ◌≤◌, ◌*◌, ◌↔◌, min, IfSome, IsSome};

/// How many frames more a pool has at most: with the 1,024 of `frames` they are 262,144, which take 1 GiB.
const MOST_MORE: usize = 261_120;

/// How many frames take a MiB.
const FRAMES_A_MIB: usize = 256;

/// How many MiB they take at most.
const MOST_MIB: u64 = 1_020;

/// Over how many pages a program has twice as many frames more, where nobody says how many: they take 64 MiB then.
const MOST_PAGES: u64 = 8_192;

/// How many frames a pool has beside those of `Config::frames`, 0 to 261,120. All of them are made when a store is opened, and each holds a page of 4 KiB.
#[derive(Clone, Copy, Debug, PartialEq, Eq)]
pub struct MoreFrames {
    frames: usize,
    pub ghost few: { frames ≤ 261120 },
}

impl MoreFrames {
    /// None more.
    pub const NONE: MoreFrames = MoreFrames { frames: 0 };

    /// So many frames more, where they are at most 261,120.
    pub fn new(frames: usize) -> Option<MoreFrames>
        ensures same { IfSome result (λ more. more.frames ≡ frames) }
        ensures taken { IsSome result ↔ (frames ≤ 261120) }
    {
        if frames > MOST_MORE {
            return None;
        }
        Some(MoreFrames { frames })
    }

    /// As many as take so many MiB, or 1,020 MiB where these are more.
    pub fn of_mib(mib: u64) -> MoreFrames
        ensures { result.frames ≡ min mib 1020 * 256 }
    {
        let most = mib.min(MOST_MIB) as usize;
        MoreFrames {
            frames: most * FRAMES_A_MIB,
        }
    }

    /// What a program takes over a file of so many pages where nobody says how many: twice as many as it has pages, and at most 64 MiB. So a small store
    /// takes little memory, and one that grows finds room.
    pub fn over_pages(pages: u64) -> MoreFrames
        ensures { result.frames ≡ min pages 8192 * 2 }
    {
        let most = pages.min(MOST_PAGES) as usize;
        MoreFrames { frames: most * 2 }
    }

    /// How many they are.
    pub fn frames(self) -> usize
        ensures same { result ≡ self.frames }
        ensures most { result ≤ 261120 }
    {
        self.frames
    }
}
