//! How far each file is copied.
ghost use Rattle.std.specs.Prelude.{◌≡◌, ◌≢◌, true};
ghost use Rattle.im_base_two_logs.specs.Renamed.{file_named};
ghost use Rattle.im_base_types.specs.declared.file_id.FileId.{FileId};
ghost use Rattle.im_base_mirror_disk.specs.Marks.{mark_of};

use im_base_types::FileId;

/// How many bytes of each file are copied.
#[derive(Clone, Copy)]
pub struct Marks {
    pub log: u64,
    pub pages: u64,
    pub log2: u64,
}

impl Marks {
    /// Nothing is copied.
    pub fn none() -> Marks
        ensures { (file : FileId) → mark_of result file ≡ 0 }
    {
        Marks {
            log: 0,
            pages: 0,
            log2: 0,
        }
    }

    /// That of a file.
    pub fn of(self, file: FileId) -> u64
        ensures { result ≡ mark_of self file }
    {
        match file {
            FileId::Log => self.log,
            FileId::Pages => self.pages,
            FileId::Log2 => self.log2,
        }
    }

    /// With another one of a file.
    pub fn with(self, file: FileId, mark: u64) -> Marks
        ensures here { mark_of result file ≡ mark }
        ensures others { (other : FileId) → other ≢ file → mark_of result other ≡ mark_of self other }
    {
        match file {
            FileId::Log => Marks {
                log: mark,
                pages: self.pages,
                log2: self.log2,
            },
            FileId::Pages => Marks {
                log: self.log,
                pages: mark,
                log2: self.log2,
            },
            FileId::Log2 => Marks {
                log: self.log,
                pages: self.pages,
                log2: mark,
            },
        }
    }

    /// With those of the two logs changed.
    pub fn swapped(self) -> Marks
        ensures { (file : FileId) → mark_of result file ≡ mark_of self (file_named true file) }
    {
        Marks {
            log: self.log2,
            pages: self.pages,
            log2: self.log,
        }
    }
}
