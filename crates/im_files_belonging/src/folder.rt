//! What is read of the files of a folder.

/// So many bytes of a log say what it is: up to the number of the transaction that the first record of the second format is of, and with it.
pub const FRONT: usize = 65;

/// So many bytes of page 0 say its LSN and the page count.
pub const FIRST_BYTES: usize = 28;

/// The beginning of a log.
#[repr(C)]
#[derive(Clone, Copy)]
pub struct Front {
    /// How many bytes the file has.
    pub long: u64,
    /// The first of them, zeros where it has no more.
    pub bytes: [u8; 65],
    /// The folder has the file.
    pub is_there: bool,
}

impl Front {
    /// No file.
    pub const NONE: Front = Front {
        long: 0,
        bytes: [0; 65],
        is_there: false,
    };
}

/// The beginning of the file of pages.
#[repr(C)]
#[derive(Clone, Copy)]
pub struct PagesFront {
    /// How many bytes the file has.
    pub long: u64,
    /// The first bytes of page 0, zeros where there is no whole page.
    pub bytes: [u8; 28],
    /// The folder has the file.
    pub is_there: bool,
}

impl PagesFront {
    /// No file.
    pub const NONE: PagesFront = PagesFront {
        long: 0,
        bytes: [0; 28],
        is_there: false,
    };
}

/// The files of a folder, in the order that C gives to these fields.
#[repr(C)]
#[derive(Clone, Copy)]
pub struct Folder {
    /// The beginning of `log`.
    pub log: Front,
    /// The beginning of `log2`.
    pub log2: Front,
    /// The beginning of `pages`.
    pub pages: PagesFront,
    /// It has a `log.part`: a copy into this folder was not finished.
    pub has_part: bool,
}
