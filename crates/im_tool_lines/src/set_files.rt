//! What the lines of a script set before its first life.

ghost use Rattle.std.specs.Prelude.{◌≡◌, []};
ghost use Rattle.im_base_disk.specs.Disk.{both};
ghost use Rattle.im_tool_lines.specs.Scripts.{with_file};
ghost use Rattle.im_tool_lines.specs.SetFiles.{files_of};

use im_base_types::FileId;
use std::alloc::Global;

/// The bytes of each file, none where no line sets it.
#[derive(Drop)]
pub(crate) struct SetFiles {
    pub(crate) log: Vec<u8>,
    pub(crate) pages: Vec<u8>,
    pub(crate) log2: Vec<u8>,
}

impl SetFiles {
    /// No line was read.
    pub(crate) fn new(alloc: Global) -> SetFiles
        ensures { files_of result ≡ both [] [] }
    {
        SetFiles {
            log: Vec::new(alloc),
            pages: Vec::new(alloc),
            log2: Vec::new(alloc),
        }
    }

    /// Sets a file, in the place of what another line has set.
    pub(crate) fn set(&mut self, file: FileId, bytes: Vec<u8>)
        ensures { files_of self.new ≡ with_file file bytes.items (files_of self.old) }
    {
        match file {
            FileId::Log => self.log = bytes,
            FileId::Pages => self.pages = bytes,
            FileId::Log2 => self.log2 = bytes,
        }
    }
}
