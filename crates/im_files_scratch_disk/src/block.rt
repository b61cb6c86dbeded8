//! The blocks in which lies what was written to a file.

use im_base_types::{FileId, PAGE_SIZE};
use std::alloc::Global;
use std::collections::BTreeMap;

/// How many bytes are kept together.
const BLOCK: u64 = PAGE_SIZE as u64;

/// What was written to a file.
#[derive(Drop)]
pub(crate) struct Written {
    /// The blocks in which it lies, each whole, by their numbers.
    pub(crate) blocks: BTreeMap<u64, Vec<u8>>,
    /// The greatest end.
    pub(crate) end: u64,
}

impl Written {
    fn new(alloc: Global) -> Written {
        Written {
            blocks: BTreeMap::new(alloc),
            end: 0,
        }
    }
}

/// What was written to each file.
#[derive(Drop)]
pub(crate) struct Over {
    log: Written,
    pages: Written,
    log2: Written,
}

impl Over {
    pub(crate) fn new(alloc: Global) -> Over {
        Over {
            log: Written::new(alloc),
            pages: Written::new(alloc),
            log2: Written::new(alloc),
        }
    }

    pub(crate) fn of(&self, file: FileId) -> &Written {
        match file {
            FileId::Log => &self.log,
            FileId::Pages => &self.pages,
            FileId::Log2 => &self.log2,
        }
    }

    pub(crate) fn of_mut(&mut self, file: FileId) -> &mut Written {
        match file {
            FileId::Log => &mut self.log,
            FileId::Pages => &mut self.pages,
            FileId::Log2 => &mut self.log2,
        }
    }
}

/// The number of the block in which a byte lies.
pub(crate) fn first_block(at: u64) -> u64 {
    at / BLOCK
}

/// The number after that of the last block in which so many bytes from a place on lie.
pub(crate) fn end_block(at: u64, size: usize) -> u64 {
    at.saturating_add(size as u64).div_ceil(BLOCK)
}

/// The place of the first byte of a block.
pub(crate) fn place_of(number: u64) -> u64 {
    number.saturating_mul(BLOCK)
}

/// Lays bytes that begin at a place over those that begin at another, as far as both go.
pub(crate) fn lay(over: &mut [u8], at: u64, bytes: &[u8], place: u64) {
    let (Ok(skipped), Ok(passed)) = (
        usize::try_from(place.saturating_sub(at)),
        usize::try_from(at.saturating_sub(place)),
    ) else {
        return;
    };
    let (Some(over), Some(bytes)) = (over.get_mut(skipped..), bytes.get(passed..)) else {
        return;
    };
    let size = over.len().min(bytes.len());
    over[..size].copy_from_slice(&bytes[..size]);
}
