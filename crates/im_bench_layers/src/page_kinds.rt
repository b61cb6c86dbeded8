//! What the pages of a store are for.

use anyhow::Result;
use im_base_types::{PageKind, PageNo};

/// How many pages are for what.
#[derive(Clone, Copy, Default)]
pub struct Kinds {
    pub leaves: u64,
    pub inner: u64,
    /// The greatest number of a page that is in the tree.
    pub last: u32,
    /// The level of the root.
    pub level: u8,
}

impl Kinds {
    /// A page is of this kind.
    pub fn add(&mut self, page: PageNo, kind: PageKind) {
        match kind {
            PageKind::Leaf => {
                self.leaves = self.leaves.wrapping_add(1);
                self.last = page;
            }
            PageKind::Inner => {
                self.inner = self.inner.wrapping_add(1);
                self.last = page;
            }
            PageKind::Free | PageKind::Meta => {}
        }
    }
}

/// Their line.
pub fn show_kinds(rt: &HostRuntime, kinds: Kinds) -> Result<()> {
    println!(rt;
        "  tree: leaves {}, inner {}, level {}, last page {}",
        kinds.leaves, kinds.inner, kinds.level, kinds.last
    )?;
    Ok(())
}
