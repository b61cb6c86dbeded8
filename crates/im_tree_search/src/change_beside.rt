//! A structure change under way, as others have to see it.

use im_base_types::PageNo;

/// A structure change under way beside a search: the pages of its plan, how many of them are made, and how many pages the store had before
/// it. A page of the plan that is made shows what the change will leave, so that a search goes on over the other pages alone.
#[derive(Clone, Copy)]
pub struct Beside<'a> {
    pub(crate) pages: &'a [PageNo],
    pub(crate) done: usize,
    pub(crate) count: PageNo,
}
