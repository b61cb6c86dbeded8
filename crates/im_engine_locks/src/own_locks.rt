//! The locks of one owner.

ghost use Rattle.std.specs.Prelude.{◌≡◌, map};
ghost use Rattle.im_engine_locks.specs.Index.{seen};
ghost use Rattle.im_engine_locks.specs.Places.{list_in};
ghost use Rattle.im_engine_locks.specs.Owned.{held_in};

use crate::place::Span;
use crate::stored_lock::StoredLock;

/// The locks of one owner: those that last until they are released, and those that fall back where its structure change ends.
/// One that falls and was asked to commit too stands in both.
#[derive(Drop)]
pub struct OwnLocks {
    pub lasting: Vec<StoredLock>,
    pub falling: Vec<StoredLock>,
}

impl OwnLocks {
    /// One of the two lists.
    pub fn list(&self, span: Span) -> &[StoredLock]
        ensures { map seen result.now ≡ list_in (held_in self.now) span }
    {
        match span {
            Span::Lasting => self.lasting.as_slice(),
            Span::Falling => self.falling.as_slice(),
        }
    }
}
