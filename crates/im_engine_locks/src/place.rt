//! Where a lock stands.

ghost use Rattle.std.specs.Prelude.{◌≡◌};
ghost use Rattle.im_engine_locks.specs.Places.{is_place};

use im_base_types::TxnId;

/// In which of its owner's two lists a lock stands: of those that last until they are released, or of those that fall back where its
/// structure change ends.
#[derive(Clone, Copy, Debug, PartialEq, Eq)]
pub enum Span {
    Lasting,
    Falling,
}

/// Where a lock stands: in which list of which owner, and how many stand before it there.
#[derive(Clone, Copy, Debug)]
pub struct Place {
    pub owner: TxnId,
    pub span: Span,
    pub at: usize,
}

impl Place {
    /// Whether it is that place.
    pub fn is(&self, that: Place) -> bool
        ensures { result ≡ is_place self.now that.owner that.span that.at }
    {
        self.owner == that.owner && self.span == that.span && self.at == that.at
    }
}
