//! A count that only proofs read.
ghost use Rattle.std.specs.Prelude.{◌≡◌, ◌+◌, ℕ};
ghost use Rattle.std.specs.Borrow.{ftrue};

use std::marker::Model;

/// How often something was done. Clauses read it as `count`. It has no bytes, and its methods do nothing at run time.
#[derive(Drop)]
pub struct Count {
    pub ghost count: { ℕ },
}

impl Model for Count {
    ghost also_owns = { λ _. ftrue };
}

// It owns nothing.
unsafe impl Send for Count {}

impl Count {
    /// None.
    pub fn new() -> Count
        ensures { result.count ≡ 0 }
    {
        Count {}
    }

    /// One more.
    pub fn with_one_more(&self) -> Count
        ensures { result.count ≡ self.now.count + 1 }
    {
        Count {}
    }
}
