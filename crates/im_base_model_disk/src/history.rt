//! A history that only proofs read.
ghost use Rattle.std.specs.Prelude.{◌≡◌, List, [], ◌∷◌, ◌++◌};
ghost use Rattle.std.specs.Borrow.{ftrue};
ghost use Rattle.im_base_model_disk.specs.declared.model_file.ModelFile.{ModelFile};

use crate::ModelFile;
use std::marker::Model;

/// The files as they stood before each device call, the first call first. Clauses read it as
/// `moments`. It has no bytes, and its methods do nothing at run time.
#[derive(Drop)]
pub struct History {
    pub ghost moments: { List (ModelFile × ModelFile × ModelFile) },
}

impl Model for History {
    ghost also_owns = { λ _. ftrue };
}

// It owns nothing.
unsafe impl Send for History {}

impl History {
    /// No moment.
    pub(crate) fn new() -> History
        ensures { result.moments ≡ [] }
    {
        History {}
    }

    /// One moment more.
    pub(crate) fn with(&self, _log: &ModelFile, _pages: &ModelFile, _log2: &ModelFile) -> History
        ensures { result.moments ≡ self.now.moments ++ (_log.now, _pages.now, _log2.now) ∷ [] }
    {
        History {}
    }
}
