//! The questions that were asked, which only proofs read.
ghost use Rattle.std.specs.Prelude.{◌≡◌, List, [], ◌∷◌};
ghost use Rattle.std.specs.Borrow.{ftrue};
ghost use Rattle.im_files_caller_disk.specs.Questions.{Question};

use std::marker::Model;

/// Each question that was asked of a caller, the last one first: its four numbers, and the bytes that come after it. Clauses read them as `asked`. It has no bytes,
/// and its methods do nothing at run time.
#[derive(Drop)]
pub struct Line {
    pub ghost asked: { List Question },
}

impl Model for Line {
    ghost also_owns = { λ _. ftrue };
}

// It owns nothing.
unsafe impl Send for Line {}

impl Line {
    /// No question.
    pub(crate) fn new() -> Line
        ensures { result.asked ≡ [] }
    {
        Line {}
    }

    /// One question more, by its numbers.
    pub(crate) fn note(&mut self, _numbers: &[u64], _bytes: &[u8])
        ensures { self.new.asked ≡ (_numbers.now, _bytes.now) ∷ self.old.asked }
    {}
}
