//! What a Continue of a store makes that makes its structure changes page by page.

ghost use Rattle.std.specs.Prelude.{◌≡◌, None, false, true};
ghost use Rattle.im_engine.specs.NextParts.{IsNextPart};

use crate::engine::Engine;
use crate::stepped::{Aim, Part, Under};
use im_base_disk::Disk;
use im_base_steps::Reply;
use im_base_types::TxnId;

// What a Continue of a transaction makes next.
fn next_part(under: &Option<Under>, t: TxnId) -> Part
    ensures { IsNextPart t under.now result }
{
    let Some(under) = under else {
        return Part::Other;
    };
    if under.begun.change().owner() != t {
        return Part::Other;
    }
    if under.begun.change().is_left() {
        return Part::Page;
    }
    match &under.aim {
        Aim::Puts(..) => Part::Insert,
        Aim::Drops(..) => Part::Delete,
        Aim::TakesBack => Part::Back(true),
        Aim::TookBack => Part::Back(false),
    }
}

impl<D: Disk> Engine<D> {
    ghost use Rattle.im_base_types.specs.Answers as answers;
    ghost use Rattle.im_theory_machine.specs.View.{owns_in};
    ghost use Rattle.im_theory_steps.specs.Checks.{checked_by};
    ghost use Rattle.im_engine.specs.Aims.{under_of};
    ghost use Rattle.im_engine.specs.Told.{IsMade};

    // Goes on with the structure change of a transaction, or takes back a change of it.
    pub(crate) fn go_on_stepped(&mut self, t: TxnId) -> Reply
        requires works { self.old.failed ≡ false }
        requires stepped { self.old.stepped ≡ true }
        requires checked { checked_by self.old.txns.rows (owns_in (under_of self.old.under) (answers.Continue t)) (answers.Continue t) ≡ None }
        ensures { IsMade D.Disk (answers.Continue t) result self.old self.new }
    {
        match next_part(&self.under, t) {
            Part::Other => self.take_back(t),
            Part::Page => self.log_page(t),
            Part::Insert => self.end_insert(t),
            Part::Delete => self.end_delete(t),
            Part::Back(splits) => self.end_back(t, splits),
        }
    }
}
