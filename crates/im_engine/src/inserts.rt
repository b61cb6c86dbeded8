//! Keys that come.

ghost use Rattle.std.specs.Prelude.{◌≡◌, None, false};

use crate::accesses::as_seen;
use crate::engine::Engine;
use im_base_disk::Disk;
use im_base_steps::Reply;
use im_base_types::{Fault, Rid, TxnId};

impl<D: Disk> Engine<D> {
    ghost use Rattle.im_base_types.specs.Answers as answers;
    ghost use Rattle.im_theory_machine.specs.View.{owns_in};
    ghost use Rattle.im_theory_steps.specs.Checks.{checked_by};
    ghost use Rattle.im_engine.specs.Aims.{under_of};
    ghost use Rattle.im_engine.specs.Told.{IsMade};

    // Puts a key with its row id: with the split of its leaf, where one is wanted, or only with that split's first page.
    pub(crate) fn insert(&mut self, t: TxnId, key: &[u8], rid: Rid) -> Reply
        requires works { self.old.failed ≡ false }
        requires checked { checked_by self.old.txns.rows (owns_in (under_of self.old.under) (answers.Do t (answers.Insert key.now rid))) (answers.Do t (answers.Insert key.now rid)) ≡ None }
        ensures { IsMade D.Disk (answers.Do t (answers.Insert key.now rid)) result self.old self.new }
    {
        if self.stepped {
            self.insert_stepped(t, key, rid)
        } else {
            self.insert_at_once(t, key, rid)
        }
    }

    // Puts a key with its row id (`inserts_are_served`), after the split of its leaf where that lacks room. For want of pages, or of memory
    // before its locks are granted, all is as it was; for want of page numbers or levels, or of memory after the grant, the engine fails.
    pub(crate) fn insert_at_once(&mut self, t: TxnId, key: &[u8], rid: Rid) -> Reply
        requires works { self.old.failed ≡ false }
        requires plain { self.old.stepped ≡ false }
        requires checked { checked_by self.old.txns.rows (owns_in (under_of self.old.under) (answers.Do t (answers.Insert key.now rid))) (answers.Do t (answers.Insert key.now rid)) ≡ None }
        ensures { IsMade D.Disk (answers.Do t (answers.Insert key.now rid)) result self.old self.new }
    {
        let Some(row) = self.txns.find(t) else {
            return Reply::Refused(Fault::NoTransaction);
        };
        self.failed = true;
        let came = im_engine_access::insert(
            self.alloc,
            &mut self.writer,
            &mut self.disk,
            &mut self.locks,
            &row,
            key,
            rid,
            self.max_pages,
            self.dense,
        );
        match self.answered(t, as_seen(came)) {
            Ok(Some(noted)) => {
                self.txns.note_made(t, noted.last);
                Reply::Inserted
            }
            Ok(None) => Reply::Duplicate,
            Err(reply) => reply,
        }
    }
}
