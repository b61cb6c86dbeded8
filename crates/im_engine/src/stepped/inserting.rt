//! Keys that come, beside a structure change that goes on, or with one that begins.

ghost use Rattle.std.specs.Prelude.{◌≡◌, None, false, true};

use crate::engine::Engine;
use crate::stepped::{Aim, Under, beside_of};
use im_base_disk::Disk;
use im_base_steps::Reply;
use im_base_types::{Fault, Key, Rid, TxnId};
use im_engine_access::{Inserting, insert_beside};

impl<D: Disk> Engine<D> {
    ghost use Rattle.im_base_types.specs.Answers as answers;
    ghost use Rattle.im_theory_machine.specs.View.{owns_in};
    ghost use Rattle.im_theory_steps.specs.Checks.{checked_by};
    ghost use Rattle.im_engine.specs.Aims.{under_of};
    ghost use Rattle.im_engine.specs.Told.{IsMade};

    // Puts a key with its row id (`inserts_are_served`). Where its leaf lacks room, and no structure change is under way, the first page of its
    // split is logged (`inserts_begin`), and Continue goes on with it. For want of pages, or of memory before its locks are granted, all is as it
    // was; for want of page numbers or levels, or of memory after the grant, the engine fails.
    pub(crate) fn insert_stepped(&mut self, t: TxnId, key: &[u8], rid: Rid) -> Reply
        requires works { self.old.failed ≡ false }
        requires stepped { self.old.stepped ≡ true }
        requires checked { checked_by self.old.txns.rows (owns_in (under_of self.old.under) (answers.Do t (answers.Insert key.now rid))) (answers.Do t (answers.Insert key.now rid)) ≡ None }
        ensures { IsMade D.Disk (answers.Do t (answers.Insert key.now rid)) result self.old self.new }
    {
        let Some(row) = self.txns.find(t) else {
            return Reply::Refused(Fault::NoTransaction);
        };
        self.failed = true;
        let came = insert_beside(
            self.alloc,
            &mut self.writer,
            &mut self.disk,
            &mut self.locks,
            &row,
            key,
            rid,
            self.max_pages,
            self.dense,
            beside_of(&self.under),
        );
        match self.answered(t, came) {
            Ok(Inserting::There) => Reply::Duplicate,
            Ok(Inserting::Put(lsn)) => {
                self.txns.note_made(t, lsn);
                Reply::Inserted
            }
            Ok(Inserting::Split(begun, leaf)) => {
                let Ok(key) = Key::new(key) else {
                    self.failed = true;
                    return Reply::Refused(Fault::Failed);
                };
                let last = begun.change().last();
                self.txns.note_record(t, last, last);
                let aim = Aim::Puts(key, rid, leaf);
                self.under = Some(Under { begun, aim });
                Reply::More
            }
            Err(reply) => reply,
        }
    }
}
