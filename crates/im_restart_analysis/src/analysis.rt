//! The pass over the records.

use crate::chains::leads_down;
use crate::notes::{note, since};
use crate::numbers::{next_after, point_after};
use crate::open_change::{make_room, note_open, opens_another};
use crate::page_counts::{count_after, names_counted};
use crate::rows::{Loser, OpenRecord};
use im_base_types::{Fault, Lsn, PageNo, TxnId};
use im_log_record::Record;
use std::alloc::Global;
use std::collections::BTreeMap;

/// What is known of the records that were taken.
#[derive(Drop)]
pub struct Analysis {
    next: TxnId,
    point: Option<Lsn>,
    losers: BTreeMap<TxnId, Loser>,
    copies: BTreeMap<PageNo, Lsn>,
    open_change: Vec<OpenRecord>,
    // the greatest page count that a record of page 0 said, or that the log begins with
    count: PageNo,
}

/// What a restart has to know of its log.
#[derive(Drop)]
pub struct Analysed {
    /// The number of the next transaction.
    pub next: TxnId,
    /// The LSN from which redo begins, 0 for a log without records.
    pub redo_point: Lsn,
    /// The transactions with a record and neither Commit nor End, in rising number.
    pub losers: BTreeMap<TxnId, Loser>,
    /// For each page, in rising number, the LSN of the last record at or after the redo point that holds a full copy of it.
    pub copies: BTreeMap<PageNo, Lsn>,
    /// The records of the structure change that is open, the oldest first; empty for none. Undo begins with the last.
    pub open_change: Vec<OpenRecord>,
}

impl Analysis {
    ghost use Rattle.std.specs.Prelude.{◌≡◌, ◌≢◌, ◌⊎◌, ℕ, [], OnErr, IfErr};
    ghost use Rattle.im_base_types.specs.declared.fault.Fault.TheVariants.{Memory, NotAStore};
    ghost use Rattle.im_base_types.specs.Records.{Unreadable};
    ghost use Rattle.im_theory_log.specs.Histories.{History};
    ghost use Rattle.im_theory_log.specs.RedoPoints.{redo_point};
    ghost use Rattle.im_log_record.specs.Entry.{view};
    ghost use Rattle.im_log.specs.Spelled.{logged_at};
    ghost use Rattle.im_log.specs.Whats.{what_of};
    ghost use Rattle.im_restart_analysis.specs.Numbers.{IsNextNumber};
    ghost use Rattle.im_restart_analysis.specs.Analysis.{Continues, IsAnalysed, TakeKept, IsUnchanged, IsAnalysis};
    ghost use Rattle.im_restart_analysis.specs.Orderly.{FitKept, Knows, LeadsDown, NamesCounted};

    /// Before the first record of a log whose transaction numbers begin at the least, and whose page counts begin at this one
    /// (`pages_at_first`).
    pub fn new(alloc: Global, least: TxnId, pages: PageNo) -> Self
        ensures { IsAnalysed least pages [] result }
    {
        Analysis {
            next: least,
            point: None,
            losers: BTreeMap::new(alloc),
            copies: BTreeMap::new(alloc),
            open_change: Vec::new(alloc),
            count: pages,
        }
    }

    /// The number of the next transaction: the least from the log's first on that is above every transaction number in the records
    /// and not below the next number of any of their Checkpoints, or 2^64 - 1 where that is no u64.
    pub fn next(&self) -> TxnId
        ensures { (least n : ℕ) (log : History) → IsAnalysed least n log self.now → IsNextNumber least result log }
    {
        self.next
    }

    /// The LSN from which redo begins, 0 without records.
    pub fn redo_point(&self) -> Lsn
        ensures { (least n : ℕ) (log : History) → IsAnalysed least n log self.now → result ≡ redo_point log }
    {
        match self.point {
            None => 0,
            Some(point) => point,
        }
    }

    /// Takes the next record of the log.
    ///
    /// Refused `NotAStore` where a structure change opens while another transaction's is open, the record names its own LSN or a later
    /// one as its transaction's, or a page at or above each page count that was said before it, and `Memory`; then nothing is changed.
    pub fn take(&mut self, lsn: Lsn, record: &Record) -> Result<(), Fault>
        ensures kept { (least n : ℕ) (older : History) → IsAnalysed least n older self.old → Continues (logged_at lsn (view record.now)) older → LeadsDown (logged_at lsn (view record.now))
            → NamesCounted n (logged_at lsn (view record.now)) older → TakeKept least n older (logged_at lsn (view record.now)) self.new result }
        ensures fits { (n : ℕ) (older : History) → Knows n older self.old → what_of (view record.now) ≢ Unreadable
            → FitKept n older (logged_at lsn (view record.now)) self.new result }
        ensures same { OnErr result (IsUnchanged self.old self.new) }
        ensures causes { IfErr result (λ e. (e ≡ Memory) ⊎ (e ≡ NotAStore)) }
    {
        if !leads_down(lsn, record) {
            return Err(Fault::NotAStore);
        }
        if !names_counted(self.count, record) {
            return Err(Fault::NotAStore);
        }
        if opens_another(&self.open_change, record) {
            return Err(Fault::NotAStore);
        }
        make_room(&mut self.open_change)?;
        note(&mut self.losers, &mut self.copies, lsn, record)?;
        note_open(&mut self.open_change, lsn, record);
        self.next = next_after(self.next, record);
        self.point = Some(point_after(self.point, lsn, record));
        self.count = count_after(self.count, record);
        Ok(())
    }

    /// What is known after the last record.
    pub fn finish(self) -> Analysed
        ensures { (least n : ℕ) (log : History) → IsAnalysed least n log self → IsAnalysis least log result }
    {
        let redo_point = self.redo_point();
        let Analysis {
            next,
            losers,
            copies,
            open_change,
            ..
        } = self;
        Analysed {
            next,
            redo_point,
            losers,
            copies: since(copies, redo_point),
            open_change,
        }
    }
}
