//! What was unfinished is undone: the losers all together, the record with the greatest LSN first.

ghost use Rattle.std.specs.Prelude.{◌≡◌, [], ◌∷◌, ◌++◌, ◌≢◌, ◌≤◌, ◌<◌, ◌⊎◌, ◌↔◌, ℕ, Bool, true, false, length, Option, None, Some, Ok, Err, IfErr, IfSome, IsSome, OnOk};
ghost use Rattle.std.specs.Ordering.{nat_cmp};
ghost use Rattle.std.specs.BTreeMap.{Updates, btree_map_len, get};
ghost use Rattle.im_base_types.specs.declared.fault.Fault.TheVariants.{Capacity, Failed, LogFull, Memory, NotAStore};
ghost use Rattle.im_theory_log.specs.Histories.{Base, History, IsRecordOf, Rises};
ghost use Rattle.im_theory_log.specs.Transactions.{is_key};
ghost use Rattle.im_theory_log.specs.Writer.{Writer};
ghost use Rattle.im_log_record.specs.Entry.{view, prev_of, transaction_of};
ghost use Rattle.im_log_record.specs.Spelling.{IsEntry};
ghost use Rattle.im_log.specs.Whats.{what_of};
ghost use Rattle.im_log.specs.Spelled.{logged_at};
ghost use Rattle.im_restart_analysis.specs.Losers.{AreLosers};
ghost use Rattle.im_smo_pages.specs.Kept.{mild_to_take};
ghost use Rattle.im_page_writer.specs.Outcome.{fault_of, mild};
ghost use Rattle.im_page_writer.specs.PageWriter.{IsReadyWriter, StandsAs};
ghost use Rattle.im_restart_redo.specs.Recovery.{Recovers};
ghost use Rattle.im_restart.specs.UndoOrder.{IsLatest};
ghost use Rattle.im_restart.specs.LoserChains.{AreChains, GoesOnAt, IsToUndo, PutKept, above, and_also, nobody};
ghost use Rattle.im_restart.specs.Restart.{RunsOut};
ghost use Rattle.im_restart.specs.Undoing.{CompensateKept, EndKept, IsUndoing, EnterKept, StepKept, UndoKept};

use crate::chains::Chain;
use im_base_disk::Disk;
use im_base_types::{Fault, Lsn, TxnId};
use im_log_record::{Record, decode};
use im_page_writer::PageWriter;
use im_restart_analysis::{Loser, is_key_record, undo_next_after};
use im_restart_undo::undo_one;
use std::alloc::Global;
use std::collections::BTreeMap;

// What a refusal is answered as: for want of memory within the undo of a key record the restart is refused as for any other.
fn answered(fault: Fault) -> Fault
    ensures memory { fault ≡ Failed → result ≡ Memory }
    ensures others { fault ≢ Failed → result ≡ fault }
    ensures full { result ≡ LogFull → fault ≡ LogFull }
    ensures numbers { result ≡ Capacity → fault ≡ Capacity }
{
    match fault {
        Fault::Failed => Fault::Memory,
        _ => fault,
    }
}

// Takes back a key record of a loser, wherever splits have moved its key. It answers the LSN of the loser's last record after that.
fn compensate<D: Disk>(
    alloc: Global,
    writer: &mut PageWriter,
    disk: &mut D,
    chain: Chain,
    record: &Record,
) -> Result<Lsn, Fault>
    requires entry { IsEntry (view record.now) }
    requires ready { IsReadyWriter D.Disk writer.old disk.old }
    requires working { writer.old.failed ≡ false }
    requires key { is_key (what_of (view record.now)) ≡ true }
    requires owner { transaction_of (view record.now) ≡ chain.transaction }
    ensures outcome { Recovers D.Disk mild_to_take writer.old writer.new disk.new (fault_of result) }
    ensures kept { (b : Base) (base : ℕ) (all : History) (s : Writer) → StandsAs D.Disk b base s writer.old disk.old → IsUndoing b all s → IsToUndo s.log chain (view record.now)
        → CompensateKept D.Disk b base all s chain.transaction (prev_of (view record.now)) disk.old writer.new disk.new result }
    ensures used_up { (b : Base) (base : ℕ) (all : History) (s : Writer) → StandsAs D.Disk b base s writer.old disk.old → IsUndoing b all s → IsToUndo s.log chain (view record.now) → IfErr result (λ e. e ≡ Capacity → RunsOut b all) }
{
    if chain.transaction == 0 {
        return Err(Fault::NotAStore);
    }
    match undo_one(alloc, writer, disk, record, chain.last, chain.undo_next) {
        Ok(lsn) => Ok(lsn),
        Err(fault) => Err(answered(fault)),
    }
}

// Logs the End of a transaction of which nothing is left to undo.
fn end<D: Disk>(writer: &mut PageWriter, disk: &mut D, chain: Chain) -> Result<(), Fault>
    requires ready { IsReadyWriter D.Disk writer.old disk.old }
    requires working { writer.old.failed ≡ false }
    ensures outcome { Recovers D.Disk mild writer.old writer.new disk.new (fault_of result) }
    ensures kept { (b : Base) (base : ℕ) (all : History) (s : Writer) → StandsAs D.Disk b base s writer.old disk.old → IsUndoing b all s → GoesOnAt chain 0 s.log
        → EndKept D.Disk b base all s chain.transaction disk.old writer.new disk.new result }
{
    if chain.transaction == 0 {
        return Err(Fault::NotAStore);
    }
    let record = Record::End {
        transaction: chain.transaction,
        prev: chain.last,
    };
    writer.log_only(disk, &record)?;
    Ok(())
}

// Puts a chain at the LSN where its undo goes on.
//
// Refused `NotAStore` where another has that LSN; `Memory`.
fn put_chain(chains: &mut BTreeMap<Lsn, Chain>, lsn: Lsn, chain: Chain) -> Result<(), Fault>
    ensures kept { (b : Base) (out : ℕ → Bool) (log : History) → Rises b log → AreChains (and_also chain.transaction out) chains.old log → out chain.transaction ≡ false
        → GoesOnAt chain lsn log → lsn ≢ 0 → PutKept out log chains.new result }
    ensures above { OnOk result ((n : ℕ) → lsn < n → above chains.old.entries ≤ n → above chains.new.entries ≤ n) }
    ensures causes { IfErr result (λ e. (e ≡ Memory) ⊎ (e ≡ NotAStore)) }
{
    match chains.insert(lsn, chain) {
        Ok(None) => Ok(()),
        Ok(Some(_)) => Err(Fault::NotAStore),
        Err(_) => Err(Fault::Memory),
    }
}

// Undo of a transaction goes on at an LSN; where nothing is left, it ends.
fn put_or_end<D: Disk>(
    writer: &mut PageWriter,
    disk: &mut D,
    chains: &mut BTreeMap<Lsn, Chain>,
    chain: Chain,
    lsn: Lsn,
) -> Result<(), Fault>
    requires ready { IsReadyWriter D.Disk writer.old disk.old }
    requires working { writer.old.failed ≡ false }
    ensures outcome { Recovers D.Disk mild writer.old writer.new disk.new (fault_of result) }
    ensures kept { (b : Base) (base : ℕ) (all : History) (s : Writer) (out : ℕ → Bool) → StandsAs D.Disk b base s writer.old disk.old → IsUndoing b all s
        → AreChains (and_also chain.transaction out) chains.old s.log → out chain.transaction ≡ false → GoesOnAt chain lsn s.log
        → StepKept D.Disk b base all s chain.transaction out disk.old writer.new chains.new disk.new result }
    ensures above { OnOk result ((n : ℕ) → lsn < n → above chains.old.entries ≤ n → above chains.new.entries ≤ n) }
{
    if lsn == 0 {
        end(writer, disk, chain)
    } else {
        put_chain(chains, lsn, chain)
    }
}

// Takes back a key record, and goes on after it.
#[tactic(auto, using(im_restart_redo::proofs::Recoveries::recovers_then, im_restart_redo::proofs::Recoveries::recovery_refused))]
fn undo_key<D: Disk>(
    alloc: Global,
    writer: &mut PageWriter,
    disk: &mut D,
    chains: &mut BTreeMap<Lsn, Chain>,
    chain: Chain,
    next: Lsn,
    record: &Record,
) -> Result<(), Fault>
    requires entry { IsEntry (view record.now) }
    requires ready { IsReadyWriter D.Disk writer.old disk.old }
    requires working { writer.old.failed ≡ false }
    requires key { is_key (what_of (view record.now)) ≡ true }
    requires owner { transaction_of (view record.now) ≡ chain.transaction }
    requires next { next ≡ prev_of (view record.now) }
    ensures outcome { Recovers D.Disk mild_to_take writer.old writer.new disk.new (fault_of result) }
    ensures kept { (b : Base) (base : ℕ) (all : History) (s : Writer) (out : ℕ → Bool) → StandsAs D.Disk b base s writer.old disk.old → IsUndoing b all s
        → AreChains (and_also chain.transaction out) chains.old s.log → out chain.transaction ≡ false → IsToUndo s.log chain (view record.now)
        → StepKept D.Disk b base all s chain.transaction out disk.old writer.new chains.new disk.new result }
    ensures used_up { (b : Base) (base : ℕ) (all : History) (s : Writer) → StandsAs D.Disk b base s writer.old disk.old → IsUndoing b all s → IsToUndo s.log chain (view record.now) → IfErr result (λ e. e ≡ Capacity → RunsOut b all) }
    ensures above { OnOk result ((n : ℕ) → next < n → above chains.old.entries ≤ n → above chains.new.entries ≤ n) }
{
    let last = compensate(alloc, writer, disk, chain, record)?;
    let behind = Chain {
        transaction: chain.transaction,
        last,
        undo_next: next,
    };
    put_or_end(writer, disk, chains, behind, next)
}

// Takes back the record of a transaction at an LSN, or passes over it where it is a compensation or the end of a structure change.
//
// Refused `NotAStore` for a record of another kind, or of another transaction, and where it leads to no earlier one.
fn undo_record<D: Disk>(
    alloc: Global,
    writer: &mut PageWriter,
    disk: &mut D,
    chains: &mut BTreeMap<Lsn, Chain>,
    chain: Chain,
    lsn: Lsn,
    record: &Record,
) -> Result<(), Fault>
    requires entry { IsEntry (view record.now) }
    requires ready { IsReadyWriter D.Disk writer.old disk.old }
    requires working { writer.old.failed ≡ false }
    ensures outcome { Recovers D.Disk mild_to_take writer.old writer.new disk.new (fault_of result) }
    ensures kept { (b : Base) (base : ℕ) (all : History) (s : Writer) (out : ℕ → Bool) → StandsAs D.Disk b base s writer.old disk.old → IsUndoing b all s
        → AreChains (and_also chain.transaction out) chains.old s.log → out chain.transaction ≡ false → GoesOnAt chain lsn s.log
        → IsRecordOf (logged_at lsn (view record.now)) s.log → transaction_of (view record.now) ≡ chain.transaction → IsLatest lsn s.log
        → StepKept D.Disk b base all s chain.transaction out disk.old writer.new chains.new disk.new result }
    ensures used_up { (b : Base) (base : ℕ) (all : History) (s : Writer) → StandsAs D.Disk b base s writer.old disk.old → IsUndoing b all s → GoesOnAt chain lsn s.log
        → IsRecordOf (logged_at lsn (view record.now)) s.log → transaction_of (view record.now) ≡ chain.transaction → IsLatest lsn s.log → IfErr result (λ e. e ≡ Capacity → RunsOut b all) }
    ensures above { OnOk result (above chains.old.entries ≤ lsn → above chains.new.entries ≤ lsn) }
{
    if record.transaction() != chain.transaction {
        return Err(Fault::NotAStore);
    }
    let next = undo_next_after(record, lsn)?;
    if is_key_record(record) {
        undo_key(alloc, writer, disk, chains, chain, next, record)
    } else {
        put_or_end(writer, disk, chains, chain, next)
    }
}

// The same, with the record read into the room.
fn undo_at<D: Disk>(
    alloc: Global,
    writer: &mut PageWriter,
    disk: &mut D,
    chains: &mut BTreeMap<Lsn, Chain>,
    chain: Chain,
    lsn: Lsn,
    room: &mut [u8],
) -> Result<(), Fault>
    requires room { 16384 ≤ length room.old }
    requires ready { IsReadyWriter D.Disk writer.old disk.old }
    requires working { writer.old.failed ≡ false }
    ensures outcome { Recovers D.Disk mild_to_take writer.old writer.new disk.new (fault_of result) }
    ensures room { length room.new ≡ length room.old }
    ensures kept { (b : Base) (base : ℕ) (all : History) (s : Writer) (out : ℕ → Bool) → StandsAs D.Disk b base s writer.old disk.old → IsUndoing b all s
        → AreChains (and_also chain.transaction out) chains.old s.log → out chain.transaction ≡ false → lsn ≢ 0 → GoesOnAt chain lsn s.log → IsLatest lsn s.log
        → StepKept D.Disk b base all s chain.transaction out disk.old writer.new chains.new disk.new result }
    ensures used_up { (b : Base) (base : ℕ) (all : History) (s : Writer) → StandsAs D.Disk b base s writer.old disk.old → IsUndoing b all s → lsn ≢ 0 → GoesOnAt chain lsn s.log → IsLatest lsn s.log
        → IfErr result (λ e. e ≡ Capacity → RunsOut b all) }
    ensures above { OnOk result (above chains.old.entries ≤ lsn → above chains.new.entries ≤ lsn) }
{
    let size = writer.read_at(disk, lsn, room)?;
    let record = decode(&room[..size])?;
    undo_record(alloc, writer, disk, chains, chain, lsn, &record)
}

// Takes out the chain whose undo goes on at the greatest LSN.
fn take_last(chains: &mut BTreeMap<Lsn, Chain>) -> Option<(Lsn, Chain)>
    ensures variant { IsSome result ↔ (0 < btree_map_len chains.old) }
    ensures removal { IfSome result (λ e. chains.old.entries ≡ chains.new.entries ++ e ∷ []) }
    ensures value { IfSome result (λ e. get nat_cmp chains.old e.0 ≡ Some e.1) }
    ensures updates { IfSome result (λ e. Updates nat_cmp chains.old chains.new e.0 None) }
    ensures others { IfSome result (λ e. above chains.new.entries ≤ e.0) }
{
    chains.pop_last()
}

// Undoes and ends the transactions of these chains, the record with the greatest LSN first.
#[tactic(auto, using(im_restart_redo::proofs::Recoveries::recovers_then, im_restart_redo::proofs::Recoveries::recovery_refused))]
fn undo_all<D: Disk>(
    alloc: Global,
    writer: &mut PageWriter,
    disk: &mut D,
    chains: &mut BTreeMap<Lsn, Chain>,
    room: &mut [u8],
) -> Result<(), Fault>
    requires room { 16384 ≤ length room.old }
    requires ready { IsReadyWriter D.Disk writer.old disk.old }
    requires working { writer.old.failed ≡ false }
    ensures outcome { Recovers D.Disk mild_to_take writer.old writer.new disk.new (fault_of result) }
    ensures kept { (b : Base) (base : ℕ) (all : History) (s : Writer) → StandsAs D.Disk b base s writer.old disk.old → IsUndoing b all s
        → AreChains nobody chains.old s.log → UndoKept D.Disk b base all s disk.old writer.new disk.new result }
    ensures used_up { (b : Base) (base : ℕ) (all : History) (s : Writer) → StandsAs D.Disk b base s writer.old disk.old → IsUndoing b all s → AreChains nobody chains.old s.log → IfErr result (λ e. e ≡ Capacity → RunsOut b all) }
    ensures none { chains.old.entries ≡ [] → (result ≡ Ok tt) × (writer.new ≡ writer.old) × (disk.new ≡ disk.old) }
{
    while let Some((lsn, chain)) = take_last(chains) {
        undo_at(alloc, writer, disk, chains, chain, lsn, room)?;
    }
    Ok(())
}

// Puts each loser at the LSN where its undo goes on; those of which nothing is left end.
#[tactic(auto, using(im_restart_redo::proofs::Recoveries::recovers_then, im_restart_redo::proofs::Recoveries::recovery_refused))]
fn enter_all<D: Disk>(
    writer: &mut PageWriter,
    disk: &mut D,
    losers: &mut BTreeMap<TxnId, Loser>,
    chains: &mut BTreeMap<Lsn, Chain>,
) -> Result<(), Fault>
    requires ready { IsReadyWriter D.Disk writer.old disk.old }
    requires working { writer.old.failed ≡ false }
    requires none { chains.old.entries ≡ [] }
    ensures outcome { Recovers D.Disk mild writer.old writer.new disk.new (fault_of result) }
    ensures kept { (b : Base) (base : ℕ) (all : History) (s : Writer) → StandsAs D.Disk b base s writer.old disk.old → IsUndoing b all s → AreLosers losers.old s.log
        → EnterKept D.Disk b base all s disk.old writer.new chains.new disk.new result }
    ensures none { losers.old.entries ≡ [] → (result ≡ Ok tt) × (writer.new ≡ writer.old) × (chains.new.entries ≡ []) × (disk.new ≡ disk.old) }
{
    while let Some((transaction, row)) = losers.pop_first() {
        let chain = Chain {
            transaction,
            last: row.last,
            undo_next: row.undo_next,
        };
        put_or_end(writer, disk, chains, chain, row.undo_next)?;
    }
    Ok(())
}

/// Undoes and ends the losers, all together, the record with the greatest LSN first. Records are read again into the room.
///
/// Refused `NotAStore` where a chain of records leads to no earlier record of its transaction that can be undone, or the tree does not
/// take a compensation; `Capacity` where page numbers or levels are used up by splits on the way; `Memory`, `LogFull`, `Device`.
#[tactic(auto, using(im_restart_redo::proofs::Recoveries::recovers_then, im_restart_redo::proofs::Recoveries::recovery_refused))]
pub(crate) fn undo<D: Disk>(
    alloc: Global,
    writer: &mut PageWriter,
    disk: &mut D,
    losers: &mut BTreeMap<TxnId, Loser>,
    room: &mut [u8],
) -> Result<(), Fault>
    requires room { 16384 ≤ length room.old }
    requires ready { IsReadyWriter D.Disk writer.old disk.old }
    requires working { writer.old.failed ≡ false }
    ensures outcome { Recovers D.Disk mild_to_take writer.old writer.new disk.new (fault_of result) }
    ensures kept { (b : Base) (base : ℕ) (all : History) (s : Writer) → StandsAs D.Disk b base s writer.old disk.old → IsUndoing b all s
        → AreLosers losers.old s.log → UndoKept D.Disk b base all s disk.old writer.new disk.new result }
    ensures used_up { (b : Base) (base : ℕ) (all : History) (s : Writer) → StandsAs D.Disk b base s writer.old disk.old → IsUndoing b all s → AreLosers losers.old s.log → IfErr result (λ e. e ≡ Capacity → RunsOut b all) }
    ensures none { losers.old.entries ≡ [] → (result ≡ Ok tt) × (writer.new ≡ writer.old) × (disk.new ≡ disk.old) }
{
    let mut chains = BTreeMap::new(alloc);
    enter_all(writer, disk, losers, &mut chains)?;
    undo_all(alloc, writer, disk, &mut chains, room)
}
