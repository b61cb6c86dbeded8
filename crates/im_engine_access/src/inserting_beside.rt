//! Inserts beside a structure change of another, which may begin one of their own that goes on over several steps.

ghost use Rattle.std.specs.Prelude.{◌≡◌, ◌≢◌, ◌≤◌, ◌<◌, ◌⊎◌, ℕ, Bool, [], None, Some, length, false, true, IfOk, IfErr, OnErr};
ghost use Rattle.std.specs.FinMap.{entries, get};
ghost use Rattle.im_base_types.specs.declared.fault.Fault.TheVariants.{Memory, PagesFull, Capacity, Failed};
ghost use Rattle.im_base_types.specs.Answers.{Insert};
ghost use Rattle.im_base_types.specs.Maps.{IndexMap};
ghost use Rattle.im_theory_log.specs.Histories.{Base};
ghost use Rattle.im_theory_log.specs.Writer.{Writer};
ghost use Rattle.im_page_pool.specs.Pool.{page_at, IsAt};
ghost use Rattle.im_page_writer.specs.PageWriter.{IsReadyWriter, StandsAs};
ghost use Rattle.im_page_writer.specs.Outcome.{fault_of, none_mild, AllPages, AreLoaded, HasPages, IsSound, Logs, Outcome as Ends};
ghost use Rattle.im_theory_machine.specs.Rows.{next_name};
ghost use Rattle.im_theory_machine.specs.Table.{SameLasting, SameTable};
ghost use Rattle.im_theory_page.specs.Split.{HasRoom};
ghost use Rattle.im_theory_tree.specs.Good.{IsGoodTree};
ghost use Rattle.im_theory_tree.specs.Levels.{walk};
ghost use Rattle.im_theory_tree.specs.Search.{IsOnWay};
ghost use Rattle.im_tree_search.specs.declared.change_beside.Beside.{Beside as BesideOf};
ghost use Rattle.im_tree_search.specs.Found.{IsReached};
ghost use Rattle.im_tree_search.specs.Levels.{HasLevel, bodies_of};
ghost use Rattle.im_tree_search.specs.Sights.{HasTreeBut, IfSeen};
ghost use Rattle.im_engine_locks.specs.Requests.{named, requests_of, row};
ghost use Rattle.im_smo_split.specs.Kept.{mild_to_split};
ghost use Rattle.im_smo_split.specs.Tops.{LacksRoomFor};
ghost use Rattle.im_smo_actions.specs.GoingBeside.{HasWholeTreeBut};
ghost use Rattle.im_engine_access.specs.declared.change_plan.Coming.TheVariants.{There, UsedUp};
ghost use Rattle.im_engine_access.specs.Barred.{TreeCause};
ghost use Rattle.im_engine_access.specs.ChangePlans.{asks_row, begins, wants_numbers, IsComingDecided, ComingKept, ComingPlanned};
ghost use Rattle.im_engine_access.specs.EditsBeside.{MayEditBeside, InsertBesideKept, MayCome, ComingLogKept, FirstKept, MayEnd, InsertEndKept};
ghost use Rattle.im_engine_access.specs.LockCalls.{AsksLocks};

use crate::asking::{name_in, outcome_of};
use crate::begun::Inserting;
use crate::change_plan::Coming;
use crate::changes::{is_there, rid_in};
use crate::lock_answer::LockAnswer;
use crate::logging::log_insert;
use im_base_disk::Disk;
use im_base_txn::Transaction;
use im_base_types::{Fault, Lsn, PageNo, Rid, TxnId};
use im_engine_locks::{LockTable, Name, Row, insert_row, insert_row_to_finish};
use im_page_pool::Frame;
use im_page_writer::PageWriter;
use im_smo_actions::{BegunChange, has_room, plan_change};
use im_smo_log::{Change, late};
use im_smo_split::{SplitPlan, plan_split};
use im_tree_search::{Beside, Sight, leaf_beside, next_in_leaf_beside, tree_page};
use std::alloc::Global;

// ---- in front of the grant

// Whether a change begins that goes on over several steps.
fn lasts(coming: &Coming, stepped: bool) -> bool
    ensures { result ≡ begins stepped coming.now }
{
    match coming {
        Coming::Splits(_, _) => stepped,
        _ => false,
    }
}

// What is asked of a key that is not there: where a change begins that goes on over several steps, the next name until that ends.
fn row_for<'a>(lasts: bool, key: &'a [u8], next: Name<'a>) -> Row<'a>
    ensures { (m : IndexMap) (rid : ℕ) → get m key.now ≡ None → named next.entry ≡ next_name m key.now → row (requests_of result) ≡ asks_row lasts key.now rid m }
{
    if lasts {
        return insert_row_to_finish(key, next);
    }
    insert_row(key, false, next)
}

// Asks what an insert asks of a key that is there.
fn ask_duplicate(
    locks: &mut LockTable,
    transaction: TxnId,
    key: &[u8],
) -> Result<LockAnswer<Coming>, Fault>
    ensures decided { (stepped : Bool) (m : IndexMap) (rid i : ℕ) → get m key.now ≡ Some i → IfOk result (IsComingDecided stepped (λ x. x ≡ There) locks.old transaction key.now rid m locks.new) }
    ensures memory { IfErr result (λ e. e ≡ Memory) }
    ensures table { OnErr result (SameTable locks.old locks.new) }
    ensures lasting { OnErr result (SameLasting locks.old locks.new) }
{
    let row = insert_row(key, true, Name::End);
    let verdict = locks.try_all(transaction, row.as_slice())?;
    Ok(outcome_of(verdict, Coming::There))
}

// Asks the locks of a key that is not there, whose leaf is held, as it comes.
fn ask_coming<D: Disk>(
    writer: &mut PageWriter,
    disk: &mut D,
    locks: &mut LockTable,
    transaction: TxnId,
    held: Frame,
    key: &[u8],
    coming: Coming,
    stepped: bool,
    beside: Beside<'_>,
) -> Result<Sight<LockAnswer<Coming>>, Fault>
    requires ready { IsReadyWriter D.Disk writer.old disk.old }
    requires working { writer.old.failed ≡ false }
    requires at { IsAt writer.old.pool held }
    requires leaf { HasLevel 0 (page_at writer.old.pool held.number).body }
    ensures outcome { AsksLocks D.Disk writer.old disk.old writer.new disk.new (fault_of result) }
    ensures kept { (pages : AllPages) (m : IndexMap) (rid : ℕ) → HasTreeBut D.Disk pages beside.entry writer.old disk.old → IsReached pages key.now 0 held.number writer.old.pool → walk (bodies_of pages) ≡ entries m → get m key.now ≡ None
        → IsSound result (IfSeen (IsComingDecided stepped (λ x. x ≡ coming) locks.old transaction key.now rid m locks.new) (TreeCause (bodies_of pages) beside.entry (Insert key.now rid) m × (locks.new ≡ locks.old))) }
    ensures table { OnErr result (SameTable locks.old locks.new) }
    ensures lasting { OnErr result (SameLasting locks.old locks.new) }
{
    let Sight::Seen((leaf, next)) = next_in_leaf_beside(writer, disk, held, key, beside)? else {
        return Ok(Sight::Hidden);
    };
    let row = row_for(
        lasts(&coming, stepped),
        key,
        name_in(writer.page(leaf), &next),
    );
    let verdict = locks.try_all(transaction, row.as_slice())?;
    Ok(Sight::Seen(outcome_of(verdict, coming)))
}

// What the refusal of a plan is answered as: a want of page numbers or levels is told after the locks.
fn not_planned(fault: Fault) -> Result<Coming, Fault>
    ensures used_up { IfOk result (λ coming. (coming ≡ UsedUp) × (fault ≡ Capacity)) }
    ensures others { IfErr result (λ e. (e ≡ fault) × (e ≢ Capacity)) }
{
    match fault {
        Fault::Capacity => Ok(Coming::UsedUp),
        _ => Err(fault),
    }
}

// The split of an absent key's leaf, which lacks room for the key, with no change under way.
fn plan_coming<D: Disk>(
    alloc: Global,
    writer: &mut PageWriter,
    disk: &mut D,
    key: &[u8],
    max: PageNo,
    dense: bool,
) -> Result<Coming, Fault>
    requires ready { IsReadyWriter D.Disk writer.old disk.old }
    requires working { writer.old.failed ≡ false }
    requires short { length key.now ≤ 255 }
    ensures outcome { Ends D.Disk AreLoaded (mild_to_split (Some max)) writer.old disk.old writer.new disk.new (fault_of result) }
    ensures kept { (pages : AllPages) (beside : BesideOf) (m : IndexMap) → HasPages D.Disk AreLoaded pages writer.old disk.old → IsGoodTree (bodies_of pages) [] → walk (bodies_of pages) ≡ entries m → get m key.now ≡ None
        → LacksRoomFor (bodies_of pages) key.now → beside.pages.now ≡ [] → ComingPlanned pages beside key.now dense max m result }
    ensures never { IfErr result (λ e. e ≢ Capacity) }
{
    match plan_split(alloc, writer, disk, key, Some(max), dense) {
        Ok(split) => {
            let SplitPlan { images, leaf } = split;
            let plan = plan_change(alloc, writer, disk, images)?;
            Ok(Coming::Splits(plan, leaf))
        }
        Err(fault) => not_planned(fault),
    }
}

// The same, and asks the key's locks after it. After a refusal nobody holds another lock than before.
fn prepare_coming_split<D: Disk>(
    alloc: Global,
    writer: &mut PageWriter,
    disk: &mut D,
    locks: &mut LockTable,
    transaction: TxnId,
    page: PageNo,
    key: &[u8],
    max: PageNo,
    dense: bool,
    stepped: bool,
    beside: Beside<'_>,
) -> Result<Sight<LockAnswer<Coming>>, Fault>
    requires ready { IsReadyWriter D.Disk writer.old disk.old }
    requires working { writer.old.failed ≡ false }
    requires short { length key.now ≤ 255 }
    ensures outcome { Ends D.Disk AreLoaded (mild_to_split (Some max)) writer.old disk.old writer.new disk.new (fault_of result) }
    ensures kept { (pages : AllPages) (m : IndexMap) (rid : ℕ) → HasWholeTreeBut D.Disk pages beside.entry writer.old disk.old → walk (bodies_of pages) ≡ entries m → get m key.now ≡ None
        → IsOnWay (bodies_of pages) 0 key.now page → ¬ (HasRoom true (pages page).body.entries (key.now, 0)) → beside.entry.pages.now ≡ []
        → ComingKept stepped pages beside.entry transaction key.now rid dense max m locks.old locks.new result }
    ensures never { IfErr result (λ e. e ≢ Capacity) }
    ensures table { OnErr result (SameTable locks.old locks.new) }
    ensures lasting { OnErr result (SameLasting locks.old locks.new) }
{
    let coming = plan_coming(alloc, writer, disk, key, max, dense)?;
    let held = tree_page(writer, disk, page, 0)?;
    ask_coming(
        writer,
        disk,
        locks,
        transaction,
        held,
        key,
        coming,
        stepped,
        beside,
    )
}

// Lays an insert down: the key's leaf is searched, the split that it wants planned, and then its locks are asked. After a refusal nobody
// holds another lock than before.
pub(crate) fn prepare_coming<D: Disk>(
    alloc: Global,
    writer: &mut PageWriter,
    disk: &mut D,
    locks: &mut LockTable,
    transaction: TxnId,
    key: &[u8],
    max: PageNo,
    dense: bool,
    stepped: bool,
    beside: Beside<'_>,
) -> Result<Sight<LockAnswer<Coming>>, Fault>
    requires ready { IsReadyWriter D.Disk writer.old disk.old }
    requires working { writer.old.failed ≡ false }
    requires short { length key.now ≤ 255 }
    ensures outcome { Ends D.Disk AreLoaded (mild_to_split (Some max)) writer.old disk.old writer.new disk.new (fault_of result) }
    ensures kept { (pages : AllPages) (m : IndexMap) (rid : ℕ) → HasWholeTreeBut D.Disk pages beside.entry writer.old disk.old → walk (bodies_of pages) ≡ entries m
        → ComingKept stepped pages beside.entry transaction key.now rid dense max m locks.old locks.new result }
    ensures never { IfErr result (λ e. e ≢ Capacity) }
    ensures table { OnErr result (SameTable locks.old locks.new) }
    ensures lasting { OnErr result (SameLasting locks.old locks.new) }
{
    let Sight::Seen(leaf) = leaf_beside(writer, disk, key, beside)? else {
        return Ok(Sight::Hidden);
    };
    let rid = rid_in(writer.page(leaf), key);
    if is_there(&rid) {
        let answer = ask_duplicate(locks, transaction, key)?;
        return Ok(Sight::Seen(answer));
    }
    if beside.has(leaf.number) {
        return Ok(Sight::Hidden);
    }
    if has_room(writer, leaf, key) {
        let coming = Coming::Fits(leaf.number);
        return ask_coming(
            writer,
            disk,
            locks,
            transaction,
            leaf,
            key,
            coming,
            stepped,
            beside,
        );
    }
    if !beside.is_none() {
        return Ok(Sight::Hidden);
    }
    let page = leaf.number;
    prepare_coming_split(
        alloc,
        writer,
        disk,
        locks,
        transaction,
        page,
        key,
        max,
        dense,
        stepped,
        beside,
    )
}

// ---- after it

// Logs the first page of a change that begins, with the mark of one under way. A want of memory in front of it is `Failed`, after the
// grant.
fn log_first<D: Disk>(
    writer: &mut PageWriter,
    disk: &mut D,
    begun: BegunChange,
) -> Result<BegunChange, Fault>
    requires ready { IsReadyWriter D.Disk writer.old disk.old }
    requires working { writer.old.failed ≡ false }
    requires left { begun.change.done < length begun.change.images }
    ensures outcome { Logs D.Disk true none_mild writer.old disk.old writer.new disk.new (fault_of result) }
    ensures kept { (b : Base) (base : ℕ) (s : Writer) (e : ℕ) → StandsAs D.Disk b base s writer.old disk.old → s.redo_end ≡ Some e
        → FirstKept D.Disk b base s begun disk.old writer.new disk.new result }
    ensures plan { IfOk result (λ more. (more.change.images ≡ begun.change.images) × (more.change.transaction ≡ begun.change.transaction) × (more.change.undo_next ≡ begun.change.undo_next) × (more.count ≡ begun.count)) }
{
    let mut begun = begun;
    match begun.step(writer, disk) {
        Ok(()) => Ok(begun),
        Err(fault) => Err(late(fault)),
    }
}

// Logs what was laid down.
fn log_coming<D: Disk>(
    writer: &mut PageWriter,
    disk: &mut D,
    transaction: &Transaction,
    key: &[u8],
    rid: Rid,
    coming: Coming,
) -> Result<Inserting, Fault>
    requires ready { IsReadyWriter D.Disk writer.old disk.old }
    requires working { writer.old.failed ≡ false }
    requires owner { 1 ≤ transaction.now.number }
    requires keyed { 1 ≤ length key.now }
    requires short { length key.now ≤ 255 }
    ensures outcome { Logs D.Disk true wants_numbers writer.old disk.old writer.new disk.new (fault_of result) }
    ensures kept { (b : Base) (base : ℕ) (s : Writer) (e : ℕ) (dense : Bool) (max : ℕ) (beside : BesideOf) (may : MayCome D.Disk b base s e transaction.now.number transaction.now.last transaction.now.undo_next key.now dense max beside coming writer.old disk.old)
        → ComingLogKept D.Disk b base s e transaction.now.number transaction.now.last transaction.now.undo_next key.now rid dense max beside coming may.since writer.new disk.new result }
{
    match coming {
        Coming::There => Ok(Inserting::There),
        Coming::Fits(page) => {
            let number = transaction.number;
            let lsn = log_insert(writer, disk, number, transaction.last, page, key, rid)?;
            Ok(Inserting::Put(lsn))
        }
        Coming::Splits(plan, leaf) => {
            let begun = plan.begin(transaction.number, transaction.last, transaction.undo_next);
            let begun = log_first(writer, disk, begun)?;
            Ok(Inserting::Split(begun, leaf))
        }
        Coming::UsedUp => Err(Fault::Capacity),
    }
}

/// What `insert` answers of a store whose structure changes go on over several steps, beside one of another transaction. Where the key's leaf
/// lacks room, and no change is under way, the locks are granted, that of the next name until the change ends, and the first page of its
/// split is logged: the change goes on by `BegunChange::step`, and ends with `insert_end`. The key goes then into the page that is answered.
///
/// It is hidden where a page that is made stands on the key's way or, of a key that is not there, where the walk to the next one comes to;
/// where the key would go into a page of the change beside; and where its leaf lacks room beside one. Then no lock was asked.
///
/// Refused as `insert` is; `Failed` where memory is wanted for the first page, after the grant. After `Memory`, `PagesFull`, `Wait` and `Die`
/// nobody holds another lock than before.
pub fn insert_beside<D: Disk>(
    alloc: Global,
    writer: &mut PageWriter,
    disk: &mut D,
    locks: &mut LockTable,
    transaction: &Transaction,
    key: &[u8],
    rid: Rid,
    max: PageNo,
    dense: bool,
    beside: Beside<'_>,
) -> Result<Sight<LockAnswer<Inserting>>, Fault>
    requires ready { IsReadyWriter D.Disk writer.old disk.old }
    requires working { writer.old.failed ≡ false }
    requires owner { 1 ≤ transaction.now.number }
    requires keyed { 1 ≤ length key.now }
    requires short { length key.now ≤ 255 }
    ensures outcome { Logs D.Disk true (mild_to_split (Some max)) writer.old disk.old writer.new disk.new (fault_of result) }
    ensures kept { (b : Base) (base : ℕ) (s : Writer) (e : ℕ) → MayEditBeside D.Disk b base s e transaction.now.number transaction.now.last transaction.now.undo_next (Insert key.now rid) beside.entry locks.old writer.old disk.old
        → InsertBesideKept D.Disk b base s e transaction.now.number transaction.now.last transaction.now.undo_next key.now rid dense max beside.entry locks.old locks.new disk.old writer.new disk.new result }
    ensures table { IfErr result (λ e. (e ≡ Memory) ⊎ (e ≡ PagesFull) → SameTable locks.old locks.new) }
    ensures lasting { IfErr result (λ e. (e ≡ Memory) ⊎ (e ≡ PagesFull) → SameLasting locks.old locks.new) }
{
    let number = transaction.number;
    let Sight::Seen(answer) = prepare_coming(
        alloc, writer, disk, locks, number, key, max, dense, true, beside,
    )?
    else {
        return Ok(Sight::Hidden);
    };
    let coming = match answer {
        LockAnswer::Granted(coming) => coming,
        LockAnswer::Wait(holder) => return Ok(Sight::Seen(LockAnswer::Wait(holder))),
        LockAnswer::Die => return Ok(Sight::Seen(LockAnswer::Die)),
    };
    let inserting = log_coming(writer, disk, transaction, key, rid, coming)?;
    Ok(Sight::Seen(LockAnswer::Granted(inserting)))
}

/// Ends an insert whose leaf was split first: all pages of its change are logged. It closes the change, and puts the key into the page that
/// `insert_beside` answered beside it. It answers the LSN of the key's record, the transaction's newest, from which its undo goes on.
///
/// It wants no memory, and a writer that works refuses it `LogFull` or `Device` alone; or, where a page's bytes are none, `NotAStore` after the
/// record that closes the change.
pub fn insert_end<D: Disk>(
    writer: &mut PageWriter,
    disk: &mut D,
    change: &Change,
    page: PageNo,
    key: &[u8],
    rid: Rid,
) -> Result<Lsn, Fault>
    requires ready { IsReadyWriter D.Disk writer.old disk.old }
    requires working { writer.old.failed ≡ false }
    requires end { change.now.done ≡ length change.now.images }
    requires keyed { 1 ≤ length key.now }
    requires short { length key.now ≤ 255 }
    ensures outcome { Logs D.Disk true none_mild writer.old disk.old writer.new disk.new (fault_of result) }
    ensures kept { (b : Base) (base : ℕ) (s : Writer) (e : ℕ) → MayEnd D.Disk b base s e change.now page key.now writer.old disk.old
        → InsertEndKept D.Disk b base s e change.now page key.now rid disk.old writer.new disk.new result }
    ensures never { IfErr result (λ e. e ≢ Failed) }
{
    let last = change.close(writer, disk)?;
    log_insert(writer, disk, change.owner(), last, page, key, rid)
}
