//! One entry: that of a key, the next, or the one before; beside a structure change of another transaction that is made page by page, or beside none.

ghost use Rattle.std.specs.Prelude.{◌≡◌, ◌⊎◌, ◌<◌, ℕ, Bool, None, false, true, length, IfOk, IfErr, OnErr};
ghost use Rattle.std.specs.FinMap.{entries, get};
ghost use Rattle.im_base_types.specs.declared.fault.Fault.TheVariants.{Memory};
ghost use Rattle.im_base_types.specs.Maps.{IndexMap, From, first_in, last_in};
ghost use Rattle.im_base_types.specs.Answers.{Fetch, Prev, found as found_reply};
ghost use Rattle.im_page_pool.specs.Pool.{page_at, IsAt};
ghost use Rattle.im_page_writer.specs.PageWriter.{IsReadyWriter};
ghost use Rattle.im_page_writer.specs.Outcome.{fault_of, AllPages, IsSound, Lists};
ghost use Rattle.im_theory_machine.specs.Table.{SameLasting, SameTable};
ghost use Rattle.im_theory_page.specs.Entry.{entry_at};
ghost use Rattle.im_theory_tree.specs.Levels.{walk};
ghost use Rattle.im_tree_search.specs.Backward.{MeetsDoneBack};
ghost use Rattle.im_tree_search.specs.Beside.{MeetsDone};
ghost use Rattle.im_tree_search.specs.Found.{IsReached};
ghost use Rattle.im_tree_search.specs.Levels.{bodies_of, start_at, HasLevel};
ghost use Rattle.im_tree_search.specs.HeldPages.{HoldsBack, HoldsOn, IsQuiet};
ghost use Rattle.im_tree_search.specs.Sights.{is_done, HasTreeBut, IfSeen};
ghost use Rattle.im_engine_access.specs.LockAnswers.{as_entry, as_found, entry_found, seek_at};
ghost use Rattle.im_engine_access.specs.LockCalls.{AsksLocks};
ghost use Rattle.im_engine_access.specs.Reads.{IsReadBeside};

use crate::asking::{ask_around, ask_found, ask_gap, ask_there};
use crate::lock_answer::LockAnswer;
use im_base_disk::Disk;
use im_base_types::{Fault, Key, Rid, TxnId};
use im_engine_locks::LockTable;
use im_page::Page;
use im_page_pool::Frame;
use im_page_writer::PageWriter;
use im_tree_search::{
    Beside, Sight, leaf_beside, next_entry, next_in_leaf_beside, place_around, prev_entry, value_of,
};
use std::alloc::Global;

// Asks the name after a key that is not there. Its leaf is held.
fn fetch_gap<D: Disk>(
    writer: &mut PageWriter,
    disk: &mut D,
    locks: &mut LockTable,
    transaction: TxnId,
    held: Frame,
    key: &[u8],
    beside: Beside<'_>,
) -> Result<Sight<LockAnswer<Option<Rid>>>, Fault>
    requires ready { IsReadyWriter D.Disk writer.old disk.old }
    requires working { writer.old.failed ≡ false }
    requires at { IsAt writer.old.pool held }
    requires page { HasLevel 0 (page_at writer.old.pool held.number).body }
    ensures outcome { AsksLocks D.Disk writer.old disk.old writer.new disk.new (fault_of result) }
    ensures kept { (pages : AllPages) (m : IndexMap) → HasTreeBut D.Disk pages beside.entry writer.old disk.old → IsReached pages key.now 0 held.number writer.old.pool → walk (bodies_of pages) ≡ entries m → get m key.now ≡ None
        → IsSound result (IsReadBeside found_reply transaction (Fetch key.now) m (bodies_of pages) beside.entry locks.old locks.new) }
    ensures table { OnErr result (SameTable locks.old locks.new) }
    ensures lasting { OnErr result (SameLasting locks.old locks.new) }
    ensures quiet { (set : ℕ → Bool) → HoldsOn key.now writer.old.pool set → set held.number ≡ true → IsQuiet writer.old disk.old writer.new disk.new }
{
    let Sight::Seen((leaf, next)) = next_in_leaf_beside(writer, disk, held, key, beside)? else {
        return Ok(Sight::Hidden);
    };
    let answer = ask_gap(locks, transaction, key, writer.page(leaf), &next)?;
    Ok(Sight::Seen(answer))
}

/// The row id of a key, `None` where the index doesn't have it. The key's lock is asked where it is there, else that of the next
/// name, which is looked for only then, from the key's leaf on, which is looked for once. It is hidden where a page that is made
/// stands on the key's way or, of a key that is not there, where the walk to the next one comes to; then no lock was asked. Where the pages of the
/// key's way are held, page 0 and the leaves after too, nothing is asked of the disk, whatever is answered (`quiet`).
///
/// Refused as `im_tree_search::next_entry` is, and `Memory` where the lock table wants it. After a refusal, `Wait` and `Die` nobody holds
/// another lock than before.
pub fn fetch<D: Disk>(
    writer: &mut PageWriter,
    disk: &mut D,
    locks: &mut LockTable,
    transaction: TxnId,
    key: &[u8],
    beside: Beside<'_>,
) -> Result<Sight<LockAnswer<Option<Rid>>>, Fault>
    requires ready { IsReadyWriter D.Disk writer.old disk.old }
    ensures outcome { AsksLocks D.Disk writer.old disk.old writer.new disk.new (fault_of result) }
    ensures kept { (pages : AllPages) (m : IndexMap) → HasTreeBut D.Disk pages beside.entry writer.old disk.old → walk (bodies_of pages) ≡ entries m
        → IsSound result (IsReadBeside found_reply transaction (Fetch key.now) m (bodies_of pages) beside.entry locks.old locks.new) }
    ensures table { OnErr result (SameTable locks.old locks.new) }
    ensures lasting { OnErr result (SameLasting locks.old locks.new) }
    ensures quiet { (set : ℕ → Bool) → writer.old.failed ≡ false → HoldsOn key.now writer.old.pool set → IsQuiet writer.old disk.old writer.new disk.new }
{
    let Sight::Seen(held) = leaf_beside(writer, disk, key, beside)? else {
        return Ok(Sight::Hidden);
    };
    if let Some(rid) = value_of(writer.page(held), key) {
        let answer = ask_there(locks, transaction, key, rid)?;
        return Ok(Sight::Seen(answer));
    }
    fetch_gap(writer, disk, locks, transaction, held, key, beside)
}

// An entry of a page, copied, its key on the heap: so what is handed on takes little room. Refused `Memory` alone.
fn entry_of(alloc: Global, page: &Page, at: usize) -> Result<(Box<Key>, Rid), Fault>
    requires { at < length page.now.body.entries }
    ensures entry { IfOk result (λ entry. as_entry entry ≡ entry_at page.now.body.entries at) }
    ensures memory { IfErr result (λ e. e ≡ Memory) }
{
    let key = Key::new(page.key(at))?;
    let key = Box::new(alloc, key).map_err(|_| Fault::Memory)?;
    Ok((key, page.value(at)))
}

// The first entry at or above a key, or above it, copied.
fn found_from<D: Disk>(
    alloc: Global,
    writer: &mut PageWriter,
    disk: &mut D,
    key: &[u8],
    inclusive: bool,
    beside: Beside<'_>,
) -> Result<Sight<Option<(Box<Key>, Rid)>>, Fault>
    requires ready { IsReadyWriter D.Disk writer.old disk.old }
    ensures outcome { Lists D.Disk writer.old disk.old writer.new disk.new (fault_of result) }
    ensures kept { (pages : AllPages) → HasTreeBut D.Disk pages beside.entry writer.old disk.old
        → IsSound result (IfSeen (λ found. as_found found ≡ first_in (start_at inclusive key.now) (walk (bodies_of pages))) (MeetsDone (bodies_of pages) (is_done beside.entry) (start_at inclusive key.now))) }
    ensures quiet { (set : ℕ → Bool) → writer.old.failed ≡ false → HoldsOn key.now writer.old.pool set → IsQuiet writer.old disk.old writer.new disk.new }
{
    let Sight::Seen(found) = next_entry(writer, disk, key, inclusive, beside)? else {
        return Ok(Sight::Hidden);
    };
    let Some(place) = found else {
        return Ok(Sight::Seen(None));
    };
    let entry = entry_of(alloc, writer.page(place.frame), place.at)?;
    Ok(Sight::Seen(Some(entry)))
}

/// The first entry at or above a key (`inclusive`), or the first above it, copied; `None` where the index has none. The lock of its
/// key is asked, else that of the name past the last key. It is hidden where a page that is made stands on the key's way, or where the walk along
/// the leaves comes to; then no lock was asked. Where the pages are held that `fetch` speaks of, nothing is asked of the disk (`quiet`).
///
/// Refused as `fetch` is, and `Memory` where the copy wants it, before a lock is asked.
pub fn seek<D: Disk>(
    alloc: Global,
    writer: &mut PageWriter,
    disk: &mut D,
    locks: &mut LockTable,
    transaction: TxnId,
    key: &[u8],
    inclusive: bool,
    beside: Beside<'_>,
) -> Result<Sight<LockAnswer<Option<(Box<Key>, Rid)>>>, Fault>
    requires ready { IsReadyWriter D.Disk writer.old disk.old }
    ensures outcome { AsksLocks D.Disk writer.old disk.old writer.new disk.new (fault_of result) }
    ensures kept { (pages : AllPages) (m : IndexMap) → HasTreeBut D.Disk pages beside.entry writer.old disk.old → walk (bodies_of pages) ≡ entries m
        → IsSound result (IsReadBeside entry_found transaction (seek_at inclusive key.now) m (bodies_of pages) beside.entry locks.old locks.new) }
    ensures table { OnErr result (SameTable locks.old locks.new) }
    ensures lasting { OnErr result (SameLasting locks.old locks.new) }
    ensures quiet { (set : ℕ → Bool) → writer.old.failed ≡ false → HoldsOn key.now writer.old.pool set → IsQuiet writer.old disk.old writer.new disk.new }
{
    let Sight::Seen(found) = found_from(alloc, writer, disk, key, inclusive, beside)? else {
        return Ok(Sight::Hidden);
    };
    let answer = ask_found(locks, transaction, found)?;
    Ok(Sight::Seen(answer))
}

// The last entry below a key, copied.
fn found_below<D: Disk>(
    alloc: Global,
    writer: &mut PageWriter,
    disk: &mut D,
    key: &[u8],
    beside: Beside<'_>,
) -> Result<Sight<Option<(Box<Key>, Rid)>>, Fault>
    requires ready { IsReadyWriter D.Disk writer.old disk.old }
    ensures outcome { Lists D.Disk writer.old disk.old writer.new disk.new (fault_of result) }
    ensures kept { (pages : AllPages) → HasTreeBut D.Disk pages beside.entry writer.old disk.old
        → IsSound result (IfSeen (λ found. as_found found ≡ last_in key.now (walk (bodies_of pages))) (MeetsDoneBack (bodies_of pages) (is_done beside.entry) key.now)) }
    ensures quiet { (set : ℕ → Bool) → writer.old.failed ≡ false → HoldsBack key.now writer.old.pool set → IsQuiet writer.old disk.old writer.new disk.new }
{
    let Sight::Seen(found) = prev_entry(writer, disk, key, beside)? else {
        return Ok(Sight::Hidden);
    };
    let Some(place) = found else {
        return Ok(Sight::Seen(None));
    };
    let entry = entry_of(alloc, writer.page(place.frame), place.at)?;
    Ok(Sight::Seen(Some(entry)))
}

// The last entry below a key, and the first at or above it, copied. Mostly the key's leaf has both, and the search goes down once; else
// each is looked for, and what was found first stands copied when its leaf is gone from the pool.
#[tactic(auto, using(im_page_writer::proofs::Outcomes::then, im_page_writer::proofs::Outcomes::refused))]
fn found_around<D: Disk>(
    alloc: Global,
    writer: &mut PageWriter,
    disk: &mut D,
    key: &[u8],
    beside: Beside<'_>,
) -> Result<Sight<(Option<(Box<Key>, Rid)>, Option<(Box<Key>, Rid)>)>, Fault>
    requires ready { IsReadyWriter D.Disk writer.old disk.old }
    ensures outcome { Lists D.Disk writer.old disk.old writer.new disk.new (fault_of result) }
    ensures kept { (pages : AllPages) → HasTreeBut D.Disk pages beside.entry writer.old disk.old
        → IsSound result (IfSeen (λ x. (as_found x.0 ≡ last_in key.now (walk (bodies_of pages))) × (as_found x.1 ≡ first_in (From key.now) (walk (bodies_of pages))))
        (MeetsDoneBack (bodies_of pages) (is_done beside.entry) key.now ⊎ MeetsDone (bodies_of pages) (is_done beside.entry) (From key.now))) }
    ensures quiet { (set : ℕ → Bool) → writer.old.failed ≡ false → HoldsOn key.now writer.old.pool set → HoldsBack key.now writer.old.pool set → IsQuiet writer.old disk.old writer.new disk.new }
{
    let Sight::Seen(leaf) = leaf_beside(writer, disk, key, beside)? else {
        return Ok(Sight::Hidden);
    };
    let page = writer.page(leaf);
    if let Some(place) = place_around(page, key) {
        let below = entry_of(alloc, page, place - 1)?;
        let next = entry_of(alloc, page, place)?;
        return Ok(Sight::Seen((Some(below), Some(next))));
    }
    let Sight::Seen(next) = found_from(alloc, writer, disk, key, true, beside)? else {
        return Ok(Sight::Hidden);
    };
    let Sight::Seen(below) = found_below(alloc, writer, disk, key, beside)? else {
        return Ok(Sight::Hidden);
    };
    Ok(Sight::Seen((below, next)))
}

/// The last entry below a key, copied; `None` where the index has none. The lock of the first key at or above it is asked, else that of the
/// name past the last key, which guards the gap below the key; and that of the key that is answered, where there is one: all at once. It is hidden
/// where a page that is made stands on the key's way, or where the walk back comes to, or that on to the first entry at or above the key; then no
/// lock was asked. Where those pages are held, and the leaves before too, nothing is asked of the disk (`quiet`).
///
/// Refused as `seek` is.
pub fn prev<D: Disk>(
    alloc: Global,
    writer: &mut PageWriter,
    disk: &mut D,
    locks: &mut LockTable,
    transaction: TxnId,
    key: &[u8],
    beside: Beside<'_>,
) -> Result<Sight<LockAnswer<Option<(Box<Key>, Rid)>>>, Fault>
    requires ready { IsReadyWriter D.Disk writer.old disk.old }
    ensures outcome { AsksLocks D.Disk writer.old disk.old writer.new disk.new (fault_of result) }
    ensures kept { (pages : AllPages) (m : IndexMap) → HasTreeBut D.Disk pages beside.entry writer.old disk.old → walk (bodies_of pages) ≡ entries m
        → IsSound result (IsReadBeside entry_found transaction (Prev key.now) m (bodies_of pages) beside.entry locks.old locks.new) }
    ensures table { OnErr result (SameTable locks.old locks.new) }
    ensures lasting { OnErr result (SameLasting locks.old locks.new) }
    ensures quiet { (set : ℕ → Bool) → writer.old.failed ≡ false → HoldsOn key.now writer.old.pool set → HoldsBack key.now writer.old.pool set → IsQuiet writer.old disk.old writer.new disk.new }
{
    let Sight::Seen((below, next)) = found_around(alloc, writer, disk, key, beside)? else {
        return Ok(Sight::Hidden);
    };
    let answer = ask_around(locks, transaction, below, next)?;
    Ok(Sight::Seen(answer))
}
