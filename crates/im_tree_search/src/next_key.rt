//! The key after a key.

ghost use Rattle.std.specs.Prelude.{◌≡◌, ◌≤◌, ◌<◌, ℕ, Bool, false, true, IfOk, length};
ghost use Rattle.im_base_types.specs.Maps.{Above};
ghost use Rattle.im_theory_page.specs.Entry.{entry_at};
ghost use Rattle.im_page_pool.specs.Pool.{page_at, IsAt};
ghost use Rattle.im_page_writer.specs.PageWriter.{IsReadyWriter};
ghost use Rattle.im_page_writer.specs.Outcome.{fault_of, AllPages, IsSound, Reads};
ghost use Rattle.im_theory_tree.specs.Lookups.{IsAhead};
ghost use Rattle.im_tree_search.specs.Levels.{HasLevel, bodies_of};
ghost use Rattle.im_tree_search.specs.Found.{IsReached};
ghost use Rattle.im_tree_search.specs.HeldPages.{HoldsOn, IsQuiet};
ghost use Rattle.im_tree_search.specs.NextKeys.{far_name, name_above, IsFar, IsWithinLeaf, IsNextInLeaf};
ghost use Rattle.im_tree_search.specs.declared.next_key.NextKey.TheVariants.{There};
ghost use Rattle.im_tree_search.specs.Beside.{Comes, MeetsDone};
ghost use Rattle.im_tree_search.specs.Sights.{HasTreeBut, IfSeen, is_done};

use crate::change_beside::Beside;
use crate::leaf_chain::{first_along, first_past};
use crate::levels::page_beside;
use crate::sight::Sight;
use im_base_disk::Disk;
use im_base_types::{Fault, Key, PageNo};
use im_page::Page;
use im_page_pool::Frame;
use im_page_writer::PageWriter;

/// The next key above a key: the one at a place of the key's own leaf, one from a later leaf, copied, or none.
#[derive(Drop)]
pub enum NextKey {
    Here(usize),
    There(Key),
    End,
}

// The key of an entry, copied.
pub(crate) fn copied(page: &Page, i: usize) -> NextKey
    requires { i < length page.now.body.entries }
    ensures { result ≡ There (entry_at page.now.body.entries i).0 }
{
    match Key::new(page.key(i)) {
        Ok(key) => NextKey::There(key),
        Err(_) => NextKey::End,
    }
}

// The first key above a key along the leaf chain, from a leaf after that of the key on, copied.
fn name_along<D: Disk>(
    writer: &mut PageWriter,
    disk: &mut D,
    from: PageNo,
    key: &[u8],
    beside: Beside<'_>,
) -> Result<Sight<NextKey>, Fault>
    requires ready { IsReadyWriter D.Disk writer.old disk.old }
    requires working { writer.old.failed ≡ false }
    ensures outcome { Reads D.Disk writer.old disk.old writer.new disk.new (fault_of result) }
    ensures kept { (pages : AllPages) → HasTreeBut D.Disk pages beside.entry writer.old disk.old → IsAhead (bodies_of pages) (Above key.now) 0 from → Comes (bodies_of pages) (Above key.now) from
        → IsSound result (IfSeen (λ next. far_name next ≡ name_above key.now (bodies_of pages)) (MeetsDone (bodies_of pages) (is_done beside.entry) (Above key.now))) }
    ensures far { IfOk result (IfSeen IsFar (1 ≤ beside.entry.done)) }
    ensures quiet { (set : ℕ → Bool) → HoldsOn key.now writer.old.pool set → (1 ≤ from → set from ≡ true) → IsQuiet writer.old disk.old writer.new disk.new }
{
    let Sight::Seen(found) = first_along(writer, disk, from, key, false, beside)? else {
        return Ok(Sight::Hidden);
    };
    let Some(place) = found else {
        return Ok(Sight::Seen(NextKey::End));
    };
    Ok(Sight::Seen(copied(writer.page(place.frame), place.at)))
}

/// The next key above a key, beside the key's leaf, which is held: the leaf's own entries are looked at first, by no get; where none is
/// above the key, the search goes along the leaf chain, and then gets the leaf again. Answered is where the leaf is held from now on. Beside a
/// structure change it is hidden where the key's leaf has to be got again and is made, or the walk along the chain comes to a leaf that is.
///
/// Refused as `next_entry` is.
#[tactic(auto, using(im_page_writer::proofs::Outcomes::then, im_page_writer::proofs::Outcomes::refused))]
pub fn next_in_leaf_beside<D: Disk>(
    writer: &mut PageWriter,
    disk: &mut D,
    leaf: Frame,
    key: &[u8],
    beside: Beside<'_>,
) -> Result<Sight<(Frame, NextKey)>, Fault>
    requires ready { IsReadyWriter D.Disk writer.old disk.old }
    requires working { writer.old.failed ≡ false }
    requires at { IsAt writer.old.pool leaf }
    requires page { HasLevel 0 (page_at writer.old.pool leaf.number).body }
    ensures outcome { Reads D.Disk writer.old disk.old writer.new disk.new (fault_of result) }
    ensures kept { (pages : AllPages) → HasTreeBut D.Disk pages beside.entry writer.old disk.old → IsReached pages key.now 0 leaf.number writer.old.pool
        → IsSound result (IfSeen (λ x. IsNextInLeaf pages key.now x.0.number x.1 writer.old.pool.gets writer.new.pool) (MeetsDone (bodies_of pages) (is_done beside.entry) (Above key.now))) }
    ensures at { IfOk result (IfSeen (λ x. IsAt writer.new.pool x.0) (1 ≤ beside.entry.done)) }
    ensures number { IfOk result (IfSeen (λ x. x.0.number ≡ leaf.number) Unit) }
    ensures leaf { IfOk result (IfSeen (IsWithinLeaf writer.new.pool) Unit) }
    ensures quiet { (set : ℕ → Bool) → HoldsOn key.now writer.old.pool set → set leaf.number ≡ true → IsQuiet writer.old disk.old writer.new disk.new }
{
    let page = writer.page(leaf);
    if let Some(at) = first_past(page, key, false) {
        return Ok(Sight::Seen((leaf, NextKey::Here(at))));
    }
    let next = page.next();
    let Sight::Seen(name) = name_along(writer, disk, next, key, beside)? else {
        return Ok(Sight::Hidden);
    };
    let Sight::Seen(frame) = page_beside(writer, disk, leaf.number, 0, beside)? else {
        return Ok(Sight::Hidden);
    };
    Ok(Sight::Seen((frame, name)))
}
