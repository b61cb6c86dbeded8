//! Searches over a tree of a root and three leaves, of which the second is empty, and over chains that lead round in a ring.
ghost use Rattle.im_page_writer.specs.PageWriter.{IsReadyWriter};

use crate::pages::{add_leaf, add_root, add_three_leaves};
use crate::shared::{end, opened};
use im_base_disk::Disk;
use im_base_types::{Fault, Key, PageNo, Rid};
use im_page_writer::PageWriter;
use im_tree_search::{
    Beside, NextKey, Sight, entries, entries_between, leaf_beside, leaf_for, next_entry,
    next_in_leaf_beside, prev_entry, value_of,
};
use std::alloc::Global;
use std::test::Fail;

// What a search is asked.
#[derive(Clone, Copy)]
enum Ask {
    // The row id of a key.
    Locate(&'static [u8]),
    // The leaf of a key.
    Leaf(&'static [u8]),
    // The next entry at or above a key, or above it.
    Next(&'static [u8], bool),
    // The last entry below a key.
    Prev(&'static [u8]),
    // The leaf of a key, and the key after it.
    Beside(&'static [u8]),
    // Whether the entries of a range, up to a limit, are those of these keys of one byte.
    Range(&'static [u8], &'static [u8], usize, &'static [u8]),
    // Whether all entries are those of these keys of one byte.
    All(&'static [u8]),
}

// What a search answers.
#[derive(Clone, Copy, PartialEq, Eq)]
enum Told {
    Row(Rid),
    Absent,
    // The number of a leaf.
    Leaf(PageNo),
    // The first byte of a key, and its row id.
    Entry(u8, Rid),
    // The number of a leaf, and the first byte of the next key.
    Beside(PageNo, u8),
    // The number of a leaf with no next key.
    Last(PageNo),
    // Whether a range is as it was said, and what stands after it: 0 where nothing is said of it, 1 at the end, else the first byte of the
    // next key.
    Range(bool, u8),
    // Whether the entries are those that were said.
    All(bool),
    // Nothing is hidden beside no structure change.
    Hidden,
    Refused(Fault),
}

// The row id of a key.
fn located<D: Disk>(writer: &mut PageWriter, disk: &mut D, key: &[u8]) -> Told
    requires ready { IsReadyWriter D.Disk writer.old disk.old }
    ensures ready { IsReadyWriter D.Disk writer.new disk.new }
{
    let frame = match leaf_for(writer, disk, key) {
        Ok(frame) => frame,
        Err(fault) => return Told::Refused(fault),
    };
    match value_of(writer.page(frame), key) {
        Some(rid) => Told::Row(rid),
        None => Told::Absent,
    }
}

// The leaf of a key.
fn leaf_of<D: Disk>(writer: &mut PageWriter, disk: &mut D, key: &[u8]) -> Told
    requires ready { IsReadyWriter D.Disk writer.old disk.old }
    ensures ready { IsReadyWriter D.Disk writer.new disk.new }
{
    match leaf_for(writer, disk, key) {
        Ok(frame) => Told::Leaf(frame.number),
        Err(fault) => Told::Refused(fault),
    }
}

// The next entry.
fn next<D: Disk>(writer: &mut PageWriter, disk: &mut D, key: &[u8], inclusive: bool) -> Told
    requires ready { IsReadyWriter D.Disk writer.old disk.old }
    ensures ready { IsReadyWriter D.Disk writer.new disk.new }
{
    match next_entry(writer, disk, key, inclusive, Beside::none()) {
        Ok(Sight::Hidden) => Told::Hidden,
        Ok(Sight::Seen(None)) => Told::Absent,
        Ok(Sight::Seen(Some(place))) => {
            let leaf = writer.page(place.frame);
            Told::Entry(leaf.key(place.at)[0], leaf.value(place.at))
        }
        Err(fault) => Told::Refused(fault),
    }
}

// The last entry below a key.
fn prev<D: Disk>(writer: &mut PageWriter, disk: &mut D, key: &[u8]) -> Told
    requires ready { IsReadyWriter D.Disk writer.old disk.old }
    ensures ready { IsReadyWriter D.Disk writer.new disk.new }
{
    match prev_entry(writer, disk, key, Beside::none()) {
        Ok(Sight::Hidden) => Told::Hidden,
        Ok(Sight::Seen(None)) => Told::Absent,
        Ok(Sight::Seen(Some(place))) => {
            let leaf = writer.page(place.frame);
            Told::Entry(leaf.key(place.at)[0], leaf.value(place.at))
        }
        Err(fault) => Told::Refused(fault),
    }
}

// The leaf of a key, and the key after it.
fn beside<D: Disk>(writer: &mut PageWriter, disk: &mut D, key: &[u8]) -> Told
    requires ready { IsReadyWriter D.Disk writer.old disk.old }
    ensures ready { IsReadyWriter D.Disk writer.new disk.new }
{
    let leaf = match leaf_beside(writer, disk, key, Beside::none()) {
        Ok(Sight::Seen(leaf)) => leaf,
        Ok(Sight::Hidden) => return Told::Hidden,
        Err(fault) => return Told::Refused(fault),
    };
    let (frame, next) = match next_in_leaf_beside(writer, disk, leaf, key, Beside::none()) {
        Ok(Sight::Seen(found)) => found,
        Ok(Sight::Hidden) => return Told::Hidden,
        Err(fault) => return Told::Refused(fault),
    };
    match next {
        NextKey::Here(at) => Told::Beside(frame.number, writer.page(frame).key(at)[0]),
        NextKey::There(key) => Told::Beside(frame.number, key.bytes()[0]),
        NextKey::End => Told::Last(frame.number),
    }
}

// Whether these are the entries of these keys of one byte, which is the row id too.
fn has_entries(list: &Vec<(Key, Rid)>, keys: &[u8]) -> bool {
    if list.len() != keys.len() {
        return false;
    }
    for i in 0..keys.len() {
        let (key, rid) = &list[i];
        if key.bytes() != [keys[i]].as_slice() || *rid != keys[i] as u64 {
            return false;
        }
    }
    true
}

// The entries of a range.
fn range<D: Disk>(
    alloc: Global,
    writer: &mut PageWriter,
    disk: &mut D,
    bounds: (&[u8], &[u8]),
    limit: usize,
    keys: &[u8],
) -> Told
    requires ready { IsReadyWriter D.Disk writer.old disk.old }
    ensures ready { IsReadyWriter D.Disk writer.new disk.new }
{
    let none = Beside::none();
    let (list, next) = match entries_between(alloc, writer, disk, bounds.0, bounds.1, limit, none) {
        Ok(Sight::Hidden) => return Told::Hidden,
        Ok(Sight::Seen(found)) => found,
        Err(fault) => return Told::Refused(fault),
    };
    let behind = match next {
        None => 0,
        Some(NextKey::There(key)) => key.bytes()[0],
        Some(_) => 1,
    };
    Told::Range(has_entries(&list, keys), behind)
}

// All entries.
fn all<D: Disk>(alloc: Global, writer: &mut PageWriter, disk: &mut D, keys: &[u8]) -> Told
    requires ready { IsReadyWriter D.Disk writer.old disk.old }
    ensures ready { IsReadyWriter D.Disk writer.new disk.new }
{
    match entries(alloc, writer, disk) {
        Ok(list) => Told::All(has_entries(&list, keys)),
        Err(fault) => Told::Refused(fault),
    }
}

// What one search answers.
fn answer<D: Disk>(alloc: Global, writer: &mut PageWriter, disk: &mut D, ask: &Ask) -> Told
    requires ready { IsReadyWriter D.Disk writer.old disk.old }
    ensures ready { IsReadyWriter D.Disk writer.new disk.new }
{
    match ask {
        Ask::Locate(key) => located(writer, disk, key),
        Ask::Leaf(key) => leaf_of(writer, disk, key),
        Ask::Next(key, inclusive) => next(writer, disk, key, *inclusive),
        Ask::Prev(key) => prev(writer, disk, key),
        Ask::Beside(key) => beside(writer, disk, key),
        Ask::Range(lo, hi, limit, keys) => range(alloc, writer, disk, (lo, hi), *limit, keys),
        Ask::All(keys) => all(alloc, writer, disk, keys),
    }
}

// What searches answer, one after another.
fn answers<D: Disk>(
    alloc: Global,
    writer: &mut PageWriter,
    disk: &mut D,
    asks: &[Ask],
) -> Result<Vec<Told>, Fail>
    requires ready { IsReadyWriter D.Disk writer.old disk.old }
{
    let mut list = Vec::new(alloc);
    for ask in asks {
        list.push(answer(alloc, writer, disk, ask))?;
    }
    Ok(list)
}

// What pages a file has.
#[derive(Clone, Copy)]
enum Tree {
    Three,
    // The last leaf leads back to the second.
    Ring,
    // The second leaf stands before the first.
    RingBack,
    // A root over three leaves, of which the file has the first alone.
    First,
    New,
}

// Adds the pages of a tree.
fn add_tree(file: &mut Vec<u8>, tree: Tree) -> Result<(), Fail> {
    match tree {
        Tree::Three => add_three_leaves(file, 0),
        Tree::Ring => add_three_leaves(file, 3),
        Tree::RingBack => {
            add_root(file, 5)?;
            add_leaf(file, b"ab", 3, 3)?;
            add_leaf(file, b"", 2, 4)?;
            add_leaf(file, b"mx", 3, 0)
        }
        Tree::First => {
            add_root(file, 3)?;
            add_leaf(file, b"ab", 0, 0)
        }
        Tree::New => Ok(()),
    }
}

// What searches over these pages answer.
fn over(alloc: Global, tree: Tree, asks: &[Ask]) -> Result<Vec<Told>, Fail> {
    let mut pages = Vec::new(alloc);
    add_tree(&mut pages, tree)?;
    let (mut writer, mut disk) = opened(alloc, pages)?;
    let told = answers(alloc, &mut writer, &mut disk, asks);
    end(writer, disk);
    told
}

// Searches over pages, and what they answer.
static ROWS: [(&str, Tree, &[Ask], &[Told]); 12] = [
    (
        "keys_are_found_in_their_leaves",
        Tree::Three,
        &[
            Ask::Locate(b"a"),
            Ask::Locate(b"m"),
            Ask::Locate(b"c"),
            Ask::Locate(b"mm"),
            Ask::Leaf(b"lz"),
        ],
        &[
            Told::Row(97),
            Told::Row(109),
            Told::Absent,
            Told::Absent,
            Told::Leaf(3),
        ],
    ),
    (
        "the_next_entry_stands_past_an_empty_leaf",
        Tree::Three,
        &[
            Ask::Next(b"a", true),
            Ask::Next(b"a", false),
            Ask::Next(b"b", false),
            Ask::Next(b"d", true),
            Ask::Next(b"x", true),
            Ask::Next(b"x", false),
        ],
        &[
            Told::Entry(97, 97),
            Told::Entry(98, 98),
            Told::Entry(109, 109),
            Told::Entry(109, 109),
            Told::Entry(120, 120),
            Told::Absent,
        ],
    ),
    (
        "the_entry_before_stands_before_an_empty_leaf",
        Tree::Three,
        &[
            Ask::Prev(b"a"),
            Ask::Prev(b"b"),
            Ask::Prev(b"bb"),
            Ask::Prev(b"d"),
            Ask::Prev(b"m"),
            Ask::Prev(b"mm"),
            Ask::Prev(b"x"),
            Ask::Prev(b"z"),
        ],
        &[
            Told::Absent,
            Told::Entry(97, 97),
            Told::Entry(98, 98),
            Told::Entry(98, 98),
            Told::Entry(98, 98),
            Told::Entry(109, 109),
            Told::Entry(109, 109),
            Told::Entry(120, 120),
        ],
    ),
    (
        "the_next_key_stands_in_the_leaf",
        Tree::Three,
        &[Ask::Beside(b"a"), Ask::Beside(b"x")],
        &[Told::Beside(2, 98), Told::Last(4)],
    ),
    (
        "the_next_key_stands_in_a_later_leaf",
        Tree::Three,
        &[Ask::Beside(b"b"), Ask::Beside(b"d")],
        &[Told::Beside(2, 109), Told::Beside(3, 109)],
    ),
    (
        "a_range_goes_over_leaves",
        Tree::Three,
        &[
            Ask::Range(b"b", b"m", 9, b"bm"),
            Ask::Range(b"aa", b"c", 9, b"b"),
            Ask::Range(b"m", b"z", 9, b"mx"),
        ],
        &[
            Told::Range(true, 120),
            Told::Range(true, 109),
            Told::Range(true, 1),
        ],
    ),
    (
        "a_range_ends_at_its_limit",
        Tree::Three,
        &[
            Ask::Range(b"a", b"z", 3, b"abm"),
            Ask::Range(b"a", b"z", 0, b""),
            Ask::Range(b"m", b"b", 9, b""),
        ],
        &[
            Told::Range(true, 0),
            Told::Range(true, 0),
            Told::Range(true, 0),
        ],
    ),
    (
        "all_entries_are_listed",
        Tree::Three,
        &[Ask::All(b"abmx")],
        &[Told::All(true)],
    ),
    (
        "a_ring_of_leaves_is_no_store",
        Tree::Ring,
        &[
            Ask::Next(b"x", true),
            Ask::Next(b"y", true),
            Ask::All(b"abmx"),
            Ask::Locate(b"a"),
        ],
        &[
            Told::Entry(120, 120),
            Told::Refused(Fault::NotAStore),
            Told::Refused(Fault::NotAStore),
            Told::Row(97),
        ],
    ),
    (
        "a_ring_of_leaves_before_a_key_is_no_store",
        Tree::RingBack,
        &[
            Ask::Prev(b"b"),
            Ask::Prev(b"a"),
            Ask::Prev(b"m"),
            Ask::Next(b"y", true),
        ],
        &[
            Told::Entry(97, 97),
            Told::Refused(Fault::NotAStore),
            Told::Entry(98, 98),
            Told::Absent,
        ],
    ),
    (
        "a_child_of_another_level_is_no_store",
        Tree::First,
        &[Ask::Locate(b"b"), Ask::Locate(b"c")],
        &[Told::Row(98), Told::Refused(Fault::NotAStore)],
    ),
    (
        "a_new_store_has_no_entry",
        Tree::New,
        &[
            Ask::Leaf(b"k"),
            Ask::Locate(b"k"),
            Ask::Next(b"k", true),
            Ask::Prev(b"k"),
            Ask::All(b""),
        ],
        &[
            Told::Leaf(1),
            Told::Absent,
            Told::Absent,
            Told::Absent,
            Told::All(true),
        ],
    ),
];

#[test]
fn searches_are_answered(rt: HostRuntime) -> Result<(), Fail> {
    for (name, tree, asks, told) in &ROWS {
        assert!(rt;
            over(rt.alloc(), *tree, asks)?.as_slice() == *told,
            "{name}"
        );
    }
    Ok(())
}
