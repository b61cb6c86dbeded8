//! Pages that are made by hand, as the bytes of a file, and pages among the images of a structure change.
ghost use Rattle.std.specs.Prelude.{◌≡◌, ◌≤◌, ◌<◌, ◌^◌, length};
ghost use Rattle.im_theory_page.specs.Page.{HoldsEntries};

use im_base_types::PageNo;
use im_page::Page;
use im_smo_pages::Images;
use std::alloc::Global;
use std::test::Fail;

/// Puts a key where it belongs.
pub fn put(page: &mut Page, key: &[u8], value: u64)
    requires holds { HoldsEntries page.old.body.kind }
    requires keyed { 1 ≤ length key.now }
    requires short { length key.now ≤ 255 }
    requires small { value < 2 ^ 32 }
    ensures { page.new.body.kind ≡ page.old.body.kind }
{
    if let Err(i) = page.find(key) {
        let _ = page.insert(i, key, value);
    }
}

/// Adds page 0, which says how many pages there are, to the bytes of a file.
pub fn add_meta(file: &mut Vec<u8>, count: PageNo) -> Result<(), Fail> {
    let mut meta = Page::initial(0);
    meta.set_leftmost(count);
    file.extend_from_slice(meta.bytes())?;
    Ok(())
}

/// Adds a leaf: its keys have one byte, which is the row id too.
pub fn add_leaf(file: &mut Vec<u8>, keys: &[u8], prev: PageNo, next: PageNo) -> Result<(), Fail> {
    let mut page = Page::initial(1);
    page.become_leaf(prev, next);
    for key in keys {
        put(&mut page, &[*key], *key as u64);
    }
    file.extend_from_slice(page.bytes())?;
    Ok(())
}

/// Adds page 0, which says how many pages there are, and an inner page 1 with leaves 2, 3 and 4 below it.
pub fn add_root(file: &mut Vec<u8>, count: PageNo) -> Result<(), Fail> {
    add_meta(file, count)?;
    let mut root = Page::initial(1);
    root.become_inner(1, 2);
    put(&mut root, b"c", 3);
    put(&mut root, b"m", 4);
    file.extend_from_slice(root.bytes())?;
    Ok(())
}

/// Adds a tree of a root and three leaves, of which the second is empty; the last leads to this page.
pub fn add_three_leaves(file: &mut Vec<u8>, next: PageNo) -> Result<(), Fail> {
    add_root(file, 5)?;
    add_leaf(file, b"ab", 0, 3)?;
    add_leaf(file, b"", 2, 4)?;
    add_leaf(file, b"mx", 3, next)
}

/// Number, kind, level, entries, links and leftmost child of a page among the images, or zeros.
pub fn shown(images: &Images, number: PageNo) -> [u64; 7] {
    match images.get(number) {
        None => [0; 7],
        Some(page) => [
            number as u64,
            page.kind() as u64,
            page.level() as u64,
            page.len() as u64,
            page.prev() as u64,
            page.next() as u64,
            page.leftmost() as u64,
        ],
    }
}
