//! A leaf that loses its last entry under a chain of pages: they go with it.
use crate::pages::{add_leaf, add_meta, put, shown};
use crate::shared::{end, opened};
use im_base_types::{Fault, PageKind, PageNo};
use im_page::Page;
use im_smo_drop_leaf::plan_delete_last;
use im_smo_pages::Images;
use std::alloc::Global;
use std::test::Fail;

// Adds an inner page with one child.
fn add_single(file: &mut Vec<u8>, level: u8, child: PageNo) -> Result<(), Fail> {
    let mut page = Page::initial(1);
    if 0 < level {
        page.become_inner(level, child);
    }
    file.extend_from_slice(page.bytes())?;
    Ok(())
}

// Adds an inner page with two children, the second from the key `m` on.
fn add_inner(file: &mut Vec<u8>, level: u8, first: PageNo, second: PageNo) -> Result<(), Fail> {
    let mut page = Page::initial(1);
    if 0 < level {
        page.become_inner(level, first);
        put(&mut page, b"m", second as u64);
    }
    file.extend_from_slice(page.bytes())?;
    Ok(())
}

// Level and child of pages 2 to 5.
static SINGLES: [(u8, PageNo); 4] = [(2, 4), (2, 5), (1, 6), (1, 7)];

// Adds a root of level 3 over pages 2 and 3, each with one child, page 4 and page 5, and these with one leaf, page 6 and page 7.
fn add_two_chains(file: &mut Vec<u8>) -> Result<(), Fail> {
    add_meta(file, 8)?;
    add_inner(file, 3, 2, 3)?;
    for (level, child) in &SINGLES {
        add_single(file, *level, *child)?;
    }
    add_leaf(file, b"a", 0, 7)?;
    add_leaf(file, b"x", 6, 0)
}

// The plan of a delete over these pages.
fn plan(alloc: Global, key: u8) -> Result<Result<Images, Fault>, Fail> {
    let mut pages = Vec::new(alloc);
    add_two_chains(&mut pages)?;
    let (mut writer, mut disk) = opened(alloc, pages)?;
    let planned = plan_delete_last(alloc, &mut writer, &mut disk, &[key]);
    end(writer, disk);
    Ok(planned)
}

// Number, kind, level, entries, links and leftmost child of pages then.
static LEFT: [[u64; 7]; 6] = [
    [0, PageKind::Meta as u64, 0, 0, 3, 3, 8],
    [1, PageKind::Inner as u64, 3, 0, 0, 0, 2],
    [3, PageKind::Free as u64, 0, 0, 0, 5, 0],
    [5, PageKind::Free as u64, 0, 0, 0, 7, 0],
    [6, PageKind::Leaf as u64, 0, 1, 0, 0, 0],
    [7, PageKind::Free as u64, 0, 0, 0, 0, 0],
];

#[test]
fn pages_left_without_a_child_go_behind_the_leaf(rt: HostRuntime) -> Result<(), Fail> {
    let alloc = rt.alloc();
    let images = plan(alloc, b'x')??;
    assert!(rt; images.len() == 6);
    for want in &LEFT {
        assert!(rt; shown(&images, want[0] as PageNo) == *want, "{}", want[0]);
    }
    Ok(())
}
