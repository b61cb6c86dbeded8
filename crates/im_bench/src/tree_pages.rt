//! A file of pages that are a tree of three levels.

ghost use Rattle.std.specs.Prelude.{◌≡◌, ◌≤◌};
ghost use Rattle.im_theory_page.specs.Page.{HoldsEntries};

use im_base_types::{Fault, PageNo};
use im_bench_layers::keys::key_of;
use im_page::Page;
use std::alloc::Global;

/// How many entries each leaf has: seven tenths of what it has room for.
const ENTRIES: u32 = 147;
/// How many children an inner page above the leaves has at most: seven tenths of what it has room for.
const CHILDREN: u32 = 187;

/// An inner page that is to be made.
#[derive(Drop)]
struct Inner {
    level: u8,
    /// The first of its children, whose page numbers follow one another.
    child: PageNo,
    children: u32,
    /// How many leaves stand before those under it.
    before: u32,
    /// How many leaves stand under each child.
    under: u32,
    ghost above: { 1 ≤ level },
}

/// How many keys the tree of so many leaves has.
pub fn keys_in(leaves: u32) -> u64 {
    u64::from(leaves.wrapping_mul(ENTRIES))
}

/// The bytes of a meta page, a root, so many leaves, and the inner pages between. The row id of a key is its number.
pub fn tree(alloc: Global, leaves: u32) -> Result<Vec<u8>, Fault> {
    let mut file = Vec::new(alloc);
    let inner = leaves.wrapping_add(CHILDREN - 1) / CHILDREN;
    add_meta(&mut file, leaves.wrapping_add(inner).wrapping_add(2))?;
    let root = Inner {
        level: 2,
        child: leaves.wrapping_add(2),
        children: inner,
        before: 0,
        under: CHILDREN,
    };
    add_inner(&mut file, root)?;
    for leaf in 0..leaves {
        add_leaf(&mut file, leaf, leaves)?;
    }
    for i in 0..inner {
        let before = i.wrapping_mul(CHILDREN);
        let page = Inner {
            level: 1,
            child: before.wrapping_add(2),
            children: leaves.wrapping_sub(before).min(CHILDREN),
            before,
            under: 1,
        };
        add_inner(&mut file, page)?;
    }
    Ok(file)
}

// Puts the key of a number into a page that has room for it.
fn put(page: &mut Page, number: u32, value: u32)
    requires { HoldsEntries page.old.body.kind }
    ensures { page.new.body.kind ≡ page.old.body.kind }
{
    let key = key_of(u64::from(number));
    if let Err(i) = page.find(&key) {
        let _ = page.insert(i, &key, u64::from(value));
    }
}

// Adds a page to a file.
fn add(file: &mut Vec<u8>, page: &Page) -> Result<(), Fault> {
    file.extend_from_slice(page.bytes())
        .map_err(|_| Fault::Memory)
}

fn add_meta(file: &mut Vec<u8>, count: PageNo) -> Result<(), Fault> {
    let mut page = Page::initial(0);
    page.set_leftmost(count);
    add(file, &page)
}

fn add_leaf(file: &mut Vec<u8>, leaf: u32, leaves: u32) -> Result<(), Fault> {
    let mut page = Page::initial(1);
    let prev = if leaf == 0 { 0 } else { leaf.wrapping_add(1) };
    let last = leaf.wrapping_add(1) == leaves;
    let next = if last { 0 } else { leaf.wrapping_add(3) };
    page.become_leaf(prev, next);
    for i in 0..ENTRIES {
        let number = leaf.wrapping_mul(ENTRIES).wrapping_add(i);
        put(&mut page, number, number);
    }
    add(file, &page)
}

fn add_inner(file: &mut Vec<u8>, inner: Inner) -> Result<(), Fault> {
    let mut page = Page::initial(1);
    page.become_inner(inner.level, inner.child);
    for i in 1..inner.children {
        let leaf = inner.before.wrapping_add(i.wrapping_mul(inner.under));
        put(
            &mut page,
            leaf.wrapping_mul(ENTRIES),
            inner.child.wrapping_add(i),
        );
    }
    add(file, &page)
}
