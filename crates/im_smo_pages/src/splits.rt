//! Splits: the pages of each, from the page as it was.

ghost use Rattle.std.specs.Prelude.{◌≡◌, ◌⊎◌, ◌+◌, ◌<◌, ◌≤◌, true, false, [], ◌∷◌, OnErr, IfOk, IfErr, IsOk, length, take, drop};
ghost use Rattle.im_base_types.specs.declared.fault.Fault.TheVariants.{Capacity, NotAStore};
ghost use Rattle.im_base_types.specs.declared.page_kind.PageKind.TheVariants.{Leaf, Inner};
ghost use Rattle.im_theory_log.specs.Tree.{with_entries};
ghost use Rattle.im_theory_page.specs.Entry.{entry_at};
ghost use Rattle.im_theory_page.specs.Page.{is_leaf_kind};
ghost use Rattle.im_theory_page.specs.Split.{IsSplitBound, HasRoomForAny};
ghost use Rattle.im_smo_pages.specs.Bodies.{says, inner_body, with_separator};
ghost use Rattle.im_smo_pages.specs.Parts.{split_bound, IsPoint, SplitsAt, TakesSeparator, CanHalve, CanSplit, LeafSplit, InnerSplit, RootLeafSplit, RootInnerSplit};

use im_base_types::{Fault, PageKind, PageNo};
use im_page::{HALF_PAGE, Page};

// So many bytes of cells and slots leave room for an entry of any size.
const MOST: usize = 3_796;

// How many bytes of cells and slots stay left at most where a page is split: half of its room; of the last leaf of the chain, where
// splits are dense, nearly all of it.
fn bound_of(page: &Page, dense: bool) -> usize
    ensures rule { result ≡ split_bound (is_leaf_kind page.now.body.kind) dense page.now.body.next }
    ensures bound { IsSplitBound result }
{
    if page.kind() != PageKind::Leaf {
        return HALF_PAGE;
    }
    if dense {
        return dense_bound(page.next());
    }
    HALF_PAGE
}

// The same of a leaf where splits are dense, by the leaf after it.
fn dense_bound(next: PageNo) -> usize
    ensures rule { result ≡ split_bound true true next }
    ensures bound { IsSplitBound result }
{
    if next == 0 {
        return MOST;
    }
    HALF_PAGE
}

/// How many entries stay left where a page is split: the longest front whose cells and slots take at most 2,032 bytes, half of its room,
/// and that leaves two entries; of the last leaf of the chain, where splits are dense, at most 3,796. Both parts then have room for one
/// more entry of any size.
pub fn point_of(page: &Page, dense: bool) -> usize
    ensures point { IsPoint dense (is_leaf_kind page.now.body.kind) page.now.body result }
    ensures left { HasRoomForAny (is_leaf_kind page.now.body.kind) (take result page.now.body.entries) }
    ensures right { HasRoomForAny (is_leaf_kind page.now.body.kind) (drop result page.now.body.entries) }
{
    let bound = bound_of(page, dense);
    page.split_point(bound)
}

// The split point of a page of a kind, where an entry or more stays and two or more do not.
fn place(page: &Page, kind: PageKind, dense: bool) -> Result<usize, Fault>
    ensures at { IfOk result (λ n. SplitsAt dense kind page.now.body n) }
    ensures refused { IfErr result (λ e. e ≡ NotAStore) }
    ensures ok { CanHalve dense kind page.now.body → IsOk result }
{
    if page.kind() != kind {
        return Err(Fault::NotAStore);
    }
    let point = point_of(page, dense);
    if point == 0 {
        return Err(Fault::NotAStore);
    }
    Ok(point)
}

// Puts the key at place n of a page into the parent, with page q.
fn put_separator(page: &Page, n: usize, parent: &mut Page, q: PageNo) -> Result<(), Fault>
    requires { n < length page.now.body.entries }
    ensures takes { IfOk result (λ _. TakesSeparator page.now.body parent.old.body q n) }
    ensures put { IfOk result (λ _. parent.new ≡ says parent.old (with_separator parent.old.body (entry_at page.now.body.entries n).0 q)) }
    ensures same { OnErr result (parent.new ≡ parent.old) }
    ensures refused { IfErr result (λ e. e ≡ NotAStore) }
    ensures ok { TakesSeparator page.now.body parent.old.body q n → IsOk result }
{
    if parent.kind() != PageKind::Inner {
        return Err(Fault::NotAStore);
    }
    let key = page.key(n);
    let Err(at) = parent.find(key) else {
        return Err(Fault::NotAStore);
    };
    match parent.insert(at, key, q as u64) {
        Ok(()) => Ok(()),
        Err(_) => Err(Fault::NotAStore),
    }
}

/// Splits a leaf under its parent. `left` and `right`, whatever they were, become its parts, of numbers p and q: the
/// longest front of entries that takes at most half of the page's room, and the rest, after it in the leaf chain. Where splits are
/// `dense` and no leaf is after it, the front takes at most 3,796 bytes, and leaves two entries. The parent gets the right part's first key, with q. It answers how many entries stay left. The page after the
/// right part, if there is one, has then to be told of q by `link_prev`.
///
/// Refused `NotAStore`, with nothing changed, where the page is no leaf or has too few entries to be split, or the
/// parent is no inner page, has the key already or has no room for it. A page of a good tree that lacks room, under a
/// parent with room, is never refused.
pub fn split_leaf(
    page: &Page,
    left: &mut Page,
    right: &mut Page,
    parent: &mut Page,
    p: PageNo,
    q: PageNo,
    dense: bool,
) -> Result<usize, Fault>
    ensures split { IfOk result (λ n. LeafSplit dense page.now left.old right.old parent.old left.new right.new parent.new p q n) }
    ensures same { OnErr result ((left.new ≡ left.old) × (right.new ≡ right.old) × (parent.new ≡ parent.old)) }
    ensures refused { IfErr result (λ e. e ≡ NotAStore) }
    ensures ok { CanSplit dense Leaf page.now.body parent.old.body q → IsOk result }
{
    let n = place(page, PageKind::Leaf, dense)?;
    put_separator(page, n, parent, q)?;
    left.become_leaf(page.prev(), q);
    left.copy_entries(page, 0, n);
    right.become_leaf(p, page.next());
    right.copy_entries(page, n, page.len());
    Ok(n)
}

/// Splits an inner page under its parent. `left` and `right`, whatever they were, become its parts: the longest front of
/// entries that takes at most half of its room, and what stands after the entry after it. That entry's key moves up to
/// the parent, with q, the right part's number, and its child is the right part's leftmost one. It answers how many
/// entries stay left.
///
/// Refused `NotAStore`, with nothing changed, where the page is no inner page or has too few entries to be split, or
/// the parent is no inner page, has the key already or has no room for it. A page of a good tree that lacks room, under
/// a parent with room, is never refused.
pub fn split_inner(
    page: &Page,
    left: &mut Page,
    right: &mut Page,
    parent: &mut Page,
    q: PageNo,
) -> Result<usize, Fault>
    ensures split { IfOk result (λ n. InnerSplit page.now left.old right.old parent.old left.new right.new parent.new q n) }
    ensures same { OnErr result ((left.new ≡ left.old) × (right.new ≡ right.old) × (parent.new ≡ parent.old)) }
    ensures refused { IfErr result (λ e. e ≡ NotAStore) }
    ensures ok { CanSplit false Inner page.now.body parent.old.body q → IsOk result }
{
    let up = place(page, PageKind::Inner, false)?;
    put_separator(page, up, parent, q)?;
    halve_inner(page, up, left, right);
    Ok(up)
}

// Makes two pages the parts of an inner page that is split at a place.
fn halve_inner(page: &Page, up: usize, left: &mut Page, right: &mut Page)
    requires { SplitsAt false Inner page.now.body up }
    ensures left { left.new ≡ says left.old (with_entries page.now.body (take up page.now.body.entries)) }
    ensures right { right.new ≡ says right.old (inner_body page.now.body.level (entry_at page.now.body.entries up).1 (drop (up + 1) page.now.body.entries)) }
{
    page.law_content();
    let level = page.level();
    let len = page.len();
    left.become_inner(level, page.leftmost());
    left.copy_entries(page, 0, up);
    right.become_inner(level, page.value(up) as PageNo);
    right.copy_entries(page, up + 1, len);
}

/// Splits the root, a leaf. `left` and `right`, whatever they were, become two leaves with its entries, of numbers l and
/// r, cut as `split_leaf` cuts a leaf; and `root`, whatever it was, an inner page over the two. It answers how many
/// entries go left.
///
/// Refused `NotAStore`, with nothing changed, where the page is no leaf or has too few entries to be split. A leaf that
/// lacks room is never refused.
pub fn split_root_leaf(
    page: &Page,
    root: &mut Page,
    left: &mut Page,
    right: &mut Page,
    l: PageNo,
    r: PageNo,
    dense: bool,
) -> Result<usize, Fault>
    ensures split { IfOk result (λ n. RootLeafSplit dense page.now root.old left.old right.old root.new left.new right.new l r n) }
    ensures same { OnErr result ((root.new ≡ root.old) × (left.new ≡ left.old) × (right.new ≡ right.old)) }
    ensures refused { IfErr result (λ e. e ≡ NotAStore) }
    ensures ok { CanHalve dense Leaf page.now.body → IsOk result }
{
    let n = place(page, PageKind::Leaf, dense)?;
    left.become_leaf(0, r);
    left.copy_entries(page, 0, n);
    right.become_leaf(l, 0);
    right.copy_entries(page, n, page.len());
    put_over(root, 1, l, page.key(n), r);
    Ok(n)
}

/// Splits the root, an inner page. `left` and `right`, whatever they were, become two inner pages with its entries, of
/// numbers l and r, cut as `split_inner` cuts a page; and `root`, whatever it was, an inner page over the two, one level
/// up. It answers how many entries go left.
///
/// Refused `Capacity`, with nothing changed, where the page is of level 255; `NotAStore`, with nothing changed, where it
/// is no inner page or has too few entries to be split. An inner page below level 255 that lacks room is never refused.
pub fn split_root_inner(
    page: &Page,
    root: &mut Page,
    left: &mut Page,
    right: &mut Page,
    l: PageNo,
    r: PageNo,
) -> Result<usize, Fault>
    ensures split { IfOk result (λ n. RootInnerSplit page.now root.old left.old right.old root.new left.new right.new l r n) }
    ensures same { OnErr result ((root.new ≡ root.old) × (left.new ≡ left.old) × (right.new ≡ right.old)) }
    ensures refused { IfErr result (λ e. (e ≡ NotAStore) ⊎ ((e ≡ Capacity) × (page.now.body.level ≡ 255))) }
    ensures ok { CanHalve false Inner page.now.body → page.now.body.level < 255 → IsOk result }
{
    let up = place(page, PageKind::Inner, false)?;
    if page.level() == 255 {
        return Err(Fault::Capacity);
    }
    page.law_content();
    halve_inner(page, up, left, right);
    put_over(root, page.level() + 1, l, page.key(up), r);
    Ok(up)
}

// Makes a page an inner one over two others.
fn put_over(root: &mut Page, level: u8, l: PageNo, key: &[u8], r: PageNo)
    requires level { 1 ≤ level }
    requires keyed { 1 ≤ length key.now }
    requires short { length key.now ≤ 255 }
    ensures { root.new ≡ says root.old (inner_body level l ((key.now, r) ∷ [])) }
{
    root.become_inner(level, l);
    root.insert(0, key, r as u64).unwrap();
}
