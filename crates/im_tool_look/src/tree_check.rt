//! The tree and the free list of a store, page by page.

use crate::files::Files;
use crate::tree_damage::TreeDamage;
use im_base_types::{Fault, FileId, Key, PAGE_SIZE, PageKind, PageNo, compare};
use im_page::Page;
use std::alloc::Global;
use std::cmp::Ordering;

const ROOT: PageNo = 1;

/// What the pages of a store are, in numbers, and what is broken in them.
#[derive(Drop)]
pub struct TreeSurvey {
    pub height: u64,
    pub leaves: u64,
    pub empty_leaves: u64,
    pub inner: u64,
    pub free: u64,
    pub entries: u64,
    /// The bytes of cells and slots in all leaves, and in all inner pages.
    pub leaf_bytes: u64,
    pub inner_bytes: u64,
    pub damages: Vec<TreeDamage>,
}

// A page in a level of the tree, and the keys between which its keys lie.
#[derive(Drop)]
struct Place {
    page: PageNo,
    low: Option<Key>,
    high: Option<Key>,
}

// The pages of a file, each read as it is asked for.
#[derive(Drop)]
struct Pages {
    // The whole pages of the file.
    whole: u64,
    // Room for one.
    room: Vec<u8>,
}

impl Pages {
    fn of<F: Files>(alloc: Global, files: &mut F) -> Result<Pages, Fault> {
        Ok(Pages {
            whole: files.length(FileId::Pages)? / PAGE_SIZE as u64,
            room: vec![in alloc; 0; PAGE_SIZE].map_err(|_| Fault::Memory)?,
        })
    }

    // A page of the file; past its end the initial one. None where its bytes are no page.
    fn page<F: Files>(&mut self, files: &mut F, number: PageNo) -> Result<Option<Page>, Fault> {
        if u64::from(number) >= self.whole {
            return Ok(Some(Page::initial(number)));
        }
        let place = u64::from(number) * PAGE_SIZE as u64;
        files.fill(FileId::Pages, place, &mut self.room)?;
        Ok(Page::read(&self.room).ok())
    }
}

#[derive(Drop)]
struct Walk {
    alloc: Global,
    pages: Pages,
    count: PageNo,
    seen: Vec<bool>,
    survey: TreeSurvey,
}

/// Checks all pages of a store. Refused `Memory` or `Device`.
pub fn check_pages<F: Files>(alloc: Global, files: &mut F) -> Result<TreeSurvey, Fault> {
    let mut pages = Pages::of(alloc, files)?;
    let mut survey = TreeSurvey {
        height: 0,
        leaves: 0,
        empty_leaves: 0,
        inner: 0,
        free: 0,
        entries: 0,
        leaf_bytes: 0,
        inner_bytes: 0,
        damages: Vec::new(alloc),
    };
    let Some(meta) = pages.page(files, 0)? else {
        push(&mut survey.damages, TreeDamage::NoPage(0))?;
        return Ok(survey);
    };
    if meta.kind() != PageKind::Meta {
        push(&mut survey.damages, TreeDamage::NoMeta)?;
        return Ok(survey);
    }
    let count = meta.leftmost();
    let places = pages.whole.max(2);
    if u64::from(count) > places {
        push(&mut survey.damages, TreeDamage::PastCount(count))?;
        return Ok(survey);
    }
    let mut walk = Walk {
        alloc,
        pages,
        count,
        seen: vec![in alloc; false; count as usize].map_err(|_| Fault::Memory)?,
        survey,
    };
    walk.levels(files)?;
    walk.free_list(files, meta.next(), meta.prev())?;
    walk.lost()?;
    let Walk { survey, .. } = walk;
    Ok(survey)
}

fn push<T: Drop>(list: &mut Vec<T>, item: T) -> Result<(), Fault> {
    match list.push(item) {
        Ok(()) => Ok(()),
        Err(_) => Err(Fault::Memory),
    }
}

fn key_of(bytes: &[u8]) -> Option<Key> {
    Key::new(bytes).ok()
}

// Whether the key lies at or above the one and below the other.
fn is_between(key: &[u8], low: &Option<Key>, high: &Option<Key>) -> bool {
    let is_above = match low {
        Some(low) => compare(low.bytes(), key) != Ordering::Greater,
        None => true,
    };
    let is_below = match high {
        Some(high) => compare(key, high.bytes()) == Ordering::Less,
        None => true,
    };
    is_above && is_below
}

impl Walk {
    fn add_damage(&mut self, damage: TreeDamage) -> Result<(), Fault> {
        push(&mut self.survey.damages, damage)
    }

    // Marks a page as met. False where it was met before, or is past the number of pages.
    fn meet(&mut self, page: PageNo) -> Result<bool, Fault> {
        if page >= self.count {
            self.add_damage(TreeDamage::PastCount(page))?;
            return Ok(false);
        }
        let met = match self.seen.get_mut(page as usize) {
            Some(seen) => {
                let before = *seen;
                *seen = true;
                before
            }
            None => true,
        };
        if met {
            self.add_damage(TreeDamage::Twice(page))?;
        }
        Ok(!met)
    }

    // Each level of the tree, from the root down.
    fn levels<F: Files>(&mut self, files: &mut F) -> Result<(), Fault> {
        let Some(root) = self.pages.page(files, ROOT)? else {
            return self.add_damage(TreeDamage::NoPage(ROOT));
        };
        let top = root.level();
        self.survey.height = u64::from(top).saturating_add(1);
        let mut row = Vec::new(self.alloc);
        push(
            &mut row,
            Place {
                page: ROOT,
                low: None,
                high: None,
            },
        )?;
        for depth in 0..=top {
            let mut below = Vec::new(self.alloc);
            for place in &row {
                self.look(files, place, top.saturating_sub(depth), &mut below)?;
            }
            if depth == top {
                self.chain(files, &row)?;
            }
            row = below;
        }
        Ok(())
    }

    // A page of a level, and its children.
    fn look<F: Files>(
        &mut self,
        files: &mut F,
        place: &Place,
        level: u8,
        below: &mut Vec<Place>,
    ) -> Result<(), Fault> {
        let number = place.page;
        if !self.meet(number)? {
            return Ok(());
        }
        let Some(page) = self.pages.page(files, number)? else {
            return self.add_damage(TreeDamage::NoPage(number));
        };
        let kind = if level == 0 {
            PageKind::Leaf
        } else {
            PageKind::Inner
        };
        if page.kind() != kind || page.level() != level {
            return self.add_damage(TreeDamage::WrongLevel(number));
        }
        if page.is_marked() {
            self.add_damage(TreeDamage::Marked(number))?;
        }
        self.keys(place, &page)?;
        if level == 0 {
            self.leaf(&page);
            Ok(())
        } else {
            self.children(place, &page, below)
        }
    }

    fn keys(&mut self, place: &Place, page: &Page) -> Result<(), Fault> {
        for i in 0..page.len() {
            if !is_between(page.key(i), &place.low, &place.high) {
                return self.add_damage(TreeDamage::KeyOutOfPlace(place.page));
            }
        }
        Ok(())
    }

    // One without entries is no damage: a stop between the record that empties a leaf and the deletion of its page leaves it in the tree.
    fn leaf(&mut self, page: &Page) {
        self.survey.leaves = self.survey.leaves.saturating_add(1);
        if page.len() == 0 {
            self.survey.empty_leaves = self.survey.empty_leaves.saturating_add(1);
        }
        self.survey.entries = self.survey.entries.saturating_add(page.len() as u64);
        for i in 0..page.len() {
            let size = (page.key(i).len() as u64).saturating_add(11);
            self.survey.leaf_bytes = self.survey.leaf_bytes.saturating_add(size);
        }
    }

    fn children(
        &mut self,
        place: &Place,
        page: &Page,
        below: &mut Vec<Place>,
    ) -> Result<(), Fault> {
        self.survey.inner = self.survey.inner.saturating_add(1);
        let len = page.len();
        let first = if len > 0 {
            key_of(page.key(0))
        } else {
            copy_of(&place.high)
        };
        push(
            below,
            Place {
                page: page.leftmost(),
                low: copy_of(&place.low),
                high: first,
            },
        )?;
        for i in 0..len {
            let size = (page.key(i).len() as u64).saturating_add(7);
            self.survey.inner_bytes = self.survey.inner_bytes.saturating_add(size);
            let high = if i + 1 < len {
                key_of(page.key(i + 1))
            } else {
                copy_of(&place.high)
            };
            push(
                below,
                Place {
                    page: PageNo::try_from(page.value(i)).unwrap_or(PageNo::MAX),
                    low: key_of(page.key(i)),
                    high,
                },
            )?;
        }
        Ok(())
    }

    // The neighbours of the leaves.
    fn chain<F: Files>(&mut self, files: &mut F, row: &[Place]) -> Result<(), Fault> {
        for (i, place) in row.iter().enumerate() {
            let Some(page) = self.pages.page(files, place.page)? else {
                continue;
            };
            let before = match row.get(i.wrapping_sub(1)) {
                Some(last) => last.page,
                None => 0,
            };
            let behind = match row.get(i.wrapping_add(1)) {
                Some(next) => next.page,
                None => 0,
            };
            if page.prev() != before || page.next() != behind {
                self.add_damage(TreeDamage::WrongNeighbours(place.page))?;
            }
        }
        Ok(())
    }

    fn free_list<F: Files>(
        &mut self,
        files: &mut F,
        first: PageNo,
        count: PageNo,
    ) -> Result<(), Fault> {
        let mut at = first;
        for _step in 0..self.count {
            if at == 0 || !self.meet(at)? {
                break;
            }
            match self.pages.page(files, at)? {
                Some(page) if page.kind() == PageKind::Free => at = page.next(),
                _ => return self.add_damage(TreeDamage::NotFree(at)),
            }
            self.survey.free = self.survey.free.saturating_add(1);
        }
        if self.survey.free != u64::from(count) {
            self.add_damage(TreeDamage::FreeCount)?;
        }
        Ok(())
    }

    // The pages that were not met.
    fn lost(&mut self) -> Result<(), Fault> {
        for page in 1..self.count {
            if self.seen.get(page as usize).copied() == Some(false) {
                self.add_damage(TreeDamage::Lost(page))?;
            }
        }
        Ok(())
    }
}

fn copy_of(key: &Option<Key>) -> Option<Key> {
    match key {
        Some(key) => key_of(key.bytes()),
        None => None,
    }
}
