//! The file of pages beside the log: whether each page is as a store leaves it under this log.

use crate::files::{Files, Piece};
use crate::log_bytes::Survey;
use crate::page_damage::PageDamage;
use im_base_types::{Fault, FileId, Lsn, PAGE_SIZE, PageNo};
use im_page::Page;
use im_restart_analysis::{LastChanges, pages_at_first};
use std::alloc::Global;

/// The most damages that are listed.
const MOST: usize = 20;

/// What came of it.
#[derive(Drop)]
pub struct Compared {
    /// The whole pages of the file.
    pub pages: u64,
    /// Those of which the log says which LSN they have at least.
    pub with_synced: u64,
    /// Those that an opening takes from their copies in the log, whatever the file has of them.
    pub copied: u64,
    /// The first 20 damages.
    pub damages: Vec<PageDamage>,
    /// How many more there are.
    pub more: u64,
}

impl Compared {
    fn add_damage(&mut self, damage: PageDamage) -> Result<(), Fault> {
        if self.damages.len() >= MOST {
            self.more = self.more.saturating_add(1);
            return Ok(());
        }
        match self.damages.push(damage) {
            Ok(()) => Ok(()),
            Err(_) => Err(Fault::Memory),
        }
    }
}

/// Compares the file of pages with the log. Refused `Memory` or `Device`.
pub fn compare_pages<F: Files>(
    alloc: Global,
    said: &Survey,
    files: &mut F,
) -> Result<Compared, Fault> {
    let whole = files.length(FileId::Pages)? / PAGE_SIZE as u64;
    let mut compared = Compared {
        pages: whole,
        with_synced: 0,
        copied: 0,
        damages: Vec::new(alloc),
        more: 0,
    };
    lengths(&mut compared, said, whole)?;
    let mut piece = Piece::new(alloc, FileId::Pages);
    let mut place = 0u64;
    for number in 0..PageNo::MAX {
        if u64::from(number) >= whole {
            break;
        }
        piece.hold(files, place, PAGE_SIZE)?;
        let bytes = piece.held(place, PAGE_SIZE);
        compare(&mut compared, said, number, bytes)?;
        if number == 0 {
            compare_names(&mut compared, &said.last, bytes)?;
        }
        place = place.saturating_add(PAGE_SIZE as u64);
    }
    Ok(compared)
}

// A file that is shorter than what it was synced with, or has pages that no record of a store's first log names.
fn lengths(compared: &mut Compared, said: &Survey, whole: u64) -> Result<(), Fault> {
    let mut least = synced_pages(said, &said.last);
    if let Some(before) = &said.before {
        least = least.max(synced_pages(said, before));
    }
    if least > whole {
        compared.add_damage(PageDamage::Short(whole, least.saturating_sub(1)))?;
    }
    let named = said.last.named;
    if whole > named.max(u64::from(said.log.pages())) {
        compared.add_damage(PageDamage::Long(whole, named))?;
    }
    Ok(())
}

// How many pages a file has at least that was synced with these changes: those with a copy in the log it may lack.
fn synced_pages(said: &Survey, last: &LastChanges) -> u64 {
    let mut least = 0u64;
    for (page, _) in &last.lsns {
        if said.analysed.copies.get(page).is_none() {
            least = least.max(u64::from(*page).saturating_add(1));
        }
    }
    least
}

// One page. An opening takes one with a copy in the log from there: a torn write leaves any bytes of it.
fn compare(
    compared: &mut Compared,
    said: &Survey,
    number: PageNo,
    bytes: &[u8],
) -> Result<(), Fault> {
    if said.analysed.copies.get(&number).is_some() {
        compared.copied = compared.copied.saturating_add(1);
        return Ok(());
    }
    let end = said.end_lsn();
    let lsn = lsn_of(bytes);
    if lsn >= end && lsn > 0 {
        return compared.add_damage(PageDamage::PastTheLog(number, lsn, end));
    }
    let Some((least, count)) = said.synced(number) else {
        return Ok(());
    };
    compared.with_synced = compared.with_synced.saturating_add(1);
    if lsn < least {
        return compared.add_damage(PageDamage::Older(number, lsn, least));
    }
    if number == 0 && lsn == least {
        return compare_count(compared, count, bytes);
    }
    Ok(())
}

// The pages that records name, with the page counts that the log says, and else with that of page 0.
fn compare_names(compared: &mut Compared, last: &LastChanges, bytes: &[u8]) -> Result<(), Fault> {
    if last.named <= u64::from(pages_at_first(0).max(last.said)) {
        return Ok(());
    }
    let count = match Page::read(bytes) {
        Ok(page) => page.leftmost(),
        Err(_) => 0,
    };
    if last.named > u64::from(count) {
        return compared.add_damage(PageDamage::Names(count, last.named.saturating_sub(1)));
    }
    Ok(())
}

// The page count of page 0, as the record left it that the file was synced with.
fn compare_count(
    compared: &mut Compared,
    count: Option<PageNo>,
    bytes: &[u8],
) -> Result<(), Fault> {
    let (Some(said), Ok(page)) = (count, Page::read(bytes)) else {
        return Ok(());
    };
    if page.leftmost() != said {
        return compared.add_damage(PageDamage::Count(page.leftmost(), said));
    }
    Ok(())
}

fn lsn_of(bytes: &[u8]) -> Lsn {
    let mut lsn = 0;
    for byte in bytes.iter().take(8) {
        lsn = (lsn << 8) | u64::from(*byte);
    }
    lsn
}
