//! The works that are timed.

ghost use Rattle.std.specs.Prelude.{◌≡◌, false, IfOk};

use im_base_disk::Disk;
use im_base_types::Fault;
use im_page::Page;
use im_page_pool::Pool;
use std::alloc::Global;
use std::collections::HashMap;

/// A file of so many pages.
pub fn file(alloc: Global, pages: u32) -> Result<Vec<u8>, Fault> {
    let mut bytes = Vec::new(alloc);
    for p in 0..pages {
        bytes
            .extend_from_slice(Page::initial(p).bytes())
            .map_err(|_| Fault::Memory)?;
    }
    Ok(bytes)
}

/// The page of a round: one far from that of the round before.
fn page_of(round: u64, pages: u32) -> u32 {
    (round.wrapping_mul(7_919) % pages.max(1) as u64) as u32
}

/// Gets a page, for which the oldest goes where the pool is full, and answers one more than its number of entries.
fn got<D: Disk>(pool: &mut Pool, disk: &mut D, p: u32) -> Result<u64, Fault>
    requires { D.failed disk.old ≡ false }
    ensures { IfOk result (λ _. D.failed disk.new ≡ false) }
{
    if pool.is_full() && !pool.holds(p) {
        evict_oldest(pool);
    }
    if pool.is_full() && !pool.holds(p) {
        return Err(Fault::PoolSize);
    }
    let frame = pool.get(disk, p)?;
    Ok(pool.page(frame).len() as u64 | 1)
}

/// Gives the frame of the least recently used page back.
fn evict_oldest(pool: &mut Pool) {
    if let Some(oldest) = pool.oldest() {
        if pool.holds(oldest.number) {
            pool.evict(oldest.number);
        }
    }
}

/// Gets so many pages in turn.
pub fn filled<D: Disk>(pool: &mut Pool, disk: &mut D, pages: u32) -> Result<(), Fault>
    requires { D.failed disk.old ≡ false }
    ensures { IfOk result (λ _. D.failed disk.new ≡ false) }
{
    for p in 0..pages {
        got(pool, disk, p)?;
    }
    Ok(())
}

/// Gets one of so many pages, again and again.
pub fn cached<D: Disk>(pool: &mut Pool, disk: &mut D, pages: u32, rounds: u64) -> Result<u64, Fault>
    requires { D.failed disk.old ≡ false }
{
    let mut sum = 0u64;
    for round in 0..rounds {
        let p = page_of(round, pages);
        sum = sum.wrapping_add(got(pool, disk, p)?);
    }
    Ok(sum)
}

/// Gets so many pages in turn, again and again.
pub fn missed<D: Disk>(pool: &mut Pool, disk: &mut D, pages: u32, rounds: u64) -> Result<u64, Fault>
    requires { D.failed disk.old ≡ false }
{
    let mut sum = 0u64;
    for i in 0..rounds {
        let p = (i % pages.max(1) as u64) as u32;
        sum = sum.wrapping_add(got(pool, disk, p)?);
    }
    Ok(sum)
}

/// Looks up one of so many numbers in a hash map, again and again.
pub fn looked_up(alloc: Global, count: u32, rounds: u64) -> Result<u64, Fault> {
    let mut map: HashMap<u32, u64> = HashMap::new(alloc);
    for p in 0..count {
        if map.insert(p, 1).is_err() {
            return Err(Fault::Memory);
        }
    }
    let mut sum = 0u64;
    for round in 0..rounds {
        let p = page_of(round, count);
        if let Some(n) = map.get(&p) {
            sum = sum.wrapping_add(*n);
        }
    }
    Ok(sum)
}
