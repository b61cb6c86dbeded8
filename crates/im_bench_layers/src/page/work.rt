//! The works that are timed.

ghost use Rattle.std.specs.Prelude.{◌≡◌};
ghost use Rattle.im_base_types.specs.declared.page_kind.PageKind.TheVariants.{Leaf};

use crate::page::numbers::Numbers;
use im_page::{HALF_PAGE, Page};

/// A key of eight bytes from `0` on.
fn key_of(number: u64) -> [u8; 8] {
    let mut key = [0; 8];
    for j in 0..8 {
        key[j] = 48 + ((number >> (8 * j as u32)) & 63) as u8;
    }
    key
}

/// Puts so many entries into a leaf, the value of each being its number, and answers how many it then has.
pub fn filled(page: &mut Page, count: u64) -> u64
    requires { page.old.body.kind ≡ Leaf }
    ensures { page.new.body.kind ≡ Leaf }
{
    let mut numbers = Numbers::new();
    for n in 0..count {
        let key = key_of(numbers.next());
        if let Err(i) = page.find(&key) {
            let _ = page.insert(i, &key, n);
        }
    }
    page.len() as u64
}

/// Finds each key in turn, and adds up the values.
pub fn found(page: &Page, count: u64, rounds: u64) -> u64 {
    let mut sum = 0u64;
    for _ in 0..rounds {
        let mut numbers = Numbers::new();
        for _ in 0..count {
            let key = key_of(numbers.next());
            if let Ok(i) = page.find(&key) {
                sum = sum.wrapping_add(page.value(i));
            }
        }
    }
    sum
}

/// Takes each entry out in turn and puts it back, and adds up the places.
pub fn edited(page: &mut Page, count: u64, rounds: u64) -> u64
    requires { page.old.body.kind ≡ Leaf }
    ensures { page.new.body.kind ≡ Leaf }
{
    let mut sum = 0u64;
    for _ in 0..rounds {
        let mut numbers = Numbers::new();
        for n in 0..count {
            let key = key_of(numbers.next());
            if let Ok(i) = page.find(&key) {
                page.remove(i);
                sum = sum.wrapping_add(i as u64);
            }
            if let Err(i) = page.find(&key) {
                let _ = page.insert(i, &key, n);
            }
        }
    }
    sum
}

/// Reads a page's bytes into another page, and counts the entries. Each time it has another LSN: of bytes that stay, a compiler does the
/// test once for all times.
pub fn read(page: &mut Page, rounds: u64) -> u64 {
    let mut copy = Page::initial(1);
    let mut sum = 0u64;
    for round in 0..rounds {
        page.set_lsn(round);
        if copy.load(page.bytes()).is_ok() {
            sum = sum.wrapping_add(copy.len() as u64);
        }
    }
    sum
}

/// Copies the two parts of a split into pages, and counts the entries.
pub fn split(page: &Page, left: &mut Page, right: &mut Page, rounds: u64) -> u64
    requires page { page.now.body.kind ≡ Leaf }
    requires left { left.old.body.kind ≡ Leaf }
    requires right { right.old.body.kind ≡ Leaf }
{
    let mut sum = 0u64;
    for _ in 0..rounds {
        let point = page.split_point(HALF_PAGE);
        left.copy_entries(page, 0, point);
        right.copy_entries(page, point, page.len());
        sum = sum.wrapping_add(left.len() as u64);
        sum = sum.wrapping_add((right.len() as u64).wrapping_mul(2));
    }
    sum
}
