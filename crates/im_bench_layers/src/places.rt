//! Where the records of a log have their page numbers.

use im_base_types::Fault;
use std::alloc::Global;

/// Where the page numbers of the log's records begin.
pub fn page_numbers(alloc: Global, log: &[u8]) -> Result<Vec<usize>, Fault> {
    let mut places = Vec::new(alloc);
    let mut end = FIRST_GATE;
    let mut at = end;
    for _ in 0..log.len() {
        if at >= end {
            if byte(log, end) != 1 {
                break;
            }
            at = end.saturating_add(5);
            end = at.saturating_add(number(log, end.saturating_add(1)));
        }
        places
            .push(at.saturating_add(PAGE_FIELD))
            .map_err(|_| Fault::Memory)?;
        at = at.saturating_add(number(log, at).max(1));
    }
    Ok(places)
}

/// Whether a place lies in a page number that begins at one of these.
pub fn is_in_page_number(places: &[usize], at: usize) -> bool {
    places.iter().any(|place| *place <= at && at - *place < 4)
}

/// Where the first gate of a new log is.
pub(crate) const FIRST_GATE: usize = 47;

// Where a record has its page number.
const PAGE_FIELD: usize = 29;

fn byte(bytes: &[u8], at: usize) -> u8 {
    match bytes.get(at) {
        Some(byte) => *byte,
        None => 0,
    }
}

// The number that stands in four bytes.
fn number(bytes: &[u8], at: usize) -> usize {
    let mut number = 0usize;
    for i in 0..4usize {
        let next = byte(bytes, at.saturating_add(i)) as usize;
        number = number.saturating_mul(256).saturating_add(next);
    }
    number
}
