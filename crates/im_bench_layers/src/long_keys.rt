//! Keys of 255 bytes, the longest that there are, and an order that leaps about among them.

use im_base_types::{Fault, LONGEST_KEY};
use std::alloc::Global;

/// The key of a number below 100,000: its five digits, and then `z` up to 255 bytes. Keys rise as the numbers do.
pub fn key_of(alloc: Global, number: u64) -> Result<Vec<u8>, Fault> {
    let digits = [
        digit(number / 10_000),
        digit(number / 1_000),
        digit(number / 100),
        digit(number / 10),
        digit(number),
    ];
    let mut key = Vec::from_slice(alloc, &digits).map_err(|_| Fault::Memory)?;
    key.resize(LONGEST_KEY, b'z').map_err(|_| Fault::Memory)?;
    Ok(key)
}

// The last digit of a number.
fn digit(number: u64) -> u8 {
    (number % 10) as u8 + b'0'
}

/// Another number below `keys` for each: no two have the same one where 7,919 and `keys` have no common factor.
pub fn scattered(number: u64, keys: u64) -> u64 {
    number.wrapping_mul(7_919) % keys.max(1)
}
