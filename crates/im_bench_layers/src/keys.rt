//! Keys of eight bytes, and an order that leaps about among them.

/// The key of a number: keys rise as the numbers do.
pub fn key_of(number: u64) -> [u8; 8] {
    number.to_be_bytes()
}

/// Another number, far away, for each number: no two have the same one.
pub fn scattered(number: u64) -> u64 {
    let mut n = number.wrapping_add(0x9E37_79B9_7F4A_7C15);
    n = (n ^ (n >> 30)).wrapping_mul(0xBF58_476D_1CE4_E5B9);
    n = (n ^ (n >> 27)).wrapping_mul(0x94D0_49BB_1331_11EB);
    n ^ (n >> 31)
}
