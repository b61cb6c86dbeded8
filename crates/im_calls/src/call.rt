//! A question with its answer.

/// What is asked, with what was answered: one place in memory, in the order that C gives to these fields.
#[repr(C)]
#[derive(Drop)]
pub struct Call {
    /// What is asked, by its number.
    pub step: u32,
    /// What was answered, by its number.
    pub word: u32,
    /// The number of a refusal.
    pub fault: u32,
    /// How many entries at most, or a page.
    pub limit: u32,
    /// A transaction.
    pub txn: u64,
    /// A row id, or how many changes are to stand; in an answer its number.
    pub number: u64,
    /// How many bytes of `key` are asked for, or where a copy begins the descriptor to ask.
    pub key_len: u32,
    /// How many bytes of `hi` are asked for, or where a copy begins the descriptor to be answered.
    pub hi_len: u32,
    /// How many bytes of `out` were answered.
    pub out_len: u64,
    /// A key, or the lower bound of a scan. One byte more than a key may have, so that a longer one is refused.
    pub key: [u8; 256],
    /// The upper bound of a scan.
    pub hi: [u8; 256],
    /// Entries, each of them a length, the bytes of its key, and its row id in 8 bytes, the lowest first. A piece of a copy goes through it, and leaves any bytes.
    pub out: [u8; 67_584],
}
