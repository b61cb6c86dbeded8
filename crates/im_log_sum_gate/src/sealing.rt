//! Batches with their sums, as bytes in a room.

ghost use Rattle.std.specs.Prelude.{◌≡◌, ◌+◌, ◌≤◌, ◌++◌, [], ◌∷◌, ℕ, List, length, take, drop};
ghost use Rattle.std.specs.Int.{w32, w64, to_be_bytes};
ghost use Rattle.im_base_disk.specs.Sums.{sum_of};
ghost use Rattle.im_log_sum_gate.specs.Sealed.{digest_of, sealed, worded, MaySeal};

use std::hash::{DefaultHasher, Hasher};

// The digest of a batch whose gate has this LSN, from the gate to the records.
pub(crate) fn digest(salt: &[u8], lsn: u64, batch: &[u8]) -> u64
    ensures { result ≡ digest_of salt.now lsn batch.now }
{
    let mut hasher = DefaultHasher::new();
    hasher.write(salt);
    hasher.write(&lsn.to_be_bytes());
    hasher.write(batch);
    hasher.finish()
}

// The sum of a batch, of which these are the gate, the length and the records.
fn sum_of(salt: &[u8], lsn: u64, batch: &[u8]) -> u64
    ensures { (records : List ℕ) → length records ≤ 16376 → batch.now ≡ 1 ∷ worded records → result ≡ sum_of salt.now lsn 1 (worded records) }
{
    digest(salt, lsn, batch)
}

// An open gate and a length come to stand at this place.
fn put_head(room: &mut [u8], at: usize, size: u32)
    requires room { at + 5 ≤ length room.old }
    ensures { room.new ≡ take at room.old ++ 1 ∷ to_be_bytes w32 size ++ drop (at + 5) room.old }
{
    let size = size.to_be_bytes();
    room[at..at + 5].copy_from_slice(&[1, size[0], size[1], size[2], size[3]]);
}

// A sum and a closed gate come to stand at this place.
fn put_end(room: &mut [u8], at: usize, sum: u64)
    requires room { at + 9 ≤ length room.old }
    ensures { room.new ≡ take at room.old ++ to_be_bytes w64 sum ++ 0 ∷ drop (at + 9) room.old }
{
    let sum = sum.to_be_bytes();
    room[at..at + 9].copy_from_slice(&[
        sum[0], sum[1], sum[2], sum[3], sum[4], sum[5], sum[6], sum[7], 0,
    ]);
}

/// Seals a batch in a room. Its records stand from five bytes after `at` up to `end`; an open gate comes to stand at `at`, the length after it, the sum after
/// the records, and a closed gate after the sum. `lsn` is the LSN of the gate. The next batch may be sealed from that closed gate on.
pub fn seal(room: &mut [u8], at: usize, end: usize, salt: &[u8], lsn: u64)
    requires some { at + 6 ≤ end }
    requires most { end ≤ at + 16381 }
    requires room { end + 9 ≤ length room.old }
    ensures room { length room.new ≡ length room.old }
    ensures sealed { take (end + 9) room.new ≡ take at room.old ++ sealed salt.now lsn (drop (at + 5) (take end room.old)) ++ 0 ∷ [] }
    ensures may { MaySeal salt.now lsn (drop (at + 5) (take end room.old)) }
{
    put_head(room, at, (end - at + 3) as u32);
    let sum = sum_of(salt, lsn, &room[at..end]);
    put_end(room, end, sum);
}
