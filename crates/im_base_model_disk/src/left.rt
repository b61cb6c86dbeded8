//! What a stop leaves of a file of the model disk.
ghost use Rattle.std.specs.Prelude.{◌≡◌, ◌⊎◌, ℕ, ◌+◌, ◌%◌, ◌<◌, ◌≤◌, length, slice_index, IfOk};
ghost use Rattle.im_base_model_disk.specs.Left.{IsKept, IsLeft, left_length};
ghost use Rattle.im_base_model_disk.specs.ModelFile.{IsOutside};

use crate::{Fill, Length, ModelFile};
use std::alloc::{AllocError, Global};

/// The bytes of the file after a stop, in time linear in those and in what was written since the last sync.
pub(crate) fn left(
    alloc: Global,
    file: &ModelFile,
    length: Length,
    fill: &Fill,
) -> Result<Vec<u8>, AllocError>
    ensures { IfOk result (λ bytes. IsLeft length fill.now file.now bytes.items) }
{
    let len = left_len(file, length);
    let mut bytes = Vec::new(alloc);
    bytes.extend_from_slice(&file.bytes[..len])?;
    match fill {
        Fill::Written => Ok(bytes),
        Fill::Bytes(pattern) => {
            fill_unsynced(&mut bytes, file, pattern);
            Ok(bytes)
        }
    }
}

fn left_len(file: &ModelFile, choice: Length) -> usize
    ensures long { result ≡ left_length choice file.now }
    ensures within { result ≤ length file.now.bytes.items }
{
    match choice {
        Length::Long => file.bytes.len(),
        Length::Short => file.synced,
    }
}

// The pattern at each place that is not as synced.
fn fill_unsynced(bytes: &mut [u8], file: &ModelFile, pattern: &[u8])
    ensures kept { (place : ℕ) → place < length bytes.old → IsKept file.now place → slice_index bytes.new place ≡ slice_index bytes.old place }
    ensures filled { (place : ℕ) → place < length bytes.old → ¬ (IsKept file.now place) → slice_index bytes.new place ≡ slice_index pattern.now (place % length pattern.now) }
{
    fill_written(bytes, &file.written, pattern);
    let len = bytes.len();
    fill_range(bytes, file.synced, len, pattern);
}

// The pattern at each place that a write has touched.
fn fill_written(bytes: &mut [u8], writes: &[(usize, usize)], pattern: &[u8])
    ensures outside { (place : ℕ) → place < length bytes.old → IsOutside writes.now place → slice_index bytes.new place ≡ slice_index bytes.old place }
    ensures inside { (place : ℕ) → place < length bytes.old → ¬ (IsOutside writes.now place) → slice_index bytes.new place ≡ slice_index pattern.now (place % length pattern.now) }
{
    for (at, size) in writes {
        fill_range(bytes, *at, *size, pattern);
    }
}

// The pattern from a place on, so many bytes, as far as there are.
fn fill_range(bytes: &mut [u8], at: usize, size: usize, pattern: &[u8])
    ensures outside { (place : ℕ) → place < length bytes.old → (place < at) ⊎ (at + size ≤ place) → slice_index bytes.new place ≡ slice_index bytes.old place }
    ensures inside { (place : ℕ) → place < length bytes.old → at ≤ place → place < at + size → slice_index bytes.new place ≡ slice_index pattern.now (place % length pattern.now) }
{
    let len = bytes.len();
    let end = if size < len.saturating_sub(at) {
        at + size
    } else {
        len
    };
    for place in at..end {
        bytes[place] = pattern_at(pattern, place);
    }
}

// The pattern's byte for a place, and 0 where the pattern has none.
fn pattern_at(pattern: &[u8], place: usize) -> u8
    ensures { result ≡ slice_index pattern.now (place % length pattern.now) }
{
    if pattern.is_empty() {
        0
    } else {
        pattern[place % pattern.len()]
    }
}
