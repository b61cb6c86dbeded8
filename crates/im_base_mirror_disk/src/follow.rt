//! What a copy is told of a write.
ghost use Rattle.std.specs.Prelude.{◌≡◌, ◌⊎◌, ◌≤◌, ◌<◌, ◌+◌, ◌^◌, false, length, max, None};
ghost use Rattle.std.specs.Option.{ForSome};
ghost use Rattle.im_base_mirror_disk.specs.Copies.{HasFailed, IsFollowed};

use im_base_disk::Disk;
use im_base_types::FileId;

/// Writes to the copy what was written to a file, where it is copied up to that place; answers how far it is copied then. What is written after the mark
/// is sent by no call: a later piece has it. Where a call of the copy's disk fails the copy is let go.
pub(crate) fn follow<T: Disk + Drop>(
    copy: &mut Option<T>,
    mark: u64,
    file: FileId,
    at: u64,
    bytes: &[u8],
) -> u64
    requires works { ForSome copy.old (λ t. T.failed t ≡ false) }
    requires long { ForSome copy.old (λ t. T.tells → length (T.seen t file) ≡ mark) }
    ensures works { ForSome copy.new (λ t. T.failed t ≡ false) }
    ensures beyond { mark < at → (copy.new ≡ copy.old) × (result ≡ mark) }
    ensures followed { at ≤ mark → ForSome copy.new (λ t. (result ≡ max mark (at + length bytes.now)) × ForSome copy.old (λ s. T.tells → IsFollowed file at bytes.now (T.seen s) (T.seen t))) }
    ensures none { copy.old ≡ None → copy.new ≡ None }
    ensures gone { copy.new ≡ None → (copy.old ≡ None) ⊎ (2 ^ 64 ≤ at + length bytes.now) ⊎ HasFailed T.Disk }
{
    if at > mark {
        return mark;
    }
    let Some(to) = copy else {
        return mark;
    };
    let Some(end) = at.checked_add(bytes.len() as u64) else {
        *copy = None;
        return mark;
    };
    if to.write_at(file, at, bytes).is_err() {
        *copy = None;
        return mark;
    }
    mark.max(end)
}
