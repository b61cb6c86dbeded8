ghost use Rattle.std.specs.Prelude.{◌≡◌, ◌≢◌, ◌+◌, ◌≤◌, ℕ, Bool, false, true, length, take, drop, IfOk, OnOk};
ghost use Rattle.im_base_types.specs.declared.file_id.FileId.{FileId};
ghost use Rattle.im_base_disk.specs.Disk.{Files, Only, Follows, InFile, Holds, Torn, Unforged, Elapses, OnlyReads, Answers, Calls};
ghost use Rattle.im_base_disk.specs.Sums.{shows_in};

use im_base_types::{Fault, FileId};

/// The files of a store. What is said of their bytes is claimed of a disk that tells them. The caller makes no
/// further call after one that failed. Each call is refused `Fault::Device` and nothing else. A write or a sync
/// that fails counts as written and not synced.
pub trait Disk {
    /// The premise of each clause on bytes: that the disk tells them.
    ghost tells: { Type 0 };

    /// The second premise: that no stop forges a sum.
    ghost sums: { Type 0 };

    /// The bytes that a read gives.
    ghost seen: { Self → Files };

    /// What a stop now may leave of the files together.
    ghost may_leave: { Self → Files → Type 0 };

    /// The moment, as a number that doesn't fall.
    ghost moment: { Self → ℕ };

    /// What a stop at some moment since that one might have left.
    ghost left_since: { Self → ℕ → Files → Type 0 };

    /// Its last call failed.
    ghost failed: { Self → Bool };

    /// How often it was called to write, in all: a call counts whether it succeeds or fails.
    ghost writes: { Self → ℕ };

    /// How often it was called to sync, in all.
    ghost syncs: { Self → ℕ };

    /// Whether this disk keeps the second premise. No device call.
    fn keeps_sums(&self) -> bool
        ensures { result ≡ true → sums };

    /// The length of a file in bytes.
    fn len(&mut self, file: FileId) -> Result<u64, Fault>
        requires { failed self.old ≡ false }
        ensures len { IfOk result (λ n. tells → n ≡ length (seen self.old file)) }
        ensures reads { OnlyReads seen may_leave moment left_since writes syncs self.old self.new }
        ensures answers { Answers (failed self.new) result };

    /// Reads the bytes from the place on until the buffer is full. The caller keeps within the length.
    fn read(&mut self, file: FileId, at: u64, buf: &mut [u8]) -> Result<(), Fault>
        requires working { failed self.old ≡ false }
        requires within { tells → at + length buf.old ≤ length (seen self.old file) }
        ensures read { OnOk result (tells → buf.new ≡ take (length buf.old) (drop at (seen self.old file))) }
        ensures reads { OnlyReads seen may_leave moment left_since writes syncs self.old self.new }
        ensures answers { Answers (failed self.new) result };

    /// Writes over what is there and past the end, from a place that is at most the length. Until a sync of that
    /// file, a stop may leave any bytes in the range; where no stop forges a sum, none that show a batch which the
    /// file had not, and would not have by the whole write.
    fn write_at(&mut self, file: FileId, at: u64, bytes: &[u8]) -> Result<(), Fault>
        requires working { failed self.old ≡ false }
        requires place { tells → at ≤ length (seen self.old file) }
        ensures written { OnOk result (tells → Holds at bytes.now (seen self.old file) (seen self.new file)) }
        ensures others { (other : FileId) → other ≢ file → seen self.new other ≡ seen self.old other }
        ensures crash { Follows (InFile file (Torn at (length bytes.now))) (may_leave self.old) (may_leave self.new) }
        ensures unforged { sums → Follows (InFile file (Unforged (shows_in file) at bytes.now)) (may_leave self.old) (may_leave self.new) }
        ensures time { Elapses (moment self.old) (moment self.new) (left_since self.old) (left_since self.new) (may_leave self.new) }
        ensures costs { Calls writes syncs 1 0 self.old self.new }
        ensures answers { Answers (failed self.new) result };

    /// Brings a file to the disk: after it a stop leaves of that file what a read gives.
    fn sync(&mut self, file: FileId) -> Result<(), Fault>
        requires { failed self.old ≡ false }
        ensures durable { OnOk result (Only file (seen self.old) (may_leave self.new)) }
        ensures seen { seen self.new ≡ seen self.old }
        ensures crash { (c : Files) → may_leave self.new c → may_leave self.old c }
        ensures time { Elapses (moment self.old) (moment self.new) (left_since self.old) (left_since self.new) (may_leave self.new) }
        ensures costs { Calls writes syncs 0 1 self.old self.new }
        ensures answers { Answers (failed self.new) result };

    /// This moment is one of those since an earlier one.
    ghost counts_now: { (disk : Self) (t : ℕ) (c : Files) → t ≤ moment disk → may_leave disk c → left_since disk t c };

    /// Since this moment there is no other.
    ghost only_now: { (disk : Self) (c : Files) → left_since disk (moment disk) c → may_leave disk c };

    /// A stop may leave the bytes as they read.
    ghost seen_may_stay: { (disk : Self) → tells → may_leave disk (seen disk) };
}
