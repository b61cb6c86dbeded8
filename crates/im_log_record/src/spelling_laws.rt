//! What holds of all records and their bytes.
ghost use Rattle.std.specs.Prelude.{◌≡◌, ◌≤◌, ◌++◌, ℕ, List, length, take, Some};
ghost use Rattle.std.specs.Int.{w32, from_be_bytes};
ghost use Rattle.im_log_record.specs.Entry.{Entry, view};
ghost use Rattle.im_log_record.specs.Reading.{Gives, IsBytes, entry_of, first_entry};
ghost use Rattle.im_log_record.specs.Spelling.{Spells, IsEntry, size_of, spelling};

use crate::decoding::decode;
use crate::record::Record;
use im_base_types::Fault;

/// Laws of spellings. Each record has one, each is one record's, its length stands in its first four bytes, and
/// `entry_of` and `first_entry` are the functions from bytes to records that the spellings give.
pub fn law_spellings()
    ensures one_record { (said other : Entry) (bytes : List ℕ) → Spells said bytes → Spells other bytes → said ≡ other }
    ensures one_spelling { (said : Entry) (bytes more : List ℕ) → Spells said bytes → Spells said more → bytes ≡ more }
    ensures size { (said : Entry) → length (spelling said) ≡ size_of said }
    ensures least { (said : Entry) → 33 ≤ size_of said }
    ensures most { (said : Entry) → IsEntry said → size_of said ≤ 13869 }
    ensures length_first { (said : Entry) (rest : List ℕ) → IsEntry said → from_be_bytes w32 (take 4 (spelling said ++ rest)) ≡ size_of said }
    ensures read { (said : Entry) (bytes : List ℕ) → Spells said bytes → entry_of bytes ≡ Some said }
    ensures spelled { (said : Entry) (bytes : List ℕ) → IsBytes bytes → entry_of bytes ≡ Some said → Spells said bytes }
    ensures first { (said : Entry) (rest : List ℕ) → IsEntry said → first_entry (spelling said ++ rest) ≡ Some (said, rest) }
    ensures front { (bytes : List ℕ) (x : Entry × List ℕ) → IsBytes bytes → first_entry bytes ≡ Some x → (bytes ≡ spelling x.0 ++ x.1) × IsEntry x.0 }
{}

/// A record that is written is read again.
pub fn read_back<'a>(written: &Record<'_>, buffer: &'a mut [u8]) -> Result<Record<'a>, Fault>
    requires entry { IsEntry (view written.now) }
    requires room { size_of (view written.now) ≤ length buffer.old }
    ensures { Gives view result (Some (view written.now)) }
{
    let end = written.encode(buffer, 0);
    decode(&buffer[..end])
}
