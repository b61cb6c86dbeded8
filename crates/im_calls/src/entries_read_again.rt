//! What holds of all entries that are told.

ghost use Rattle.std.specs.Prelude.{◌≡◌, ◌≤◌, ◌++◌, ◌∷◌, [], List, ℕ, length};
ghost use Rattle.im_base_types.specs.Pages.{Entry};
ghost use Rattle.im_base_types.specs.Answers as answers;
ghost use Rattle.im_calls.specs.declared.call.Call.{Call};
ghost use Rattle.im_calls.specs.Calls.{Tells, entries_bytes};
ghost use Rattle.im_calls.specs.Entries.{read_entries, AreEntries};

/// Laws of entries as bytes. Who reads them as `read_entries` does has the very entries that were told: the 256 that a scan has at most find room
/// in the answer, whatever their keys.
pub fn entries_are_read_again()
    ensures again { (list : List Entry) (rest : List ℕ) → AreEntries list → read_entries (length list) (entries_bytes list ++ rest) ≡ list }
    ensures room { (list : List Entry) → AreEntries list → length list ≤ 256 → length (entries_bytes list) ≤ 67584 }
    ensures told { (c : Call) (list : List Entry) → AreEntries list → length list ≤ 256 → length c.out ≡ 67584 → Tells c (answers.Entries list) → (c.out_len ≡ length (entries_bytes list)) × (read_entries c.number c.out ≡ list) }
    ensures one { (c : Call) (e : Entry) → AreEntries (e ∷ []) → length c.out ≡ 67584 → Tells c (answers.Entry e.0 e.1) → read_entries 1 c.out ≡ e ∷ [] }
{}
