//! What holds of all keys: each is read again, kinds and names lie apart, order and ranges are those of the user's
//! keys.
ghost use Rattle.std.specs.Prelude.{◌≡◌, ◌≢◌, ◌≤◌, ◌<◌, ◌+◌, ◌++◌, [], ◌∷◌, ℕ, List, length, drop, get_or, Some};
ghost use Rattle.std.specs.declared.cmp.Ordering.TheVariants.{Less, Greater};
ghost use Rattle.im_base_types.specs.Keys.{key_order};
ghost use Rattle.im_names.specs.Kinds.{key_of_part, kind_by_bytes};
ghost use Rattle.im_names.specs.declared.key_kind.KeyKind.TheVariants.{Row, Guard, Named};
ghost use Rattle.im_names.specs.Layout.{IsEntryKey, IsLongKey, IsName, entry_of, filled, front_of, guard_of, part_of, prefix_of, catalogue_key};
ghost use Rattle.im_names.specs.Parts.{room_of};
ghost use Rattle.im_names.specs.Ranges.{HasPrefix, AreBytes, LiesIn};
ghost use Rattle.im_names.specs.Readings.{bytes_in, part_number};

/// Each key says its kind, so that none of one kind is one of another; and what is written is read again: a name and
/// what follows it, so that no key is of two names; the key of a long value, so that no part is of two values; a
/// part's number and its bytes.
pub fn keys_apart()
    ensures row { (name : List ℕ) → IsName name → kind_by_bytes (catalogue_key name) ≡ Row }
    ensures guard { (name : List ℕ) → length name ≤ 31 → kind_by_bytes (guard_of name) ≡ Guard }
    ensures entry { (name key : List ℕ) → IsName name → IsEntryKey name key → kind_by_bytes (entry_of name key) ≡ Named }
    ensures part { (name key bytes : List ℕ) (number : ℕ) → IsName name → IsLongKey name key → length bytes ≤ room_of (length (front_of name key)) → kind_by_bytes (part_of (front_of name key) number bytes) ≡ Named }
    ensures name { (one other more rest : List ℕ) → prefix_of one ++ more ≡ prefix_of other ++ rest → (one ≡ other) × (more ≡ rest) }
    ensures key { (name key rest : List ℕ) → (0 < length rest → get_or rest 0 0 ≢ 255) → key_of_part (front_of name key ++ rest) ≡ Some (key, rest) }
    ensures number { (front bytes : List ℕ) (number : ℕ) → part_number (length front) (part_of front number bytes) ≡ number }
    ensures bytes { (front bytes : List ℕ) (number : ℕ) → bytes_in (length front) (part_of front number bytes) ≡ bytes }
{}

/// Entries of an index, and rows of the catalogue, are in the order of their keys; so are the parts of a value, by
/// their numbers, and all parts of a value are before those of one with a greater key.
pub fn keys_in_order()
    ensures entries { (name one other : List ℕ) → key_order (entry_of name one) (entry_of name other) ≡ key_order one other }
    ensures rows { (one other : List ℕ) → key_order (catalogue_key one) (catalogue_key other) ≡ key_order one other }
    ensures parts { (front : List ℕ) (m n : ℕ) (xs ys : List ℕ) → m < n → key_order (part_of front m xs) (part_of front n ys) ≡ Less }
    ensures values { (name one other : List ℕ) (m n : ℕ) (xs ys : List ℕ) → m < 16711680 → key_order one other ≡ Less → key_order (part_of (front_of name one) m xs) (part_of (front_of name other) n ys) ≡ Less }
{}

/// A range has just what begins with its first key: of an index, its entries; of bytes of a key, the entries whose
/// keys begin so. A guard is above all of its name's. The range of a long value has its parts, and none of another
/// key.
pub fn ranges()
    ensures has { (n : ℕ) (first key : List ℕ) → length first ≤ n → length key ≤ n → AreBytes key → HasPrefix first key → LiesIn first (filled n first) key }
    ensures only { (n : ℕ) (first key : List ℕ) → LiesIn first (filled n first) key → HasPrefix first key }
    ensures guard { (first : List ℕ) → length first ≤ 254 → key_order (filled 255 first) (filled 254 first) ≡ Greater }
    ensures parts { (front bytes : List ℕ) (number : ℕ) → number < 16711680 → length front + 3 + length bytes ≤ 255 → AreBytes bytes → LiesIn front (filled 255 (front ++ (254 ∷ []))) (part_of front number bytes) }
    ensures one_value { (name key found : List ℕ) → LiesIn (front_of name key) (filled 255 (front_of name key ++ (254 ∷ []))) found → key_of_part found ≡ Some (key, drop (length (front_of name key)) found) }
{}
