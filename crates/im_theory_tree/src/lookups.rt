//! What look-ups answer on the walk, and how many pages a good tree has.

ghost use Rattle.std.specs.Prelude.{◌≡◌, ℕ, zero, suc, ◌+◌, ◌<◌, ◌≤◌, List, length, insert, remove, Some, None, Ok, Err};
ghost use Rattle.std.specs.FinMap.Entries.{find};
ghost use Rattle.im_base_types.specs.Keys.{Key, key_order};
ghost use Rattle.im_base_types.specs.Pages.{Entry};
ghost use Rattle.im_base_types.specs.Maps.{with_key, without_key, Start, From, Above, first_in, last_in};
ghost use Rattle.im_base_types.specs.declared.page_kind.PageKind.TheVariants.{Leaf, Inner};
ghost use Rattle.im_theory_page.specs.Entry.{entry_at, Rises, IsPlace};
ghost use Rattle.im_theory_tree.specs.Levels.{Pages, walk, height, the_root, leaves_under, pages_under};
ghost use Rattle.im_theory_tree.specs.Good.{IsGoodTree};
ghost use Rattle.im_theory_tree.specs.Search.{IsOnWay};
ghost use Rattle.im_theory_tree.specs.Lookups.{PagesRise, IsFirstAt, IsAhead, IsLeafAhead, IsBehind, key_of};

/// Where the keys of each page rise, the keys of the walk rise.
pub fn walk_rises()
    ensures { (pages : Pages) (spare : List ℕ) → PagesRise pages → IsGoodTree pages spare → Rises (walk pages) }
{}

/// The page count is the meta page and the pages of the tree, the free and the spare ones; the leaves are fewer.
pub fn pages_are_counted()
    ensures pages { (pages : Pages) (spare : List ℕ) → IsGoodTree pages spare
        → 1 + length (pages_under pages (height pages) the_root) + (pages 0).prev + length spare ≡ (pages 0).leftmost }
    ensures leaves { (pages : Pages) (spare : List ℕ) → IsGoodTree pages spare → length (leaves_under pages (height pages) the_root) < (pages 0).leftmost }
{}

/// Each page on the way to a key is of its level, below the page count, and not the meta page.
pub fn way_is_in_the_tree()
    ensures leaf { (pages : Pages) (key : Key) (p : ℕ) → IsOnWay pages zero key p → ((pages p).kind ≡ Leaf) × ((pages p).level ≡ 0) }
    ensures inner { (pages : Pages) (k : ℕ) (key : Key) (p : ℕ) → IsOnWay pages (suc k) key p → ((pages p).kind ≡ Inner) × ((pages p).level ≡ suc k) }
    ensures known { (pages : Pages) (spare : List ℕ) (k : ℕ) (key : Key) (p : ℕ) → IsGoodTree pages spare → IsOnWay pages k key p → (1 ≤ p) × (p < (pages 0).leftmost) }
{}

/// The walk has of a key what its leaf has.
pub fn leaf_has_the_value()
    ensures { (pages : Pages) (spare : List ℕ) (k : Key) (p : ℕ) → IsGoodTree pages spare → IsOnWay pages 0 k p
        → find key_order k (walk pages) ≡ find key_order k (pages p).entries }
{}

/// What the place of a key in a rising list says of its value, of the first entry from it on or above it, and of the list
/// with the key or without.
pub fn places_answer()
    ensures found { (es : List Entry) (k : Key) (i : ℕ) → Rises es → IsPlace es k (Ok i) → find key_order k es ≡ Some (entry_at es i).1 }
    ensures absent { (es : List Entry) (k : Key) (i : ℕ) → IsPlace es k (Err i) → find key_order k es ≡ None }
    ensures from { (k : Key) (es : List Entry) (i : ℕ) → Rises es → IsPlace es k (Ok i) → first_in (From k) es ≡ Some (entry_at es i) }
    ensures above { (k : Key) (es : List Entry) (i : ℕ) → Rises es → IsPlace es k (Ok i) → IsFirstAt (Above k) es (i + 1) }
    ensures gap { (s : Start) (es : List Entry) (i : ℕ) → IsPlace es (key_of s) (Err i) → IsFirstAt s es i }
    ensures put { (es : List Entry) (k : Key) (v i : ℕ) → IsPlace es k (Err i) → with_key k v es ≡ insert es i (k, v) }
    ensures taken { (es : List Entry) (k : Key) (i : ℕ) → Rises es → IsPlace es k (Ok i) → without_key k es ≡ remove es i }
{}

/// The search for the first entry past a start: it begins at the leaf of the start's key, goes on along the leaf chain
/// while a leaf has no such entry, and answers what the walk has.
pub fn chain_leads_to_the_first()
    ensures begins { (pages : Pages) (spare : List ℕ) (s : Start) (p : ℕ) → IsGoodTree pages spare → IsOnWay pages 0 (key_of s) p → IsAhead pages s 0 p }
    ensures leaf { (pages : Pages) (spare : List ℕ) (s : Start) (passed p : ℕ) → IsGoodTree pages spare → IsAhead pages s passed p → 1 ≤ p → IsLeafAhead pages passed p }
    ensures goes_on { (pages : Pages) (spare : List ℕ) (s : Start) (passed p : ℕ) → IsGoodTree pages spare → IsAhead pages s passed p → 1 ≤ p
        → first_in s (pages p).entries ≡ None → IsAhead pages s (suc passed) (pages p).next }
    ensures answers { (pages : Pages) (s : Start) (passed p : ℕ) (e : Entry) → IsAhead pages s passed p → 1 ≤ p → first_in s (pages p).entries ≡ Some e → first_in s (walk pages) ≡ Some e }
    ensures ends { (pages : Pages) (spare : List ℕ) (s : Start) (passed : ℕ) → IsGoodTree pages spare → IsAhead pages s passed 0 → first_in s (walk pages) ≡ None }
{}

/// The search for the last entry below a key: it begins at the key's leaf, goes back along the leaf chain while a leaf has
/// no such entry, and answers what the walk has.
pub fn chain_leads_to_the_last()
    ensures begins { (pages : Pages) (spare : List ℕ) (k : Key) (p : ℕ) → IsGoodTree pages spare → IsOnWay pages 0 k p → IsBehind pages k 0 p }
    ensures leaf { (pages : Pages) (spare : List ℕ) (k : Key) (passed p : ℕ) → IsGoodTree pages spare → IsBehind pages k passed p → 1 ≤ p → IsLeafAhead pages passed p }
    ensures goes_on { (pages : Pages) (spare : List ℕ) (k : Key) (passed p : ℕ) → IsGoodTree pages spare → IsBehind pages k passed p → 1 ≤ p
        → last_in k (pages p).entries ≡ None → IsBehind pages k (suc passed) (pages p).prev }
    ensures answers { (pages : Pages) (spare : List ℕ) (k : Key) (passed p : ℕ) (e : Entry) → IsGoodTree pages spare → IsBehind pages k passed p → 1 ≤ p → last_in k (pages p).entries ≡ Some e → last_in k (walk pages) ≡ Some e }
    ensures ends { (pages : Pages) (spare : List ℕ) (k : Key) (passed : ℕ) → IsGoodTree pages spare → IsBehind pages k passed 0 → last_in k (walk pages) ≡ None }
{}
