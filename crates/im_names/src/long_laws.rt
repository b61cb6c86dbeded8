//! What holds of all long values, and of a store that is read while one is changed.
ghost use Rattle.std.specs.Prelude.{◌≡◌, ◌<◌, ◌≤◌, ◌++◌, [], ℕ, List, length, take, Option};
ghost use Rattle.im_names.specs.declared.reading.Found.TheVariants.{Nothing, Whole};
ghost use Rattle.im_names.specs.LongValues.{FindsOneOf, IsSomeOf, Replaces, Write, with_writes, all_put_in, all_taken_out, parts_or_none};
ghost use Rattle.im_names.specs.Parts.{Entry, parts_of, room_of};
ghost use Rattle.im_names.specs.Readings.{found_among, value_in};

/// A value that is there is found, and it is that one.
pub fn values_read_back()
    ensures whole { (front value : List ℕ) → length front ≤ 219 → found_among (length front) (parts_of front value) ≡ Whole }
    ensures value { (front value : List ℕ) → length front ≤ 219 → value_in (length front) (parts_of front value) ≡ value }
{}

/// Of whatever parts of one value there are, only all of them are found to be whole, and only none to be nothing; any
/// others are half a value.
pub fn parts_of_one()
    ensures whole { (front value : List ℕ) (there : List Entry) → length front ≤ 219 → IsSomeOf there (parts_of front value) → found_among (length front) there ≡ Whole → there ≡ parts_of front value }
    ensures nothing { (front : ℕ) (there : List Entry) → found_among front there ≡ Nothing → there ≡ [] }
{}

/// The plainest writer, which takes all old parts out and puts all new ones in, is one of those, and in the end the
/// new value is there, and nothing else.
pub fn put_in_full()
    ensures replaces { (front : List ℕ) (old new : Option (List ℕ)) → Replaces (parts_or_none front old) (parts_or_none front new) (all_taken_out (parts_or_none front old)) (all_put_in (parts_or_none front new)) }
    ensures ends { (front : List ℕ) (old new : Option (List ℕ)) → with_writes (all_taken_out (parts_or_none front old) ++ all_put_in (parts_or_none front new)) (parts_or_none front old) ≡ parts_or_none front new }
{}

/// After any number of a writer's changes, in their order, a reader finds the old value, the new one or none, or is
/// refused: `None` stands for no value, so that a put where none is and a delete are the same. The changes are those
/// of the index's entries.
pub fn whole_or_refused()
    ensures { (front : List ℕ) (old new : Option (List ℕ)) (outs ins : List Write) (n : ℕ) → length front ≤ 219 → Replaces (parts_or_none front old) (parts_or_none front new) outs ins
        → FindsOneOf front old new (with_writes (take n (outs ++ ins)) (parts_or_none front old)) }
{}
