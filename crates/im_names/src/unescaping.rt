//! Whose key is a part of?
ghost use Rattle.std.specs.Prelude.{◌≡◌, ◌≤◌, ◌<◌, ◌+◌, [], length, take, drop, slice_index, MatchOption, Some, None};
ghost use Rattle.im_names.specs.Kinds.{key_of_part, long_key, with_byte};

/// The key of a long value, as a part has it.
#[derive(Clone, Copy, Debug, PartialEq, Eq)]
pub struct KeyInPart {
    /// How many bytes the key has.
    pub len: usize,
    /// How many bytes the value's front has: what all of its parts begin with.
    pub front: usize,
}

// How many bytes the key's byte takes that stands at a place; none where the key ends there.
#[tactic(auto, using(crate::proofs::KindLemmas::size_one, crate::proofs::KindLemmas::size_two, crate::proofs::KindLemmas::size_end))]
fn size_at(part: &[u8], at: usize) -> Option<usize>
    requires { at < length part.now }
    ensures end { result ≡ None → long_key (drop at part.now) ≡ Some ([], drop (at + 1) part.now) }
    ensures byte { MatchOption result (Unit {0}) (λ size. long_key (drop at part.now) ≡ with_byte (slice_index part.now at) (long_key (drop (at + size) part.now))) }
    ensures within { MatchOption result (Unit {0}) (λ size. (1 ≤ size) × (at + size ≤ length part.now)) }
{
    if part[at] != 0 {
        return Some(1);
    }
    if at + 1 >= part.len() {
        return None;
    }
    if part[at + 1] == 0xff { Some(2) } else { None }
}

/// The key of the long value whose part this is, written into a buffer; none where it is no part.
pub fn key_in(part: &[u8], to: &mut [u8]) -> Option<KeyInPart>
    requires size { length part.now ≤ 255 }
    requires room { 255 ≤ length to.old }
    ensures key { MatchOption result (key_of_part part.now ≡ None) (λ k. key_of_part part.now ≡ Some (take k.len to.new, drop k.front part.now)) }
    ensures within { MatchOption result (Unit {0}) (λ k. (k.len < k.front) × (k.front ≤ length part.now)) }
{
    if part.is_empty() {
        return None;
    }
    let mut at = part[0] as usize + 1;
    let mut len = 0;
    while at < part.len() {
        match size_at(part, at) {
            Some(size) => {
                to[len] = part[at];
                len += 1;
                at += size;
            }
            None => {
                return Some(KeyInPart { len, front: at + 1 });
            }
        }
    }
    None
}
