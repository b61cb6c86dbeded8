//! Texts cut at a separator: lines at newlines, words at spaces.

ghost use Rattle.std.specs.Prelude.{◌≡◌, ◌<◌, ◌++◌, ◌∷◌, length, IfSome, MatchOption};
ghost use Rattle.im_tool_words.specs.Words.{LacksByte};

/// The text up to the first separator, and what stands after that separator; none where there is none. The first piece has no separator.
#[tactic(auto, using(crate::proofs::Texts::lacks_more, crate::proofs::Texts::lacks_all))]
pub fn first_piece(text: &[u8], separator: u8) -> (&[u8], Option<&[u8]>)
    ensures cut { MatchOption result.1 (result.0.now ≡ text.now) (λ rest. text.now ≡ result.0.now ++ separator ∷ rest.now) }
    ensures lacks { LacksByte separator result.0.now }
    ensures shorter { IfSome result.1 (λ rest. length rest.now < length text.now) }
{
    for end in 0..text.len() {
        if text[end] == separator {
            return (&text[..end], Some(&text[end + 1..]));
        }
    }
    (text, None)
}
