//! Numbers as scripts write them.

ghost use Rattle.std.specs.Prelude.{ℕ, MatchOption};
ghost use Rattle.im_tool_words.specs.Words.{IsNumber};

use std::str;

/// The number that the word writes in decimal, without leading zeros; none where it writes none that fits.
pub fn number_of(word: &[u8]) -> Option<u64>
    ensures { MatchOption result ((n : ℕ) → ¬ (IsNumber word.now n)) (λ n. IsNumber word.now n) }
{
    let first = *word.first()?;
    if first == b'+' || (first == b'0' && word.len() > 1) {
        return None;
    }
    let Ok(text) = str::from_utf8(word) else {
        return None;
    };
    text.parse::<u64>().ok()
}
