//! Whether a text is a script of lives over the gate alone.

ghost use Rattle.std.specs.Prelude.{◌≡◌, ◌↔◌, true};
ghost use Rattle.im_tool_lines.specs.Scripts.{lines_of};
ghost use Rattle.im_tool_lines.specs.StoreScripts.{BeginsLife, IsRaw};

use im_tool_words::first_piece;

/// A `raw` line stands in the script, and no `life` line in front of it.
pub fn is_raw(text: &[u8]) -> bool
    ensures { result ≡ true ↔ IsRaw (lines_of text.now) }
{
    let mut left = Some(text);
    while let Some(rest) = left {
        let (line, more) = first_piece(rest, b'\n');
        left = more;
        if line == b"raw".as_slice() {
            return true;
        }
        if begins_life(line) {
            return false;
        }
    }
    false
}

// The line is `life`, or begins with that word.
#[tactic(auto, using(crate::proofs::RawTexts::life_or_not))]
fn begins_life(line: &[u8]) -> bool
    ensures { result ≡ true ↔ BeginsLife line.now }
{
    let (word, _) = first_piece(line, b' ');
    word == b"life".as_slice()
}
