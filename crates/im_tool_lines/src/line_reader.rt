//! A text that is read line by line, whatever its lines are.

ghost use Rattle.std.specs.Prelude.{◌≡◌, ◌++◌, ◌∷◌, [], ℕ, List, map, OnOk};
ghost use Rattle.im_base_types.specs.declared.fault.Fault.TheVariants.{BadScript};
ghost use Rattle.im_tool_lines.specs.Scripts.{Kind, Before, MayFollow, MayStand, SaysBy, IsFirstBadBy, lines_of, place_after};

use crate::ScriptError;
use im_base_types::Fault;
use im_tool_words::first_piece;
use std::alloc::Global;

/// What takes the lines of a script in turn.
pub(crate) trait LineReader {
    /// What a line says.
    type Line;

    /// How a line is spelled that says this.
    ghost spells: { List ℕ → Self.Line → Type 0 };

    /// Which lines may follow on it.
    ghost kind: { Self.Line → Kind };

    /// These lines were read, and no others.
    ghost has_read: { Self → List Self.Line → Type 0 };

    /// Reads the next line. Refused `BadScript` where it is bad by itself or may not stand here.
    fn read_line(&mut self, alloc: Global, line: &[u8]) -> Result<(), Fault>
        ensures read { OnOk result ((said : List Self.Line) → has_read self.old said → (next : Self.Line) × spells line.now next × has_read self.new (said ++ next ∷ [])) }
        ensures refused { result ≡ Err BadScript → (said : List Self.Line) → has_read self.old said → (next : Self.Line) → spells line.now next → ¬ (MayFollow (kind next) (place_after Before (map kind said))) };
}

/// Reads all lines of a text. Empty ones are passed over, and counted.
///
/// Refused `BadLine` with the first line that no line of the grammar spells or that may not stand where it stands; `Memory`.
pub(crate) fn read_lines<R: LineReader>(
    alloc: Global,
    text: &[u8],
    reader: &mut R,
) -> Result<(), ScriptError>
    requires none { R.has_read reader.old [] }
    requires one_kind { (text : List ℕ) (a b : R.Line) → R.spells text a → R.spells text b → R.kind a ≡ R.kind b }
    requires stands { (reader : R) (said : List R.Line) → R.has_read reader said → MayStand Before (map R.kind said) }
    ensures read { OnOk result ((said : List R.Line) × SaysBy R.spells (lines_of text.now) said × R.has_read reader.new said) }
    ensures refused { (n : ℕ) → result ≡ Err (ScriptError.BadLine n) → IsFirstBadBy R.spells R.kind (lines_of text.now) n }
{
    let mut number = 0u64;
    let mut left = Some(text);
    while let Some(rest) = left {
        let (line, more) = first_piece(rest, b'\n');
        left = more;
        number += 1;
        if line.is_empty() {
            continue;
        }
        match reader.read_line(alloc, line) {
            Ok(()) => {}
            Err(Fault::BadScript) => return Err(ScriptError::BadLine(number)),
            Err(_) => return Err(ScriptError::Memory),
        }
    }
    Ok(())
}
