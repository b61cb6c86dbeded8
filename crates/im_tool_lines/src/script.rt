//! A script: what the files hold at first, and the lives.

ghost use Rattle.std.specs.Prelude.{◌≡◌, ℕ, IfOk};
ghost use Rattle.im_tool_lines.specs.Scripts.{lines_of, IsScript, IsFirstBad};

use crate::line_reader::read_lines;
use crate::script_reading::Reading;
use crate::{RawLife, ScriptError};
use std::alloc::Global;

/// A script whose lines are all good.
#[derive(Debug, Drop)]
pub struct Script {
    /// The bytes of the log file before the first life.
    pub log: Vec<u8>,
    /// The bytes of the file of pages before the first life.
    pub pages: Vec<u8>,
    /// The bytes of the other log before the first life.
    pub log2: Vec<u8>,
    /// The lives, in order.
    pub lives: Vec<RawLife>,
}

impl Script {
    /// Reads a script. Empty lines are passed over, and counted.
    ///
    /// The script is that of the text's lines. Refused `BadLine` with the first line that no line of the grammar
    /// spells or that may not stand where it stands; `Memory`.
    pub fn parse(alloc: Global, text: &[u8]) -> Result<Script, ScriptError>
        ensures read { IfOk result (λ script. IsScript (lines_of text.now) script) }
        ensures refused { (n : ℕ) → result ≡ Err (ScriptError.BadLine n) → IsFirstBad (lines_of text.now) n }
    {
        let mut reading = Reading::new(alloc);
        read_lines(alloc, text, &mut reading)?;
        reading.end()
    }
}
