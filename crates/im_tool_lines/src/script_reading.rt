//! A script as far as it was read.

ghost use Rattle.std.specs.Prelude.{◌≡◌, ◌++◌, ◌∷◌, [], List, map, IfOk, OnOk, IfErr};
ghost use Rattle.im_base_types.specs.declared.fault.Fault.TheVariants.{BadScript};
ghost use Rattle.im_tool_lines.specs.declared.line.Line.{Line};
ghost use Rattle.im_tool_lines.specs.Lines.{SpellsLine};
ghost use Rattle.im_tool_lines.specs.Scripts.{IsScriptOf, MayStand, MayFollow, Before, kind_of, line_of, place_after};
ghost use Rattle.im_tool_lines.specs.Reading.{IsReading};

use crate::grammar::parse_line;
use crate::line_reader::LineReader;
use crate::set_files::SetFiles;
use crate::{Line, RawLife, RawLine, Script, ScriptError};
use im_base_model_disk::Stop;
use im_base_types::{Fault, FileId};
use std::alloc::Global;

/// The files and the lives that are ended, and the lines of the life that is not.
#[derive(Drop)]
pub(crate) struct Reading {
    files: SetFiles,
    lives: Vec<RawLife>,
    life: Option<Vec<RawLine>>,
}

impl Reading {
    /// No line was read.
    pub(crate) fn new(alloc: Global) -> Reading
        ensures { IsReading result [] }
    {
        let files = SetFiles::new(alloc);
        let lives = Vec::new(alloc);
        Reading {
            files,
            lives,
            life: None,
        }
    }

    fn take(&mut self, alloc: Global, line: Line) -> Result<(), Fault>
        ensures read { OnOk result ((said : List Line) → IsReading self.old said → IsReading self.new (said ++ line ∷ [])) }
        ensures refused { result ≡ Err BadScript → (said : List Line) → IsReading self.old said → ¬ (MayFollow (kind_of line) (place_after Before (map kind_of said))) }
    {
        match line {
            Line::Set(file, bytes) => self.set_file(file, bytes),
            Line::Raw => self.begin_life(alloc),
            Line::Put(batch) => self.add(RawLine::Put(batch)),
            Line::Calls => self.add(RawLine::Calls),
            Line::Stop(stop) => self.stop(stop),
        }
    }

    fn set_file(&mut self, file: FileId, bytes: Vec<u8>) -> Result<(), Fault>
        ensures read { OnOk result ((said : List Line) → IsReading self.old said → IsReading self.new (said ++ Line.Set file bytes ∷ [])) }
        ensures refused { result ≡ Err BadScript → (said : List Line) → IsReading self.old said → ¬ (MayFollow (kind_of (Line.Set file bytes)) (place_after Before (map kind_of said))) }
    {
        if self.life.is_some() || !self.lives.is_empty() {
            return Err(Fault::BadScript);
        }
        self.files.set(file, bytes);
        Ok(())
    }

    fn begin_life(&mut self, alloc: Global) -> Result<(), Fault>
        ensures read { OnOk result ((said : List Line) → IsReading self.old said → IsReading self.new (said ++ Line.Raw ∷ [])) }
        ensures memory { IfErr result (λ fault. fault ≡ Fault.Memory) }
    {
        let empty = Vec::new(alloc);
        let Some(lines) = self.life.take() else {
            self.life = Some(empty);
            return Ok(());
        };
        match self.lives.push(RawLife { lines, stop: None }) {
            Ok(()) => {
                self.life = Some(empty);
                Ok(())
            }
            Err(_) => Err(Fault::Memory),
        }
    }

    fn add(&mut self, line: RawLine) -> Result<(), Fault>
        ensures read { OnOk result ((said : List Line) → IsReading self.old said → IsReading self.new (said ++ line_of line ∷ [])) }
        ensures refused { result ≡ Err BadScript → (said : List Line) → IsReading self.old said → ¬ (MayFollow (kind_of (line_of line)) (place_after Before (map kind_of said))) }
    {
        let Some(mut lines) = self.life.take() else {
            return Err(Fault::BadScript);
        };
        match lines.push(line) {
            Ok(()) => {
                self.life = Some(lines);
                Ok(())
            }
            Err(_) => Err(Fault::Memory),
        }
    }

    fn stop(&mut self, stop: Stop) -> Result<(), Fault>
        ensures read { OnOk result ((said : List Line) → IsReading self.old said → IsReading self.new (said ++ Line.Stop stop ∷ [])) }
        ensures refused { result ≡ Err BadScript → (said : List Line) → IsReading self.old said → ¬ (MayFollow (kind_of (Line.Stop stop)) (place_after Before (map kind_of said))) }
    {
        let Some(lines) = self.life.take() else {
            return Err(Fault::BadScript);
        };
        let life = RawLife {
            lines,
            stop: Some(stop),
        };
        let Ok(()) = self.lives.push(life) else {
            return Err(Fault::Memory);
        };
        Ok(())
    }

    /// The script of the lines that were read.
    pub(crate) fn end(self) -> Result<Script, ScriptError>
        ensures read { IfOk result (λ script. (said : List Line) → IsReading self said → IsScriptOf script said × MayStand Before (map kind_of said)) }
        ensures memory { IfErr result (λ error. error ≡ ScriptError.Memory) }
    {
        let Reading { files, lives, life } = self;
        let SetFiles { log, pages, log2 } = files;
        let mut script = Script {
            log,
            pages,
            log2,
            lives,
        };
        let Some(lines) = life else {
            return Ok(script);
        };
        match script.lives.push(RawLife { lines, stop: None }) {
            Ok(()) => Ok(script),
            Err(_) => Err(ScriptError::Memory),
        }
    }
}

impl LineReader for Reading {
    type Line = Line;

    ghost spells = { SpellsLine };

    ghost kind = { kind_of };

    ghost has_read = { IsReading };

    fn read_line(&mut self, alloc: Global, line: &[u8]) -> Result<(), Fault> {
        let line = parse_line(alloc, line)?;
        self.take(alloc, line)
    }
}
