//! A script of lives of a store as far as it was read.

ghost use Rattle.std.specs.Prelude.{◌≡◌, ◌++◌, ◌∷◌, [], List, map, IfOk, OnOk, IfErr};
ghost use Rattle.im_base_types.specs.declared.fault.Fault.TheVariants.{BadScript};
ghost use Rattle.im_tool_lines.specs.declared.store_script_line.StoreScriptLine.{StoreScriptLine};
ghost use Rattle.im_tool_lines.specs.Scripts.{MayStand, MayFollow, Before, place_after};
ghost use Rattle.im_tool_lines.specs.StoreScripts.{SpellsStore, IsStoreScriptOf, store_kind_of};
ghost use Rattle.im_tool_lines.specs.StoreReading.{IsStoreReading};

use crate::ScriptError;
use crate::line_reader::LineReader;
use crate::set_files::SetFiles;
use crate::store_grammar::parse_store_line;
use crate::store_life::{LifeOptions, StoreLife, StoreLine};
use crate::store_script::StoreScript;
use crate::store_script_line::StoreScriptLine;
use im_base_model_disk::Stop;
use im_base_types::{Fault, FileId};
use std::alloc::Global;

/// A life that is not ended.
#[derive(Drop)]
pub(crate) struct OpenLife {
    options: LifeOptions,
    lines: Vec<StoreLine>,
}

/// The files and the lives that are ended, and the life that is not.
#[derive(Drop)]
pub(crate) struct StoreReading {
    files: SetFiles,
    lives: Vec<StoreLife>,
    life: Option<OpenLife>,
}

impl StoreReading {
    /// No line was read.
    pub(crate) fn new(alloc: Global) -> StoreReading
        ensures { IsStoreReading result [] }
    {
        let files = SetFiles::new(alloc);
        let lives = Vec::new(alloc);
        StoreReading {
            files,
            lives,
            life: None,
        }
    }

    fn take(&mut self, alloc: Global, line: StoreScriptLine) -> Result<(), Fault>
        ensures read { OnOk result ((said : List StoreScriptLine) → IsStoreReading self.old said → IsStoreReading self.new (said ++ line ∷ [])) }
        ensures refused { result ≡ Err BadScript → (said : List StoreScriptLine) → IsStoreReading self.old said → ¬ (MayFollow (store_kind_of line) (place_after Before (map store_kind_of said))) }
    {
        match line {
            StoreScriptLine::Set(file, bytes) => self.set_file(file, bytes),
            StoreScriptLine::Life(options) => self.begin_life(alloc, options),
            StoreScriptLine::Within(line) => self.add(line),
            StoreScriptLine::Stop(stop) => self.stop(stop),
        }
    }

    fn set_file(&mut self, file: FileId, bytes: Vec<u8>) -> Result<(), Fault>
        ensures read { OnOk result ((said : List StoreScriptLine) → IsStoreReading self.old said → IsStoreReading self.new (said ++ StoreScriptLine.Set file bytes ∷ [])) }
        ensures refused { result ≡ Err BadScript → (said : List StoreScriptLine) → IsStoreReading self.old said → ¬ (MayFollow (store_kind_of (StoreScriptLine.Set file bytes)) (place_after Before (map store_kind_of said))) }
    {
        if self.life.is_some() || !self.lives.is_empty() {
            return Err(Fault::BadScript);
        }
        self.files.set(file, bytes);
        Ok(())
    }

    fn begin_life(&mut self, alloc: Global, options: LifeOptions) -> Result<(), Fault>
        ensures read { OnOk result ((said : List StoreScriptLine) → IsStoreReading self.old said → IsStoreReading self.new (said ++ StoreScriptLine.Life options ∷ [])) }
        ensures memory { IfErr result (λ fault. fault ≡ Fault.Memory) }
    {
        let next = OpenLife {
            options,
            lines: Vec::new(alloc),
        };
        let Some(life) = self.life.take() else {
            self.life = Some(next);
            return Ok(());
        };
        let OpenLife { options, lines } = life;
        match self.lives.push(StoreLife {
            options,
            lines,
            stop: None,
        }) {
            Ok(()) => {
                self.life = Some(next);
                Ok(())
            }
            Err(_) => Err(Fault::Memory),
        }
    }

    fn add(&mut self, line: StoreLine) -> Result<(), Fault>
        ensures read { OnOk result ((said : List StoreScriptLine) → IsStoreReading self.old said → IsStoreReading self.new (said ++ StoreScriptLine.Within line ∷ [])) }
        ensures refused { result ≡ Err BadScript → (said : List StoreScriptLine) → IsStoreReading self.old said → ¬ (MayFollow (store_kind_of (StoreScriptLine.Within line)) (place_after Before (map store_kind_of said))) }
    {
        let Some(mut life) = self.life.take() else {
            return Err(Fault::BadScript);
        };
        match life.lines.push(line) {
            Ok(()) => {
                self.life = Some(life);
                Ok(())
            }
            Err(_) => Err(Fault::Memory),
        }
    }

    fn stop(&mut self, stop: Stop) -> Result<(), Fault>
        ensures read { OnOk result ((said : List StoreScriptLine) → IsStoreReading self.old said → IsStoreReading self.new (said ++ StoreScriptLine.Stop stop ∷ [])) }
        ensures refused { result ≡ Err BadScript → (said : List StoreScriptLine) → IsStoreReading self.old said → ¬ (MayFollow (store_kind_of (StoreScriptLine.Stop stop)) (place_after Before (map store_kind_of said))) }
    {
        let Some(life) = self.life.take() else {
            return Err(Fault::BadScript);
        };
        let OpenLife { options, lines } = life;
        let life = StoreLife {
            options,
            lines,
            stop: Some(stop),
        };
        let Ok(()) = self.lives.push(life) else {
            return Err(Fault::Memory);
        };
        Ok(())
    }

    /// The script of the lines that were read.
    pub(crate) fn end(self) -> Result<StoreScript, ScriptError>
        ensures read { IfOk result (λ script. (said : List StoreScriptLine) → IsStoreReading self said → IsStoreScriptOf script said × MayStand Before (map store_kind_of said)) }
        ensures memory { IfErr result (λ error. error ≡ ScriptError.Memory) }
    {
        let StoreReading { files, lives, life } = self;
        let SetFiles { log, pages, log2 } = files;
        let mut script = StoreScript {
            log,
            pages,
            log2,
            lives,
        };
        let Some(life) = life else {
            return Ok(script);
        };
        let OpenLife { options, lines } = life;
        match script.lives.push(StoreLife {
            options,
            lines,
            stop: None,
        }) {
            Ok(()) => Ok(script),
            Err(_) => Err(ScriptError::Memory),
        }
    }
}

impl LineReader for StoreReading {
    type Line = StoreScriptLine;

    ghost spells = { SpellsStore };

    ghost kind = { store_kind_of };

    ghost has_read = { IsStoreReading };

    fn read_line(&mut self, alloc: Global, line: &[u8]) -> Result<(), Fault> {
        let line = parse_store_line(alloc, line)?;
        self.take(alloc, line)
    }
}
