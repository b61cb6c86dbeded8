//! Why a script was refused.

ghost use Rattle.std.specs.Prelude.{◌≡◌};

use std::alloc::AllocFailed;

/// Why a script was refused.
#[derive(Clone, Copy, Debug, PartialEq, Eq)]
pub enum ScriptError {
    /// The line of this number, counted from 1, is bad.
    BadLine(u64),
    /// There was no memory.
    Memory,
}

impl<T: Drop> From<AllocFailed<T>> for ScriptError {
    fn from(_failed: AllocFailed<T>) -> ScriptError
        ensures { result ≡ ScriptError.Memory }
    {
        ScriptError::Memory
    }
}
