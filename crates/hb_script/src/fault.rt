//! Why a script could not be read.

ghost use Rattle.std.specs.Prelude.{◌≡◌};
ghost use Rattle.hb_script.specs.declared.fault.ScriptError.TheVariants.{Memory};

use std::alloc::{AllocError, AllocFailed};
use thiserror::Error;

/// Why a script could not be read.
#[derive(Debug, Drop, Error)]
pub enum ScriptError {
    /// The number of the first line that is no line of a script, from 1, or 0 where the script is too long.
    #[error("line {0} of the script is wrong")]
    Bad(u32),
    /// Memory ran out.
    #[error("memory ran out")]
    Memory,
}

impl From<AllocError> for ScriptError {
    ghost from_gives = { λ _ e. e ≡ Memory };

    fn from(_error: AllocError) -> ScriptError {
        ScriptError::Memory
    }
}

impl<T: Drop> From<AllocFailed<T>> for ScriptError {
    ghost from_gives = { λ _ e. e ≡ Memory };

    fn from(_error: AllocFailed<T>) -> ScriptError {
        ScriptError::Memory
    }
}
