//! Why a text has no scripts.
ghost use Rattle.std.specs.Prelude.{◌≡◌};
ghost use Rattle.script_text.specs.declared.error.ScriptError.TheVariants.{NoMemory as no_memory};

use prcu_model::NoMemory;
use thiserror::Error;

/// Why a text wasn't read.
#[derive(Clone, Copy, Debug, Error)]
pub enum ScriptError {
    /// The line with this number, counted from 1, is the first bad one. A number that doesn't fit stays the largest.
    #[error("line {number} is not a script's")]
    Line { number: u32 },
    /// The memory for the scripts wasn't there.
    #[error("out of memory")]
    NoMemory,
}

impl From<NoMemory> for ScriptError {
    ghost from_gives = { λ _ e. e ≡ no_memory };

    fn from(_refused: NoMemory) -> ScriptError {
        ScriptError::NoMemory
    }
}
