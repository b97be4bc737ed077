// Why a text gives no script.
ghost use Rattle.std.specs.Prelude.{◌≡◌};
ghost use Rattle.script_text.specs.declared.faults.ParseFault.TheVariants.{Memory};

use mem_base::BadScript;
use std::alloc::{AllocError, AllocFailed};

/// Why a text gives no script: its first line at fault, or out of memory.
#[derive(Clone, Copy, Debug, PartialEq, Eq)]
pub enum ParseFault {
    Bad(BadScript),
    Memory,
}

impl From<AllocError> for ParseFault {
    ghost from_gives = { λ _ e. e ≡ Memory };

    fn from(_: AllocError) -> Self {
        ParseFault::Memory
    }
}

impl<T: Drop> From<AllocFailed<T>> for ParseFault {
    ghost from_gives = { λ _ e. e ≡ Memory };

    fn from(_: AllocFailed<T>) -> Self {
        ParseFault::Memory
    }
}
