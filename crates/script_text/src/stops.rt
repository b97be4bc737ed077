// Why a line gives no command.
ghost use Rattle.std.specs.Prelude.{◌≡◌, Result, Some};
ghost use Rattle.mem_base.specs.declared.script.faults.Cause.{Cause};
ghost use Rattle.mem_base.specs.script.Operands.{made_by};
ghost use Rattle.script_text.specs.Reads.{Reads};
ghost use Rattle.script_text.specs.declared.stops.LineStop.TheVariants.{Bad, Memory};

use mem_base::Cause;
use std::alloc::{AllocError, AllocFailed};

/// Why a line gives no command: its cause, or out of memory.
#[derive(Clone, Copy, Debug, PartialEq, Eq)]
pub enum LineStop {
    Bad(Cause),
    Memory,
}

impl From<Cause> for LineStop {
    ghost from_gives = { λ cause e. e ≡ Bad cause };

    fn from(cause: Cause) -> Self {
        LineStop::Bad(cause)
    }
}

impl From<AllocError> for LineStop {
    ghost from_gives = { λ _ e. e ≡ Memory };

    fn from(_: AllocError) -> Self {
        LineStop::Memory
    }
}

impl<T: Drop> From<AllocFailed<T>> for LineStop {
    ghost from_gives = { λ _ e. e ≡ Memory };

    fn from(_: AllocFailed<T>) -> Self {
        LineStop::Memory
    }
}

/// What was read, as what was found.
pub fn found<T>(read: Result<T, LineStop>) -> Result<Option<T>, LineStop>
    ensures { (defined : Result T Cause) → Reads read defined → Reads result (made_by Some defined) }
{
    match read {
        Ok(value) => Ok(Some(value)),
        Err(stop) => Err(stop),
    }
}
