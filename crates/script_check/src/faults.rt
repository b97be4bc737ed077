// Why nothing is compared.
ghost use Rattle.std.specs.Prelude.{◌≡◌};

use mem_base::BadScript;
use std::alloc::AllocError;

/// Why nothing is compared.
#[derive(Clone, Copy, Debug, PartialEq, Eq)]
pub enum CheckFault {
    /// The script's text is none: its first line at fault, and the cause.
    Script(BadScript),
    /// The first line of the monitor's text that has none of the forms, counted from 1.
    Flat { line: u32 },
    /// The monitor's text has 2^31 bytes or more.
    Long,
    Memory,
}

impl From<AllocError> for CheckFault {
    ghost use Rattle.script_check.specs.declared.faults.CheckFault.TheVariants.{Memory};

    ghost from_gives = { λ _ e. e ≡ Memory };

    fn from(_: AllocError) -> Self {
        CheckFault::Memory
    }
}
