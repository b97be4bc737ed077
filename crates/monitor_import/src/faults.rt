// Why no script is made.
ghost use Rattle.std.specs.Prelude.{◌≡◌};

use mem_base::BadScript;
use std::alloc::{AllocError, AllocFailed};

/// Why no script is made.
#[derive(Debug, Drop)]
pub enum ImportFault {
    /// A text has 2^31 bytes or more.
    Long,
    /// The first line of the tree's text that has none of the forms, counted from 1.
    Tree { line: u32 },
    /// The first line of the views' text that has none of the forms, counted from 1.
    Flat { line: u32 },
    /// No line of the tree's text names a space.
    NoSpace,
    /// No line of the tree's text names the space of this one of the wanted names, counted from 0: the first such name.
    Unknown { at: usize },
    /// The text that was made is no script, as where it is longer than a script may be.
    Made { text: Vec<u8>, bad: BadScript },
    Memory,
}

impl From<AllocError> for ImportFault {
    ghost use Rattle.monitor_import.specs.declared.faults.ImportFault.TheVariants.{Memory};

    ghost from_gives = { λ _ e. e ≡ Memory };

    fn from(_: AllocError) -> Self {
        ImportFault::Memory
    }
}

impl<T: Drop> From<AllocFailed<T>> for ImportFault {
    ghost use Rattle.monitor_import.specs.declared.faults.ImportFault.TheVariants.{Memory};

    ghost from_gives = { λ _ e. e ≡ Memory };

    fn from(_: AllocFailed<T>) -> Self {
        ImportFault::Memory
    }
}

/// The value, unless memory ran out while it was made.
pub(crate) fn kept<T: Drop>(value: T, done: Result<(), AllocError>) -> Result<T, AllocError> {
    match done {
        Ok(()) => Ok(value),
        Err(fault) => Err(fault),
    }
}
