// Why a text is none of the monitor's.
ghost use Rattle.std.specs.Prelude.{◌≡◌};

use std::alloc::{AllocError, AllocFailed};

/// Why a line was not read: it has none of the forms of its text, or memory ran out.
#[derive(Clone, Copy, Debug, PartialEq, Eq)]
pub enum LineFault {
    Bad,
    Memory,
}

impl From<AllocError> for LineFault {
    ghost use Rattle.monitor_text.specs.declared.faults.LineFault.TheVariants.{Memory};

    ghost from_gives = { λ _ e. e ≡ Memory };

    fn from(_: AllocError) -> Self {
        LineFault::Memory
    }
}

/// Why a text was not read: its first line that has none of the forms, counted from 1, or memory ran out.
#[derive(Clone, Copy, Debug, PartialEq, Eq)]
pub enum MonitorFault {
    Bad { line: u32 },
    Memory,
}

impl From<AllocError> for MonitorFault {
    ghost use Rattle.monitor_text.specs.declared.faults.MonitorFault.TheVariants.{Memory};

    ghost from_gives = { λ _ e. e ≡ Memory };

    fn from(_: AllocError) -> Self {
        MonitorFault::Memory
    }
}

impl<T: Drop> From<AllocFailed<T>> for MonitorFault {
    ghost use Rattle.monitor_text.specs.declared.faults.MonitorFault.TheVariants.{Memory};

    ghost from_gives = { λ _ e. e ≡ Memory };

    fn from(_: AllocFailed<T>) -> Self {
        MonitorFault::Memory
    }
}
