// What a command answers.
ghost use Rattle.std.specs.Prelude.{◌≡◌, false};
ghost use Rattle.scope_run.specs.Lints.{tells_something};
ghost use Rattle.scope_run.specs.Scripts.{stopped_by};
ghost use Rattle.scope_run.specs.declared.answers.Fault.TheVariants.{Memory};

use crate::importing::MonitorStop;
use mem_base::BadScript;
use script_lines::Line;
use script_map::MapStop;
use std::alloc::AllocError;

/// The answer of a command: its text, and whether it found something that the user may want to mend.
#[derive(Drop)]
pub struct Answer {
    pub text: Line,
    pub something: bool,
}

/// The first of the texts that a request names, or the second.
#[derive(Clone, Copy, Debug, PartialEq, Eq)]
pub enum Which {
    First,
    Second,
}

/// Why a command has no answer.
#[derive(Clone, Copy, Debug, PartialEq, Eq)]
pub enum Fault {
    /// A file cannot be read.
    File(Which),
    /// A text is no script: its first line at fault, and the cause.
    Script { which: Which, bad: BadScript },
    /// A name stands for no space.
    NoSpace,
    /// A name stands for no region.
    NoRegion,
    /// A word is no address.
    NoAddress,
    /// A text of QEMU's monitor is of no use.
    Monitor(MonitorStop),
    Memory,
}

impl From<AllocError> for Fault {
    ghost from_gives = { λ _ e. e ≡ Memory };

    fn from(_: AllocError) -> Self {
        Fault::Memory
    }
}

/// Why a text gives no map.
pub fn stopped(which: Which, stop: MapStop) -> Fault
    ensures { result ≡ stopped_by which stop }
{
    match stop {
        MapStop::Bad(bad) => Fault::Script { which, bad },
        MapStop::Memory => Fault::Memory,
    }
}

/// An answer that has something to mend just where it has a text.
pub(crate) fn found(text: Line) -> Answer
    ensures text { result.text ≡ text }
    ensures something { result.something ≡ tells_something text }
{
    let something = !text.as_bytes().is_empty();
    Answer { text, something }
}

/// An answer that tells what was asked for.
pub(crate) fn told(text: Line) -> Answer
    ensures text { result.text ≡ text }
    ensures something { result.something ≡ false }
{
    Answer {
        text,
        something: false,
    }
}
