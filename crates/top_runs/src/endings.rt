// How the program ends.
ghost use Rattle.std.specs.Prelude.{◌≡◌};

use mem_base::BadScript;

/// How a run of the program ended.
#[derive(Clone, Copy, Debug, PartialEq, Eq)]
pub enum Ending {
    /// The whole text was written.
    Done,
    /// The words are none that the program knows.
    Usage,
    /// The bytes that were read are no script.
    BadScript(BadScript),
    /// A read failed.
    ReadFault,
    /// A write failed.
    WriteFault,
    /// Memory ran out.
    Memory,
}

impl Ending {
    ghost use Rattle.top_runs.specs.Statuses.{status_of};

    /// The exit status of the process.
    pub fn status(self) -> u8
        ensures { result ≡ status_of self }
    {
        match self {
            Ending::Done => 0,
            Ending::Usage => 2,
            Ending::BadScript(_) => 3,
            Ending::ReadFault => 4,
            Ending::WriteFault => 5,
            Ending::Memory => 6,
        }
    }
}
