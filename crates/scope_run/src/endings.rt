// How the program ends.
ghost use Rattle.std.specs.Prelude.{◌≡◌};
ghost use Rattle.scope_run.specs.Requests.{ending_of};
ghost use Rattle.scope_run.specs.Statuses.{status_of};

/// How a run of the program ended.
#[derive(Clone, Copy, Debug, PartialEq, Eq)]
pub enum Ending {
    /// The answer was written, and there is nothing to mend.
    Nothing,
    /// The answer was written, and it tells of something that the user may want to mend.
    Something,
    /// The request cannot be answered: a file that cannot be read, a text that is no script, a name that stands for nothing.
    Wrong,
    /// A write failed.
    WriteFault,
    /// Memory ran out.
    Memory,
}

impl Ending {
    /// The exit status of the process.
    pub fn status(self) -> u8
        ensures { result ≡ status_of self }
    {
        match self {
            Ending::Nothing => 0,
            Ending::Something => 1,
            Ending::Wrong => 2,
            Ending::WriteFault => 3,
            Ending::Memory => 4,
        }
    }
}

/// How a run ends after an answer.
pub(crate) fn ending_of(something: bool) -> Ending
    ensures { result ≡ ending_of something }
{
    if something {
        Ending::Something
    } else {
        Ending::Nothing
    }
}
