// What the writer knows of one pass.
ghost use Rattle.std.specs.Prelude.{◌≡◌};
ghost use Rattle.mem_base.specs.machine.Generations.{nothing_known, known_after_sweep, with_placed};

use std::marker::Model;

/// The number that the last sweep found announced, the lowest number that the pass may still use, and whether it has its
/// copy of the next generation.
#[derive(Debug, Drop)]
pub(crate) struct Track {
    found: Option<u64>,
    lowest: u64,
    placed: bool,
}

impl Model for Track {
    ghost use Rattle.mem_base.specs.machine.Generations.{PassTrack};

    ghost Value = { PassTrack };

    ghost view = { λ k. record { found = k.found; lowest = k.lowest; placed = k.placed } };
}

impl Track {
    /// Of a pass that was never swept.
    pub(crate) fn new() -> Track
        ensures { result ≡ nothing_known }
    {
        Track {
            found: None,
            lowest: 0,
            placed: false,
        }
    }

    /// The number that the last sweep found announced.
    pub(crate) fn found(&self) -> Option<u64>
        ensures { result ≡ self.now.found }
    {
        self.found
    }

    /// The lowest number that the pass may still use.
    pub(crate) fn lowest(&self) -> u64
        ensures { result ≡ self.now.lowest }
    {
        self.lowest
    }

    /// Whether the pass has its copy of the next generation.
    pub(crate) fn is_placed(&self) -> bool
        ensures { result ≡ self.now.placed }
    {
        self.placed
    }

    /// A sweep found this pin word, where a generation was current.
    pub(crate) fn sweep(&mut self, current: u64, word: u64)
        ensures { self.new ≡ known_after_sweep current self.old word }
    {
        self.found = word.checked_sub(1);
        self.lowest = match self.found {
            Some(number) => self.lowest.max(number),
            None => current,
        };
    }

    /// The pass has its copy, or not.
    pub(crate) fn set_placed(&mut self, placed: bool)
        ensures { self.new ≡ with_placed placed self.old }
    {
        self.placed = placed;
    }
}
