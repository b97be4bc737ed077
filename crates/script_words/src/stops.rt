// Why words give no task.
ghost use Rattle.std.specs.Prelude.{◌≡◌};
ghost use Rattle.script_words.specs.declared.stops.WordsStop.TheVariants.{Memory};

use std::alloc::AllocError;

/// Why words give no task: they have none of the four forms, or there was no memory.
#[derive(Clone, Copy, Debug, PartialEq, Eq)]
pub enum WordsStop {
    Usage,
    Memory,
}

impl From<AllocError> for WordsStop {
    ghost from_gives = { λ _ e. e ≡ Memory };

    fn from(_: AllocError) -> Self {
        WordsStop::Memory
    }
}
