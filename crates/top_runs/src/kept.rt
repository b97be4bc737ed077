// A sink that keeps what it takes.
ghost use Rattle.std.specs.Prelude.{◌≡◌, [], Some};
ghost use Rattle.top_runs.specs.KeptText.{kept_text};

use outside::{Failed, Sink};
use std::alloc::Global;

/// Keeps all that it takes, as long as there is memory for it; a write for which there is none fails.
#[derive(Drop)]
pub(crate) struct Kept {
    text: Vec<u8>,
    faults: u64,
}

impl Kept {
    /// Nothing is kept yet.
    pub(crate) fn new(alloc: Global) -> Kept
        ensures { kept_text result ≡ [] }
    {
        Kept {
            text: Vec::new(alloc),
            faults: 0,
        }
    }

    /// All that was kept. It takes no memory.
    pub(crate) fn into_vec(self) -> Vec<u8>
        ensures { result.items ≡ kept_text self }
    {
        self.text
    }
}

impl Sink for Kept {
    ghost use Rattle.std.proofs.Common.{rules};
    ghost use Rattle.top_runs.specs.KeptText.{kept_text};

    ghost written = { λ k. Some (kept_text k) };

    ghost holds = { λ k text. text ≡ kept_text k };

    ghost faults = { λ k. k.faults };

    ghost told = { Prim.search rules };

    fn write(&mut self, piece: &[u8]) -> Result<usize, Failed> {
        match self.text.extend_from_slice(piece) {
            Ok(()) => Ok(piece.len()),
            Err(_) => {
                self.faults = self.faults.saturating_add(1);
                Err(Failed)
            }
        }
    }
}
