// Where the bytes of files come from.
ghost use Rattle.std.specs.Prelude.{◌≡◌, ◌<◌, ◌≤◌, List, ℕ, length, IfOk, IsErrOf};
ghost use Rattle.std.specs.declared.option.Option.{Option};
ghost use Rattle.outside.specs.Causes.{Rose};
ghost use Rattle.scope_run.specs.Files.{Tells};

use outside::ReadStop;
use std::alloc::Global;

/// Files by their names.
pub trait Files {
    /// What the file with a name holds, where the files tell it.
    ghost held: { Self → List ℕ → Option (List ℕ) };

    /// How many reads have failed; it stands still at 2^64 - 1 and never falls.
    ghost faults: { Self → ℕ };

    /// All bytes of a file, where these are at most `most`.
    ///
    /// `Failed` only where the file could not be read, `Long` where it has more than `most` bytes.
    fn read(&mut self, alloc: Global, name: &str, most: usize) -> Result<Vec<u8>, ReadStop>
        ensures bytes { IfOk result (λ bytes. Tells (held self.old name.now) bytes.items) }
        ensures long { IsErrOf result ReadStop.Long → (bytes : List ℕ) × Tells (held self.old name.now) bytes × (most < length bytes) }
        ensures failed { IsErrOf result ReadStop.Failed → Rose (faults self.old) (faults self.new) }
        ensures same { held self.new ≡ held self.old }
        ensures later { faults self.old ≤ faults self.new };
}
