// Where text goes.
ghost use Rattle.std.specs.Prelude.{◌<◌, List, ℕ, length, IfOk};
ghost use Rattle.std.specs.declared.option.Option.{Option};
ghost use Rattle.std.specs.Io.{WritesAtMost};
ghost use Rattle.outside.specs.Causes.{HasCause, failed};
ghost use Rattle.outside.specs.Sink.{TakesCount, HoldsWhatIsTold, Writes};

use crate::Failed;

/// A taker of bytes, which may fail.
pub trait Sink {
    /// The bytes taken so far, where the sink tells them.
    ghost written: { Self → Option (List ℕ) };

    /// That the sink holds a text. One that tells what it took holds that text alone; one that keeps no text
    /// may hold many, as those that it can't tell apart.
    ghost holds: { Self → List ℕ → Type 0 };

    /// How many writes have failed; it stands still at 2^64 - 1 and never falls.
    ghost faults: { Self → ℕ };

    /// The number of bytes that were taken from the start of the piece, at least one of a piece that has one.
    ///
    /// After `Failed` nothing of the piece was taken. A write that takes nothing of a piece that has a byte is
    /// a fault.
    fn write(&mut self, piece: &[u8]) -> Result<usize, Failed>
        ensures bound { WritesAtMost result piece.now }
        ensures some { IfOk result (λ n. 0 < length piece.now → 0 < n) }
        ensures takes { TakesCount written holds self.old self.new result piece.now }
        ensures cause { HasCause (faults self.old) (faults self.new) result };

    ghost told: { (s : Self) → HoldsWhatIsTold (written s) (holds s) };
}

/// Writes all of the piece.
///
/// `Failed` only where a write failed; a prefix of the piece was then taken.
pub fn write_all<K: Sink>(sink: &mut K, piece: &[u8]) -> Result<(), Failed>
    ensures { Writes K.written K.holds K.faults sink.old sink.new piece.now failed result }
{
    let mut rest = piece;
    while !rest.is_empty() {
        let count = sink.write(rest)?;
        rest = rest.split_at(count).1;
    }
    Ok(())
}
