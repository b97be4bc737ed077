// A text goes to the sink line by line.
ghost use Rattle.std.specs.Prelude.{◌<◌, ◌≤◌, length};
ghost use Rattle.outside.specs.Sink.{Writes};

use crate::faults::RunFault;
use outside::{Sink, write_all};

// How many bytes the first line has, with its line feed; all of them where no line feed comes.
fn first_line(text: &[u8]) -> usize
    ensures bound { result ≤ length text.now }
    ensures some { 0 < length text.now → 0 < result }
{
    match text.iter().position(|byte| *byte == b'\n') {
        Some(at) => at + 1,
        None => text.len(),
    }
}

// Writes a text, each line as one piece.
pub(crate) fn write_lines<K: Sink>(text: &[u8], sink: &mut K) -> Result<(), RunFault>
    ensures { Writes K.written K.holds K.faults sink.old sink.new text.now RunFault.Write result }
{
    let mut rest = text;
    while !rest.is_empty() {
        let (line, later) = rest.split_at(first_line(rest));
        write_all(sink, line)?;
        rest = later;
    }
    Ok(())
}
