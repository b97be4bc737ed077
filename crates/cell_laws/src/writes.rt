// What a write marks.
ghost use Rattle.cell_laws.specs.WriteMarks.{WritesAreMarked};

/// In an access that writes, after the words of each chunk in RAM the pages that the chunk touches are marked, each for just the
/// clients whose bits stand in the logging mask: pages ascending, and the clients of a page ascending.
pub fn writes_are_marked()
    ensures { WritesAreMarked }
{}
