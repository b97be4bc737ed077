// What cells hold in histories of turns.
ghost use Rattle.cell_laws.specs.TurnCells.{TurnsKeepMarks, TurnsMakeForests, TurnsReuseReleased};

/// In every legal history of the running machine in which the writer's entries are those of turns, and each call fits its
/// types: each mark of a page is told by the first event that takes its word, or its region was released before any did, or it
/// still stands.
pub fn turns_keep_marks()
    ensures { TurnsKeepMarks }
{}

/// In every such history a step on a cell tells what the steps on it before left, from 0 on, and a word of the pool comes to
/// another region only after the region that had it was released.
pub fn turns_reuse_released()
    ensures { TurnsReuseReleased }
{}

/// Turns whose calls fit their types leave forests that such calls made: the desk's, and that of each generation that is kept.
pub fn turns_make_forests()
    ensures { TurnsMakeForests }
{}
