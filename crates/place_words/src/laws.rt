// What the cells of the regions are, as words change and places come and go.
ghost use Rattle.place_words.specs.Laws.{FewerPlacesKeepCells, FirstCellsAreZero, NewPlacesAreCleared, PlacesKeepCells, StepsAreOnCells};

/// A word of a region's place is the region's cell, and a step on it is a step on that cell alone.
pub fn steps_are_on_cells()
    ensures { StepsAreOnCells }
{}

/// Where there is a place more, and its words are cleared, its cells are 0 and the others stay.
pub fn new_places_are_cleared()
    ensures { NewPlacesAreCleared }
{}

/// The cells of the same places, or of some of them, stay.
pub fn places_keep_cells()
    ensures { PlacesKeepCells }
{}

/// The cells of the places that are left stay.
pub fn fewer_places_keep_cells()
    ensures { FewerPlacesKeepCells }
{}

/// The cells of all places are 0 where all words are.
pub fn first_cells_are_zero()
    ensures { FirstCellsAreZero }
{}
