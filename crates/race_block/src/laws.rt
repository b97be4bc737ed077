// Laws of what the actors of a block did, each a clause of a function that does nothing.
ghost use Rattle.race_block.specs.Laws.{PassesKeepLines};

/// What a pass did of its lines is what the script's definition has for them, whatever is published and made later: its own entries, the
/// orders that it gave, and that what it did after an order which published a generation stands after that.
pub fn passes_keep_lines()
    ensures { PassesKeepLines }
{}
