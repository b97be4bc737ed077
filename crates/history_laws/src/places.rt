// Laws of the places that generations show.
ghost use Rattle.history_laws.specs.BackedForests.{GenerationsShowTheirPlaces, ShownPlacesAreItsOwn};

/// Of places that back a forest, those that a generation of the forest shows are just its own: one for each region that
/// it names and that has words, the notifiers' where a leaf has an ioeventfd, and no others.
pub fn shown_places_are_its_own()
    ensures { ShownPlacesAreItsOwn }
{}

/// After every legal history the desk's places back its forest, and each generation that is kept shows just the places of
/// its forest.
pub fn generations_show_their_places()
    ensures { GenerationsShowTheirPlaces }
{}
