// Laws of the regions that a reap releases.
ghost use Rattle.history_laws.specs.Released.{ReapsReleaseUnnamed, FreePassesReleaseAll, RegionsAreDroppedOnce};

/// A reap releases just the dropped regions that no held generation names, and leaves just the others dropped,
/// and takes away just the places of those released.
pub fn reaps_release_unnamed()
    ensures { ReapsReleaseUnnamed }
{}

/// After every legal history, and a sweep of every pass that found each of them unannounced, a reap releases just the
/// dropped regions that the current forest does not name.
pub fn free_passes_release_all()
    ensures { FreePassesReleaseAll }
{}

/// After every legal history no region is dropped twice, none of the dropped ones is there, and what a reap would release
/// stands by ascending region, each once.
pub fn regions_are_dropped_once()
    ensures { RegionsAreDroppedOnce }
{}
