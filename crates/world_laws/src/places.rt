// Laws of the places that generations carry.
ghost use Rattle.world_laws.specs.Standing.{HeldPlacesStand};

/// After every legal history each place of a held generation stands.
///
/// It is the desk's place of its region, its region is named or is the notifiers', its words hold its data, its
/// registers and its marks, and each of its cells was cleared.
pub fn held_places_stand()
    ensures { HeldPlacesStand }
{}
