// What a generation shows to those who keep copies of it.
ghost use Rattle.std.specs.Prelude.{◌≡◌, ℕ, List};
ghost use Rattle.mem_base.specs.declared.map.forests.Forest.{Forest};
ghost use Rattle.mem_base.specs.declared.access.cells.Place.{Place};
ghost use Rattle.mem_base.specs.access.PlacesByRegion.{place_in};
ghost use Rattle.mem_base.specs.access.EditionPlaces.{IsEdition};

use crate::{Place, RegionId};

/// A published state of the map: a number, a forest, and where its regions are backed.
pub trait Edition {
    /// Its number: how many were published before it.
    ghost counted: { Self → ℕ };

    /// The regions and spaces that it publishes.
    ghost forest: { Self → Forest };

    /// The places of the regions that its forest names, and of the notifiers.
    ghost places: { Self → List Place };

    fn number(&self) -> u64
        ensures value { result ≡ counted self.now }
        ensures shown { IsEdition (forest self.now) (places self.now) };

    /// The place of a region; `None` exactly where the list has none of it.
    fn place_of(&self, region: RegionId) -> Option<Place>
        ensures value { result ≡ place_in (places self.now) region }
        ensures shown { IsEdition (forest self.now) (places self.now) };
}
