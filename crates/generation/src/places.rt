// The places of a generation, and the place of a region among them.
ghost use Rattle.std.specs.Prelude.{◌≡◌, IfOk};
ghost use Rattle.mem_base.specs.access.PlacesByRegion.{place_in};
ghost use Rattle.generation.specs.Published.{AscendByRegion};

use mem_base::{Place, RegionId};
use std::alloc::{AllocError, Global};
use std::marker::Model;
use std::sync::Arc;

/// The place of a region, or `None` where it has none: by halving.
pub(crate) fn place_among(places: &[Place], region: RegionId) -> Option<Place>
    requires { AscendByRegion places.now }
    ensures { result ≡ place_in places.now region }
{
    match places.binary_search_by_key(&region.0, |place| place.region.0) {
        Ok(i) => Some(places[i]),
        Err(_) => None,
    }
}

/// The same, with a guess where the place stands: by one look where the guess is right. Any guess serves.
pub(crate) fn place_near(places: &[Place], guess: usize, region: RegionId) -> Option<Place>
    requires { AscendByRegion places.now }
    ensures { result ≡ place_in places.now region }
{
    if guess < places.len() && places[guess].region.0 == region.0 {
        return Some(places[guess]);
    }
    place_among(places, region)
}

/// Places with a guess for each region where its place stands: each guess is tried before it is used.
#[derive(Debug, Drop)]
struct Indexed {
    places: Vec<Place>,
    // by the number of the region
    guesses: Vec<u32>,
}

impl Model for Indexed {
    ghost use Rattle.std.specs.Prelude.{List};
    ghost use Rattle.mem_base.specs.declared.access.cells.Place.{Place};

    ghost Value = { List Place };

    ghost view = { λ x. x.places.items };
}

impl Indexed {
    /// These places, with guesses for the regions whose numbers are below `regions`.
    fn of(alloc: Global, places: Vec<Place>, regions: usize) -> Result<Indexed, AllocError>
        ensures { IfOk result (λ x. x ≡ places.items) }
    {
        let guesses = guesses(alloc, places.as_slice(), regions)?;
        Ok(Indexed { places, guesses })
    }

    fn as_slice(&self) -> &[Place]
        ensures { result.now ≡ self.now }
    {
        self.places.as_slice()
    }

    /// The place of a region, or `None` where it has none.
    fn place_of(&self, region: RegionId) -> Option<Place>
        requires { AscendByRegion self.now }
        ensures { result ≡ place_in self.now region }
    {
        let guess = match self.guesses.get(region.0 as usize) {
            Some(guess) => *guess as usize,
            None => 0,
        };
        place_near(self.places.as_slice(), guess, region)
    }
}

// Where the places of the regions with numbers below `regions` stand, by the number of the region.
fn guesses(alloc: Global, places: &[Place], regions: usize) -> Result<Vec<u32>, AllocError> {
    let mut guesses = vec![in alloc; 0u32; regions]?;
    for (i, place) in places.iter().enumerate() {
        let number = place.region.0 as usize;
        if number < guesses.len() {
            guesses[number] = i.min(u32::MAX as usize) as u32;
        }
    }
    Ok(guesses)
}

/// The places of a generation, which the next one may share. It is seen as the places.
#[derive(Debug, Drop)]
pub(crate) struct Placed {
    // without guesses, where they are not shared
    own: Vec<Place>,
    shared: Option<Arc<Indexed, Global>>,
}

impl Model for Placed {
    ghost use Rattle.std.specs.Prelude.{List, option_map, unwrap_or};
    ghost use Rattle.std.specs.Arc.{arc_value};
    ghost use Rattle.mem_base.specs.declared.access.cells.Place.{Place};

    ghost Value = { List Place };

    ghost view = { λ p. unwrap_or (option_map (λ x. arc_value x) p.shared) p.own.items };
}

impl Placed {
    /// These places. They take no memory; each is found by halving.
    pub(crate) fn plain(places: Vec<Place>) -> Placed
        ensures { result ≡ places.items }
    {
        Placed {
            own: places,
            shared: None,
        }
    }

    /// These places, each of which is found by one look where its region's number is below `regions`.
    pub(crate) fn indexed(
        alloc: Global,
        places: Vec<Place>,
        regions: usize,
    ) -> Result<Placed, AllocError>
        ensures { IfOk result (λ placed. placed ≡ places.items) }
    {
        let indexed = Indexed::of(alloc, places, regions)?;
        Ok(Placed {
            own: Vec::new(alloc),
            shared: Some(Arc::new(alloc, indexed)?),
        })
    }

    /// The same places once more: shared, but for those that are found by halving, which are copied.
    pub(crate) fn again(&self, alloc: Global) -> Result<Placed, AllocError>
        ensures { IfOk result (λ placed. placed ≡ self.now) }
    {
        if let Some(indexed) = &self.shared {
            return Ok(Placed {
                own: Vec::new(alloc),
                shared: Some(Arc::try_clone(indexed)?),
            });
        }
        let mut own = Vec::new(alloc);
        own.extend_from_slice(self.own.as_slice())?;
        Ok(Placed::plain(own))
    }

    /// All of them, in order.
    pub(crate) fn as_slice(&self) -> &[Place]
        ensures { result.now ≡ self.now }
    {
        match &self.shared {
            Some(indexed) => indexed.as_slice(),
            None => self.own.as_slice(),
        }
    }

    /// The place of a region, or `None` where it has none.
    pub(crate) fn place_of(&self, region: RegionId) -> Option<Place>
        requires { AscendByRegion self.now }
        ensures { result ≡ place_in self.now region }
    {
        match &self.shared {
            Some(indexed) => indexed.place_of(region),
            None => place_among(self.own.as_slice(), region),
        }
    }
}
