// A route, and the translations that are used on it.
ghost use Rattle.std.specs.Prelude.{◌≡◌, ◌≤◌, ◌<◌, ◌++◌, ◌∷◌, [], length};
ghost use Rattle.mem_base.specs.map.Limits.{most_translations};

use mem_base::{Entry, MOST_TRANSLATIONS, Target};
use std::marker::Model;

/// Where an access leads.
#[derive(Debug, Drop)]
pub struct Route {
    /// Where the first address leads in the end.
    pub target: Target,
    /// How many addresses, from the first one on, share the route.
    pub len: u64,
    /// The translations that are used, in order.
    pub used: Used,
}

/// The translations that are used on a route, in order: at most eight. They take no memory.
#[derive(Debug, Drop)]
pub struct Used {
    // Most routes use none, and then there are no places for them.
    places: Option<[Entry; MOST_TRANSLATIONS]>,
    count: usize,
}

impl Model for Used {
    ghost use Rattle.std.specs.Prelude.{List};
    ghost use Rattle.mem_base.specs.declared.map.translations.Entry.{Entry};
    ghost use Rattle.iommu.specs.Places.{taken, AreTaken};

    ghost Value = { List Entry };

    ghost view = { λ u. taken u.places u.count };

    ghost invariant = { λ u. AreTaken u.places u.count };
}

impl Used {
    /// No translation.
    pub(crate) fn new() -> Used
        ensures { result ≡ [] }
    {
        Used {
            places: None,
            count: 0,
        }
    }

    /// One translation more.
    pub(crate) fn push(&mut self, entry: Entry)
        requires { length self.old < most_translations }
        ensures { self.new ≡ self.old ++ entry ∷ [] }
    {
        let count = self.count;
        match &mut self.places {
            Some(places) => places[count] = entry,
            None => self.places = Some([entry; MOST_TRANSLATIONS]),
        }
        self.count = count + 1;
    }

    /// All of them, in order.
    pub fn as_slice(&self) -> &[Entry]
        ensures value { result.now ≡ self.now }
        ensures few { length self.now ≤ most_translations }
    {
        match &self.places {
            Some(places) => places.as_slice().split_at(self.count).0,
            None => &[],
        }
    }
}
