// The regions that calls may have changed since the current generation.
ghost use Rattle.std.specs.Prelude.{◌≡◌, ◌||◌, ◌++◌, [], ◌∷◌, Ok, Option, IfSome};
ghost use Rattle.std.specs.List.{list_any};
ghost use Rattle.mem_base.specs.declared.map.forests.Forest.{Forest};
ghost use Rattle.mem_base.specs.map.Region.{node_of};
ghost use Rattle.mem_base.specs.map.Calls.{after, answer_of};
ghost use Rattle.mem_base.specs.views.Naming.{has_leaf};
ghost use Rattle.change_laws.specs.Meeting.{is_among};
ghost use Rattle.change_laws.specs.Calls.{changes};
ghost use Rattle.touched_spaces.specs.Noted.{is_parent_among, is_placed_among, stay_away, AreNoted};

use crate::regions::Regions;
use flat_lookup::Atlas;
use mem_base::{Applied, Call, RegionId};
use region_tree::Tree;
use std::alloc::Global;
use std::marker::Model;

// The most regions that are noted.
const MOST_NOTED: usize = 64;

/// Regions, in the order of the calls that changed them; one may stand there more than once.
#[derive(Drop)]
pub struct Noted {
    regions: Vec<RegionId>,
}

impl Model for Noted {
    ghost use Rattle.std.specs.Prelude.{List};
    ghost use Rattle.mem_base.specs.declared.map.ids.RegionId.{RegionId};

    ghost Value = { List RegionId };

    ghost view = { λ n. n.regions.items };
}

impl Noted {
    /// No region. It takes no memory.
    pub fn none(alloc: Global) -> Noted
        ensures { result ≡ [] }
    {
        Noted {
            regions: Vec::new(alloc),
        }
    }

    /// All of them, in order.
    pub fn as_slice(&self) -> &[RegionId]
        ensures { result.now ≡ self.now }
    {
        self.regions.as_slice()
    }

    // The same with one more; `None` where there would be too many, or memory runs out.
    fn with(self, region: RegionId) -> Option<Noted>
        ensures { IfSome result (λ noted. noted ≡ self ++ region ∷ []) }
    {
        let Noted { mut regions } = self;
        if regions.len() >= MOST_NOTED {
            return None;
        }
        match regions.push(region) {
            Ok(()) => Some(Noted { regions }),
            Err(_) => None,
        }
    }

    /// Whether none of them is among the regions that are reached in a space, and none is now in a container that is.
    pub(crate) fn stay_away(&self, tree: &Tree, reach: &Regions) -> bool
        ensures { result ≡ stay_away self.now tree.now.nodes reach.now }
    {
        !self.any_near(tree, reach)
    }

    // Whether one of them is among the regions that are reached, or is now in a container that is.
    fn any_near(&self, tree: &Tree, reach: &Regions) -> bool
        ensures { result ≡ list_any (λ r. is_among reach.now r || is_placed_among reach.now (node_of tree.now.nodes r)) self.now }
    {
        for region in self.as_slice() {
            if reach.has(*region) || is_placed_in(tree, reach, *region) {
                return true;
            }
        }
        false
    }

    /// Whether one of them is a leaf in a view.
    pub(crate) fn any_leaf(&self, atlas: &Atlas) -> bool
        ensures { result ≡ list_any (λ r. has_leaf r atlas.now) self.now }
    {
        for region in self.as_slice() {
            if atlas.has_leaf(*region) {
                return true;
            }
        }
        false
    }
}

// Whether the container of a region, if it has one, is among these.
fn is_placed_in(tree: &Tree, reach: &Regions, region: RegionId) -> bool
    ensures { result ≡ is_placed_among reach.now (node_of tree.now.nodes region) }
{
    match tree.node(region) {
        Some(node) => is_parent_in(reach, node.parent),
        None => false,
    }
}

fn is_parent_in(reach: &Regions, parent: Option<RegionId>) -> bool
    ensures { result ≡ is_parent_among reach.now parent }
{
    match parent {
        Some(parent) => reach.has(parent),
        None => false,
    }
}

// The one region that an accepted call changed, if any, by its answer.
fn changed_by(call: &Call, applied: Applied) -> Option<RegionId>
    ensures { (f : Forest) → applied ≡ answer_of f call.now → result ≡ changes f call.now }
{
    match *call {
        Call::Region { .. } => match applied {
            Applied::Made(region) => Some(region),
            Applied::Done => None,
        },
        Call::Add { child, .. } | Call::Del { child, .. } | Call::Move { child, .. } => Some(child),
        Call::Drop { region } => Some(region),
        _ => call.edits(),
    }
}

/// What is noted after one more accepted call; `None` where nothing was noted, there would be too many, or memory runs out.
pub fn noting(noted: Option<Noted>, call: &Call, applied: Applied) -> Option<Noted>
    ensures after { (f g h : Forest) → applied ≡ answer_of g call.now → after g call.now ≡ Ok h → AreNoted f g noted → AreNoted f h result }
    ensures before { (f g : Forest) → AreNoted f g noted → AreNoted f g result }
{
    match (noted, changed_by(call, applied)) {
        (Some(noted), Some(region)) => noted.with(region),
        (noted, None) => noted,
        (None, Some(_)) => None,
    }
}
