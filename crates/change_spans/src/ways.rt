// Whether the same regions are reached through some regions in two states of the map.
ghost use Rattle.std.specs.Prelude.{◌≡◌, true};
ghost use Rattle.mem_base.specs.lists.Every.{Every};
ghost use Rattle.mem_base.specs.map.Kinds.{target_of};
ghost use Rattle.mem_base.specs.map.Region.{node_of};
ghost use Rattle.change_spans.specs.Alike.{has_same_ways, keeps_ways};

use crate::alike::is_same_region;
use mem_base::{Forest, Kind, Node, RegionId};
use region_tree::Tree;

// The region that an alias shows, if it is one.
fn target_of(kind: &Kind) -> Option<RegionId>
    ensures { result ≡ target_of kind.now }
{
    match *kind {
        Kind::Alias { target, .. } => Some(target),
        _ => None,
    }
}

// Whether two regions have one container and one target, if any.
fn has_same_ways(x: &Node, y: &Node) -> bool
    ensures { result ≡ has_same_ways x.now y.now }
{
    is_same_region(x.parent, y.parent) && is_same_region(target_of(&x.kind), target_of(&y.kind))
}

// Whether a region is in neither of two forests, or in both, with one container and one target.
fn keeps_ways(old: &Forest, new: &Tree, region: RegionId) -> bool
    ensures { result ≡ keeps_ways (node_of old.now.nodes region) (node_of new.now.nodes region) }
{
    match (old.nodes.get(region), new.node(region)) {
        (Some(x), Some(y)) => has_same_ways(x, y),
        (None, None) => true,
        _ => false,
    }
}

/// Whether each of these regions is in neither of two forests, or in both, with one container and one target. Then the same
/// regions are reached, if no others differ. It takes no memory.
pub fn keep_ways(old: &Forest, new: &Tree, regions: &[RegionId]) -> bool
    ensures { result ≡ true → Every (λ r. keeps_ways (node_of old.now.nodes r) (node_of new.now.nodes r) ≡ true) regions.now }
{
    for region in regions {
        if !keeps_ways(old, new, *region) {
            return false;
        }
    }
    true
}
