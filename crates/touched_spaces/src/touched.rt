// Whether regions differ from one forest to another.
ghost use Rattle.std.specs.Prelude.{◌≡◌, not};
ghost use Rattle.std.specs.List.{list_any};
ghost use Rattle.mem_base.specs.map.Region.{node_of};
ghost use Rattle.mem_base.specs.map.Touched.{stays_alike};

use change_spans::differs;
use mem_base::{Forest, RegionId};
use region_tree::Tree;

/// Whether some of these regions differs from one forest to the other.
pub(crate) fn any_differs(old: &Forest, new: &Tree, regions: &[RegionId]) -> bool
    ensures { result ≡ list_any (λ r. not (stays_alike (node_of old.now.nodes r) (node_of new.now.nodes r))) regions.now }
{
    for region in regions {
        if differs(old, new, *region) {
            return true;
        }
    }
    false
}
