// The atlases of spaces, in order of making.
ghost use Rattle.std.specs.Prelude.{◌≡◌, ◌==◌, find, option_map};
ghost use Rattle.std.specs.List.{list_any};
ghost use Rattle.std.specs.Arc.{arc_value};
ghost use Rattle.mem_base.specs.views.Naming.{has_leaf};

use flat_lookup::Atlas;
use mem_base::{RegionId, SpaceId};
use std::alloc::Global;
use std::sync::Arc;

/// The atlas of a space, or `None` where the space is not among these.
pub(crate) fn atlas_among(
    atlases: &[(SpaceId, Arc<Atlas, Global>)],
    space: SpaceId,
) -> Option<&Arc<Atlas, Global>>
    ensures { option_map (λ a. arc_value a.now) result ≡ option_map (λ p. arc_value p.1) (find (λ p. p.0.0 == space.0) atlases.now) }
{
    for (id, atlas) in atlases.iter() {
        if id.0 == space.0 {
            return Some(atlas);
        }
    }
    None
}

/// Whether a region is a leaf in the view of one of these atlases. It takes no memory.
pub fn is_leaf_among(atlases: &[(SpaceId, Arc<Atlas, Global>)], region: RegionId) -> bool
    ensures { result ≡ list_any (λ p. has_leaf region (arc_value p.1)) atlases.now }
{
    for (_, atlas) in atlases.iter() {
        if atlas.has_leaf(region) {
            return true;
        }
    }
    false
}
