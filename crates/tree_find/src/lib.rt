//! The search for the region that answers an address of an address space.
//!
//! The rules of QEMU's manual ("The memory API", "Visibility"), one function a rule, over the tree as it stands:
//! no view is rendered. The layer above may rely on it that what is found is what the manual says, and that
//! nothing is found only where no region answers or there is no such space. It takes no memory.
#![tactic(auto)]

ghost use Rattle.std.specs.Prelude.{◌≡◌, Some};
ghost use Rattle.mem_base.specs.declared.map.ids.RegionId.{RegionId};
ghost use Rattle.mem_base.specs.map.Search.{look, found_at, root_of};
ghost use Rattle.mem_base.specs.map.Paths.{Finds};

mod search;

use mem_base::{MOST_DEPTH, Path, SpaceId, Spot};
use region_tree::Tree;
use search::find_from;

/// The region that answers an address of a space, the offset in it, and what it is like there.
///
/// The search begins at address 0 of the space's root, whatever offset the root has in a container (this
/// project's own rule). `None` exactly where the search finds nothing, or there is no such space.
pub fn find(tree: &Tree, space: SpaceId, addr: u64) -> Option<Spot>
    ensures value { result ≡ look tree.now space addr }
    ensures manual { (root : RegionId) → root_of tree.now space ≡ Some root → Finds tree.now root addr (found_at tree.now space addr) }
{
    let mut path = Path::new();
    let root = tree.root(space)?;
    find_from(tree, MOST_DEPTH, root, u128::from(addr), &mut path)
}

/// The same with the path on which the region is found: the regions passed, from the root to the leaf.
///
/// `None` exactly where `find` answers `None`. That the search tells its path is this project's own.
pub fn find_path(tree: &Tree, space: SpaceId, addr: u64) -> Option<(Spot, Path)>
    ensures value { result ≡ found_at tree.now space addr }
    ensures manual { (root : RegionId) → root_of tree.now space ≡ Some root → Finds tree.now root addr result }
{
    let mut path = Path::new();
    let root = tree.root(space)?;
    let spot = find_from(tree, MOST_DEPTH, root, u128::from(addr), &mut path)?;
    Some((spot, path))
}
