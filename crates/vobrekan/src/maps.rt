// The map, and what it tells.
ghost use Rattle.std.specs.Prelude.{◌≡◌, ◌↔◌, ◌<◌, IfOk, IsSome, Some, None, IsNone, IfSome, option_copied};
ghost use Rattle.mem_base.specs.map.Region.{node_of};
ghost use Rattle.mem_base.specs.map.Search.{found_at, look, root_of};
ghost use Rattle.mem_base.specs.map.Paths.{Finds};
ghost use Rattle.mem_base.specs.map.Calls.{empty};
ghost use Rattle.mem_base.specs.map.Forest.{IsClosedForest};
ghost use Rattle.mem_base.specs.views.View.{IsView, shown};
ghost use Rattle.flat_lookup.specs.Atlases.{run_end};
ghost use Rattle.vobrekan.specs.Runs.{IsRunAt};

use flat_lookup::Atlas;
use flat_render::render;
use flat_simplify::simplify;
use mem_base::{Forest, Node, Path, RegionId, SpaceId, Spot, View};
use region_tree::Tree;
use std::alloc::{AllocError, Global};
use std::marker::{Brand, Model};
use std::sync::ledger::{Blank, Ledger};
use step_counter::Steps;

/// A map of guest memory: regions, and the address spaces whose roots some of them are. It is seen as a `Forest`.
///
/// Regions are made by calls that answer their ids, and put into containers by others. Each call is tried against the rules first;
/// one that is refused says why, and changes nothing. QEMU's manual, "The memory API".
#[derive(Debug, Drop)]
pub struct Map {
    pub(crate) alloc: Global,
    pub(crate) tree: Tree,
}

impl Model for Map {
    ghost use Rattle.mem_base.specs.declared.map.forests.Forest.{Forest};

    ghost Value = { Forest };

    ghost view = { λ m. m.tree };
}

// The view of a space that is there. Nobody reads the count of its steps.
fn view_of<L: Ledger>(
    alloc: Global,
    tree: &Tree,
    space: SpaceId,
    blank: Blank,
) -> Result<View, AllocError>
    requires space { IsSome (root_of tree.now space) }
    requires name { blank.name ≡ L.name }
    requires parts { blank.parts ≡ L.parts }
    requires some { 0 < L.parts }
    ensures { IfOk result (λ view. IsView tree.now space view) }
{
    let mut steps = Steps::<L>::new(blank);
    let pieces = render(alloc, tree, space, &mut steps)?;
    Ok(simplify(pieces))
}

// What a view shows at an address, and the last address that goes on alike. Nobody reads the count of its steps.
fn run_in<L: Ledger>(atlas: &Atlas, addr: u64, blank: Blank) -> (Option<Spot>, u64)
    requires name { blank.name ≡ L.name }
    requires parts { blank.parts ≡ L.parts }
    requires some { 0 < L.parts }
    ensures spot { result.0 ≡ shown atlas.now addr }
    ensures last { result.1 ≡ run_end atlas.now addr }
{
    let mut steps = Steps::<L>::new(blank);
    atlas.run_at(addr, &mut steps)
}

impl Map {
    /// The empty map: no region, no address space. It takes no memory.
    pub fn new(alloc: Global) -> Map
        ensures { result ≡ empty }
    {
        Map {
            alloc,
            tree: Tree::new(alloc),
        }
    }

    /// The region with this id: `None` exactly where the map has none.
    pub fn node(&self, region: RegionId) -> Option<&Node>
        ensures value { option_copied result ≡ node_of self.now.nodes region }
        ensures sound { IsClosedForest self.now }
    {
        self.tree.node(region)
    }

    /// The root of an address space: `None` exactly where the map has no such space.
    pub fn root(&self, space: SpaceId) -> Option<RegionId>
        ensures { result ≡ root_of self.now space }
    {
        self.tree.root(space)
    }

    /// All regions and spaces as plain data, in a copy. It fails only where memory runs out.
    pub fn forest(&self) -> Result<Forest, AllocError>
        ensures { IfOk result (λ forest. forest ≡ self.now) }
    {
        self.tree.forest()
    }

    /// The region that answers an address of a space, the offset in it, and what it is like there: what the manual's search finds
    /// from the space's root on. `None` exactly where the search finds nothing, or there is no such space. It takes no memory.
    ///
    /// QEMU's manual, "The memory API"; QEMU's core, `address_space_lookup_region`.
    pub fn find(&self, space: SpaceId, addr: u64) -> Option<Spot>
        ensures value { result ≡ look self.now space addr }
        ensures manual { (root : RegionId) → root_of self.now space ≡ Some root → Finds self.now root addr (found_at self.now space addr) }
    {
        tree_find::find(&self.tree, space, addr)
    }

    /// The same with the path on which the region is found: the regions passed, from the root to the one that answers.
    pub fn find_path(&self, space: SpaceId, addr: u64) -> Option<(Spot, Path)>
        ensures value { result ≡ found_at self.now space addr }
        ensures manual { (root : RegionId) → root_of self.now space ≡ Some root → Finds self.now root addr result }
    {
        tree_find::find_path(&self.tree, space, addr)
    }

    /// What `find` answers at an address of a space, and the last address up to which it goes on alike: in the same region with the same
    /// attributes, each offset one more than that before it; or, where nothing answers, up to which nothing does. `None` exactly where the
    /// map has no such space.
    ///
    /// It renders the whole space: who asks often takes the view, or a machine's generation. It fails only where memory runs out. QEMU's core,
    /// `memory_region_find`.
    pub fn find_run(
        &self,
        space: SpaceId,
        addr: u64,
    ) -> Result<Option<(Option<Spot>, u64)>, AllocError>
        ensures none { IfOk result (λ o. IsNone o ↔ root_of self.now space ≡ None) }
        ensures run { IfOk result (λ o. IfSome o (λ x. IsRunAt self.now space addr x.0 x.1)) }
    {
        let Some(view) = self.view(space)? else {
            return Ok(None);
        };
        match Atlas::new(self.alloc, view) {
            Ok(atlas) => Ok(Some(run_in::<Brand>(&atlas, addr, Blank::new(1)))),
            Err((why, _view)) => Err(why),
        }
    }

    /// What a space shows, as ranges that ascend: at each address what `find` answers there. `None` exactly where the map has no
    /// such space. QEMU's core, `generate_memory_topology`, and the monitor's `info mtree -f`.
    ///
    /// It fails only where memory runs out.
    pub fn view(&self, space: SpaceId) -> Result<Option<View>, AllocError>
        ensures none { IfOk result (λ o. IsNone o ↔ root_of self.now space ≡ None) }
        ensures view { IfOk result (λ o. IfSome o (λ view. IsView self.now space view)) }
    {
        if self.tree.root(space).is_none() {
            return Ok(None);
        }
        let view = view_of::<Brand>(self.alloc, &self.tree, space, Blank::new(1))?;
        Ok(Some(view))
    }
}
