// The regions of a published forest, as a search goes over them.
ghost use Rattle.std.specs.Prelude.{◌≡◌, IfOk, IsSome, find, option_copied, option_map};
ghost use Rattle.mem_base.specs.map.Region.{node_of};
ghost use Rattle.mem_base.specs.map.Order.{children_of};
ghost use Rattle.mem_base.specs.map.Forest.{IsMade};
ghost use Rattle.mem_base.specs.map.Search.{is_space, root_of};
ghost use Rattle.child_lists.specs.Siblings.{siblings_of};

use child_lists::{ChildLists, Sibling};
use mem_base::{Forest, Node, RegionId, SpaceId};
use std::alloc::{AllocError, Global};
use std::marker::Model;

/// A forest that calls make, with the children of each region in the order of search. It is seen as the forest.
#[derive(Debug, Drop)]
pub(crate) struct Regions<'a> {
    pub(crate) alloc: Global,
    forest: &'a Forest,
    lists: ChildLists,
}

impl<'a> Model for Regions<'a> {
    ghost use Rattle.std.specs.Prelude.{◌≡◌};
    ghost use Rattle.mem_base.specs.declared.map.forests.Forest.{Forest};
    ghost use Rattle.mem_base.specs.map.Forest.{IsMade};

    ghost Value = { Forest };

    ghost view = { λ r. r.forest.now };

    ghost invariant = { λ r. (r.lists ≡ r.forest.now.nodes) × IsMade r.forest.now };
}

impl<'a> Regions<'a> {
    /// The regions of this forest.
    pub(crate) fn of(alloc: Global, forest: &'a Forest) -> Result<Regions<'a>, AllocError>
        requires { IsMade forest.now }
        ensures { IfOk result (λ regions. regions ≡ forest.now) }
    {
        let lists = ChildLists::of(alloc, &forest.nodes)?;
        Ok(Regions {
            alloc,
            forest,
            lists,
        })
    }

    /// The region with this id.
    pub(crate) fn node(&self, region: RegionId) -> Option<&Node>
        ensures value { option_copied result ≡ node_of self.now.nodes region }
        ensures made { IsMade self.now }
    {
        let _ = &self.forest;
        self.lists.node(region)
    }

    /// The children of a region, in the order of search.
    pub(crate) fn children(&self, region: RegionId) -> &[Sibling]
        requires { IsSome (node_of self.now.nodes region) }
        ensures { result.now ≡ siblings_of (children_of self.now.nodes region) }
    {
        let _ = &self.forest;
        self.lists.children(region)
    }

    /// Whether global logging is on.
    pub(crate) fn is_global(&self) -> bool
        ensures { result ≡ self.now.global }
    {
        let _ = &self.lists;
        self.forest.global
    }

    /// The root of a space.
    pub(crate) fn root(&self, space: SpaceId) -> Option<RegionId>
        ensures { result ≡ root_of self.now space }
    {
        let _ = &self.lists;
        root_among(self.forest.spaces.as_slice(), space)
    }
}

/// The root of a space, or `None` where it is none of these.
fn root_among(spaces: &[(SpaceId, RegionId)], space: SpaceId) -> Option<RegionId>
    ensures { result ≡ option_map (λ p. p.1) (find (is_space space) spaces.now) }
{
    for (s, root) in spaces.iter() {
        if s.0 == space.0 {
            return Some(*root);
        }
    }
    None
}
