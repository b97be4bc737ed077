// What looks wrong in a region by its siblings.
ghost use Rattle.std.specs.Prelude.{◌≡◌, true, List, IfOk, IsSome, find, map, option_map};
ghost use Rattle.std.specs.Ordering.{is_lt};
ghost use Rattle.mem_base.specs.map.Region.{node_of};
ghost use Rattle.mem_base.specs.map.Order.{children_of, trial_order};
ghost use Rattle.mem_base.specs.declared.map.forests.Node.{Node as N};
ghost use Rattle.map_lint.specs.Faults.{meets, covers, is_such, siblings_of, last_of};
ghost use Rattle.map_lint.specs.Around.{AreIn};

use crate::regions::has_own;
use child_lists::ChildLists;
use mem_base::{Node, RegionId};
use std::alloc::{AllocError, Global};

/// What is asked of a sibling.
#[derive(Clone, Copy, Debug, PartialEq, Eq)]
pub(crate) enum Test {
    /// Whether it overlaps at the same priority, and is tried first.
    Ties,
    /// Whether it covers the whole region, is tried first, and answers everywhere in itself.
    Hides,
}

/// The last offset of a region in its container.
fn last_of(node: &Node) -> u128
    ensures { result ≡ last_of node.now }
{
    u128::from(node.offset) + node.size.get().saturating_sub(1)
}

/// Whether two siblings overlap.
fn meets(node: &Node, other: &Node) -> bool
    ensures { result ≡ meets node.now other.now }
{
    u128::from(node.offset) <= last_of(other) && u128::from(other.offset) <= last_of(node)
}

/// Whether a region lies wholly in the place of a sibling.
fn covers(node: &Node, other: &Node) -> bool
    ensures { result ≡ covers node.now other.now }
{
    other.offset <= node.offset && last_of(node) <= last_of(other)
}

/// Whether the other is tried first.
fn goes_before(other: &Node, node: &Node) -> bool
    ensures { result ≡ is_lt (trial_order other.now node.now) }
{
    if other.priority == node.priority {
        other.placing > node.placing
    } else {
        other.priority > node.priority
    }
}

/// Whether a sibling is such.
fn is_such(test: Test, node: &Node, other: &Node) -> bool
    ensures { result ≡ is_such test node.now other.now }
{
    if !node.enabled || !other.enabled {
        return false;
    }
    if !goes_before(other, node) {
        return false;
    }
    match test {
        Test::Ties => other.priority == node.priority && meets(node, other),
        Test::Hides => has_own(&other.kind) && covers(node, other),
    }
}

/// The first of some regions that is such.
fn first_among(test: Test, others: &[&Node], node: &Node) -> Option<RegionId>
    ensures { result ≡ option_map (λ m. m.now.id) (find (λ m. is_such test node.now m.now) others.now) }
{
    let other = others.iter().find(|other| is_such(test, node, **other))?;
    Some(other.id)
}

/// The children of a container, in the order of search.
fn children_of<'a>(
    alloc: Global,
    lists: &'a ChildLists,
    container: RegionId,
) -> Result<Vec<&'a Node>, AllocError>
    requires { IsSome (node_of lists.now container) }
    ensures { IfOk result (λ children. map (λ m. m.now) children.items ≡ children_of lists.now container) }
{
    let _nodes = lists.nodes();
    let mut children = Vec::new(alloc);
    for sibling in lists.children(container) {
        let Some(node) = lists.node(sibling.id) else {
            unreachable!()
        };
        children.push(node)?;
    }
    Ok(children)
}

/// The children of a container, if there is one and it is there.
fn siblings_in<'a>(
    alloc: Global,
    lists: &'a ChildLists,
    container: Option<RegionId>,
) -> Result<Vec<&'a Node>, AllocError>
    ensures { IfOk result (λ siblings. map (λ m. m.now) siblings.items ≡ siblings_of lists.now container) }
{
    let Some(container) = container else {
        return Ok(Vec::new(alloc));
    };
    if lists.node(container).is_none() {
        return Ok(Vec::new(alloc));
    }
    children_of(alloc, lists, container)
}

/// The regions in one container.
#[derive(Drop)]
pub(crate) struct Siblings<'a> {
    container: Option<RegionId>,
    regions: Vec<&'a Node>,
}

/// Whether two regions have the same container, or both none.
fn is_same(container: Option<RegionId>, other: Option<RegionId>) -> bool
    ensures { result ≡ true → container ≡ other }
{
    match (container, other) {
        (Some(container), Some(other)) => container.0 == other.0,
        (None, None) => true,
        _ => false,
    }
}

impl<'a> Siblings<'a> {
    /// No region, in no container.
    pub(crate) fn none(alloc: Global) -> Siblings<'a>
        ensures { (nodes : List N) → AreIn nodes result }
    {
        Siblings {
            container: None,
            regions: Vec::new(alloc),
        }
    }

    /// The regions in this container. Nothing is done where these are known.
    pub(crate) fn of(
        self,
        alloc: Global,
        lists: &'a ChildLists,
        container: Option<RegionId>,
    ) -> Result<Siblings<'a>, AllocError>
        requires { AreIn lists.now self }
        ensures { IfOk result (λ s. AreIn lists.now s × (s.container ≡ container)) }
    {
        if is_same(self.container, container) {
            return Ok(self);
        }
        let regions = siblings_in(alloc, lists, container)?;
        Ok(Siblings { container, regions })
    }

    /// The first of them that is such, in the order of search.
    pub(crate) fn first_such(&self, test: Test, node: &Node) -> Option<RegionId>
        ensures { (nodes : List N) → AreIn nodes self.now
            → result ≡ option_map (λ m. m.id) (find (is_such test node.now) (siblings_of nodes self.now.container)) }
    {
        first_among(test, self.regions.as_slice(), node)
    }
}
