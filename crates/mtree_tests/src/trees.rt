// Trees made by calls, and what a space of one shows.
ghost use Rattle.std.specs.Prelude.{◌≡◌, ◌<◌, IsSome};
ghost use Rattle.mem_base.specs.map.Search.{root_of};

use flat_render::render;
use flat_simplify::simplify;
use mem_base::{Call, Paths, Pieces, Refusal, SpaceId, View};
use region_tree::Tree;
use std::alloc::{AllocError, Global};
use std::marker::Brand;
use std::sync::ledger::{Blank, Ledger};
use step_counter::Steps;

/// Does these calls.
pub(crate) fn run(tree: &mut Tree, calls: &[Call]) -> Result<(), Refusal> {
    for call in calls {
        tree.apply(call)?;
    }
    Ok(())
}

/// The ranges of a space, with a counter of their own.
fn counted<L: Ledger>(
    alloc: Global,
    tree: &Tree,
    space: SpaceId,
    blank: Blank,
) -> Result<Pieces, AllocError>
    requires space { IsSome (root_of tree.now space) }
    requires name { blank.name ≡ L.name }
    requires parts { blank.parts ≡ L.parts }
    requires some { 0 < L.parts }
{
    let mut steps = Steps::<L>::new(blank);
    render(alloc, tree, space, &mut steps)
}

/// The ranges of a space, not counted; none where there is no such space.
pub(crate) fn rendered(alloc: Global, tree: &Tree, space: SpaceId) -> Result<Pieces, AllocError> {
    if tree.root(space).is_none() {
        let paths = Paths::new(Vec::new(alloc), Vec::new(alloc));
        return Ok(Pieces::new(Vec::new(alloc), paths));
    }
    counted::<Brand>(alloc, tree, space, Blank::new(1))
}

/// The view of a space.
pub(crate) fn viewed(alloc: Global, tree: &Tree, space: SpaceId) -> Result<View, AllocError> {
    let pieces = rendered(alloc, tree, space)?;
    Ok(simplify(pieces))
}
