// What the spaces of a forest show that is to be published: their atlases, the regions that are reached, and what is told of them.
ghost use Rattle.std.specs.Prelude.{◌≡◌, ◌+◌, ◌*◌, ◌≤◌, ◌++◌, [], ◌∷◌, Some, IsSome, IfSome, IfOk, OnOk, map, length, nat_lt};
ghost use Rattle.std.specs.List.{list_any};
ghost use Rattle.std.specs.Arc.{arc_value};
ghost use Rattle.mem_base.specs.declared.map.ids.RegionId.{RegionId};
ghost use Rattle.mem_base.specs.lists.Every.{Every};
ghost use Rattle.mem_base.specs.map.Search.{root_of};
ghost use Rattle.mem_base.specs.map.Steps.{weight_of};
ghost use Rattle.mem_base.specs.map.Forest.{IsMade};
ghost use Rattle.mem_base.specs.map.Touched.{reached, is_touched};
ghost use Rattle.mem_base.specs.views.View.{IsView};
ghost use Rattle.mem_base.specs.views.Flattened.{view_of};
ghost use Rattle.mem_base.specs.views.LiveEvents.{ShareNoLive};
ghost use Rattle.mem_base.specs.views.Listening.{change_of, changes_between};
ghost use Rattle.change_spans.specs.Reaches.{ShowsWithin};
ghost use Rattle.generation.specs.Published.{views_of};
ghost use Rattle.touched_spaces.specs.Reached.{reached_in};
ghost use Rattle.touched_spaces.specs.Noted.{AreNoted};
ghost use Rattle.transact.specs.Preparing.{weight_at, carves_of, most_carves, heard_by, is_heard};

use change_spans::{Reach, hull};
use flat_lookup::Atlas;
use flat_render::render;
use flat_simplify::simplify;
use generation::Generation;
use mem_base::{Change, Changes, Forest, Listener, SpaceId, View};
use region_tree::Tree;
use std::alloc::{AllocError, Global};
use std::sync::Arc;
use std::sync::ledger::Ledger;
use step_counter::Steps;
use touched_spaces::{Noted, Regions, change_at, is_same_space, reach_of};
use view_splice::render_again;

/// Of each space of a forest, in order of making, its atlas, the regions that are reached in it, and where somebody listens to it
/// how it differs from the current generation.
#[derive(Drop)]
pub(crate) struct Shown {
    pub(crate) atlases: Vec<(SpaceId, Arc<Atlas, Global>)>,
    pub(crate) reached: Vec<(SpaceId, Regions)>,
    pub(crate) changes: Changes,
}

// The view of a space. Where it is known within which spans it differs from the current generation, only what lies in them is rendered.
fn view_again<L: Ledger>(
    alloc: Global,
    current: &Generation,
    spans: &Option<Vec<Reach>>,
    tree: &Tree,
    space: SpaceId,
    steps: &mut Steps<L>,
) -> Result<View, AllocError>
    requires spans { IfSome spans.now (λ spans. ShowsWithin current.now.forest tree.now spans.items) }
    requires there { IsSome (root_of tree.now space) }
    ensures view { IfOk result (λ view. IsView tree.now space view) }
    ensures carves { (root : RegionId) → root_of tree.now space ≡ Some root
        → steps.new ≤ steps.old + weight_of tree.now.nodes root * weight_of tree.now.nodes root }
{
    let old = current.forest();
    if let Some(spans) = spans
        && let Some(atlas) = current.atlas(space)
        && is_same_space(old, tree, space)
        && let Some(root) = tree.root(space)
    {
        let span = hull(spans.as_slice(), root);
        let view = render_again(
            alloc,
            tree,
            space,
            atlas.view(),
            span.first,
            span.last,
            steps,
        )?;
        return Ok(view);
    }
    let pieces = render(alloc, tree, space, steps)?;
    Ok(simplify(pieces))
}

// The atlas of a space, of which what may have changed is rendered.
fn rendered<L: Ledger>(
    alloc: Global,
    current: &Generation,
    spans: &Option<Vec<Reach>>,
    tree: &Tree,
    space: SpaceId,
    steps: &mut Steps<L>,
) -> Result<Arc<Atlas, Global>, AllocError>
    requires spans { IfSome spans.now (λ spans. ShowsWithin current.now.forest tree.now spans.items) }
    requires there { IsSome (root_of tree.now space) }
    requires made { IsMade tree.now }
    ensures view { IfOk result (λ atlas. arc_value atlas ≡ view_of tree.now space) }
    ensures carves { let w = weight_at tree.now.nodes (root_of tree.now space) in steps.new ≤ steps.old + w * w }
{
    let view = view_again(alloc, current, spans, tree, space, steps)?;
    match Atlas::new(alloc, view) {
        Ok(atlas) => Ok(Arc::new(alloc, atlas)?),
        Err((e, _)) => Err(e),
    }
}

// The atlas of a space: the one that the current generation has, where the space is not touched.
fn atlas_of<L: Ledger>(
    alloc: Global,
    current: &Generation,
    spans: &Option<Vec<Reach>>,
    touched: bool,
    tree: &Tree,
    space: SpaceId,
    steps: &mut Steps<L>,
) -> Result<Arc<Atlas, Global>, AllocError>
    requires spans { IfSome spans.now (λ spans. ShowsWithin current.now.forest tree.now spans.items) }
    requires touched { touched ≡ is_touched current.now.forest tree.now space }
    requires there { IsSome (root_of tree.now space) }
    requires made { IsMade tree.now }
    ensures view { IfOk result (λ atlas. arc_value atlas ≡ view_of tree.now space) }
    ensures carves { steps.new ≤ steps.old + carves_of current.now.forest tree.now space }
{
    if touched {
        let atlas = rendered(alloc, current, spans, tree, space, steps)?;
        return Ok(atlas);
    }
    current.knows_forest();
    let Some(atlas) = current.shared_atlas(space) else {
        unreachable!();
    };
    Ok(Arc::try_clone(atlas)?)
}

// What one space shows: its atlas, the regions that are reached in it, and whether it is touched.
fn show_space<L: Ledger>(
    alloc: Global,
    current: &Generation,
    known: &[(SpaceId, Regions)],
    noted: &Option<Noted>,
    spans: &Option<Vec<Reach>>,
    tree: &Tree,
    space: SpaceId,
    steps: &mut Steps<L>,
) -> Result<(Arc<Atlas, Global>, Regions, bool), AllocError>
    requires known { known.now ≡ reached_in current.now.forest }
    requires noted { AreNoted current.now.forest tree.now noted.now }
    requires spans { IfSome spans.now (λ spans. ShowsWithin current.now.forest tree.now spans.items) }
    requires there { IsSome (root_of tree.now space) }
    requires made { IsMade tree.now }
    ensures view { IfOk result (λ x. arc_value x.0 ≡ view_of tree.now space) }
    ensures reach { IfOk result (λ x. x.1 ≡ reached tree.now space) }
    ensures touched { IfOk result (λ x. x.2 ≡ is_touched current.now.forest tree.now space) }
    ensures carves { steps.new ≤ steps.old + carves_of current.now.forest tree.now space }
{
    let (reach, touched) = reach_of(alloc, current.forest(), known, noted, tree, space)?;
    let atlas = atlas_of(alloc, current, spans, touched, tree, space, steps)?;
    Ok((atlas, reach, touched))
}

// Whether one of the listeners listens to a space.
fn is_heard(listeners: &[Listener], space: SpaceId) -> bool
    ensures { result ≡ is_heard listeners.now space }
{
    listeners.iter().any(|listener| listener.space == space)
}

// Adds how a space differs from the current generation, where somebody listens to it.
fn add_change(
    changes: &mut Vec<Change>,
    alloc: Global,
    current: &Generation,
    noted: &Option<Noted>,
    touched: bool,
    forest: &Forest,
    has_events: bool,
    atlas: &Atlas,
    listeners: &[Listener],
    space: SpaceId,
) -> Result<(), AllocError>
    requires made { IsMade forest.now }
    requires events { has_events ≡ list_any (λ n. nat_lt 0 (length n.events)) forest.now.nodes }
    requires noted { AreNoted current.now.forest forest.now noted.now }
    requires touched { touched ≡ is_touched current.now.forest forest.now space }
    requires atlas { atlas.now ≡ view_of forest.now space }
    requires apart { Every (λ x. ShareNoLive x.lost x.gained) changes.old.items }
    ensures changes { OnOk result (changes.new.items ≡ changes.old.items
        ++ heard_by listeners.now (change_of current.now.forest forest.now space ∷ [])) }
    ensures apart { OnOk result (Every (λ x. ShareNoLive x.lost x.gained) changes.new.items) }
{
    if is_heard(listeners, space) {
        let change = change_at(
            alloc, current, noted, touched, forest, has_events, atlas, space,
        )?;
        changes.push(change)?;
    }
    Ok(())
}

/// What the spaces of a tree show, which is this forest. `known` has the regions that are reached in each space of the current
/// generation, `noted` those that may have changed since, and `spans` within which that may be seen. How a space differs is told
/// only where one of the `listeners` hears it.
pub(crate) fn show_spaces<L: Ledger>(
    alloc: Global,
    current: &Generation,
    known: &[(SpaceId, Regions)],
    noted: &Option<Noted>,
    spans: &Option<Vec<Reach>>,
    tree: &Tree,
    forest: &Forest,
    has_events: bool,
    listeners: &[Listener],
    steps: &mut Steps<L>,
) -> Result<Shown, AllocError>
    requires known { known.now ≡ reached_in current.now.forest }
    requires noted { AreNoted current.now.forest tree.now noted.now }
    requires spans { IfSome spans.now (λ spans. ShowsWithin current.now.forest tree.now spans.items) }
    requires forest { forest.now ≡ tree.now }
    requires events { has_events ≡ list_any (λ n. nat_lt 0 (length n.events)) tree.now.nodes }
    requires made { IsMade tree.now }
    ensures atlases { IfOk result (λ shown. map (λ p. (p.0, arc_value p.1)) shown.atlases.items ≡ views_of tree.now) }
    ensures reached { IfOk result (λ shown. shown.reached.items ≡ reached_in tree.now) }
    ensures changes { IfOk result (λ shown. shown.changes ≡ heard_by listeners.now (changes_between current.now.forest tree.now)) }
    ensures carves { steps.new ≤ steps.old + most_carves current.now.forest tree.now }
{
    let mut atlases = Vec::new(alloc);
    let mut reached = Vec::new(alloc);
    let mut changes = Vec::new(alloc);
    for (space, _) in forest.spaces.as_slice() {
        let (atlas, reach, touched) = show_space(
            alloc, current, known, noted, spans, tree, *space, steps,
        )?;
        add_change(
            &mut changes,
            alloc,
            current,
            noted,
            touched,
            forest,
            has_events,
            &atlas,
            listeners,
            *space,
        )?;
        atlases.push((*space, atlas))?;
        reached.push((*space, reach))?;
    }
    Ok(Shown {
        atlases,
        reached,
        changes: Changes::new(changes),
    })
}
