// Preparing the generation that comes next.
ghost use Rattle.std.specs.Prelude.{◌≡◌, ◌+◌, ◌<◌, ◌≤◌, ◌^◌, ◌++◌, None, IfOk, IfSome, map, filter, length, take, drop, nat_lt};
ghost use Rattle.std.specs.List.{list_any};
ghost use Rattle.std.specs.Arc.{arc_value};
ghost use Rattle.mem_base.specs.map.Kinds.{is_iommu};
ghost use Rattle.mem_base.specs.map.Order.{ids_of};
ghost use Rattle.mem_base.specs.map.Forest.{IsMade};
ghost use Rattle.mem_base.specs.views.Naming.{has_leaf, names, shows_events};
ghost use Rattle.mem_base.specs.machine.Desk.{shown_places};
ghost use Rattle.change_spans.specs.Reaches.{ShowsWithin};
ghost use Rattle.mem_base.specs.access.EditionPlaces.{IsEdition};
ghost use Rattle.generation.specs.Published.{views_of, published, AscendByRegion};
ghost use Rattle.touched_spaces.specs.Reached.{reached_in};
ghost use Rattle.transact.specs.Marks.{AreLeafMarks};
ghost use Rattle.touched_spaces.specs.Noted.{AreNoted};
ghost use Rattle.transact.specs.Preparing.{is_shown_in, AreDeskPlaces, places_or, readied, most_carves};

use crate::marks::{is_leaf, leaf_marks};
use crate::prepared::Prepared;
use crate::shown::{Shown, show_spaces};
use change_spans::{Reach, spans_of};
use flat_lookup::Atlas;
use generation::{Generation, is_leaf_among};
use mem_base::{Edition, Forest, Listener, Place, RegionId, SpaceId};
use region_tree::{Features, Tree};
use std::alloc::{AllocError, Global};
use std::sync::Arc;
use std::sync::ledger::Ledger;
use step_counter::Steps;
use touched_spaces::{Noted, Regions};

// Whether one of these regions is a leaf in one of the views.
fn any_leaf(regions: &[RegionId], atlases: &[(SpaceId, Arc<Atlas, Global>)]) -> bool
    ensures { result ≡ list_any (λ r. list_any (λ p. has_leaf r (arc_value p.1)) atlases.now) regions.now }
{
    for region in regions {
        if is_leaf_among(atlases, *region) {
            return true;
        }
    }
    false
}

// Whether a leaf of some space has an ioeventfd, by the regions of the forest that have one.
fn shows_events(
    forest: &Forest,
    with_events: &[RegionId],
    atlases: &[(SpaceId, Arc<Atlas, Global>)],
) -> bool
    requires views { map (λ p. (p.0, arc_value p.1)) atlases.now ≡ views_of forest.now }
    requires events { with_events.now ≡ ids_of (filter (λ n. nat_lt 0 (length n.events)) forest.now.nodes) }
    ensures { result ≡ shows_events forest.now }
{
    forest.nodes.knows_ascending();
    any_leaf(with_events, atlases)
}

// Whether a generation has this place: its region is a leaf in one of the views, or it is the notifiers' and `notifies`.
fn is_shown(
    atlases: &[(SpaceId, Arc<Atlas, Global>)],
    marks: &[bool],
    notifies: bool,
    place: &Place,
) -> bool
    requires { AreLeafMarks arc_value atlases.now marks.now }
    ensures { result ≡ is_shown_in arc_value atlases.now notifies place.now }
{
    if place.region.0 == RegionId::NOTIFIERS.0 {
        return notifies;
    }
    is_leaf(atlases, marks, place.region)
}

// How many of the first of these places were looked at, and how many of the first of some others are just those of them that a
// generation has: up to the first place that it has and that is not the next one of the others.
fn agreeing(
    atlases: &[(SpaceId, Arc<Atlas, Global>)],
    marks: &[bool],
    notifies: bool,
    places: &[Place],
    others: &[Place],
) -> (usize, usize)
    requires { AreLeafMarks arc_value atlases.now marks.now }
    ensures seen { result.0 ≤ length places.now }
    ensures count { result.1 ≤ length others.now }
    ensures kept { take result.1 others.now ++ filter (is_shown_in arc_value atlases.now notifies) (drop result.0 places.now)
        ≡ filter (is_shown_in arc_value atlases.now notifies) places.now }
{
    let mut at = 0;
    for (i, place) in places.iter().enumerate() {
        if is_shown(atlases, marks, notifies, place) {
            if at >= others.len() || others[at] != *place {
                return (i, at);
            }
            at += 1;
        }
    }
    (places.len(), at)
}

// These places, and of the others those that a generation has.
fn kept(
    alloc: Global,
    atlases: &[(SpaceId, Arc<Atlas, Global>)],
    marks: &[bool],
    notifies: bool,
    first: &[Place],
    others: &[Place],
) -> Result<Vec<Place>, AllocError>
    requires { AreLeafMarks arc_value atlases.now marks.now }
    ensures { IfOk result (λ list. list.items ≡ first.now ++ filter (is_shown_in arc_value atlases.now notifies) others.now) }
{
    let mut list = Vec::with_capacity(alloc, first.len().saturating_add(others.len()))?;
    list.extend_from_slice(first)?;
    for place in others {
        if is_shown(atlases, marks, notifies, place) {
            list.push(*place)?;
        }
    }
    Ok(list)
}

// The places that a generation has of these; `None` where they are just those of the current generation.
fn places_of(
    alloc: Global,
    current: &Generation,
    atlases: &[(SpaceId, Arc<Atlas, Global>)],
    regions: usize,
    notifies: bool,
    places: &[Place],
) -> Result<Option<Vec<Place>>, AllocError>
    ensures { IfOk result (λ list. places_or current.now list ≡ filter (is_shown_in arc_value atlases.now notifies) places.now) }
{
    let marks = leaf_marks(alloc, atlases, regions)?;
    let marks = marks.as_slice();
    let old = current.places();
    let (seen, count) = agreeing(atlases, marks, notifies, places, old);
    if seen == places.len() && count == old.len() {
        return Ok(None);
    }
    let list = kept(
        alloc,
        atlases,
        marks,
        notifies,
        &old[..count],
        &places[seen..],
    )?;
    Ok(Some(list))
}

// The places that a generation of the forest has: of just the regions that it names, and the notifiers' where a leaf has
// an ioeventfd. `None` where they are those of the current generation. `with_events` has the regions that have an ioeventfd.
fn shown_places(
    alloc: Global,
    current: &Generation,
    forest: &Forest,
    with_events: &[RegionId],
    atlases: &[(SpaceId, Arc<Atlas, Global>)],
    places: &[Place],
) -> Result<Option<Vec<Place>>, AllocError>
    requires views { map (λ p. (p.0, arc_value p.1)) atlases.now ≡ views_of forest.now }
    requires events { with_events.now ≡ ids_of (filter (λ n. nat_lt 0 (length n.events)) forest.now.nodes) }
    ensures { IfOk result (λ list. places_or current.now list ≡ shown_places forest.now places.now) }
{
    let notifies = shows_events(forest, with_events, atlases);
    let regions = forest.nodes.len();
    let list = places_of(alloc, current, atlases, regions, notifies, places)?;
    Ok(list)
}

// The generation that comes after the current one, with these places, or where there are none here with the current one's.
fn generation_after(
    alloc: Global,
    current: &Generation,
    forest: Forest,
    atlases: Vec<(SpaceId, Arc<Atlas, Global>)>,
    places: Option<Vec<Place>>,
    has_iommu: bool,
    has_events: bool,
) -> Result<Generation, AllocError>
    requires number { current.now.number + 1 < 2 ^ 64 }
    requires edition { IsEdition forest (places_or current.now places) }
    requires atlases { map (λ p. (p.0, arc_value p.1)) atlases.items ≡ views_of forest }
    requires ascending { AscendByRegion (places_or current.now places) }
    requires iommu { has_iommu ≡ list_any (λ n. is_iommu n.kind) forest.nodes }
    requires events { has_events ≡ list_any (λ n. nat_lt 0 (length n.events)) forest.nodes }
    ensures { IfOk result (λ g. g ≡ published (current.now.number + 1) forest (places_or current.now places)) }
{
    let number = current.number() + 1;
    let generation = match places {
        Some(places) => {
            Generation::indexed(
                alloc, number, forest, atlases, places, has_iommu, has_events,
            )?
        }
        None => {
            Generation::with_places_of(
                alloc, current, number, forest, atlases, has_iommu, has_events,
            )?
        }
    };
    Ok(generation)
}

// The forest of a tree, and what a generation asks of all its regions: from a forest that differs from it in the noted regions alone,
// where they are noted.
fn copy_of(
    old: &Forest,
    noted: &Option<Noted>,
    tree: &Tree,
) -> Result<(Forest, Features), AllocError>
    requires noted { AreNoted old.now tree.now noted.now }
    ensures forest { IfOk result (λ both. both.0 ≡ tree.now) }
    ensures iommu { IfOk result (λ both. both.1.has_iommu ≡ list_any (λ n. is_iommu n.kind) tree.now.nodes) }
    ensures events { IfOk result (λ both. both.1.with_events.items ≡ ids_of (filter (λ n. nat_lt 0 (length n.events)) tree.now.nodes)) }
{
    let both = match noted {
        Some(noted) => tree.forest_after(old, noted.as_slice())?,
        None => tree.forest_with_features()?,
    };
    Ok(both)
}

// Whether some region of a forest has an ioeventfd, by the regions that have one.
fn some_events(forest: &Forest, with_events: &[RegionId]) -> bool
    requires events { with_events.now ≡ ids_of (filter (λ n. nat_lt 0 (length n.events)) forest.now.nodes) }
    ensures { result ≡ list_any (λ n. nat_lt 0 (length n.events)) forest.now.nodes }
{
    !with_events.is_empty()
}

// Within which spans a tree may show something else than a forest; `None` where that is not known. `noted` has the regions that may have
// changed.
fn spans_between(
    alloc: Global,
    old: &Forest,
    noted: &Option<Noted>,
    tree: &Tree,
) -> Result<Option<Vec<Reach>>, AllocError>
    requires old_made { IsMade old.now }
    requires made { IsMade tree.now }
    requires noted { AreNoted old.now tree.now noted.now }
    ensures { IfOk result (λ spans. IfSome spans (λ spans. ShowsWithin old.now tree.now spans.items)) }
{
    match noted {
        Some(noted) => {
            let spans = spans_of(alloc, old, tree, noted.as_slice())?;
            Ok(spans)
        }
        None => Ok(None),
    }
}

/// The generation that publishes the forest of a tree after the current one, and what listeners are told of it.
///
/// `known` has the regions that are reached in each space of the current generation, `noted` those that may have changed since;
/// `places` the places of all regions that have words, and the notifiers'. Only spaces that are touched are rendered, and how a space
/// differs is told only where one of the `listeners` hears it.
pub(crate) fn prepare<L: Ledger>(
    alloc: Global,
    current: &Generation,
    known: &[(SpaceId, Regions)],
    noted: &Option<Noted>,
    tree: &Tree,
    places: &[Place],
    listeners: &[Listener],
    steps: &mut Steps<L>,
) -> Result<Prepared, AllocError>
    requires known { known.now ≡ reached_in current.now.forest }
    requires noted { AreNoted current.now.forest tree.now noted.now }
    requires number { current.now.number + 1 < 2 ^ 64 }
    requires made { IsMade tree.now }
    requires places { AreDeskPlaces tree.now places.now }
    ensures prepared { IfOk result (λ p. p ≡ readied current.now tree.now places.now listeners.now None) }
    ensures carves { steps.new ≤ steps.old + most_carves current.now.forest tree.now }
{
    let (forest, features) = copy_of(current.forest(), noted, tree)?;
    let with_events = features.with_events.as_slice();
    let has_events = some_events(&forest, with_events);
    let spans = spans_between(alloc, current.forest(), noted, tree)?;
    let Shown {
        atlases,
        reached,
        changes,
    } = show_spaces(
        alloc, current, known, noted, &spans, tree, &forest, has_events, listeners, steps,
    )?;
    let places = shown_places(
        alloc,
        current,
        &forest,
        with_events,
        atlases.as_slice(),
        places,
    )?;
    let generation = generation_after(
        alloc,
        current,
        forest,
        atlases,
        places,
        features.has_iommu,
        has_events,
    )?;
    Ok(Prepared::new(Arc::new(alloc, generation)?, changes, reached))
}
