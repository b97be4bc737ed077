// What listeners are told of a generation that is to be published.
ghost use Rattle.std.specs.Prelude.{◌≡◌, IfOk, length, nat_lt};
ghost use Rattle.std.specs.List.{list_any};
ghost use Rattle.mem_base.specs.map.Forest.{IsMade};
ghost use Rattle.mem_base.specs.map.Touched.{is_touched};
ghost use Rattle.mem_base.specs.views.Flattened.{view_of};
ghost use Rattle.mem_base.specs.views.LiveEvents.{lives_of, ShareNoLive};
ghost use Rattle.mem_base.specs.views.Listening.{change_of};
ghost use Rattle.touched_spaces.specs.Noted.{AreNoted};

use crate::noted::Noted;
use flat_lookup::Atlas;
use generation::Generation;
use ioevents::{differ, live};
use mem_base::{Change, Forest, Lives, SpaceId, View};
use std::alloc::{AllocError, Global};
use view_walk::{keep_all, walk};

// The live ioeventfds of a space of a forest, by its view: none where no region of the forest has an ioeventfd.
fn lives(
    alloc: Global,
    forest: &Forest,
    has_events: bool,
    view: &View,
    space: SpaceId,
) -> Result<Lives, AllocError>
    requires made { IsMade forest.now }
    requires events { has_events ≡ list_any (λ n. nat_lt 0 (length n.events)) forest.now.nodes }
    requires view { view.now ≡ view_of forest.now space }
    ensures { IfOk result (λ lives. lives ≡ lives_of forest.now space) }
{
    if !has_events {
        return Ok(Lives::new(Vec::new(alloc)));
    }
    Ok(live(alloc, view, forest)?)
}

// How what a space shows differs, from the old view of it to the new one. `old_events` and `new_events` say whether some region of
// the old forest, and of the new one, has an ioeventfd.
fn change_from(
    alloc: Global,
    old: &Forest,
    old_events: bool,
    old_view: &View,
    new: &Forest,
    new_events: bool,
    new_view: &View,
    space: SpaceId,
) -> Result<Change, AllocError>
    requires old_made { IsMade old.now }
    requires old_events { old_events ≡ list_any (λ n. nat_lt 0 (length n.events)) old.now.nodes }
    requires old { old_view.now ≡ view_of old.now space }
    requires new_made { IsMade new.now }
    requires new_events { new_events ≡ list_any (λ n. nat_lt 0 (length n.events)) new.now.nodes }
    requires new { new_view.now ≡ view_of new.now space }
    ensures change { IfOk result (λ change. change ≡ change_of old.now new.now space) }
    ensures apart { IfOk result (λ change. ShareNoLive change.lost change.gained) }
{
    let walk = walk(alloc, old_view, new_view)?;
    let before = lives(alloc, old, old_events, old_view, space)?;
    let after = lives(alloc, new, new_events, new_view, space)?;
    let differ = differ(alloc, before.as_slice(), after.as_slice())?;
    Ok(Change {
        space,
        walk,
        lost: differ.lost,
        gained: differ.gained,
    })
}

// How what a space shows differs from the current generation, which may have no such space.
fn change_for(
    alloc: Global,
    current: &Generation,
    forest: &Forest,
    has_events: bool,
    view: &View,
    space: SpaceId,
) -> Result<Change, AllocError>
    requires made { IsMade forest.now }
    requires events { has_events ≡ list_any (λ n. nat_lt 0 (length n.events)) forest.now.nodes }
    requires view { view.now ≡ view_of forest.now space }
    ensures change { IfOk result (λ change. change ≡ change_of current.now.forest forest.now space) }
    ensures apart { IfOk result (λ change. ShareNoLive change.lost change.gained) }
{
    let old = current.forest();
    let had_events = current.has_events();
    if let Some(atlas) = current.atlas(space) {
        let change = change_from(
            alloc,
            old,
            had_events,
            atlas.view(),
            forest,
            has_events,
            view,
            space,
        )?;
        return Ok(change);
    }
    let nothing = View::new(Vec::new(alloc));
    let change = change_from(
        alloc, old, had_events, &nothing, forest, has_events, view, space,
    )?;
    Ok(change)
}

// How what a space shows differs from the current generation, where its view is the same in both: each range is kept, and where
// no noted region is a leaf of it, the ioeventfds stay too.
fn change_still(
    alloc: Global,
    current: &Generation,
    noted: &Option<Noted>,
    forest: &Forest,
    has_events: bool,
    atlas: &Atlas,
    space: SpaceId,
) -> Result<Change, AllocError>
    requires made { IsMade forest.now }
    requires events { has_events ≡ list_any (λ n. nat_lt 0 (length n.events)) forest.now.nodes }
    requires noted { AreNoted current.now.forest forest.now noted.now }
    requires atlas { atlas.now ≡ view_of forest.now space }
    requires same { view_of current.now.forest space ≡ view_of forest.now space }
    ensures change { IfOk result (λ change. change ≡ change_of current.now.forest forest.now space) }
    ensures apart { IfOk result (λ change. ShareNoLive change.lost change.gained) }
{
    let old = current.forest();
    let walk = keep_all(alloc, atlas.view())?;
    if let Some(noted) = noted
        && !noted.any_leaf(atlas)
    {
        return Ok(Change {
            space,
            walk,
            lost: Lives::new(Vec::new(alloc)),
            gained: Lives::new(Vec::new(alloc)),
        });
    }
    let had_events = current.has_events();
    let before = lives(alloc, old, had_events, atlas.view(), space)?;
    let after = lives(alloc, forest, has_events, atlas.view(), space)?;
    let differ = differ(alloc, before.as_slice(), after.as_slice())?;
    Ok(Change {
        space,
        walk,
        lost: differ.lost,
        gained: differ.gained,
    })
}

/// How what a space shows differs from the current generation to a forest. `atlas` has what it shows there, `touched` says whether
/// it is touched; `noted` has the regions that may have changed, and `has_events` says whether a region of the forest has an ioeventfd.
pub fn change_at(
    alloc: Global,
    current: &Generation,
    noted: &Option<Noted>,
    touched: bool,
    forest: &Forest,
    has_events: bool,
    atlas: &Atlas,
    space: SpaceId,
) -> Result<Change, AllocError>
    requires made { IsMade forest.now }
    requires events { has_events ≡ list_any (λ n. nat_lt 0 (length n.events)) forest.now.nodes }
    requires noted { AreNoted current.now.forest forest.now noted.now }
    requires touched { touched ≡ is_touched current.now.forest forest.now space }
    requires atlas { atlas.now ≡ view_of forest.now space }
    ensures change { IfOk result (λ change. change ≡ change_of current.now.forest forest.now space) }
    ensures apart { IfOk result (λ change. ShareNoLive change.lost change.gained) }
{
    current.knows_forest();
    if touched {
        let change = change_for(alloc, current, forest, has_events, atlas.view(), space)?;
        return Ok(change);
    }
    let change = change_still(alloc, current, noted, forest, has_events, atlas, space)?;
    Ok(change)
}
