// Which regions are reached in a space.
ghost use Rattle.std.specs.Prelude.{◌≡◌, ◌==◌, ◌&&◌, IfOk, find, option_map};
ghost use Rattle.std.specs.List.{list_any};
ghost use Rattle.mem_base.specs.lists.Booleans.{bool_eq};
ghost use Rattle.mem_base.specs.map.Forest.{IsMade};
ghost use Rattle.mem_base.specs.map.Search.{root_of};
ghost use Rattle.mem_base.specs.map.Touched.{reached, is_same_region, is_touched};
ghost use Rattle.touched_spaces.specs.Reached.{reached_in, regions_at};
ghost use Rattle.change_laws.specs.Meeting.{is_among};
ghost use Rattle.change_laws.specs.Touching.{is_touching};
ghost use Rattle.touched_spaces.specs.Noted.{Ascend, AreNoted};

use crate::noted::Noted;
use crate::touched::any_differs;
use change_spans::{differs, is_same_region, keep_ways};
use mem_base::{Forest, RegionId, SpaceId};
use region_tree::Tree;
use std::alloc::{AllocError, Global};
use std::marker::Model;
use std::sync::Arc;

/// Some regions, by ascending id. They may be shared.
#[derive(Drop)]
pub struct Regions {
    items: Arc<Vec<RegionId>, Global>,
}

impl Model for Regions {
    ghost use Rattle.std.specs.Prelude.{List};
    ghost use Rattle.mem_base.specs.declared.map.ids.RegionId.{RegionId};

    ghost Value = { List RegionId };

    ghost use Rattle.std.specs.Arc.{arc_value};
    ghost use Rattle.touched_spaces.specs.Noted.{Ascend};

    ghost view = { λ r. (arc_value r.items).items };

    ghost invariant = { λ r. Ascend (arc_value r.items).items };
}

impl Regions {
    pub(crate) fn new(alloc: Global, items: Vec<RegionId>) -> Result<Regions, AllocError>
        requires { Ascend items.items }
        ensures { IfOk result (λ regions. regions ≡ items.items) }
    {
        Ok(Regions {
            items: Arc::new(alloc, items)?,
        })
    }

    /// The same ones, shared.
    pub(crate) fn shared(&self) -> Result<Regions, AllocError>
        ensures { IfOk result (λ regions. regions ≡ self.now) }
    {
        Ok(Regions {
            items: Arc::try_clone(&self.items)?,
        })
    }

    /// Whether a region is one of them.
    pub(crate) fn has(&self, region: RegionId) -> bool
        ensures { result ≡ is_among self.now region }
    {
        let items = self.items.as_slice();
        match items.binary_search_by_key(&region.0, |one| one.0) {
            Ok(_) => true,
            Err(_) => false,
        }
    }

    pub(crate) fn as_slice(&self) -> &[RegionId]
        ensures { result.now ≡ self.now }
    {
        self.items.as_slice()
    }
}

// The root of a space of a forest.
fn root_in(forest: &Forest, space: SpaceId) -> Option<RegionId>
    ensures { result ≡ root_of forest.now space }
{
    for (id, root) in forest.spaces.as_slice() {
        if id.0 == space.0 {
            return Some(*root);
        }
    }
    None
}

// The regions of a space, by what is known of all spaces, if it is among them.
fn known_at(known: &[(SpaceId, Regions)], space: SpaceId) -> Option<&Regions>
    ensures { option_map (λ r. r.now) result ≡ option_map (λ p. p.1) (find (λ p. p.0.0 == space.0) known.now) }
{
    for (id, regions) in known {
        if id.0 == space.0 {
            return Some(regions);
        }
    }
    None
}

// The same regions; none where the space is not among those that are known.
fn regions_at(known: &[(SpaceId, Regions)], space: SpaceId) -> &[RegionId]
    ensures { result.now ≡ regions_at (find (λ p. p.0.0 == space.0) known.now) }
{
    match known_at(known, space) {
        Some(regions) => regions.as_slice(),
        None => &[],
    }
}

/// Whether a space has the same root in both forests, and global logging is the same.
pub fn is_same_space(old: &Forest, new: &Tree, space: SpaceId) -> bool
    ensures { result ≡ (is_same_region (root_of old.now space) (root_of new.now space) && bool_eq old.now.global new.now.global) }
{
    is_same_region(root_in(old, space), new.root(space)) && old.global == new.is_global()
}

// Whether a region is reached in a space, by what is known of all spaces.
fn is_known(known: &[(SpaceId, Regions)], space: SpaceId, region: RegionId) -> bool
    ensures { result ≡ is_among (regions_at (find (λ p. p.0.0 == space.0) known.now)) region }
{
    match known_at(known, space) {
        Some(regions) => regions.has(region),
        None => false,
    }
}

// Whether a region is reached in a space in one of two forests, and does not look alike in both. `known` and `reach` as in
// `is_touched`.
fn is_touching(
    old: &Forest,
    known: &[(SpaceId, Regions)],
    new: &Tree,
    reach: &Regions,
    space: SpaceId,
    region: RegionId,
) -> bool
    requires known { known.now ≡ reached_in old.now }
    requires reach { reach.now ≡ reached new.now space }
    ensures { result ≡ is_touching old.now new.now space region }
{
    if !differs(old, new, region) {
        return false;
    }
    is_known(known, space, region) || reach.has(region)
}

// Whether one of some regions is such.
fn any_touching(
    old: &Forest,
    known: &[(SpaceId, Regions)],
    new: &Tree,
    reach: &Regions,
    space: SpaceId,
    regions: &[RegionId],
) -> bool
    requires known { known.now ≡ reached_in old.now }
    requires reach { reach.now ≡ reached new.now space }
    ensures { result ≡ list_any (is_touching old.now new.now space) regions.now }
{
    for region in regions {
        if is_touching(old, known, new, reach, space, *region) {
            return true;
        }
    }
    false
}

// Whether a space is touched from one forest to another. `known` has the regions that are reached in each space of the first, and
// `reach` those that are reached in the space in the second; where the regions are noted that may have changed, no other is looked at.
fn is_touched(
    old: &Forest,
    known: &[(SpaceId, Regions)],
    noted: &Option<Noted>,
    new: &Tree,
    reach: &Regions,
    space: SpaceId,
) -> bool
    requires known { known.now ≡ reached_in old.now }
    requires noted { AreNoted old.now new.now noted.now }
    requires reach { reach.now ≡ reached new.now space }
    ensures { result ≡ is_touched old.now new.now space }
{
    if !is_same_space(old, new, space) {
        return true;
    }
    if let Some(noted) = noted {
        return any_touching(old, known, new, reach, space, noted.as_slice());
    }
    any_differs(old, new, regions_at(known, space)) || any_differs(old, new, reach.as_slice())
}

// The regions that are reached in a space in the second of two forests: what is known of it is shared, where no noted region has another
// container or target than before.
fn reached_again(
    alloc: Global,
    old: &Forest,
    known: &[(SpaceId, Regions)],
    noted: &Option<Noted>,
    new: &Tree,
    space: SpaceId,
) -> Result<Regions, AllocError>
    requires known { known.now ≡ reached_in old.now }
    requires noted { AreNoted old.now new.now noted.now }
    requires old_made { IsMade old.now }
    requires new_made { IsMade new.now }
    ensures { IfOk result (λ x. x ≡ reached new.now space) }
{
    if let Some(noted) = noted
        && let Some(regions) = known_at(known, space)
        && is_same_space(old, new, space)
        && keep_ways(old, new, noted.as_slice())
    {
        return Ok(regions.shared()?);
    }
    let reach = Regions::new(alloc, new.reach(space)?)?;
    Ok(reach)
}

/// The regions that are reached in a space in the second of two forests, and whether the space is touched from the first to it.
///
/// `known` has the regions that are reached in each space of the first, `noted` those that may have changed. Where these are not
/// near the space, what is known of it is shared, and nothing else is looked at.
pub fn reach_of(
    alloc: Global,
    old: &Forest,
    known: &[(SpaceId, Regions)],
    noted: &Option<Noted>,
    new: &Tree,
    space: SpaceId,
) -> Result<(Regions, bool), AllocError>
    requires known { known.now ≡ reached_in old.now }
    requires noted { AreNoted old.now new.now noted.now }
    requires old_made { IsMade old.now }
    requires new_made { IsMade new.now }
    ensures reach { IfOk result (λ x. x.0 ≡ reached new.now space) }
    ensures touched { IfOk result (λ x. x.1 ≡ is_touched old.now new.now space) }
{
    if let Some(noted) = noted
        && let Some(regions) = known_at(known, space)
        && is_same_space(old, new, space)
        && noted.stay_away(new, regions)
    {
        return Ok((regions.shared()?, false));
    }
    let reach = reached_again(alloc, old, known, noted, new, space)?;
    let touched = is_touched(old, known, noted, new, &reach, space);
    Ok((reach, touched))
}
