// The search, with all that it looks at.
ghost use Rattle.std.specs.Prelude.{◌≡◌, ◌∷◌, [], false, Some, IfOk, IsSome, is_some, option_map};
ghost use Rattle.std.specs.Option.{option_or};
ghost use Rattle.mem_base.specs.declared.map.forests.Node.{Node as N};
ghost use Rattle.mem_base.specs.map.Region.{node_of};
ghost use Rattle.mem_base.specs.map.Order.{children_of};
ghost use Rattle.mem_base.specs.map.Search.{found_in, first_of_children, inside, flagged};
ghost use Rattle.map_laws.proofs.SearchLaws.{StepsWithin};
ghost use Rattle.mem_base.specs.lists.Every.{Every};
ghost use Rattle.find_why.specs.Reasons.{place_in, places};
ghost use Rattle.find_why.specs.Looked.{AreLooked};
ghost use Rattle.find_why.specs.Seen.{Sees, SeesAmong, tried_in, unless, came_of, later, places_of, IsShallow};

use crate::looks::{Look, Looks, Outcome, Trials, Tried};
use crate::regions::Regions;
use mem_base::{Kind, Node, RegionId, Spot};
use std::alloc::AllocError;

/// What came of a region that was tried, and what was found in it.
#[derive(Debug, Drop)]
pub(crate) struct Sight {
    pub(crate) outcome: Outcome,
    pub(crate) spot: Option<Spot>,
}

/// What came of all regions inside one, and what was found in them.
#[derive(Debug, Drop)]
pub(crate) struct Inside {
    pub(crate) trials: Trials,
    pub(crate) spot: Option<Spot>,
}

/// The search from a region at an offset in it, down to this depth.
#[cycle(look)]
pub(crate) fn look_from(
    regions: &Regions<'_>,
    depth: u32,
    region: RegionId,
    at: u128,
    looks: &mut Looks,
) -> Result<Sight, AllocError>
    requires known { IsSome (node_of regions.now.nodes region) }
    requires within { IsShallow regions.now depth region }
    requires looked { AreLooked regions.now looks.old }
    ensures { IfOk result (λ sight. Sees regions.now false (region, Some at) (found_in regions.now depth region at) looks.old looks.new sight) }
{
    let Some(node) = regions.node(region) else {
        unreachable!()
    };
    look_at(regions, depth, node, at, looks)
}

/// The same from a node.
#[cycle(look)]
fn look_at(
    regions: &Regions<'_>,
    depth: u32,
    node: &Node,
    at: u128,
    looks: &mut Looks,
) -> Result<Sight, AllocError>
    requires known { node_of regions.now.nodes node.now.id ≡ Some node.now }
    requires within { IsShallow regions.now depth node.now.id }
    requires looked { AreLooked regions.now looks.old }
    ensures { IfOk result (λ sight. Sees regions.now false (node.now.id, Some at) (found_in regions.now depth node.now.id at) looks.old looks.new sight) }
{
    if depth == 0 {
        unreachable!();
    }
    if at >= node.size.get() {
        return Ok(Sight {
            outcome: Outcome::EndsBefore,
            spot: None,
        });
    }
    if !node.enabled {
        return Ok(Sight {
            outcome: Outcome::Disabled,
            spot: None,
        });
    }
    let at = at as u64;
    let within = look_inside(regions, depth - 1, node, at, looks)?;
    let answers = within.spot.is_some();
    looks.push(Look {
        region: node.id,
        at,
        answers,
        trials: within.trials,
    })?;
    Ok(sight_of(node, at, within.spot))
}

/// What came of a region that holds the address, once it was looked into.
fn sight_of(node: &Node, at: u64, spot: Option<Spot>) -> Sight
    ensures spot { result.spot ≡ option_map (flagged node.now) spot }
    ensures outcome { result.outcome ≡ came_of at (is_some spot) }
{
    match spot {
        Some(spot) => Sight {
            outcome: Outcome::Answers { at },
            spot: Some(Spot {
                attrs: spot.attrs.passing(node),
                ..spot
            }),
        },
        None => Sight {
            outcome: Outcome::Hole { at },
            spot: None,
        },
    }
}

/// The search inside a region: at an alias's target, or among the children and then in the region itself.
#[cycle(look)]
fn look_inside(
    regions: &Regions<'_>,
    depth: u32,
    node: &Node,
    at: u64,
    looks: &mut Looks,
) -> Result<Inside, AllocError>
    requires known { node_of regions.now.nodes node.now.id ≡ Some node.now }
    requires within { StepsWithin regions.now (IsShallow regions.now depth) node.now.kind node.now }
    requires looked { AreLooked regions.now looks.old }
    ensures { IfOk result (λ within. SeesAmong regions.now (places regions.now.nodes node.now.kind node.now at)
        (inside regions.now (found_in regions.now depth) node.now.kind node.now at) looks.old looks.new within.trials within.spot) }
{
    let _ = &regions.alloc;
    if let Kind::Alias { target, offset } = node.kind {
        let shift = u128::from(offset);
        let within = look_through(regions, depth, target, u128::from(at) + shift, looks)?;
        return Ok(within);
    }
    let below = look_below(regions, depth, node.id, at, looks)?;
    let spot = first_of(below.spot, node.own_spot(regions.is_global(), at));
    Ok(Inside {
        trials: below.trials,
        spot,
    })
}

/// The first of two that is there.
fn first_of(first: Option<Spot>, second: Option<Spot>) -> Option<Spot>
    ensures { result ≡ option_or first second }
{
    match first {
        Some(spot) => Some(spot),
        None => second,
    }
}

/// The search at the target of an alias.
#[cycle(look)]
fn look_through(
    regions: &Regions<'_>,
    depth: u32,
    target: RegionId,
    at: u128,
    looks: &mut Looks,
) -> Result<Inside, AllocError>
    requires known { IsSome (node_of regions.now.nodes target) }
    requires within { IsShallow regions.now depth target }
    requires looked { AreLooked regions.now looks.old }
    ensures { IfOk result (λ within. SeesAmong regions.now ((target, Some at) ∷ []) (found_in regions.now depth target at)
        looks.old looks.new within.trials within.spot) }
{
    let sight = look_from(regions, depth, target, at, looks)?;
    let mut trials = Trials::new(regions.alloc);
    trials.push(Tried {
        region: target,
        outcome: sight.outcome,
    })?;
    Ok(Inside {
        trials,
        spot: sight.spot,
    })
}

/// The search among the children of a region, in order: all are told, also those that come after one that answers.
#[cycle(look)]
fn look_below(
    regions: &Regions<'_>,
    depth: u32,
    region: RegionId,
    at: u64,
    looks: &mut Looks,
) -> Result<Inside, AllocError>
    requires known { IsSome (node_of regions.now.nodes region) }
    requires within { Every (λ c. IsShallow regions.now depth c.id) (children_of regions.now.nodes region) }
    requires looked { AreLooked regions.now looks.old }
    ensures { IfOk result (λ within. SeesAmong regions.now (places_of at (children_of regions.now.nodes region))
        (first_of_children (found_in regions.now depth) (children_of regions.now.nodes region) at) looks.old looks.new within.trials within.spot) }
{
    let mut trials = Trials::new(regions.alloc);
    let mut spot = None;
    for child in regions.children(region) {
        let sight = look_child(regions, depth, child.id, at, spot.is_some(), looks)?;
        trials.push(Tried {
            region: child.id,
            outcome: sight.outcome,
        })?;
        spot = first_of(spot, sight.spot);
    }
    Ok(Inside { trials, spot })
}

/// The search in one child, at an offset in its container.
#[cycle(look)]
fn look_child(
    regions: &Regions<'_>,
    depth: u32,
    child: RegionId,
    at: u64,
    answered: bool,
    looks: &mut Looks,
) -> Result<Sight, AllocError>
    requires known { IsSome (node_of regions.now.nodes child) }
    requires within { IsShallow regions.now depth child }
    requires looked { AreLooked regions.now looks.old }
    ensures { IfOk result (λ sight. (c : N) → node_of regions.now.nodes child ≡ Some c
        → Sees regions.now answered (place_in at c) (unless answered (tried_in (found_in regions.now depth) c at)) looks.old looks.new sight) }
{
    let Some(node) = regions.node(child) else {
        unreachable!()
    };
    if node.offset > at {
        return Ok(Sight {
            outcome: Outcome::BeginsAfter,
            spot: None,
        });
    }
    let within = at - node.offset;
    if answered {
        return Ok(Sight {
            outcome: outcome_later(node, within),
            spot: None,
        });
    }
    look_at(regions, depth, node, u128::from(within), looks)
}

/// What comes of a region at an offset in it, where one that is tried before it answers.
fn outcome_later(node: &Node, at: u64) -> Outcome
    ensures { result ≡ later node.now at }
{
    if u128::from(at) >= node.size.get() {
        Outcome::EndsBefore
    } else if node.enabled {
        Outcome::TriedLater
    } else {
        Outcome::Disabled
    }
}
