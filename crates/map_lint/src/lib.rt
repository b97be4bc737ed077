//! What looks wrong in a memory map, region by region.
//!
//! A map that does not do what it should mostly has one of a few faults: a region that no address of any space reaches, two
//! siblings of one priority that overlap, an alias that goes past the end of its target, a child that goes past the end of its
//! container, or a region that lies wholly under another. `lint` finds all of these in a published generation. The layer
//! above may rely on it that just the regions for which the definitions hold are told, by ascending id.
#![tactic(auto)]

ghost use Rattle.std.specs.Prelude.{◌≡◌, ◌++◌, false, IfOk, OnOk, flat_map};
ghost use Rattle.mem_base.specs.declared.map.ids.RegionId.{RegionId};
ghost use Rattle.mem_base.specs.declared.map.forests.Forest.{Forest};
ghost use Rattle.mem_base.specs.views.Naming.{names};
ghost use Rattle.view_laws.specs.Named.{Names};
ghost use Rattle.map_lint.specs.Around.{AreIn};
ghost use Rattle.map_lint.specs.Faults.{findings_of};

mod findings;
mod regions;
mod siblings;

use child_lists::ChildLists;
pub use findings::{Finding, Findings};
use generation::Generation;
use mem_base::Node;
use regions::{clipped, past_target, unreached};
use siblings::{Siblings, Test};
use std::alloc::{AllocError, Global};

/// Adds what looks wrong in one region.
fn add_findings(
    found: &mut Findings,
    siblings: &Siblings<'_>,
    generation: &Generation,
    node: &Node,
) -> Result<(), AllocError>
    requires siblings { AreIn generation.now.forest.nodes siblings.now }
    requires container { siblings.now.container ≡ node.now.parent }
    ensures { OnOk result (found.new ≡ found.old ++ findings_of generation.now.forest node.now) }
{
    found.note(unreached(generation, node))?;
    let other = siblings.first_such(Test::Ties, node);
    found.note(findings::tied(node.id, other))?;
    found.note(past_target(generation, node))?;
    found.note(clipped(generation, node))?;
    let other = siblings.first_such(Test::Hides, node);
    found.note(findings::hidden(node.id, other))?;
    Ok(())
}

/// What looks wrong in the map of a generation, by ascending id of the regions.
///
/// It fails only where memory runs out. The time is that of comparing each region with its siblings, which are looked up once for regions
/// of one container that were made one after another.
pub fn lint(alloc: Global, generation: &Generation) -> Result<Findings, AllocError>
    ensures { IfOk result (λ found. found ≡ flat_map (findings_of generation.now.forest) generation.now.forest.nodes) }
{
    let nodes = &generation.forest().nodes;
    let lists = ChildLists::of(alloc, nodes)?;
    let mut found = Findings::new(alloc);
    let mut siblings = Siblings::none(alloc);
    for node in lists.nodes() {
        siblings = siblings.of(alloc, &lists, node.parent)?;
        add_findings(&mut found, &siblings, generation, node)?;
    }
    Ok(found)
}

/// A region that has something of its own is told as one that nothing reaches just where no address of any space has it as its
/// leaf; for each other there is an address.
pub fn unreached_regions_have_no_address()
    ensures none { (f : Forest) (region : RegionId) → names f region ≡ false → Names f region → ⊥ }
    ensures some { (f : Forest) (region : RegionId) → (names f region ≡ false → ⊥) → Names f region }
{}
