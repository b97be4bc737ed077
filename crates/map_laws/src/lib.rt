//! Laws of the memory map: what holds of every forest that calls make, of the search in it, and of its views.
//!
//! Each law is a function that does nothing, whose contract is the law. The definitions stand in `mem_base`; the layers
//! above may rest on a law without a proof of their own. No code is run by it.
#![tactic(auto)]

ghost use Rattle.std.specs.Prelude.{◌≡◌, ◌↔◌, ℕ, List, Some, Option, true};
ghost use Rattle.mem_base.specs.declared.map.ids.RegionId.{RegionId};
ghost use Rattle.mem_base.specs.declared.map.ids.SpaceId.{SpaceId};
ghost use Rattle.mem_base.specs.declared.map.forests.Forest.{Forest};
ghost use Rattle.mem_base.specs.declared.map.calls.Call.{Call};
ghost use Rattle.mem_base.specs.lists.Every.{Every};
ghost use Rattle.mem_base.specs.map.Limits.{most_depth};
ghost use Rattle.mem_base.specs.map.Search.{Found, IsPathToLeaf, found_at, root_of};
ghost use Rattle.mem_base.specs.map.Paths.{Finds};
ghost use Rattle.mem_base.specs.map.Forest.{IsOrderedForest, IsClosedForest, FitsTypes};
ghost use Rattle.mem_base.specs.map.Steps.{steps_of, depth_of, weight_of, reaches};
ghost use Rattle.mem_base.specs.map.Depths.{HasDepth, HasWeight, Leads};
ghost use Rattle.mem_base.specs.map.Calls.{after_all, empty};
ghost use Rattle.mem_base.specs.views.Flattened.{HasOneView, HasViews};

/// What every list of calls makes of the empty forest, refused calls included.
///
/// Regions stand by id, no path is longer and no region wider than the limits; and where the calls' numbers fit
/// their types, all that is named is there, tables are in order, and counts are within limits.
pub fn forests_are_sound()
    ensures ordered { (list : List Call) → IsOrderedForest (after_all empty list) }
    ensures closed { (list : List Call) → Every FitsTypes list → IsClosedForest (after_all empty list) }
{}

/// What the search finds in every such forest: exactly what the rules of QEMU's manual find ("The memory API",
/// "Visibility"), which have no bound on depth.
pub fn search_is_the_manuals()
    ensures finds { (list : List Call) (s : SpaceId) (r : RegionId) (a : ℕ) → root_of (after_all empty list) s ≡ Some r
        → Finds (after_all empty list) r a (found_at (after_all empty list) s a) }
    ensures one { (f : Forest) (r : RegionId) (a : ℕ) (x y : Option Found) → Finds f r a x → Finds f r a y → x ≡ y }
{}

/// Depth, weight and reaching, which are defined over bounded paths, are those without a bound, in every such forest:
/// no path is longer than was looked at.
pub fn depths_are_whole()
    ensures depth { (list : List Call) (r : RegionId) → HasDepth (steps_of (after_all empty list).nodes) r (depth_of (after_all empty list).nodes r) }
    ensures weight { (list : List Call) (r : RegionId) → HasWeight (steps_of (after_all empty list).nodes) r (weight_of (after_all empty list).nodes r) }
    ensures reach { (list : List Call) (r to : RegionId) → (reaches (after_all empty list).nodes r to ≡ true) ↔ Leads
        (steps_of (after_all empty list).nodes) r to }
{}

/// What is found has a path of at most 32 regions, which ends at the leaf.
pub fn paths_end_at_leaves()
    ensures { (f : Forest) (s : SpaceId) (a : ℕ) → IsPathToLeaf most_depth (found_at f s a) }
{}

/// The view of a forest at a space: there is at most one, and in every forest that accepted calls make there is one.
pub fn spaces_have_one_view()
    ensures one { HasOneView }
    ensures made { HasViews }
{}
