//! How the views of two scripts differ, by the names of what they show.
//!
//! Each script numbers its regions for itself, so the leaves of both views get numbers by their names and kinds first. The
//! steps are then those that a listener would be told: replayed on the first view they give the second.
#![tactic(auto)]

ghost use Rattle.std.specs.Prelude.{◌≡◌, Some, IfOk};
ghost use Rattle.mem_base.specs.views.Replay.{ranges_after_all};
ghost use Rattle.mem_base.specs.views.Walk.{walk};
ghost use Rattle.script_names.specs.Tables.{printed_names};
ghost use Rattle.view_diff.specs.Numbers.{Numbers, Renumbered};

mod numbers;
mod texts;

use mem_base::{View, Walk};
pub use numbers::renumbered;
use script_names::{NameTable, Names};
use std::alloc::{AllocError, Global};
pub use texts::{add_range, add_step};
use view_laws::a_walk_replays;

/// How one view differs from another.
#[derive(Drop)]
pub struct Difference {
    /// A number for each name and kind of a leaf of either view.
    pub labels: NameTable,
    /// The first view, with these numbers.
    pub from: View,
    /// The second view, with these numbers.
    pub to: View,
    /// The steps from the one to the other: deletes, and then the rest.
    pub walk: Walk,
}

/// How the view `to` differs from the view `from`, each with the names of its own script.
///
/// A leaf is the same in both where its name and the word of its kind are.
pub fn compare(
    alloc: Global,
    from: &View,
    from_names: &Names,
    to: &View,
    to_names: &Names,
) -> Result<Difference, AllocError>
    ensures labels { IfOk result (λ d. Numbers d.labels) }
    ensures from { IfOk result (λ d. Renumbered d.labels.bound (printed_names from_names.now) from.now d.from) }
    ensures to { IfOk result (λ d. Renumbered d.labels.bound (printed_names to_names.now) to.now d.to) }
    ensures walk { IfOk result (λ d. d.walk ≡ walk d.from d.to) }
    ensures replays { IfOk result (λ d. ranges_after_all (Some d.from) d.walk ≡ Some d.to) }
{
    let mut labels = NameTable::new(alloc);
    let old = renumbered(alloc, &mut labels, from, from_names)?;
    let new = renumbered(alloc, &mut labels, to, to_names)?;
    // The law says that what the walk does is what it should.
    a_walk_replays();
    let walk = view_walk::walk(alloc, &old, &new)?;
    Ok(Difference {
        labels,
        from: old,
        to: new,
        walk,
    })
}
