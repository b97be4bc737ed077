// What is tried at a desk of its own, each trial with a hand that makes the accesses.
ghost use Rattle.std.specs.Prelude.{◌≡◌, ◌<◌};

use crate::desk::changes::{is_named, is_shared};
use crate::desk::drawn_accesses::are_accesses;
use crate::desk::drawn_routes::are_routes_of;
use crate::desk::machines::Machine;
use crate::desk::memory::are_done;
use crate::desk::routes::is_all_but_the_first;
use crate::desk::steps::are_steps;
use crate::desk::touched::come_out;
use mem_base::Refusal;
use std::alloc::Global;
use std::marker::Brand;
use std::sync::ledger::{Blank, Ledger};
use step_counter::Steps;

/// How many things of each kind were met in drawn maps.
pub(crate) type Counts = [u32; 8];

/// Counts one more of a kind where something holds.
pub(crate) fn tick(counts: &mut Counts, kind: usize, holds: bool) {
    if holds && let Some(count) = counts.get_mut(kind) {
        *count = count.saturating_add(1);
    }
}

/// What is tried.
#[derive(Clone, Copy)]
pub(crate) enum Trial {
    Shared,
    Named,
    Touched,
    Steps,
    /// The route of all addresses but the first.
    Route,
    /// Changes for which there may be no memory.
    Memory,
    /// The routes of a drawn forest.
    Routes(u64),
    /// Accesses to a drawn map.
    Accesses(u64),
}

/// How many words the pool has.
fn words_for(trial: Trial) -> usize {
    match trial {
        Trial::Touched | Trial::Steps | Trial::Accesses(_) => 4096,
        Trial::Memory => 4096 * 2,
        _ => 0,
    }
}

/// Tries worked changes at a desk.
fn tries_changes<L: Ledger>(
    machine: &mut Machine,
    trial: Trial,
    steps: &mut Steps<L>,
) -> Result<bool, Refusal> {
    match trial {
        Trial::Shared => is_shared(&mut machine.desk, steps),
        Trial::Named => is_named(&mut machine.desk, steps),
        Trial::Touched => come_out(&mut machine.desk, steps),
        _ => are_done(&mut machine.desk, steps),
    }
}

/// Whether an empty machine is as it has to be; drawn things are counted.
fn tries<L: Ledger>(
    alloc: Global,
    machine: &mut Machine,
    trial: Trial,
    counts: &mut Counts,
    steps: &mut Steps<L>,
) -> Result<bool, Refusal> {
    match trial {
        Trial::Steps => are_steps(machine, steps),
        Trial::Route => Ok(is_all_but_the_first(&machine.desk, steps)),
        Trial::Routes(seed) => are_routes_of(alloc, &mut machine.desk, seed, counts, steps),
        Trial::Accesses(seed) => are_accesses(alloc, machine, seed, counts, steps),
        _ => tries_changes(machine, trial, steps),
    }
}

/// The same of a machine of its own, with a counter of its own.
fn counted<L: Ledger>(
    alloc: Global,
    trial: Trial,
    counts: &mut Counts,
    blank: Blank,
) -> Result<bool, Refusal>
    requires name { blank.name ≡ L.name }
    requires parts { blank.parts ≡ L.parts }
    requires some { 0 < L.parts }
{
    let mut steps = Steps::<L>::new(blank);
    let mut machine = Machine::new(alloc, words_for(trial))?;
    let is_so = tries(alloc, &mut machine, trial, counts, &mut steps);
    is_so
}

/// The same, not counted.
pub(crate) fn comes_out(alloc: Global, trial: Trial, counts: &mut Counts) -> Result<bool, Refusal> {
    counted::<Brand>(alloc, trial, counts, Blank::new(1))
}

/// The worked trials, each with what it shows.
static TRIALS: [(&str, Trial); 5] = [
    (
        "an untouched space shares its atlas with the generation before",
        Trial::Shared,
    ),
    (
        "a generation names its leaves, and a refused call publishes none",
        Trial::Named,
    ),
    (
        "only the spaces that a change touches are carved, and a small one four times",
        Trial::Touched,
    ),
    (
        "accesses make as many steps as they touch words",
        Trial::Steps,
    ),
    ("a route may have all addresses but the first", Trial::Route),
];

#[test]
fn each_desk_is_as_it_has_to_be(rt: HostRuntime) {
    let mut counts = [0; 8];
    for (name, trial) in &TRIALS {
        assert!(rt;
            comes_out(rt.alloc(), *trial, &mut counts) == Ok(true),
            "{name}"
        );
    }
}
