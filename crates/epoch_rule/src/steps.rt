// The writer's steps, one at a time.
ghost use Rattle.std.specs.Prelude.{◌≡◌, ℕ, ◌+◌, ◌-◌, ◌*◌, ◌%◌, ◌≤◌, ◌<◌, ◌^◌, true, false, [], Some, length, map};
ghost use Rattle.std.specs.Arc.{arc_value};
ghost use Rattle.mem_base.specs.declared.machine.events.Event.TheVariants.{Sweep, Place, Publish};
ghost use Rattle.mem_base.specs.declared.machine.events.Carried.TheVariants.{Nothing};
ghost use Rattle.mem_base.specs.map.Limits.{most_generations, most_passes};
ghost use Rattle.mem_base.specs.machine.Generations.{PassTrack, all_placed, known_after_sweep, known_of};
ghost use Rattle.mem_base.specs.machine.Passes.{pass_id};
ghost use Rattle.epoch_rule.specs.Rule.{ComesNext, KeepsSlot, PlacesFit, IsLegal, carried_pick, generation_of_pick, generations_seen};
ghost use Rattle.epoch_rule.specs.Writing.{stored};
ghost use Rattle.epoch_rule.specs.declared.views.Picked.{Picked};
ghost use Rattle.epoch_rule.specs.Calls.{AreCopies, HasPlaced, HasSwept, first_at as first_at_in, held_in, least_in};
ghost use Rattle.epoch_rule.specs.Copies.{Suits, picked};

use crate::board::{
    LINE_WORDS, NUMBER_WORD, PASS_SLOTS, Places, Publishes, Reaches, SharedTable, Sweeps, TableSeat,
};
use crate::writers::{Found, Held};
use mem_base::{Edition, MOST_GENERATIONS, PassId};
use std::alloc::Global;
use std::cmp::{max, min};
use std::sync::Arc;

/// The generations that are kept before the current one.
const KEPT_BEFORE: u64 = MOST_GENERATIONS - 1;

/// Looks at what the pass has announced: 0, or that number plus one.
pub(crate) fn sweep<E: Edition + Drop>(
    shared: &SharedTable<E>,
    seat: &mut TableSeat<E>,
    pass: u32,
) -> u64
    requires table { (seat.old.table_id ≡ shared.now.table_id) × Suits shared.now.table_id shared.now.key × (pass < shared.now.key.passes) }
    requires writer { seat.old.me.0.role ≡ Some 0 }
    ensures seat { (seat.new.table_id ≡ seat.old.table_id) × (seat.new.me.1 ≡ seat.old.me.1) × KeepsSlot seat.old.me.0 seat.new.me.0 }
    ensures adds { ComesNext 0 seat.old.me.0 (Sweep (pass_id pass)) Nothing result seat.new.me.0 }
{
    shared.load::<Sweeps>(seat, LINE_WORDS * (pass as usize + 1))
}

/// Gives the pass its copy of the next generation. The slot that it takes is of no generation that the pass may use.
pub(crate) fn place<E: Edition + Drop>(
    shared: &SharedTable<E>,
    seat: &mut TableSeat<E>,
    pass: u32,
    next: u64,
    copy: Arc<E, Global>,
)
    requires table { (seat.old.table_id ≡ shared.now.table_id) × Suits shared.now.table_id shared.now.key × (pass < shared.now.key.passes) }
    requires writer { (seat.old.me.0.role ≡ Some 0) × (seat.old.me.0.held ≡ 0) × (seat.old.me.1 ≡ []) }
    requires next { next ≡ (generations_seen seat.old.me.0).current + 1 }
    requires near { (generations_seen seat.old.me.0).current ≤ (known_of (generations_seen seat.old.me.0) (pass_id pass)).lowest + (most_generations - 2) }
    requires free { (known_of (generations_seen seat.old.me.0) (pass_id pass)).placed ≡ false }
    requires copy { (E.counted (arc_value copy) ≡ next) × ((v : ℕ) → (known_of (generations_seen seat.old.me.0) (pass_id v)).placed ≡ true
        → seat.old.me.0.next ≡ picked E.forest E.places (arc_value copy)) }
    ensures seat { (seat.new.table_id ≡ seat.old.table_id) × (seat.new.me.1 ≡ []) × (seat.new.me.0.held ≡ 0)
        × (seat.new.me.0.next ≡ picked E.forest E.places (arc_value copy)) }
    ensures adds { ComesNext 0 seat.old.me.0 (Place (pass_id pass)) Nothing 0 seat.new.me.0 }
{
    shared.load::<Reaches>(seat, LINE_WORDS * (pass as usize + 1));
    let slot = PASS_SLOTS * pass as usize + (next % MOST_GENERATIONS) as usize;
    drop(shared.exchange(seat, slot, Some(copy)));
    shared.load::<Places>(seat, LINE_WORDS * (pass as usize + 1));
}

/// Makes the next generation the current one.
pub(crate) fn publish<E: Edition + Drop>(
    shared: &SharedTable<E>,
    seat: &mut TableSeat<E>,
    next: u64,
)
    requires table { (seat.old.table_id ≡ shared.now.table_id) × Suits shared.now.table_id shared.now.key }
    requires writer { seat.old.me.0.role ≡ Some 0 }
    requires next { (next ≡ (generations_seen seat.old.me.0).current + 1) × (next + 1 < 2 ^ 64) }
    requires placed { all_placed (generations_seen seat.old.me.0).passes ≡ true }
    requires roomy { PlacesFit shared.now.key.words (generation_of_pick seat.old.me.0.next) }
    ensures seat { (seat.new.table_id ≡ seat.old.table_id) × (seat.new.me.1 ≡ seat.old.me.1) × KeepsSlot seat.old.me.0 seat.new.me.0 }
    ensures adds { ComesNext 0 seat.old.me.0 Publish (carried_pick seat.old.me.0.next) next seat.new.me.0 }
{
    shared.store::<Publishes>(seat, NUMBER_WORD, next)
}

/// What is kept of a pass after a sweep that found this word.
fn found_after(found: Found, current: u64, word: u64) -> Found
    ensures { (k : PassTrack) → found ≡ stored k → result ≡ stored (known_after_sweep current k word) }
{
    if word == 0 {
        Found {
            word,
            lowest: current,
        }
    } else {
        Found {
            word,
            lowest: max(found.lowest, word - 1),
        }
    }
}

/// One sweep of each pass.
pub(crate) fn sweep_all<E: Edition + Drop>(
    shared: &SharedTable<E>,
    seat: &mut TableSeat<E>,
    passes: u32,
    current: u64,
    known: &mut Vec<Found>,
)
    requires table { (seat.old.table_id ≡ shared.now.table_id) × Suits shared.now.table_id shared.now.key × (passes ≡ shared.now.key.passes) }
    requires writer { seat.old.me.0.role ≡ Some 0 }
    requires current { current ≡ (generations_seen seat.old.me.0).current }
    requires many { length (generations_seen seat.old.me.0).passes ≡ passes }
    requires known { known.old.items ≡ map stored (generations_seen seat.old.me.0).passes }
    requires lawful { IsLegal seat.old.me.0.sizes seat.old.me.0.seen }
    ensures seat { (seat.new.table_id ≡ seat.old.table_id) × (seat.new.me.1 ≡ seat.old.me.1) }
    ensures swept { HasSwept seat.old.me.0 seat.new.me.0 known.new.items passes }
{
    for pass in 0..passes {
        let word = sweep(shared, seat, pass);
        let index = pass as usize;
        known[index] = found_after(known[index], current, word);
    }
}

/// The least pass that holds a publish up.
pub(crate) fn held(known: &[Found], current: u64) -> Option<Held>
    requires { length known.now ≤ most_passes }
    ensures { result ≡ held_in current 0 known.now }
{
    for i in 0..known.len() {
        let found = known[i];
        if found.word != 0
            && found.word - 1 <= u64::MAX - KEPT_BEFORE
            && found.word - 1 + KEPT_BEFORE <= current
        {
            let Some(pass) = PassId::new(i as u32) else {
                unreachable!()
            };
            return Some(Held {
                pass,
                number: found.word - 1,
            });
        }
    }
    None
}

/// A copy for each pass.
pub(crate) fn place_all<E: Edition + Drop>(
    shared: &SharedTable<E>,
    seat: &mut TableSeat<E>,
    passes: u32,
    next: u64,
    mut copies: Vec<Arc<E, Global>>,
)
    requires table { (seat.old.table_id ≡ shared.now.table_id) × Suits shared.now.table_id shared.now.key × (passes ≡ shared.now.key.passes) }
    requires writer { (seat.old.me.0.role ≡ Some 0) × (seat.old.me.0.held ≡ 0) × (seat.old.me.1 ≡ []) }
    requires next { next ≡ (generations_seen seat.old.me.0).current + 1 }
    requires near { (v : ℕ) → v < passes
        → (generations_seen seat.old.me.0).current ≤ (known_of (generations_seen seat.old.me.0) (pass_id v)).lowest + (most_generations - 2) }
    requires free { (v : ℕ) → (known_of (generations_seen seat.old.me.0) (pass_id v)).placed ≡ false }
    requires copies { (x : Picked) × AreCopies E.counted E.forest E.places next x copies.items }
    requires many { length copies.items ≡ passes }
    requires lawful { IsLegal seat.old.me.0.sizes seat.old.me.0.seen }
    ensures seat { (seat.new.table_id ≡ seat.old.table_id) × (seat.new.me.1 ≡ []) }
    ensures placed { (x : Picked) → AreCopies E.counted E.forest E.places next x copies.items → HasPlaced seat.old.me.0 seat.new.me.0 x passes }
{
    for pass in 0..passes {
        let Some(copy) = copies.pop() else {
            unreachable!()
        };
        place(shared, seat, pass, next, copy);
    }
}

/// The least number that a pass may still use, and the current one where there is none.
pub(crate) fn least(known: &[Found], current: u64) -> u64
    ensures { result ≡ least_in current known.now }
{
    let mut lowest = current;
    for found in known {
        lowest = min(found.lowest, lowest);
    }
    lowest
}

/// The first pass with this lowest number; where there is none, the number of passes.
pub(crate) fn first_at(known: &[Found], lowest: u64) -> usize
    ensures { result ≡ first_at_in lowest known.now }
{
    for i in 0..known.len() {
        if known[i].lowest == lowest {
            return i;
        }
    }
    known.len()
}
