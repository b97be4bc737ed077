// Single steps on a word of the cabinet, each as the event that the caller plans.
ghost use Rattle.std.specs.Prelude.{◌≡◌, ℕ, ◌+◌, ◌%◌, ◌<◌, ◌^◌, ◌==◌, MatchBool};
ghost use Rattle.mem_base.specs.declared.access.cells.WordStep.TheVariants.{Load, AddOne, Or, Take};
ghost use Rattle.mem_base.specs.access.Words.{word_after};
ghost use Rattle.epoch_rule.specs.Copies.{Suits};
ghost use Rattle.epoch_rule.specs.Layout.{words_before_pool};
ghost use Rattle.epoch_rule.specs.Touches.{IsStepReady, touched};
ghost use Rattle.epoch_rule.specs.Wrote.{WordWas};

use crate::board::{SharedTable, Slot, TableSeat};
use crate::views::View;
use atomic_table::Play;
use mem_base::{Edition, Event, Place};
use std::marker::{Brand, PhantomData};

/// The event that a step is to make. Each call picks it.
pub trait Plan {
    ghost use Rattle.std.specs.Prelude.{ℕ};
    ghost use Rattle.mem_base.specs.declared.machine.events.Event.{Event};
    ghost use Rattle.mem_base.specs.declared.access.cells.Place.{Place};
    ghost use Rattle.mem_base.specs.machine.SharedHistory.{PoolTouch};

    ghost actor: { ℕ };

    ghost event: { Event };

    ghost place: { Place };

    ghost touch: { PoolTouch };
}

impl Plan for Brand {
    ghost use Rattle.mem_base.specs.declared.machine.events.Event.TheVariants.{Reap};
    ghost use Rattle.mem_base.specs.access.Places.{notifiers_place};
    ghost use Rattle.epoch_rule.specs.Touches.{no_touch};

    ghost actor = { 0 };

    ghost event = { Reap };

    ghost place = { notifiers_place 0 };

    ghost touch = { no_touch };
}

/// A step that tells the word before it.
pub(crate) struct Touches<J: Plan> {
    of: PhantomData<J>,
}

impl<E: Edition, J: Plan> Play<Slot<E>, View> for Touches<J> {
    ghost use Rattle.epoch_rule.specs.Touches.{touched};

    ghost then = { λ st m r w. touched J.actor J.event J.place J.touch m r w };
}

/// A store, which tells nothing.
pub(crate) struct Stores<J: Plan> {
    of: PhantomData<J>,
}

impl<E: Edition, J: Plan> Play<Slot<E>, View> for Stores<J> {
    ghost use Rattle.std.specs.Prelude.{ℕ};
    ghost use Rattle.epoch_rule.specs.Touches.{touched};

    ghost then = { λ st m r w. (old : ℕ) × touched J.actor J.event J.place J.touch m old w };
}

/// A compare-exchange, which shows its event where it stands.
pub(crate) struct Tries<J: Plan> {
    of: PhantomData<J>,
}

impl<E: Edition, J: Plan> Play<Slot<E>, View> for Tries<J> {
    ghost use Rattle.std.specs.Prelude.{◌≡◌, ◌==◌, MatchBool};
    ghost use Rattle.epoch_rule.specs.Wrote.{WordWas};
    ghost use Rattle.epoch_rule.specs.Touches.{touched};

    ghost then = { λ st m r w. MatchBool (r == st.first) (touched J.actor J.event J.place J.touch m r w)
        ((w ≡ m) × WordWas m.0.sizes m.0.seen J.touch.word r) };
}

/// A load that shows no event.
pub(crate) struct Peeks<J: Plan> {
    of: PhantomData<J>,
}

impl<E: Edition, J: Plan> Play<Slot<E>, View> for Peeks<J> {
    ghost use Rattle.std.specs.Prelude.{◌≡◌};
    ghost use Rattle.epoch_rule.specs.Wrote.{WordWas};

    ghost then = { λ st m r w. (w ≡ m) × WordWas m.0.sizes m.0.seen J.touch.word r };
}

pub(crate) fn look_as<E: Edition + Drop, J: Plan>(
    shared: &SharedTable<E>,
    seat: &mut TableSeat<E>,
    index: usize,
    event: Event,
    place: &Place,
) -> u64
    requires table { (seat.old.table_id ≡ shared.now.table_id) × Suits shared.now.table_id shared.now.key }
    requires ready { IsStepReady shared.now.key seat.old.me.0 J.actor J.event J.place J.touch }
    requires index { index ≡ words_before_pool shared.now.key.passes + J.touch.word }
    ensures table { seat.new.table_id ≡ seat.old.table_id }
    ensures told { (seat.new.me ≡ seat.old.me) × WordWas seat.old.me.0.sizes seat.old.me.0.seen J.touch.word result }
{
    shared.load::<Peeks<J>>(seat, index)
}

pub(crate) fn load_as<E: Edition + Drop, J: Plan>(
    shared: &SharedTable<E>,
    seat: &mut TableSeat<E>,
    index: usize,
    event: Event,
    place: &Place,
) -> u64
    requires table { (seat.old.table_id ≡ shared.now.table_id) × Suits shared.now.table_id shared.now.key }
    requires ready { IsStepReady shared.now.key seat.old.me.0 J.actor J.event J.place J.touch }
    requires index { index ≡ words_before_pool shared.now.key.passes + J.touch.word }
    requires step { J.touch.touch.step ≡ Load }
    ensures table { seat.new.table_id ≡ seat.old.table_id }
    ensures told { touched J.actor J.event J.place J.touch seat.old.me result seat.new.me }
{
    shared.load::<Touches<J>>(seat, index)
}

pub(crate) fn add_as<E: Edition + Drop, J: Plan>(
    shared: &SharedTable<E>,
    seat: &mut TableSeat<E>,
    index: usize,
    event: Event,
    place: &Place,
) -> u64
    requires table { (seat.old.table_id ≡ shared.now.table_id) × Suits shared.now.table_id shared.now.key }
    requires ready { IsStepReady shared.now.key seat.old.me.0 J.actor J.event J.place J.touch }
    requires index { index ≡ words_before_pool shared.now.key.passes + J.touch.word }
    requires step { J.touch.touch.step ≡ AddOne }
    ensures table { seat.new.table_id ≡ seat.old.table_id }
    ensures told { touched J.actor J.event J.place J.touch seat.old.me result seat.new.me }
{
    shared.fetch_add::<Touches<J>>(seat, index, 1)
}

pub(crate) fn or_as<E: Edition + Drop, J: Plan>(
    shared: &SharedTable<E>,
    seat: &mut TableSeat<E>,
    index: usize,
    bits: u64,
    event: Event,
    place: &Place,
) -> u64
    requires table { (seat.old.table_id ≡ shared.now.table_id) × Suits shared.now.table_id shared.now.key }
    requires ready { IsStepReady shared.now.key seat.old.me.0 J.actor J.event J.place J.touch }
    requires index { index ≡ words_before_pool shared.now.key.passes + J.touch.word }
    requires step { J.touch.touch.step ≡ Or bits }
    ensures table { seat.new.table_id ≡ seat.old.table_id }
    ensures told { touched J.actor J.event J.place J.touch seat.old.me result seat.new.me }
{
    shared.fetch_or::<Touches<J>>(seat, index, bits)
}

pub(crate) fn take_as<E: Edition + Drop, J: Plan>(
    shared: &SharedTable<E>,
    seat: &mut TableSeat<E>,
    index: usize,
    event: Event,
    place: &Place,
) -> u64
    requires table { (seat.old.table_id ≡ shared.now.table_id) × Suits shared.now.table_id shared.now.key }
    requires ready { IsStepReady shared.now.key seat.old.me.0 J.actor J.event J.place J.touch }
    requires index { index ≡ words_before_pool shared.now.key.passes + J.touch.word }
    requires step { J.touch.touch.step ≡ Take }
    ensures table { seat.new.table_id ≡ seat.old.table_id }
    ensures told { touched J.actor J.event J.place J.touch seat.old.me result seat.new.me }
{
    shared.swap::<Touches<J>>(seat, index, 0)
}

pub(crate) fn store_as<E: Edition + Drop, J: Plan>(
    shared: &SharedTable<E>,
    seat: &mut TableSeat<E>,
    index: usize,
    value: u64,
    event: Event,
    place: &Place,
)
    requires table { (seat.old.table_id ≡ shared.now.table_id) × Suits shared.now.table_id shared.now.key }
    requires ready { IsStepReady shared.now.key seat.old.me.0 J.actor J.event J.place J.touch }
    requires index { index ≡ words_before_pool shared.now.key.passes + J.touch.word }
    requires step { (n : ℕ) → n < 2 ^ 64 → value % 2 ^ 64 ≡ word_after J.touch.touch.step n }
    ensures table { seat.new.table_id ≡ seat.old.table_id }
    ensures told { (old : ℕ) × touched J.actor J.event J.place J.touch seat.old.me old seat.new.me }
{
    shared.store::<Stores<J>>(seat, index, value);
}

pub(crate) fn try_as<E: Edition + Drop, J: Plan>(
    shared: &SharedTable<E>,
    seat: &mut TableSeat<E>,
    index: usize,
    old: u64,
    new: u64,
    event: Event,
    place: &Place,
) -> u64
    requires table { (seat.old.table_id ≡ shared.now.table_id) × Suits shared.now.table_id shared.now.key }
    requires ready { IsStepReady shared.now.key seat.old.me.0 J.actor J.event J.place J.touch }
    requires index { index ≡ words_before_pool shared.now.key.passes + J.touch.word }
    requires step { new ≡ word_after J.touch.touch.step old }
    ensures table { seat.new.table_id ≡ seat.old.table_id }
    ensures told { MatchBool (result == old) (touched J.actor J.event J.place J.touch seat.old.me result seat.new.me)
        ((seat.new.me ≡ seat.old.me) × WordWas seat.old.me.0.sizes seat.old.me.0.seen J.touch.word result) }
{
    shared.compare_exchange::<Tries<J>>(seat, index, old, new)
}
