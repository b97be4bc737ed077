// One private event of the writer: a call, a begin, a commit, a listener that joins or leaves.
ghost use Rattle.std.specs.Prelude.{◌≡◌, ◌≢◌, ◌<◌, ◌≤◌, true, [], length, Some, None, IfSome, IfOk, OnErr, OnOk, Ok, Err};
ghost use Rattle.mem_base.specs.declared.machine.events.Event.TheVariants as events;
ghost use Rattle.mem_base.specs.machine.Configs.{answers};
ghost use Rattle.mem_base.specs.machine.World.{possible};
ghost use Rattle.mem_base.specs.access.Places.{past};
ghost use Rattle.writer_desk.specs.Listened.{IsUnmoved};
ghost use Rattle.writer_desk.specs.Writers.{IsAccepted, IsConfigured, IsReady, made_place};
ghost use Rattle.world_core.specs.Worlds.{cleared_at, state_with};
ghost use Rattle.world_core.specs.Events.{IsChanged, makes_region};
ghost use Rattle.place_words.specs.Unfilled.{cells_at};

use crate::world::World;
use mem_base::{Applied, Call, Config, Refusal, Reply};
use place_words::{Unfilled, Words};
use std::alloc::AllocError;
use std::marker::Brand;
use std::sync::ledger::{Blank, Ledger};
use step_counter::Steps;
use transact::BackedDesk;
use writer_desk::{Due, ListenedDesk, Planned, note_drop};

// The private event, with a counter of carves of its own. What it publishes is due then, unless `held` says that a pass holds it up.
fn configured<L: Ledger>(
    desk: &mut ListenedDesk,
    due: &mut Option<Due>,
    config: &Config,
    held: Option<Refusal>,
    blank: Blank,
) -> Result<Applied, Refusal>
    requires rest { due.old ≡ None }
    requires held { held ≢ Some Refusal.Memory }
    requires name { blank.name ≡ L.name }
    requires parts { blank.parts ≡ L.parts }
    requires some { 0 < L.parts }
    ensures configured { result ≢ Err Refusal.Memory
        → IsConfigured (state_with desk.old due.old) config.now held (state_with desk.new due.new) result }
    ensures accepted { IfOk result (λ applied. IsAccepted (state_with desk.old due.old) config.now (state_with desk.new due.new) applied) }
    ensures ready { IfSome due.new (IsReady desk.new.backed) }
    ensures unchanged { OnErr result (IsUnmoved desk.old desk.new × (due.new ≡ None)) }
{
    let mut steps = Steps::<L>::new(blank);
    match desk.prepare(config, &mut steps)? {
        Planned::Done(applied) => Ok(applied),
        Planned::Ready(ready) => {
            if let Some(why) = held {
                return Err(why);
            }
            desk.tell(&ready);
            *due = Some(ready);
            Ok(Applied::Done)
        }
    }
}

// The words of a region that was made are 0.
fn clear_made(words: &mut Words, desk: &BackedDesk, applied: Applied)
    requires within { IfSome (made_place desk.now.backing.places applied) (λ p. past p ≤ length words.old) }
    ensures words { words.new ≡ cleared_at words.old (made_place desk.now.backing.places applied) }
    ensures len { length words.new ≡ length words.old }
{
    if let Applied::Made(region) = applied {
        if let Some(place) = desk.place_of(region) {
            words.clear(&place);
        }
    }
}

// Makes room to note each word of a region that is to be made, which has at most `words`.
fn room_for_made(unfilled: &mut Unfilled, config: &Config, words: usize) -> Result<(), AllocError>
    requires none { unfilled.old.cells ≡ [] }
    ensures cells { unfilled.new.cells ≡ [] }
    ensures room { OnOk result (makes_region config.now ≡ true → words ≤ unfilled.new.room) }
{
    if let Config::Call(Call::Region { .. }) = *config {
        unfilled.reserve(words)?;
    }
    Ok(())
}

// No word of a region that was made is cleared for the machine's users yet.
fn note_made(unfilled: &mut Unfilled, desk: &BackedDesk, applied: Applied)
    requires none { unfilled.old.cells ≡ [] }
    requires room { IfSome (made_place desk.now.backing.places applied) (λ p. p.words ≤ unfilled.old.room) }
    ensures { unfilled.new.cells ≡ cells_at (made_place desk.now.backing.places applied) }
{
    if let Applied::Made(region) = applied {
        if let Some(place) = desk.place_of(region) {
            unfilled.begin(&place);
        }
    }
}

/// The reply to a private event that was accepted.
pub(crate) fn reply_of(config: &Config, applied: Applied) -> Reply
    ensures { answers config.now (Ok applied) ≡ Ok result }
{
    match *config {
        Config::Call(_) => Reply::Applied(applied),
        _ => Reply::Done,
    }
}

impl World {
    /// A private event of the writer. It sweeps no pass before it, and publishes and clears nothing after it.
    ///
    /// It is refused as the definitions say, or with `Memory`, and then nothing changes.
    pub(crate) fn change(&mut self, config: &Config) -> Result<Applied, Refusal>
        requires may { possible self.old (events.Config config.now) ≡ true }
        ensures changed { result ≢ Err Refusal.Memory → IsChanged self.old config.now result self.new }
        ensures unchanged { result ≡ Err Refusal.Memory → self.new ≡ self.old }
    {
        let held = self.hand.kept.held_up();
        self.desk.dropped.reserve(1)?;
        room_for_made(&mut self.unfilled, config, self.hand.words.len())?;
        match configured::<Brand>(
            &mut self.desk.listened,
            &mut self.due,
            config,
            held,
            Blank::new(1),
        ) {
            Ok(applied) => {
                note_drop(&mut self.desk.dropped, config);
                clear_made(&mut self.hand.words, self.desk.listened.backed(), applied);
                note_made(&mut self.unfilled, self.desk.listened.backed(), applied);
                self.hand.kept.unsweep();
                Ok(applied)
            }
            Err(why) => match why {
                Refusal::Memory => Err(Refusal::Memory),
                _ => {
                    self.hand.kept.unsweep();
                    Err(why)
                }
            },
        }
    }
}
