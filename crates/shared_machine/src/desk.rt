// The writer's desk with its share of the cabinet.
ghost use Rattle.std.specs.Prelude.{◌≡◌, ◌≢◌, ℕ, ◌+◌, ◌≤◌, Err, IfErr, IfOk, None, [], drop, false, replicate, true};
ghost use Rattle.std.specs.Arc.{arc_value};
ghost use mathlib.Core.List.{IsPrefix};
ghost use Rattle.mem_base.specs.declared.map.calls.Config.TheVariants as configs;
ghost use Rattle.mem_base.specs.map.Limits.{most_passes, most_words, notifier_count};
ghost use Rattle.mem_base.specs.declared.machine.events.Hand.TheVariants.{Writer};
ghost use Rattle.mem_base.specs.machine.Answers.{answer_with, harvest_answer, notifier_answer, reap_answer};
ghost use Rattle.mem_base.specs.machine.Orders.{configure, harvest, notified, reap};
ghost use Rattle.mem_base.specs.machine.Publishing.{current_forest};
ghost use Rattle.mem_base.specs.machine.Reaps.{first_writer};
ghost use Rattle.epoch_rule.specs.Rule.{KeepsHome};
ghost use Rattle.epoch_rule.specs.Wrote.{Wrote, longer};
ghost use Rattle.writer_run.specs.Turns.{answer_by};
ghost use Rattle.config_desk.specs.HandedOn.{is_held};
ghost use Rattle.config_desk.specs.Configs.{IsTurnOf, with_calls};
ghost use Rattle.config_desk.specs.Settling.{HeldTurns, IsSettledBy, tries_of};
ghost use Rattle.shared_machine.specs.Desks.{HandsOut, handed};

use crate::cpu::Cpu;
use config_desk::{Config, Patience};
use epoch_rule::{Cabinet, Note};
use generation::Generation;
use mem_base::{
    Applied, Client, Config as Event, ListenerEvent, ListenerId, MOST_PASSES, NotifierId, Refusal,
    RegionId,
};
use std::alloc::{AllocError, Global};
use std::marker::Model;
use std::sync::{Arc, Wait};

/// The writer's desk of the running machine, with its share of the cabinet. It is seen as the desk.
#[derive(Drop)]
pub struct Desk {
    cabinet: Arc<Cabinet<Generation>, Global>,
    config: Config,
}

impl Model for Desk {
    ghost use Rattle.std.specs.Prelude.{◌≡◌};
    ghost use Rattle.std.specs.Arc.{arc_value};
    ghost use Rattle.config_desk.specs.Configs.{ConfigState};

    ghost Value = { ConfigState };

    ghost view = { λ d. d.config };

    ghost invariant = { λ d. d.config.seat.cabinet ≡ (arc_value d.cabinet).id };
}

impl Desk {
    /// A machine with an empty map over a pool of this many words, at most 2^26, and 16 passes.
    ///
    /// It fails only where memory runs out.
    pub fn new(alloc: Global, words: usize) -> Result<Desk, AllocError>
        requires words { words ≤ most_words }
        ensures part { IfOk result (λ desk. desk.part ≡ first_writer words most_passes) }
        ensures sizes { IfOk result (λ desk. (desk.seat.sizes.passes ≡ most_passes) × (desk.seat.sizes.words ≡ words + notifier_count)) }
        ensures fresh { IfOk result (λ desk. (desk.seat.seen ≡ []) × (desk.seat.out ≡ replicate most_passes false)) }
    {
        let (cabinet, config) = Config::new(alloc, words, MOST_PASSES)?;
        Ok(Desk { cabinet, config })
    }

    /// A virtual CPU with the least pass that is not out; `None` where all 16 are. It has seen all that the desk has.
    ///
    /// It fails only where memory runs out, and then nothing has changed.
    pub fn cpu(&mut self, alloc: Global) -> Result<Option<Box<Cpu, Global>>, AllocError>
        ensures { HandsOut self.old (handed result) self.new }
    {
        let cabinet = Arc::try_clone(&self.cabinet)?;
        match self.config.pass() {
            Some(pass) => match Box::new(alloc, Cpu::new(cabinet, pass)) {
                Ok(cpu) => Ok(Some(cpu)),
                Err(failed) => {
                    self.config.take_in(failed.value.into_pass());
                    Err(AllocError)
                }
            },
            None => Ok(None),
        }
    }

    /// A private event of the writer: a call that changes the map, a transaction that is opened or closed, a listener that joins or
    /// leaves. The number of the generation that it published, if it did, is answered beside what the call answers.
    ///
    /// A transaction is opened without memory, and refused with `TooNested` alone.
    pub fn configure(&mut self, event: &Event) -> Result<(Applied, Option<u64>), Refusal>
        ensures nested { event.now ≡ configs.Begin → IfErr result (λ why. why ≡ Refusal.TooNested) }
        ensures turn { result ≢ Err Refusal.Memory → IsTurnOf self.old (configure event.now) (answer_by event.now result) self.new }
        ensures unchanged { result ≡ Err Refusal.Memory → self.new ≡ self.old }
    {
        configure(&mut self.config, event)
    }

    /// The same, and where a virtual CPU holds the publish up, it is tried again as `patience` says. It is refused with `Held` only where
    /// each try was held up, and names the virtual CPU that held up the last.
    pub fn configure_settled<R: Wait>(
        &mut self,
        rt: &R,
        event: &Event,
        patience: &Patience,
    ) -> Result<(Applied, Option<u64>), Refusal>
        ensures nested { event.now ≡ configs.Begin → IfErr result (λ why. why ≡ Refusal.TooNested) }
        ensures settled { result ≢ Err Refusal.Memory
            → (n : ℕ) × (n ≤ tries_of patience.now) × IsSettledBy n self.old (configure event.now) (answer_by event.now result) self.new }
        ensures held { IfErr result (λ why. is_held why ≡ true
            → IsSettledBy (tries_of patience.now) self.old (configure event.now) (answer_by event.now result) self.new) }
        ensures memory { result ≡ Err Refusal.Memory
            → (n : ℕ) × (n ≤ tries_of patience.now) × HeldTurns n self.old (configure event.now) self.new }
    {
        configure_settled(rt, &mut self.config, event, patience)
    }

    /// Releases the dropped regions that no generation in use names; they are answered, ascending.
    pub fn reap(&mut self) -> Result<Vec<RegionId>, Refusal>
        ensures turn { result ≢ Err Refusal.Memory → IsTurnOf self.old reap (reap_answer (answer_with (λ v. v.items) result)) self.new }
        ensures unchanged { result ≡ Err Refusal.Memory → self.new ≡ self.old }
    {
        let released = self.config.reap()?;
        Ok(released)
    }

    /// Takes a notifier: answers what stood in its word and leaves 0 there.
    pub fn notified(&mut self, number: NotifierId) -> u64
        ensures turn { IsTurnOf self.old (notified number) (notifier_answer result) self.new }
    {
        self.config.notified(number)
    }

    /// Takes the marks of a region for one client: the pages that were written since they were last taken, ascending.
    pub fn harvest(&mut self, region: RegionId, client: Client) -> Result<Vec<u64>, Refusal>
        ensures turn { result ≢ Err Refusal.Memory
            → IsTurnOf self.old (harvest region client) (harvest_answer (answer_with (λ v. v.items) result)) self.new }
        ensures unchanged { result ≡ Err Refusal.Memory → self.new ≡ self.old }
    {
        self.config.harvest(region, client)
    }

    /// A note of what the desk has seen, for virtual CPUs to meet. It takes no memory.
    pub fn note(&mut self) -> Note<Generation>
        ensures same { self.new ≡ self.old }
        ensures note { (result.cabinet ≡ self.old.seat.cabinet) × (result.seen ≡ self.old.seat.seen) }
    {
        self.config.note()
    }

    /// The desk has then seen all that a note of its machine tells of. It takes no memory.
    pub fn hear(&mut self, note: Note<Generation>)
        requires own { note.cabinet ≡ self.old.seat.cabinet }
        ensures longer { self.new.seat.seen ≡ longer self.old.seat.seen note.seen }
        ensures seen { IsPrefix note.seen self.new.seat.seen }
        ensures home { KeepsHome self.old.seat.out self.old.seat.seen self.new.seat.seen }
        ensures wrote { Wrote Writer self.old.seat.sizes self.old.seat.seen [] self.new.seat.seen }
        ensures same { (self.new.seat.cabinet ≡ self.old.seat.cabinet) × (self.new.seat.sizes ≡ self.old.seat.sizes)
            × (self.new.seat.out ≡ self.old.seat.out) }
        ensures part { self.new.part ≡ self.old.part }
    {
        self.config.hear(note);
    }

    /// The calls that the listeners got and that are not forgotten, in order.
    pub fn journal(&self) -> &[(ListenerId, ListenerEvent)]
        ensures { result.now ≡ self.now.part.desk.listening.journal }
    {
        let _ = &self.cabinet;
        self.config.journal()
    }

    /// Forgets the first `count` calls of the journal, all of them where there are fewer. The listeners stay, and are told nothing. It
    /// takes no memory.
    pub fn forget(&mut self, count: usize)
        ensures { self.new ≡ with_calls (drop count self.old.part.desk.listening.journal) self.old }
    {
        self.config.forget(count);
    }

    /// The generation that is current.
    pub fn current(&self) -> &Arc<Generation, Global>
        ensures number { (arc_value result.now).number ≡ self.now.part.generations.current }
        ensures forest { (arc_value result.now).forest ≡ current_forest self.now.part.generations }
    {
        let _ = &self.cabinet;
        self.config.current()
    }
}

// A private event, by the desk's call for it.
fn configure(config: &mut Config, event: &Event) -> Result<(Applied, Option<u64>), Refusal>
    ensures nested { event.now ≡ configs.Begin → IfErr result (λ why. why ≡ Refusal.TooNested) }
    ensures turn { result ≢ Err Refusal.Memory → IsTurnOf config.old (configure event.now) (answer_by event.now result) config.new }
    ensures unchanged { result ≡ Err Refusal.Memory → config.new ≡ config.old }
{
    match *event {
        Event::Call(call) => config.call(&call),
        Event::Begin => done(config.begin()),
        Event::Commit => match config.commit() {
            Ok(number) => Ok((Applied::Done, number)),
            Err(why) => Err(why),
        },
        Event::Listen {
            listener,
            space,
            priority,
        } => done(config.listen(listener, space, priority)),
        Event::Unlisten(listener) => done(config.unlisten(listener)),
    }
}

// A private event that is tried again where its publish is held up. A transaction is opened without memory, and publishes nothing.
fn configure_settled<R: Wait>(
    rt: &R,
    config: &mut Config,
    event: &Event,
    patience: &Patience,
) -> Result<(Applied, Option<u64>), Refusal>
    ensures nested { event.now ≡ configs.Begin → IfErr result (λ why. why ≡ Refusal.TooNested) }
    ensures settled { result ≢ Err Refusal.Memory
        → (n : ℕ) × (n ≤ tries_of patience.now) × IsSettledBy n config.old (configure event.now) (answer_by event.now result) config.new }
    ensures held { IfErr result (λ why. is_held why ≡ true
        → IsSettledBy (tries_of patience.now) config.old (configure event.now) (answer_by event.now result) config.new) }
    ensures memory { result ≡ Err Refusal.Memory
        → (n : ℕ) × (n ≤ tries_of patience.now) × HeldTurns n config.old (configure event.now) config.new }
{
    match *event {
        Event::Begin => done(config.begin()),
        _ => config.configure_settled(rt, event, patience),
    }
}

// What a call answers that tells of nothing else.
fn done(answer: Result<(), Refusal>) -> Result<(Applied, Option<u64>), Refusal>
    ensures { result ≡ answer_with (λ x. (Applied.Done, None)) answer }
{
    match answer {
        Ok(()) => Ok((Applied::Done, None)),
        Err(why) => Err(why),
    }
}
