// The writer's desk of the running machine, and its calls that are turns.
ghost use Rattle.std.specs.Prelude.{◌≡◌, ◌≢◌, ◌+◌, ◌<◌, ◌≤◌, ◌^◌, [], Some, Err, IfOk, IfErr, OnErr, true, false, drop, replicate};
ghost use Rattle.std.specs.Arc.{arc_value};
ghost use Rattle.mem_base.specs.declared.map.calls.Config.TheVariants as configs;
ghost use Rattle.mem_base.specs.map.Limits.{most_passes, most_words, notifier_count};
ghost use Rattle.mem_base.specs.machine.Desk.{places_of};
ghost use Rattle.mem_base.specs.machine.Answers.{answer_with, call_answer, commit_answer, harvest_answer, notifier_answer, plain_answer, reap_answer};
ghost use Rattle.mem_base.specs.machine.Orders.{configure, harvest, load, notified, reap};
ghost use Rattle.mem_base.specs.machine.Publishing.{current_forest, held_up, would_publish};
ghost use Rattle.mem_base.specs.machine.Reaps.{first_writer};
ghost use Rattle.run_laws.specs.MadeForests.{FitsConfig};
ghost use Rattle.writer_desk.specs.Writers.{first_state, is_held};
ghost use Rattle.writer_desk.specs.Listened.{resting};
ghost use Rattle.writer_run.specs.Turns.{answer_by, number_told};
ghost use Rattle.config_desk.specs.Configs.{IsTurnOf, with_calls};

use crate::loading::load_with;
use epoch_rule::{Cabinet, WriterSeat};
use generation::Generation;
use mem_base::{
    Applied, Call, Client, Config as Event, ListenerEvent, ListenerId, NOTIFIER_COUNT, NotifierId,
    Place, Refusal, RegionId, SpaceId,
};
use seat_run::{Recent, SeatHand};
use std::alloc::{AllocError, Global};
use std::marker::Model;
use std::sync::{Arc, Wait};
use writer_desk::IdleDesk;
use writer_run::{begin, configure, harvest, notified, reap};

/// The writer's desk of the running machine. It is seen as what the writer's seat has seen of the one history, and the writer's
/// part: the desk with the listeners, and the generations.
///
/// Each of its calls but `pass`, `take_in`, `note`, `hear`, `take_journal` and `forget` is one turn. A refused call leaves the writer's
/// part and the history as they were, but for a publish that is held up: its sweeps have been made.
#[derive(Drop)]
pub struct Config {
    pub(crate) hand: SeatHand,
    pub(crate) desk: IdleDesk,
}

impl Model for Config {
    ghost use Rattle.config_desk.specs.Configs.{ConfigState, config_state, IsConfig};

    ghost Value = { ConfigState };

    ghost view = { λ c. config_state c.desk c.hand.seat };

    ghost invariant = { λ c. IsConfig c.desk c.hand.seat };
}

// That the sizes of a call are such as their types hold.
fn fits(event: &Event)
    ensures { FitsConfig event.now }
{
    match *event {
        Event::Call(call) => call.knows_fits(),
        _ => {}
    }
}

// A cabinet for two owners.
fn share(
    alloc: Global,
    cabinet: Cabinet<Generation>,
) -> Result<
    (
        Arc<Cabinet<Generation>, Global>,
        Arc<Cabinet<Generation>, Global>,
    ),
    AllocError,
>
    ensures first { IfOk result (λ r. arc_value r.0 ≡ cabinet) }
    ensures second { IfOk result (λ r. arc_value r.1 ≡ cabinet) }
{
    let cabinet = Arc::new(alloc, cabinet)?;
    match Arc::try_clone(&cabinet) {
        Ok(shared) => Ok((cabinet, shared)),
        Err(error) => {
            drop(cabinet);
            Err(error)
        }
    }
}

// The cabinet of a desk on which nothing was done, for two owners, and its writer's seat.
fn open(
    alloc: Global,
    desk: &IdleDesk,
    words: usize,
    passes: u32,
) -> Result<
    (
        Arc<Cabinet<Generation>, Global>,
        Arc<Cabinet<Generation>, Global>,
        WriterSeat<Generation>,
    ),
    AllocError,
>
    requires desk { resting desk.now.listened ≡ first_state words }
    requires words { words ≤ most_words }
    requires some { 0 < passes }
    requires few { passes ≤ most_passes }
    ensures own { IfOk result (λ r. (r.2.cabinet ≡ (arc_value r.0).id) × (r.2.cabinet ≡ (arc_value r.1).id)) }
    ensures sizes { IfOk result (λ r. (r.2.sizes.passes ≡ passes) × (r.2.sizes.words ≡ words + notifier_count)) }
    ensures same { IfOk result (λ r. (arc_value r.0).sizes ≡ r.2.sizes) }
    ensures fresh { IfOk result (λ r. (r.2.seen ≡ []) × (r.2.out ≡ replicate passes false)) }
{
    let first = Arc::try_clone(desk.listened.backed().desk().current())?;
    let (cabinet, seat) = Cabinet::new(alloc, passes, words + NOTIFIER_COUNT, first)?;
    match share(alloc, cabinet) {
        Ok((cabinet, shared)) => Ok((cabinet, shared, seat)),
        Err(error) => {
            drop(seat);
            Err(error)
        }
    }
}

impl Config {
    /// A machine with an empty map over a pool of this many words, at most 2^26, and 1 to 16 passes: the cabinet that its virtual
    /// CPUs share, and the writer's desk of it.
    ///
    /// It fails only where memory runs out.
    pub fn new(
        alloc: Global,
        words: usize,
        passes: u32,
    ) -> Result<(Arc<Cabinet<Generation>, Global>, Config), AllocError>
        requires words { words ≤ most_words }
        requires some { 0 < passes }
        requires few { passes ≤ most_passes }
        ensures own { IfOk result (λ r. r.1.seat.cabinet ≡ (arc_value r.0).id) }
        ensures sizes { IfOk result (λ r. (r.1.seat.sizes.passes ≡ passes) × (r.1.seat.sizes.words ≡ words + notifier_count)) }
        ensures same { IfOk result (λ r. (arc_value r.0).sizes ≡ r.1.seat.sizes) }
        ensures fresh { IfOk result (λ r. (r.1.seat.seen ≡ []) × (r.1.seat.out ≡ replicate passes false)) }
        ensures part { IfOk result (λ r. r.1.part ≡ first_writer words passes) }
    {
        let desk = IdleDesk::new(alloc, words)?;
        let (cabinet, shared, seat) = match open(alloc, &desk, words, passes) {
            Ok(opened) => opened,
            Err(error) => {
                drop(desk);
                return Err(error);
            }
        };
        match Config::with_seat(alloc, shared, seat, desk, words, passes) {
            Ok(config) => Ok((cabinet, config)),
            Err(error) => {
                drop(cabinet);
                Err(error)
            }
        }
    }

    // The desk by the seat of a new cabinet.
    fn with_seat(
        alloc: Global,
        cabinet: Arc<Cabinet<Generation>, Global>,
        seat: WriterSeat<Generation>,
        desk: IdleDesk,
        words: usize,
        passes: u32,
    ) -> Result<Config, AllocError>
        requires own { seat.cabinet ≡ (arc_value cabinet).id }
        requires passes { passes ≡ seat.sizes.passes }
        requires words { seat.sizes.words ≡ words + notifier_count }
        requires fresh { seat.seen ≡ [] }
        requires desk { resting desk.listened ≡ first_state words }
        requires dropped { desk.dropped.items ≡ [] }
        ensures seat { IfOk result (λ config. config.seat ≡ seat) }
        ensures part { IfOk result (λ config. config.part ≡ first_writer words passes) }
    {
        let kept = Recent::new(alloc, desk.listened.backed().desk().current())?;
        let hand = SeatHand {
            cabinet,
            seat,
            kept,
            alloc,
            passes,
        };
        Ok(Config { hand, desk })
    }

    // A private event of the writer: its turn.
    pub(crate) fn configure(&mut self, event: &Event) -> Result<(Applied, Option<u64>), Refusal>
        ensures turn { result ≢ Err Refusal.Memory → IsTurnOf self.old (configure event.now) (answer_by event.now result) self.new }
        ensures number { IfOk result (λ x. x.1 ≡ number_told self.old.part event.now) }
        ensures cause { IfErr result (λ why. why ≢ Refusal.Memory → is_held why ≡ would_publish self.old.part.desk event.now) }
        ensures held { IfErr result (λ why. would_publish self.old.part.desk event.now ≡ true → why ≢ Refusal.Memory
            → held_up self.new.part.generations ≡ Some why) }
        ensures left { OnErr result (self.new.part.desk ≡ self.old.part.desk) }
        ensures current { OnErr result (self.new.part.generations.current ≡ self.old.part.generations.current) }
        ensures unchanged { result ≡ Err Refusal.Memory → self.new ≡ self.old }
    {
        fits(event);
        match configure(&mut self.desk, &mut self.hand, event) {
            Ok(answer) => Ok(answer),
            Err(why) => match why {
                Refusal::Memory => Err(Refusal::Memory),
                _ => Err(why),
            },
        }
    }

    /// A change of the map, or a region that is made or dropped. A change outside all transactions is published, and the number of
    /// the generation that is current then is answered beside what the call answers. QEMU's manual, "The memory API".
    ///
    /// It is refused for the forest's first reason, after these with `NoBacking` where no hole has the words of a region that is to
    /// be made, and with `Held` where a pass may still use the generation that a publish would overwrite.
    pub fn call(&mut self, call: &Call) -> Result<(Applied, Option<u64>), Refusal>
        ensures turn { result ≢ Err Refusal.Memory → IsTurnOf self.old (configure (configs.Call call.now)) (call_answer result) self.new }
        ensures number { IfOk result (λ x. x.1 ≡ number_told self.old.part (configs.Call call.now)) }
        ensures cause { IfErr result (λ why. why ≢ Refusal.Memory → is_held why ≡ would_publish self.old.part.desk (configs.Call call.now)) }
        ensures held { IfErr result (λ why. would_publish self.old.part.desk (configs.Call call.now) ≡ true → why ≢ Refusal.Memory
            → held_up self.new.part.generations ≡ Some why) }
        ensures left { OnErr result (self.new.part.desk ≡ self.old.part.desk) }
        ensures unchanged { result ≡ Err Refusal.Memory → self.new ≡ self.old }
    {
        self.configure(&Event::Call(*call))
    }

    /// Opens a transaction, inside of those that are open. QEMU's core, `memory_region_transaction_begin`.
    ///
    /// It is refused with `TooNested` where 64 are open; the bound is this project's own. It takes no memory.
    pub fn begin(&mut self) -> Result<(), Refusal>
        ensures turn { IsTurnOf self.old (configure configs.Begin) (plain_answer result) self.new }
        ensures nested { IfErr result (λ why. why ≡ Refusal.TooNested) }
        ensures left { OnErr result (self.new.part.desk ≡ self.old.part.desk) }
    {
        begin(&mut self.desk, &self.hand)
    }

    /// Closes a transaction. The outermost one publishes what is pending, and answers the number of the generation that is current
    /// then. QEMU's core, `memory_region_transaction_commit`.
    ///
    /// It is refused with `NoTransaction` where none is open, and with `Held` where a pass may still use the generation that the
    /// publish would overwrite: the transaction is open still.
    pub fn commit(&mut self) -> Result<Option<u64>, Refusal>
        ensures turn { result ≢ Err Refusal.Memory → IsTurnOf self.old (configure configs.Commit) (commit_answer result) self.new }
        ensures number { IfOk result (λ number. number ≡ number_told self.old.part configs.Commit) }
        ensures cause { IfErr result (λ why. why ≢ Refusal.Memory → is_held why ≡ would_publish self.old.part.desk configs.Commit) }
        ensures held { IfErr result (λ why. would_publish self.old.part.desk configs.Commit ≡ true → why ≢ Refusal.Memory
            → held_up self.new.part.generations ≡ Some why) }
        ensures left { OnErr result (self.new.part.desk ≡ self.old.part.desk) }
        ensures unchanged { result ≡ Err Refusal.Memory → self.new ≡ self.old }
    {
        let (_, number) = self.configure(&Event::Commit)?;
        Ok(number)
    }

    /// A listener joins a space, and is told what the current generation shows there. QEMU's core, `memory_listener_register`.
    ///
    /// It is refused with `Unknown` where the space is not there, with `NameTaken` where the listener listens already, and with
    /// `LimitReached` where 64 listen.
    pub fn listen(
        &mut self,
        listener: ListenerId,
        space: SpaceId,
        priority: i32,
    ) -> Result<(), Refusal>
        ensures turn { result ≢ Err Refusal.Memory → IsTurnOf self.old (configure (configs.Listen listener space priority)) (plain_answer result) self.new }
        ensures left { OnErr result (self.new.part.desk ≡ self.old.part.desk) }
        ensures unchanged { result ≡ Err Refusal.Memory → self.new ≡ self.old }
    {
        self.configure(&Event::Listen {
            listener,
            space,
            priority,
        })?;
        Ok(())
    }

    /// A listener leaves its space, and is told that what the current generation shows there is gone. QEMU's core,
    /// `memory_listener_unregister`.
    ///
    /// It is refused with `Unknown` where no such listener listens.
    pub fn unlisten(&mut self, listener: ListenerId) -> Result<(), Refusal>
        ensures turn { result ≢ Err Refusal.Memory → IsTurnOf self.old (configure (configs.Unlisten listener)) (plain_answer result) self.new }
        ensures left { OnErr result (self.new.part.desk ≡ self.old.part.desk) }
        ensures unchanged { result ≡ Err Refusal.Memory → self.new ≡ self.old }
    {
        self.configure(&Event::Unlisten(listener))?;
        Ok(())
    }

    /// Sweeps each pass, and then releases the dropped regions that no held generation names: their places are holes of the pool
    /// again. The released regions are answered, ascending. This project's own rule, in place of the reference counts of QEMU's core.
    ///
    /// It fails only where memory runs out.
    pub fn reap(&mut self) -> Result<Vec<RegionId>, Refusal>
        ensures turn { result ≢ Err Refusal.Memory → IsTurnOf self.old reap (reap_answer (answer_with (λ v. v.items) result)) self.new }
        ensures unchanged { result ≡ Err Refusal.Memory → self.new ≡ self.old }
    {
        let alloc = self.hand.alloc;
        match reap(alloc, &mut self.desk, &mut self.hand) {
            Ok(released) => Ok(released),
            Err(why) => match why {
                Refusal::Memory => Err(Refusal::Memory),
                _ => Err(why),
            },
        }
    }

    /// Takes a notifier: answers what stood in its word and leaves 0 there. It is 0 where no write has set the notifier since it was
    /// last taken. It takes no memory.
    pub fn notified(&mut self, number: NotifierId) -> u64
        ensures turn { IsTurnOf self.old (notified number) (notifier_answer result) self.new }
    {
        notified(&self.desk, &mut self.hand, number)
    }

    /// Takes the marks of a region for one client: the pages that were written since they were last taken, ascending. Each mark
    /// word is taken by one step, in ascending order. QEMU's core, `cpu_physical_memory_snapshot_and_clear_dirty`.
    ///
    /// It is refused with `Unknown` where the region is not there, and with `WrongKind` where it has no bytes.
    pub fn harvest(&mut self, region: RegionId, client: Client) -> Result<Vec<u64>, Refusal>
        ensures turn { result ≢ Err Refusal.Memory
            → IsTurnOf self.old (harvest region client) (harvest_answer (answer_with (λ v. v.items) result)) self.new }
        ensures unchanged { result ≡ Err Refusal.Memory → self.new ≡ self.old }
    {
        let alloc = self.hand.alloc;
        match harvest(alloc, &self.desk, &mut self.hand, region, client) {
            Ok(pages) => Ok(pages),
            Err(why) => match why {
                Refusal::Memory => Err(Refusal::Memory),
                _ => Err(why),
            },
        }
    }

    /// Loads bytes into a region that has bytes, from an offset in it on: each word that they touch is changed by one step, in
    /// ascending order. No page is marked. QEMU's core, `address_space_write_rom`, which loads firmware too. It may wait where it
    /// replaces a part of a word, and takes no memory.
    ///
    /// It is refused with `Unknown` where the region is not there, with `WrongKind` where it has no bytes, and with `BadSize` where
    /// it ends before them.
    pub fn load_bytes<R: Wait>(
        &mut self,
        rt: &R,
        region: RegionId,
        offset: u64,
        bytes: &[u8],
    ) -> Result<(), Refusal>
        ensures turn { IsTurnOf self.old (load region offset bytes.now) (plain_answer result) self.new }
    {
        load_with(rt, &mut self.hand, &self.desk, region, offset, bytes)
    }

    /// The calls that the listeners got and that were not taken out or forgotten, in order.
    pub fn journal(&self) -> &[(ListenerId, ListenerEvent)]
        ensures { result.now ≡ self.now.part.desk.listening.journal }
    {
        self.desk.listened.listeners().journal()
    }

    /// Takes the calls that the listeners got, and that were not taken out or forgotten before, out of the journal: they are handed over, and
    /// the journal is empty then. The listeners stay, and are told nothing. It takes no memory, and is no turn.
    pub fn take_journal(&mut self) -> Vec<(ListenerId, ListenerEvent)>
        ensures taken { result.items ≡ self.old.part.desk.listening.journal }
        ensures left { self.new ≡ with_calls [] self.old }
    {
        self.desk.listened.take_journal()
    }

    /// Forgets the first `count` calls of the journal, all of them where there are fewer. The listeners stay, and are told nothing. It
    /// takes no memory, and is no turn.
    pub fn forget(&mut self, count: usize)
        ensures { self.new ≡ with_calls (drop count self.old.part.desk.listening.journal) self.old }
    {
        self.desk.listened.forget(count);
    }

    /// The generation that is current.
    pub fn current(&self) -> &Arc<Generation, Global>
        ensures number { (arc_value result.now).number ≡ self.now.part.generations.current }
        ensures forest { (arc_value result.now).forest ≡ current_forest self.now.part.generations }
    {
        self.desk.listened.backed().desk().current()
    }

    /// The regions that were dropped and are not released yet, ascending. A reap answers no others.
    pub fn dropped(&self) -> &[RegionId]
        ensures { result.now ≡ self.now.part.desk.dropped }
    {
        self.desk.dropped.as_slice()
    }

    /// The places in which there are words: those of regions, in order of making, and after the pool the notifiers'.
    pub fn places(&self) -> &[Place]
        ensures { result.now ≡ places_of self.now.part.desk }
    {
        self.desk.listened.backed().places()
    }
}
