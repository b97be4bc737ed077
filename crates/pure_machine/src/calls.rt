// The calls of the writer.
ghost use Rattle.std.specs.Prelude.{◌≡◌, ◌≢◌, true, Some, Err, IfErr, IfOk};
ghost use Rattle.mem_base.specs.declared.map.calls.Config.TheVariants as configs;
ghost use Rattle.mem_base.specs.machine.Answers.{answer_with, call_answer, commit_answer, harvest_answer, notifier_answer, plain_answer, reap_answer};
ghost use Rattle.mem_base.specs.machine.Completions.{IsCompleted};
ghost use Rattle.mem_base.specs.machine.Composites.{completed};
ghost use Rattle.mem_base.specs.machine.Desk.{unswept};
ghost use Rattle.mem_base.specs.machine.History.{IsLegalFrom};
ghost use Rattle.mem_base.specs.machine.Orders.{configure, harvest, load, notified, reap};
ghost use Rattle.mem_base.specs.machine.Publishing.{held_up, would_publish};
ghost use Rattle.writer_desk.specs.Writers.{is_held};
ghost use Rattle.writer_run.specs.Turns.{number_told};

use crate::machine::PureMachine;
use mem_base::{Applied, Call, Client, ListenerId, NotifierId, Refusal, RegionId, SpaceId};

impl PureMachine {
    /// A change of the map, or a region that is made or dropped. A change outside all transactions is published: the listeners are
    /// told, and the number of the generation that is current then is answered beside what the call answers.
    ///
    /// It answers the forest's first refusal, and after these `NoBacking` where no hole has the words of a region that is to be
    /// made, or `Held` where a pass may still use the generation that a publish would overwrite. QEMU's manual, "The memory API".
    pub fn call(&mut self, call: &Call) -> Result<(Applied, Option<u64>), Refusal>
        ensures completed { result ≢ Err Refusal.Memory → IsCompleted self.old (configure (configs.Call call.now)) (call_answer result) self.new }
        ensures legal { IsLegalFrom self.old (completed self.old (configure (configs.Call call.now))).entries }
        ensures number { IfOk result (λ x. x.1 ≡ number_told self.old.writer (configs.Call call.now)) }
        ensures cause { IfErr result (λ why. why ≢ Refusal.Memory → is_held why ≡ would_publish self.old.writer.desk (configs.Call call.now)) }
        ensures held { IfErr result (λ why. would_publish self.old.writer.desk (configs.Call call.now) ≡ true → why ≢ Refusal.Memory
            → held_up self.new.writer.generations ≡ Some why) }
        ensures left { IfErr result (λ why. why ≢ Refusal.Memory → self.new.writer.desk ≡ unswept self.old.writer.desk) }
        ensures unchanged { result ≡ Err Refusal.Memory → self.new ≡ self.old }
        ensures passes { self.new.passes ≡ self.old.passes }
    {
        self.world.call(call)
    }

    /// Opens a transaction, inside of those that are open. QEMU's core, `memory_region_transaction_begin`.
    ///
    /// It is refused with `TooNested` where 64 are open; the bound is this project's own. It takes no memory.
    pub fn begin(&mut self) -> Result<(), Refusal>
        ensures completed { IsCompleted self.old (configure configs.Begin) (plain_answer result) self.new }
        ensures legal { IsLegalFrom self.old (completed self.old (configure configs.Begin)).entries }
    {
        self.world.begin()
    }

    /// Closes a transaction. The outermost one publishes what is pending, and answers the number of the generation that is current
    /// then. QEMU's core, `memory_region_transaction_commit`.
    ///
    /// It is refused with `NoTransaction` where none is open, and with `Held` where a pass may still use the generation that the
    /// publish would overwrite: the transaction is open still.
    pub fn commit(&mut self) -> Result<Option<u64>, Refusal>
        ensures completed { result ≢ Err Refusal.Memory → IsCompleted self.old (configure configs.Commit) (commit_answer result) self.new }
        ensures legal { IsLegalFrom self.old (completed self.old (configure configs.Commit)).entries }
        ensures number { IfOk result (λ number. number ≡ number_told self.old.writer configs.Commit) }
        ensures cause { IfErr result (λ why. why ≢ Refusal.Memory → is_held why ≡ would_publish self.old.writer.desk configs.Commit) }
        ensures held { IfErr result (λ why. would_publish self.old.writer.desk configs.Commit ≡ true → why ≢ Refusal.Memory
            → held_up self.new.writer.generations ≡ Some why) }
        ensures left { IfErr result (λ why. why ≢ Refusal.Memory → self.new.writer.desk ≡ unswept self.old.writer.desk) }
        ensures unchanged { result ≡ Err Refusal.Memory → self.new ≡ self.old }
        ensures passes { self.new.passes ≡ self.old.passes }
    {
        self.world.commit()
    }

    /// A listener joins a space, and is told what the current generation shows there. QEMU's core, `memory_listener_register`.
    ///
    /// It is refused with `Unknown` where the space is not there, with `NameTaken` where the listener listens already, and with
    /// `LimitReached` where 64 listen.
    pub fn listen(
        &mut self,
        listener: ListenerId,
        space: SpaceId,
        priority: i32,
    ) -> Result<(), Refusal>
        ensures completed { result ≢ Err Refusal.Memory
            → IsCompleted self.old (configure (configs.Listen listener space priority)) (plain_answer result) self.new }
        ensures legal { IsLegalFrom self.old (completed self.old (configure (configs.Listen listener space priority))).entries }
        ensures left { IfErr result (λ why. why ≢ Refusal.Memory → self.new.writer.desk ≡ unswept self.old.writer.desk) }
        ensures unchanged { result ≡ Err Refusal.Memory → self.new ≡ self.old }
        ensures passes { self.new.passes ≡ self.old.passes }
    {
        self.world.listen(listener, space, priority)
    }

    /// A listener leaves its space, and is told that what the current generation shows there is gone. QEMU's core,
    /// `memory_listener_unregister`.
    ///
    /// It is refused with `Unknown` where no such listener listens.
    pub fn unlisten(&mut self, listener: ListenerId) -> Result<(), Refusal>
        ensures completed { result ≢ Err Refusal.Memory → IsCompleted self.old (configure (configs.Unlisten listener)) (plain_answer result) self.new }
        ensures legal { IsLegalFrom self.old (completed self.old (configure (configs.Unlisten listener))).entries }
        ensures left { IfErr result (λ why. why ≢ Refusal.Memory → self.new.writer.desk ≡ unswept self.old.writer.desk) }
        ensures unchanged { result ≡ Err Refusal.Memory → self.new ≡ self.old }
        ensures passes { self.new.passes ≡ self.old.passes }
    {
        self.world.unlisten(listener)
    }

    /// Sweeps each pass, and then releases the dropped regions that no held generation names: their places are holes of the pool
    /// again. The released regions are answered, ascending. This project's own rule, in place of the reference counts of QEMU's core.
    ///
    /// It fails only where memory runs out, and then nothing changes.
    pub fn reap(&mut self) -> Result<Vec<RegionId>, Refusal>
        ensures completed { result ≢ Err Refusal.Memory → IsCompleted self.old reap (reap_answer (answer_with (λ v. v.items) result)) self.new }
        ensures legal { IsLegalFrom self.old (completed self.old reap).entries }
        ensures unchanged { result ≡ Err Refusal.Memory → self.new ≡ self.old }
        ensures passes { self.new.passes ≡ self.old.passes }
    {
        self.world.reap()
    }

    /// Loads bytes into a region that has bytes, from an offset in it on: each word that they touch is changed by one step, in
    /// ascending order. No page is marked. QEMU's core, `address_space_write_rom`, which loads firmware too.
    ///
    /// Refused with `Unknown` where the region is not there, with `WrongKind` where it has no bytes,
    /// and with `BadSize` where it ends before them; then nothing changes. It takes no memory.
    pub fn load_bytes(&mut self, region: RegionId, offset: u64, bytes: &[u8]) -> Result<(), Refusal>
        ensures completed { IsCompleted self.old (load region offset bytes.now) (plain_answer result) self.new }
        ensures legal { IsLegalFrom self.old (completed self.old (load region offset bytes.now)).entries }
    {
        self.world.load_bytes(region, offset, bytes)
    }

    /// Takes a notifier: answers what stood in its word and leaves 0 there. It is 0 where no write has set the notifier since it was
    /// last taken.
    ///
    /// It takes no memory.
    pub fn notified(&mut self, number: NotifierId) -> u64
        ensures completed { IsCompleted self.old (notified number) (notifier_answer result) self.new }
        ensures legal { IsLegalFrom self.old (completed self.old (notified number)).entries }
    {
        self.world.notified(number)
    }

    /// Takes the marks of a region for one client: the pages that were written since they were last taken, ascending. Each mark
    /// word is taken by one step, in ascending order. QEMU's core, `cpu_physical_memory_snapshot_and_clear_dirty`.
    ///
    /// Refused with `Unknown` where the region is not there and with `WrongKind` where it has no
    /// bytes, or where memory runs out; then nothing changes.
    pub fn harvest(&mut self, region: RegionId, client: Client) -> Result<Vec<u64>, Refusal>
        ensures completed { result ≢ Err Refusal.Memory
            → IsCompleted self.old (harvest region client) (harvest_answer (answer_with (λ v. v.items) result)) self.new }
        ensures legal { IsLegalFrom self.old (completed self.old (harvest region client)).entries }
        ensures unchanged { result ≡ Err Refusal.Memory → self.new ≡ self.old }
        ensures passes { self.new.passes ≡ self.old.passes }
    {
        self.world.harvest(region, client)
    }
}
