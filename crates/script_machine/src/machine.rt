// The machine that a script runs on.
ghost use Rattle.std.specs.Prelude.{◌≡◌, ◌≢◌, length, true, [], Some, Err};
ghost use Rattle.std.specs.Arc.{arc_value};
ghost use Rattle.mem_base.specs.declared.map.calls.Config.TheVariants as configs;
ghost use Rattle.mem_base.specs.declared.machine.events.Event.TheVariants as events;
ghost use Rattle.mem_base.specs.access.AccessSteps.{reading, writing};
ghost use Rattle.mem_base.specs.machine.World.{World, is_at_rest, possible};
ghost use Rattle.mem_base.specs.machine.Passes.{pass_of};
ghost use Rattle.mem_base.specs.machine.Generations.{generation, generation_of};
ghost use Rattle.mem_base.specs.machine.History.{run_events};
ghost use Rattle.mem_base.specs.machine.Orders.{configure, harvest, load, notified, reap};
ghost use Rattle.mem_base.specs.machine.Answers.{answer_with, call_answer, commit_answer, harvest_answer, notifier_answer};
ghost use Rattle.mem_base.specs.machine.Answers.{plain_answer, reap_answer};
ghost use Rattle.mem_base.specs.machine.Composites.{enters, leaves};
ghost use Rattle.mem_base.specs.machine.Completions.{may_access, IsAccessed, IsCompleted, KeepsWriter};

use generation::Generation;
use mem_base::{
    Access, Applied, Call, Client, ListenerEvent, ListenerId, NotifierId, PassId, Refusal,
    RegionId, SpaceId,
};
use std::alloc::Global;
use std::sync::Arc;

/// A machine whose calls are those of the pure machine: the definitions say what each answers and what it leaves.
///
/// A call of the writer is answered `Memory` only where memory ran out, and the machine is then as it was.
pub trait Machine {
    /// The machine, as the definitions see it.
    ghost world: { Self → World };

    /// A call of the map. It answers what was made, and the number of the generation that was published, if one was.
    fn call(&mut self, call: &Call) -> Result<(Applied, Option<u64>), Refusal>
        requires { is_at_rest (world self.old).writer.desk ≡ true }
        ensures completed { result ≢ Err Refusal.Memory
            → IsCompleted (world self.old) (configure (configs.Call call.now)) (call_answer result) (world self.new) }
        ensures unchanged { result ≡ Err Refusal.Memory → world self.new ≡ world self.old };

    /// Opens a transaction.
    fn begin(&mut self) -> Result<(), Refusal>
        requires { is_at_rest (world self.old).writer.desk ≡ true }
        ensures { IsCompleted (world self.old) (configure configs.Begin) (plain_answer result) (world self.new) };

    /// Closes a transaction. It answers the number of the generation that was published, if one was.
    fn commit(&mut self) -> Result<Option<u64>, Refusal>
        requires { is_at_rest (world self.old).writer.desk ≡ true }
        ensures completed { result ≢ Err Refusal.Memory
            → IsCompleted (world self.old) (configure configs.Commit) (commit_answer result) (world self.new) }
        ensures unchanged { result ≡ Err Refusal.Memory → world self.new ≡ world self.old };

    /// A listener joins a space.
    fn listen(&mut self, listener: ListenerId, space: SpaceId, priority: i32) -> Result<(), Refusal>
        requires { is_at_rest (world self.old).writer.desk ≡ true }
        ensures completed { result ≢ Err Refusal.Memory
            → IsCompleted (world self.old) (configure (configs.Listen listener space priority)) (plain_answer result)
            (world self.new) }
        ensures unchanged { result ≡ Err Refusal.Memory → world self.new ≡ world self.old };

    /// A listener leaves.
    fn unlisten(&mut self, listener: ListenerId) -> Result<(), Refusal>
        requires { is_at_rest (world self.old).writer.desk ≡ true }
        ensures completed { result ≢ Err Refusal.Memory
            → IsCompleted (world self.old) (configure (configs.Unlisten listener)) (plain_answer result) (world self.new) }
        ensures unchanged { result ≡ Err Refusal.Memory → world self.new ≡ world self.old };

    /// Releases what was dropped and is in use no more. It answers the released regions.
    fn reap(&mut self) -> Result<Vec<RegionId>, Refusal>
        requires { is_at_rest (world self.old).writer.desk ≡ true }
        ensures completed { result ≢ Err Refusal.Memory
            → IsCompleted (world self.old) reap (reap_answer (answer_with (λ v. v.items) result)) (world self.new) }
        ensures unchanged { result ≡ Err Refusal.Memory → world self.new ≡ world self.old };

    /// Loads bytes into a region, from an offset on.
    fn load_bytes(&mut self, region: RegionId, offset: u64, bytes: &[u8]) -> Result<(), Refusal>
        requires { is_at_rest (world self.old).writer.desk ≡ true }
        ensures { IsCompleted (world self.old) (load region offset bytes.now) (plain_answer result) (world self.new) };

    /// Takes the marks of a region for one client. It answers the marked pages.
    fn harvest(&mut self, region: RegionId, client: Client) -> Result<Vec<u64>, Refusal>
        requires { is_at_rest (world self.old).writer.desk ≡ true }
        ensures completed { result ≢ Err Refusal.Memory
            → IsCompleted (world self.old) (harvest region client) (harvest_answer (answer_with (λ v. v.items) result))
            (world self.new) }
        ensures unchanged { result ≡ Err Refusal.Memory → world self.new ≡ world self.old };

    /// Takes the value of a notifier.
    fn notified(&mut self, number: NotifierId) -> u64
        requires { is_at_rest (world self.old).writer.desk ≡ true }
        ensures { IsCompleted (world self.old) (notified number) (notifier_answer result) (world self.new) };

    /// The calls that listeners got so far.
    fn journal(&self) -> &[(ListenerId, ListenerEvent)]
        ensures { result.now ≡ (world self.now).writer.desk.listening.journal };

    /// The current generation.
    fn current(&self) -> &Arc<Generation, Global>
        ensures number { (arc_value result.now).number ≡ (world self.now).writer.generations.current }
        ensures kept { generation_of (world self.now).writer.generations (world self.now).writer.generations.current
            ≡ Some (generation (arc_value result.now).forest (arc_value result.now).places) };

    /// The number of the generation in which a pass is entered.
    fn entered(&self, pass: PassId) -> Option<u64>
        ensures { result ≡ (pass_of (world self.now).passes pass).entered };

    /// A pass that has announced no number enters the current generation, whose number is answered.
    fn enter(&mut self, pass: PassId) -> u64
        requires { possible (world self.old) (events.Look pass) ≡ true }
        ensures number { result ≡ (world self.old).writer.generations.current }
        ensures after { world self.new ≡ (run_events (world self.old) (enters pass)).world }
        ensures keeps { KeepsWriter (world self.old) (world self.new) };

    /// A pass that is entered leaves.
    fn leave(&mut self, pass: PassId)
        requires { possible (world self.old) (events.Leave pass) ≡ true }
        ensures after { world self.new ≡ (run_events (world self.old) (leaves pass)).world }
        ensures keeps { KeepsWriter (world self.old) (world self.new) };

    /// A pass reads as many bytes of a space as there is room for.
    fn read(&mut self, pass: PassId, space: SpaceId, addr: u64, out: &mut [u8]) -> Access
        requires { may_access (world self.old) pass ≡ true }
        ensures { IsAccessed (world self.old) pass space addr (reading (length out.old)) result out.new (world self.new) };

    /// A pass writes bytes to a space.
    fn write(&mut self, pass: PassId, space: SpaceId, addr: u64, bytes: &[u8]) -> Access
        requires { may_access (world self.old) pass ≡ true }
        ensures { IsAccessed (world self.old) pass space addr (writing bytes.now) result [] (world self.new) };
}
