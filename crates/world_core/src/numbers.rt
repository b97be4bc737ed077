// The events of passes on numbers, what enters and leaves, and the events of a publish.
ghost use Rattle.std.specs.Prelude.{◌≡◌, true, Some};
ghost use Rattle.mem_base.specs.declared.machine.events.Event.TheVariants as events;
ghost use Rattle.mem_base.specs.machine.World.{possible, reply, number_in, world_after};
ghost use Rattle.mem_base.specs.machine.Completions.{KeepsWriter};
ghost use Rattle.mem_base.specs.machine.Composites.{enters, leaves};
ghost use Rattle.world_core.specs.Worlds.{after_events};

use crate::world::World;
use mem_base::PassId;

impl World {
    /// The pass looks at the current number, which is answered.
    pub(crate) fn look(&mut self, pass: PassId) -> u64
        requires { possible self.old (events.Look pass) ≡ true }
        ensures number { result ≡ number_in (reply self.old (events.Look pass)) }
        ensures world { self.new ≡ world_after self.old (events.Look pass) }
    {
        self.hand.kept.look(pass)
    }

    /// The pass announces the number that it looked at.
    pub(crate) fn announce(&mut self, pass: PassId)
        requires { possible self.old (events.Announce pass) ≡ true }
        ensures { self.new ≡ world_after self.old (events.Announce pass) }
    {
        self.hand.kept.announce(pass);
    }

    /// The pass enters the current generation, whose number is answered.
    pub(crate) fn enter_current(&mut self, pass: PassId) -> u64
        requires { possible self.old (events.Enter pass) ≡ true }
        ensures number { result ≡ number_in (reply self.old (events.Enter pass)) }
        ensures world { self.new ≡ world_after self.old (events.Enter pass) }
    {
        self.hand.kept.enter(pass)
    }

    /// The pass, which is entered, leaves its generation.
    pub fn leave(&mut self, pass: PassId)
        requires { possible self.old (events.Leave pass) ≡ true }
        ensures world { self.new ≡ after_events self.old (leaves pass) }
        ensures keeps { KeepsWriter self.old self.new }
    {
        self.hand.kept.leave(pass);
    }

    /// The pass enters the current generation, whose number is answered: it looks at the number, announces it, and enters.
    ///
    /// The pass has announced no number before.
    pub fn enter(&mut self, pass: PassId) -> u64
        requires { possible self.old (events.Look pass) ≡ true }
        ensures number { result ≡ self.old.writer.generations.current }
        ensures world { self.new ≡ after_events self.old (enters pass) }
        ensures keeps { KeepsWriter self.old self.new }
    {
        // It tells that a legal history leads here.
        self.is_reached();
        self.look(pass);
        self.announce(pass);
        self.enter_current(pass)
    }

    /// The writer looks at what a pass announced: the number plus one, or 0, which is answered.
    pub(crate) fn sweep(&mut self, pass: PassId) -> u64
        requires { possible self.old (events.Sweep pass) ≡ true }
        ensures number { result ≡ number_in (reply self.old (events.Sweep pass)) }
        ensures world { self.new ≡ world_after self.old (events.Sweep pass) }
    {
        self.hand.kept.sweep(pass)
    }

    /// A pass has its copy of the next generation.
    pub(crate) fn place(&mut self, pass: PassId)
        requires { possible self.old (events.Place pass) ≡ true }
        ensures { self.new ≡ world_after self.old (events.Place pass) }
    {
        self.hand.kept.place(pass);
    }

    /// The generation that is due is current then, and its number is answered.
    pub(crate) fn publish(&mut self) -> u64
        requires { possible self.old events.Publish ≡ true }
        ensures number { result ≡ number_in (reply self.old events.Publish) }
        ensures world { self.new ≡ world_after self.old events.Publish }
    {
        match self.due.take() {
            Some(due) => {
                let next = self.desk.listened.done(due);
                // Of such a forest 64 bits hold the next number.
                self.desk.listened.backed().desk().knows_forest();
                self.hand.kept.publish(next);
                self.hand.kept.current()
            }
            None => unreachable!(),
        }
    }
}
