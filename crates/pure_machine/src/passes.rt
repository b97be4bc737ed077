// What passes do.
ghost use Rattle.std.specs.Prelude.{◌≡◌, true, false, [], length};
ghost use Rattle.mem_base.specs.access.AccessSteps.{reading, writing};
ghost use Rattle.mem_base.specs.machine.Completions.{IsAccessed, KeepsWriter};
ghost use Rattle.mem_base.specs.machine.Composites.{enters, is_entered, leaves};
ghost use Rattle.mem_base.specs.machine.History.{run_events};

use crate::machine::PureMachine;
use mem_base::{Access, PassId, SpaceId};

impl PureMachine {
    /// A pass that is out enters the current generation, whose number is answered: it looks at the number, announces it, and enters.
    pub fn enter(&mut self, pass: PassId) -> u64
        requires out { is_entered self.old pass ≡ false }
        ensures number { result ≡ self.old.writer.generations.current }
        ensures world { self.new ≡ (run_events self.old (enters pass)).world }
        ensures keeps { KeepsWriter self.old self.new }
    {
        pass.knows_bound();
        self.world.enter(pass)
    }

    /// A pass that is in a generation leaves it.
    pub fn leave(&mut self, pass: PassId)
        requires inside { is_entered self.old pass ≡ true }
        ensures world { self.new ≡ (run_events self.old (leaves pass)).world }
        ensures keeps { KeepsWriter self.old self.new }
    {
        self.world.leave(pass);
    }

    /// Reads bytes of a space by a pass, as many as there is room for. A pass that is out enters before it and leaves after it.
    ///
    /// It makes the events of the defined access to the forest of the pass's one generation, and answers how it ended and the
    /// number of that generation. QEMU's core, `address_space_read`. It takes no memory.
    pub fn read(&mut self, pass: PassId, space: SpaceId, addr: u64, out: &mut [u8]) -> Access
        ensures { IsAccessed self.old pass space addr (reading (length out.old)) result out.new self.new }
    {
        pass.knows_bound();
        self.world.read(pass, space, addr, out)
    }

    /// Writes bytes to a space by a pass. A pass that is out enters before it and leaves after it.
    ///
    /// It makes the events of the defined access to the forest of the pass's one generation, and answers how it ended and the
    /// number of that generation. QEMU's core, `address_space_write`. It takes no memory.
    pub fn write(&mut self, pass: PassId, space: SpaceId, addr: u64, bytes: &[u8]) -> Access
        ensures { IsAccessed self.old pass space addr (writing bytes.now) result [] self.new }
    {
        pass.knows_bound();
        self.world.write(pass, space, addr, bytes)
    }
}
