// Accesses of the world's passes.
ghost use Rattle.std.specs.Prelude.{◌≡◌, length, true, []};
ghost use Rattle.mem_base.specs.declared.machine.events.Event.TheVariants as events;
ghost use Rattle.mem_base.specs.access.AccessSteps.{reading, writing, result_of};
ghost use Rattle.mem_base.specs.access.Access.{access};
ghost use Rattle.mem_base.specs.machine.Composites.{is_entered, enters_unless, leaves_unless};
ghost use Rattle.access_run.specs.Runs.{HasDone};
ghost use Rattle.mem_base.specs.machine.Completions.{may_access, IsAccessed};
ghost use Rattle.world_core.specs.Hands.{HasRun, IsInside, shown_to};
ghost use Rattle.world_core.specs.Worlds.{after_events};

use crate::hands::EnteredPass;
use crate::world::World;
use mem_base::{Access, Edition, PassId, SpaceId, TxResult};

impl World {
    /// Reads bytes of a space by a pass, as many as there is room for. A pass that is not entered enters before it and leaves after it.
    ///
    /// It makes the events of the defined access to the forest of the pass's one generation, and answers how it ended and the
    /// number of that generation. QEMU's core, `address_space_read`. It takes no memory.
    pub fn read(&mut self, pass: PassId, space: SpaceId, addr: u64, out: &mut [u8]) -> Access
        requires { may_access self.old pass ≡ true }
        ensures { IsAccessed self.old pass space addr (reading (length out.old)) result out.new self.new }
    {
        let entered = self.enter_unless(pass);
        let result = self.read_entered(pass, space, addr, out);
        let number = self.leave_unless(pass, entered);
        Access { result, number }
    }

    /// Writes bytes to a space by a pass. A pass that is not entered enters before it and leaves after it.
    ///
    /// It makes the events of the defined access to the forest of the pass's one generation, and answers how it ended and the
    /// number of that generation. QEMU's core, `address_space_write`. It takes no memory.
    pub fn write(&mut self, pass: PassId, space: SpaceId, addr: u64, bytes: &[u8]) -> Access
        requires { may_access self.old pass ≡ true }
        ensures { IsAccessed self.old pass space addr (writing bytes.now) result [] self.new }
    {
        let entered = self.enter_unless(pass);
        let result = self.write_entered(pass, space, addr, bytes);
        let number = self.leave_unless(pass, entered);
        Access { result, number }
    }

    // Enters where the pass is not entered, and answers whether it was.
    fn enter_unless(&mut self, pass: PassId) -> bool
        requires { may_access self.old pass ≡ true }
        ensures entered { result ≡ is_entered self.old pass }
        ensures world { self.new ≡ after_events self.old (enters_unless result pass) }
        ensures inside { IsInside self.new pass }
    {
        // It tells that a legal history leads here.
        self.is_reached();
        let entered = self.entered(pass).is_some();
        if !entered {
            self.enter(pass);
            // And that one leads to where it has entered.
            self.is_reached();
        }
        entered
    }

    // Leaves unless it was entered before, and answers the number of the generation that it was in.
    fn leave_unless(&mut self, pass: PassId, entered: bool) -> u64
        requires { IsInside self.old pass }
        ensures number { result ≡ (shown_to self.old pass).number }
        ensures world { self.new ≡ after_events self.old (leaves_unless entered pass) }
    {
        // It tells that a legal history leads here.
        self.is_reached();
        let number = self.generation_of(pass).number();
        if !entered {
            self.leave(pass);
        }
        number
    }

    // A read by a pass that is entered.
    fn read_entered(&mut self, pass: PassId, space: SpaceId, addr: u64, out: &mut [u8]) -> TxResult
        requires { IsInside self.old pass }
        ensures result { result ≡ result_of (access (shown_to self.old pass).forest space addr (reading (length out.old))) }
        ensures done { HasDone (HasRun pass) pass self.old (access (shown_to self.old pass).forest space addr (reading (length out.old))) out.new self.new }
    {
        let mut hand = EnteredPass { world: self, pass };
        access_run::read(&mut hand, space, addr, out)
    }

    // A write by a pass that is entered.
    fn write_entered(&mut self, pass: PassId, space: SpaceId, addr: u64, bytes: &[u8]) -> TxResult
        requires { IsInside self.old pass }
        ensures result { result ≡ result_of (access (shown_to self.old pass).forest space addr (writing bytes.now)) }
        ensures done { HasDone (HasRun pass) pass self.old (access (shown_to self.old pass).forest space addr (writing bytes.now)) [] self.new }
    {
        let mut hand = EnteredPass { world: self, pass };
        access_run::write(&mut hand, space, addr, bytes)
    }
}
