// A virtual CPU that owns a share of its cabinet.
ghost use Rattle.std.specs.Prelude.{◌≡◌, [], length, None, Some, MatchOption, MatchResult};
ghost use Rattle.std.specs.Arc.{arc_value};
ghost use mathlib.Core.List.{IsPrefix};
ghost use Rattle.mem_base.specs.access.AccessSteps.{reading};
ghost use Rattle.mem_base.specs.machine.Actors.{generation_published};
ghost use Rattle.generation.specs.Published.{Published};
ghost use Rattle.epoch_rule.specs.Copies.{shown_by};
ghost use Rattle.epoch_rule.specs.Wrote.{Made, longer};
ghost use Rattle.vcpu_pass.specs.Calls.{HasAccessed, HasEntered, HasLeft, HasRefused, HasWritten8};
ghost use Rattle.bounded_write.specs.Writes.{HasWritten};

use bounded_write::{Written, write_bounded};
use epoch_rule::{Cabinet, Note, Pass};
use generation::Generation;
use mem_base::{Access, SpaceId};
use std::alloc::Global;
use std::marker::Model;
use std::sync::Arc;
use vcpu_pass::{NotWhole, Vcpu};

/// A virtual CPU with its share of the cabinet. Contracts see it as its pass: its number, what it has seen of the history, and the
/// generation that it is entered in.
#[derive(Drop)]
pub struct Cpu {
    cabinet: Arc<Cabinet<Generation>, Global>,
    // It is there but while a call works with it.
    pass: Option<Pass<Generation>>,
}

impl Model for Cpu {
    ghost use Rattle.std.specs.Arc.{arc_value};
    ghost use Rattle.generation.specs.Published.{Published};
    ghost use Rattle.epoch_rule.specs.Values.{PassValue};
    ghost use Rattle.shared_machine.specs.Cpus.{IsPassOf, pass_of};

    ghost Value = { PassValue Published };

    ghost view = { λ c. pass_of (arc_value c.cabinet) c.pass };

    ghost invariant = { λ c. IsPassOf (arc_value c.cabinet) c.pass };
}

impl Cpu {
    /// A virtual CPU with a pass of the cabinet. It is entered where the pass is.
    pub(crate) fn new(cabinet: Arc<Cabinet<Generation>, Global>, pass: Pass<Generation>) -> Cpu
        requires own { pass.cabinet ≡ (arc_value cabinet).id }
        ensures { result ≡ pass }
    {
        Cpu {
            cabinet,
            pass: Some(pass),
        }
    }

    /// Its pass, entered or not.
    pub(crate) fn into_pass(self) -> Pass<Generation>
        ensures { result ≡ self }
    {
        let Cpu {
            cabinet: _cabinet,
            pass,
        } = self;
        match pass {
            Some(pass) => pass,
            None => unreachable!(),
        }
    }

    /// The generation that it is entered in; `None` where it is in none. What it names stays as long as the virtual CPU stays in it: no reap
    /// releases a region that a held generation names. It asks no lock.
    pub fn generation(&self) -> Option<&Generation>
        ensures { MatchOption result (self.now.edition ≡ None) (λ g. self.now.edition ≡ Some g.now) }
    {
        let Some(pass) = &self.pass else {
            unreachable!()
        };
        if self.cabinet.entered(pass) {
            Some(self.cabinet.generation(pass))
        } else {
            None
        }
    }

    /// Enters the current generation, and answers its number. Where it was entered it leaves first.
    pub fn enter(&mut self) -> u64
        ensures entered { HasEntered self.old result self.new }
        ensures edition { (g : Published) × (self.new.edition ≡ Some g) × (g.number ≡ result)
            × (shown_by (λ x. x.forest) (λ x. x.places) g ≡ generation_published self.new.seen result) }
    {
        let Some(pass) = self.pass.take() else {
            unreachable!()
        };
        let mut vcpu = Vcpu::new(&self.cabinet, pass);
        let number = vcpu.enter();
        self.pass = Some(vcpu.into_parts().1);
        number
    }

    /// Leaves the generation that it is entered in; where it is not entered, it does nothing.
    pub fn leave(&mut self)
        ensures left { HasLeft self.old self.new }
    {
        let Some(pass) = self.pass.take() else {
            unreachable!()
        };
        self.pass = Some(Vcpu::new(&self.cabinet, pass).into_pass());
    }

    /// A note of what it has seen, for the desk to hear. It may be entered. It takes no memory.
    pub fn tell(&mut self) -> Note<Generation>
        ensures same { self.new ≡ self.old }
        ensures note { (result.cabinet ≡ self.old.cabinet) × (result.seen ≡ self.old.seen) }
    {
        let Some(pass) = self.pass.take() else {
            unreachable!()
        };
        let mut vcpu = Vcpu::new(&self.cabinet, pass);
        let note = vcpu.tell();
        self.pass = Some(vcpu.into_parts().1);
        note
    }

    /// It has then seen all that a note of its machine tells of: a thread hands the note on with whatever it tells another, so that who was
    /// told that the map has changed enters no generation from before the change. It may be entered, and then stays in its generation.
    pub fn meet(&mut self, note: Note<Generation>)
        requires own { note.cabinet ≡ self.old.cabinet }
        ensures longer { self.new.seen ≡ longer self.old.seen note.seen }
        ensures seen { IsPrefix note.seen self.new.seen }
        ensures events { Made self.old [] self.new }
        ensures edition { self.new.edition ≡ self.old.edition }
    {
        let Some(pass) = self.pass.take() else {
            unreachable!()
        };
        let mut vcpu = Vcpu::new(&self.cabinet, pass);
        vcpu.meet(note);
        self.pass = Some(vcpu.into_parts().1);
    }

    /// Reads bytes of a space from an address on, as many as there is room for, and answers how that ended, in which
    /// generation. A byte that nothing answers reads as 0. QEMU's core, `address_space_read`. It never waits.
    pub fn read(&mut self, space: SpaceId, addr: u64, out: &mut [u8]) -> Access
        ensures { HasAccessed self.old space addr (reading (length out.old)) result out.new self.new }
    {
        let Some(pass) = self.pass.take() else {
            unreachable!()
        };
        let mut vcpu = Vcpu::new(&self.cabinet, pass);
        let access = vcpu.read(space, addr, out);
        self.pass = Some(vcpu.into_parts().1);
        access
    }

    /// Writes bytes to a space from an address on, each part of a word by at most `tries` exchanges, and answers how many of the first bytes
    /// are written, how their write ended, and in which generation. QEMU's core, `address_space_write`. It never waits.
    pub fn write_bounded(&mut self, space: SpaceId, addr: u64, bytes: &[u8], tries: u32) -> Written
        ensures { HasWritten self.old space addr bytes.now tries result self.new }
    {
        let Some(mut pass) = self.pass.take() else {
            unreachable!()
        };
        let written = write_bounded(&self.cabinet, &mut pass, space, addr, bytes, tries);
        self.pass = Some(pass);
        written
    }

    /// Writes the eight bytes of a number, the lowest first, from an address on, and answers how that ended, in which
    /// generation. It never waits: where it would replace only a part of some word, it writes nothing and answers that.
    pub fn write8(&mut self, space: SpaceId, addr: u64, value: u64) -> Result<Access, NotWhole>
        ensures { MatchResult result (λ a. HasWritten8 self.old space addr value a self.new)
            (λ e. HasRefused self.old space addr value e.number self.new) }
    {
        let Some(pass) = self.pass.take() else {
            unreachable!()
        };
        let mut vcpu = Vcpu::new(&self.cabinet, pass);
        let done = vcpu.write8(space, addr, value);
        self.pass = Some(vcpu.into_parts().1);
        done
    }
}
