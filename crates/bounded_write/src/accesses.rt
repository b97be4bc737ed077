// Whole writes of a pass, entered or not.
ghost use Rattle.std.specs.Prelude.{◌≡◌};
ghost use Rattle.bounded_write.specs.Writes.{HasWritten};

use crate::chunks::write_entered;
use epoch_rule::{Cabinet, Pass};
use generation::Generation;
use mem_base::{Access, SpaceId};
use vcpu_pass::{enter_unless, leave_unless};

/// How a write ended that may be given up: how many of the first bytes are written, and how their write ended, in which generation.
#[derive(Clone, Copy, Debug, PartialEq, Eq)]
pub struct Written {
    pub access: Access,
    pub count: usize,
    /// Where not all bytes are written: a device has taken the first callbacks of the access that comes next.
    pub begun: bool,
}

/// Writes bytes to a space from an address on, as `write` of a `Vcpu` does, and never waits: each part of a word is tried by at most `tries`
/// exchanges. QEMU's core, `address_space_write`. It takes no memory.
///
/// It answers how many of the first bytes are written: all, or those before a word, or a device's access, that others changed each time that
/// it was tried. Of bytes that are not written in memory no mark is set. The pass must be of this cabinet; it enters before and leaves after
/// where it is not entered.
pub fn write_bounded(
    cabinet: &Cabinet<Generation>,
    pass: &mut Pass<Generation>,
    space: SpaceId,
    addr: u64,
    bytes: &[u8],
    tries: u32,
) -> Written
    requires own { pass.old.cabinet ≡ cabinet.now.id }
    ensures written { HasWritten pass.old space addr bytes.now tries result pass.new }
    ensures own { pass.new.cabinet ≡ pass.old.cabinet }
{
    let entered = enter_unless(cabinet, pass);
    let part = write_entered(cabinet, pass, space, addr, bytes, tries);
    let number = leave_unless(cabinet, pass, entered);
    Written {
        access: Access {
            result: part.result,
            number,
        },
        count: part.count,
        begun: part.begun,
    }
}
