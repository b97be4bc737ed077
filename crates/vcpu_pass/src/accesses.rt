// Whole accesses of a pass, entered or not.
ghost use Rattle.std.specs.Prelude.{◌≡◌, [], length, MatchResult};
ghost use Rattle.mem_base.specs.access.AccessSteps.{reading, writing};
ghost use Rattle.vcpu_pass.specs.Calls.{HasAccessed, HasRefused, HasWritten8};

use crate::entered::{read_entered, write_entered, write_whole_entered};
use crate::entering::{enter_unless, leave_unless};
use access_run::is_whole;
use epoch_rule::{Cabinet, Pass};
use generation::Generation;
use mem_base::{Access, SpaceId};
use std::sync::Wait;

/// A read; where the pass is not entered, it enters before and leaves after.
pub(crate) fn read(
    cabinet: &Cabinet<Generation>,
    pass: &mut Pass<Generation>,
    space: SpaceId,
    addr: u64,
    out: &mut [u8],
) -> Access
    requires own { pass.old.cabinet ≡ cabinet.now.id }
    ensures { HasAccessed pass.old space addr (reading (length out.old)) result out.new pass.new }
{
    let entered = enter_unless(cabinet, pass);
    let result = read_entered(cabinet, pass, space, addr, out);
    let number = leave_unless(cabinet, pass, entered);
    Access { result, number }
}

/// A write, in the same way.
pub(crate) fn write<R: Wait>(
    rt: &R,
    cabinet: &Cabinet<Generation>,
    pass: &mut Pass<Generation>,
    space: SpaceId,
    addr: u64,
    bytes: &[u8],
) -> Access
    requires own { pass.old.cabinet ≡ cabinet.now.id }
    ensures { HasAccessed pass.old space addr (writing bytes.now) result [] pass.new }
{
    let entered = enter_unless(cabinet, pass);
    let result = write_entered(rt, cabinet, pass, space, addr, bytes);
    let number = leave_unless(cabinet, pass, entered);
    Access { result, number }
}

/// A write of one word, in the same way; an `Err` has the number of the generation in which it would replace only a part
/// of some word.
pub(crate) fn write8(
    cabinet: &Cabinet<Generation>,
    pass: &mut Pass<Generation>,
    space: SpaceId,
    addr: u64,
    value: u64,
) -> Result<Access, u64>
    requires own { pass.old.cabinet ≡ cabinet.now.id }
    ensures { MatchResult result (λ a. HasWritten8 pass.old space addr value a pass.new)
        (λ number. HasRefused pass.old space addr value number pass.new) }
{
    let entered = enter_unless(cabinet, pass);
    let bytes = value.to_le_bytes();
    let whole = is_whole(cabinet.generation(pass), space, addr, &bytes);
    if !whole {
        return Err(leave_unless(cabinet, pass, entered));
    }
    let result = write_whole_entered(cabinet, pass, space, addr, &bytes);
    let number = leave_unless(cabinet, pass, entered);
    Ok(Access { result, number })
}
