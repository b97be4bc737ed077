// What a virtual CPU does for a line of a script.
ghost use Rattle.std.specs.Prelude.{◌≡◌, ◌≤◌, IfOk, OnErr};
ghost use Rattle.mem_base.specs.access.AccessSteps.{reading, writing};
ghost use Rattle.mem_base.specs.script.Tasks.{accessed, copied, entered, left};
ghost use Rattle.pass_lines.specs.Doing.{DoesLine, IsInItsGeneration};

use crate::answers::LineAnswer;
use crate::copies::copy_bytes;
use io_window::Bounce;
use mem_base::{Bytes, SpaceId};
use std::alloc::{AllocError, Global};
use std::sync::Wait;
use vcpu_pass::Vcpu;

/// `vN enter`: the virtual CPU enters the current generation, and leaves first where it is entered.
pub fn enter(vcpu: &mut Vcpu<'_>) -> LineAnswer
    requires inside { IsInItsGeneration vcpu.old }
    ensures { DoesLine vcpu.old entered result vcpu.new }
{
    LineAnswer::Entered(vcpu.enter())
}

/// `vN leave`: it leaves the generation in which it is entered, if any.
pub fn leave(vcpu: &mut Vcpu<'_>) -> LineAnswer
    requires inside { IsInItsGeneration vcpu.old }
    ensures { DoesLine vcpu.old left result vcpu.new }
{
    vcpu.leave();
    LineAnswer::Left
}

/// `vN read SPACE ADDR LEN`: it reads `len` bytes of a space from an address on. Out of memory nothing was done.
pub fn read(
    alloc: Global,
    vcpu: &mut Vcpu<'_>,
    space: SpaceId,
    addr: u64,
    len: u8,
) -> Result<LineAnswer, AllocError>
    requires inside { IsInItsGeneration vcpu.old }
    ensures done { IfOk result (λ answer. DoesLine vcpu.old (accessed space addr (reading len)) answer vcpu.new) }
    ensures unchanged { OnErr result (vcpu.new ≡ vcpu.old) }
{
    let mut bytes = vec![in alloc; 0u8; len as usize]?;
    let access = vcpu.read(space, addr, bytes.as_mut_slice());
    let bytes = Bytes::new(bytes);
    Ok(LineAnswer::Read { access, bytes })
}

/// `vN write SPACE ADDR BYTES`: it writes bytes to a space from an address on. It may wait where it replaces a part of a word.
pub fn write<R: Wait>(
    rt: &R,
    vcpu: &mut Vcpu<'_>,
    space: SpaceId,
    addr: u64,
    bytes: &[u8],
) -> LineAnswer
    requires inside { IsInItsGeneration vcpu.old }
    ensures { DoesLine vcpu.old (accessed space addr (writing bytes.now)) result vcpu.new }
{
    LineAnswer::Wrote(vcpu.write(rt, space, addr, bytes))
}

/// `vN dma SPACE ADDR LEN to SPACE ADDR`: it reads `len` bytes of a space from an address on, and writes them to a space from another
/// address on, all in one generation.
///
/// The bytes are moved by windows, through the bounce where a window is not direct. Bytes of a part that nothing answers are 0, also those
/// above 2^64 - 1, and these zeros are written; nothing is written above 2^64 - 1. The bounce has room for all bytes. Out of
/// memory nothing was done.
pub fn copy<'c, R: Wait>(
    rt: &R,
    alloc: Global,
    vcpu: Vcpu<'c>,
    bounce: Bounce,
    from: (SpaceId, u64),
    to: (SpaceId, u64),
    len: u8,
) -> (Vcpu<'c>, Bounce, Result<LineAnswer, AllocError>)
    requires inside { IsInItsGeneration vcpu }
    requires room { len ≤ bounce }
    ensures done { IfOk result.2 (λ answer. DoesLine vcpu.entry (copied from.0 from.1 len to.0 to.1) answer result.0) }
    ensures unchanged { OnErr result.2 (result.0 ≡ vcpu.entry) }
    ensures room { result.1 ≡ bounce }
{
    match vec![in alloc; 0u8; len as usize] {
        Ok(mut bytes) => {
            let (vcpu, bounce, access) = copy_bytes(
                rt,
                vcpu,
                bounce,
                from,
                to,
                bytes.as_mut_slice(),
            );
            (vcpu, bounce, Ok(LineAnswer::Copied(access)))
        }
        Err(error) => (vcpu, bounce, Err(error)),
    }
}
