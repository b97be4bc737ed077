// A copy from one place of the guest to another, by windows.
ghost use Rattle.std.specs.Prelude.{◌≡◌, ◌≤◌, length};
ghost use Rattle.pass_lines.specs.Doing.{HasCopied, IsInItsGeneration};

use crate::clips::{read_clipped, write_clipped};
use io_window::{Bounce, joined};
use mem_base::{Access, SpaceId};
use std::sync::Wait;
use vcpu_pass::{Vcpu, enter_unless, leave_unless};

/// Reads bytes at one address and writes them at another, by windows, in one entry of the virtual CPU. QEMU's `dma_memory_read` and
/// `dma_memory_write`, in one generation.
///
/// It enters and leaves by itself where it is not entered. Bytes of a part that nothing answers are 0, also above 2^64 - 1, and these zeros
/// are written. The bounce has room for all bytes.
pub(crate) fn copy_bytes<'c, R: Wait>(
    rt: &R,
    vcpu: Vcpu<'c>,
    bounce: Bounce,
    from: (SpaceId, u64),
    to: (SpaceId, u64),
    bytes: &mut [u8],
) -> (Vcpu<'c>, Bounce, Access)
    requires room { length bytes.old ≤ bounce }
    requires inside { IsInItsGeneration vcpu }
    ensures copied { HasCopied vcpu.entry from to (length bytes.old) result.2 result.0 }
    ensures room { result.1 ≡ bounce }
{
    let (cabinet, mut pass) = vcpu.into_parts();
    let stays = enter_unless(cabinet, &mut pass);
    let vcpu = Vcpu::new(cabinet, pass);
    let (vcpu, bounce, read) = read_clipped(rt, vcpu, bounce, from.0, from.1, bytes);
    let (vcpu, bounce, wrote) = write_clipped(rt, vcpu, bounce, to.0, to.1, bytes);
    let (cabinet, mut pass) = vcpu.into_parts();
    let number = leave_unless(cabinet, &mut pass, stays);
    let result = joined(read, wrote);
    (Vcpu::new(cabinet, pass), bounce, Access { result, number })
}
