// A copy from one place of the guest to another, by windows.
ghost use Rattle.std.specs.Prelude.{◌≡◌, ◌≤◌, ◌+◌, ◌^◌, length};
ghost use Rattle.io_window.specs.Copies.{HasCopied};

use crate::bounces::Bounce;
use crate::moves::{joined, read_by_windows, write_by_windows};
use mem_base::{Access, SpaceId};
use std::sync::Wait;
use vcpu_pass::{Vcpu, enter_unless, leave_unless};

/// Reads bytes at one address and writes them at another, by windows, in one entry of the virtual CPU.
///
/// It enters and leaves by itself where it is not entered. No byte lies above 2^64 - 1, and the bounce has room for all of them.
/// Bytes of a part that nothing answers are 0, and these zeros are written.
pub fn copy<'c, R: Wait>(
    rt: &R,
    vcpu: Vcpu<'c>,
    bounce: Bounce,
    from: (SpaceId, u64),
    to: (SpaceId, u64),
    bytes: &mut [u8],
) -> (Vcpu<'c>, Bounce, Access)
    requires source { from.1 + length bytes.old ≤ 2 ^ 64 }
    requires target { to.1 + length bytes.old ≤ 2 ^ 64 }
    requires room { length bytes.old ≤ bounce }
    ensures copied { HasCopied vcpu.entry from to (length bytes.old) result.2 bytes.new result.0 }
    ensures room { result.1 ≡ bounce }
{
    let (cabinet, mut pass) = vcpu.into_parts();
    let stays = enter_unless(cabinet, &mut pass);
    let vcpu = Vcpu::new(cabinet, pass);
    let (vcpu, bounce, read) = read_by_windows(rt, vcpu, bounce, from.0, from.1, bytes);
    let (vcpu, bounce, wrote) = write_by_windows(rt, vcpu, bounce, to.0, to.1, bytes);
    let (cabinet, mut pass) = vcpu.into_parts();
    let number = leave_unless(cabinet, &mut pass, stays);
    let result = joined(read, wrote);
    (Vcpu::new(cabinet, pass), bounce, Access { result, number })
}
