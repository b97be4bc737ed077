// How windows are opened.
ghost use Rattle.std.specs.Prelude.{◌≡◌, ◌≤◌, ◌+◌, ◌^◌, [], length, take, replicate, is_some, true, false, Some, if◌then◌else◌, MatchResult};
ghost use Rattle.mem_base.specs.access.AccessSteps.{result_of};
ghost use Rattle.vcpu_pass.specs.Steps.{generation_in};
ghost use Rattle.mem_base.specs.access.Windows.{is_direct, window_start, opening_steps};
ghost use Rattle.io_window.specs.Calls.{Does, HasNoBounce, HasOpened, IsOpened};

use crate::bounces::Bounce;
use crate::buffers::bytes_of;
use crate::closings::DONE;
use crate::direct::memory_at;
use crate::windows::{NoBounce, Window};
use epoch_rule::{Cabinet, Pass};
use generation::Generation;
use mem_base::{SpaceId, TxResult, WindowStart};
use vcpu_pass::{Vcpu, enter_unless, leave_unless, read_entered};

// Fills the first `count` bytes of a buffer with what is read, where the window is read; else with zeros.
fn fill(
    cabinet: &Cabinet<Generation>,
    pass: &mut Pass<Generation>,
    start: WindowStart,
    out: &mut [u8],
    count: usize,
) -> TxResult
    requires own { pass.old.cabinet ≡ cabinet.now.id }
    requires entered { is_some pass.old.edition ≡ true }
    requires most { count ≤ length out.old }
    ensures result { result ≡ result_of (opening_steps (generation_in pass.old).forest start false count) }
    ensures does { Does pass.old (opening_steps (generation_in pass.old).forest start false count)
        (if start.write then [] else take count out.new) pass.new }
    ensures zeros { start.write ≡ true → take count out.new ≡ replicate count 0 }
{
    let first = &mut out[..count];
    if start.write {
        first.fill(0);
        DONE
    } else {
        read_entered(cabinet, pass, start.space, start.addr, first)
    }
}

// A window that goes through a bounce.
fn bounced<'c>(
    cabinet: &'c Cabinet<Generation>,
    mut pass: Pass<Generation>,
    stays: bool,
    start: WindowStart,
    len: u64,
    bounce: Bounce,
) -> Window<'c>
    requires own { pass.cabinet ≡ cabinet.now.id }
    requires entered { is_some pass.edition ≡ true }
    requires indirect { is_direct (generation_in pass).forest start ≡ false }
    requires some { 1 ≤ len }
    ensures { IsOpened pass stays start len (Some bounce) result }
{
    let mut bytes = bounce.into_bytes();
    let count = (len as usize).min(bytes.len());
    let filling = fill(cabinet, &mut pass, start, bytes.as_mut_slice(), count);
    Window {
        cabinet,
        pass,
        stays,
        start,
        len: count as u64,
        memory: None,
        put_end: 0,
        buffer: Some(bytes),
        filling,
    }
}

/// Opens a window on `len` bytes of a space from an address on, to be read or to be written. QEMU's core,
/// `address_space_map`. It takes no memory.
///
/// The virtual CPU enters where it was not entered, and the window keeps it entered. The window is direct where the first byte leads to
/// RAM, ROM or a ROM device with its mode on, or to be written to RAM that is not read-only; it then ends where the first chunk of
/// the access ends. Else it goes through the bounce, and is as long as that has room: to be read, it is filled at once.
///
/// It is refused exactly where it is not direct and no bounce was handed in. The virtual CPU comes back, entered exactly where it
/// was, with the number of the generation in which it looked.
///
/// There is one byte at least, and none lies above 2^64 - 1.
pub fn open<'c>(
    vcpu: Vcpu<'c>,
    space: SpaceId,
    addr: u64,
    len: u64,
    write: bool,
    bounce: Option<Bounce>,
) -> Result<Window<'c>, (NoBounce, Vcpu<'c>, u64)>
    requires some { 1 ≤ len }
    requires within { addr + len ≤ 2 ^ 64 }
    ensures { MatchResult result (λ w. HasOpened vcpu.entry (window_start space addr write) len bounce w)
        (λ e. HasNoBounce vcpu.entry (window_start space addr write) bounce e.2 e.1) }
{
    let start = WindowStart { space, addr, write };
    let (cabinet, mut pass) = vcpu.into_parts();
    let stays = enter_unless(cabinet, &mut pass);
    // Its contract tells that the generation is the one that its Publish carried.
    pass.has_seen_legal();
    match memory_at(cabinet.generation(&pass), start, len) {
        Some((memory, count)) => Ok(Window {
            cabinet,
            pass,
            stays,
            start,
            len: count,
            memory: Some(memory),
            put_end: 0,
            buffer: bytes_of(bounce),
            filling: DONE,
        }),
        None => match bounce {
            Some(bounce) => Ok(bounced(cabinet, pass, stays, start, len, bounce)),
            None => {
                let number = leave_unless(cabinet, &mut pass, stays);
                Err((NoBounce, Vcpu::new(cabinet, pass), number))
            }
        },
    }
}
