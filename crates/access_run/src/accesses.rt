// Accesses by a hand, over the engine of any bus.
ghost use Rattle.std.specs.Prelude.{◌≡◌, [], length};
ghost use Rattle.mem_base.specs.access.AccessSteps.{reading, result_of, writing};
ghost use Rattle.mem_base.specs.access.Access.{access};
ghost use Rattle.access_run.specs.Runs.{HasDone, TakesAll};

use crate::hands::{Reads, Writes};
use crate::words::Words;
use access_reach::{read_by, write_by};
use mem_base::{SpaceId, TxResult};

/// Reads bytes of a space from an address on, as many as there is room for.
///
/// It makes the events of the defined access to the forest of the hand's generation, in order and no others. It answers how
/// the access ended: an error where a device answered with one, a decode error where nothing answered some byte. All of `out` is
/// overwritten: a byte that nothing answers reads as 0, and so do a device's error and addresses above 2^64 - 1. QEMU's core, `address_space_read`. It takes no memory.
pub fn read<H: Reads>(hand: &mut H, space: SpaceId, addr: u64, out: &mut [u8]) -> TxResult
    ensures result { result ≡ result_of (access (H.shows hand.old).forest space addr (reading (length out.old))) }
    ensures done { HasDone H.makes (H.pass hand.old) hand.old
        (access (H.shows hand.old).forest space addr (reading (length out.old))) out.new hand.new }
{
    let mut words = Words { hand };
    read_by(&mut words, space, addr, out)
}

/// Writes bytes to a space from an address on.
///
/// It makes the events of the defined access to the forest of the hand's generation, in order and no others. It answers how
/// the access ended: an error where a device answered with one, a decode error where nothing took some byte, as at a
/// read-only leaf or above 2^64 - 1; the other chunks are written all the same. It asks for a hand that takes each of these steps.
/// QEMU's core, `address_space_write`. It takes no memory.
pub fn write<H: Writes>(hand: &mut H, space: SpaceId, addr: u64, bytes: &[u8]) -> TxResult
    requires { TakesAll (H.takes hand.old) (access (H.shows hand.old).forest space addr (writing bytes.now)) }
    ensures result { result ≡ result_of (access (H.shows hand.old).forest space addr (writing bytes.now)) }
    ensures done { HasDone H.makes (H.pass hand.old) hand.old (access (H.shows hand.old).forest space addr (writing bytes.now)) [] hand.new }
{
    let mut words = Words { hand };
    write_by(&mut words, space, addr, bytes)
}
