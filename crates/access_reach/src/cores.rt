// Accesses by the rounds of QEMU's core.
ghost use Rattle.std.specs.Prelude.{◌≡◌, ◌≤◌, ◌+◌, ◌^◌, [], length, true, false};
ghost use Rattle.mem_base.specs.access.AccessSteps.{reading, writing};
ghost use Rattle.access_plan.specs.Rounds.{IsSoundRound, bytes_in, reached_in};
ghost use Rattle.access_reach.specs.Asking.{outcome};
ghost use Rattle.access_reach.specs.Reaching.{HasReached};
ghost use Rattle.access_reach.specs.Rounds.{EndsRead, EndsWrite};

use crate::buses::{Answers, Takes};
use crate::{devices, leaves};
use access_base::{DONE, joined};
use access_plan::{Round, next_round};
use mem_base::{SpaceId, TxResult};

// How many bytes a round takes.
fn count_of(round: &Round) -> usize
    ensures { result ≡ bytes_in round.now }
{
    match round {
        Round::Route { count, .. } => *count,
        Round::Piece { piece, .. } => piece.size as usize,
    }
}

// Reads what a round takes.
fn read_round<B: Answers>(bus: &mut B, round: &Round, out: &mut [u8]) -> TxResult
    requires sound { IsSoundRound (B.shows bus.old).forest round.now }
    requires all { length out.old ≡ bytes_in round.now }
    ensures { HasReached B.asks bus.old (reached_in (B.shows bus.old).forest false round.now (reading (length out.old))) (outcome out.new result) bus.new }
{
    match round {
        Round::Route { leads, .. } => leaves::read(bus, leads, out),
        Round::Piece { region, ops, piece } => devices::read_piece(bus, *region, ops, piece, out),
    }
}

/// Reads bytes of a space by the rounds of QEMU's core: a device takes whole pieces, which the end of its range does not cut, and the
/// address is looked up again after each.
///
/// It asks the bus for what the core's plan reaches in its generation, in order and for nothing else, and answers how the access ended, as
/// `read` does. `None` where the access meets one of the last offsets of a device of 2^64 bytes, where a piece may end past them: then
/// it has asked for a first part of the plan. QEMU's core, `flatview_read_continue`. It takes no memory.
pub fn core_read<B: Answers>(
    bus: &mut B,
    space: SpaceId,
    addr: u64,
    out: &mut [u8],
) -> Option<TxResult>
    requires { addr + length out.old ≤ 2 ^ 64 }
    ensures { EndsRead B.asks bus.old (B.shows bus.old).forest space addr (length out.old) out.new result bus.new }
{
    let mut result = DONE;
    let mut done = 0;
    while done < out.len() {
        let left = out.len() - done;
        let Some(round) = next_round(bus.generation(), space, addr + done as u64, left, false)
        else {
            return None;
        };
        let count = count_of(&round);
        let mine = &mut out[done..done + count];
        result = joined(result, read_round(bus, &round, mine));
        done += count;
    }
    Some(result)
}

// Writes what a round takes.
fn write_round<B: Takes>(bus: &mut B, round: &Round, bytes: &[u8]) -> TxResult
    requires sound { IsSoundRound (B.shows bus.old).forest round.now }
    requires all { length bytes.now ≡ bytes_in round.now }
    ensures { HasReached B.asks bus.old (reached_in (B.shows bus.old).forest true round.now (writing bytes.now)) (outcome [] result) bus.new }
{
    match round {
        Round::Route { leads, .. } => leaves::write(bus, leads, bytes),
        Round::Piece { region, ops, piece } => devices::write_piece(
            bus, *region, ops, piece, bytes,
        ),
    }
}

/// Writes bytes to a space by the rounds of QEMU's core, as `core_read` reads them. QEMU's core, `flatview_write_continue`.
pub fn core_write<B: Takes>(
    bus: &mut B,
    space: SpaceId,
    addr: u64,
    bytes: &[u8],
) -> Option<TxResult>
    requires { addr + length bytes.now ≤ 2 ^ 64 }
    ensures { EndsWrite B.asks bus.old (B.shows bus.old).forest space addr bytes.now result bus.new }
{
    let mut result = DONE;
    let mut done = 0;
    while done < bytes.len() {
        let left = bytes.len() - done;
        let Some(round) = next_round(bus.generation(), space, addr + done as u64, left, true) else {
            return None;
        };
        let count = count_of(&round);
        let mine = &bytes[done..done + count];
        result = joined(result, write_round(bus, &round, mine));
        done += count;
    }
    Some(result)
}
