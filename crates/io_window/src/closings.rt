// What closing a window does before the leave.
ghost use Rattle.std.specs.Prelude.{◌≡◌, ◌≤◌, [], length, is_some, option_map, true, IsSomeAnd};
ghost use Rattle.mem_base.specs.access.AccessSteps.{result_of};
ghost use Rattle.vcpu_pass.specs.Steps.{generation_in};
ghost use Rattle.mem_base.specs.access.Windows.{closing_steps, flush_steps, closing_result};
ghost use Rattle.io_window.specs.Windows.{IsBacked, held_in};
ghost use Rattle.io_window.specs.Calls.{Does};

use crate::direct::Memory;
use epoch_rule::{Cabinet, Pass};
use generation::Generation;
use mem_base::{TxResult, WindowStart};
use std::sync::Wait;
use vcpu_pass::{mark_memory, write_entered};

/// All was done.
pub(crate) const DONE: TxResult = TxResult {
    error: false,
    decode: false,
};

// Writes the first bytes of a bounce, where there are any.
fn flush<R: Wait>(
    rt: &R,
    cabinet: &Cabinet<Generation>,
    pass: &mut Pass<Generation>,
    start: WindowStart,
    buffer: &Option<Vec<u8>>,
    used: u64,
) -> TxResult
    requires own { pass.old.cabinet ≡ cabinet.now.id }
    requires entered { is_some pass.old.edition ≡ true }
    requires room { IsSomeAnd buffer.now (λ b. used ≤ length b.items) }
    ensures result { result ≡ result_of (flush_steps (generation_in pass.old).forest start used (held_in (option_map (λ b. b.items) buffer.now))) }
    ensures does { Does pass.old (flush_steps (generation_in pass.old).forest start used (held_in (option_map (λ b. b.items) buffer.now))) [] pass.new }
{
    if used == 0 {
        return DONE;
    }
    match buffer {
        Some(bytes) => {
            let first = &bytes[..used as usize];
            write_entered(rt, cabinet, pass, start.space, start.addr, first)
        }
        None => unreachable!(),
    }
}

/// What a window does as it is closed, with its first `used` bytes used, and how it ends.
pub(crate) fn close_steps<R: Wait>(
    rt: &R,
    cabinet: &Cabinet<Generation>,
    pass: &mut Pass<Generation>,
    start: WindowStart,
    memory: Option<Memory>,
    buffer: &Option<Vec<u8>>,
    used: u64,
    filling: TxResult,
) -> TxResult
    requires own { pass.old.cabinet ≡ cabinet.now.id }
    requires entered { is_some pass.old.edition ≡ true }
    requires backed { IsBacked (generation_in pass.old) start used memory (option_map (λ b. b.items) buffer.now) }
    ensures result { result ≡ closing_result (generation_in pass.old).forest start (is_some memory) filling used
        (held_in (option_map (λ b. b.items) buffer.now)) }
    ensures does { Does pass.old (closing_steps (generation_in pass.old).forest start (is_some memory) used
        (held_in (option_map (λ b. b.items) buffer.now))) [] pass.new }
{
    match memory {
        Some(memory) => {
            if start.write {
                mark_memory(
                    cabinet,
                    pass,
                    &memory.place,
                    memory.log,
                    memory.offset,
                    used,
                );
            }
            DONE
        }
        None => {
            if start.write {
                flush(rt, cabinet, pass, start, buffer, used)
            } else {
                filling
            }
        }
    }
}
