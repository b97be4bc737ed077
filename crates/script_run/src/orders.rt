// The machine is asked for what an order says: each order is the call of the writer that it names.
ghost use Rattle.std.specs.Prelude.{◌≡◌, ◌≢◌, Err, IfOk, true};
ghost use Rattle.mem_base.specs.machine.World.{is_at_rest};
ghost use Rattle.mem_base.specs.machine.Answers.{answer_with, call_answer, commit_answer, harvest_answer, plain_answer, reap_answer};
ghost use Rattle.mem_base.specs.machine.Records.{told};
ghost use Rattle.script_run.specs.Asking.{IsAnswered};

use mem_base::{Applied, DeskAnswer, DeskOrder, Edition, Ids, Pages, Refusal, RegionId};
use script_machine::Machine;
use std::alloc::AllocError;

// What is told of a begin, a load, or a listener that joins or leaves. A run ends where memory ran out.
fn told_plain(done: Result<(), Refusal>) -> Result<DeskAnswer, AllocError>
    ensures told { IfOk result (λ answer. answer ≡ told (plain_answer done)) }
    ensures done { IfOk result (λ answer. done ≢ Err Refusal.Memory) }
{
    match done {
        Ok(()) => Ok(DeskAnswer::Done),
        Err(Refusal::Memory) => Err(AllocError),
        Err(why) => Ok(DeskAnswer::Refused(why)),
    }
}

// What is told of a call.
fn told_call(done: Result<(Applied, Option<u64>), Refusal>) -> Result<DeskAnswer, AllocError>
    ensures told { IfOk result (λ answer. answer ≡ told (call_answer done)) }
    ensures done { IfOk result (λ answer. done ≢ Err Refusal.Memory) }
{
    match done {
        Ok((applied, number)) => Ok(DeskAnswer::Called { applied, number }),
        Err(Refusal::Memory) => Err(AllocError),
        Err(why) => Ok(DeskAnswer::Refused(why)),
    }
}

// What is told of a commit.
fn told_commit(done: Result<Option<u64>, Refusal>) -> Result<DeskAnswer, AllocError>
    ensures told { IfOk result (λ answer. answer ≡ told (commit_answer done)) }
    ensures done { IfOk result (λ answer. done ≢ Err Refusal.Memory) }
{
    match done {
        Ok(number) => Ok(DeskAnswer::Committed(number)),
        Err(Refusal::Memory) => Err(AllocError),
        Err(why) => Ok(DeskAnswer::Refused(why)),
    }
}

// What is told of a reap.
fn told_reap(done: Result<Vec<RegionId>, Refusal>) -> Result<DeskAnswer, AllocError>
    ensures told { IfOk result (λ answer. answer ≡ told (reap_answer (answer_with (λ v. v.items) done))) }
    ensures done { IfOk result (λ answer. done ≢ Err Refusal.Memory) }
{
    match done {
        Ok(regions) => Ok(DeskAnswer::Released(Ids::new(regions))),
        Err(Refusal::Memory) => Err(AllocError),
        Err(why) => Ok(DeskAnswer::Refused(why)),
    }
}

// What is told of a harvest.
fn told_harvest(done: Result<Vec<u64>, Refusal>) -> Result<DeskAnswer, AllocError>
    ensures told { IfOk result (λ answer. answer ≡ told (harvest_answer (answer_with (λ v. v.items) done))) }
    ensures done { IfOk result (λ answer. done ≢ Err Refusal.Memory) }
{
    match done {
        Ok(pages) => Ok(DeskAnswer::Pages(Pages::new(pages))),
        Err(Refusal::Memory) => Err(AllocError),
        Err(why) => Ok(DeskAnswer::Refused(why)),
    }
}

// Asks the machine for what an order says, and gives its answer.
pub(crate) fn ask<M: Machine>(machine: &mut M, order: &DeskOrder) -> Result<DeskAnswer, AllocError>
    requires { is_at_rest (M.world machine.old).writer.desk ≡ true }
    ensures { IfOk result (λ answer. IsAnswered (M.world machine.old) order.now answer (M.world machine.new)) }
{
    match order {
        DeskOrder::Begin => {
            let answer = told_plain(machine.begin())?;
            Ok(answer)
        }
        DeskOrder::Call(call) => {
            let answer = told_call(machine.call(call))?;
            Ok(answer)
        }
        DeskOrder::Commit => {
            let answer = told_commit(machine.commit())?;
            Ok(answer)
        }
        DeskOrder::Reap => {
            let answer = told_reap(machine.reap())?;
            Ok(answer)
        }
        DeskOrder::Listen {
            listener,
            space,
            priority,
        } => {
            let answer = told_plain(machine.listen(*listener, *space, *priority))?;
            Ok(answer)
        }
        DeskOrder::Unlisten(listener) => {
            let answer = told_plain(machine.unlisten(*listener))?;
            Ok(answer)
        }
        DeskOrder::Load {
            region,
            offset,
            bytes,
        } => {
            let answer = told_plain(machine.load_bytes(*region, *offset, bytes.as_slice()))?;
            Ok(answer)
        }
        DeskOrder::Harvest { region, client } => {
            let answer = told_harvest(machine.harvest(*region, *client))?;
            Ok(answer)
        }
        DeskOrder::Notified(number) => Ok(DeskAnswer::Value(machine.notified(*number))),
        DeskOrder::Look => Ok(DeskAnswer::Looked(machine.current().number())),
    }
}
