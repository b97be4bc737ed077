// What is told of what the writer's desk answers.
ghost use Rattle.std.specs.Prelude.{◌≡◌, ◌≢◌, Err, IfOk, OnErr};
ghost use Rattle.mem_base.specs.machine.Answers.{answer_with, call_answer, commit_answer, harvest_answer, plain_answer, reap_answer};
ghost use Rattle.mem_base.specs.machine.Records.{told};

use mem_base::{Applied, DeskAnswer, Ids, Pages, Refusal, RegionId};
use std::alloc::AllocError;

/// What is told of a begin, a load, or a listener that joins or leaves. Want of memory is told as that.
pub fn told_plain(done: Result<(), Refusal>) -> Result<DeskAnswer, AllocError>
    ensures told { IfOk result (λ answer. answer ≡ told (plain_answer done)) }
    ensures other { IfOk result (λ answer. answer ≢ DeskAnswer.Refused Refusal.Memory) }
    ensures done { IfOk result (λ answer. done ≢ Err Refusal.Memory) }
    ensures memory { OnErr result (done ≡ Err Refusal.Memory) }
{
    match done {
        Ok(()) => Ok(DeskAnswer::Done),
        Err(Refusal::Memory) => Err(AllocError),
        Err(why) => Ok(DeskAnswer::Refused(why)),
    }
}

/// What is told of a call. Want of memory is told as that.
pub fn told_call(done: Result<(Applied, Option<u64>), Refusal>) -> Result<DeskAnswer, AllocError>
    ensures told { IfOk result (λ answer. answer ≡ told (call_answer done)) }
    ensures other { IfOk result (λ answer. answer ≢ DeskAnswer.Refused Refusal.Memory) }
    ensures done { IfOk result (λ answer. done ≢ Err Refusal.Memory) }
    ensures memory { OnErr result (done ≡ Err Refusal.Memory) }
{
    match done {
        Ok((applied, number)) => Ok(DeskAnswer::Called { applied, number }),
        Err(Refusal::Memory) => Err(AllocError),
        Err(why) => Ok(DeskAnswer::Refused(why)),
    }
}

/// What is told of a commit. Want of memory is told as that.
pub fn told_commit(done: Result<Option<u64>, Refusal>) -> Result<DeskAnswer, AllocError>
    ensures told { IfOk result (λ answer. answer ≡ told (commit_answer done)) }
    ensures other { IfOk result (λ answer. answer ≢ DeskAnswer.Refused Refusal.Memory) }
    ensures done { IfOk result (λ answer. done ≢ Err Refusal.Memory) }
    ensures memory { OnErr result (done ≡ Err Refusal.Memory) }
{
    match done {
        Ok(number) => Ok(DeskAnswer::Committed(number)),
        Err(Refusal::Memory) => Err(AllocError),
        Err(why) => Ok(DeskAnswer::Refused(why)),
    }
}

/// What is told of a reap. Want of memory is told as that.
pub fn told_reap(done: Result<Vec<RegionId>, Refusal>) -> Result<DeskAnswer, AllocError>
    ensures told { IfOk result (λ answer. answer ≡ told (reap_answer (answer_with (λ v. v.items) done))) }
    ensures other { IfOk result (λ answer. answer ≢ DeskAnswer.Refused Refusal.Memory) }
    ensures done { IfOk result (λ answer. done ≢ Err Refusal.Memory) }
    ensures memory { OnErr result (done ≡ Err Refusal.Memory) }
{
    match done {
        Ok(regions) => Ok(DeskAnswer::Released(Ids::new(regions))),
        Err(Refusal::Memory) => Err(AllocError),
        Err(why) => Ok(DeskAnswer::Refused(why)),
    }
}

/// What is told of a harvest. Want of memory is told as that.
pub fn told_harvest(done: Result<Vec<u64>, Refusal>) -> Result<DeskAnswer, AllocError>
    ensures told { IfOk result (λ answer. answer ≡ told (harvest_answer (answer_with (λ v. v.items) done))) }
    ensures other { IfOk result (λ answer. answer ≢ DeskAnswer.Refused Refusal.Memory) }
    ensures done { IfOk result (λ answer. done ≢ Err Refusal.Memory) }
    ensures memory { OnErr result (done ≡ Err Refusal.Memory) }
{
    match done {
        Ok(pages) => Ok(DeskAnswer::Pages(Pages::new(pages))),
        Err(Refusal::Memory) => Err(AllocError),
        Err(why) => Ok(DeskAnswer::Refused(why)),
    }
}
