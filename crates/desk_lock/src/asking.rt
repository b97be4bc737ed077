// The desk is asked: each order is the call of the writer's desk that it names.
ghost use Rattle.std.specs.Prelude.{◌≡◌, ◌≢◌, IfOk, OnErr};
ghost use Rattle.desk_lock.specs.Turned.{IsAsked, TellsNumber};

use config_desk::Config;
use desk_orders::{told_call, told_commit, told_harvest, told_plain, told_reap};
use mem_base::{DeskAnswer, DeskOrder, Edition, Refusal};
use std::alloc::AllocError;
use std::sync::Wait;

/// Asks the desk for what an order says: the turn of that. Out of memory nothing has happened.
pub(crate) fn ask<R: Wait>(
    rt: &R,
    config: &mut Config,
    order: &DeskOrder,
) -> Result<DeskAnswer, AllocError>
    ensures asked { IfOk result (λ answer. IsAsked config.old order.now answer config.new) }
    ensures other { IfOk result (λ answer. answer ≢ DeskAnswer.Refused Refusal.Memory) }
    ensures number { IfOk result (λ answer. TellsNumber config.old.part order.now answer) }
    ensures err { OnErr result (config.new ≡ config.old) }
{
    match order {
        DeskOrder::Begin => {
            let answer = told_plain(config.begin())?;
            Ok(answer)
        }
        DeskOrder::Call(call) => {
            let answer = told_call(config.call(call))?;
            Ok(answer)
        }
        DeskOrder::Commit => {
            let answer = told_commit(config.commit())?;
            Ok(answer)
        }
        DeskOrder::Reap => {
            let answer = told_reap(config.reap())?;
            Ok(answer)
        }
        DeskOrder::Listen {
            listener,
            space,
            priority,
        } => {
            let answer = told_plain(config.listen(*listener, *space, *priority))?;
            Ok(answer)
        }
        DeskOrder::Unlisten(listener) => {
            let answer = told_plain(config.unlisten(*listener))?;
            Ok(answer)
        }
        DeskOrder::Load {
            region,
            offset,
            bytes,
        } => {
            let answer = told_plain(config.load_bytes(rt, *region, *offset, bytes.as_slice()))?;
            Ok(answer)
        }
        DeskOrder::Harvest { region, client } => {
            let answer = told_harvest(config.harvest(*region, *client))?;
            Ok(answer)
        }
        DeskOrder::Notified(number) => Ok(DeskAnswer::Value(config.notified(*number))),
        DeskOrder::Look => Ok(DeskAnswer::Looked(config.current().number())),
    }
}
