// An order is done: its turn, and what who ordered is told.
ghost use Rattle.std.specs.Prelude.{◌≡◌, IfOk, OnErr};
ghost use Rattle.epoch_rule.specs.Copies.{value_in};
ghost use Rattle.desk_orders.specs.Receipts.{IsReceipt};
ghost use Rattle.desk_lock.specs.Turned.{HandsCurrent, IsTurned};

use crate::asking::ask;
use config_desk::Config;
use desk_orders::Receipt;
use generation::Generation;
use mem_base::DeskOrder;
use std::alloc::{AllocError, Global};
use std::sync::{Arc, Wait};

// The current generation, for a look alone.
fn handed(config: &Config, order: &DeskOrder) -> Result<Option<Arc<Generation, Global>>, AllocError>
    ensures { IfOk result (λ current. HandsCurrent config.now.part order.now (value_in current)) }
{
    match order {
        DeskOrder::Look => {
            let current = Arc::try_clone(config.current())?;
            Ok(Some(current))
        }
        _ => Ok(None),
    }
}

/// Does an order, and tells its receipt. Out of memory nothing has happened.
pub(crate) fn turned<R: Wait>(
    rt: &R,
    config: &mut Config,
    order: &DeskOrder,
) -> Result<Receipt, AllocError>
    ensures receipt { IfOk result (IsReceipt config.old.seat.cabinet order.now) }
    ensures note { IfOk result (λ r. r.note.seen ≡ config.new.seat.seen) }
    ensures turn { IfOk result (λ r. IsTurned config.old order.now r config.new) }
    ensures err { OnErr result (config.new ≡ config.old) }
{
    let current = handed(config, order)?;
    let from = config.journal().len();
    let answer = ask(rt, config, order)?;
    // what the seat has seen is legal, and the writer's entries in it are those of turns, so it has seen published what is answered
    config.has_seen_shared();
    config.goes_by_turns();
    let to = config.journal().len();
    let note = config.note();
    Ok(Receipt {
        answer,
        from,
        to,
        note,
        current,
    })
}
