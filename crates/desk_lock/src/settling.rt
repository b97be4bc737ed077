// Orders through the lock that wait for the passes that hold them up.
ghost use Rattle.std.specs.Prelude.{◌≡◌, ◌≤◌, ℕ, true, IfOk, OnErr};
ghost use Rattle.config_desk.specs.Settling.{tries_of};
ghost use Rattle.desk_orders.specs.Receipts.{IsReceipt};
ghost use Rattle.desk_lock.specs.Settled.{WroteHeld, WroteSettled, is_held_answer};

use crate::locks::{DeskLock, Naming};
use config_desk::Patience;
use desk_orders::{Clerk, Receipt};
use mem_base::{DeskAnswer, DeskOrder, Refusal};
use std::alloc::AllocError;
use std::sync::Wait;

// Whether a pass held the publish up.
fn was_held(answer: &DeskAnswer) -> bool
    ensures { result ≡ is_held_answer answer.now }
{
    match answer {
        DeskAnswer::Refused(Refusal::Held(_, _)) => true,
        _ => false,
    }
}

impl<J: Naming> DeskLock<J> {
    /// Gives an order as `order` does, and where a pass holds its publish up, gives it again, as often as `patience` says. Between two of these
    /// orders the lock is free, so others order meanwhile.
    ///
    /// Each is an order of its own, with an entry of its own in the record and in the clerk's list. The receipt is that of the last one: it
    /// tells `Held` only where each was held up. Out of memory the clerk's list has those that were held up before.
    pub fn order_settled<R: Wait>(
        &self,
        rt: &R,
        clerk: &mut Clerk,
        order: &DeskOrder,
        patience: &Patience,
    ) -> Result<Receipt, AllocError>
        ensures receipt { IfOk result (IsReceipt J.start.seat.cabinet order.now) }
        ensures clerk { IfOk result (λ r. (n : ℕ) × (n ≤ tries_of patience.now) × WroteSettled n clerk.old order.now r clerk.new) }
        ensures held { IfOk result (λ r. is_held_answer r.answer ≡ true
            → WroteSettled (tries_of patience.now) clerk.old order.now r clerk.new) }
        ensures err { OnErr result ((n : ℕ) × (n ≤ tries_of patience.now) × WroteHeld n clerk.old order.now clerk.new) }
    {
        let mut left = patience.tries();
        while left > 0 {
            let receipt = self.order(rt, clerk, order)?;
            if !was_held(&receipt.answer) {
                return Ok(receipt);
            }
            patience.wait(rt, left);
            left -= 1;
        }
        let receipt = self.order(rt, clerk, order)?;
        Ok(receipt)
    }
}
