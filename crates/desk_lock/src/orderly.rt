// A record and a lock take orders in one way.

use crate::locks::{DeskLock, Naming};
use crate::records::Record;
use desk_orders::{Clerk, Orderly, Receipt};
use mem_base::DeskOrder;
use std::alloc::AllocError;
use std::sync::Wait;

/// A lock, by one of the threads that share it.
pub struct Shared<'a, J: Naming> {
    pub lock: &'a DeskLock<J>,
}

impl<'a, J: Naming> Orderly for Shared<'a, J> {
    ghost cabinet = { λ s. J.start.seat.cabinet };

    ghost takes = { λ s who order r t. Unit {0} };

    fn give<R: Wait>(
        &mut self,
        rt: &R,
        clerk: &mut Clerk,
        order: &DeskOrder,
    ) -> Result<Receipt, AllocError> {
        let receipt = self.lock.order(rt, clerk, order)?;
        Ok(receipt)
    }
}

impl Orderly for Record {
    ghost use Rattle.desk_lock.specs.Turned.{Takes};

    ghost cabinet = { λ r. r.seat.cabinet };

    ghost takes = { Takes };

    fn give<R: Wait>(
        &mut self,
        rt: &R,
        clerk: &mut Clerk,
        order: &DeskOrder,
    ) -> Result<Receipt, AllocError> {
        clerk.got.reserve(1)?;
        let (receipt, entry) = self.take(rt, clerk.who, order)?;
        clerk.got.push_reserved(entry);
        Ok(receipt)
    }
}
