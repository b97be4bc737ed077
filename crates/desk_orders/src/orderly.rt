// One way to order, of a record by itself and of a lock that threads share.
ghost use Rattle.std.specs.Prelude.{◌≡◌, IfOk, OnErr};
ghost use Rattle.desk_orders.specs.Clerks.{wrote_down};
ghost use Rattle.desk_orders.specs.Receipts.{IsReceipt};

use crate::clerks::Clerk;
use crate::orders::Receipt;
use mem_base::DeskOrder;
use std::alloc::AllocError;
use std::sync::Wait;

/// What takes orders.
pub trait Orderly {
    ghost use Rattle.std.specs.Prelude.{ℕ};
    ghost use Rattle.atomic_table.specs.Seated.{TableId};
    ghost use Rattle.mem_base.specs.declared.machine.records.DeskOrder.{DeskOrder};
    ghost use Rattle.desk_orders.specs.declared.orders.Receipt.{Receipt};

    /// The cabinet whose writer it asks.
    ghost cabinet: { Self → TableId };

    /// What is known of it after an order of someone, by the receipt: of a record all, and of a lock nothing.
    ghost takes: { Self → ℕ → DeskOrder → Receipt → Self → Type 0 };

    /// Gives an order, and appends it with what it got to the clerk's list. Out of memory nothing is other than before.
    fn give<R: Wait>(
        &mut self,
        rt: &R,
        clerk: &mut Clerk,
        order: &DeskOrder,
    ) -> Result<Receipt, AllocError>
        ensures receipt { IfOk result (IsReceipt (cabinet self.old) order.now) }
        ensures same { cabinet self.new ≡ cabinet self.old }
        ensures takes { IfOk result (λ r. takes self.old clerk.old.who order.now r self.new) }
        ensures clerk { IfOk result (λ r. clerk.new ≡ wrote_down clerk.old order.now r) }
        ensures unchanged { OnErr result (self.new ≡ self.old) }
        ensures err { OnErr result (clerk.new ≡ clerk.old) };
}
