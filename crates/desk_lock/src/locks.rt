// The record behind a lock.
ghost use Rattle.std.specs.Prelude.{◌≡◌, ◌≤◌, IfOk, OnErr, MatchResult, None, Some, drop, length};
ghost use Rattle.mem_base.specs.machine.Records.{Closes};
ghost use Rattle.desk_orders.specs.Clerks.{wrote_down};
ghost use Rattle.desk_orders.specs.Receipts.{IsReceipt};
ghost use Rattle.desk_orders.specs.Records.{IsLater, later_entries};
ghost use Rattle.desk_orders.specs.Given.{entry_got};

use crate::records::Record;
use desk_orders::{Clerk, Receipt, differs_in};
use mem_base::{DeskEntry, DeskOrder, Differs};
use std::alloc::AllocError;
use std::marker::{Brand, Model, PhantomData};
use std::sync::{Mutex, Wait};

/// A name for what a lock began with. Each call of a program picks it.
pub trait Naming {
    ghost use Rattle.desk_orders.specs.Records.{RecordState};

    /// The record that was put behind the lock.
    ghost start: { RecordState };
}

impl Naming for Brand {
    ghost use Rattle.desk_orders.specs.Records.{no_record};

    ghost start = { no_record };
}

/// What lies behind the lock: the record that was put there, with more orders.
#[derive(Drop)]
struct Locked<J: Naming> {
    record: Record,
    of: PhantomData<J>,
}

impl<J: Naming> Model for Locked<J> {
    ghost use Rattle.desk_orders.specs.Records.{RecordState, IsLater};

    ghost Value = { RecordState };

    ghost view = { λ l. l.record };

    ghost invariant = { λ l. IsLater J.start l.record };
}

impl<J: Naming> Locked<J> {
    #[tactic(auto, using(desk_orders::proofs::RecordLaws::later_same))]
    fn new(first: Record) -> Locked<J>
        requires { first ≡ J.start }
    {
        Locked {
            record: first,
            of: PhantomData,
        }
    }

    #[tactic(auto, using(desk_orders::proofs::RecordLaws::later_joins))]
    fn order<R: Wait>(
        &mut self,
        rt: &R,
        who: u32,
        order: &DeskOrder,
    ) -> Result<(Receipt, DeskEntry), AllocError>
        ensures receipt { IfOk result (λ r. IsReceipt J.start.seat.cabinet order.now r.0) }
        ensures entry { IfOk result (λ r. r.1 ≡ entry_got who order.now r.0) }
    {
        let given = self.record.take(rt, who, order)?;
        Ok(given)
    }

    fn into_record(self) -> Record
        ensures { IsLater J.start result }
    {
        let Locked { record, of: _ } = self;
        record
    }
}

// Where the clerks' lists are not what the record has from this entry on.
fn differs_after(desk: &Record, kept: usize, clerks: &[Clerk]) -> Option<Differs>
    requires { kept ≤ length desk.now.entries }
    ensures { Closes (drop kept desk.now.entries) clerks.now result }
{
    let (_, later) = desk.entries().split_at(kept);
    differs_in(clerks, later)
}

/// A record behind a lock: any thread orders through it. The threads hold it one at a time, each for one order. It is of no value to
/// contracts: what is known of it is that the record that comes back is the one that was put there, with more orders.
#[derive(Drop)]
pub struct DeskLock<J: Naming> {
    locked: Mutex<Locked<J>>,
    kept: usize,
    ghost kept_is: { kept ≡ length J.start.entries },
}

impl<J: Naming> DeskLock<J> {
    /// The lock of a record, which gives it its name.
    pub fn new(first: Record) -> DeskLock<J>
        requires start { first ≡ J.start }
    {
        let kept = first.entries().len();
        DeskLock {
            locked: Mutex::new(Locked::new(first)),
            kept,
        }
    }

    /// Gives an order, and appends it with what it got to the clerk's list. It waits for the lock. Out of memory the clerk's list is as
    /// before.
    ///
    /// The answer is one that the order can have, and the receipt's note has seen published what it tells. It does not say who comes
    /// first.
    pub fn order<R: Wait>(
        &self,
        rt: &R,
        clerk: &mut Clerk,
        order: &DeskOrder,
    ) -> Result<Receipt, AllocError>
        ensures receipt { IfOk result (IsReceipt J.start.seat.cabinet order.now) }
        ensures clerk { IfOk result (λ r. clerk.new ≡ wrote_down clerk.old order.now r) }
        ensures err { OnErr result (clerk.new ≡ clerk.old) }
    {
        clerk.got.reserve(1)?;
        let (receipt, entry) = self.locked.lock(rt).order(rt, clerk.who, order)?;
        clerk.got.push_reserved(entry);
        Ok(receipt)
    }

    /// The record with all that was ordered, where each clerk's list is just what the record has later of its number, and each later entry
    /// has the number of a clerk; else the first difference beside the record: the first clerk whose list is other, with the first place
    /// that is, or where there is none the number of the first entry that is no clerk's, with 0.
    pub fn close(self, clerks: &[Clerk]) -> Result<Record, (Differs, Record)>
        ensures { MatchResult result
            (λ r. IsLater J.start r × Closes (later_entries J.start r) clerks.now None)
            (λ e. IsLater J.start e.1 × Closes (later_entries J.start e.1) clerks.now (Some e.0)) }
    {
        let DeskLock { locked, kept } = self;
        let record = locked.into_inner().into_record();
        let found = differs_after(&record, kept, clerks);
        match found {
            None => Ok(record),
            Some(differs) => Err((differs, record)),
        }
    }
}
