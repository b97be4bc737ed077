// Laws of records and receipts.
ghost use Rattle.epoch_rule.specs.Rule.{IsLegal};
ghost use Rattle.config_desk.specs.SeenLaws.{HasSeenAll};
ghost use Rattle.desk_orders.specs.Laws.{ClosesOneWay, FirstIsEmpty, ReceiptsStay};
ghost use Rattle.desk_orders.specs.Laws.{LaterMakesTurns};
ghost use Rattle.desk_lock.specs.Laws.{RecordsGrow};
ghost use Rattle.desk_orders.specs.Records.{IsRecord};

use crate::records::Record;

impl Record {
    /// A law: the entries are those of orders that fit, and so are the writer's own entries in what its seat has seen, and the writer's
    /// part. It does nothing.
    pub fn goes_by_orders(&self)
        ensures { IsRecord self.now }
    {
        let _ = &self.config;
    }

    /// A law: what the seat has seen is a legal history. It does nothing.
    pub fn has_seen_legal(&self)
        ensures { IsLegal self.now.seat.sizes self.now.seat.seen }
    {
        self.config.has_seen_shared();
    }

    /// A law: where no pass is out, what the seat has seen is the whole history of the machine. It does nothing.
    pub fn has_seen_all(&self)
        ensures { HasSeenAll self.now.seat }
    {
        self.config.has_seen_all();
    }
}

/// A record grows by nothing, by an order that it takes, and on from there.
pub fn records_grow()
    ensures { RecordsGrow }
{}
