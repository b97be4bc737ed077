// Laws of receipts, of records that grow, and of clerks' lists.
ghost use Rattle.desk_orders.specs.Laws.{ClosesOneWay, FirstIsEmpty, LaterMakesTurns, ReceiptsStay};

/// Where a record grew, the writer's entries in the history that came since are those of the turns of the orders, and the later entries
/// are those that the orders have.
pub fn later_makes_turns()
    ensures { LaterMakesTurns }
{}

/// What a receipt tells is true of every history that begins with what its note had seen: the generation that is answered is no newer than
/// the current one, and shows the call that was ordered.
pub fn receipts_stay()
    ensures { ReceiptsStay }
{}

/// Generation 0 is the empty forest.
pub fn first_is_empty()
    ensures { FirstIsEmpty }
{}

/// The clerks' lists are what the record has, or differ, and not both.
pub fn closes_one_way()
    ensures { ClosesOneWay }
{}
