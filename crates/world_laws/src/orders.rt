// Laws of the writer's calls.
ghost use Rattle.world_laws.specs.Legal.{OrdersAreLegal};

/// After every legal history in which nothing is due or unfilled at the end, the events of each call of the writer are
/// possible one after another, and when they have happened nothing is due or unfilled again.
pub fn orders_are_legal()
    ensures { OrdersAreLegal }
{}
