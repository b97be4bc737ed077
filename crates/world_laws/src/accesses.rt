// Laws of whole accesses.
ghost use Rattle.world_laws.specs.Accessing.{AccessesArePossible};

/// After every legal history the events of each access by a pass to the forest of the generation in which it is entered
/// are possible one after another, where calls that fit their types made that forest; and after them the pass is
/// entered there still.
pub fn accesses_are_possible()
    ensures { AccessesArePossible }
{}
