// Laws of the regions that a forest names.
ghost use Rattle.view_laws.specs.Named.{NamesAreLeaves, EventsAreShown};

/// A forest names a region exactly where some address of some space has it as its leaf.
pub fn names_are_leaves()
    ensures { NamesAreLeaves }
{}

/// A forest shows an ioeventfd exactly where a region that it names has one.
pub fn events_are_shown()
    ensures { EventsAreShown }
{}
