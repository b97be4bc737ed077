// Laws of the ioeventfds that an address space shows.
ghost use Rattle.view_laws.specs.LiveLists.{LivesAreLive, LivesAgree};

/// The live ioeventfds of a forest at a space, as a list, are just those of which some address of the space shows a
/// byte, in order, each once.
pub fn lives_are_live()
    ensures { LivesAreLive }
{}

/// Where ranges agree with a forest at a space, and each ioeventfd has a byte, the live ioeventfds of the ranges are those of the
/// forest.
pub fn lives_agree()
    ensures { LivesAgree }
{}
