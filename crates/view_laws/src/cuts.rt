// Laws of accesses: runs of numbers, and what a read shows.
ghost use Rattle.mem_base.specs.access.DeviceAccess.{RepliesAreShown};
ghost use Rattle.view_laws.specs.Cuts.{RunsCut};

/// The runs of an access cover its addresses, each once and in order, and are the longest whose neighbours belong
/// together. So do the words and the pages that it touches.
pub fn runs_cover_once()
    ensures { RunsCut }
{}

/// What a read shows of a device are the bytes of the number that each callback replies, in the order of addresses.
pub fn replies_are_shown()
    ensures { RepliesAreShown }
{}
