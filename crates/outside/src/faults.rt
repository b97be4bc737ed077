// Counts of faults.
ghost use Rattle.std.specs.Prelude.{◌≡◌, ◌≤◌};

use crate::Failed;

/// How many calls have failed; it stands still at 2^64 - 1.
#[derive(Clone, Copy, Debug, PartialEq, Eq)]
pub(crate) struct FaultCount(u64);

impl FaultCount {
    ghost use Rattle.outside.specs.Causes.{one_fault_more};
    ghost use Rattle.outside.specs.Faults.{fault_count};

    pub(crate) fn new() -> Self
        ensures { fault_count result ≡ 0 }
    {
        FaultCount(0)
    }

    /// Counts a fault, and hands out the answer to it.
    pub(crate) fn failure(&mut self) -> Failed
        ensures counted { fault_count self.new ≡ one_fault_more (fault_count self.old) }
        ensures later { fault_count self.old ≤ fault_count self.new }
    {
        self.0 = self.0.saturating_add(1);
        Failed
    }
}
