// The calls that an end in memory fails at.
ghost use Rattle.std.specs.Prelude.{◌≡◌, ◌↔◌, IsTrue, Contains};

/// The calls made so far, and those that are to fail, counted from 1.
#[derive(Drop)]
pub(crate) struct Schedule {
    fails: Vec<u32>,
    calls: u32,
}

impl Schedule {
    ghost use Rattle.outside.specs.Schedule.{failing_calls, calls_made, one_call_more};

    pub(crate) fn new(fails: Vec<u32>) -> Self
        ensures fails { failing_calls result ≡ fails.items }
        ensures calls { calls_made result ≡ 0 }
    {
        Schedule { fails, calls: 0 }
    }

    /// Counts a call, and says whether it is to fail. The count stands still at 2^32 - 1.
    pub(crate) fn next_fails(&mut self) -> bool
        ensures listed { IsTrue result ↔ Contains (failing_calls self.old) (calls_made self.new) }
        ensures calls { calls_made self.new ≡ one_call_more (calls_made self.old) }
        ensures same_list { failing_calls self.new ≡ failing_calls self.old }
    {
        self.calls = self.calls.saturating_add(1);
        self.fails.contains(&self.calls)
    }
}
