// How a thing is timed, and what the parts of a run share.
pub use rand_core::utils::NextWord;
pub use rand_pcg::Lcg64Xsh32;
use std::error::Error;
pub use std::sync::ledger::Ledger;
use std::time::Instant;
use step_counter::Steps;

/// A run ends early: memory runs out, a call is refused that is not to be, or a write fails.
#[derive(Debug, Drop)]
pub struct Failed;

impl<E: Error + Drop> From<E> for Failed {
    fn from(_error: E) -> Failed {
        Failed
    }
}

/// What a part of a run gives.
pub type Result<T> = std::result::Result<T, Failed>;

/// What times the parts of a run, each in this many rounds or more.
#[derive(Clone, Copy)]
pub struct Clock {
    pub rt: HostRuntime,
    pub rounds: u32,
}

/// A run: its clock, and steps that nobody counts.
#[derive(Drop)]
pub struct Bench<L: Ledger> {
    pub clock: Clock,
    pub steps: Steps<L>,
}

/// The nanoseconds of a microsecond.
pub const MICRO: usize = 1000;

impl Clock {
    /// When a round begins; none where the system's clock fails.
    pub fn begin(self) -> Option<Instant> {
        Instant::now(&self.rt).ok()
    }

    /// The nanoseconds since a round began; the greatest number where the system's clock fails.
    pub fn since(self, start: Option<Instant>) -> u64 {
        match start.map(|start| start.elapsed(&self.rt)) {
            Some(Ok(time)) => u64::try_from(time.as_nanos()).unwrap_or(u64::MAX),
            _ => u64::MAX,
        }
    }

    /// Does some work in `times` as many rounds: the least nanoseconds of one by `parts`, and what the last one gives.
    pub fn least<T: Drop, F: FnMut() -> T>(self, times: u32, parts: usize, mut work: F) -> (u64, T)
        requires { F.IsAlwaysCallable work }
    {
        let start = self.begin();
        let mut last = work();
        let mut nanos = self.since(start);
        for _ in 1..self.rounds.saturating_mul(times) {
            let start = self.begin();
            let next = work();
            nanos = nanos.min(self.since(start));
            last = next;
        }
        (nanos / parts.max(1) as u64, last)
    }
}

/// What some work gives at each of these items, added up.
pub fn sum_of<T: Copy, F: FnMut(T) -> u64>(items: &[T], mut work: F) -> u64
    requires { F.IsAlwaysCallable work }
{
    let mut sum: u64 = 0;
    for item in items {
        sum = sum.wrapping_add(work(*item));
    }
    sum
}

/// Drawn numbers below a limit.
pub fn drawn(rt: HostRuntime, seed: u64, count: u32, limit: u32) -> Result<Vec<u32>> {
    let mut rng = Lcg64Xsh32::new(seed, 54);
    let mut numbers = Vec::new(rt.alloc());
    for _ in 0..count {
        numbers.push(rng.next_word() % limit.max(1))?;
    }
    Ok(numbers)
}
