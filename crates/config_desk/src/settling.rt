// Calls that wait for the passes that hold a publish up.
ghost use Rattle.std.specs.Prelude.{◌≡◌, ◌≢◌, ◌≤◌, ℕ, Some, Err, IfOk, IfErr, OnErr, true};
ghost use Rattle.mem_base.specs.declared.map.calls.Config.TheVariants as configs;
ghost use Rattle.mem_base.specs.machine.Answers.{call_answer, commit_answer};
ghost use Rattle.mem_base.specs.machine.Orders.{configure};
ghost use Rattle.mem_base.specs.machine.Publishing.{held_up, would_publish};
ghost use Rattle.writer_desk.specs.Writers.{is_held};
ghost use Rattle.writer_run.specs.Turns.{answer_by, number_told};
ghost use Rattle.config_desk.specs.Settling.{HeldTurns, IsSettledBy, tries_of};
ghost use Rattle.config_desk.specs.Tries.{WasTried, is_answered_held};

use crate::config::Config;
use mem_base::{Applied, Call, Config as Event, Refusal};
use std::sync::Wait;
use std::thread::{self, Parker};
use std::time::Duration;

/// How long a change may wait for the passes that hold it up. Its first try comes at once; after that it is tried `yields + sleeps` times at
/// most, and waits before each of these tries.
///
/// Yields serve where a pass is about to leave; sleeps where that takes longer, as where its thread waits for a processor. A pass that stays
/// where it entered is waited for in vain: for about `sleeps` times `sleep_nanos`.
#[derive(Clone, Copy, Debug, PartialEq, Eq)]
pub struct Patience {
    /// Before how many tries, after the first, the processor is given away once.
    pub yields: u32,
    /// Before how many tries, after these, the thread sleeps.
    pub sleeps: u32,
    /// How long each sleep is, in nanoseconds. A thread may wake early.
    pub sleep_nanos: u64,
}

impl Patience {
    /// How many tries there are at most after the first.
    pub fn tries(&self) -> u64
        ensures { result ≡ tries_of self.now }
    {
        u64::from(self.yields) + u64::from(self.sleeps)
    }

    /// Waits before a try, where `left` of the tries are left, this one among them.
    pub fn wait<R: Wait>(&self, rt: &R, left: u64) {
        if left > u64::from(self.sleeps) {
            thread::yield_now();
        } else {
            Parker::new().park_timeout(rt, Duration::from_nanos(self.sleep_nanos));
        }
    }
}

// Whether a pass held the publish up.
fn was_held(answer: &Result<(Applied, Option<u64>), Refusal>) -> bool
    ensures { result ≡ is_answered_held answer.now }
{
    match answer {
        Err(Refusal::Held(_, _)) => true,
        _ => false,
    }
}

impl Config {
    // A private event, and the same again where a pass held its publish up.
    fn try_on<R: Wait>(
        &mut self,
        rt: &R,
        event: &Event,
        patience: &Patience,
    ) -> Result<(Applied, Option<u64>), Refusal>
        ensures { WasTried patience.now self.old event.now result self.new }
    {
        let mut answer = self.configure(event);
        let mut left = patience.tries();
        while left > 0 {
            if !was_held(&answer) {
                return answer;
            }
            patience.wait(rt, left);
            answer = self.configure(event);
            left -= 1;
        }
        answer
    }

    /// A private event of the writer, which is tried again where a pass holds its publish up.
    ///
    /// Each try is a turn of its own with its own sweeps, so a pass that has left meanwhile holds it up no more. Before each further try it
    /// waits as `patience` says. It is refused with `Held` only where every try was held up, and the refusal names the pass that held up the
    /// last one, for the caller to make it leave. Where memory ran out, the tries before were held up, and nothing else has happened. With no
    /// yields and no sleeps it is one try.
    pub fn configure_settled<R: Wait>(
        &mut self,
        rt: &R,
        event: &Event,
        patience: &Patience,
    ) -> Result<(Applied, Option<u64>), Refusal>
        ensures settled { result ≢ Err Refusal.Memory
            → (n : ℕ) × (n ≤ tries_of patience.now) × IsSettledBy n self.old (configure event.now) (answer_by event.now result) self.new }
        ensures held { IfErr result (λ why. is_held why ≡ true
            → IsSettledBy (tries_of patience.now) self.old (configure event.now) (answer_by event.now result) self.new) }
        ensures memory { result ≡ Err Refusal.Memory
            → (n : ℕ) × (n ≤ tries_of patience.now) × HeldTurns n self.old (configure event.now) self.new }
        ensures number { IfOk result (λ x. x.1 ≡ number_told self.old.part event.now) }
        ensures cause { IfErr result (λ why. why ≢ Refusal.Memory → is_held why ≡ would_publish self.old.part.desk event.now) }
        ensures named { IfErr result (λ why. would_publish self.old.part.desk event.now ≡ true → why ≢ Refusal.Memory
            → held_up self.new.part.generations ≡ Some why) }
        ensures left { OnErr result (self.new.part.desk ≡ self.old.part.desk) }
    {
        self.try_on(rt, event, patience)
    }

    /// A change of the map, or a region that is made or dropped, as by `call`; where a pass holds its publish up, it is tried again as
    /// `configure_settled` says.
    pub fn call_settled<R: Wait>(
        &mut self,
        rt: &R,
        call: &Call,
        patience: &Patience,
    ) -> Result<(Applied, Option<u64>), Refusal>
        ensures settled { result ≢ Err Refusal.Memory
            → (n : ℕ) × (n ≤ tries_of patience.now) × IsSettledBy n self.old (configure (configs.Call call.now)) (call_answer result) self.new }
        ensures held { IfErr result (λ why. is_held why ≡ true
            → IsSettledBy (tries_of patience.now) self.old (configure (configs.Call call.now)) (call_answer result) self.new) }
        ensures memory { result ≡ Err Refusal.Memory
            → (n : ℕ) × (n ≤ tries_of patience.now) × HeldTurns n self.old (configure (configs.Call call.now)) self.new }
        ensures number { IfOk result (λ x. x.1 ≡ number_told self.old.part (configs.Call call.now)) }
        ensures cause { IfErr result (λ why. why ≢ Refusal.Memory → is_held why ≡ would_publish self.old.part.desk (configs.Call call.now)) }
        ensures named { IfErr result (λ why. would_publish self.old.part.desk (configs.Call call.now) ≡ true → why ≢ Refusal.Memory
            → held_up self.new.part.generations ≡ Some why) }
        ensures left { OnErr result (self.new.part.desk ≡ self.old.part.desk) }
    {
        self.configure_settled(rt, &Event::Call(*call), patience)
    }

    /// Closes a transaction, as `commit` does; where a pass holds its publish up, it is tried again as `configure_settled` says. Where it is
    /// refused, the transaction is open still.
    pub fn commit_settled<R: Wait>(
        &mut self,
        rt: &R,
        patience: &Patience,
    ) -> Result<Option<u64>, Refusal>
        ensures settled { result ≢ Err Refusal.Memory
            → (n : ℕ) × (n ≤ tries_of patience.now) × IsSettledBy n self.old (configure configs.Commit) (commit_answer result) self.new }
        ensures held { IfErr result (λ why. is_held why ≡ true
            → IsSettledBy (tries_of patience.now) self.old (configure configs.Commit) (commit_answer result) self.new) }
        ensures memory { result ≡ Err Refusal.Memory
            → (n : ℕ) × (n ≤ tries_of patience.now) × HeldTurns n self.old (configure configs.Commit) self.new }
        ensures number { IfOk result (λ number. number ≡ number_told self.old.part configs.Commit) }
        ensures cause { IfErr result (λ why. why ≢ Refusal.Memory → is_held why ≡ would_publish self.old.part.desk configs.Commit) }
        ensures named { IfErr result (λ why. would_publish self.old.part.desk configs.Commit ≡ true → why ≢ Refusal.Memory
            → held_up self.new.part.generations ≡ Some why) }
        ensures left { OnErr result (self.new.part.desk ≡ self.old.part.desk) }
    {
        let (_, number) = self.configure_settled(rt, &Event::Commit, patience)?;
        Ok(number)
    }
}
