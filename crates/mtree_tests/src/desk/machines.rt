// A desk with a hand, as one machine.
use crate::desk::desks::apply;
use crate::desk::hands::PlainHand;
use mem_base::{Call, NOTIFIER_COUNT, Refusal, RegionId};
use std::alloc::Global;
use std::sync::Arc;
use std::sync::ledger::Ledger;
use step_counter::Steps;
use transact::BackedDesk;

/// A desk with a pool, and a hand that makes accesses.
#[derive(Drop)]
pub(crate) struct Machine {
    pub(crate) desk: BackedDesk,
    pub(crate) hand: PlainHand,
}

impl Machine {
    /// An empty map over a pool of this many words.
    pub(crate) fn new(alloc: Global, words: usize) -> Result<Machine, Refusal> {
        let all = vec![in alloc; 0; words.saturating_add(NOTIFIER_COUNT)]?;
        let desk = BackedDesk::new(alloc, words)?;
        let generation = Arc::try_clone(desk.desk().current())?;
        Ok(Machine {
            desk,
            hand: PlainHand::new(generation, all),
        })
    }

    /// Does a call, and clears the words of the region that it makes.
    pub(crate) fn apply<L: Ledger>(
        &mut self,
        call: &Call,
        steps: &mut Steps<L>,
    ) -> Result<(), Refusal> {
        if let Some(region) = apply(&mut self.desk, call, steps)? {
            self.fill(region);
        }
        Ok(())
    }

    /// Clears the words of a new region.
    fn fill(&mut self, region: RegionId) {
        if let Some(place) = self.desk.place_of(region) {
            let past = place.start.saturating_add(place.words);
            if let Some(words) = self.hand.words_mut().get_mut(place.start..past) {
                words.fill(0);
            }
        }
    }

    /// Before an access: the hand goes into the current generation, and nothing is counted yet.
    pub(crate) fn refresh(&mut self) -> Result<(), Refusal> {
        let generation = Arc::try_clone(self.desk.desk().current())?;
        self.hand.enter(generation);
        Ok(())
    }
}
