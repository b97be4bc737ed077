// What who ordered is told.

use epoch_rule::Note;
use generation::Generation;
use mem_base::DeskAnswer;
use std::alloc::Global;
use std::sync::Arc;

/// What who ordered is told.
#[derive(Drop)]
pub struct Receipt {
    pub answer: DeskAnswer,
    /// How many calls the listeners had got before the order; those that it caused are the ones from this number on.
    pub from: usize,
    /// How many they had got after it.
    pub to: usize,
    /// What the writer had seen after the order. A pass that meets it enters no generation older than the one that is answered.
    pub note: Note<Generation>,
    /// The current generation, for a look alone.
    pub current: Option<Arc<Generation, Global>>,
}
