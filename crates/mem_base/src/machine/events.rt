// The steps of a running machine.

use crate::{Applied, Cell, Client, Config, Forest, PassId, Place, RegionId, WordStep};
use std::collections::LinkedList;

/// Who makes a step on a word.
#[derive(Clone, Copy, Debug, PartialEq, Eq)]
pub enum Hand {
    Pass(PassId),
    Writer,
}

/// What may happen in a machine: one atomic step of an actor, or the writer's private work.
#[derive(Clone, Copy, Debug, PartialEq, Eq)]
pub enum Event {
    /// The pass looks at the current generation's number.
    Look(PassId),
    /// The pass announces the number that it looked at.
    Announce(PassId),
    /// The pass enters the generation that is then current.
    Enter(PassId),
    Leave(PassId),
    /// The writer looks at what the pass has announced.
    Sweep(PassId),
    /// The writer gives the pass its copy of the next generation.
    Place(PassId),
    /// The next generation becomes the current one.
    Publish,
    Word {
        hand: Hand,
        cell: Cell,
        step: WordStep,
    },
    /// The page of a region is marked as written, for one client.
    Mark {
        pass: PassId,
        region: RegionId,
        client: Client,
        page: u64,
    },
    /// The writer takes one word of marks.
    Harvest {
        region: RegionId,
        client: Client,
        index: usize,
    },
    /// The writer clears a word of a new region.
    Fill {
        cell: Cell,
    },
    Config(Config),
    /// The writer releases the dropped regions that no held generation names.
    Reap,
}

/// What an event of the pure machine answers, where it is not refused.
#[derive(Clone, Copy, Debug, PartialEq, Eq)]
pub enum Reply {
    /// The number of a generation; for a Sweep the announced number plus one, or 0.
    Number(u64),
    /// The value of a word before the step.
    Old(u64),
    /// What a call answers.
    Applied(Applied),
    Done,
}

/// What an entry of the shared history tells beside its event.
#[derive(Debug, Drop)]
pub enum Carried {
    Nothing,
    /// The next generation, which a Publish makes current: its forest, and the places that it shows.
    Edition {
        forest: Forest,
        places: LinkedList<Place>,
    },
    /// The place that a step on a cell was handed.
    At(Place),
}

/// An entry of the history that the atomic steps of a running machine make.
#[derive(Debug, Drop)]
pub struct HistoryEntry {
    pub event: Event,
    pub carried: Carried,
    /// What the step tells: the number of a generation; of a Sweep the announced number plus one, or 0; of a Word
    /// or a Harvest the word before it, also where the step is a store; 0 of all other events.
    pub reply: u64,
}
