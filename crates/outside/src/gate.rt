// A point that each actor of a race reaches before each of its lines.

use mem_base::PassId;

/// Who carries out a line of a script: the one that changes the map, or a pass.
#[derive(Clone, Copy, Debug, PartialEq, Eq)]
pub enum Actor {
    Desk,
    Pass(PassId),
}

/// A point that each actor reaches before each of its lines. A test holds actors there to show that they run
/// beside each other; this project's own rule.
pub trait Gate: Sync {
    /// Told that the actor has arrived before the line of this number. It may wait, and says nothing else.
    fn arrive(&self, actor: Actor, line: u32);
}

/// Lets every actor pass at once.
#[derive(Clone, Copy, Debug, PartialEq, Eq)]
pub struct OpenGate;

impl Gate for OpenGate {
    fn arrive(&self, _actor: Actor, _line: u32) {}
}
