// What an access to a device is cut into, where an access ends, and what it answers.

use crate::{SpaceId, Spot, WordStep};

/// A part of an access that a device is asked for at once.
#[derive(Clone, Copy, Debug, PartialEq, Eq)]
pub struct Piece {
    /// The offset in the region, in bytes.
    pub offset: u64,
    /// The size in bytes: 1, 2, 4 or 8.
    pub size: u8,
    /// Whether the device takes an access of this size at this offset.
    pub valid: bool,
}

/// What one callback of a device does.
#[derive(Clone, Copy, Debug, PartialEq, Eq)]
pub enum DeviceStep {
    /// One atomic step on a register.
    Step { reg: u32, step: WordStep },
    /// The device answers with an error and does nothing.
    Error,
}

/// Where an address leads in the end, after all translations.
#[derive(Clone, Copy, Debug, PartialEq, Eq)]
pub enum Target {
    Leaf(Spot),
    Unassigned,
}

/// What an access answers: how it ended, and the number of the generation in which it ran.
#[derive(Clone, Copy, Debug, PartialEq, Eq)]
pub struct Access {
    pub result: TxResult,
    pub number: u64,
}

/// How an access ended: a fault of a device, or bytes that nothing answers.
#[derive(Clone, Copy, Debug, PartialEq, Eq)]
pub struct TxResult {
    pub error: bool,
    pub decode: bool,
}

/// Where a mapped window begins, and whether it is to be written.
#[derive(Clone, Copy, Debug, PartialEq, Eq)]
pub struct WindowStart {
    pub space: SpaceId,
    pub addr: u64,
    pub write: bool,
}
