// The lines of a pass in a block, and what they got.

use crate::few::FewBytes;
use mem_base::{Access, Bytes, Command, DeskOrder, SpaceId};
use pass_lines::LineAnswer;
use race_lines::{KnownNames, Refused};

/// A line of an actor in a block, as it stands in the script: its number and its command.
#[derive(Clone, Copy)]
pub struct OwnLine<'a> {
    pub line: &'a (u32, Command),
}

/// What a line asks of a pass, once its names are resolved.
#[derive(Debug, Drop)]
pub enum PassTask<'a> {
    /// Nothing: one of its names refuses the line, this one.
    Refused(Refused<'a>),
    /// An order to the desk.
    Order(DeskOrder),
    /// To enter the current generation, and to leave first where it is entered.
    Enter,
    /// To leave.
    Leave,
    /// To read `len` bytes of a space from an address on.
    Read {
        space: SpaceId,
        addr: u64,
        len: u8,
    },
    /// To write bytes to a space from an address on.
    Write {
        space: SpaceId,
        addr: u64,
        bytes: &'a Bytes,
    },
    /// To read `len` bytes of a space from an address on, and to write them to a space from another address on.
    Copy {
        from: SpaceId,
        addr: u64,
        len: u8,
        to: SpaceId,
        to_addr: u64,
    },
}

/// A line of a pass in a block: its number in the script, and its task.
#[derive(Debug, Drop)]
pub struct BlockLine<'a> {
    pub number: u32,
    pub task: PassTask<'a>,
}

/// The lines of a pass in a block.
#[derive(Drop)]
pub enum PassLines<'a, 'k> {
    /// As they stand in the script. Their names are resolved by these, which nobody changes in the block.
    Unresolved {
        lines: Vec<OwnLine<'a>>,
        names: &'k KnownNames,
    },
    /// With their tasks.
    Resolved(Vec<BlockLine<'a>>),
}

/// What a line of a pass got.
#[derive(Debug, Drop)]
pub enum LineGot {
    /// One of its names refused the line.
    Refused,
    /// Its order was answered: what it got is the next entry of the clerk's list.
    Ordered,
    /// The pass read few bytes: the read ended so, and these are its bytes.
    ReadFew { access: Access, bytes: FewBytes },
    /// The pass did what else was asked, and this is the answer.
    Answered(LineAnswer),
}
