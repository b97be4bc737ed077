// What a line of a pass answered.

use mem_base::{Access, Bytes};

/// What a line of a pass answered.
#[derive(Debug, Drop)]
pub enum LineAnswer {
    /// The pass entered the generation of this number.
    Entered(u64),
    /// It left, or it was not entered.
    Left,
    /// A read ended so, and these are its bytes.
    Read { access: Access, bytes: Bytes },
    /// A write ended so.
    Wrote(Access),
    /// A copy ended so: the results of the read and of the write together.
    Copied(Access),
}
