// Where the commands of a script may stand.
//
// The lines between `par` and `end` are the block: under `race` its actors run beside each other.

/// Where a script stands before one of its lines: it decides which commands may stand on the line.
#[derive(Clone, Copy, Debug, PartialEq, Eq)]
pub enum Section {
    /// Before the first command.
    Start,
    /// After the first command, and before a `par`.
    Setup,
    /// After the `par` on this line, and before its `end`.
    Block { par: u32 },
    /// After the `end`.
    Tail,
}

/// The rule for where a command may stand.
#[derive(Clone, Copy, Debug, PartialEq, Eq)]
pub enum PlaceRule {
    /// `machine`: it is the first command, or there is none.
    First,
    /// `space`: not in the block.
    OutsideBlock,
    /// `par`: at most once.
    OpensBlock,
    /// `end`: after the `par`, once.
    ClosesBlock,
    /// Any other command.
    Anywhere,
}
