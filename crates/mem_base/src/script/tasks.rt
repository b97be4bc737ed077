// What the program is asked to do.

/// The four forms of the program's words.
#[derive(Clone, Copy, Debug, PartialEq, Eq)]
pub enum Task {
    /// `run`: the commands of a script one after another.
    Run,
    /// `race`: the same, with the actors of its block beside each other.
    Race,
    /// `make SEED`: writes a script of drawn commands.
    Make { seed: u64 },
    /// `demo SEED`: runs that script, and counts the lines that it writes.
    Demo { seed: u64 },
}
