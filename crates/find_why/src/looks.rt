// What a search looked at, and what came of it.
ghost use Rattle.std.specs.Prelude.{◌≡◌, ◌++◌, ◌∷◌, [], OnOk, OnErr, reverse};
ghost use Rattle.find_why.specs.Reasons.{is_answer};

use mem_base::RegionId;
use std::alloc::{AllocError, Global};
use std::marker::Model;

/// Why a region that is tried answers an address, or why it does not.
#[derive(Clone, Copy, Debug, PartialEq, Eq)]
pub enum Outcome {
    /// The region or one inside it answers; `at` is the offset in the region, in bytes.
    Answers { at: u64 },
    /// The region holds the address at this offset, but nothing inside it answers there, and it has nothing of its own.
    Hole { at: u64 },
    /// The region holds the address and is disabled.
    Disabled,
    /// The region begins after the address.
    BeginsAfter,
    /// The region ends before the address.
    EndsBefore,
    /// The region holds the address, but one that is tried before it answers.
    TriedLater,
}

impl Outcome {
    /// Whether the region, or one inside it, answers.
    pub fn is_answer(&self) -> bool
        ensures { result ≡ is_answer self.now }
    {
        matches!(self, Outcome::Answers { at: _ })
    }
}

/// A region that is tried, and what comes of it.
#[derive(Clone, Copy, Debug, PartialEq, Eq)]
pub struct Tried {
    pub region: RegionId,
    pub outcome: Outcome,
}

/// Regions that are tried, in order.
#[derive(Debug, Drop)]
pub struct Trials {
    items: Vec<Tried>,
}

impl Model for Trials {
    ghost use Rattle.std.specs.Prelude.{List};
    ghost use Rattle.find_why.specs.declared.looks.Tried.{Tried};

    ghost Value = { List Tried };

    ghost view = { λ t. t.items.items };
}

impl Trials {
    /// None.
    pub(crate) fn new(alloc: Global) -> Trials
        ensures { result ≡ [] }
    {
        Trials {
            items: Vec::new(alloc),
        }
    }

    /// One more.
    pub(crate) fn push(&mut self, tried: Tried) -> Result<(), AllocError>
        ensures ok { OnOk result (self.new ≡ self.old ++ tried ∷ []) }
        ensures err { OnErr result (self.new ≡ self.old) }
    {
        self.items.push(tried)?;
        Ok(())
    }

    /// All of them, in order.
    pub fn as_slice(&self) -> &[Tried]
        ensures { result.now ≡ self.now }
    {
        self.items.as_slice()
    }
}

/// A region that holds the address and is enabled, and all regions inside it as they are tried.
#[derive(Debug, Drop)]
pub struct Look {
    pub region: RegionId,
    /// The offset in the region, in bytes.
    pub at: u64,
    /// Whether something is found here: the region is on the path to the answer.
    pub answers: bool,
    /// The children of the region in order of search, or the target of an alias.
    pub trials: Trials,
}

/// Regions that were looked into.
#[derive(Debug, Drop)]
pub struct Looks {
    items: Vec<Look>,
}

impl Model for Looks {
    ghost use Rattle.std.specs.Prelude.{List};
    ghost use Rattle.find_why.specs.declared.looks.Look.{Look};

    ghost Value = { List Look };

    ghost view = { λ l. l.items.items };
}

impl Looks {
    /// None.
    pub(crate) fn new(alloc: Global) -> Looks
        ensures { result ≡ [] }
    {
        Looks {
            items: Vec::new(alloc),
        }
    }

    /// One more.
    pub(crate) fn push(&mut self, look: Look) -> Result<(), AllocError>
        ensures ok { OnOk result (self.new ≡ self.old ++ look ∷ []) }
        ensures err { OnErr result (self.new ≡ self.old) }
    {
        self.items.push(look)?;
        Ok(())
    }

    /// The same in the other order. It takes no memory.
    pub(crate) fn reversed(mut self) -> Looks
        ensures { result ≡ reverse self }
    {
        self.items.reverse();
        self
    }

    /// All of them: the root first, and each region before those inside it.
    pub fn as_slice(&self) -> &[Look]
        ensures { result.now ≡ self.now }
    {
        self.items.as_slice()
    }
}
