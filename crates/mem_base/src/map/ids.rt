// Names of the things of a machine.
ghost use Rattle.std.specs.Prelude.{◌≡◌, ◌<◌, ◌↔◌, IsSome, IfSome};
ghost use Rattle.mem_base.specs.map.Limits.{most_passes, notifier_count};

use crate::map::limits::{MOST_PASSES, NOTIFIER_COUNT};
use std::marker::Model;

/// A memory region, by the number of regions that were made before it. A number is never given twice.
#[derive(Clone, Copy, Debug, PartialEq, Eq, PartialOrd, Ord)]
pub struct RegionId(pub u32);

impl RegionId {
    /// The owner of the notifiers' words: the greatest id, which no region ever has.
    pub const NOTIFIERS: RegionId = RegionId(u32::MAX);
}

/// An address space.
#[derive(Clone, Copy, Debug, PartialEq, Eq, PartialOrd, Ord)]
pub struct SpaceId(pub u32);

/// A listener, which is told how the view of its address space changes.
#[derive(Clone, Copy, Debug, PartialEq, Eq, PartialOrd, Ord)]
pub struct ListenerId(pub u32);

/// A watcher of a range of one IOMMU region's table, which is told how the range's translations change.
#[derive(Clone, Copy, Debug, PartialEq, Eq, PartialOrd, Ord)]
pub struct WatcherId(pub u32);

/// A pass: what one virtual CPU reads and writes with. A machine has at most 16, and their numbers are those below 16.
#[derive(Clone, Copy, Debug, PartialEq, Eq, PartialOrd, Ord)]
pub struct PassId(u32);

impl Model for PassId {
    ghost use Rattle.std.specs.Prelude.{◌<◌};
    ghost use Rattle.mem_base.specs.map.Limits.{most_passes};
    ghost use Rattle.mem_base.specs.map.PassIds.{PassId};

    ghost Value = { PassId };

    ghost view = { λ p. record { 0 = p.0 } };

    ghost invariant = { λ p. p.0 < most_passes };

    ghost inverse = { λ p. record { 0 = p.0 } };
}

impl PassId {
    /// The pass of number 0, which every machine has.
    pub const FIRST: PassId = PassId(0);

    /// The pass of this number, or `None` for a number of 16 or more.
    pub fn new(number: u32) -> Option<PassId>
        ensures some { IsSome result ↔ (number < most_passes) }
        ensures value { IfSome result (λ pass. pass.0 ≡ number) }
    {
        if number < MOST_PASSES {
            Some(PassId(number))
        } else {
            None
        }
    }

    /// Its number.
    pub fn number(&self) -> u32
        ensures value { result ≡ self.now.0 }
        ensures bound { result < most_passes }
    {
        self.0
    }

    /// A law: its number is below 16. It does nothing.
    pub fn knows_bound(&self)
        ensures { self.now.0 < most_passes }
    {
        self.number();
    }
}

/// A notifier, which a write to an ioeventfd sets: one of the 64 words after the words of the pool.
#[derive(Clone, Copy, Debug, PartialEq, Eq, PartialOrd, Ord)]
pub struct NotifierId(u32);

impl Model for NotifierId {
    ghost use Rattle.std.specs.Prelude.{ℕ, ◌<◌};
    ghost use Rattle.mem_base.specs.map.Limits.{notifier_count};

    ghost Value = { ℕ };

    ghost view = { λ n. n.0 };

    ghost invariant = { λ n. n.0 < notifier_count };

    ghost inverse = { λ n. record { 0 = n } };
}

impl NotifierId {
    /// The notifier of this number, or `None` for a number of 64 or more.
    pub fn new(number: u32) -> Option<NotifierId>
        ensures some { IsSome result ↔ (number < notifier_count) }
        ensures value { IfSome result (λ notifier. notifier ≡ number) }
    {
        if (number as usize) < NOTIFIER_COUNT {
            Some(NotifierId(number))
        } else {
            None
        }
    }

    /// Its number.
    pub fn number(&self) -> u32
        ensures value { result ≡ self.now }
        ensures bound { result < notifier_count }
    {
        self.0
    }

    /// A law: its number is below 64. It does nothing.
    pub fn knows_bound(&self)
        ensures { self.now < notifier_count }
    {
        self.number();
    }
}
