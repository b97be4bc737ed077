// What looks wrong.
ghost use Rattle.std.specs.Prelude.{◌≡◌, ◌++◌, [], OnOk, option_map, option_to_list};
ghost use Rattle.map_lint.specs.declared.findings.Finding.TheVariants.{Tied, Hidden};

use mem_base::RegionId;
use std::alloc::{AllocError, Global};
use std::marker::Model;

/// What looks wrong in one region.
#[derive(Clone, Copy, Debug, PartialEq, Eq)]
pub enum Finding {
    /// The region has something of its own, but no address of any space reaches it.
    Unreached {
        region: RegionId,
    },
    /// The region and a sibling of the same priority overlap, both are enabled, and the sibling is tried first, since it was
    /// placed later.
    Tied {
        region: RegionId,
        other: RegionId,
    },
    /// The region is an alias that goes on past the end of its target.
    PastTarget {
        region: RegionId,
        target: RegionId,
    },
    /// The region goes on past the end of its container.
    Clipped {
        region: RegionId,
        container: RegionId,
    },
    /// The region lies wholly under a sibling that is tried first and answers everywhere in itself; both are enabled.
    Hidden {
        region: RegionId,
        other: RegionId,
    },
}

/// What looks wrong, by ascending id of the regions.
#[derive(Debug, Drop)]
pub struct Findings {
    items: Vec<Finding>,
}

impl Model for Findings {
    ghost use Rattle.std.specs.Prelude.{List};
    ghost use Rattle.map_lint.specs.declared.findings.Finding.{Finding};

    ghost Value = { List Finding };

    ghost view = { λ f. f.items.items };
}

impl Findings {
    /// Nothing.
    pub(crate) fn new(alloc: Global) -> Findings
        ensures { result ≡ [] }
    {
        Findings {
            items: Vec::new(alloc),
        }
    }

    /// One more, if there is one.
    pub(crate) fn note(&mut self, finding: Option<Finding>) -> Result<(), AllocError>
        ensures { OnOk result (self.new ≡ self.old ++ option_to_list finding) }
    {
        match finding {
            Some(finding) => {
                self.items.push(finding)?;
                Ok(())
            }
            None => Ok(()),
        }
    }

    /// All of them, in order.
    pub fn as_slice(&self) -> &[Finding]
        ensures { result.now ≡ self.now }
    {
        self.items.as_slice()
    }
}

/// The finding of a region that a sibling of the same priority overlaps.
pub(crate) fn tied(region: RegionId, other: Option<RegionId>) -> Option<Finding>
    ensures { result ≡ option_map (λ other. Tied region other) other }
{
    match other {
        Some(other) => Some(Finding::Tied { region, other }),
        None => None,
    }
}

/// The finding of a region that lies wholly under a sibling.
pub(crate) fn hidden(region: RegionId, other: Option<RegionId>) -> Option<Finding>
    ensures { result ≡ option_map (λ other. Hidden region other) other }
{
    match other {
        Some(other) => Some(Finding::Hidden { region, other }),
        None => None,
    }
}
