// What a watcher is told on the way from some parts to others.
ghost use Rattle.std.specs.Prelude.{◌≡◌, ◌++◌, OnOk, map};
ghost use Rattle.std.specs.List.{list_any};
ghost use Rattle.mem_base.specs.access.Parts.{is_same_part, parts_without, notices_between};
ghost use Rattle.mem_base.specs.declared.access.notices.Notice.TheVariants.{Map, Unmap};
ghost use Rattle.iommu_notify.specs.PartLists.{AreParts, noticed};

use crate::parts::is_same_part;
use mem_base::{Notice, Part, WatcherId};
use std::alloc::AllocError;

// Whether a part is among these, by halving.
fn has_part(parts: &[Part], part: &Part) -> bool
    requires { AreParts parts.now }
    ensures { result ≡ list_any (is_same_part part.now) parts.now }
{
    match parts.binary_search_by(|other| other.from.cmp(&part.from)) {
        Ok(at) => is_same_part(part, &parts[at]),
        Err(_) => false,
    }
}

// Tells a watcher that those of the first parts which are not among the second are gone.
fn unmap_each(
    notices: &mut Vec<(WatcherId, Notice)>,
    id: WatcherId,
    parts: &[Part],
    others: &[Part],
) -> Result<(), AllocError>
    requires { AreParts others.now }
    ensures { OnOk result (notices.new.items ≡ notices.old.items ++ noticed id
        (map (λ p. Unmap p) (parts_without parts.now others.now))) }
{
    for part in parts {
        if !has_part(others, part) {
            notices.push((id, Notice::Unmap(*part)))?;
        }
    }
    Ok(())
}

// Tells a watcher that those of the first parts which are not among the second are there now.
fn map_each(
    notices: &mut Vec<(WatcherId, Notice)>,
    id: WatcherId,
    parts: &[Part],
    others: &[Part],
) -> Result<(), AllocError>
    requires { AreParts others.now }
    ensures { OnOk result (notices.new.items ≡ notices.old.items ++ noticed id
        (map (λ p. Map p) (parts_without parts.now others.now))) }
{
    for part in parts {
        if !has_part(others, part) {
            notices.push((id, Notice::Map(*part)))?;
        }
    }
    Ok(())
}

/// Tells a watcher how the parts that it has differ from those that it is to have: each that goes is unmapped, ascending,
/// and then each that comes is mapped, ascending.
pub(crate) fn tell(
    notices: &mut Vec<(WatcherId, Notice)>,
    id: WatcherId,
    old: &[Part],
    new: &[Part],
) -> Result<(), AllocError>
    requires old { AreParts old.now }
    requires new { AreParts new.now }
    ensures { OnOk result (notices.new.items ≡ notices.old.items ++ noticed id (notices_between old.now new.now)) }
{
    unmap_each(notices, id, old, new)?;
    map_each(notices, id, new, old)?;
    Ok(())
}
