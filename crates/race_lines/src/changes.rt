// The call of the map that a line asks for.
ghost use Rattle.std.specs.Prelude.{◌≡◌, Some, None, Ok, Err, IfOk, IfErr};
ghost use Rattle.mem_base.specs.declared.machine.records.DeskOrder.TheVariants as orders;
ghost use Rattle.mem_base.specs.script.RefusalLines.{unknown_text};
ghost use Rattle.mem_base.specs.script.Tasks.{change_of, region_named, space_named};
ghost use Rattle.mem_base.specs.script.WriterSteps.{ioevent};
ghost use Rattle.race_lines.specs.LineTasks.{NamesNothing};

use crate::known::KnownNames;
use mem_base::{Call, Ioevent, MapChange, Name, RegionId, SpaceId};

/// The region that a name stands for, or the name itself.
pub(crate) fn known_region<'a>(known: &KnownNames, name: &'a Name) -> Result<RegionId, &'a Name>
    ensures found { IfOk result (λ region. region_named known.now name.now ≡ Some region) }
    ensures unknown { IfErr result (λ it. (it.now ≡ name.now) × (region_named known.now name.now ≡ None)) }
{
    match known.region(name) {
        Some(region) => Ok(region),
        None => Err(name),
    }
}

/// The space that a name stands for, or the name itself.
pub(crate) fn known_space<'a>(known: &KnownNames, name: &'a Name) -> Result<SpaceId, &'a Name>
    ensures found { IfOk result (λ space. space_named known.now name.now ≡ Some space) }
    ensures unknown { IfErr result (λ it. (it.now ≡ name.now) × (space_named known.now name.now ≡ None)) }
{
    match known.space(name) {
        Some(space) => Ok(space),
        None => Err(name),
    }
}

/// The ioeventfd that a line describes.
pub fn ioevent(offset: u64, size: u8, value: Option<u64>, number: u32) -> Ioevent
    ensures { result ≡ ioevent offset size value number }
{
    Ioevent {
        offset,
        size,
        matched: value.is_some(),
        value: value.unwrap_or(0),
        number,
    }
}

/// The call that a line asks for, or the first name in it that stands for nothing.
pub fn call_of<'a>(known: &KnownNames, change: &'a MapChange) -> Result<Call, &'a Name>
    ensures found { IfOk result (λ call. change_of known.now change.now ≡ Ok call) }
    ensures names { IfOk result (λ call. NamesNothing (orders.Call call)) }
    ensures unknown { IfErr result (λ name. change_of known.now change.now ≡ Err (unknown_text name.now)) }
{
    match change {
        MapChange::Add {
            parent,
            offset,
            child,
            priority,
        } => {
            let parent = known_region(known, parent)?;
            let child = known_region(known, child)?;
            Ok(Call::Add {
                parent,
                offset: *offset,
                child,
                priority: *priority,
            })
        }
        MapChange::Del { parent, child } => {
            let parent = known_region(known, parent)?;
            let child = known_region(known, child)?;
            Ok(Call::Del { parent, child })
        }
        MapChange::Move { child, offset } => {
            let child = known_region(known, child)?;
            Ok(Call::Move {
                child,
                offset: *offset,
            })
        }
        MapChange::Resize { region, size } => {
            let region = known_region(known, region)?;
            Ok(Call::Resize {
                region,
                size: *size,
            })
        }
        MapChange::Retarget { alias, offset } => {
            let alias = known_region(known, alias)?;
            Ok(Call::Retarget {
                alias,
                offset: *offset,
            })
        }
        MapChange::Enable { region } => {
            let region = known_region(known, region)?;
            Ok(Call::Enable { region, on: true })
        }
        MapChange::Disable { region } => {
            let region = known_region(known, region)?;
            Ok(Call::Enable { region, on: false })
        }
        MapChange::Readonly { region, on } => {
            let region = known_region(known, region)?;
            Ok(Call::Readonly { region, on: *on })
        }
        MapChange::Nonvolatile { region, on } => {
            let region = known_region(known, region)?;
            Ok(Call::Nonvolatile { region, on: *on })
        }
        MapChange::Unmergeable { region, on } => {
            let region = known_region(known, region)?;
            Ok(Call::Unmergeable { region, on: *on })
        }
        MapChange::Romd { region, on } => {
            let region = known_region(known, region)?;
            Ok(Call::Romd { region, on: *on })
        }
        MapChange::Log { region, client, on } => {
            let region = known_region(known, region)?;
            Ok(Call::Log {
                region,
                client: *client,
                on: *on,
            })
        }
        MapChange::Global { on } => Ok(Call::Global { on: *on }),
        MapChange::Map {
            region,
            iova,
            size,
            space,
            translated,
            perm,
        } => {
            let region = known_region(known, region)?;
            let space = known_space(known, space)?;
            Ok(Call::Map {
                region,
                iova: *iova,
                size: *size,
                space,
                translated: *translated,
                perm: *perm,
            })
        }
        MapChange::Unmap { region, iova } => {
            let region = known_region(known, region)?;
            Ok(Call::Unmap {
                region,
                iova: *iova,
            })
        }
        MapChange::Event {
            region,
            offset,
            size,
            number,
            data,
        } => {
            let region = known_region(known, region)?;
            Ok(Call::Event {
                region,
                event: ioevent(*offset, *size, *data, *number),
            })
        }
        MapChange::Unevent {
            region,
            offset,
            size,
            data,
        } => {
            let region = known_region(known, region)?;
            Ok(Call::Unevent {
                region,
                offset: *offset,
                size: *size,
                matched: data.is_some(),
                value: data.unwrap_or(0),
            })
        }
    }
}
