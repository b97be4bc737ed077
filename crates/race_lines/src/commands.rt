// What each line asks for: its names are resolved from left to right, and then a new name is tried.
ghost use Rattle.std.specs.Prelude.{◌≡◌, Err, IfErr, IfOk, Ok};
ghost use Rattle.mem_base.specs.declared.script.commands.Command.TheVariants as commands;
ghost use Rattle.mem_base.specs.declared.script.commands.PassCommand.TheVariants as pass_commands;
ghost use Rattle.mem_base.specs.script.RefusalLines.{unknown_text};
ghost use Rattle.mem_base.specs.script.Tasks.{kind_of, listened, pass_task, region_made, space_made, task_of, unless_taken};
ghost use Rattle.mem_base.specs.script.Tasks as tasks;
ghost use Rattle.race_lines.specs.LineTasks.{Resolves};

use crate::changes::{call_of, known_region, known_space};
use crate::known::KnownNames;
use crate::tasks::{LineTask, Naming, Refused, ResolvedTask};
use mem_base::{
    Bytes, Call, Client, Command, DeskOrder, Kind, ListenerId, MapChange, Name, PassCommand,
    RegionId, RegionKind, Size, SpaceId,
};
use std::alloc::{AllocError, Global};

// A region of a new name.
fn made_region<'a>(known: &KnownNames, name: &'a Name, kind: Kind, size: Size) -> ResolvedTask<'a>
    ensures { Resolves known.now result (region_made known.now name.now kind size) }
{
    match known.region(name) {
        Some(_) => Err(Refused::Taken(name)),
        None => Ok(LineTask::Ordered {
            order: DeskOrder::Call(Call::Region { kind, size }),
            naming: Naming::MakesRegion { name, kind },
        }),
    }
}

// The kind of a region, where the target of an alias is known; else its name.
fn known_kind<'a>(known: &KnownNames, kind: &'a RegionKind) -> Result<Kind, &'a Name>
    ensures found { IfOk result (λ it. kind_of known.now kind.now ≡ Ok it) }
    ensures unknown { IfErr result (λ name. kind_of known.now kind.now ≡ Err (unknown_text name.now)) }
{
    match kind {
        RegionKind::Container => Ok(Kind::Container),
        RegionKind::Ram => Ok(Kind::Ram),
        RegionKind::Rom => Ok(Kind::Rom),
        RegionKind::RomDevice(device) => Ok(Kind::RomDevice(*device)),
        RegionKind::Io(device) => Ok(Kind::Io(*device)),
        RegionKind::Iommu => Ok(Kind::Iommu),
        RegionKind::Alias { target, offset } => {
            let target = known_region(known, target)?;
            Ok(Kind::Alias {
                target,
                offset: *offset,
            })
        }
        RegionKind::Reserve => Ok(Kind::Reserve),
    }
}

// `region NAME KIND SIZE`, and what the kind takes
fn region_task<'a>(
    known: &KnownNames,
    name: &'a Name,
    size: Size,
    kind: &'a RegionKind,
) -> ResolvedTask<'a>
    ensures { Resolves known.now result (task_of known.now (commands.Region name.now size kind.now)) }
{
    match known_kind(known, kind) {
        Ok(kind) => made_region(known, name, kind, size),
        Err(unknown) => Err(Refused::Unknown(unknown)),
    }
}

// A space of a new name, where its root is known.
fn made_space<'a>(
    known: &KnownNames,
    name: &'a Name,
    root: RegionId,
) -> Result<ResolvedTask<'a>, AllocError>
    ensures { IfOk result (λ task. Resolves known.now task (space_made known.now name.now root)) }
{
    if known.space(name).is_some() {
        return Ok(Err(Refused::Taken(name)));
    }
    let Some(space) = known.next_space() else {
        return Err(AllocError);
    };
    Ok(Ok(LineTask::Ordered {
        order: DeskOrder::Call(Call::Space { space, root }),
        naming: Naming::MakesSpace { name },
    }))
}

// `space NAME REGION`
fn space_task<'a>(
    known: &KnownNames,
    name: &'a Name,
    root: &'a Name,
) -> Result<ResolvedTask<'a>, AllocError>
    ensures { IfOk result (λ task. Resolves known.now task (task_of known.now (commands.Space name.now root.now))) }
{
    match known_region(known, root) {
        Ok(root) => made_space(known, name, root),
        Err(unknown) => Ok(Err(Refused::Unknown(unknown))),
    }
}

// A line that changes the map.
fn change_task<'a>(known: &KnownNames, change: &'a MapChange) -> ResolvedTask<'a>
    ensures { Resolves known.now result (task_of known.now (commands.Change change.now)) }
{
    match call_of(known, change) {
        Ok(call) => Ok(LineTask::Ordered {
            order: DeskOrder::Call(call),
            naming: Naming::Keeps,
        }),
        Err(unknown) => Err(Refused::Unknown(unknown)),
    }
}

// `load REGION OFFSET BYTES`; the bytes are copied.
fn load_task<'a>(
    alloc: Global,
    known: &KnownNames,
    region: &'a Name,
    offset: u64,
    bytes: &Bytes,
) -> Result<ResolvedTask<'a>, AllocError>
    ensures { IfOk result (λ task. Resolves known.now task (task_of known.now (commands.Load region.now offset bytes.now))) }
{
    match known_region(known, region) {
        Ok(region) => {
            let bytes = Bytes::new(bytes.as_slice().to_vec(alloc)?);
            let order = DeskOrder::Load {
                region,
                offset,
                bytes,
            };
            Ok(Ok(LineTask::Ordered {
                order,
                naming: Naming::Keeps,
            }))
        }
        Err(unknown) => Ok(Err(Refused::Unknown(unknown))),
    }
}

// `drop REGION`
fn drop_task<'a>(known: &KnownNames, name: &'a Name) -> ResolvedTask<'a>
    ensures { Resolves known.now result (task_of known.now (commands.Drop name.now)) }
{
    match known.region(name) {
        Some(region) => Ok(LineTask::Ordered {
            order: DeskOrder::Call(Call::Drop { region }),
            naming: Naming::DropsRegion { name, region },
        }),
        None => Err(Refused::Unknown(name)),
    }
}

// A listener of a new name, where its space is known.
fn made_listener<'a>(
    known: &KnownNames,
    name: &'a Name,
    space: SpaceId,
    priority: i32,
) -> Result<ResolvedTask<'a>, AllocError>
    ensures { IfOk result (λ task. Resolves known.now task (listened known.now name.now space priority)) }
{
    if known.listener(name).is_some() {
        return Ok(Err(Refused::Taken(name)));
    }
    let Some(listener) = known.next_listener() else {
        return Err(AllocError);
    };
    Ok(Ok(LineTask::Ordered {
        order: DeskOrder::Listen {
            listener,
            space,
            priority,
        },
        naming: Naming::MakesListener { name },
    }))
}

// `listen NAME SPACE [prio N]`
fn listen_task<'a>(
    known: &KnownNames,
    name: &'a Name,
    space: &'a Name,
    priority: i32,
) -> Result<ResolvedTask<'a>, AllocError>
    ensures { IfOk result (λ task. Resolves known.now task (task_of known.now (commands.Listen name.now space.now priority))) }
{
    match known_space(known, space) {
        Ok(space) => made_listener(known, name, space, priority),
        Err(unknown) => Ok(Err(Refused::Unknown(unknown))),
    }
}

// `unlisten NAME`
fn unlisten_task<'a>(known: &KnownNames, name: &'a Name) -> ResolvedTask<'a>
    ensures { Resolves known.now result (task_of known.now (commands.Unlisten name.now)) }
{
    match known.listener(name) {
        Some(listener) => Ok(LineTask::Ordered {
            order: DeskOrder::Unlisten(listener),
            naming: Naming::DropsListener { name, listener },
        }),
        None => Err(Refused::Unknown(name)),
    }
}

// A watcher of a new name, where its region is known.
fn made_watcher<'a>(
    known: &KnownNames,
    name: &'a Name,
    region: RegionId,
    first: u64,
    last: u64,
) -> ResolvedTask<'a>
    ensures { Resolves known.now result (unless_taken name.now (tasks.watcher_named known.now name.now)
        (tasks.watched name.now region first last)) }
{
    match known.watcher(name) {
        Some(_) => Err(Refused::Taken(name)),
        None => Ok(LineTask::Watched {
            name,
            region,
            first,
            last,
        }),
    }
}

// `watch NAME REGION FIRST LAST`
fn watch_task<'a>(
    known: &KnownNames,
    name: &'a Name,
    region: &'a Name,
    first: u64,
    last: u64,
) -> ResolvedTask<'a>
    ensures { Resolves known.now result (task_of known.now (commands.Watch name.now region.now first last)) }
{
    match known_region(known, region) {
        Ok(region) => made_watcher(known, name, region, first, last),
        Err(unknown) => Err(Refused::Unknown(unknown)),
    }
}

// `unwatch NAME`
fn unwatch_task<'a>(known: &KnownNames, name: &'a Name) -> ResolvedTask<'a>
    ensures { Resolves known.now result (task_of known.now (commands.Unwatch name.now)) }
{
    match known.watcher(name) {
        Some(watcher) => Ok(LineTask::Unwatched { name, watcher }),
        None => Err(Refused::Unknown(name)),
    }
}

// `show SPACE`
fn show_task<'a>(known: &KnownNames, space: &'a Name) -> ResolvedTask<'a>
    ensures { Resolves known.now result (task_of known.now (commands.Show space.now)) }
{
    match known_space(known, space) {
        Ok(space) => Ok(LineTask::Shown { space }),
        Err(unknown) => Err(Refused::Unknown(unknown)),
    }
}

// `at SPACE ADDR`
fn find_task<'a>(known: &KnownNames, space: &'a Name, addr: u64) -> ResolvedTask<'a>
    ensures { Resolves known.now result (task_of known.now (commands.At space.now addr)) }
{
    match known_space(known, space) {
        Ok(space) => Ok(LineTask::Found { space, addr }),
        Err(unknown) => Err(Refused::Unknown(unknown)),
    }
}

// `dirty REGION CLIENT`
fn dirty_task<'a>(known: &KnownNames, region: &'a Name, client: Client) -> ResolvedTask<'a>
    ensures { Resolves known.now result (task_of known.now (commands.Dirty region.now client)) }
{
    match known_region(known, region) {
        Ok(region) => Ok(LineTask::Ordered {
            order: DeskOrder::Harvest { region, client },
            naming: Naming::Keeps,
        }),
        Err(unknown) => Err(Refused::Unknown(unknown)),
    }
}

// `vN read SPACE ADDR LEN`
fn read_task<'a>(known: &KnownNames, space: &'a Name, addr: u64, len: u8) -> ResolvedTask<'a>
    ensures { Resolves known.now result (pass_task known.now (pass_commands.Read space.now addr len)) }
{
    match known_space(known, space) {
        Ok(space) => Ok(LineTask::Read { space, addr, len }),
        Err(unknown) => Err(Refused::Unknown(unknown)),
    }
}

// `vN write SPACE ADDR BYTES`
fn write_task<'a>(
    known: &KnownNames,
    space: &'a Name,
    addr: u64,
    bytes: &'a Bytes,
) -> ResolvedTask<'a>
    ensures { Resolves known.now result (pass_task known.now (pass_commands.Write space.now addr bytes.now)) }
{
    match known_space(known, space) {
        Ok(space) => Ok(LineTask::Written { space, addr, bytes }),
        Err(unknown) => Err(Refused::Unknown(unknown)),
    }
}

// `vN dma SPACE ADDR LEN to SPACE ADDR`
fn copy_task<'a>(
    known: &KnownNames,
    space: &'a Name,
    addr: u64,
    len: u8,
    to_space: &'a Name,
    to_addr: u64,
) -> ResolvedTask<'a>
    ensures { Resolves known.now result (pass_task known.now (pass_commands.Dma space.now addr len to_space.now to_addr)) }
{
    match (known_space(known, space), known_space(known, to_space)) {
        (Ok(space), Ok(to_space)) => Ok(LineTask::Copied {
            space,
            addr,
            len,
            to_space,
            to_addr,
        }),
        (Err(unknown), _) => Err(Refused::Unknown(unknown)),
        (Ok(_), Err(unknown)) => Err(Refused::Unknown(unknown)),
    }
}

// A line of a pass.
fn pass_task<'a>(known: &KnownNames, command: &'a PassCommand) -> ResolvedTask<'a>
    ensures { Resolves known.now result (pass_task known.now command.now) }
{
    match command {
        PassCommand::Enter => Ok(LineTask::Entered),
        PassCommand::Leave => Ok(LineTask::Left),
        PassCommand::Read { space, addr, len } => read_task(known, space, *addr, *len),
        PassCommand::Write { space, addr, bytes } => write_task(known, space, *addr, bytes),
        PassCommand::Do(change) => change_task(known, change),
        PassCommand::Dma {
            space,
            addr,
            len,
            to_space,
            to_addr,
        } => copy_task(known, space, *addr, *len, to_space, *to_addr),
    }
}

/// What a line asks for by what is known, or the refusal of one of its names.
///
/// Memory is taken for the bytes of a `load` alone; also where more spaces or listeners were made than have numbers, the
/// answer is out of memory.
pub fn task_of<'a>(
    alloc: Global,
    known: &KnownNames,
    command: &'a Command,
) -> Result<ResolvedTask<'a>, AllocError>
    ensures { IfOk result (λ task. Resolves known.now task (task_of known.now command.now)) }
{
    match command {
        Command::Machine { size: _ } => Ok(Ok(LineTask::Idle)),
        Command::Region { name, size, kind } => Ok(region_task(known, name, *size, kind)),
        Command::Space { name, root } => space_task(known, name, root),
        Command::Change(change) => Ok(change_task(known, change)),
        Command::Load {
            region,
            offset,
            bytes,
        } => load_task(alloc, known, region, *offset, bytes),
        Command::Drop { region } => Ok(drop_task(known, region)),
        Command::Begin => Ok(Ok(LineTask::Ordered {
            order: DeskOrder::Begin,
            naming: Naming::Keeps,
        })),
        Command::Commit => Ok(Ok(LineTask::Ordered {
            order: DeskOrder::Commit,
            naming: Naming::Keeps,
        })),
        Command::Reap => Ok(Ok(LineTask::Ordered {
            order: DeskOrder::Reap,
            naming: Naming::Keeps,
        })),
        Command::Listen {
            name,
            space,
            priority,
        } => listen_task(known, name, space, *priority),
        Command::Unlisten { name } => Ok(unlisten_task(known, name)),
        Command::Watch {
            name,
            region,
            first,
            last,
        } => Ok(watch_task(known, name, region, *first, *last)),
        Command::Unwatch { name } => Ok(unwatch_task(known, name)),
        Command::Show { space } => Ok(show_task(known, space)),
        Command::At { space, addr } => Ok(find_task(known, space, *addr)),
        Command::Notified { number } => Ok(Ok(LineTask::Ordered {
            order: DeskOrder::Notified(*number),
            naming: Naming::Keeps,
        })),
        Command::Dirty { region, client } => Ok(dirty_task(known, region, *client)),
        Command::Pass { pass: _, command } => Ok(pass_task(known, command)),
        Command::Par | Command::End => Ok(Ok(LineTask::Idle)),
    }
}
