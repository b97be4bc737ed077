// The text of a command, as its tokens are written.
ghost use Rattle.std.specs.Prelude.{◌≡◌, ◌++◌, [], ◌∷◌, OnOk, codes, decimal};
ghost use Rattle.mem_base.specs.script.Printing.{bytes_text, change_tokens, client_text, command_tokens, data_tokens, device_kind_text};
ghost use Rattle.mem_base.specs.script.Printing.{device_tokens, flag_tokens, kind_text, kind_tokens, number_text, pass_text, pass_tokens, perm_text};
ghost use Rattle.mem_base.specs.script.Printing.{prio_tokens, range_text, range_tokens, regs_tokens, switch_text};
ghost use Rattle.script_lines.specs.Tokens.{after_spaces};

use crate::numbers::{push_bytes, push_decimal, push_hex, push_signed};
use mem_base::{
    Bytes, Client, Command, Device, DeviceKind, MapChange, Name, PassCommand, PassId, Perm,
    RegionKind, Size,
};
use std::alloc::AllocError;

fn switch_text(on: bool) -> &'static [u8]
    ensures { result.now ≡ switch_text on }
{
    if on { b"on" } else { b"off" }
}

pub fn client_text(client: Client) -> &'static [u8]
    ensures { result.now ≡ client_text client }
{
    match client {
        Client::Vga => b"vga",
        Client::Code => b"code",
        Client::Migration => b"migration",
    }
}

pub fn perm_text(perm: Perm) -> &'static [u8]
    ensures { result.now ≡ perm_text perm }
{
    match perm {
        Perm::Nothing => b"none",
        Perm::Read => b"r",
        Perm::Write => b"w",
        Perm::Both => b"rw",
    }
}

fn device_kind_text(kind: DeviceKind) -> &'static [u8]
    ensures { result.now ≡ device_kind_text kind }
{
    match kind {
        DeviceKind::Latch => b"latch",
        DeviceKind::Count => b"count",
        DeviceKind::Bell => b"bell",
        DeviceKind::Fault => b"fault",
    }
}

// Adds a token, after a space.
fn push_word(text: &mut Vec<u8>, token: &[u8]) -> Result<(), AllocError>
    ensures { OnOk result (text.new.items ≡ text.old.items ++ (32 ∷ token.now)) }
{
    text.push(b' ')?;
    text.extend_from_slice(token)?;
    Ok(())
}

// A number in hexadecimal.
fn push_number(text: &mut Vec<u8>, number: u64) -> Result<(), AllocError>
    ensures { OnOk result (text.new.items ≡ text.old.items ++ (32 ∷ number_text number)) }
{
    push_word(text, b"0x")?;
    push_hex(text, u128::from(number))?;
    Ok(())
}

// A size in hexadecimal; the greatest has one bit more than an address.
#[tactic(auto, using(crate::proofs::Whole::whole_text))]
fn push_size(text: &mut Vec<u8>, size: Size) -> Result<(), AllocError>
    ensures { OnOk result (text.new.items ≡ text.old.items ++ (32 ∷ number_text size)) }
{
    let bytes = size.get();
    if bytes == 0x1_0000_0000_0000_0000 {
        push_word(text, b"0x10000000000000000")?;
    } else {
        push_number(text, bytes as u64)?;
    }
    Ok(())
}

// A number in decimal.
fn push_decimal_token(text: &mut Vec<u8>, number: u64) -> Result<(), AllocError>
    ensures { OnOk result (text.new.items ≡ text.old.items ++ (32 ∷ decimal number)) }
{
    text.push(b' ')?;
    push_decimal(text, number)?;
    Ok(())
}

// `prio N`, where N is not 0.
fn push_prio(text: &mut Vec<u8>, priority: i32) -> Result<(), AllocError>
    ensures { OnOk result (text.new.items ≡ text.old.items ++ after_spaces (prio_tokens priority)) }
{
    if priority != 0 {
        push_word(text, b"prio ")?;
        push_signed(text, priority)?;
    }
    Ok(())
}

// `data VALUE`, where there is one.
fn push_data(text: &mut Vec<u8>, value: Option<u64>) -> Result<(), AllocError>
    ensures { OnOk result (text.new.items ≡ text.old.items ++ after_spaces (data_tokens value)) }
{
    match value {
        Some(value) => {
            push_word(text, b"data")?;
            push_number(text, value)?;
            Ok(())
        }
        None => Ok(()),
    }
}

// The shapes of lines: a word, and one sort of operand or another.

fn push_named(text: &mut Vec<u8>, word: &[u8], name: &Name) -> Result<(), AllocError>
    ensures { OnOk result (text.new.items ≡ text.old.items ++ after_spaces (word.now ∷ name.now ∷ [])) }
{
    push_word(text, word)?;
    push_word(text, name.as_bytes())?;
    Ok(())
}

fn push_two_named(
    text: &mut Vec<u8>,
    word: &[u8],
    first: &Name,
    second: &Name,
) -> Result<(), AllocError>
    ensures { OnOk result (text.new.items ≡ text.old.items ++ after_spaces (word.now ∷ first.now ∷ second.now ∷ [])) }
{
    push_word(text, word)?;
    push_word(text, first.as_bytes())?;
    push_word(text, second.as_bytes())?;
    Ok(())
}

fn push_numbered(
    text: &mut Vec<u8>,
    word: &[u8],
    name: &Name,
    number: u64,
) -> Result<(), AllocError>
    ensures { OnOk result (text.new.items ≡ text.old.items ++ after_spaces (word.now ∷ name.now ∷ number_text number ∷ [])) }
{
    push_word(text, word)?;
    push_word(text, name.as_bytes())?;
    push_number(text, number)?;
    Ok(())
}

fn push_sized(text: &mut Vec<u8>, word: &[u8], name: &Name, size: Size) -> Result<(), AllocError>
    ensures { OnOk result (text.new.items ≡ text.old.items ++ after_spaces (word.now ∷ name.now ∷ number_text size ∷ [])) }
{
    push_word(text, word)?;
    push_word(text, name.as_bytes())?;
    push_size(text, size)?;
    Ok(())
}

fn push_switched(text: &mut Vec<u8>, word: &[u8], name: &Name, on: bool) -> Result<(), AllocError>
    ensures { OnOk result (text.new.items ≡ text.old.items ++ after_spaces (word.now ∷ name.now ∷ switch_text on ∷ [])) }
{
    push_word(text, word)?;
    push_word(text, name.as_bytes())?;
    push_word(text, switch_text(on))?;
    Ok(())
}

fn push_add(
    text: &mut Vec<u8>,
    parent: &Name,
    offset: u64,
    child: &Name,
    priority: i32,
) -> Result<(), AllocError>
    ensures { OnOk result (text.new.items ≡ text.old.items ++ after_spaces (codes "add" ∷ parent.now ∷ number_text offset ∷ child.now ∷ prio_tokens priority)) }
{
    push_word(text, b"add")?;
    push_word(text, parent.as_bytes())?;
    push_number(text, offset)?;
    push_word(text, child.as_bytes())?;
    push_prio(text, priority)?;
    Ok(())
}

// The tokens of a change, each after a space.
fn push_change(text: &mut Vec<u8>, change: &MapChange) -> Result<(), AllocError>
    ensures { OnOk result (text.new.items ≡ text.old.items ++ after_spaces (change_tokens change.now)) }
{
    match change {
        MapChange::Add {
            parent,
            offset,
            child,
            priority,
        } => push_add(text, parent, *offset, child, *priority),
        MapChange::Del { parent, child } => push_two_named(text, b"del", parent, child),
        MapChange::Move { child, offset } => push_numbered(text, b"move", child, *offset),
        MapChange::Resize { region, size } => push_sized(text, b"resize", region, *size),
        MapChange::Retarget { alias, offset } => push_numbered(text, b"retarget", alias, *offset),
        MapChange::Enable { region } => push_named(text, b"enable", region),
        MapChange::Disable { region } => push_named(text, b"disable", region),
        MapChange::Readonly { region, on } => push_switched(text, b"readonly", region, *on),
        MapChange::Nonvolatile { region, on } => push_switched(text, b"nonvolatile", region, *on),
        MapChange::Unmergeable { region, on } => push_switched(text, b"unmergeable", region, *on),
        MapChange::Romd { region, on } => push_switched(text, b"romd", region, *on),
        MapChange::Log { region, client, on } => push_log(text, region, *client, *on),
        MapChange::Global { on } => push_global(text, *on),
        MapChange::Map {
            region,
            iova,
            size,
            space,
            translated,
            perm,
        } => push_map(text, region, *iova, *size, space, *translated, *perm),
        MapChange::Unmap { region, iova } => push_numbered(text, b"unmap", region, *iova),
        MapChange::Event {
            region,
            offset,
            size,
            number,
            data,
        } => push_event(text, region, *offset, *size, *number, *data),
        MapChange::Unevent {
            region,
            offset,
            size,
            data,
        } => push_unevent(text, region, *offset, *size, *data),
    }
}

fn push_log(text: &mut Vec<u8>, region: &Name, client: Client, on: bool) -> Result<(), AllocError>
    ensures { OnOk result (text.new.items ≡ text.old.items ++ after_spaces (codes "log" ∷ region.now ∷ client_text client ∷ switch_text on ∷ [])) }
{
    push_word(text, b"log")?;
    push_word(text, region.as_bytes())?;
    push_word(text, client_text(client))?;
    push_word(text, switch_text(on))?;
    Ok(())
}

fn push_global(text: &mut Vec<u8>, on: bool) -> Result<(), AllocError>
    ensures { OnOk result (text.new.items ≡ text.old.items ++ after_spaces (codes "global" ∷ switch_text on ∷ [])) }
{
    push_word(text, b"global")?;
    push_word(text, switch_text(on))?;
    Ok(())
}

fn push_map(
    text: &mut Vec<u8>,
    region: &Name,
    iova: u64,
    size: Size,
    space: &Name,
    translated: u64,
    perm: Perm,
) -> Result<(), AllocError>
    ensures { OnOk result (text.new.items ≡ text.old.items ++ after_spaces
        (codes "map" ∷ region.now ∷ number_text iova ∷ number_text size ∷ space.now ∷ number_text translated ∷ perm_text perm ∷ [])) }
{
    push_numbered(text, b"map", region, iova)?;
    push_size(text, size)?;
    push_word(text, space.as_bytes())?;
    push_number(text, translated)?;
    push_word(text, perm_text(perm))?;
    Ok(())
}

fn push_event(
    text: &mut Vec<u8>,
    region: &Name,
    offset: u64,
    size: u8,
    number: u32,
    value: Option<u64>,
) -> Result<(), AllocError>
    ensures { OnOk result (text.new.items ≡ text.old.items ++ after_spaces
        (codes "event" ∷ region.now ∷ number_text offset ∷ decimal size ∷ decimal number ∷ data_tokens value)) }
{
    push_numbered(text, b"event", region, offset)?;
    push_decimal_token(text, u64::from(size))?;
    push_decimal_token(text, u64::from(number))?;
    push_data(text, value)?;
    Ok(())
}

fn push_unevent(
    text: &mut Vec<u8>,
    region: &Name,
    offset: u64,
    size: u8,
    value: Option<u64>,
) -> Result<(), AllocError>
    ensures { OnOk result (text.new.items ≡ text.old.items ++ after_spaces
        (codes "unevent" ∷ region.now ∷ number_text offset ∷ decimal size ∷ data_tokens value)) }
{
    push_numbered(text, b"unevent", region, offset)?;
    push_decimal_token(text, u64::from(size))?;
    push_data(text, value)?;
    Ok(())
}

// The options of a device, where they are no defaults.

fn push_regs(text: &mut Vec<u8>, regs: u32) -> Result<(), AllocError>
    ensures { OnOk result (text.new.items ≡ text.old.items ++ after_spaces (regs_tokens regs)) }
{
    if regs != 1 {
        push_word(text, b"regs")?;
        push_decimal_token(text, u64::from(regs))?;
    }
    Ok(())
}

fn push_dashed(text: &mut Vec<u8>, low: u8, high: u8) -> Result<(), AllocError>
    ensures { OnOk result (text.new.items ≡ text.old.items ++ (32 ∷ range_text (low, high))) }
{
    push_decimal_token(text, u64::from(low))?;
    text.push(b'-')?;
    push_decimal(text, u64::from(high))?;
    Ok(())
}

fn push_range(text: &mut Vec<u8>, keyword: &[u8], low: u8, high: u8) -> Result<(), AllocError>
    ensures { OnOk result (text.new.items ≡ text.old.items ++ after_spaces (range_tokens keyword.now (low, high))) }
{
    if low == 1 && high == 4 {
        return Ok(());
    }
    push_word(text, keyword)?;
    push_dashed(text, low, high)?;
    Ok(())
}

fn push_flag(text: &mut Vec<u8>, keyword: &[u8], on: bool) -> Result<(), AllocError>
    ensures { OnOk result (text.new.items ≡ text.old.items ++ after_spaces (flag_tokens keyword.now on)) }
{
    if on {
        push_word(text, keyword)?;
    }
    Ok(())
}

fn push_device(text: &mut Vec<u8>, device: Device) -> Result<(), AllocError>
    ensures { OnOk result (text.new.items ≡ text.old.items ++ after_spaces (device_tokens device)) }
{
    push_word(text, device_kind_text(device.kind))?;
    push_regs(text, device.regs)?;
    push_range(text, b"valid", device.ops.valid_min, device.ops.valid_max)?;
    push_range(text, b"impl", device.ops.impl_min, device.ops.impl_max)?;
    push_flag(text, b"vunaligned", device.ops.valid_unaligned)?;
    push_flag(text, b"iunaligned", device.ops.impl_unaligned)?;
    push_flag(text, b"big", device.ops.big)?;
    Ok(())
}

fn kind_text(kind: &RegionKind) -> &'static [u8]
    ensures { result.now ≡ kind_text kind.now }
{
    match kind {
        RegionKind::Container => b"container",
        RegionKind::Ram => b"ram",
        RegionKind::Rom => b"rom",
        RegionKind::RomDevice(_) => b"romdev",
        RegionKind::Io(_) => b"io",
        RegionKind::Iommu => b"iommu",
        RegionKind::Alias { .. } => b"alias",
        RegionKind::Reserve => b"reserve",
    }
}

fn push_target(text: &mut Vec<u8>, target: &Name, offset: u64) -> Result<(), AllocError>
    ensures { OnOk result (text.new.items ≡ text.old.items ++ after_spaces (target.now ∷ number_text offset ∷ [])) }
{
    push_word(text, target.as_bytes())?;
    push_number(text, offset)?;
    Ok(())
}

fn push_kind_tokens(text: &mut Vec<u8>, kind: &RegionKind) -> Result<(), AllocError>
    ensures { OnOk result (text.new.items ≡ text.old.items ++ after_spaces (kind_tokens kind.now)) }
{
    match kind {
        RegionKind::RomDevice(device) => push_device(text, *device),
        RegionKind::Io(device) => push_device(text, *device),
        RegionKind::Alias { target, offset } => push_target(text, target, *offset),
        _ => Ok(()),
    }
}

fn push_region(
    text: &mut Vec<u8>,
    name: &Name,
    size: Size,
    kind: &RegionKind,
) -> Result<(), AllocError>
    ensures { OnOk result (text.new.items ≡ text.old.items ++ after_spaces
        (codes "region" ∷ name.now ∷ kind_text kind.now ∷ number_text size ∷ kind_tokens kind.now)) }
{
    push_word(text, b"region")?;
    push_word(text, name.as_bytes())?;
    push_word(text, kind_text(kind))?;
    push_size(text, size)?;
    push_kind_tokens(text, kind)?;
    Ok(())
}

fn push_pass(text: &mut Vec<u8>, pass: PassId) -> Result<(), AllocError>
    ensures { OnOk result (text.new.items ≡ text.old.items ++ (32 ∷ pass_text pass)) }
{
    push_word(text, b"v")?;
    push_decimal(text, u64::from(pass.number()))?;
    Ok(())
}

fn push_read(text: &mut Vec<u8>, space: &Name, addr: u64, len: u8) -> Result<(), AllocError>
    ensures { OnOk result (text.new.items ≡ text.old.items ++ after_spaces (codes "read" ∷ space.now ∷ number_text addr ∷ decimal len ∷ [])) }
{
    push_numbered(text, b"read", space, addr)?;
    push_decimal_token(text, u64::from(len))?;
    Ok(())
}

fn push_do(text: &mut Vec<u8>, change: &MapChange) -> Result<(), AllocError>
    ensures { OnOk result (text.new.items ≡ text.old.items ++ after_spaces (codes "do" ∷ change_tokens change.now)) }
{
    push_word(text, b"do")?;
    push_change(text, change)?;
    Ok(())
}

// Two lower-case digits a byte.
fn push_hex_bytes(text: &mut Vec<u8>, bytes: &[u8]) -> Result<(), AllocError>
    ensures { OnOk result (text.new.items ≡ text.old.items ++ (32 ∷ bytes_text bytes.now)) }
{
    text.push(b' ')?;
    push_bytes(text, bytes)?;
    Ok(())
}

fn push_load(
    text: &mut Vec<u8>,
    region: &Name,
    offset: u64,
    bytes: &Bytes,
) -> Result<(), AllocError>
    ensures { OnOk result (text.new.items ≡ text.old.items ++ after_spaces (codes "load" ∷ region.now ∷ number_text offset ∷ bytes_text bytes.now ∷ [])) }
{
    push_numbered(text, b"load", region, offset)?;
    push_hex_bytes(text, bytes.as_slice())?;
    Ok(())
}

fn push_listen(
    text: &mut Vec<u8>,
    name: &Name,
    space: &Name,
    priority: i32,
) -> Result<(), AllocError>
    ensures { OnOk result (text.new.items ≡ text.old.items ++ after_spaces (codes "listen" ∷ name.now ∷ space.now ∷ prio_tokens priority)) }
{
    push_two_named(text, b"listen", name, space)?;
    push_prio(text, priority)?;
    Ok(())
}

fn push_watch(
    text: &mut Vec<u8>,
    name: &Name,
    region: &Name,
    first: u64,
    last: u64,
) -> Result<(), AllocError>
    ensures { OnOk result (text.new.items ≡ text.old.items ++ after_spaces
        (codes "watch" ∷ name.now ∷ region.now ∷ number_text first ∷ number_text last ∷ [])) }
{
    push_two_named(text, b"watch", name, region)?;
    push_number(text, first)?;
    push_number(text, last)?;
    Ok(())
}

fn push_machine(text: &mut Vec<u8>, size: Size) -> Result<(), AllocError>
    ensures { OnOk result (text.new.items ≡ text.old.items ++ after_spaces (codes "machine" ∷ number_text size ∷ [])) }
{
    push_word(text, b"machine")?;
    push_size(text, size)?;
    Ok(())
}

fn push_notified(text: &mut Vec<u8>, number: u32) -> Result<(), AllocError>
    ensures { OnOk result (text.new.items ≡ text.old.items ++ after_spaces (codes "notified" ∷ decimal number ∷ [])) }
{
    push_word(text, b"notified")?;
    push_decimal_token(text, u64::from(number))?;
    Ok(())
}

fn push_dirty(text: &mut Vec<u8>, region: &Name, client: Client) -> Result<(), AllocError>
    ensures { OnOk result (text.new.items ≡ text.old.items ++ after_spaces (codes "dirty" ∷ region.now ∷ client_text client ∷ [])) }
{
    push_named(text, b"dirty", region)?;
    push_word(text, client_text(client))?;
    Ok(())
}

fn push_write(text: &mut Vec<u8>, space: &Name, addr: u64, bytes: &Bytes) -> Result<(), AllocError>
    ensures { OnOk result (text.new.items ≡ text.old.items ++ after_spaces
        (codes "write" ∷ space.now ∷ number_text addr ∷ bytes_text bytes.now ∷ [])) }
{
    push_numbered(text, b"write", space, addr)?;
    push_hex_bytes(text, bytes.as_slice())?;
    Ok(())
}

fn push_dma(
    text: &mut Vec<u8>,
    space: &Name,
    addr: u64,
    len: u8,
    to_space: &Name,
    to_addr: u64,
) -> Result<(), AllocError>
    ensures { OnOk result (text.new.items ≡ text.old.items ++ after_spaces
        (codes "dma" ∷ space.now ∷ number_text addr ∷ decimal len ∷ codes "to" ∷ to_space.now ∷ number_text to_addr ∷ [])) }
{
    push_numbered(text, b"dma", space, addr)?;
    push_decimal_token(text, u64::from(len))?;
    push_numbered(text, b"to", to_space, to_addr)?;
    Ok(())
}

fn push_bare(text: &mut Vec<u8>, word: &[u8]) -> Result<(), AllocError>
    ensures { OnOk result (text.new.items ≡ text.old.items ++ after_spaces (word.now ∷ [])) }
{
    push_word(text, word)?;
    Ok(())
}

// What a pass does.
fn push_pass_tokens(text: &mut Vec<u8>, command: &PassCommand) -> Result<(), AllocError>
    ensures { OnOk result (text.new.items ≡ text.old.items ++ after_spaces (pass_tokens command.now)) }
{
    match command {
        PassCommand::Enter => push_bare(text, b"enter"),
        PassCommand::Leave => push_bare(text, b"leave"),
        PassCommand::Read { space, addr, len } => push_read(text, space, *addr, *len),
        PassCommand::Write { space, addr, bytes } => push_write(text, space, *addr, bytes),
        PassCommand::Do(change) => push_do(text, change),
        PassCommand::Dma {
            space,
            addr,
            len,
            to_space,
            to_addr,
        } => push_dma(text, space, *addr, *len, to_space, *to_addr),
    }
}

// A line of a pass.
fn push_pass_line(text: &mut Vec<u8>, pass: PassId, command: &PassCommand) -> Result<(), AllocError>
    ensures { OnOk result (text.new.items ≡ text.old.items ++ after_spaces (pass_text pass ∷ pass_tokens command.now)) }
{
    push_pass(text, pass)?;
    push_pass_tokens(text, command)?;
    Ok(())
}

/// Adds the tokens of a command to a text, each after a space.
pub fn push_tokens(text: &mut Vec<u8>, command: &Command) -> Result<(), AllocError>
    ensures { OnOk result (text.new.items ≡ text.old.items ++ after_spaces (command_tokens command.now)) }
{
    match command {
        Command::Machine { size } => push_machine(text, *size),
        Command::Region { name, size, kind } => push_region(text, name, *size, kind),
        Command::Space { name, root } => push_two_named(text, b"space", name, root),
        Command::Change(change) => push_change(text, change),
        Command::Load {
            region,
            offset,
            bytes,
        } => push_load(text, region, *offset, bytes),
        Command::Drop { region } => push_named(text, b"drop", region),
        Command::Begin => push_bare(text, b"begin"),
        Command::Commit => push_bare(text, b"commit"),
        Command::Reap => push_bare(text, b"reap"),
        Command::Listen {
            name,
            space,
            priority,
        } => push_listen(text, name, space, *priority),
        Command::Unlisten { name } => push_named(text, b"unlisten", name),
        Command::Watch {
            name,
            region,
            first,
            last,
        } => push_watch(text, name, region, *first, *last),
        Command::Unwatch { name } => push_named(text, b"unwatch", name),
        Command::Show { space } => push_named(text, b"show", space),
        Command::At { space, addr } => push_numbered(text, b"at", space, *addr),
        Command::Notified { number } => push_notified(text, number.number()),
        Command::Dirty { region, client } => push_dirty(text, region, *client),
        Command::Pass { pass, command } => push_pass_line(text, *pass, command),
        Command::Par => push_bare(text, b"par"),
        Command::End => push_bare(text, b"end"),
    }
}
