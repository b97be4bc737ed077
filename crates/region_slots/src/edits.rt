// The calls that change the fields of one region.

ghost use Rattle.std.specs.Prelude.{◌≡◌, ◌+◌, ◌-◌, ◌<◌, ◌≤◌, ◌^◌, None, OnOk, OnErr};
ghost use Rattle.mem_base.specs.map.TableRefusals.{bad_page};
ghost use Rattle.mem_base.specs.map.Clients.{logged};
ghost use Rattle.mem_base.specs.map.Edits.{edited, retargeted};
ghost use Rattle.region_slots.specs.Edits.{Allows, new_size};

use mem_base::{Call, Client, Entry, Kind, Node, Perm, Size, SpaceId};
use std::alloc::AllocError;

/// An alias with its window at another offset; any other kind as it is.
fn retargeted(kind: Kind, offset: u64) -> Kind
    ensures { result ≡ retargeted offset kind }
{
    match kind {
        Kind::Alias { target, .. } => Kind::Alias { target, offset },
        _ => kind,
    }
}

/// A logging mask with one client's bit on or off.
fn logged(client: Client, on: bool, mask: u8) -> u8
    ensures { result ≡ logged client on mask }
{
    let bit = client.bit();
    if on { mask | bit } else { mask - (mask & bit) }
}

/// The translation of a page of this size.
fn entry_of(iova: u64, size: Size, space: SpaceId, translated: u64, perm: Perm) -> Entry
    requires { bad_page iova size ≡ None }
    ensures value { result ≡ record { iova = iova; mask = size - 1; space = space; translated = translated; perm = perm } }
    ensures within { iova + (size - 1) < 2 ^ 64 }
    ensures bytes { 1 ≤ size }
{
    let mask = (size.get() - 1) as u64;
    Entry {
        iova,
        mask,
        space,
        translated,
        perm,
    }
}

/// The size that a call gives to the region that it changes, if it gives one.
pub(crate) fn new_size(call: &Call) -> Option<Size>
    ensures { result ≡ new_size call.now }
{
    match *call {
        Call::Resize { size, .. } => Some(size),
        _ => None,
    }
}

/// Changes the fields of a region as the call says. A call that changes no field leaves it as it is.
pub(crate) fn edit(node: &mut Node, call: &Call) -> Result<(), AllocError>
    requires { Allows call.now node.old }
    ensures ok { OnOk result (node.new ≡ edited call.now node.old) }
    ensures err { OnErr result (node.new ≡ node.old) }
{
    match *call {
        Call::Resize { size, .. } => node.size = size,
        Call::Retarget { offset, .. } => node.kind = retargeted(node.kind, offset),
        Call::Enable { on, .. } => node.enabled = on,
        Call::Readonly { on, .. } => node.readonly = on,
        Call::Nonvolatile { on, .. } => node.nonvolatile = on,
        Call::Unmergeable { on, .. } => node.unmergeable = on,
        Call::Romd { on, .. } => node.romd = on,
        Call::Log { client, on, .. } => node.log = logged(client, on, node.log),
        Call::Map {
            iova,
            size,
            space,
            translated,
            perm,
            ..
        } => node
            .entries
            .put(entry_of(iova, size, space, translated, perm))?,
        Call::Unmap { iova, .. } => node.entries.remove(iova),
        Call::Event { event, .. } => node.events.put(event)?,
        Call::Unevent {
            offset,
            size,
            matched,
            value,
            ..
        } => node.events.remove(offset, size, matched, value),
        _ => {}
    }
    Ok(())
}
