// The words of a table.
ghost use Rattle.std.specs.Prelude.{◌≡◌};
ghost use Rattle.mem_base.specs.script.Operands.{clients, perms, switches, value_in};
ghost use Rattle.mem_base.specs.script.RegionForms.{device_kinds};

use mem_base::{Client, DeviceKind, Perm};

pub fn switch_of(word: &[u8]) -> Option<bool>
    ensures { result ≡ value_in switches word.now }
{
    if word == b"on".as_slice() {
        Some(true)
    } else if word == b"off".as_slice() {
        Some(false)
    } else {
        None
    }
}

pub fn client_of(word: &[u8]) -> Option<Client>
    ensures { result ≡ value_in clients word.now }
{
    if word == b"vga".as_slice() {
        Some(Client::Vga)
    } else if word == b"code".as_slice() {
        Some(Client::Code)
    } else if word == b"migration".as_slice() {
        Some(Client::Migration)
    } else {
        None
    }
}

pub fn perm_of(word: &[u8]) -> Option<Perm>
    ensures { result ≡ value_in perms word.now }
{
    if word == b"none".as_slice() {
        Some(Perm::Nothing)
    } else if word == b"r".as_slice() {
        Some(Perm::Read)
    } else if word == b"w".as_slice() {
        Some(Perm::Write)
    } else if word == b"rw".as_slice() {
        Some(Perm::Both)
    } else {
        None
    }
}

pub fn device_kind_of(word: &[u8]) -> Option<DeviceKind>
    ensures { result ≡ value_in device_kinds word.now }
{
    if word == b"latch".as_slice() {
        Some(DeviceKind::Latch)
    } else if word == b"count".as_slice() {
        Some(DeviceKind::Count)
    } else if word == b"bell".as_slice() {
        Some(DeviceKind::Bell)
    } else if word == b"fault".as_slice() {
        Some(DeviceKind::Fault)
    } else {
        None
    }
}
