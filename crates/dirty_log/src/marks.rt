// The marks of a write, one after another.
ghost use Rattle.std.specs.Prelude.{◌≡◌, ◌+◌, ◌-◌, ◌/◌, ◌<◌, drop, option_map};
ghost use Rattle.mem_base.specs.map.Limits.{page_size};
ghost use Rattle.mem_base.specs.access.Marks.{marks_of};
ghost use Rattle.dirty_log.specs.MarksLeft.{has, first_of, clients_after, all_clients};

use mem_base::{Client, PAGE_SIZE};
use std::marker::Model;

/// The marks of a write that are still to come: pages ascending, and the clients of a page ascending.
#[derive(Debug, Drop)]
pub struct Marks {
    log: u8,
    last: u64,
    next: Option<(u64, Client)>,
}

impl Model for Marks {
    ghost use Rattle.std.specs.Prelude.{List, ℕ};
    ghost use Rattle.mem_base.specs.declared.map.kinds.Client.{Client};
    ghost use Rattle.dirty_log.specs.MarksLeft.{marks_left};

    ghost Value = { List (ℕ × Client) };

    ghost view = { λ m. marks_left m.log m.last m.next };
}

// Whether a logging mask has a client.
fn has(log: u8, client: Client) -> bool
    ensures { result ≡ has log client }
{
    log & client.bit() != 0
}

// The first client of a mask after this one.
fn client_after(log: u8, client: Client) -> Option<Client>
    ensures { result ≡ first_of (clients_after log client) }
{
    match client {
        Client::Vga if has(log, Client::Code) => Some(Client::Code),
        Client::Migration => None,
        _ if has(log, Client::Migration) => Some(Client::Migration),
        _ => None,
    }
}

// The first client of a mask.
fn first_client(log: u8) -> Option<Client>
    ensures { result ≡ first_of (all_clients log) }
{
    if has(log, Client::Vga) {
        return Some(Client::Vga);
    }
    client_after(log, Client::Vga)
}

// The first mark of a page.
fn first_mark(log: u8, page: u64) -> Option<(u64, Client)>
    ensures { result ≡ option_map (λ c. (page, c)) (first_of (all_clients log)) }
{
    first_client(log).map(|client| (page, client))
}

// The page of the last of some bytes from an offset on.
fn last_page(offset: u64, len: u64) -> u64
    requires { 0 < len }
    ensures { result ≡ (offset + (len - 1)) / page_size }
{
    let last = u128::from(offset) + u128::from(len - 1);
    (last / u128::from(PAGE_SIZE)) as u64
}

/// What a write of `len` bytes at an offset in a region marks, where its pages are logged by the mask `log`: each page
/// that it touches, for each client of the mask. A write of no bytes marks nothing.
///
/// QEMU's core, `cpu_physical_memory_set_dirty_range`; pages and clients ascend by this project's own rule. It takes no
/// memory.
pub fn marks_of(log: u8, offset: u64, len: u64) -> Marks
    ensures { result ≡ marks_of log offset len }
{
    if len == 0 {
        return Marks {
            log,
            last: 0,
            next: None,
        };
    }
    Marks {
        log,
        last: last_page(offset, len),
        next: first_mark(log, offset / PAGE_SIZE),
    }
}

impl Marks {
    /// The next mark, a page of the region and a client: `None` exactly where none is left.
    pub fn next(&mut self) -> Option<(u64, Client)>
        ensures first { result ≡ first_of self.old }
        ensures rest { self.new ≡ drop 1 self.old }
    {
        let (page, client) = self.next?;
        self.next = match client_after(self.log, client) {
            Some(client) => Some((page, client)),
            None if page < self.last => first_mark(self.log, page + 1),
            None => None,
        };
        Some((page, client))
    }
}
