// What accesses reach, for a machine whose memory and devices the caller has.
ghost use Rattle.std.specs.Prelude.{◌≡◌, ◌≤◌, ◌<◌, ◌+◌, ◌^◌, ◌↔◌, IfOk, IsTrue, option_map, slice_get};
ghost use Rattle.mem_base.specs.access.AccessSteps.{reading, writing};
ghost use Rattle.libvobrekan.specs.Answers.{bad_argument};
ghost use Rattle.libvobrekan.specs.Arguments.{space_at};
ghost use Rattle.libvobrekan.specs.Buffers.{put_each};
ghost use Rattle.libvobrekan.specs.Plans.{HasPlan, IsListOf, IsTold, ShowsPlan, client_told, is_core, items_of, lists_of, plain_told, reach_told, with_request};

use crate::answers::{Answer, bad_argument, done, no_machine, of_refusal};
use crate::handle::Handle;
use access_plan::{Reach, Request, core_plan_read, core_plan_write, plan_read, plan_write};
use generation::Generation;
use mem_base::{Client, Edition, Refusal, SpaceId};
use std::alloc::{AllocError, Global};

/// One thing that an access reaches. `what` is 0 memory, 1 a callback of a device, 2 a notifier, 3 a mark of a page, 4 nothing. It is
/// about `len` bytes of the access, those from byte `at` of it on; a mark is about none.
#[repr(C)]
#[derive(Clone, Copy, Debug, PartialEq, Eq)]
pub struct ReachedNumbers {
    /// The offset in the region, or the page that is marked, of 4,096 bytes, from 0 on.
    pub offset: u64,
    /// The number that a callback takes.
    pub value: u64,
    pub at: u64,
    pub len: u64,
    pub what: u32,
    /// The region whose memory, callback or page it is.
    pub region: u32,
    /// The number of the notifier, or of the client for whom a page is marked: 0 display, 1 code, 2 migration.
    pub number: u32,
    /// The size of a callback, in bytes.
    pub size: u8,
    /// Whether a callback takes a number; else it answers one, of whose bytes in the order of addresses the first `len` are read.
    pub takes: bool,
    /// Whether the first of these bytes is the highest.
    pub big: bool,
}

// A thing that has no number but these.
fn plain(what: u32, at: usize, len: usize) -> ReachedNumbers
    ensures { result ≡ plain_told what at len }
{
    ReachedNumbers {
        offset: 0,
        value: 0,
        at: at as u64,
        len: len as u64,
        what,
        region: 0,
        number: 0,
        size: 0,
        takes: false,
        big: false,
    }
}

// The number of a client.
fn client_told(client: Client) -> u32
    ensures { result ≡ client_told client }
{
    match client {
        Client::Vga => 0,
        Client::Code => 1,
        Client::Migration => 2,
    }
}

// A callback, with what it is to do.
fn with_request(mut numbers: ReachedNumbers, request: Request) -> ReachedNumbers
    ensures { result ≡ with_request numbers request }
{
    match request {
        Request::Answers { len: _, big } => numbers.big = big,
        Request::Takes { value } => {
            numbers.value = value;
            numbers.takes = true;
        }
    }
    numbers
}

// One thing that an access reaches.
fn reach_told(reach: &Reach) -> ReachedNumbers
    ensures { result ≡ reach_told reach.now }
{
    match *reach {
        Reach::Memory {
            region,
            offset,
            at,
            len,
        } => ReachedNumbers {
            offset,
            region: region.0,
            ..plain(0, at, len)
        },
        Reach::Callback {
            region,
            offset,
            size,
            request,
            at,
            len,
        } => with_request(
            ReachedNumbers {
                offset,
                size,
                region: region.0,
                ..plain(1, at, len)
            },
            request,
        ),
        Reach::Notifier { number, at, len } => ReachedNumbers {
            number,
            ..plain(2, at, len)
        },
        Reach::Mark {
            region,
            client,
            page,
        } => ReachedNumbers {
            offset: page,
            region: region.0,
            number: client_told(client),
            ..plain(3, 0, 0)
        },
        Reach::Nothing { at, len } => plain(4, at, len),
    }
}

// The thing at an index of a list, if there is one.
fn told_at(list: &[Reach], i: usize) -> Option<ReachedNumbers>
    ensures { result ≡ option_map reach_told (slice_get list.now i) }
{
    match list.get(i) {
        Some(reach) => Some(reach_told(reach)),
        None => None,
    }
}

// Puts the things of a list into a buffer, as many as there is room for.
fn put_reached(list: &[Reach], out: &mut [ReachedNumbers])
    ensures { out.new ≡ put_each reach_told list.now out.old }
{
    let count = list.len().min(out.len());
    for i in 0..count {
        if let Some(numbers) = told_at(list, i) {
            out[i] = numbers;
        }
    }
}

// Whether an access goes on past the last address.
fn is_past(addr: u64, len: usize) -> bool
    ensures { IsTrue result ↔ 2 ^ 64 < addr + len }
{
    len > 0 && len as u64 - 1 > u64::MAX - addr
}

// The list of a read. None where it goes on past the last address, or meets the last offsets of a device.
fn list_read(
    alloc: Global,
    g: &Generation,
    core: bool,
    space: SpaceId,
    addr: u64,
    len: usize,
) -> Result<Option<Vec<Reach>>, AllocError>
    ensures { IfOk result (λ o. IsListOf core g.now.forest space addr (reading len) (items_of o)) }
{
    if is_past(addr, len) {
        return Ok(None);
    }
    if core {
        return core_plan_read(alloc, g, space, addr, len);
    }
    let list = plan_read(alloc, g, space, addr, len)?;
    Ok(Some(list))
}

// The list of a write, as `list_read` makes it of a read.
fn list_write(
    alloc: Global,
    g: &Generation,
    core: bool,
    space: SpaceId,
    addr: u64,
    bytes: &[u8],
) -> Result<Option<Vec<Reach>>, AllocError>
    ensures { IfOk result (λ o. IsListOf core g.now.forest space addr (writing bytes.now) (items_of o)) }
{
    if is_past(addr, bytes.len()) {
        return Ok(None);
    }
    if core {
        return core_plan_write(alloc, g, space, addr, bytes);
    }
    let list = plan_write(alloc, g, space, addr, bytes)?;
    Ok(Some(list))
}

// A list into a buffer, and the answer.
fn told(
    list: Result<Option<Vec<Reach>>, AllocError>,
    number: u64,
    out: &mut [ReachedNumbers],
) -> Answer
    ensures { IsTold (lists_of list) number out.old result out.new }
{
    match list {
        Ok(Some(list)) => {
            put_reached(&list, out);
            done(list.len() as u64, number)
        }
        Ok(None) => of_refusal(Refusal::BadSize),
        Err(_) => of_refusal(Refusal::Memory),
    }
}

/// What a read reaches in a generation.
pub(crate) fn read_in(
    alloc: Global,
    g: &Generation,
    core: bool,
    space: SpaceId,
    addr: u64,
    len: usize,
    out: &mut [ReachedNumbers],
) -> Answer
    ensures { HasPlan g.now.forest g.now.number core space addr (reading len) out.old result out.new }
{
    let list = list_read(alloc, g, core, space, addr, len);
    told(list, g.number(), out)
}

/// What a write reaches in a generation.
pub(crate) fn write_in(
    alloc: Global,
    g: &Generation,
    core: bool,
    space: SpaceId,
    addr: u64,
    bytes: &[u8],
    out: &mut [ReachedNumbers],
) -> Answer
    ensures { HasPlan g.now.forest g.now.number core space addr (writing bytes.now) out.old result out.new }
{
    let list = list_write(alloc, g, core, space, addr, bytes);
    told(list, g.number(), out)
}

/// What a read of `len` bytes of a space reaches in the current generation, in order and nothing else, for a monitor that has the memory
/// and the devices itself: it makes the callbacks, reads its memory, and takes 0 where nothing is. `way` is 0 for this machine's way, in
/// which each range takes its own bytes, and 1 for QEMU's, in which a device takes whole pieces that the end of its range does not
/// cut. Memory of the host is reached as RAM is. QEMU's core, `address_space_read`.
///
/// `out` has as many things as there is room for; `value` of the answer is how many there are, and `other` the number of the
/// generation. It is refused with code 9 where the access goes on past the last address (or, in QEMU's way, meets the last 7 offsets of
/// a device of 2^64 bytes), and with 22 for another way; then nothing is written, and neither where memory runs out.
#[unsafe(no_mangle)]
pub extern "C" fn vb_plan_read(
    alloc: Global,
    handle: &mut Handle,
    way: u32,
    space: u32,
    addr: u64,
    len: usize,
    out: &mut [ReachedNumbers],
) -> Answer
    ensures plan { way < 2 → ShowsPlan handle.old.machine (is_core way) (space_at space) addr (reading len) out.old result out.new }
    ensures argument { 2 ≤ way → (result ≡ bad_argument way) × (out.new ≡ out.old) }
    ensures same { handle.new.machine ≡ handle.old.machine }
{
    if way >= 2 {
        return bad_argument(u64::from(way));
    }
    let Some(machine) = handle.take(alloc) else {
        return no_machine();
    };
    let answer = read_in(
        alloc,
        machine.current(),
        way == 1,
        SpaceId(space),
        addr,
        len,
        out,
    );
    handle.put(alloc, machine);
    answer
}

/// What a write of bytes to a space reaches, as `vb_plan_read` tells it of a read: callbacks come with the numbers that they take, and
/// pages that are logged are to be marked. Memory that is shown through a read-only alias takes no write in this machine's way, and takes it
/// in QEMU's, which asks the region itself. QEMU's core, `address_space_write`.
#[unsafe(no_mangle)]
pub extern "C" fn vb_plan_write(
    alloc: Global,
    handle: &mut Handle,
    way: u32,
    space: u32,
    addr: u64,
    bytes: &[u8],
    out: &mut [ReachedNumbers],
) -> Answer
    ensures plan { way < 2 → ShowsPlan handle.old.machine (is_core way) (space_at space) addr (writing bytes.now) out.old result out.new }
    ensures argument { 2 ≤ way → (result ≡ bad_argument way) × (out.new ≡ out.old) }
    ensures same { handle.new.machine ≡ handle.old.machine }
{
    if way >= 2 {
        return bad_argument(u64::from(way));
    }
    let Some(machine) = handle.take(alloc) else {
        return no_machine();
    };
    let answer = write_in(
        alloc,
        machine.current(),
        way == 1,
        SpaceId(space),
        addr,
        bytes,
        out,
    );
    handle.put(alloc, machine);
    answer
}
