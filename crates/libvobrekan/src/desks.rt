// The desk of a machine that virtual CPUs share: the writer's calls, beside what the virtual CPUs do.
ghost use Rattle.std.specs.Prelude.{◌≡◌, ◌<◌, ◌≤◌, ◌^◌, IfNone, IfOk, IfSome, None, []};
ghost use Rattle.mem_base.specs.map.Limits.{most_passes, most_words, notifier_count};
ghost use Rattle.mem_base.specs.machine.Orders.{configure, notified, reap};
ghost use Rattle.mem_base.specs.machine.Reaps.{first_writer};
ghost use Rattle.writer_run.specs.Turns.{answer_by};
ghost use Rattle.libvobrekan.specs.Answers.{answer_told, bad_argument, code_memory, done, has_machine};
ghost use Rattle.libvobrekan.specs.Arguments.{client_of, region_at, space_at};
ghost use Rattle.libvobrekan.specs.Buffers.{put_released};
ghost use Rattle.libvobrekan.specs.Desks.{FindsAtDesk, HandsCpu, HarvestsAtDesk, IsFirstDesk, IsTurned, ShowsDeliveryAtDesk, ShowsRangeAtDesk, TurnedInto};
ghost use Rattle.libvobrekan.specs.Orders.{order_in};

use crate::answers::{
    Answer, bad_argument, done, has_machine, no_cpu, no_machine, of_call, of_commit, of_plain,
    of_refusal,
};
use crate::arguments::client_of;
use crate::cpu_handle::CpuHandle;
use crate::deliveries::{DeliveryNumbers, put_delivery};
use crate::desk_handle::DeskHandle;
use crate::marks::{mark_words, told as marks_told};
use crate::orders::{OrderNumbers, order_in};
use crate::shown::{FoundNumbers, RangeNumbers, found_in, range_in};
use crate::writer::released_told;
use mem_base::{
    Applied, Client, Config, Edition, MOST_WORDS, NotifierId, Refusal, RegionId, SpaceId,
};
use shared_machine::Desk;
use std::alloc::{AllocError, Global};

// The box of a new desk.
fn opened(alloc: Global, words: usize) -> Result<Box<Desk, Global>, AllocError>
    requires { words ≤ most_words }
    ensures part { IfOk result (λ desk. desk.value.part ≡ first_writer words most_passes) }
    ensures fresh { IfOk result (λ desk. desk.value.seat.seen ≡ []) }
{
    let desk = Desk::new(alloc, words)?;
    let desk = Box::new(alloc, desk)?;
    Ok(desk)
}

/// Makes a machine that virtual CPUs share, over a pool of this many words of 8 bytes, at most 2^26, and its desk for a handle that has
/// none.
#[unsafe(no_mangle)]
pub extern "C" fn vb_desk_new(alloc: Global, handle: &mut DeskHandle, words: usize) -> Answer
    ensures argument { most_words < words → (result ≡ bad_argument words) × (handle.new.desk ≡ handle.old.desk) }
    ensures there { words ≤ most_words → IfSome handle.old.desk (λ d. (result ≡ has_machine) × (handle.new.desk ≡ handle.old.desk)) }
    ensures made { words ≤ most_words → handle.old.desk ≡ None → (result.code ≡ code_memory → ⊥)
        → (result ≡ done 0 0) × IsFirstDesk words handle.new.desk }
    ensures memory { result.code ≡ code_memory → handle.new.desk ≡ handle.old.desk }
{
    if words > MOST_WORDS {
        return bad_argument(words as u64);
    }
    if let Some(desk) = handle.take(alloc) {
        handle.put(alloc, desk);
        return has_machine();
    }
    let Ok(desk) = opened(alloc, words) else {
        return of_refusal(Refusal::Memory);
    };
    handle.put(alloc, desk);
    done(0, 0)
}

/// Frees the desk of a handle, if it has one. The handle has none then. Virtual CPUs that it handed out stay, in the last generation that
/// was published; what they share is freed with the last of them.
#[unsafe(no_mangle)]
pub extern "C" fn vb_desk_free(alloc: Global, handle: &mut DeskHandle)
    ensures { handle.new.desk ≡ None }
{
    drop(handle.take(alloc));
}

// What a private event answers.
fn told(event: &Config, answer: Result<(Applied, Option<u64>), Refusal>) -> Answer
    ensures { result ≡ answer_told (answer_by event.now answer) }
{
    match event {
        Config::Call(_) => of_call(answer),
        Config::Commit => match answer {
            Ok((_, number)) => of_commit(Ok(number)),
            Err(why) => of_commit(Err(why)),
        },
        _ => match answer {
            Ok(_) => of_plain(Ok(())),
            Err(why) => of_plain(Err(why)),
        },
    }
}

/// Asks the desk for a call that changes the map, a transaction, or a listener, as the call of that name asks a machine for it. It is done
/// beside the virtual CPUs: what is published, those that enter later see. `vb_desk_ask` waits for none of them: where one may still use the
/// generation that a publish would overwrite, seven before the current one, it is refused with the code 19.
#[unsafe(no_mangle)]
pub extern "C" fn vb_desk_ask(
    alloc: Global,
    handle: &mut DeskHandle,
    order: &OrderNumbers,
) -> Answer
    ensures known { IfSome (order_in order.now) (λ event. IsTurned handle.old.desk (configure event) result handle.new.desk) }
    ensures unknown { IfNone (order_in order.now)
        ((result ≡ bad_argument order.now.what) × (handle.new.desk ≡ handle.old.desk)) }
{
    let Some(event) = order_in(order) else {
        return bad_argument(u64::from(order.what));
    };
    let Some(mut desk) = handle.take(alloc) else {
        return no_machine();
    };
    let answer = desk.configure(&event);
    handle.put(alloc, desk);
    told(&event, answer)
}

/// Hands out a virtual CPU, for a handle that has none. There are 16, numbered from 0 in the order in which they are handed out, and after
/// these it is refused with the code 27. It has seen all that the desk has done.
#[unsafe(no_mangle)]
pub extern "C" fn vb_desk_cpu(alloc: Global, handle: &mut DeskHandle, cpu: &mut CpuHandle) -> Answer
    ensures { HandsCpu handle.old.desk cpu.old.cpu result handle.new.desk cpu.new.cpu }
{
    if let Some(there) = cpu.take(alloc) {
        cpu.put(alloc, there);
        return has_machine();
    }
    let Some(mut desk) = handle.take(alloc) else {
        return no_machine();
    };
    let made = desk.cpu(alloc);
    handle.put(alloc, desk);
    match made {
        Ok(Some(made)) => {
            cpu.put(alloc, made);
            done(0, 0)
        }
        Ok(None) => no_cpu(),
        Err(_) => of_refusal(Refusal::Memory),
    }
}

/// Takes a notifier, as `vb_notified` does.
#[unsafe(no_mangle)]
pub extern "C" fn vb_desk_notified(alloc: Global, handle: &mut DeskHandle, number: u32) -> Answer
    ensures taken { number < notifier_count → IsTurned handle.old.desk (notified number) result handle.new.desk }
    ensures argument { notifier_count ≤ number → (result ≡ bad_argument number) × (handle.new.desk ≡ handle.old.desk) }
{
    let Some(known) = NotifierId::new(number) else {
        return bad_argument(u64::from(number));
    };
    let Some(mut desk) = handle.take(alloc) else {
        return no_machine();
    };
    let value = desk.notified(known);
    handle.put(alloc, desk);
    done(value, 0)
}

/// Releases dropped regions, as `vb_reap` does: a generation in which a virtual CPU is entered is in use.
#[unsafe(no_mangle)]
pub extern "C" fn vb_desk_reap(alloc: Global, handle: &mut DeskHandle, out: &mut [u32]) -> Answer
    ensures { TurnedInto handle.old.desk reap put_released result out.old out.new handle.new.desk }
{
    let Some(mut desk) = handle.take(alloc) else {
        return no_machine();
    };
    let released = desk.reap();
    handle.put(alloc, desk);
    released_told(released, out)
}

// Takes the marks of a region for a client.
fn harvest(
    alloc: Global,
    handle: &mut DeskHandle,
    region: RegionId,
    client: Client,
    out: &mut [u64],
) -> Answer
    ensures { HarvestsAtDesk handle.old.desk region client out.old result out.new handle.new.desk }
{
    let Some(mut desk) = handle.take(alloc) else {
        return no_machine();
    };
    let words = mark_words(desk.current(), region);
    if words > out.len() as u64 {
        handle.put(alloc, desk);
        return bad_argument(words);
    }
    let pages = desk.harvest(region, client);
    handle.put(alloc, desk);
    marks_told(pages, out)
}

/// Takes the marks of a region for one client, as `vb_harvest` does: a page that a virtual CPU writes meanwhile is told now or the next time.
#[unsafe(no_mangle)]
pub extern "C" fn vb_desk_harvest(
    alloc: Global,
    handle: &mut DeskHandle,
    region: u32,
    client: u32,
    out: &mut [u64],
) -> Answer
    ensures known { IfSome (client_of client) (λ x. HarvestsAtDesk handle.old.desk (region_at region) x out.old result out.new handle.new.desk) }
    ensures unknown { IfNone (client_of client)
        ((result ≡ bad_argument client) × (handle.new.desk ≡ handle.old.desk) × (out.new ≡ out.old)) }
{
    let Some(known) = client_of(client) else {
        return bad_argument(u64::from(client));
    };
    harvest(alloc, handle, RegionId(region), known, out)
}

/// What an address of a space leads to in the current generation, as `vb_find` tells it.
#[unsafe(no_mangle)]
pub extern "C" fn vb_desk_find(
    alloc: Global,
    handle: &mut DeskHandle,
    space: u32,
    addr: u64,
    out: &mut FoundNumbers,
) -> Answer
    ensures finds { FindsAtDesk handle.old.desk (space_at space) addr out.old result out.new }
    ensures same { handle.new.desk ≡ handle.old.desk }
{
    let Some(desk) = handle.take(alloc) else {
        return no_machine();
    };
    let answer = found_in(desk.current(), SpaceId(space), addr, out);
    handle.put(alloc, desk);
    answer
}

/// A range of the current view of a space, as `vb_range` tells it.
#[unsafe(no_mangle)]
pub extern "C" fn vb_desk_range(
    alloc: Global,
    handle: &mut DeskHandle,
    space: u32,
    index: usize,
    out: &mut RangeNumbers,
) -> Answer
    ensures shows { ShowsRangeAtDesk handle.old.desk (space_at space) index out.old result out.new }
    ensures same { handle.new.desk ≡ handle.old.desk }
{
    let Some(desk) = handle.take(alloc) else {
        return no_machine();
    };
    let answer = range_in(desk.current(), SpaceId(space), index, out);
    handle.put(alloc, desk);
    answer
}

/// What listeners were told, as `vb_delivery` tells it.
#[unsafe(no_mangle)]
pub extern "C" fn vb_desk_delivery(
    alloc: Global,
    handle: &mut DeskHandle,
    index: usize,
    out: &mut DeliveryNumbers,
) -> Answer
    ensures shows { ShowsDeliveryAtDesk handle.old.desk index out.old result out.new }
    ensures same { handle.new.desk ≡ handle.old.desk }
{
    let Some(desk) = handle.take(alloc) else {
        return no_machine();
    };
    put_delivery(desk.journal(), index, out);
    let answer = done(desk.journal().len() as u64, desk.current().number());
    handle.put(alloc, desk);
    answer
}
