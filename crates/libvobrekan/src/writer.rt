// Machines, transactions and listeners.
ghost use Rattle.std.specs.Prelude.{◌≡◌, ◌<◌, ◌≤◌, ◌^◌, IfOk, IfSome, None, Some};
ghost use Rattle.mem_base.specs.declared.map.calls.Config.TheVariants as configs;
ghost use Rattle.mem_base.specs.map.Limits.{most_passes, most_words, notifier_count};
ghost use Rattle.mem_base.specs.machine.Answers.{answer_with, reap_answer};
ghost use Rattle.mem_base.specs.machine.Orders.{configure, load, notified, reap};
ghost use Rattle.mem_base.specs.machine.World.{opening};
ghost use Rattle.libvobrekan.specs.Answers.{bad_argument, code_memory, done, has_machine, list_told};
ghost use Rattle.libvobrekan.specs.Arguments.{listener_at, region_at, space_at};
ghost use Rattle.libvobrekan.specs.Asked.{IsAsked, IsDone, IsRefused};
ghost use Rattle.libvobrekan.specs.Buffers.{HasPut, put_released};

use crate::answers::{
    Answer, bad_argument, done, has_machine, no_machine, of_commit, of_plain, of_refusal,
};
use crate::buffers::put_regions;
use crate::handle::Handle;
use mem_base::{ListenerId, MOST_WORDS, NotifierId, Refusal, RegionId, SpaceId};
use pure_machine::PureMachine;
use std::alloc::{AllocError, Global};

// The box of a new machine.
fn opened(alloc: Global, words: usize) -> Result<Box<PureMachine, Global>, AllocError>
    requires { words ≤ most_words }
    ensures { IfOk result (λ machine. machine.value ≡ opening words most_passes) }
{
    let machine = PureMachine::new(alloc, words)?;
    let machine = Box::new(alloc, machine)?;
    Ok(machine)
}

/// Makes a machine over a pool of this many words of 8 bytes, at most 2^26, for a handle that has none.
///
/// The memory of RAM, ROM and ROM devices, their marks, and the registers of devices are in the pool.
#[unsafe(no_mangle)]
pub extern "C" fn vb_new(alloc: Global, handle: &mut Handle, words: usize) -> Answer
    ensures argument { most_words < words → IsRefused handle.old.machine (bad_argument words) result handle.new.machine }
    ensures there { words ≤ most_words → IfSome handle.old.machine (λ w. IsRefused handle.old.machine has_machine result handle.new.machine) }
    ensures made { words ≤ most_words → handle.old.machine ≡ None → (result.code ≡ code_memory → ⊥)
        → (result ≡ done 0 0) × (handle.new.machine ≡ Some (opening words most_passes)) }
    ensures memory { result.code ≡ code_memory → handle.new.machine ≡ handle.old.machine }
{
    if words > MOST_WORDS {
        return bad_argument(words as u64);
    }
    if let Some(machine) = handle.take(alloc) {
        handle.put(alloc, machine);
        return has_machine();
    }
    let Ok(machine) = opened(alloc, words) else {
        return of_refusal(Refusal::Memory);
    };
    handle.put(alloc, machine);
    done(0, 0)
}

/// Frees the machine of a handle, if it has one. The handle has none then.
#[unsafe(no_mangle)]
pub extern "C" fn vb_free(alloc: Global, handle: &mut Handle)
    ensures { handle.new.machine ≡ None }
{
    drop(handle.take(alloc));
}

/// Opens a transaction, inside of those that are open. What is changed in it is published by the `vb_commit` that closes the
/// outermost one.
#[unsafe(no_mangle)]
pub extern "C" fn vb_begin(alloc: Global, handle: &mut Handle) -> Answer
    ensures { IsDone handle.old.machine (configure configs.Begin) result handle.new.machine }
{
    let Some(mut machine) = handle.take(alloc) else {
        return no_machine();
    };
    let answer = machine.begin();
    handle.put(alloc, machine);
    of_plain(answer)
}

/// Closes a transaction. The outermost one publishes what is pending, and `other` of the answer is the number of the generation
/// that is current then.
#[unsafe(no_mangle)]
pub extern "C" fn vb_commit(alloc: Global, handle: &mut Handle) -> Answer
    ensures { IsAsked handle.old.machine (configure configs.Commit) result handle.new.machine }
{
    let Some(mut machine) = handle.take(alloc) else {
        return no_machine();
    };
    let answer = machine.commit();
    handle.put(alloc, machine);
    of_commit(answer)
}

/// A listener joins a space, and is told what the current generation shows there. `vb_delivery` reads what listeners were told.
#[unsafe(no_mangle)]
pub extern "C" fn vb_listen(
    alloc: Global,
    handle: &mut Handle,
    listener: u32,
    space: u32,
    priority: i32,
) -> Answer
    ensures { IsAsked handle.old.machine (configure (configs.Listen (listener_at listener) (space_at space) priority)) result handle.new.machine }
{
    let Some(mut machine) = handle.take(alloc) else {
        return no_machine();
    };
    let answer = machine.listen(ListenerId(listener), SpaceId(space), priority);
    handle.put(alloc, machine);
    of_plain(answer)
}

/// A listener leaves its space, and is told that what the current generation shows there is gone.
#[unsafe(no_mangle)]
pub extern "C" fn vb_unlisten(alloc: Global, handle: &mut Handle, listener: u32) -> Answer
    ensures { IsAsked handle.old.machine (configure (configs.Unlisten (listener_at listener))) result handle.new.machine }
{
    let Some(mut machine) = handle.take(alloc) else {
        return no_machine();
    };
    let answer = machine.unlisten(ListenerId(listener));
    handle.put(alloc, machine);
    of_plain(answer)
}

/// Loads bytes into a region that has bytes, ROM among them, from an offset in it on. No page is marked.
#[unsafe(no_mangle)]
pub extern "C" fn vb_load(
    alloc: Global,
    handle: &mut Handle,
    region: u32,
    offset: u64,
    bytes: &[u8],
) -> Answer
    ensures { IsDone handle.old.machine (load (region_at region) offset bytes.now) result handle.new.machine }
{
    let Some(mut machine) = handle.take(alloc) else {
        return no_machine();
    };
    let answer = machine.load_bytes(RegionId(region), offset, bytes);
    handle.put(alloc, machine);
    of_plain(answer)
}

// Takes a notifier.
fn notified(alloc: Global, handle: &mut Handle, number: NotifierId) -> Answer
    ensures { IsDone handle.old.machine (notified number) result handle.new.machine }
{
    let Some(mut machine) = handle.take(alloc) else {
        return no_machine();
    };
    let value = machine.notified(number);
    handle.put(alloc, machine);
    done(value, 0)
}

/// Takes a notifier, 0 to 63: `value` of the answer is what stood in its word, and 0 stands there then. A greater number is
/// refused.
#[unsafe(no_mangle)]
pub extern "C" fn vb_notified(alloc: Global, handle: &mut Handle, number: u32) -> Answer
    ensures taken { number < notifier_count → IsDone handle.old.machine (notified number) result handle.new.machine }
    ensures argument { notifier_count ≤ number → IsRefused handle.old.machine (bad_argument number) result handle.new.machine }
{
    match NotifierId::new(number) {
        Some(notifier) => notified(alloc, handle, notifier),
        None => bad_argument(u64::from(number)),
    }
}

/// What was released, in a buffer.
pub(crate) fn released_told(released: Result<Vec<RegionId>, Refusal>, out: &mut [u32]) -> Answer
    ensures answer { result ≡ list_told (answer_with (λ v. v.items) released) }
    ensures out { out.new ≡ put_released (reap_answer (answer_with (λ v. v.items) released)) out.old }
{
    match released {
        Ok(released) => {
            put_regions(&released, out);
            done(released.len() as u64, 0)
        }
        Err(why) => of_refusal(why),
    }
}

/// Releases the dropped regions that no generation in use names: their memory is free again. `value` of the answer is how many they
/// are.
///
/// `out` has the numbers of as many of them as there is room for, ascending. Room for as many regions as were dropped is enough. Where
/// memory runs out nothing is written.
#[unsafe(no_mangle)]
pub extern "C" fn vb_reap(alloc: Global, handle: &mut Handle, out: &mut [u32]) -> Answer
    ensures asked { IsAsked handle.old.machine reap result handle.new.machine }
    ensures list { HasPut handle.old.machine reap put_released result out.old out.new }
{
    let Some(mut machine) = handle.take(alloc) else {
        return no_machine();
    };
    let released = machine.reap();
    handle.put(alloc, machine);
    released_told(released, out)
}
