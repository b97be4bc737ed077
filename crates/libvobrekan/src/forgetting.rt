// What listeners were told is forgotten.
ghost use Rattle.libvobrekan.specs.Forgetting.{Forgets, ForgetsAtDesk};

use crate::answers::{Answer, done, no_machine};
use crate::desk_handle::DeskHandle;
use crate::handle::Handle;
use std::alloc::Global;

/// Forgets the first `count` of the calls that listeners got and that are not forgotten yet, all of them where there are fewer. `value`
/// of the answer is how many it forgot: `vb_delivery` counts from the first that is not forgotten, so an index that a caller keeps is
/// lower by that many. The listeners stay, and are told nothing. It takes no memory.
///
/// A machine that runs for long keeps what listeners were told until it is forgotten here.
#[unsafe(no_mangle)]
pub extern "C" fn vb_forget(alloc: Global, handle: &mut Handle, count: usize) -> Answer
    ensures { Forgets handle.old.machine count result handle.new.machine }
{
    let Some(mut machine) = handle.take(alloc) else {
        return no_machine();
    };
    let forgotten = count.min(machine.journal().len());
    machine.forget(forgotten);
    handle.put(alloc, machine);
    done(forgotten as u64, 0)
}

/// Forgets what the listeners of a desk were told, as `vb_forget` does: `vb_desk_delivery` counts from the first call that is not forgotten.
#[unsafe(no_mangle)]
pub extern "C" fn vb_desk_forget(alloc: Global, handle: &mut DeskHandle, count: usize) -> Answer
    ensures { ForgetsAtDesk handle.old.desk count result handle.new.desk }
{
    let Some(mut desk) = handle.take(alloc) else {
        return no_machine();
    };
    let forgotten = count.min(desk.journal().len());
    desk.forget(forgotten);
    handle.put(alloc, desk);
    done(forgotten as u64, 0)
}
