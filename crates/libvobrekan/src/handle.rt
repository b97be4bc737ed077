// A machine behind a handle.
ghost use Rattle.std.specs.Prelude.{◌≡◌, None, Some, option_map};
ghost use Rattle.std.specs.declared.option.Option.{Option};
ghost use Rattle.std.specs.Coded.{coded_option};
ghost use Rattle.std.specs.declared.alloc.Global.{Global as Heap};
ghost use Rattle.pure_machine.specs.contracts.machine.PureMachine.{the_row as machine_row};

use crate::loose::Loose;
use pure_machine::PureMachine;
use std::alloc::Global;
use std::marker::{Model, Send};
use std::ptr::null_mut;

/// What C keeps of a machine: a pointer, which is null where there is none.
#[repr(C)]
pub struct Handle {
    at: *mut u8,
    pub ghost heap: { Heap },
    pub ghost machine: { Option machine_row.Denot } by { coded_option machine_row.coded },
}

impl Model for Handle {
    ghost use Rattle.pure_machine.specs.contracts.machine.PureMachine.{the_row as machine_row};
    ghost use Rattle.libvobrekan.specs.Handles.{kept};

    ghost also_owns = { λ h. kept h.heap machine_row h.at h.machine };
}

// It may go to another thread as its box may.
unsafe impl Send for Handle {}

impl Handle {
    // A handle of no machine.
    fn empty() -> Handle
        ensures { result.machine ≡ None }
    {
        Handle { at: null_mut() }
    }

    // A handle of a machine, from its box's pointer.
    fn of_loose(loose: Loose<PureMachine, Global>) -> Handle
        ensures { result.machine ≡ Some loose.value }
    {
        let Loose { at, alloc: _ } = loose;
        Handle {
            at: at.cast::<u8>(),
        }
    }

    // The box of the machine, if there is one, as its pointer.
    fn into_loose(self, alloc: Global) -> Option<Loose<PureMachine, Global>>
        ensures { option_map (λ l. l.value) result ≡ self.machine }
    {
        let Handle { at } = self;
        if at.is_null() {
            None
        } else {
            Some(Loose {
                at: at.cast::<PureMachine>(),
                alloc,
            })
        }
    }

    /// Takes the machine out, if there is one; the handle has none then.
    pub(crate) fn take(&mut self, alloc: Global) -> Option<Box<PureMachine, Global>>
        ensures taken { option_map (λ b. b.value) result ≡ self.old.machine }
        ensures none { self.new.machine ≡ None }
    {
        match std::mem::replace(self, Handle::empty()).into_loose(alloc) {
            Some(loose) => Some(loose.into_box()),
            None => None,
        }
    }

    /// Puts a machine in. One that the handle has is dropped.
    pub(crate) fn put(&mut self, alloc: Global, machine: Box<PureMachine, Global>)
        ensures { self.new.machine ≡ Some machine.value }
    {
        let old = std::mem::replace(self, Handle::of_loose(Loose::of(machine)));
        if let Some(loose) = old.into_loose(alloc) {
            drop(loose.into_box());
        }
    }
}
