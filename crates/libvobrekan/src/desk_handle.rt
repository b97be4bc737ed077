// A desk behind a handle.
ghost use Rattle.std.specs.Prelude.{◌≡◌, None, Some, option_map};
ghost use Rattle.std.specs.declared.option.Option.{Option};
ghost use Rattle.std.specs.Coded.{coded_option};
ghost use Rattle.std.specs.declared.alloc.Global.{Global as Heap};
ghost use Rattle.shared_machine.specs.contracts.desk.Desk.{the_row as desk_row};

use crate::loose::Loose;
use shared_machine::Desk;
use std::alloc::Global;
use std::marker::{Model, Send};
use std::ptr::null_mut;

/// What C keeps of the desk of a machine that virtual CPUs share: a pointer, which is null where there is none.
#[repr(C)]
pub struct DeskHandle {
    at: *mut u8,
    pub ghost heap: { Heap },
    pub ghost desk: { Option desk_row.Denot } by { coded_option desk_row.coded },
}

impl Model for DeskHandle {
    ghost use Rattle.shared_machine.specs.contracts.desk.Desk.{the_row as desk_row};
    ghost use Rattle.libvobrekan.specs.Handles.{kept};

    ghost also_owns = { λ h. kept h.heap desk_row h.at h.desk };
}

// It may go to another thread as its box may.
unsafe impl Send for DeskHandle {}

impl DeskHandle {
    // A handle of no desk.
    fn empty() -> DeskHandle
        ensures { result.desk ≡ None }
    {
        DeskHandle { at: null_mut() }
    }

    // A handle of a desk, from its box's pointer.
    fn of_loose(loose: Loose<Desk, Global>) -> DeskHandle
        ensures { result.desk ≡ Some loose.value }
    {
        let Loose { at, alloc: _ } = loose;
        DeskHandle {
            at: at.cast::<u8>(),
        }
    }

    // The box of the desk, if there is one, as its pointer.
    fn into_loose(self, alloc: Global) -> Option<Loose<Desk, Global>>
        ensures { option_map (λ l. l.value) result ≡ self.desk }
    {
        let DeskHandle { at } = self;
        if at.is_null() {
            None
        } else {
            Some(Loose {
                at: at.cast::<Desk>(),
                alloc,
            })
        }
    }

    /// Takes the desk out, if there is one; the handle has none then.
    pub(crate) fn take(&mut self, alloc: Global) -> Option<Box<Desk, Global>>
        ensures taken { option_map (λ b. b.value) result ≡ self.old.desk }
        ensures none { self.new.desk ≡ None }
    {
        match std::mem::replace(self, DeskHandle::empty()).into_loose(alloc) {
            Some(loose) => Some(loose.into_box()),
            None => None,
        }
    }

    /// Puts a desk in. One that the handle has is dropped.
    pub(crate) fn put(&mut self, alloc: Global, desk: Box<Desk, Global>)
        ensures { self.new.desk ≡ Some desk.value }
    {
        let old = std::mem::replace(self, DeskHandle::of_loose(Loose::of(desk)));
        if let Some(loose) = old.into_loose(alloc) {
            drop(loose.into_box());
        }
    }
}
