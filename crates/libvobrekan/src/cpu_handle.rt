// A virtual CPU behind a handle.
ghost use Rattle.std.specs.Prelude.{◌≡◌, None, Some, option_map};
ghost use Rattle.std.specs.declared.option.Option.{Option};
ghost use Rattle.std.specs.Coded.{coded_option};
ghost use Rattle.std.specs.declared.alloc.Global.{Global as Heap};
ghost use Rattle.shared_machine.specs.contracts.cpu.Cpu.{the_row as cpu_row};

use crate::loose::Loose;
use shared_machine::Cpu;
use std::alloc::Global;
use std::marker::{Model, Send};
use std::ptr::null_mut;

/// What C keeps of a virtual CPU: a pointer, which is null where there is none.
#[repr(C)]
pub struct CpuHandle {
    at: *mut u8,
    pub ghost heap: { Heap },
    pub ghost cpu: { Option cpu_row.Denot } by { coded_option cpu_row.coded },
}

impl Model for CpuHandle {
    ghost use Rattle.shared_machine.specs.contracts.cpu.Cpu.{the_row as cpu_row};
    ghost use Rattle.libvobrekan.specs.Handles.{kept};

    ghost also_owns = { λ h. kept h.heap cpu_row h.at h.cpu };
}

// It may go to another thread as its box may.
unsafe impl Send for CpuHandle {}

impl CpuHandle {
    // A handle of no virtual CPU.
    fn empty() -> CpuHandle
        ensures { result.cpu ≡ None }
    {
        CpuHandle { at: null_mut() }
    }

    // A handle of a virtual CPU, from its box's pointer.
    fn of_loose(loose: Loose<Cpu, Global>) -> CpuHandle
        ensures { result.cpu ≡ Some loose.value }
    {
        let Loose { at, alloc: _ } = loose;
        CpuHandle {
            at: at.cast::<u8>(),
        }
    }

    // The box of the virtual CPU, if there is one, as its pointer.
    fn into_loose(self, alloc: Global) -> Option<Loose<Cpu, Global>>
        ensures { option_map (λ l. l.value) result ≡ self.cpu }
    {
        let CpuHandle { at } = self;
        if at.is_null() {
            None
        } else {
            Some(Loose {
                at: at.cast::<Cpu>(),
                alloc,
            })
        }
    }

    /// Takes the virtual CPU out, if there is one; the handle has none then.
    pub(crate) fn take(&mut self, alloc: Global) -> Option<Box<Cpu, Global>>
        ensures taken { option_map (λ b. b.value) result ≡ self.old.cpu }
        ensures none { self.new.cpu ≡ None }
    {
        match std::mem::replace(self, CpuHandle::empty()).into_loose(alloc) {
            Some(loose) => Some(loose.into_box()),
            None => None,
        }
    }

    /// Puts a virtual CPU in. One that the handle has is dropped.
    pub(crate) fn put(&mut self, alloc: Global, cpu: Box<Cpu, Global>)
        ensures { self.new.cpu ≡ Some cpu.value }
    {
        let old = std::mem::replace(self, CpuHandle::of_loose(Loose::of(cpu)));
        if let Some(loose) = old.into_loose(alloc) {
            drop(loose.into_box());
        }
    }
}
