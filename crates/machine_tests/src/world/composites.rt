// Everything that the users of a machine may ask it to do.
use crate::world::machines::Machine;
use mem_base::{
    Applied, Call, Client, ListenerId, NotifierId, Refusal, RegionId, SpaceId, TxResult,
};
use std::alloc::AllocError;

/// The most bytes of an access or a load.
pub(crate) const MOST: usize = 16;

/// What the writer or a virtual CPU asks for.
#[derive(Clone, Copy)]
pub(crate) enum Composite {
    Call(Call),
    Begin,
    Commit,
    Listen(ListenerId, SpaceId, i32),
    Unlisten(ListenerId),
    Reap,
    /// So many bytes of one value, at an offset of a region.
    Load(RegionId, u64, usize, u8),
    Harvest(RegionId, Client),
    Notified(NotifierId),
    Enter(u32),
    Leave(u32),
    /// So many bytes of a space.
    Read(u32, SpaceId, u64, usize),
    /// So many bytes of one value.
    Write(u32, SpaceId, u64, usize, u8),
}

/// What came of it.
#[derive(Clone, Copy)]
pub(crate) enum Outcome {
    /// It was accepted, and made this region.
    Made(RegionId),
    /// It was accepted.
    Done,
    /// It was refused; or it is never refused, and there was nothing to do: a reap that releases nothing, a notifier that was
    /// not set, a virtual CPU that enters again or leaves where it is not entered, an access that ends with a fault.
    Not,
}

/// What came of what may be refused.
fn came<T: Drop>(answer: Result<T, Refusal>) -> Result<Outcome, AllocError> {
    match answer {
        Ok(_) => Ok(Outcome::Done),
        Err(Refusal::Memory) => Err(AllocError),
        Err(_) => Ok(Outcome::Not),
    }
}

/// What came of what is never refused.
fn done_if(is_done: bool) -> Outcome {
    if is_done { Outcome::Done } else { Outcome::Not }
}

/// Whether an access met no fault.
fn is_good(end: TxResult) -> bool {
    !end.error && !end.decode
}

/// What came of a call.
fn called(machine: &mut Machine, call: &Call) -> Result<Outcome, AllocError> {
    match machine.call(call) {
        Ok((Applied::Made(region), _)) => Ok(Outcome::Made(region)),
        Ok((Applied::Done, _)) => Ok(Outcome::Done),
        Err(Refusal::Memory) => Err(AllocError),
        Err(_) => Ok(Outcome::Not),
    }
}

/// What came of a reap.
fn reaped(machine: &mut Machine) -> Result<Outcome, AllocError> {
    match machine.reap() {
        Ok(released) => Ok(done_if(!released.is_empty())),
        Err(_) => Err(AllocError),
    }
}

/// What came of a load.
fn loaded(
    machine: &mut Machine,
    region: RegionId,
    offset: u64,
    count: usize,
    value: u8,
) -> Result<Outcome, AllocError> {
    let bytes = [value; MOST];
    match bytes.get(..count) {
        Some(bytes) => came(machine.load(region, offset, bytes)),
        None => Ok(Outcome::Not),
    }
}

/// What came of what a virtual CPU does.
fn by_vcpu(machine: &mut Machine, composite: &Composite) -> Outcome {
    match *composite {
        Composite::Enter(vcpu) => {
            let was_out = machine.entered(vcpu).is_none();
            machine.enter(vcpu);
            done_if(was_out)
        }
        Composite::Leave(vcpu) => {
            let was_in = machine.entered(vcpu).is_some();
            machine.leave(vcpu);
            done_if(was_in)
        }
        Composite::Read(vcpu, space, addr, count) => {
            let mut bytes = [0; MOST];
            match bytes.get_mut(..count) {
                Some(out) => done_if(is_good(machine.read(vcpu, space, addr, out).result)),
                None => Outcome::Not,
            }
        }
        Composite::Write(vcpu, space, addr, count, value) => {
            let bytes = [value; MOST];
            match bytes.get(..count) {
                Some(bytes) => done_if(is_good(machine.write(vcpu, space, addr, bytes).result)),
                None => Outcome::Not,
            }
        }
        _ => Outcome::Not,
    }
}

impl Composite {
    /// Asks a machine for it. It fails only where memory runs out.
    pub(crate) fn ask(&self, machine: &mut Machine) -> Result<Outcome, AllocError> {
        match *self {
            Composite::Call(call) => called(machine, &call),
            Composite::Begin => came(machine.begin()),
            Composite::Commit => came(machine.commit()),
            Composite::Listen(listener, space, priority) => {
                came(machine.listen(listener, space, priority))
            }
            Composite::Unlisten(listener) => came(machine.unlisten(listener)),
            Composite::Reap => reaped(machine),
            Composite::Load(region, offset, count, value) => {
                loaded(machine, region, offset, count, value)
            }
            Composite::Harvest(region, client) => came(machine.harvest(region, client)),
            Composite::Notified(number) => Ok(done_if(machine.notified(number) != 0)),
            _ => Ok(by_vcpu(machine, self)),
        }
    }
}
