// Drawn composites, given to the pure machine and to the running one, whose virtual CPUs are all on one thread.
ghost use Rattle.std.specs.Prelude.{◌≡◌};

use crate::world::composites::{Composite, MOST, Outcome};
use crate::world::draws::Draws;
use crate::world::machines::Machine;
use config_desk::Config;
use epoch_rule::Cabinet;
use generation::Generation;
use mem_base::{Applied, Call, MOST_PASSES, Refusal};
use std::alloc::{AllocError, Global};
use std::sync::Wait;
use vcpu_pass::Vcpu;

/// How many composites are drawn.
const STEPS: u32 = 10_000;

/// The words of either pool, which the drawn regions fill now and then.
const WORDS: usize = 24_576;

/// What came of a composite, and whether both machines answered the same.
type Both = (Outcome, bool);

/// What two answers tell that may be refusals.
fn both<T: PartialEq + Drop>(pure: Result<T, Refusal>, running: Result<T, Refusal>) -> Both {
    let same = pure == running;
    if pure.is_ok() {
        (Outcome::Done, same)
    } else {
        (Outcome::Not, same)
    }
}

/// A call of the map.
fn call_both(machine: &mut Machine, config: &mut Config, call: &Call) -> Both {
    let pure = machine.call(call);
    let running = config.call(call);
    let same = pure == running;
    match pure {
        Ok((Applied::Made(region), _)) => (Outcome::Made(region), same),
        Ok(_) => (Outcome::Done, same),
        Err(_) => (Outcome::Not, same),
    }
}

/// What else the writer does at its desk.
fn desk_both(machine: &mut Machine, config: &mut Config, composite: &Composite) -> Both {
    match *composite {
        Composite::Begin => both(machine.begin(), config.begin()),
        Composite::Commit => both(machine.commit(), config.commit()),
        Composite::Listen(listener, space, priority) => both(
            machine.listen(listener, space, priority),
            config.listen(listener, space, priority),
        ),
        Composite::Unlisten(listener) => both(
            machine.unlisten(listener),
            config.unlisten(listener),
        ),
        Composite::Reap => both(machine.reap(), config.reap()),
        Composite::Harvest(region, client) => both(
            machine.harvest(region, client),
            config.harvest(region, client),
        ),
        Composite::Notified(number) => (
            Outcome::Done,
            machine.notified(number) == config.notified(number),
        ),
        _ => (Outcome::Not, true),
    }
}

/// What a virtual CPU does; whether both answered the same.
fn vcpu_both<R: Wait>(
    rt: &R,
    machine: &mut Machine,
    vcpu: &mut Vcpu<'_>,
    composite: &Composite,
) -> bool {
    let mut pure = [0xeeu8; MOST];
    let mut running = [0xeeu8; MOST];
    match *composite {
        Composite::Enter(number) => machine.enter(number) == vcpu.enter(),
        Composite::Leave(number) => {
            machine.leave(number);
            vcpu.leave();
            machine.entered(number).is_some() == vcpu.entered()
        }
        Composite::Read(number, space, addr, count) => {
            let count = count.min(MOST);
            let answer = machine.read(number, space, addr, &mut pure[..count]);
            answer == vcpu.read(space, addr, &mut running[..count]) && pure == running
        }
        Composite::Write(number, space, addr, count, value) => {
            let bytes = [value; MOST];
            let bytes = &bytes[..count.min(MOST)];
            machine.write(number, space, addr, bytes) == vcpu.write(rt, space, addr, bytes)
        }
        _ => true,
    }
}

/// Which virtual CPU does a composite; `None` where the writer does.
fn who(composite: &Composite) -> Option<u32> {
    match *composite {
        Composite::Enter(vcpu) | Composite::Leave(vcpu) => Some(vcpu),
        Composite::Read(vcpu, ..) => Some(vcpu),
        Composite::Write(vcpu, ..) => Some(vcpu),
        _ => None,
    }
}

/// All virtual CPUs of a running machine.
fn vcpus_of<'c>(
    alloc: Global,
    cabinet: &'c Cabinet<Generation>,
    config: &mut Config,
) -> Result<Vec<Vcpu<'c>>, AllocError>
    requires { config.old.seat.cabinet ≡ cabinet.now.id }
{
    let mut vcpus = Vec::new(alloc);
    for _ in 0..MOST_PASSES {
        if let Some(pass) = config.pass() {
            if vcpus.push(Vcpu::new(cabinet, pass)).is_err() {
                return Err(AllocError);
            }
        }
    }
    Ok(vcpus)
}

/// Asks both for a composite.
fn ask_both<R: Wait>(
    rt: &R,
    machine: &mut Machine,
    config: &mut Config,
    vcpus: &mut [Vcpu<'_>],
    composite: &Composite,
) -> Both {
    if let Some(number) = who(composite) {
        return match vcpus.get_mut(number as usize) {
            Some(vcpu) => (Outcome::Done, vcpu_both(rt, machine, vcpu, composite)),
            None => (Outcome::Not, false),
        };
    }
    match *composite {
        Composite::Call(call) => call_both(machine, config, &call),
        Composite::Load(region, offset, count, value) => {
            let bytes = [value; MOST];
            let bytes = &bytes[..count.min(MOST)];
            both(
                machine.load(region, offset, bytes),
                config.load_bytes(rt, region, offset, bytes),
            )
        }
        _ => desk_both(machine, config, composite),
    }
}

/// How many calls the listeners of the pure machine have got, where those since there were this many are what the running machine hands
/// over: its journal is taken out each time, and is empty then.
fn heard_by(machine: &Machine, config: &mut Config, heard: usize) -> Option<usize> {
    let told = config.take_journal();
    let pure = machine.journal();
    if config.journal().is_empty() && pure.get(heard..) == Some(told.as_slice()) {
        Some(pure.len())
    } else {
        None
    }
}

/// The number of the first drawn composite after which the machines are not alike.
fn first_apart_of<R: Wait>(
    rt: &R,
    draws: &mut Draws,
    machine: &mut Machine,
    config: &mut Config,
    vcpus: &mut [Vcpu<'_>],
) -> Result<Option<u32>, AllocError> {
    let mut heard: usize = 0;
    for step in 0..STEPS {
        let composite = draws.next(machine.current().forest());
        let (outcome, same) = ask_both(rt, machine, config, vcpus, &composite);
        draws.learn(&composite, outcome)?;
        match heard_by(machine, config, heard) {
            Some(count) if same => heard = count,
            _ => return Ok(Some(step)),
        }
    }
    Ok(None)
}

/// The same of a machine and its virtual CPUs, beside a pure one of its own.
fn first_apart_from<R: Wait>(
    rt: &R,
    alloc: Global,
    config: &mut Config,
    vcpus: &mut [Vcpu<'_>],
) -> Result<Option<u32>, AllocError> {
    let mut draws = Draws::new(alloc, 7);
    let mut machine = Machine::new(alloc, WORDS)?;
    let step = first_apart_of(rt, &mut draws, &mut machine, config, vcpus);
    step
}

/// The same of a machine.
fn first_apart_on<R: Wait>(
    rt: &R,
    alloc: Global,
    cabinet: &Cabinet<Generation>,
    config: &mut Config,
) -> Result<Option<u32>, AllocError>
    requires { config.old.seat.cabinet ≡ cabinet.now.id }
{
    let mut vcpus = vcpus_of(alloc, cabinet, config)?;
    let step = first_apart_from(rt, alloc, config, vcpus.as_mut_slice());
    step
}

fn first_apart<R: Wait>(rt: &R, alloc: Global) -> Result<Option<u32>, AllocError> {
    let (cabinet, mut config) = Config::new(alloc, WORDS, MOST_PASSES)?;
    let step = first_apart_on(rt, alloc, &cabinet, &mut config);
    step
}

#[test]
fn the_running_machine_answers_as_the_pure_one(rt: HostRuntime) {
    let step = first_apart(&rt, rt.alloc());
    assert!(rt; step == Ok(None), "{step:?}");
}
