//! Sixteen virtual CPUs read and write without end, each in a thread of its own, while the map moves beneath them; and one that stays where
//! it entered, which holds a move up until it leaves.
//!
//! A window of 4 KiB lies on one of two pages of memory, and is moved from one to the other again and again. Each virtual CPU writes to
//! both halves of a word's two places and reads them back while it is entered, so it sees one map throughout. It goes on until a word of
//! memory tells it to stop. The moves wait for the virtual CPUs, so none is refused.
#![tactic(auto)]

ghost use Rattle.std.specs.Prelude.{◌≡◌};

use anyhow::{Context, Result};
use std::alloc::{AllocError, Global};
use std::process::ExitCode;
use std::sync::Wait;
use std::sync::atomic::{AtomicU64, Ordering};
use std::thread::{self, Threads};
use vobrekan::{
    Applied, Cabinet, Call, Config, Generation, Kind, Patience, Refusal, RegionId, Size, SpaceId,
    Vcpu,
};

const MEMORY: SpaceId = SpaceId(0);

const CPUS: u32 = 16;

const MOVES: u32 = 10_000;

/// Where the word lies that tells the virtual CPUs to stop: the last of the first page.
const STOP: u64 = 0xff8;

/// As long as a virtual CPU may take that reads and leaves, on a machine whose processors are busy: a minute.
const LONG: Patience = Patience {
    yields: 1000,
    sleeps: 60_000,
    sleep_nanos: 1_000_000,
};

/// A few tries, for a virtual CPU that does not leave.
const SHORT: Patience = Patience {
    yields: 10,
    sleeps: 10,
    sleep_nanos: 1_000_000,
};

// A virtual CPU, how many rounds it made, and whether each went as it has to.
#[derive(Drop)]
struct Cpu<'c> {
    vcpu: Vcpu<'c>,
    number: u8,
    rounds: u64,
    good: bool,
}

// What the program made: memory, and a window on it.
#[derive(Clone, Copy)]
struct Regions {
    ram: RegionId,
    window: RegionId,
}

fn make(config: &mut Config, kind: Kind, bytes: u128) -> Result<RegionId> {
    let size = Size::new(bytes).context("at most 2^64 bytes")?;
    match config.call(&Call::Region { kind, size })? {
        (Applied::Made(region), _) => Ok(region),
        _ => anyhow::bail!("no region was made"),
    }
}

// Memory of two pages at 0x10000, and a window of one page on it at 0.
fn build(config: &mut Config) -> Result<Regions> {
    let root = make(config, Kind::Container, 0x2_0000)?;
    let ram = make(config, Kind::Ram, 0x2000)?;
    let target = Kind::Alias {
        target: ram,
        offset: 0,
    };
    let window = make(config, target, 0x1000)?;
    for (child, offset) in [(ram, 0x1_0000), (window, 0)] {
        config.call(&Call::Add {
            parent: root,
            offset,
            child,
            priority: 0,
        })?;
    }
    config.call(&Call::Space {
        space: MEMORY,
        root,
    })?;
    Ok(Regions { ram, window })
}

// The move of the window after this many others: to the second page, and back.
fn next_move(window: RegionId, moves: u32) -> Call {
    let offset = if moves % 2 == 0 { 0x1000 } else { 0 };
    Call::Retarget {
        alias: window,
        offset,
    }
}

// Writes a word through the window, and finds it in just one of the two pages; whether the virtual CPU is to stop is answered beside that.
fn round<R: Wait>(rt: &R, cpu: &mut Cpu<'_>) -> (bool, bool) {
    let at = u64::from(cpu.number) * 8;
    let written = cpu.rounds.saturating_add(1);
    let (mut first, mut second, mut stop) = ([0u8; 8], [0u8; 8], [0u8; 8]);
    cpu.vcpu.enter();
    cpu.vcpu.write(rt, MEMORY, at, &written.to_le_bytes());
    cpu.vcpu.read(MEMORY, 0x1_0000 + at, &mut first);
    cpu.vcpu.read(MEMORY, 0x1_1000 + at, &mut second);
    cpu.vcpu.read(MEMORY, 0x1_0000 + STOP, &mut stop);
    cpu.vcpu.leave();
    cpu.rounds = written;
    let one = (u64::from_le_bytes(first) == written) != (u64::from_le_bytes(second) == written);
    (one, u64::from_le_bytes(stop) != 0)
}

// Reads and writes until it is to stop, and tells when it has begun. After each 64 rounds it gives its processor away, so that
// sixteen get on with few processors.
fn work<R: Wait>(rt: &R, begun: &AtomicU64, cpu: &mut Cpu<'_>) {
    for _ in rt.forever() {
        let (good, stop) = round(rt, cpu);
        cpu.good = cpu.good && good;
        if stop {
            break;
        }
        if cpu.rounds == 1 {
            begun.fetch_add(1, Ordering::SeqCst);
        }
        if cpu.rounds % 64 == 0 {
            thread::yield_now();
        }
    }
}

fn crew<'c>(
    alloc: Global,
    cabinet: &'c Cabinet<Generation>,
    config: &mut Config,
) -> Result<Vec<Cpu<'c>>, AllocError>
    requires { config.old.seat.cabinet ≡ cabinet.now.id }
{
    let mut cpus = Vec::new(alloc);
    for number in 0..16u8 {
        if let Some(pass) = config.pass() {
            cpus.push(Cpu {
                vcpu: Vcpu::new(cabinet, pass),
                number,
                rounds: 0,
                good: true,
            })?;
        }
    }
    Ok(cpus)
}

// Each virtual CPU works in a thread of its own; how many saw one map in each round.
fn work_all<R: Threads + Wait + Sync>(rt: &R, begun: &AtomicU64, mut cpus: Vec<Cpu<'_>>) -> u32 {
    thread::for_each_mut(rt, cpus.as_mut_slice(), 16, &|_, cpu| work(rt, begun, cpu));
    cpus.as_slice()
        .iter()
        .fold(0u32, |sum, cpu| sum.saturating_add(u32::from(cpu.good)))
}

// Waits until all virtual CPUs have begun, or for a minute; how many have.
fn wait_for_all<R: Wait>(rt: &R, begun: &AtomicU64) -> u64 {
    let mut left = LONG.tries();
    while left > 0 && begun.load(Ordering::SeqCst) < u64::from(CPUS) {
        LONG.wait(rt, left);
        left -= 1;
    }
    begun.load(Ordering::SeqCst)
}

// What came of the moves beside virtual CPUs: how many of these had begun before the first move, how many moves were refused, and how many
// virtual CPUs saw one map in each round.
#[derive(Clone, Copy)]
struct Moved {
    begun: u64,
    refused: u32,
    good: u32,
}

// Moves the window from page to page once all virtual CPUs have begun, and then tells them to stop; how many had begun, and how many moves
// were refused.
fn move_many<R: Wait>(
    rt: &R,
    begun: &AtomicU64,
    config: &mut Config,
    made: &Regions,
) -> (u64, u32) {
    let at_first = wait_for_all(rt, begun);
    let mut refused = 0u32;
    for moves in 0..MOVES {
        let call = next_move(made.window, moves);
        if config.call_settled(rt, &call, &LONG).is_err() {
            refused = refused.saturating_add(1);
        }
    }
    match config.load_bytes(rt, made.ram, STOP, &[1]) {
        Ok(()) => (at_first, refused),
        Err(_) => (at_first, MOVES),
    }
}

// The writer and the virtual CPUs beside one another.
fn run_on<R: Threads + Wait + Sync>(
    rt: &R,
    alloc: Global,
    cabinet: &Cabinet<Generation>,
    config: &mut Config,
) -> Result<Moved>
    requires { config.old.seat.cabinet ≡ cabinet.now.id }
{
    let cpus = crew(alloc, cabinet, config)?;
    let made = build(config)?;
    let counter = AtomicU64::new(0);
    let begun = &counter;
    let ((begun, refused), good) = thread::join(
        rt,
        || move_many(rt, begun, config, &made),
        move || work_all(rt, begun, cpus),
    );
    Ok(Moved {
        begun,
        refused,
        good,
    })
}

fn run<R: Threads + Wait + Sync>(rt: &R, alloc: Global) -> Result<Moved> {
    let (cabinet, mut config) = Config::new(alloc, 1 << 12, CPUS)?;
    let moved = run_on(rt, alloc, &cabinet, &mut config);
    moved
}

// Moves the window until a move is refused, or a hundred times; how many moves there were, and why the last was refused.
fn move_until_held<R: Wait>(
    rt: &R,
    config: &mut Config,
    window: RegionId,
) -> (u32, Option<Refusal>) {
    for moves in 0..100u32 {
        if let Err(why) = config.call_settled(rt, &next_move(window, moves), &SHORT) {
            return (moves, Some(why));
        }
    }
    (100, None)
}

// What came of moves beside a virtual CPU that stays where it entered.
#[derive(Clone, Copy)]
struct Parked {
    entered: u64,
    moves: u32,
    refused: Option<Refusal>,
    moved_then: bool,
}

fn park_on<R: Wait>(rt: &R, cabinet: &Cabinet<Generation>, config: &mut Config) -> Result<Parked>
    requires { config.old.seat.cabinet ≡ cabinet.now.id }
{
    let pass = config.pass().context("a pass is not out")?;
    let made = build(config)?;
    let mut vcpu = Vcpu::new(cabinet, pass);
    let entered = vcpu.enter();
    let (moves, refused) = move_until_held(rt, config, made.window);
    vcpu.leave();
    let then = next_move(made.window, moves);
    let moved_then = config.call_settled(rt, &then, &SHORT).is_ok();
    Ok(Parked {
        entered,
        moves,
        refused,
        moved_then,
    })
}

fn park<R: Wait>(rt: &R, alloc: Global) -> Result<Parked> {
    let (cabinet, mut config) = Config::new(alloc, 1 << 12, CPUS)?;
    let parked = park_on(rt, &cabinet, &mut config);
    parked
}

fn print_parked(rt: &HostRuntime, parked: &Parked) -> Result<()> {
    println!(rt;
        "a virtual CPU stays in generation {}: {} moves",
        parked.entered, parked.moves
    )?;
    match parked.refused {
        Some(why) => println!(rt; "the next is refused: {why}")?,
        None => println!(rt; "no move is refused")?,
    }
    let then = if parked.moved_then {
        "moved"
    } else {
        "refused"
    };
    println!(rt; "once it has left: {then}")?;
    Ok(())
}

fn print(rt: &HostRuntime, moved: &Moved) -> Result<()> {
    println!(rt;
        "virtual CPUs that read from the first move to the last: {}",
        moved.begun
    )?;
    println!(rt;
        "the window moved {MOVES} times; refused: {}",
        moved.refused
    )?;
    println!(rt;
        "virtual CPUs that saw one map in each round: {}",
        moved.good
    )?;
    Ok(())
}

fn main(rt: HostRuntime) -> ExitCode {
    let printed = match (run(&rt, rt.alloc()), park(&rt, rt.alloc())) {
        (Ok(moved), Ok(parked)) => match print(&rt, &moved) {
            Ok(()) => print_parked(&rt, &parked),
            Err(why) => Err(why),
        },
        (Err(why), _) | (_, Err(why)) => Err(why),
    };
    match printed {
        Ok(()) => ExitCode::from(0),
        Err(_) => ExitCode::from(1),
    }
}
