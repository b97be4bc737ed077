// Sixteen virtual CPUs in threads of their own, beside a writer that moves their memory, or makes it, drops it and makes it anew.
ghost use Rattle.std.specs.Prelude.{◌≡◌, ◌<◌};

mod moved;
mod remade;

use crate::calls::accepts;
use config_desk::Config;
use epoch_rule::Cabinet;
use generation::Generation;
use mem_base::SpaceId;
use std::alloc::{AllocError, Global};
use std::sync::Wait;
use std::thread;
use std::thread::Threads;
use vcpu_pass::Vcpu;

/// The space that all read and write.
const SPACE: SpaceId = SpaceId(0);

/// How often each virtual CPU enters.
const ROUNDS: u64 = 1000;

/// The words of the pool: those of two pages of memory with their marks.
const WORDS: usize = 1030;

/// What the writer does to the memory.
#[derive(Clone, Copy)]
enum Play {
    /// It moves it.
    Moved,
    /// It makes it, places it, removes it and drops it.
    Remade,
}

/// A virtual CPU, which its thread takes, with its number below 16, and whether all that it got was as it has to be.
#[derive(Drop)]
struct Roamer<'c> {
    vcpu: Option<Vcpu<'c>>,
    mine: u8,
    good: bool,
}

/// What a virtual CPU does in a generation; whether what it got is as it has to be.
fn visit<'c, R: Wait>(
    rt: &R,
    play: Play,
    vcpu: Vcpu<'c>,
    number: u64,
    mine: u8,
    round: u64,
) -> (Vcpu<'c>, bool)
    requires { mine < 16 }
{
    match play {
        Play::Moved => moved::visit(rt, vcpu, mine, round),
        Play::Remade => remade::visit(rt, vcpu, number, mine, round),
    }
}

/// Enters, visits and leaves again and again; whether no number was below the one before, and all visits were good.
fn rounds<R: Wait>(rt: &R, play: Play, vcpu: Vcpu<'_>, mine: u8) -> bool
    requires { mine < 16 }
{
    let mut vcpu = vcpu;
    let mut good = true;
    let mut last = 0;
    for round in 0..ROUNDS {
        let number = vcpu.enter();
        let (visitor, is_so) = visit(rt, play, vcpu, number, mine, round);
        vcpu = visitor;
        good = good && is_so && last <= number && vcpu.entered();
        vcpu.leave();
        last = number;
    }
    drop(vcpu);
    good
}

/// Has a virtual CPU roam.
fn roam<R: Wait>(rt: &R, play: Play, roamer: &mut Roamer<'_>) {
    if let Some(vcpu) = roamer.vcpu.take() {
        roamer.good = rounds(rt, play, vcpu, roamer.mine % 16);
    }
}

/// All virtual CPUs that can be had.
fn crew<'c>(
    alloc: Global,
    cabinet: &'c Cabinet<Generation>,
    config: &mut Config,
) -> Result<Vec<Roamer<'c>>, AllocError>
    requires { config.old.seat.cabinet ≡ cabinet.now.id }
{
    let mut roamers = Vec::new(alloc);
    for mine in 0..16u8 {
        if let Some(pass) = config.pass() {
            roamers.push(Roamer {
                vcpu: Some(Vcpu::new(cabinet, pass)),
                mine,
                good: false,
            })?;
        }
    }
    Ok(roamers)
}

/// Has all virtual CPUs roam, each in a thread of its own; how many got what they had to get.
fn roam_all<R: Threads + Wait + Sync>(rt: &R, play: Play, mut roamers: Vec<Roamer<'_>>) -> usize {
    thread::for_each_mut(
        rt,
        roamers.as_mut_slice(),
        16,
        &|_, roamer| roam(rt, play, roamer),
    );
    roamers
        .as_slice()
        .iter()
        .filter(|roamer| roamer.good)
        .count()
}

/// How often the writer does it.
fn write_many(play: Play, config: &mut Config) -> u32 {
    match play {
        Play::Moved => moved::move_many(config),
        Play::Remade => remade::make_many(config),
    }
}

/// Makes the map.
fn builds(play: Play, config: &mut Config) -> bool {
    match play {
        Play::Moved => accepts(config, &moved::map()),
        Play::Remade => accepts(config, &remade::map()),
    }
}

/// How often the writer did it, and how many of the virtual CPUs got what they had to get.
fn play_on<R: Threads + Wait + Sync>(
    rt: &R,
    play: Play,
    config: &mut Config,
    roamers: Vec<Roamer<'_>>,
) -> (u32, usize) {
    let (good, done) = thread::join(
        rt,
        move || roam_all(rt, play, roamers),
        || write_many(play, config),
    );
    (done, good)
}

/// The same of all virtual CPUs of a machine, and how many regions a last reap leaves dropped.
fn crowd_on<R: Threads + Wait + Sync>(
    rt: &R,
    alloc: Global,
    play: Play,
    cabinet: &Cabinet<Generation>,
    config: &mut Config,
) -> Result<(u32, usize, usize), AllocError>
    requires { config.old.seat.cabinet ≡ cabinet.now.id }
{
    let roamers = crew(alloc, cabinet, config)?;
    if !builds(play, config) {
        return Ok((0, 0, 0));
    }
    let (done, good) = play_on(rt, play, config, roamers);
    let _ = config.reap();
    Ok((done, good, config.dropped().len()))
}

/// The same of a machine of its own.
fn crowd<R: Threads + Wait + Sync>(
    rt: &R,
    alloc: Global,
    play: Play,
) -> Result<(u32, usize, usize), AllocError> {
    let (cabinet, mut config) = Config::new(alloc, WORDS, 16)?;
    let crowd = crowd_on(rt, alloc, play, &cabinet, &mut config);
    drop(config);
    drop(cabinet);
    crowd
}

#[test]
fn sixteen_virtual_cpus_lose_no_write_beside_a_thousand_moves(rt: HostRuntime) {
    let found = crowd(&rt, rt.alloc(), Play::Moved);
    assert!(rt; found == Ok((1000, 16, 0)), "{found:?}");
}

#[test]
fn sixteen_virtual_cpus_read_what_was_written_to_memory_that_comes_and_goes(rt: HostRuntime) {
    let found = crowd(&rt, rt.alloc(), Play::Remade);
    assert!(rt; found == Ok((300, 16, 0)), "{found:?}");
}
