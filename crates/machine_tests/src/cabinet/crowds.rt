// Passes and the writer in threads of their own.
ghost use Rattle.std.specs.Prelude.{◌≡◌, ◌<◌, All, None, Some, IfOk};

use crate::cabinet::boards::{Board, open, publish_next, ram};
use crate::cabinet::marking::marks;
use epoch_rule::{Cabinet, Pass, WriterSeat};
use mem_base::Edition;
use shared_words::{add, load};
use std::alloc::{AllocError, Global};
use std::thread;
use std::thread::Threads;

/// Enters and leaves 1,000 times; whether each number was at least the one before, and that of its generation.
fn visit(cabinet: &Cabinet<Board>, mut pass: Pass<Board>) -> bool
    requires { (pass.cabinet ≡ cabinet.now.id) × (pass.edition ≡ None) }
{
    let mut last = 0;
    let mut good = true;
    for _ in 0..1000u32 {
        let number = cabinet.enter(&mut pass);
        good &= last <= number && cabinet.generation(&pass).number() == number;
        last = number;
        cabinet.leave(&mut pass);
    }
    good
}

/// Publishes up to 1,000 boards; whether each number was the one after the last.
fn publish_many(
    alloc: Global,
    cabinet: &Cabinet<Board>,
    writer: &mut WriterSeat<Board>,
) -> Result<bool, AllocError>
    requires { (writer.old.cabinet ≡ cabinet.now.id) × (writer.old.sizes.passes ≡ 1) × (writer.old.sizes.words ≡ 32835) }
{
    let mut last = 0u64;
    let mut good = true;
    for _ in 0..1000u32 {
        if let Ok(number) = publish_next(alloc, cabinet, writer, 1)? {
            good &= number == last.saturating_add(1);
            last = number;
        }
    }
    Ok(good)
}

/// Whether all is right where a pass enters and leaves beside the publishes.
fn visits_are_good<R: Threads + Sync>(
    rt: &R,
    alloc: Global,
    cabinet: &Cabinet<Board>,
    writer: &mut WriterSeat<Board>,
) -> Result<bool, AllocError>
    requires { (writer.old.cabinet ≡ cabinet.now.id) × (writer.old.sizes.passes ≡ 1) × (writer.old.sizes.words ≡ 32835) }
{
    let Some(pass) = cabinet.pass(writer) else {
        return Ok(false);
    };
    let (visited, published) = thread::join(
        rt,
        move || visit(cabinet, pass),
        || publish_many(alloc, cabinet, writer),
    );
    Ok(visited && published?)
}

/// The same of a cabinet of its own.
fn visits<R: Threads + Sync>(rt: &R, alloc: Global) -> Result<bool, AllocError> {
    let (cabinet, mut writer) = open(alloc, 1)?;
    let is_so = visits_are_good(rt, alloc, &cabinet, &mut writer);
    drop(writer);
    drop(cabinet);
    is_so
}

/// Adds one to word 5 of the RAM, 10,000 times.
fn add_many(cabinet: &Cabinet<Board>, pass: &mut Pass<Board>)
    requires own { pass.old.cabinet ≡ cabinet.now.id }
    requires out { pass.old.edition ≡ None }
{
    if cabinet.enter(pass) == 0 {
        return;
    }
    let place = ram();
    for _ in 0..10000u32 {
        add(cabinet, pass, &place, 5);
    }
}

/// All passes that can be handed out.
fn crew(
    alloc: Global,
    cabinet: &Cabinet<Board>,
    writer: &mut WriterSeat<Board>,
) -> Result<Vec<Pass<Board>>, AllocError>
    requires { writer.old.cabinet ≡ cabinet.now.id }
    ensures passes { IfOk result (λ v. All (λ p. (p.cabinet ≡ cabinet.now.id) × (p.edition ≡ None)) v.items) }
    ensures same { (writer.new.cabinet ≡ writer.old.cabinet) × (writer.new.sizes ≡ writer.old.sizes) }
{
    let mut passes = Vec::new(alloc);
    for _ in 0..16u32 {
        if let Some(pass) = cabinet.pass(writer) {
            passes.push(pass)?;
        }
    }
    Ok(passes)
}

fn add_in_threads<R: Threads + Sync>(rt: &R, cabinet: &Cabinet<Board>, passes: &mut [Pass<Board>])
    requires { All (λ p. (p.cabinet ≡ cabinet.now.id) × (p.edition ≡ None)) passes.old }
{
    thread::for_each_mut(rt, passes, 16, &|_, pass| add_many(cabinet, pass));
}

/// Whether sixteen passes can be had, and the word is right after each of them added to it in a thread of its own.
fn additions_are_there<R: Threads + Sync>(
    rt: &R,
    alloc: Global,
    cabinet: &Cabinet<Board>,
    writer: &mut WriterSeat<Board>,
) -> Result<bool, AllocError>
    requires { (writer.old.cabinet ≡ cabinet.now.id) × (writer.old.sizes.passes ≡ 16) × (writer.old.sizes.words ≡ 32835) }
{
    if publish_next(alloc, cabinet, writer, 16)? != Ok(1) {
        return Ok(false);
    }
    let mut passes = crew(alloc, cabinet, writer)?;
    let count = passes.len();
    add_in_threads(rt, cabinet, passes.as_mut_slice());
    drop(passes);
    Ok(count == 16 && load(cabinet, writer, &ram(), 5) == 160000)
}

/// The same of a cabinet of its own.
fn additions<R: Threads + Sync>(rt: &R, alloc: Global) -> Result<bool, AllocError> {
    let (cabinet, mut writer) = open(alloc, 16)?;
    let is_so = additions_are_there(rt, alloc, &cabinet, &mut writer);
    drop(writer);
    drop(cabinet);
    is_so
}

/// What threads do with a cabinet.
#[derive(Clone, Copy)]
enum Trial {
    Visits,
    Additions,
    Marks,
}

/// How often threads do it anew.
const TIMES: u32 = 5;

/// The first time that it does not come out.
fn first_other<R: Threads + Sync>(
    rt: &R,
    alloc: Global,
    trial: Trial,
) -> Result<Option<u32>, AllocError> {
    for time in 0..TIMES {
        let is_so = match trial {
            Trial::Visits => visits(rt, alloc)?,
            Trial::Additions => additions(rt, alloc)?,
            Trial::Marks => marks(rt, alloc)?,
        };
        if !is_so {
            return Ok(Some(time));
        }
    }
    Ok(None)
}

/// All of it, each with what it shows.
static TRIALS: [(&str, Trial); 3] = [
    (
        "numbers never fall beside a thousand publishes",
        Trial::Visits,
    ),
    ("sixteen threads lose no addition", Trial::Additions),
    ("marks beside harvests are each taken once", Trial::Marks),
];

#[test]
fn threads_beside_one_another_lose_nothing(rt: HostRuntime) {
    for (name, trial) in &TRIALS {
        let time = first_other(&rt, rt.alloc(), *trial);
        assert!(rt; time == Ok(None), "{name}: {time:?}");
    }
}
