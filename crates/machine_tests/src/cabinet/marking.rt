// Marks and harvests beside one another.
ghost use Rattle.std.specs.Prelude.{◌≡◌, ◌<◌, None, Some, IfOk, IfSome};

use crate::cabinet::boards::{Board, open, publish_next, ram};
use epoch_rule::{Cabinet, Pass, WriterSeat};
use mem_base::Client;
use shared_words::{harvest, mark};
use std::alloc::{AllocError, Global};
use std::thread;
use std::thread::Threads;

/// Marks each of the 64 pages for VGA, the even ones first.
fn mark_all(cabinet: &Cabinet<Board>, mut pass: Pass<Board>)
    requires { (pass.cabinet ≡ cabinet.now.id) × (pass.edition ≡ None) }
{
    if cabinet.enter(&mut pass) == 0 {
        return;
    }
    let place = ram();
    for page in 0..64u64 {
        let page = if page < 32 { 2 * page } else { 2 * page - 63 };
        mark(cabinet, &mut pass, &place, Client::Vga, page);
    }
}

/// Harvests 100 times, and joins what it took: the seat, the marks, and whether none was taken twice.
fn harvest_many(
    cabinet: &Cabinet<Board>,
    mut writer: WriterSeat<Board>,
) -> (WriterSeat<Board>, u64, bool)
    requires { (writer.cabinet ≡ cabinet.now.id) × (writer.sizes.words ≡ 32835) }
    ensures { (result.0.cabinet ≡ cabinet.now.id) × (result.0.sizes.words ≡ 32835) }
{
    let place = ram();
    let mut taken = 0;
    let mut once = true;
    for _ in 0..100u32 {
        let marks = harvest(cabinet, &mut writer, &place, Client::Vga, 0);
        once &= taken & marks == 0;
        taken |= marks;
    }
    (writer, taken, once)
}

/// All marks that were taken, the last of them after the pass made its last one, and whether none was taken twice.
fn mark_beside_harvests<R: Threads + Sync>(
    rt: &R,
    cabinet: &Cabinet<Board>,
    pass: Pass<Board>,
    writer: WriterSeat<Board>,
) -> (u64, bool)
    requires pass { (pass.cabinet ≡ cabinet.now.id) × (pass.edition ≡ None) }
    requires writer { (writer.cabinet ≡ cabinet.now.id) × (writer.sizes.words ≡ 32835) }
{
    let ((), (mut writer, taken, once)) = thread::join(
        rt,
        move || mark_all(cabinet, pass),
        move || -> (WriterSeat<Board>, u64, bool)
            requires { (writer.cabinet ≡ cabinet.now.id) × (writer.sizes.words ≡ 32835) }
            ensures { (result.0.cabinet ≡ cabinet.entry.now.id) × (result.0.sizes.words ≡ 32835) }
        { harvest_many(cabinet, writer) },
    );
    let rest = harvest(cabinet, &mut writer, &ram(), Client::Vga, 0);
    (taken | rest, once && taken & rest == 0)
}

/// A pass of a cabinet in which generation 1 is current; `None` where it is not published.
fn first_pass(
    alloc: Global,
    cabinet: &Cabinet<Board>,
    writer: &mut WriterSeat<Board>,
) -> Result<Option<Pass<Board>>, AllocError>
    requires { (writer.old.cabinet ≡ cabinet.now.id) × (writer.old.sizes.passes ≡ 1) × (writer.old.sizes.words ≡ 32835) }
    ensures pass { IfOk result (λ p. IfSome p (λ q. (q.cabinet ≡ cabinet.now.id) × (q.edition ≡ None))) }
    ensures same { (writer.new.cabinet ≡ writer.old.cabinet) × (writer.new.sizes ≡ writer.old.sizes) }
{
    if publish_next(alloc, cabinet, writer, 1)? != Ok(1) {
        return Ok(None);
    }
    Ok(cabinet.pass(writer))
}

/// Whether all pages are marked by a pass, and each mark is taken once.
pub(crate) fn marks<R: Threads + Sync>(rt: &R, alloc: Global) -> Result<bool, AllocError> {
    let (cabinet, mut writer) = open(alloc, 1)?;
    let taken = match first_pass(alloc, &cabinet, &mut writer) {
        Ok(Some(pass)) => {
            let taken = mark_beside_harvests(rt, &cabinet, pass, writer);
            Ok(taken == (u64::MAX, true))
        }
        Ok(None) => {
            drop(writer);
            Ok(false)
        }
        Err(error) => {
            drop(writer);
            Err(error)
        }
    };
    drop(cabinet);
    taken
}
