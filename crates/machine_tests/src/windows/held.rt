// A window that is held open while the map moves beneath it.
ghost use Rattle.std.specs.Prelude.{◌≡◌, ◌≤◌, true};

use crate::calls::{GOOD, accepts, add, log, region, shift, space};
use crate::windows::lines::marks;
use config_desk::Config;
use epoch_rule::Cabinet;
use generation::Generation;
use io_window::{Closed, Window, open};
use mem_base::{Call, Kind, PassId, Refusal, SpaceId};
use std::alloc::{AllocError, Global};
use std::sync::Wait;
use vcpu_pass::Vcpu;

/// How often the map moves beneath the window: as often as a pass may be behind.
const MOVES: u64 = 7;

/// The generation in which the window is opened.
const OPENED: u64 = 3;

/// The bytes that are put, eight before the moves and eight after them.
const BYTES: [u8; 16] = [1, 1, 1, 1, 1, 1, 1, 1, 2, 2, 2, 2, 2, 2, 2, 2];

/// A page of memory, logged for VGA, in a container.
fn memory() -> [Call; 5] {
    [
        region(Kind::Container, 0x10000),
        region(Kind::Ram, 0x1000),
        space(0, 0),
        add(0, 0, 1),
        log(1),
    ]
}

/// Moves the memory on by a page, again and again; whether each move is published.
fn moves(config: &mut Config) -> bool {
    for step in 1..=MOVES {
        match config.call(&shift(1, step * 0x1000)) {
            Ok((_, number)) if number == Some(OPENED + step) => {}
            _ => return false,
        }
    }
    true
}

/// Whether the next move is held up by the first virtual CPU, in the generation in which it opened its window.
fn is_held_up(config: &mut Config) -> bool {
    match config.call(&shift(1, 0x8000)) {
        Err(why) => why == Refusal::Held(PassId::FIRST, OPENED),
        Ok(_) => false,
    }
}

/// Puts eight bytes into a window, has the memory moved beneath it eight times, and puts eight more; whether all was as it has to be.
fn puts<R: Wait>(rt: &R, config: &mut Config, window: &mut Window<'_>) -> bool
    requires write { window.old.start.write ≡ true }
    requires fresh { window.old.put_end ≡ 0 }
    ensures stays { (window.new.len ≡ window.old.len) × (window.new.put_end ≤ window.old.len) }
{
    if window.len() != 16 {
        return false;
    }
    window.put(rt, 0, &[1; 8]);
    let moved = moves(config) && is_held_up(config);
    window.put(rt, 8, &[2; 8]);
    moved && window.direct() && window.number() == OPENED && window.put_end() == 16
}

/// The same by a window that is opened and closed.
fn holds<'c, R: Wait>(rt: &R, config: &mut Config, vcpu: Vcpu<'c>) -> (Vcpu<'c>, bool) {
    match open(vcpu, SpaceId(0), 0, 16, true, None) {
        Ok(mut window) => {
            let len = window.len();
            let is_so = puts(rt, config, &mut window);
            let Closed { vcpu, result, .. } = window.close(rt, len);
            (vcpu, is_so && result == GOOD)
        }
        Err((_, vcpu, _)) => (vcpu, false),
    }
}

/// Whether the bytes lie where the memory is then, and its page is marked.
fn has_moved(config: &mut Config, vcpu: &mut Vcpu<'_>) -> bool {
    let mut bytes = [0u8; 16];
    let moved = config.call(&shift(1, 0x8000)).is_ok();
    let access = vcpu.read(SpaceId(0), 0x8000, &mut bytes);
    let is_read = bytes == BYTES && access.result == GOOD && access.number == OPENED + MOVES + 1;
    moved && is_read && marks(config, 1, &[0])
}

fn held_on<R: Wait>(rt: &R, cabinet: &Cabinet<Generation>, config: &mut Config) -> bool
    requires { config.old.seat.cabinet ≡ cabinet.now.id }
{
    let Some(pass) = config.pass() else {
        return false;
    };
    let vcpu = Vcpu::new(cabinet, pass);
    if !accepts(config, &memory()) {
        return false;
    }
    let (mut vcpu, held) = holds(rt, config, vcpu);
    let is_so = held && !vcpu.entered() && has_moved(config, &mut vcpu);
    drop(vcpu);
    is_so
}

fn held<R: Wait>(rt: &R, alloc: Global) -> Result<bool, AllocError> {
    let (cabinet, mut config) = Config::new(alloc, 4096, 16)?;
    let held = held_on(rt, &cabinet, &mut config);
    drop(config);
    drop(cabinet);
    Ok(held)
}

#[test]
fn a_window_stays_where_it_was_opened(rt: HostRuntime) {
    assert!(rt; held(&rt, rt.alloc()) == Ok(true));
}
