// Whole words that a virtual CPU writes, which no line of a script does. Its other accesses are scripts of `examples/worked`.
ghost use Rattle.std.specs.Prelude.{◌≡◌};

use crate::calls::{GOOD, accepts, latch, region, space};
use config_desk::Config;
use epoch_rule::Cabinet;
use generation::Generation;
use mem_base::{Access, Call, Kind, SpaceId};
use std::alloc::{AllocError, Global};
use vcpu_pass::{NotWhole, Vcpu};

/// The generation in which all is written and read.
const NUMBER: u64 = 2;

/// Memory, and in a space of its own a latch that takes accesses of 1 to 4 bytes.
fn map() -> [Call; 4] {
    [
        region(Kind::Ram, 0x1000),
        region(Kind::Io(latch()), 8),
        space(0, 0),
        space(1, 1),
    ]
}

/// A space, an address, the word that is written there, and whether that is done: whole words of memory are replaced, and no others.
type Written = (u32, u64, u64, bool);

static WRITTEN: [Written; 3] = [
    (0, 8, 0x1122_3344_5566_7788, true),
    (0, 9, 1, false),
    (1, 0, 5, false),
];

/// What is read then: a space, an address, and the eight bytes there.
static READ: [(u32, u64, [u8; 8]); 3] = [
    (0, 8, [0x88, 0x77, 0x66, 0x55, 0x44, 0x33, 0x22, 0x11]),
    (0, 16, [0; 8]),
    (1, 0, [0; 8]),
];

/// Whether a word is written, or not, as it has to be.
fn writes(vcpu: &mut Vcpu<'_>, row: &Written) -> bool {
    let (space, addr, value, whole) = *row;
    match vcpu.write8(SpaceId(space), addr, value) {
        Ok(Access { result, number }) => whole && result == GOOD && number == NUMBER,
        Err(NotWhole { number }) => !whole && number == NUMBER,
    }
}

/// Whether these bytes are read.
fn reads(vcpu: &mut Vcpu<'_>, row: &(u32, u64, [u8; 8])) -> bool {
    let (space, addr, bytes) = *row;
    let mut out = [0xee; 8];
    let Access { result, number } = vcpu.read(SpaceId(space), addr, &mut out);
    result == GOOD && number == NUMBER && out == bytes
}

/// Whether all of them are written and read so, and the last word of the memory is written in a generation that was entered.
fn are_written(vcpu: &mut Vcpu<'_>) -> bool {
    for row in &WRITTEN {
        if !writes(vcpu, row) {
            return false;
        }
    }
    for row in &READ {
        if !reads(vcpu, row) {
            return false;
        }
    }
    let entered = vcpu.enter() == NUMBER && writes(vcpu, &(0, 0xff8, u64::MAX, true));
    vcpu.leave();
    entered
}

/// The same of a machine's first virtual CPU.
fn are_written_on(cabinet: &Cabinet<Generation>, config: &mut Config) -> bool
    requires { config.old.seat.cabinet ≡ cabinet.now.id }
{
    let Some(pass) = config.pass() else {
        return false;
    };
    let mut vcpu = Vcpu::new(cabinet, pass);
    let is_so = accepts(config, &map()) && are_written(&mut vcpu);
    drop(vcpu);
    is_so
}

/// The same of a machine of its own.
fn are_written_whole(alloc: Global) -> Result<bool, AllocError> {
    let (cabinet, mut config) = Config::new(alloc, 4096, 1)?;
    let is_so = are_written_on(&cabinet, &mut config);
    drop(config);
    drop(cabinet);
    Ok(is_so)
}

#[test]
fn a_word_is_written_whole_or_not_at_all(rt: HostRuntime) {
    assert!(rt; are_written_whole(rt.alloc()) == Ok(true));
}
