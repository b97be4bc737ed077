// Windows over each kind of leaf, by worked cases.
ghost use Rattle.std.specs.Prelude.{◌≡◌};

use crate::calls::{GOOD, HOLE, accepts, add, latch, log, map, region, space, whole};
use crate::windows::lines::{Line, goes};
use crate::windows::movers::{MOST, Mover, Span};
use config_desk::Config;
use epoch_rule::Cabinet;
use generation::Generation;
use io_window::Bounce;
use mem_base::{Call, Kind, Perm, RegionId};
use std::alloc::{AllocError, Global};
use std::sync::Wait;
use vcpu_pass::Vcpu;

/// The bytes that are loaded.
const TEN: [u8; 10] = [1, 2, 3, 4, 5, 6, 7, 8, 9, 10];

/// The last page of a space.
const LAST_PAGE: u64 = 0xffff_ffff_ffff_f000;

/// Two pages of memory that is logged for VGA, and a latch: the map of the script `dma` of the worked examples.
fn worked_map() -> [Call; 7] {
    [
        region(Kind::Container, 0x10000),
        region(Kind::Ram, 0x2000),
        region(Kind::Io(latch()), 8),
        space(0, 0),
        add(0, 0, 1),
        add(0, 0x8000, 2),
        log(1),
    ]
}

/// Its bytes, moved by windows.
static WORKED: [Line; 9] = [
    Line::Load(1, 0, &TEN),
    Line::None(Span(0, 0x8000, 8), false, 4),
    Line::Get(Span(0, 0x1ff8, 16), true, &[0; 8], GOOD),
    Line::Copy(Span(0, 0, 10), Span(0, 0x1000, 10), GOOD),
    Line::Get(Span(0, 0x1000, 10), true, &TEN, GOOD),
    Line::Marks(1, &[1]),
    Line::Copy(Span(0, 0, 8), Span(0, 0x8000, 8), GOOD),
    Line::Get(Span(0, 0x8000, 8), false, &[1, 2, 3, 4, 5, 6, 7, 8], GOOD),
    Line::Copy(Span(0, 0x1ffe, 4), Span(0, 0x1000, 4), HOLE),
];

/// Memory, ROM, a ROM device, a latch, a reservation, a hole, memory that is read-only, and memory at the end of the space.
fn leaves() -> [Call; 18] {
    [
        whole(),
        region(Kind::Ram, 0x1000),
        region(Kind::Rom, 0x1000),
        region(Kind::RomDevice(latch()), 0x1000),
        region(Kind::Io(latch()), 8),
        region(Kind::Reserve, 0x1000),
        region(Kind::Ram, 0x1000),
        region(Kind::Ram, 0x1000),
        add(0, 0, 1),
        add(0, 0x1000, 2),
        add(0, 0x2000, 3),
        add(0, 0x3000, 4),
        add(0, 0x4000, 5),
        add(0, 0x6000, 6),
        add(0, LAST_PAGE, 7),
        Call::Readonly {
            region: RegionId(6),
            on: true,
        },
        log(1),
        space(0, 0),
    ]
}

/// Each of them read: a window ends with its leaf.
static READ: [Line; 11] = [
    Line::Load(1, 0xffc, &[1, 2, 3, 4]),
    Line::Load(2, 0, &[5, 6, 7, 8]),
    Line::Load(3, 0, &[9, 10]),
    Line::Get(Span(0, 0xffc, 8), true, &[1, 2, 3, 4], GOOD),
    Line::Get(Span(0, 0x1000, 4), true, &[5, 6, 7, 8], GOOD),
    Line::Get(Span(0, 0x2000, 2), true, &[9, 10], GOOD),
    Line::Get(Span(0, 0x3000, 4), false, &[0; 4], GOOD),
    Line::Get(Span(0, 0x4000, 4), false, &[0; 4], HOLE),
    Line::Get(Span(0, 0x5000, 4), false, &[0; 4], HOLE),
    Line::Get(Span(0, 0x6000, 4), true, &[0; 4], GOOD),
    Line::Get(Span(0, LAST_PAGE + 0xff0, 16), true, &[0; 16], GOOD),
];

/// Each of them written: what is no memory is written through the bounce, and ROM and read-only memory take nothing.
static PUT: [Line; 21] = [
    Line::Load(1, 0xffc, &[1, 2, 3, 4]),
    Line::Load(2, 0, &[5, 6, 7, 8]),
    Line::Load(3, 0, &[9, 10]),
    Line::Put(Span(0, 0xffc, 8), true, &[11, 12, 13, 14], GOOD),
    Line::Get(Span(0, 0xffc, 4), true, &[11, 12, 13, 14], GOOD),
    Line::Marks(1, &[0]),
    Line::Put(Span(0, 0x1000, 4), false, &[15; 4], HOLE),
    Line::Get(Span(0, 0x1000, 4), true, &[5, 6, 7, 8], GOOD),
    Line::Put(Span(0, 0x2000, 4), false, &[16, 17, 18, 19], GOOD),
    Line::Get(Span(0, 0x2000, 2), true, &[9, 10], GOOD),
    Line::RomdOff(3),
    Line::Get(Span(0, 0x2000, 4), false, &[16, 17, 18, 19], GOOD),
    Line::Put(Span(0, 0x3000, 4), false, &[20; 4], GOOD),
    Line::Get(Span(0, 0x3000, 4), false, &[20; 4], GOOD),
    Line::Put(Span(0, 0x4000, 4), false, &[21; 4], HOLE),
    Line::Put(Span(0, 0x5000, 4), false, &[22; 4], HOLE),
    Line::Put(Span(0, 0x6000, 4), false, &[23; 4], HOLE),
    Line::Get(Span(0, 0x6000, 4), true, &[0; 4], GOOD),
    Line::Put(Span(0, LAST_PAGE + 0xffc, 4), true, &[24; 4], GOOD),
    Line::Get(Span(0, LAST_PAGE + 0xffe, 2), true, &[24; 2], GOOD),
    Line::None(Span(0, 0x1000, 8), true, 11),
];

/// Memory behind two translations, the first of which is for reads alone.
fn translated_map() -> [Call; 6] {
    [
        region(Kind::Ram, 0x2000),
        region(Kind::Iommu, 0x10000),
        space(0, 0),
        space(1, 1),
        map(1, 0x3000, 0, 0x1000, Perm::Read),
        map(1, 0x4000, 0, 0, Perm::Both),
    ]
}

/// Windows through them.
static TRANSLATED: [Line; 7] = [
    Line::Load(0, 0x1ffc, &[1, 2, 3, 4]),
    Line::Get(Span(1, 0x3ffc, 8), true, &[1, 2, 3, 4], GOOD),
    Line::Put(Span(1, 0x3ffc, 4), false, &[5; 4], HOLE),
    Line::Put(Span(1, 0x4ffe, 4), true, &[6, 7], GOOD),
    Line::Get(Span(0, 0xffe, 2), true, &[6, 7], GOOD),
    Line::None(Span(1, 0x5000, 8), false, 4),
    Line::Get(Span(1, 0x5000, 4), false, &[0; 4], HOLE),
];

/// A virtual CPU with a bounce, where there is one.
fn mover_of<'c>(
    alloc: Global,
    cabinet: &'c Cabinet<Generation>,
    config: &mut Config,
) -> Result<Option<Mover<'c>>, AllocError>
    requires { config.old.seat.cabinet ≡ cabinet.now.id }
{
    let bounce = Bounce::new(alloc, MOST)?;
    match config.pass() {
        Some(pass) => Ok(Some(Mover {
            vcpu: Vcpu::new(cabinet, pass),
            bounce: Some(bounce),
            good: true,
        })),
        None => {
            drop(bounce);
            Ok(None)
        }
    }
}

/// How many lines of a case are as they have to be in a map, up to the first that is not.
fn right_on<R: Wait>(
    rt: &R,
    alloc: Global,
    cabinet: &Cabinet<Generation>,
    config: &mut Config,
    map: &[Call],
    lines: &[Line],
) -> Result<usize, AllocError>
    requires { config.old.seat.cabinet ≡ cabinet.now.id }
{
    match mover_of(alloc, cabinet, config)? {
        Some(mover) if accepts(config, map) => Ok(goes(rt, config, mover, lines)),
        _ => Ok(0),
    }
}

/// The same, of a machine that is made for it.
fn right<R: Wait>(
    rt: &R,
    alloc: Global,
    map: &[Call],
    lines: &[Line],
) -> Result<usize, AllocError> {
    let (cabinet, mut config) = Config::new(alloc, 4096, 1)?;
    let right = right_on(rt, alloc, &cabinet, &mut config, map, lines);
    drop(config);
    drop(cabinet);
    right
}

/// Whether all lines of a case are.
fn is_right<R: Wait>(rt: &R, alloc: Global, map: &[Call], lines: &[Line]) -> bool {
    right(rt, alloc, map, lines) == Ok(lines.len())
}

#[test]
fn bytes_are_moved_by_windows_as_by_the_script(rt: HostRuntime) {
    assert!(rt; is_right(&rt, rt.alloc(), &worked_map(), &WORKED));
}

#[test]
fn a_window_is_got_directly_from_memory_alone(rt: HostRuntime) {
    assert!(rt; is_right(&rt, rt.alloc(), &leaves(), &READ));
}

#[test]
fn a_window_is_put_directly_into_memory_alone(rt: HostRuntime) {
    assert!(rt; is_right(&rt, rt.alloc(), &leaves(), &PUT));
}

#[test]
fn a_window_ends_with_its_translation(rt: HostRuntime) {
    assert!(rt; is_right(&rt, rt.alloc(), &translated_map(), &TRANSLATED));
}
