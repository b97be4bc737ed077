// How long windows take, beside the same bytes moved by hand.
ghost use Rattle.std.specs.Prelude.{◌≡◌, ◌≤◌, ◌+◌, ◌^◌, length, false, true};

use crate::times::{Failed, Least, begin};
use config_desk::Config;
use epoch_rule::Cabinet;
use generation::Generation;
use io_window::{Window, open};
use mem_base::{Call, Kind, RegionId, Size, SpaceId};
use std::alloc::{AllocError, Global};
use std::sync::Wait;
use std::sync::atomic::{AtomicU64, Ordering};
use std::time::Clock;
use vcpu_pass::Vcpu;

/// The pages of the memory.
const PAGES: u64 = 256;

/// The bytes of a page.
const PAGE: u64 = 4096;

/// The words of the pool, which the memory has, with its marks.
const WORDS: usize = 0x20100;

/// The space that is the memory.
const SPACE: SpaceId = SpaceId(0);

/// What is done with each page of the memory, one after another.
#[derive(Clone, Copy)]
enum Way {
    /// It is got from one window on all pages.
    Get,
    /// It is put into one window on all pages.
    Put,
    /// A window of the page is opened, got and closed.
    GetAlone,
    /// A window of the page is opened, put and closed.
    PutAlone,
    /// A window of 64 bytes is opened and closed.
    Open,
    /// Eight bytes are read by an access.
    Access,
}

/// Gets the bytes from an address on through a window of their own.
fn get<'c, R: Wait>(rt: &R, vcpu: Vcpu<'c>, addr: u64, out: &mut [u8]) -> Vcpu<'c>
    requires some { 1 ≤ length out.old }
    requires within { addr + length out.old ≤ 2 ^ 64 }
{
    match open(vcpu, SPACE, addr, out.len() as u64, false, None) {
        Ok(mut window) => {
            let count = window.len() as usize;
            window.get(0, &mut out[..count]);
            window.close(rt, 0).vcpu
        }
        Err((_, vcpu, _)) => vcpu,
    }
}

/// Puts bytes from an address on through a window of their own.
fn put<'c, R: Wait>(rt: &R, vcpu: Vcpu<'c>, addr: u64, bytes: &[u8]) -> Vcpu<'c>
    requires some { 1 ≤ length bytes.now }
    requires within { addr + length bytes.now ≤ 2 ^ 64 }
{
    match open(vcpu, SPACE, addr, bytes.len() as u64, true, None) {
        Ok(mut window) => {
            let len = window.len();
            window.put(rt, 0, &bytes[..len as usize]);
            window.close(rt, len).vcpu
        }
        Err((_, vcpu, _)) => vcpu,
    }
}

/// Gets the page of a window from a byte on, where it has one there.
fn get_page(window: &mut Window<'_>, at: u64, page: &mut [u8; 4096])
    requires read { window.old.start.write ≡ false }
    ensures start { window.new.start ≡ window.old.start }
    ensures end { window.new.put_end ≡ window.old.put_end }
{
    if window.len() >= PAGE && at <= window.len() - PAGE {
        window.get(at, page);
    }
}

/// Puts the page of a window from a byte on, where it has one there.
fn put_page<R: Wait>(rt: &R, window: &mut Window<'_>, at: u64, page: &[u8; 4096])
    requires write { window.old.start.write ≡ true }
    requires end { window.old.put_end ≤ window.old.len }
    ensures start { window.new.start ≡ window.old.start }
    ensures end { window.new.put_end ≤ window.new.len }
{
    if window.len() >= PAGE && at <= window.len() - PAGE {
        window.put(rt, at, page);
    }
}

/// Gets all pages of a window.
fn get_all(window: &mut Window<'_>, page: &mut [u8; 4096])
    requires read { window.old.start.write ≡ false }
    requires end { window.old.put_end ≡ 0 }
    ensures end { window.new.put_end ≡ 0 }
{
    for number in 0..PAGES {
        get_page(window, number * PAGE, page);
    }
}

/// Puts all pages of a window.
fn put_all<R: Wait>(rt: &R, window: &mut Window<'_>, page: &[u8; 4096])
    requires write { window.old.start.write ≡ true }
    requires end { window.old.put_end ≤ window.old.len }
    ensures end { window.new.put_end ≤ window.new.len }
{
    for number in 0..PAGES {
        put_page(rt, window, number * PAGE, page);
    }
}

/// Gets all pages from one window on the first `len` bytes.
fn get_pages<'c, R: Wait>(rt: &R, vcpu: Vcpu<'c>, len: u64, page: &mut [u8; 4096]) -> Vcpu<'c>
    requires { 1 ≤ len }
{
    match open(vcpu, SPACE, 0, len, false, None) {
        Ok(mut window) => {
            get_all(&mut window, page);
            window.close(rt, 0).vcpu
        }
        Err((_, vcpu, _)) => vcpu,
    }
}

/// Puts all pages into one window on the first `len` bytes.
fn put_pages<'c, R: Wait>(rt: &R, vcpu: Vcpu<'c>, len: u64, page: &[u8; 4096]) -> Vcpu<'c>
    requires { 1 ≤ len }
{
    match open(vcpu, SPACE, 0, len, true, None) {
        Ok(mut window) => {
            put_all(rt, &mut window, page);
            let len = window.len();
            window.close(rt, len).vcpu
        }
        Err((_, vcpu, _)) => vcpu,
    }
}

/// Opens a window of 64 bytes and closes it.
fn touch<'c, R: Wait>(rt: &R, vcpu: Vcpu<'c>, addr: u64) -> Vcpu<'c>
    requires { addr + 64 ≤ 2 ^ 64 }
{
    match open(vcpu, SPACE, addr, 64, false, None) {
        Ok(window) => window.close(rt, 0).vcpu,
        Err((_, vcpu, _)) => vcpu,
    }
}

/// Does with a page, by a virtual CPU, what is done with each one by itself.
fn go_on<'c, R: Wait>(
    rt: &R,
    mut vcpu: Vcpu<'c>,
    way: Way,
    addr: u64,
    page: &mut [u8; 4096],
) -> Vcpu<'c>
    requires { addr + 4096 ≤ 2 ^ 64 }
{
    match way {
        Way::Get | Way::GetAlone => get(rt, vcpu, addr, page),
        Way::Put | Way::PutAlone => put(rt, vcpu, addr, page),
        Way::Open => touch(rt, vcpu, addr),
        Way::Access => {
            vcpu.read(SPACE, addr, &mut page[..8]);
            vcpu
        }
    }
}

/// Goes over all pages by a virtual CPU.
fn go<'c, R: Wait>(rt: &R, vcpu: Vcpu<'c>, way: Way, page: &mut [u8; 4096]) -> Vcpu<'c> {
    match way {
        Way::Get => get_pages(rt, vcpu, PAGES * PAGE, page),
        Way::Put => put_pages(rt, vcpu, PAGES * PAGE, page),
        _ => {
            let mut vcpu = vcpu;
            for number in 0..PAGES {
                vcpu = go_on(rt, vcpu, way, number * PAGE, page);
            }
            vcpu
        }
    }
}

/// The least time of some rounds of one way, for a page.
fn time<'c, R: Clock + Wait>(
    rt: &R,
    vcpu: Vcpu<'c>,
    way: Way,
    page: &mut [u8; 4096],
    rounds: u32,
) -> (Vcpu<'c>, u64) {
    let mut vcpu = vcpu;
    let mut least = Least::new();
    for _ in 0..rounds {
        let start = begin(rt);
        vcpu = go(rt, vcpu, way, page);
        least.end(rt, start);
    }
    (vcpu, least.nanos_each(PAGES as usize))
}

/// How the same bytes are moved by hand.
#[derive(Clone, Copy)]
enum Hand {
    /// Each word is loaded.
    Load,
    /// Each word is stored.
    Store,
    /// All bytes are copied, as no other thread may change them.
    Copy,
}

/// Memory of as many pages that is moved by hand.
#[derive(Drop)]
struct Plain {
    words: Vec<AtomicU64>,
    bytes: Vec<u8>,
}

impl Plain {
    /// A number in each word, and the same byte in each place.
    fn new(alloc: Global) -> Result<Plain, AllocError> {
        let mut words = Vec::new(alloc);
        for word in 0..PAGES * PAGE / 8 {
            if words.push(AtomicU64::new(word)).is_err() {
                return Err(AllocError);
            }
        }
        let bytes = vec![in alloc; 1u8; (PAGES * PAGE) as usize]?;
        Ok(Plain { words, bytes })
    }
}

/// Loads words one by one into the bytes of a page.
fn load(words: &[AtomicU64], page: &mut [u8; 4096]) {
    let (parts, _) = page.as_mut_slice().as_chunks_mut::<8>();
    for (word, part) in words.iter().zip(parts.iter_mut()) {
        *part = word.load(Ordering::SeqCst).to_le_bytes();
    }
}

/// Stores words one by one from the bytes of a page.
fn store(words: &[AtomicU64], page: &[u8; 4096]) {
    let (parts, _) = page.as_slice().as_chunks::<8>();
    for (word, part) in words.iter().zip(parts) {
        word.store(u64::from_le_bytes(*part), Ordering::SeqCst);
    }
}

/// Copies the bytes of a page, where there are that many.
fn copy(bytes: &[u8], page: &mut [u8; 4096]) {
    if bytes.len() == page.len() {
        page.copy_from_slice(bytes);
    }
}

/// Goes over all pages by hand.
fn go_by_hand(plain: &Plain, hand: Hand, page: &mut [u8; 4096]) {
    match hand {
        Hand::Load => {
            for words in plain.words.as_slice().chunks(512) {
                load(words, page);
            }
        }
        Hand::Store => {
            for words in plain.words.as_slice().chunks(512) {
                store(words, page);
            }
        }
        Hand::Copy => {
            for bytes in plain.bytes.as_slice().chunks(4096) {
                copy(bytes, page);
            }
        }
    }
}

/// The least time of some rounds by hand, for a page, in nanoseconds.
fn time_by_hand<R: Clock>(
    rt: &R,
    plain: &Plain,
    hand: Hand,
    page: &mut [u8; 4096],
    rounds: u32,
) -> u64 {
    let mut least = Least::new();
    for _ in 0..rounds {
        let start = begin(rt);
        go_by_hand(plain, hand, page);
        least.end(rt, start);
    }
    least.nanos_each(PAGES as usize)
}

/// The times of a page, in nanoseconds: by a virtual CPU, and by hand.
#[derive(Clone, Copy)]
struct Figures {
    got: u64,
    put: u64,
    got_alone: u64,
    put_alone: u64,
    opened: u64,
    read: u64,
    loaded: u64,
    stored: u64,
    copied: u64,
}

/// The times of a machine whose space is memory.
fn figures_of<R: Clock + Wait>(rt: &R, vcpu: Vcpu<'_>, plain: &Plain, rounds: u32) -> Figures {
    let mut page = [1u8; 4096];
    let (vcpu, got) = time(rt, vcpu, Way::Get, &mut page, rounds);
    let (vcpu, put) = time(rt, vcpu, Way::Put, &mut page, rounds);
    let (vcpu, got_alone) = time(rt, vcpu, Way::GetAlone, &mut page, rounds);
    let (vcpu, put_alone) = time(rt, vcpu, Way::PutAlone, &mut page, rounds);
    let (vcpu, opened) = time(rt, vcpu, Way::Open, &mut page, rounds);
    let (_, read) = time(rt, vcpu, Way::Access, &mut page, rounds);
    Figures {
        got,
        put,
        got_alone,
        put_alone,
        opened,
        read,
        loaded: time_by_hand(rt, plain, Hand::Load, &mut page, rounds),
        stored: time_by_hand(rt, plain, Hand::Store, &mut page, rounds),
        copied: time_by_hand(rt, plain, Hand::Copy, &mut page, rounds),
    }
}

/// Makes memory that is all of the space.
fn build(config: &mut Config) -> Result<(), Failed> {
    let Some(size) = Size::new(u128::from(PAGES * PAGE)) else {
        return Err(Failed::Refused);
    };
    config.call(&Call::Region {
        kind: Kind::Ram,
        size,
    })?;
    config.call(&Call::Space {
        space: SPACE,
        root: RegionId(0),
    })?;
    Ok(())
}

/// The times of a machine with an empty map.
fn on_cabinet<R: Clock + Wait>(
    rt: &R,
    cabinet: &Cabinet<Generation>,
    config: &mut Config,
    plain: &Plain,
    rounds: u32,
) -> Result<Figures, Failed>
    requires { config.old.seat.cabinet ≡ cabinet.now.id }
{
    let Some(pass) = config.pass() else {
        return Err(Failed::Refused);
    };
    let vcpu = Vcpu::new(cabinet, pass);
    build(config)?;
    Ok(figures_of(rt, vcpu, plain, rounds))
}

fn on_machine<R: Clock + Wait>(
    rt: &R,
    alloc: Global,
    plain: &Plain,
    rounds: u32,
) -> Result<Figures, Failed> {
    let (cabinet, mut config) = Config::new(alloc, WORDS, 1)?;
    let figures = on_cabinet(rt, &cabinet, &mut config, plain, rounds);
    figures
}

/// Tells how long it takes to get a page from an open window and to put it there, and by a window of its own, beside the same words
/// loaded and stored by hand and the same bytes copied; and to open and close a window of 64 bytes, beside an access of 8. Each is the
/// mean of 256 pages, the least of some rounds.
pub(crate) fn run_windows<R: Clock + Wait>(
    rt: HostRuntime,
    waiting: &R,
    rounds: u32,
) -> Result<(), Failed> {
    let plain = Plain::new(rt.alloc())?;
    let it = on_machine(waiting, rt.alloc(), &plain, rounds)?;
    println!(rt; "windows: pages {PAGES}")?;
    eprintln!(rt;
        "windows: a page got {} ns, put {} ns, its words loaded {} ns, stored {} ns, its bytes copied {} ns",
        it.got, it.put, it.loaded, it.stored, it.copied
    )?;
    eprintln!(rt;
        "windows: by a window of its own a page got {} ns, put {} ns",
        it.got_alone, it.put_alone
    )?;
    eprintln!(rt;
        "windows: one of 64 bytes opened and closed {} ns, 8 bytes read {} ns",
        it.opened, it.read
    )?;
    Ok(())
}
