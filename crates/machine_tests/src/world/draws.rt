// Composites that are drawn by a generator.
ghost use Rattle.std.specs.Prelude.{◌<◌};

use crate::world::composites::{Composite, Outcome};
use mem_base::{
    Call, Client, Device, DeviceKind, Forest, Ioevent, Kind, ListenerId, NotifierId, Perm,
    RegionId, Size, SpaceId,
};
use rand_core::utils::NextWord;
use rand_pcg::Lcg64Xsh32;
use std::alloc::{AllocError, Global};

/// The most regions that are there at one time, but for those that a transaction may add.
const CROWD: usize = 40;

/// How many regions are made as roots of spaces.
const ROOTS: u32 = 4;

/// How deep a burst of transactions goes: one more than may be open.
const BURST: u32 = 65;

/// How many composites come between two bursts.
const BETWEEN: u32 = 2500;

/// Draws composites, and remembers the regions that are there.
#[derive(Drop)]
pub(crate) struct Draws {
    rng: Lcg64Xsh32,
    there: Vec<RegionId>,
    // how many composites were drawn
    drawn: u32,
}

/// The next word modulo n.
fn draw(rng: &mut Lcg64Xsh32, n: u32) -> u32
    requires { 0 < n }
    ensures { result < n }
{
    rng.next_word() % n
}

/// True once in `n` draws.
fn once_in(rng: &mut Lcg64Xsh32, n: u32) -> bool
    requires { 0 < n }
{
    draw(rng, n) == 0
}

/// This many bytes.
fn size(bytes: u64) -> Size {
    match Size::new(u128::from(bytes)) {
        Some(size) => size,
        None => unreachable!(),
    }
}

/// A few whole pages from 0 on.
fn offset(rng: &mut Lcg64Xsh32) -> u64 {
    u64::from(draw(rng, 16)) * 0x1000
}

/// A size of up to four whole pages, now and then 0 or 16 of them.
fn pages(rng: &mut Lcg64Xsh32) -> u64 {
    match draw(rng, 16) {
        0 => 0,
        1..=3 => 0x1_0000,
        count => u64::from(count % 4 + 1) * 0x1000,
    }
}

/// An offset of a few words in a device.
fn register(rng: &mut Lcg64Xsh32) -> u64 {
    u64::from(draw(rng, 4)) * 4
}

fn space(rng: &mut Lcg64Xsh32) -> SpaceId {
    SpaceId(draw(rng, 4))
}

fn listener(rng: &mut Lcg64Xsh32) -> ListenerId {
    ListenerId(draw(rng, 6))
}

fn notifier(rng: &mut Lcg64Xsh32) -> NotifierId {
    match NotifierId::new(draw(rng, 8)) {
        Some(notifier) => notifier,
        None => unreachable!(),
    }
}

/// A priority of -1, 0 or 1.
fn priority(rng: &mut Lcg64Xsh32) -> i32 {
    match draw(rng, 3) {
        0 => -1,
        1 => 0,
        _ => 1,
    }
}

fn client(rng: &mut Lcg64Xsh32) -> Client {
    match draw(rng, 3) {
        0 => Client::Vga,
        1 => Client::Code,
        _ => Client::Migration,
    }
}

fn device(rng: &mut Lcg64Xsh32) -> Device {
    Device::plain(match draw(rng, 4) {
        0 => DeviceKind::Latch,
        1 => DeviceKind::Count,
        2 => DeviceKind::Bell,
        _ => DeviceKind::Fault,
    })
}

impl Draws {
    pub(crate) fn new(alloc: Global, seed: u64) -> Draws {
        Draws {
            rng: Lcg64Xsh32::new(seed, 54),
            there: Vec::new(alloc),
            drawn: 0,
        }
    }

    /// Remembers a region that was made, or that is gone.
    pub(crate) fn learn(
        &mut self,
        composite: &Composite,
        outcome: Outcome,
    ) -> Result<(), AllocError> {
        match (*composite, outcome) {
            (_, Outcome::Made(region)) => self.there.push(region)?,
            (Composite::Call(Call::Drop { region }), Outcome::Done) => {
                self.there.retain(|other| *other != region);
            }
            _ => {}
        }
        Ok(())
    }

    /// The next composite, where the current generation has this forest.
    pub(crate) fn next(&mut self, forest: &Forest) -> Composite {
        self.drawn = self.drawn.saturating_add(1);
        let left = BETWEEN - self.drawn % BETWEEN;
        if left <= BURST {
            return Composite::Commit;
        }
        if left <= 2 * BURST {
            return Composite::Begin;
        }
        match draw(&mut self.rng, 100) {
            0..=69 => Composite::Call(self.call(forest)),
            70..=79 => self.desk(),
            80..=86 => self.words(),
            _ => self.visit(),
        }
    }

    /// One of the regions that are there, or now and then one that never was.
    fn region(&mut self) -> RegionId {
        let count = self.there.len().max(1) as u64;
        let at = u64::from(self.rng.next_word()) % count;
        let unknown = RegionId(u32::MAX - 1);
        if once_in(&mut self.rng, 32) {
            return unknown;
        }
        match self.there.get(at as usize) {
            Some(region) => *region,
            None => unknown,
        }
    }

    /// The same, but seldom one of the first regions, so that what they show stays.
    fn inner(&mut self) -> RegionId {
        let region = self.region();
        if region.0 < ROOTS && !once_in(&mut self.rng, 8) {
            return self.region();
        }
        region
    }

    /// One of the first regions in two of three draws, else any.
    fn parent(&mut self) -> RegionId {
        if once_in(&mut self.rng, 3) {
            self.region()
        } else {
            RegionId(draw(&mut self.rng, ROOTS))
        }
    }

    /// The container of a region in the current generation, or any region where it has none there.
    fn parent_of(&mut self, forest: &Forest, child: RegionId) -> RegionId {
        if let Some(node) = forest.nodes.get(child)
            && let Some(parent) = node.parent
        {
            return parent;
        }
        self.region()
    }

    /// A region of any kind.
    fn kind(&mut self) -> Kind {
        match draw(&mut self.rng, 12) {
            0 => Kind::Container,
            1 | 2 => Kind::Ram,
            3 => Kind::Rom,
            4 => Kind::RomDevice(device(&mut self.rng)),
            5..=7 => Kind::Io(device(&mut self.rng)),
            8 => Kind::Iommu,
            9 => Kind::Reserve,
            _ => Kind::Alias {
                target: self.region(),
                offset: offset(&mut self.rng),
            },
        }
    }

    /// A call of the map.
    fn call(&mut self, forest: &Forest) -> Call {
        match draw(&mut self.rng, 32) {
            0..=2 => self.make(forest),
            3..=12 => self.place(),
            13 | 14 => self.remove(forest),
            15 | 16 => self.retire(forest),
            17..=20 => self.reshape(),
            21..=24 => self.switch(),
            25..=27 => self.translate(),
            _ => self.notify(),
        }
    }

    /// A call that makes a region, the first ones as roots; or that drops one where there are many.
    fn make(&mut self, forest: &Forest) -> Call {
        if self.there.len() < ROOTS as usize {
            return Call::Region {
                kind: Kind::Container,
                size: size(0x1_0000),
            };
        }
        if self.there.len() >= CROWD {
            return self.retire(forest);
        }
        Call::Region {
            kind: self.kind(),
            size: size(pages(&mut self.rng)),
        }
    }

    /// A call that places a region in a container, or that makes a space.
    fn place(&mut self) -> Call {
        let parent = self.parent();
        let child = self.region();
        if once_in(&mut self.rng, 8) {
            return Call::Space {
                space: space(&mut self.rng),
                root: parent,
            };
        }
        Call::Add {
            parent,
            offset: offset(&mut self.rng),
            child,
            priority: priority(&mut self.rng),
        }
    }

    /// A call that takes a region out of its container.
    fn remove(&mut self, forest: &Forest) -> Call {
        let child = self.region();
        Call::Del {
            parent: self.parent_of(forest, child),
            child,
        }
    }

    /// A call that drops a region, or that takes it out of its container first.
    fn retire(&mut self, forest: &Forest) -> Call {
        let region = self.region();
        if let Some(node) = forest.nodes.get(region)
            && let Some(parent) = node.parent
        {
            return Call::Del {
                parent,
                child: region,
            };
        }
        Call::Drop { region }
    }

    /// A call that changes where a region stands or what it covers.
    fn reshape(&mut self) -> Call {
        let region = self.inner();
        match draw(&mut self.rng, 4) {
            0 => Call::Resize {
                region,
                size: size(pages(&mut self.rng)),
            },
            1 => Call::Retarget {
                alias: region,
                offset: offset(&mut self.rng),
            },
            _ => Call::Move {
                child: region,
                offset: offset(&mut self.rng),
            },
        }
    }

    /// A call that switches something.
    fn switch(&mut self) -> Call {
        let region = self.inner();
        let on = once_in(&mut self.rng, 2);
        match draw(&mut self.rng, 8) {
            0 | 1 => Call::Enable {
                region,
                on: on || !once_in(&mut self.rng, 4),
            },
            2 => Call::Readonly { region, on },
            3 => Call::Nonvolatile { region, on },
            4 => Call::Unmergeable { region, on },
            5 => Call::Romd { region, on },
            6 => Call::Log {
                region,
                client: client(&mut self.rng),
                on,
            },
            _ => Call::Global { on },
        }
    }

    /// A call on the table of an IOMMU region.
    fn translate(&mut self) -> Call {
        let region = self.region();
        let iova = offset(&mut self.rng) % 0x4000;
        if once_in(&mut self.rng, 2) {
            return Call::Unmap { region, iova };
        }
        Call::Map {
            region,
            iova,
            size: size(0x1000),
            space: space(&mut self.rng),
            translated: offset(&mut self.rng),
            perm: Perm::Both,
        }
    }

    /// A call on the ioeventfds of a device.
    fn notify(&mut self) -> Call {
        let region = self.region();
        let offset = register(&mut self.rng);
        let matched = once_in(&mut self.rng, 2);
        if once_in(&mut self.rng, 3) {
            return Call::Unevent {
                region,
                offset,
                size: 4,
                matched,
                value: 0,
            };
        }
        Call::Event {
            region,
            event: Ioevent {
                offset,
                size: 4,
                matched,
                value: 0,
                number: draw(&mut self.rng, 8),
            },
        }
    }

    /// What the writer does at its desk beside calls.
    fn desk(&mut self) -> Composite {
        let listener = listener(&mut self.rng);
        match draw(&mut self.rng, 10) {
            0 | 1 => Composite::Begin,
            2..=4 => Composite::Commit,
            5..=7 => Composite::Listen(listener, space(&mut self.rng), priority(&mut self.rng)),
            8 => Composite::Unlisten(listener),
            _ => Composite::Reap,
        }
    }

    /// What the writer does to words.
    fn words(&mut self) -> Composite {
        let region = self.region();
        match draw(&mut self.rng, 3) {
            0 => Composite::Load(region, self.address() % 0x2000, self.count(), 7),
            1 => Composite::Harvest(region, client(&mut self.rng)),
            _ => Composite::Notified(notifier(&mut self.rng)),
        }
    }

    /// What a virtual CPU does.
    fn visit(&mut self) -> Composite {
        let vcpu = draw(&mut self.rng, 4);
        let space = space(&mut self.rng);
        match draw(&mut self.rng, 12) {
            0 => Composite::Enter(vcpu),
            1..=4 => Composite::Leave(vcpu),
            5..=7 => Composite::Read(vcpu, space, self.address(), self.count()),
            _ => Composite::Write(vcpu, space, self.address(), self.count(), 0),
        }
    }

    /// An address at the beginning or before the end of a page.
    fn address(&mut self) -> u64 {
        let page = offset(&mut self.rng);
        let within = register(&mut self.rng);
        if once_in(&mut self.rng, 4) {
            return page.saturating_add(within).saturating_add(0xff8);
        }
        page.saturating_add(within)
    }

    /// How many bytes an access has: one register's in every other draw, else up to 16.
    fn count(&mut self) -> usize {
        if once_in(&mut self.rng, 2) {
            return 4;
        }
        draw(&mut self.rng, 17) as usize
    }
}
