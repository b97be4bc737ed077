// Single events of the machine, each asked for first.
use mem_base::{
    Applied, Call, Cell, Client, Config, Device, DeviceKind, Event, Hand, Kind, PassId, Refusal,
    RegionId, Reply, Size, SpaceId, WordStep,
};
use std::alloc::{AllocError, Global};
use world_core::World;

const FIRST: PassId = PassId::FIRST;

const BELL: RegionId = RegionId(0);

const BEGIN: Event = Event::Config(Config::Begin);

const DONE: Option<Result<Reply, Refusal>> = Some(Ok(Reply::Done));

const SHOWN: Event = Event::Config(Config::Call(Call::Space {
    space: SpaceId(0),
    root: BELL,
}));

const INSIDE_ITSELF: Event = Event::Config(Config::Call(Call::Add {
    parent: BELL,
    offset: 0,
    child: BELL,
    priority: 0,
}));

const MARK: Event = Event::Mark {
    pass: FIRST,
    region: BELL,
    client: Client::Vga,
    page: 0,
};

const HARVEST: Event = Event::Harvest {
    region: BELL,
    client: Client::Vga,
    index: 0,
};

const OR: WordStep = WordStep::Or { bits: 5 };

const fn word(hand: Hand, word: usize, step: WordStep) -> Event {
    Event::Word {
        hand,
        cell: Cell { region: BELL, word },
        step,
    }
}

const fn fill(word: usize) -> Event {
    Event::Fill {
        cell: Cell { region: BELL, word },
    }
}

const fn call(call: Call) -> Event {
    Event::Config(Config::Call(call))
}

// The pass after the first.
fn second() -> PassId {
    let Some(pass) = PassId::new(1) else {
        unreachable!();
    };
    pass
}

// An event with its answer; `None` is that it is not possible.
type Row = (Event, Option<Result<Reply, Refusal>>);

// Makes the event where it is possible, and tells whether it is so, with this answer.
fn goes(world: &mut World, row: Row) -> bool {
    let (event, want) = row;
    if !world.possible(&event) {
        return want.is_none();
    }
    let answer = world.step(&event);
    want == Some(answer)
}

// Whether all rows are so, one after another.
fn all_go(world: &mut World, rows: &[Row]) -> bool {
    for row in rows {
        if !goes(world, *row) {
            return false;
        }
    }
    true
}

// Makes a device with two registers.
fn makes_a_bell() -> Event {
    let Some(size) = Size::new(16) else {
        unreachable!();
    };
    let mut device = Device::plain(DeviceKind::Bell);
    device.regs = 2;
    call(Call::Region {
        kind: Kind::Io(device),
        size,
    })
}

// Nothing is possible of a region that is not there; then it is made.
fn made(world: &mut World) -> bool {
    let writer = Hand::Writer;
    let rows = [
        (Event::Announce(FIRST), None),
        (fill(0), None),
        (word(Hand::Writer, 0, OR), None),
        (Event::Publish, None),
        (
            makes_a_bell(),
            Some(Ok(Reply::Applied(Applied::Made(BELL)))),
        ),
    ];
    all_go(world, &rows)
}

// Two words are to be cleared before the next private event.
fn cleared(world: &mut World) -> bool {
    let rows = [
        (BEGIN, None),
        (Event::Reap, None),
        (fill(2), None),
        (word(Hand::Writer, 1, OR), Some(Ok(Reply::Old(0)))),
        (fill(1), DONE),
        (fill(1), None),
        (
            word(Hand::Writer, 1, WordStep::Load),
            Some(Ok(Reply::Old(0))),
        ),
        (BEGIN, None),
        (fill(0), DONE),
    ];
    all_go(world, &rows)
}

// A change wants each pass swept.
fn swept(world: &mut World) -> bool {
    let rows = [
        (SHOWN, None),
        (Event::Sweep(FIRST), Some(Ok(Reply::Number(0)))),
        (SHOWN, None),
        (Event::Sweep(second()), Some(Ok(Reply::Number(0)))),
        (SHOWN, Some(Ok(Reply::Applied(Applied::Done)))),
    ];
    all_go(world, &rows)
}

// It is due until each pass has its copy.
fn published(world: &mut World) -> bool {
    let rows = [
        (BEGIN, None),
        (Event::Publish, None),
        (Event::Place(FIRST), DONE),
        (Event::Place(FIRST), None),
        (Event::Publish, None),
        (Event::Place(second()), DONE),
        (Event::Publish, Some(Ok(Reply::Number(1)))),
        (Event::Publish, None),
    ];
    all_go(world, &rows)
}

// A pass enters it.
fn entered(world: &mut World) -> bool {
    let rows = [
        (Event::Look(FIRST), Some(Ok(Reply::Number(1)))),
        (Event::Enter(FIRST), None),
        (Event::Announce(FIRST), DONE),
        (word(Hand::Pass(FIRST), 1, OR), None),
        (Event::Enter(FIRST), Some(Ok(Reply::Number(1)))),
        (word(Hand::Pass(FIRST), 1, OR), Some(Ok(Reply::Old(0)))),
        (
            word(Hand::Pass(FIRST), 1, WordStep::Take),
            Some(Ok(Reply::Old(5))),
        ),
        (word(Hand::Pass(FIRST), 2, OR), None),
        (MARK, None),
        (HARVEST, None),
        (Event::Sweep(FIRST), Some(Ok(Reply::Number(2)))),
        (Event::Leave(FIRST), DONE),
        (Event::Leave(FIRST), None),
    ];
    all_go(world, &rows)
}

// What the forest refuses publishes nothing, so it wants no sweep.
fn refused(world: &mut World) -> bool {
    let rows = [
        (
            SHOWN,
            Some(Err(Refusal::NameTaken(mem_base::What::Space(SpaceId(0))))),
        ),
        (INSIDE_ITSELF, Some(Err(Refusal::Loop(BELL)))),
        (BEGIN, DONE),
        (Event::Reap, None),
    ];
    all_go(world, &rows)
}

// All of it, one after another.
fn all(world: &mut World) -> bool {
    let is_shown = made(world) && cleared(world) && swept(world);
    let is_entered = published(world) && entered(world) && refused(world);
    is_shown && is_entered
}

// All of it, in a machine of its own.
fn goes_on(alloc: Global) -> Result<bool, AllocError> {
    let mut world = World::new(alloc, 8, 2)?;
    let is_so = all(&mut world);
    Ok(is_so)
}

#[test]
fn a_region_is_made_cleared_and_published_event_by_event(rt: HostRuntime) {
    assert!(rt; goes_on(rt.alloc()) == Ok(true));
}
