// Orders of each kind, with what they answer.

use config_desk::Config;
use desk_lock::{Answer, Clerk, Order, Orderly, Record};
use mem_base::{
    Applied, Bytes, Call, Client, Kind, ListenerId, NotifierId, Refusal, RegionId, Size, SpaceId,
};
use std::alloc::{AllocError, Global};
use std::sync::Wait;
use std::test::Fail;

/// How many orders there are.
const ORDERS: u32 = 16;

// A call that makes a region of one page.
fn make(kind: Kind) -> Order {
    match Size::new(4096) {
        Some(size) => Order::Call(Call::Region { kind, size }),
        None => Order::Look,
    }
}

// Bytes that are loaded.
fn load(alloc: Global) -> Result<Order, AllocError> {
    let bytes = Vec::from_slice(alloc, [1u8, 2, 3].as_slice())?;
    Ok(Order::Load {
        region: RegionId(0),
        offset: 0,
        bytes: Bytes::new(bytes),
    })
}

// The first notifier is taken.
fn take_notifier() -> Order {
    let Some(notifier) = NotifierId::new(0) else {
        unreachable!()
    };
    Order::Notified(notifier)
}

// The first orders: a region of RAM in a space, and what is done to its bytes.
fn first_orders(i: u32) -> Order {
    match i {
        0 => make(Kind::Ram),
        1 => Order::Call(Call::Space {
            space: SpaceId(0),
            root: RegionId(0),
        }),
        2 => Order::Look,
        3 => Order::Listen {
            listener: ListenerId(0),
            space: SpaceId(0),
            priority: 0,
        },
        5 => Order::Harvest {
            region: RegionId(0),
            client: Client::Vga,
        },
        6 => take_notifier(),
        _ => Order::Begin,
    }
}

// The last ones: a transaction, a listener that leaves, refusals, and a region that is made, dropped and released.
fn last_orders(i: u32) -> Order {
    match i {
        8 => Order::Call(Call::Enable {
            region: RegionId(0),
            on: false,
        }),
        9 => Order::Commit,
        10 => Order::Unlisten(ListenerId(0)),
        11 => Order::Commit,
        12 => Order::Unlisten(ListenerId(0)),
        13 => make(Kind::Container),
        14 => Order::Call(Call::Drop {
            region: RegionId(1),
        }),
        _ => Order::Reap,
    }
}

// The order at a place.
fn order_at(alloc: Global, i: u32) -> Result<Order, AllocError> {
    if i == 4 {
        let order = load(alloc)?;
        return Ok(order);
    }
    if i < 8 {
        return Ok(first_orders(i));
    }
    Ok(last_orders(i))
}

// Whether a call published this number.
fn is_called(answer: &Answer, made: Applied, published: Option<u64>) -> bool {
    match answer {
        Answer::Called { applied, number } => *applied == made && *number == published,
        _ => false,
    }
}

// Whether the first orders are answered so.
fn is_first(i: u32, answer: &Answer) -> bool {
    match i {
        0 => is_called(answer, Applied::Made(RegionId(0)), None),
        1 => is_called(answer, Applied::Done, Some(1)),
        2 => matches!(answer, Answer::Looked(1)),
        3 | 4 | 7 => matches!(answer, Answer::Done),
        5 => match answer {
            Answer::Pages(pages) => pages.as_slice().is_empty(),
            _ => false,
        },
        _ => matches!(answer, Answer::Value(0)),
    }
}

// And the last ones.
fn is_last(i: u32, answer: &Answer) -> bool {
    match i {
        8 => is_called(answer, Applied::Done, None),
        9 => matches!(answer, Answer::Committed(Some(2))),
        10 => matches!(answer, Answer::Done),
        11 => matches!(answer, Answer::Refused(Refusal::NoTransaction)),
        12 => matches!(answer, Answer::Refused(Refusal::Unknown(_))),
        13 => is_called(answer, Applied::Made(RegionId(1)), None),
        14 => is_called(answer, Applied::Done, None),
        _ => match answer {
            Answer::Released(regions) => regions.as_slice() == [RegionId(1)].as_slice(),
            _ => false,
        },
    }
}

// Whether there is an answer, and it is that of the order at a place.
fn is_right(i: u32, answer: &Option<Answer>) -> bool {
    match answer {
        Some(answer) if i < 8 => is_first(i, answer),
        Some(answer) => is_last(i, answer),
        None => false,
    }
}

// Gives an order; where memory runs out, once more. `None` where it changed something then, or memory runs out again.
fn given<R: Wait>(rt: &R, record: &mut Record, clerk: &mut Clerk, order: &Order) -> Option<Answer> {
    let before = sizes(record, clerk);
    if let Ok(receipt) = record.give(rt, clerk, order) {
        return Some(receipt.answer);
    }
    if sizes(record, clerk) != before {
        return None;
    }
    match record.give(rt, clerk, order) {
        Ok(receipt) => Some(receipt.answer),
        Err(_) => None,
    }
}

// How many entries there are, how many calls the listeners got, and what the clerk got.
fn sizes(record: &Record, clerk: &Clerk) -> (usize, usize, usize) {
    (
        record.entries().len(),
        record.journal().len(),
        clerk.got().len(),
    )
}

// Whether the order at a place is answered as it should be.
fn is_answered<R: Wait>(
    rt: &R,
    alloc: Global,
    record: &mut Record,
    clerk: &mut Clerk,
    i: u32,
) -> Result<bool, AllocError> {
    let order = order_at(alloc, i)?;
    let answer = given(rt, record, clerk, &order);
    drop(order);
    let is_so = is_right(i, &answer);
    drop(answer);
    Ok(is_so)
}

// The first order that is answered otherwise, or how many there are.
fn first_wrong_of<R: Wait>(
    rt: &R,
    alloc: Global,
    record: &mut Record,
    clerk: &mut Clerk,
) -> Result<u32, AllocError> {
    for i in 0..ORDERS {
        if !is_answered(rt, alloc, record, clerk, i)? {
            return Ok(i);
        }
    }
    Ok(ORDERS)
}

// The same of a machine of its own.
#[tactic(auto, using(desk_lock::proofs::RecordLaws::unused))]
fn first_wrong<R: Wait>(rt: &R, alloc: Global) -> Result<u32, AllocError> {
    let (cabinet, config) = Config::new(alloc, 4096, 1)?;
    drop(cabinet);
    let mut record = Record::new(alloc, config);
    let mut clerk = Clerk::new(alloc, 16);
    let wrong = first_wrong_of(rt, alloc, &mut record, &mut clerk);
    drop(clerk);
    drop(record);
    wrong
}

#[test]
fn each_order_is_answered(rt: HostRuntime) -> Result<(), Fail> {
    let wrong = first_wrong(&rt, rt.alloc())?;
    assert!(rt; wrong == 16, "{wrong}");
    Ok(())
}
