// Eight threads order through one lock.
ghost use Rattle.std.specs.Prelude.{◌≡◌};

use config_desk::Config;
use desk_lock::{Clerk, DeskLock, Naming, Order, Record};
use mem_base::{Call, Kind, RegionId, Size};
use std::alloc::{AllocError, Global};
use std::marker::Brand;
use std::sync::Wait;
use std::thread::{self, Threads};

/// How many orders each thread gives.
const ORDERS: u32 = 100;

// A region is made.
fn make() -> Order {
    match Size::new(4096) {
        Some(size) => Order::Call(Call::Region {
            kind: Kind::Container,
            size,
        }),
        None => Order::Look,
    }
}

// The order that is given at this place: a region that is made, one that is switched, a reap and a look.
fn order_at(i: u32) -> Order {
    match i % 4 {
        0 => make(),
        1 => Order::Call(Call::Enable {
            region: RegionId(0),
            on: i % 8 == 1,
        }),
        2 => Order::Reap,
        _ => Order::Look,
    }
}

// A thread gives an order.
fn give<J: Naming, R: Wait>(rt: &R, lock: &DeskLock<J>, clerk: &mut Clerk, order: &Order) {
    drop(lock.order(rt, clerk, order));
}

// It gives all of its orders.
fn give_all<J: Naming, R: Wait>(rt: &R, lock: &DeskLock<J>, clerk: &mut Clerk) {
    for i in 0..ORDERS {
        let order = order_at(i);
        give(rt, lock, clerk, &order);
        drop(order);
    }
}

// Whether the clerks' lists are the record's after all threads have ordered, and how many entries that has.
fn entries_of_crowd<J: Naming + Send + Sync, R: Threads + Wait + Sync>(
    rt: &R,
    first: Record,
    clerks: &mut [Clerk],
) -> Option<usize>
    requires start { first ≡ J.start }
{
    let lock = DeskLock::<J>::new(first);
    thread::for_each_mut(
        rt,
        clerks,
        8,
        &|_, clerk: &mut Clerk| { give_all(rt, &lock, clerk) },
    );
    match lock.close(clerks) {
        Ok(record) => Some(record.entries().len()),
        Err(_) => None,
    }
}

// Eight clerks.
fn crew(alloc: Global) -> Result<Vec<Clerk>, AllocError> {
    let mut clerks = Vec::with_capacity(alloc, 8)?;
    for who in 0..8u32 {
        clerks.push(Clerk::new(alloc, who))?;
    }
    Ok(clerks)
}

// The same of a machine of its own.
#[tactic(auto, using(desk_lock::proofs::RecordLaws::unused))]
fn entries_of<R: Threads + Wait + Sync>(
    rt: &R,
    alloc: Global,
    clerks: &mut [Clerk],
) -> Result<Option<usize>, AllocError> {
    let (cabinet, config) = Config::new(alloc, 65536, 8)?;
    drop(cabinet);
    let record = Record::new(alloc, config);
    Ok(entries_of_crowd::<Brand, R>(rt, record, clerks))
}

// The same of eight clerks.
fn entries_of_a_crowd<R: Threads + Wait + Sync>(
    rt: &R,
    alloc: Global,
) -> Result<Option<usize>, AllocError> {
    let mut clerks = crew(alloc)?;
    let entries = entries_of(rt, alloc, clerks.as_mut_slice());
    drop(clerks);
    entries
}

#[test]
fn no_order_is_dropped(rt: HostRuntime) {
    for time in 0..5u32 {
        let entries = entries_of_a_crowd(&rt, rt.alloc());
        assert!(rt; entries == Ok(Some(800)), "{entries:?} at time {time}");
    }
}
