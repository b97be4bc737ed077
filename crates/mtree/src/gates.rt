// The actors of a block go on beside each other: each is held at some line until others have arrived at one of theirs.

use crate::races::{is_like, raced};
use mem_base::PassId;
use outside::{Actor, Gate};
use std::alloc::{AllocError, Global};
use std::hint;
use std::sync::Wait;
use std::sync::atomic::{AtomicU64, Ordering};
use std::thread::Threads;
use top_call::Ending;

/// How often an actor looks whether the others have arrived, before it goes on without them.
const TURNS: u32 = 100_000_000;

/// A virtual CPU writes and then reads, and the desk moves an alias twice and then reaps.
const TWO_ACTORS: &str = "machine 64K\n\
                          region A container 0x10000\n\
                          region R ram 0x1000\n\
                          region W alias 0x100 R 0\n\
                          begin\n\
                          space S A\n\
                          add A 0 R\n\
                          add A 0x8000 W\n\
                          commit\n\
                          par\n\
                          v0 write S 0 11\n\
                          v0 read S 0 1\n\
                          move W 0x9000\n\
                          move W 0x8000\n\
                          reap\n\
                          end\n";

/// Two virtual CPUs read twice, and the desk moves an alias twice.
const THREE_ACTORS: &str = "machine 64K\n\
                            region A container 0x10000\n\
                            region R ram 0x1000\n\
                            region W alias 0x100 R 0\n\
                            begin\n\
                            space S A\n\
                            add A 0 R\n\
                            add A 0x8000 W\n\
                            commit\n\
                            par\n\
                            v0 read S 0 1\n\
                            v0 read S 0 1\n\
                            v1 read S 0 1\n\
                            v1 read S 0 1\n\
                            move W 0x9000\n\
                            move W 0x8000\n\
                            end\n";

/// As an actor arrives before a line, some of the bits are set, and it is held until others are.
#[derive(Clone, Copy)]
struct Hold {
    actor: Actor,
    line: u32,
    sets: u64,
    until: u64,
}

/// A gate with three holds.
#[derive(Drop)]
struct Holds {
    holds: [Hold; 3],
    bits: AtomicU64,
    given_up: AtomicU64,
}

impl Holds {
    /// No one has arrived yet.
    fn new(holds: [Hold; 3]) -> Holds {
        Holds {
            holds,
            bits: AtomicU64::new(0),
            given_up: AtomicU64::new(0),
        }
    }

    /// Holds until these bits are set, or until that takes too long.
    fn hold(&self, until: u64) {
        for _ in 0..TURNS {
            if self.bits.load(Ordering::SeqCst) & until == until {
                return;
            }
            hint::spin_loop();
        }
        self.given_up.fetch_add(1, Ordering::SeqCst);
    }
}

impl Gate for Holds {
    fn arrive(&self, actor: Actor, line: u32) {
        for hold in &self.holds {
            if hold.actor == actor && hold.line == line {
                self.bits.fetch_or(hold.sets, Ordering::SeqCst);
                self.hold(hold.until);
            }
        }
    }
}

/// Holds the desk's first line until the virtual CPU has arrived at its second one, and that one until the desk has arrived at its
/// reap, when both moves were answered. Actors that go on one after another are held for ever, whoever comes first.
fn two_holds() -> Holds {
    let cpu = Actor::Pass(PassId::FIRST);
    Holds::new([
        Hold {
            actor: cpu,
            line: 12,
            sets: 1,
            until: 2,
        },
        Hold {
            actor: Actor::Desk,
            line: 13,
            sets: 4,
            until: 1,
        },
        Hold {
            actor: Actor::Desk,
            line: 15,
            sets: 2,
            until: 0,
        },
    ])
}

/// Holds the second line of each of three actors until all three have arrived at it.
fn three_holds() -> Holds {
    let Some(second) = PassId::new(1) else {
        unreachable!();
    };
    Holds::new([
        Hold {
            actor: Actor::Pass(PassId::FIRST),
            line: 12,
            sets: 1,
            until: 7,
        },
        Hold {
            actor: Actor::Pass(second),
            line: 14,
            sets: 2,
            until: 7,
        },
        Hold {
            actor: Actor::Desk,
            line: 16,
            sets: 4,
            until: 7,
        },
    ])
}

/// Whether a race of the script, held at the gate, is done and writes this, and all arrived in time.
fn passes<R: Threads + Wait + Sync>(
    rt: &R,
    alloc: Global,
    gate: &Holds,
    script: &str,
    text: &str,
) -> Result<bool, AllocError> {
    let (ending, written) = raced(rt, alloc, script, gate)?;
    let arrived = gate.bits.load(Ordering::SeqCst) == 7;
    let in_time = gate.given_up.load(Ordering::SeqCst) == 0;
    Ok(arrived && in_time && ending == Ending::Done && is_like(&written, text))
}

#[test]
fn the_actors_of_a_block_go_on_beside_each_other(rt: HostRuntime) {
    let two = "v0 g1 write ok\nv0 g3 read 11 ok\n";
    let three = "v0 g? read 00 ok\nv0 g? read 00 ok\nv1 g? read 00 ok\nv1 g? read 00 ok\n";
    assert!(rt; passes(&rt, rt.alloc(), &two_holds(), TWO_ACTORS, two) == Ok(true));
    assert!(rt; passes(&rt, rt.alloc(), &three_holds(), THREE_ACTORS, three) == Ok(true));
}
