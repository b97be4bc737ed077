// How long accesses take: by a pass of the pure machine, by a bus over memory of one's own, and by virtual CPUs.
use crate::maps::{Map, WORDS};
use crate::times::{Bench, Clock, Ledger, MICRO, Result, sum_of};
use access_reach::{Board, Parts, read, write};
use config_desk::Config;
use generation::Generation;
use mem_base::{Call, Client, Edition, MOST_PASSES, PassId, RegionId, SpaceId, TxResult};
use pure_machine::PureMachine;
use std::alloc::Global;
use std::sync::{Arc, Wait};
use std::thread::{self, Threads};
use std::time::Duration;
use vcpu_pass::Vcpu;

/// What makes accesses of eight bytes to space 0, each in one generation, and answers its number.
trait Reader {
    fn read(&mut self, addr: u64, out: &mut [u8]) -> u64;

    fn write(&mut self, addr: u64, bytes: &[u8]) -> u64;
}

impl Reader for PureMachine {
    fn read(&mut self, addr: u64, out: &mut [u8]) -> u64 {
        PureMachine::read(self, PassId::FIRST, SpaceId(0), addr, out).number
    }

    fn write(&mut self, addr: u64, bytes: &[u8]) -> u64 {
        PureMachine::write(self, PassId::FIRST, SpaceId(0), addr, bytes).number
    }
}

/// Words, which the regions share, each a page after the one before it. The devices answer 0 and take nothing.
#[derive(Drop)]
struct Own(Vec<u64>);

fn word_of(region: RegionId, offset: u64) -> usize {
    let first = u64::from(region.0).wrapping_mul(512);
    (first.wrapping_add(offset / 8) % WORDS as u64) as usize
}

impl Parts for Own {
    fn read_memory(&mut self, region: RegionId, offset: u64, out: &mut [u8]) {
        let word = self.0.get(word_of(region, offset));
        match (word, out.as_mut_array::<8>()) {
            (Some(word), Some(bytes)) => *bytes = word.to_le_bytes(),
            _ => out.fill(0),
        }
    }

    fn write_memory(&mut self, region: RegionId, offset: u64, bytes: &[u8]) {
        let word = self.0.get_mut(word_of(region, offset));
        if let (Some(word), Some(bytes)) = (word, bytes.as_array::<8>()) {
            *word = u64::from_le_bytes(*bytes);
        }
    }

    fn read_device(&mut self, _region: RegionId, _offset: u64, _size: u8) -> (u64, TxResult) {
        let (error, decode) = (false, false);
        (0, TxResult { error, decode })
    }

    fn write_device(&mut self, region: RegionId, at: u64, size: u8, _value: u64) -> TxResult {
        self.read_device(region, at, size).1
    }

    fn notify(&mut self, _number: u32) {}

    fn mark_page(&mut self, _region: RegionId, _client: Client, _page: u64) {}
}

impl Reader for Board<Own> {
    fn read(&mut self, addr: u64, out: &mut [u8]) -> u64 {
        read(self, SpaceId(0), addr, out);
        self.generation.number()
    }

    fn write(&mut self, addr: u64, bytes: &[u8]) -> u64 {
        write(self, SpaceId(0), addr, bytes);
        self.generation.number()
    }
}

/// A virtual CPU, what its writes wait by, and what its last reads found, with words that nothing uses: a virtual CPU
/// is written at each access, so those of a list stand more than a line of 64 bytes apart.
#[derive(Drop)]
struct Seat<'c, R> {
    vcpu: Vcpu<'c>,
    host: &'c R,
    sum: (u64, [u64; 15]),
}

impl<'c, R: Wait> Reader for Seat<'c, R> {
    fn read(&mut self, addr: u64, out: &mut [u8]) -> u64 {
        self.vcpu.read(SpaceId(0), addr, out).number
    }

    fn write(&mut self, addr: u64, bytes: &[u8]) -> u64 {
        self.vcpu.write(self.host, SpaceId(0), addr, bytes).number
    }
}

/// Reads at each address, and adds up what it finds and the numbers.
fn read_all<A: Reader>(reader: &mut A, addrs: &[u32]) -> u64 {
    sum_of(addrs, |addr| {
        let mut word = [0u8; 8];
        let number = reader.read(u64::from(addr), &mut word);
        u64::from_le_bytes(word).wrapping_add(number)
    })
}

fn write_all<A: Reader>(reader: &mut A, addrs: &[u32]) -> u64 {
    sum_of(addrs, |addr| {
        let addr = u64::from(addr);
        reader.write(addr, &addr.to_le_bytes())
    })
}

fn read_beside<R: Threads + Wait + Sync>(rt: &R, crew: &mut [Seat<'_, R>], addrs: &[u32]) {
    thread::for_each_mut(rt, crew, 4, &|_, one| { one.sum.0 = read_all(one, addrs) });
}

/// Publishes moves, a millisecond after one another, and counts those that are accepted.
fn move_all(rt: HostRuntime, config: &mut Config, moves: &[Call]) -> u64 {
    sum_of(moves, |call| {
        thread::sleep(&rt, Duration::from_millis(1));
        u64::from(config.call(&call).is_ok())
    })
}

impl Clock {
    /// Times reads and writes at these addresses, with what the reads find, added up.
    fn accesses<A: Reader>(self, parts: usize, reader: &mut A, addrs: &[u32]) -> (u64, u64, u64) {
        let (writes, _) = self.least(1, parts, || write_all(reader, addrs));
        let (reads, found) = self.least(1, parts, || read_all(reader, addrs));
        (reads, writes, found)
    }

    fn run<A: Reader>(self, map: &Map, name: &str, reader: &mut A, addrs: &[u32]) -> Result<()> {
        let (rt, count) = (self.rt, addrs.len());
        let (reads, writes, found) = self.accesses(count, reader, addrs);
        println!(rt; "{map} {name}: accesses {count}, sum {found}")?;
        Ok(eprintln!(rt; "{map} {name}: a read {reads} ns, a write {writes} ns")?)
    }

    fn run_bus(self, map: &Map, g: &Arc<Generation, Global>, addrs: &[u32]) -> Result<()> {
        let words = vec![in self.rt.alloc(); 0u64; WORDS]?;
        let (generation, parts) = (g.clone()?, Own(words));
        let mut board = Board { generation, parts };
        let done = self.run(map, "by a bus of one's own", &mut board, addrs);
        done
    }

    /// Times the accesses of one virtual CPU alone, and the reads of four beside one another, in six times as many
    /// rounds, while a writer publishes moves of every fourth region to where it is, two of each.
    fn run_vcpus<R: Threads + Wait + Sync>(self, host: &R, map: &Map, addrs: &[u32]) -> Result<()> {
        let (rt, count) = (self.rt, addrs.len());
        let moves = map.moves(rt, 4, 0)?;
        let (cabinet, mut config) = Config::new(rt.alloc(), WORDS, MOST_PASSES)?;
        let (mut seats, shared) = (Vec::new(rt.alloc()), &*cabinet);
        for _ in 0..4u8 {
            if let Some(pass) = config.pass() {
                let (vcpu, sum) = (Vcpu::new(shared, pass), (0, [0; 15]));
                let _ = seats.push(Seat { vcpu, host, sum });
            }
        }
        let _ = config.begin();
        sum_of(&map.calls, |call| u64::from(config.call(&call).is_ok()));
        let _ = config.commit();
        let (reads, writes, _) = match seats.first_mut() {
            Some(first) => self.accesses(MICRO, first, addrs),
            None => (0, 0, 0),
        };
        let ((together, ()), moved) = thread::join(
            host,
            || self.least(6, MICRO, || read_beside(host, seats.as_mut_slice(), addrs)),
            || move_all(rt, &mut config, &moves),
        );
        drop(seats);
        drop(config);
        drop(cabinet);
        println!(rt; "{map} accessed: accesses {count}")?;
        eprint!(rt; "{map} accessed: {count} reads {reads} us, writes {writes} us, ")?;
        Ok(eprintln!(rt; "reads by four together {together} us beside {moved} moves")?)
    }
}

impl<L: Ledger> Bench<L> {
    /// Times routes and accesses at drawn addresses of a map's memory, fifty times as many as its size, and a hundred
    /// times as many for virtual CPUs.
    pub fn run_accesses<R: Threads + Wait + Sync>(&mut self, host: &R, map: &Map) -> Result<()> {
        let mut machine = PureMachine::new(self.clock.rt.alloc(), WORDS)?;
        let more = self.time_accesses(map, &mut machine);
        drop(machine);
        self.clock.run_vcpus(host, map, more?.as_slice())
    }

    fn time_accesses(&mut self, map: &Map, machine: &mut PureMachine) -> Result<Vec<u32>> {
        machine.begin()?;
        sum_of(&map.calls, |call| u64::from(machine.call(&call).is_ok()));
        machine.commit()?;
        let addrs = self.of_memory(machine.current(), map.size.saturating_mul(50))?;
        self.run_routes(map, machine.current(), &addrs)?;
        self.clock.run(map, "in the pure machine", machine, &addrs)?;
        self.clock.run_bus(map, machine.current(), &addrs)?;
        self.of_memory(machine.current(), map.size.saturating_mul(100))
    }
}
