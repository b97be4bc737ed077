// How long what holds words takes: places of a pool, and a cabinet with its writer's desk and a pass in it.
ghost use Rattle.std.specs.Prelude.{◌≡◌, ◌%◌, ◌≤◌, None};
ghost use Rattle.mem_base.specs.map.Limits.{most_bytes, most_words, page_size};

use crate::times::{Clock, Failed, Lcg64Xsh32, MICRO, NextWord, Result, drawn};
use backing_pool::Pool;
use config_desk::Config;
use epoch_rule::{Cabinet, Pass};
use generation::Generation;
use mem_base::{Call, Edition, Kind, MOST_PASSES, NOTIFIER_COUNT, RegionId, Size, SpaceId};
use shared_words::load;

/// The words of the pool.
const WORDS: usize = 4096;
/// The places that are taken in it.
const PLACES: u32 = 10_000;
/// The bytes of the memory that a generation of the cabinet shows, 64 pages.
const BYTES: u32 = 0x40000;

impl Clock {
    /// Takes places of drawn sizes, gives drawn ones back where there is no room, and all in the end.
    pub fn run_pool(self) -> Result<()> {
        let rt = self.rt;
        let (micros, sum) = self.least(1, MICRO, || take_all(rt));
        let sum = sum?;
        println!(rt; "pool {WORDS}: places {PLACES}, sum of starts {sum}")?;
        Ok(eprintln!(rt; "pool {WORDS}: {PLACES} places taken and given back in {micros} us")?)
    }

    /// Makes a cabinet, enters and leaves by one pass, and loads as many drawn words of memory that a generation shows.
    pub fn run_cabinet(self, words: usize, count: u32) -> Result<()>
        requires { words ≤ most_words }
    {
        let drawn = drawn(self.rt, 5, count, BYTES / 8)?;
        let size = Size::new(u128::from(BYTES)).ok_or(Failed)?;
        let (rt, kind, space, root) = (self.rt, Kind::Ram, SpaceId(0), RegionId(0));
        let start = self.begin();
        let (cabinet, mut config) = Config::new(rt.alloc(), words, MOST_PASSES)?;
        let made = self.since(start) / 1000;
        let pass = config.pass();
        let _ = config.call(&Call::Region { kind, size });
        let _ = config.call(&Call::Space { space, root });
        let (visits, loads, sum) = match pass {
            Some(pass) => self.time_pass(&cabinet, pass, drawn.as_slice()),
            None => (0, 0, 0),
        };
        drop(config);
        drop(cabinet);
        let all = words.saturating_add(NOTIFIER_COUNT);
        println!(rt; "cabinet {MOST_PASSES} {all}: visits and loads {count}, sum {sum}")?;
        eprint!(rt; "cabinet {MOST_PASSES} {all}: made in {made} us, ")?;
        Ok(eprintln!(rt; "{count} visits {visits} us, {count} loads {loads} us")?)
    }

    /// Enters and leaves as often as there are words; then enters, loads these words of the memory, and leaves: the
    /// microseconds of each, and the numbers of the visits, and what the words have and one for each, added up.
    fn time_pass(
        self,
        cabinet: &Cabinet<Generation>,
        mut pass: Pass<Generation>,
        words: &[u32],
    ) -> (u64, u64, u64)
        requires own { pass.cabinet ≡ cabinet.now.id }
        requires out { pass.edition ≡ None }
    {
        let (mut visits, mut loads, mut sum) = (u64::MAX, u64::MAX, 0u64);
        for _round in 0..self.rounds {
            sum = 0;
            let start = self.begin();
            for _visit in words {
                sum = sum.wrapping_add(cabinet.enter(&mut pass));
                cabinet.leave(&mut pass);
            }
            visits = visits.min(self.since(start));
            let start = self.begin();
            cabinet.enter(&mut pass);
            if let Some(place) = cabinet.generation(&pass).place_of(RegionId(0)) {
                for word in words {
                    if u64::from(*word) < place.bytes / 8 {
                        let found = load(cabinet, &mut pass, &place, *word as usize);
                        sum = sum.wrapping_add(found).wrapping_add(1);
                    }
                }
            }
            cabinet.leave(&mut pass);
            loads = loads.min(self.since(start));
        }
        (visits / 1000, loads / 1000, sum)
    }
}

fn bytes(rng: &mut Lcg64Xsh32) -> u64
    ensures pages { result % page_size ≡ 0 }
    ensures few { result ≤ most_bytes }
{
    match rng.next_word() % 64 {
        0 => 8192,
        1 => 4096,
        _ => 0,
    }
}

fn take_all(rt: HostRuntime) -> Result<u64> {
    let mut rng = Lcg64Xsh32::new(4, 54);
    let mut pool = Pool::new(rt.alloc(), WORDS)?;
    let mut taken = Vec::new(rt.alloc());
    let mut sum: u64 = 0;
    for i in 0..PLACES {
        let (region, bytes) = (RegionId(i), bytes(&mut rng));
        let regs = rng.next_word() % 64 + 1;
        for _ in 0..PLACES {
            if pool.place_of(region).is_some() {
                break;
            }
            if let Ok(place) = pool.take(region, bytes, regs) {
                taken.push(region)?;
                sum = sum.wrapping_add(place.start as u64);
                break;
            }
            let at = rng.next_word() as usize % taken.len().max(1);
            if at < taken.len() {
                let _ = pool.give(taken.swap_remove(at));
            }
        }
    }
    for region in &taken {
        let _ = pool.give(*region);
    }
    Ok(sum)
}
