// How long a change takes that is published at once: told to a listener, and unheard, in a large space and a small one.
use crate::maps::{Map, WORDS, moves_of};
use crate::times::{Bench, Ledger, Result, sum_of};
use mem_base::{Call, Config, ListenerId, SpaceId};
use writer_desk::{ListenedDesk, Planned};

impl<L: Ledger> Bench<L> {
    /// Moves regions of a map while its space has one listener, and, in four times as many rounds, where none hears it,
    /// with one in a small space of two regions as often; and copies the forest and the tree.
    pub fn run_changes(&mut self, mut map: Map) -> Result<()> {
        let (clock, rt) = (self.clock, self.clock.rt);
        let small_moves = moves_of(map.add_small_space()?, 0, 0x1000);
        let moves = map.moves(rt, 16, 0x1000)?;
        let count = moves.len();
        let small_moves = small_moves.repeat(rt.alloc(), count / 2)?;
        let mut desk = ListenedDesk::new(rt.alloc(), WORDS)?;
        self.tell(&mut desk, &Config::Begin);
        self.tell_all(&mut desk, &map.calls);
        self.tell(&mut desk, &Config::Commit);
        let listen = Config::Listen {
            listener: ListenerId(0),
            space: SpaceId(0),
            priority: 0,
        };
        self.tell(&mut desk, &listen);
        desk.forget(usize::MAX);
        let (heard, told) = clock.least(1, count, || {
            self.tell_all(&mut desk, &moves);
            desk.take_journal()
        });
        self.tell(&mut desk, &Config::Unlisten(ListenerId(0)));
        let (large, accepted) = clock.least(4, count, || self.tell_all(&mut desk, &moves));
        let (small, _) = clock.least(4, count, || self.tell_all(&mut desk, &small_moves));
        let tree = desk.backed().desk().tree();
        let (forests, _) = clock.least(4, 1, || tree.forest());
        let (trees, _) = clock.least(4, 1, || tree.try_copy());
        drop(desk);
        let (told, refused) = (told.len(), (count as u64).saturating_sub(accepted));
        println!(rt; "{map} listened to: moves {count}, told {told}")?;
        eprintln!(rt; "{map} listened to: a move {heard} ns")?;
        println!(rt; "{map} changed: moves {count}, refused {refused}")?;
        eprint!(rt; "{map} changed: a move {large} ns, in the small space {small} ns, ")?;
        Ok(eprintln!(rt; "a copy of the forest {forests} ns, of the tree {trees} ns")?)
    }

    fn tell_all(&mut self, desk: &mut ListenedDesk, calls: &[Call]) -> u64 {
        sum_of(calls, |call| self.tell(desk, &Config::Call(call)))
    }

    /// Does an event of the writer, and publishes what it makes ready: 1 where it is accepted.
    fn tell(&mut self, desk: &mut ListenedDesk, event: &Config) -> u64 {
        let planned = desk.prepare(event, &mut self.steps);
        let accepted = u64::from(planned.is_ok());
        if let Ok(Planned::Ready(due)) = planned {
            desk.tell(&due);
            desk.done(due);
        }
        accepted
    }
}
