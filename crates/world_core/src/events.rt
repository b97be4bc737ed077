// One event of the machine at a time.
ghost use Rattle.std.specs.Prelude.{◌≡◌, ◌≢◌, true, Ok, Err};
ghost use Rattle.mem_base.specs.machine.World.{possible};
ghost use Rattle.world_core.specs.Events.{IsConfig, IsStepped};

use crate::changing::reply_of;
use crate::world::World;
use mem_base::{Event, Refusal, Reply};

impl World {
    /// One event, which is possible where it stands: it leaves and answers what this project's rules of the machine say. A `Look`,
    /// an `Enter`, a `Sweep` and a `Publish` tell a number, a `Word` and a `Harvest` the word before the step, a call of the forest
    /// what the forest answers.
    ///
    /// Only a `Config` is refused: as the rules say, or with `Memory`, where memory runs out and nothing changes. Any other event
    /// takes no memory.
    pub fn step(&mut self, event: &Event) -> Result<Reply, Refusal>
        requires may { possible self.old event.now ≡ true }
        ensures stepped { result ≢ Err Refusal.Memory → IsStepped self.old event.now result self.new }
        ensures unchanged { result ≡ Err Refusal.Memory → self.new ≡ self.old }
        ensures spared { result ≡ Err Refusal.Memory → IsConfig event.now }
    {
        match *event {
            Event::Config(config) => {
                let applied = self.change(&config)?;
                Ok(reply_of(&config, applied))
            }
            _ => Ok(self.happen(event)),
        }
    }

    // An event other than one that changes the map.
    fn happen(&mut self, event: &Event) -> Reply
        requires may { possible self.old event.now ≡ true }
        requires other { IsConfig event.now → ⊥ }
        ensures { IsStepped self.old event.now (Ok result) self.new }
    {
        match *event {
            Event::Look(pass) => Reply::Number(self.look(pass)),
            Event::Announce(pass) => {
                self.announce(pass);
                Reply::Done
            }
            Event::Enter(pass) => Reply::Number(self.enter_current(pass)),
            Event::Leave(pass) => {
                self.leave(pass);
                Reply::Done
            }
            Event::Sweep(pass) => Reply::Number(self.sweep(pass)),
            Event::Place(pass) => {
                self.place(pass);
                Reply::Done
            }
            Event::Publish => Reply::Number(self.publish()),
            Event::Word { hand, cell, step } => Reply::Old(self.step_cell(hand, &cell, step)),
            Event::Mark {
                pass,
                region,
                client,
                page,
            } => {
                self.mark(pass, region, client, page);
                Reply::Done
            }
            Event::Harvest {
                region,
                client,
                index,
            } => Reply::Old(self.take(region, client, index)),
            Event::Fill { cell } => {
                self.fill(&cell);
                Reply::Done
            }
            Event::Config(_) => Reply::Done,
            Event::Reap => {
                self.release_dropped();
                Reply::Done
            }
        }
    }
}
