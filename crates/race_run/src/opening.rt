// The virtual CPUs of a race, handed out.
ghost use Rattle.std.specs.Prelude.{◌≡◌, ◌<◌, ◌≤◌, [], false, true, length, replicate, slice_set, vec_capacity};
ghost use Rattle.mem_base.specs.map.Limits.{most_passes};
ghost use Rattle.epoch_rule.specs.Values.{first_free};
ghost use Rattle.epoch_rule.specs.Wrote.{IsNewPass};
ghost use Rattle.race_inside.specs.HandedOn.{AreReady};

use epoch_rule::Cabinet;
use generation::Generation;
use mem_base::MOST_PASSES;
use race_inside::Record;
use vcpu_pass::Vcpu;

// The least pass that is not out, on a virtual CPU.
fn hand_one<'c>(cabinet: &'c Cabinet<Generation>, desk: &mut Record) -> Vcpu<'c>
    requires own { desk.old.seat.cabinet ≡ cabinet.now.id }
    requires some { first_free desk.old.seat.out < length desk.old.seat.out }
    ensures new { IsNewPass desk.old.seat result }
    ensures out { desk.new.seat.out ≡ slice_set desk.old.seat.out result.number true }
    ensures same { (desk.new.seat.cabinet ≡ desk.old.seat.cabinet) × (desk.new.seat.sizes ≡ desk.old.seat.sizes) }
    ensures seen { desk.new.seat.seen ≡ desk.old.seat.seen }
    ensures part { desk.new.part ≡ desk.old.part }
{
    match desk.pass() {
        Some(pass) => Vcpu::new(cabinet, pass),
        None => unreachable!(),
    }
}

/// Hands out all sixteen passes, each on a virtual CPU, of a machine on which nothing was done yet. There is room for them.
pub(crate) fn hand_out<'c>(
    cabinet: &'c Cabinet<Generation>,
    desk: &mut Record,
    cpus: &mut Vec<Vcpu<'c>>,
)
    requires own { desk.old.seat.cabinet ≡ cabinet.now.id }
    requires seen { desk.old.seat.seen ≡ [] }
    requires out { desk.old.seat.out ≡ replicate most_passes false }
    requires empty { cpus.old.items ≡ [] }
    requires room { most_passes ≤ vec_capacity cpus.old }
    ensures ready { AreReady desk.new cpus.new.items }
    ensures out { desk.new.seat.out ≡ replicate most_passes true }
    ensures same { (desk.new.seat.cabinet ≡ desk.old.seat.cabinet) × (desk.new.seat.sizes ≡ desk.old.seat.sizes) }
    ensures seen { desk.new.seat.seen ≡ [] }
    ensures part { desk.new.part ≡ desk.old.part }
{
    for _count in 0..MOST_PASSES {
        cpus.push_reserved(hand_one(cabinet, desk));
    }
}
