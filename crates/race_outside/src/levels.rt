// The record hears the virtual CPUs, and they meet it.
ghost use Rattle.std.specs.Prelude.{◌≡◌, ◌≢◌, ℕ, ◌<◌, [], All, length, slice_index_or};
ghost use Rattle.generation.specs.Published.{Published};
ghost use Rattle.epoch_rule.specs.Rule.{IsLegal};
ghost use Rattle.epoch_rule.specs.Values.{PassValue};
ghost use Rattle.desk_orders.specs.Records.{GrewBy, IsLater};
ghost use Rattle.race_levels.specs.Levels.{HasMet, IsHeard, IsOfCabinet};

use desk_lock::Record;
use vcpu_pass::Vcpu;

// The record hears what a virtual CPU has seen.
fn hear_one(desk: &mut Record, cpu: &mut Vcpu<'_>)
    requires own { IsOfCabinet desk.old.seat.cabinet cpu.old }
    ensures same { cpu.new ≡ cpu.old }
    ensures heard { IsHeard desk.new.seat.seen cpu.old }
    ensures later { IsLater desk.old desk.new }
    ensures entries { desk.new.entries ≡ desk.old.entries }
    ensures part { desk.new.part ≡ desk.old.part }
{
    let note = cpu.tell();
    desk.hear(note);
}

// The record hears what the virtual CPU at a place has seen.
fn hear_at(desk: &mut Record, cpus: &mut [Vcpu<'_>], at: usize)
    requires near { at < length cpus.old }
    requires own { All (IsOfCabinet desk.old.seat.cabinet) cpus.old }
    ensures same { cpus.new ≡ cpus.old }
    ensures heard { (d : PassValue Published) → IsHeard desk.new.seat.seen (slice_index_or cpus.old at d) }
    ensures later { IsLater desk.old desk.new }
    ensures entries { desk.new.entries ≡ desk.old.entries }
    ensures part { desk.new.part ≡ desk.old.part }
{
    hear_one(desk, &mut cpus[at]);
}

// A virtual CPU meets what the record has seen.
fn meet_one(desk: &mut Record, cpu: &mut Vcpu<'_>)
    requires own { IsOfCabinet desk.old.seat.cabinet cpu.old }
    requires heard { IsHeard desk.old.seat.seen cpu.old }
    ensures same { desk.new ≡ desk.old }
    ensures met { HasMet desk.old.seat.seen cpu.old cpu.new }
{
    let note = desk.note();
    cpu.meet(note);
}

/// All virtual CPUs meet what the record has seen, which begins with what each had seen. None makes an entry by that, and one
/// that is entered stays in its generation.
pub fn meet_all(desk: &mut Record, cpus: &mut [Vcpu<'_>])
    requires own { All (IsOfCabinet desk.old.seat.cabinet) cpus.old }
    requires heard { All (IsHeard desk.old.seat.seen) cpus.old }
    ensures same { desk.new ≡ desk.old }
    ensures count { length cpus.new ≡ length cpus.old }
    ensures met { (i : ℕ) (d : PassValue Published) → i < length cpus.old
        → HasMet desk.old.seat.seen (slice_index_or cpus.old i d) (slice_index_or cpus.new i d) }
{
    for i in 0..cpus.len() {
        meet_one(desk, &mut cpus[i]);
    }
}

/// The record and all virtual CPUs are brought to one level after one of them did something: the record hears what that one has seen, as it
/// has heard the others before, and all meet what it has seen then. No order is given, and nobody makes an entry by that.
pub fn level(desk: &mut Record, cpus: &mut [Vcpu<'_>], at: usize)
    requires near { at < length cpus.old }
    requires own { All (IsOfCabinet desk.old.seat.cabinet) cpus.old }
    requires others { (i : ℕ) (d : PassValue Published) → i < length cpus.old → i ≢ at
        → IsHeard desk.old.seat.seen (slice_index_or cpus.old i d) }
    ensures later { IsLater desk.old desk.new }
    ensures entries { desk.new.entries ≡ desk.old.entries }
    ensures part { desk.new.part ≡ desk.old.part }
    ensures grew { GrewBy [] desk.old desk.new }
    ensures heard { All (IsHeard desk.new.seat.seen) cpus.old }
    ensures legal { IsLegal desk.new.seat.sizes desk.new.seat.seen }
    ensures count { length cpus.new ≡ length cpus.old }
    ensures met { (i : ℕ) (d : PassValue Published) → i < length cpus.old
        → HasMet desk.new.seat.seen (slice_index_or cpus.old i d) (slice_index_or cpus.new i d) }
{
    hear_at(desk, cpus, at);
    desk.has_seen_legal();
    meet_all(desk, cpus);
}
