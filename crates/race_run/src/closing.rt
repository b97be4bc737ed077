// The virtual CPUs of a race leave and are taken in.
ghost use Rattle.std.specs.Prelude.{◌≡◌, ℕ, ◌+◌, ◌<◌, ◌≤◌, All, false, length, slice_index_or};
ghost use mathlib.Core.List.{IsPrefix};
ghost use Rattle.mem_base.specs.map.Limits.{most_passes};
ghost use Rattle.mem_base.specs.machine.Actors.{own_entries};
ghost use Rattle.generation.specs.Published.{Published};
ghost use Rattle.epoch_rule.specs.Values.{PassValue};
ghost use Rattle.race_inside.specs.HandedOn.{IsOfCabinet, AreReady};
ghost use Rattle.race_run.specs.Ends.{HasClosed, HasComeIn};

use race_inside::{Config, Record};
use vcpu_pass::Vcpu;

// Each of the virtual CPUs leaves where it is entered, and its pass is taken in, from the last to the first.
fn take_all_in(desk: &mut Record, cpus: &mut Vec<Vcpu<'_>>)
    requires own { All (IsOfCabinet desk.old.seat.cabinet) cpus.old.items }
    requires numbers { (v : ℕ) (d : PassValue Published) → v < length cpus.old.items → (slice_index_or cpus.old.items v d).number ≡ v }
    ensures came { (v : ℕ) (d : PassValue Published) → v < length cpus.old.items → HasComeIn desk.new.seat.seen (slice_index_or cpus.old.items v d) }
    ensures others { (q : ℕ) → length cpus.old.items ≤ q → slice_index_or desk.old.seat.out q false ≡ false
        → own_entries (q + 1) desk.new.seat.seen ≡ own_entries (q + 1) desk.old.seat.seen }
    ensures in_now { (q : ℕ) → q < length cpus.old.items → slice_index_or desk.new.seat.out q false ≡ false }
    ensures in_still { (q : ℕ) → slice_index_or desk.old.seat.out q false ≡ false → slice_index_or desk.new.seat.out q false ≡ false }
    ensures count { length desk.new.seat.out ≡ length desk.old.seat.out }
    ensures begins { IsPrefix desk.old.seat.seen desk.new.seat.seen }
    ensures writer { own_entries 0 desk.new.seat.seen ≡ own_entries 0 desk.old.seat.seen }
    ensures same { (desk.new.seat.cabinet ≡ desk.old.seat.cabinet) × (desk.new.seat.sizes ≡ desk.old.seat.sizes) }
    ensures part { desk.new.part ≡ desk.old.part }
{
    if let Some(cpu) = cpus.pop() {
        desk.take_in(cpu.into_pass());
        take_all_in(desk, cpus);
    }
}

/// The desk, after each of the sixteen virtual CPUs has left where it is entered, and was taken in. It takes no memory.
pub(crate) fn close(desk: Record, cpus: Vec<Vcpu<'_>>) -> Config
    requires ready { AreReady desk cpus.items }
    requires count { length desk.seat.out ≡ most_passes }
    ensures { HasClosed desk result }
{
    let mut open = desk;
    let mut left = cpus;
    take_all_in(&mut open, &mut left);
    open.has_seen_legal();
    open.into_config()
}
