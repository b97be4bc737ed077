// What an access reaches where a route ends.
ghost use Rattle.std.specs.Prelude.{[], false, true, length};
ghost use Rattle.mem_base.specs.declared.access.accesses.Target.TheVariants.{Leaf};
ghost use Rattle.mem_base.specs.access.AccessSteps.{reading, writing};
ghost use Rattle.access_base.specs.Leaves.{IsLeafRun, IsTargetRun};
ghost use Rattle.mem_base.specs.access.Plans.{reached};
ghost use Rattle.access_plan.specs.HostPlans.{answerer_by};
ghost use Rattle.access_reach.specs.Asking.{outcome};
ghost use Rattle.access_reach.specs.Reaching.{AllTaken, HasReached};

use crate::buses::{Answering, Taking};
use crate::devices;
use crate::marks::mark;
use access_base::{DONE, UNANSWERED};
use access_plan::{Answerer, answerer_by};
use mem_base::{Spot, Target, TxResult};

// Reads a leaf.
fn read_leaf<B: Answering>(bus: &mut B, spot: &Spot, out: &mut [u8]) -> TxResult
    requires { IsLeafRun (B.shows bus.old).forest spot.now (length out.old) }
    ensures { HasReached B.asks bus.old (reached (answerer_by B.host (B.shows bus.old).forest false (Leaf spot.now)) (reading (length out.old)))
        (outcome out.new result) bus.new }
{
    match answerer_by(bus.generation(), B::has_host(), spot, false) {
        Answerer::Memory => {
            bus.read_memory(spot.leaf, spot.offset, out);
            DONE
        }
        Answerer::Device(ops) => devices::read(bus, spot.leaf, &ops, spot.offset, out),
        Answerer::Nobody => {
            out.fill(0);
            UNANSWERED
        }
    }
}

/// Reads where some addresses lead, for as many bytes as there is room for. It takes no memory.
pub(crate) fn read<B: Answering>(bus: &mut B, target: &Target, out: &mut [u8]) -> TxResult
    requires { IsTargetRun (B.shows bus.old).forest target.now (length out.old) }
    ensures { HasReached B.asks bus.old (reached (answerer_by B.host (B.shows bus.old).forest false target.now) (reading (length out.old)))
        (outcome out.new result) bus.new }
{
    match target {
        Target::Leaf(spot) => read_leaf(bus, spot, out),
        Target::Unassigned => {
            out.fill(0);
            UNANSWERED
        }
    }
}

// Writes a leaf: memory takes the bytes, and then the marks of its pages.
fn write_leaf<B: Taking>(bus: &mut B, spot: &Spot, bytes: &[u8]) -> TxResult
    requires run { IsLeafRun (B.shows bus.old).forest spot.now (length bytes.now) }
    requires takes { AllTaken B.takes bus.old (reached (answerer_by B.host (B.shows bus.old).forest true (Leaf spot.now)) (writing bytes.now)) }
    ensures { HasReached B.asks bus.old (reached (answerer_by B.host (B.shows bus.old).forest true (Leaf spot.now)) (writing bytes.now))
        (outcome [] result) bus.new }
{
    match answerer_by(bus.generation(), B::has_host(), spot, true) {
        Answerer::Memory => {
            bus.write_memory(spot.leaf, spot.offset, bytes);
            mark(
                bus,
                spot.leaf,
                spot.attrs.log,
                spot.offset,
                bytes.len() as u64,
            );
            DONE
        }
        Answerer::Device(ops) => devices::write(bus, spot.leaf, &ops, spot.offset, bytes),
        Answerer::Nobody => UNANSWERED,
    }
}

/// Writes where some addresses lead. It takes no memory.
pub(crate) fn write<B: Taking>(bus: &mut B, target: &Target, bytes: &[u8]) -> TxResult
    requires run { IsTargetRun (B.shows bus.old).forest target.now (length bytes.now) }
    requires takes { AllTaken B.takes bus.old (reached (answerer_by B.host (B.shows bus.old).forest true target.now) (writing bytes.now)) }
    ensures { HasReached B.asks bus.old (reached (answerer_by B.host (B.shows bus.old).forest true target.now) (writing bytes.now))
        (outcome [] result) bus.new }
{
    match target {
        Target::Leaf(spot) => write_leaf(bus, spot, bytes),
        Target::Unassigned => UNANSWERED,
    }
}
