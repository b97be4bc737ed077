// Laws of the cabinet's rule.
ghost use Rattle.epoch_rule.specs.Closing.{SeatsBeginOneHistory};
ghost use Rattle.epoch_rule.specs.SlotLaw.{TakenSlotsAreFree};

use mem_base::Edition;

/// The slot that the writer takes for the next generation of a pass is of no generation that the pass holds or may
/// still use, and no pass is entered below its lowest number, after every legal history of a cabinet.
pub fn taken_slots_are_free()
    ensures { TakenSlotsAreFree }
{}

/// Whenever the table of a cabinet is as its rule says, and so between any two steps of any threads, there is one legal
/// history of which all seats have seen a first part; and the writer's seat has seen all of it where no pass is out.
pub fn seats_begin_one_history<E: Edition + Drop>()
    ensures { SeatsBeginOneHistory E.counted E.forest E.places }
{}
