// The rows, by what they are about.
ghost use Rattle.machine_rows.specs.AccessRows.{AccessRows};
ghost use Rattle.machine_rows.specs.ListenerRows.{ListenerRows};
ghost use Rattle.machine_rows.specs.PartRows.{PartRows};
ghost use Rattle.machine_rows.specs.TurnRows.{TurnRows};
ghost use Rattle.machine_rows.specs.WorldRows.{WorldRows};
ghost use Rattle.machine_rows.specs.HistoryRows.{HistoryRows};
ghost use Rattle.machine_rows.specs.HostRows.{HostRows};

/// Accesses to RAM, ROM and devices, through translations, with marks and ioeventfds.
pub fn accesses_compute()
    ensures { AccessRows }
{}

/// Walks, what listeners are told in which order, live ioeventfds, and committed forests.
pub fn listeners_compute()
    ensures { ListenerRows }
{}

/// The pure machine: generations, refusals, places in a pool, and the turns of the writer.
pub fn worlds_compute()
    ensures { WorldRows }
{}

/// Histories of the pure machine: what is released, what is held, and who listens.
pub fn histories_compute()
    ensures { HistoryRows }
{}

/// Turns read as a history of the pure machine: each rule for the place of a private event, with a pass's entry beside it.
pub fn turns_compute()
    ensures { TurnRows }
{}

/// The parts of an IOMMU region's table in a range, and a watcher's notices with their replay.
pub fn parts_compute()
    ensures { PartRows }
{}

/// Host memory: which calls take it, where it is found, and that an access which ends there is answered by nobody.
pub fn host_memory_computes()
    ensures { HostRows }
{}
