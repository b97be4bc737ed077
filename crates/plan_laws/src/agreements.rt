// An access by its chunks, and the same access by the rounds of QEMU's core.
ghost use Rattle.plan_laws.specs.CoreLaws.{EvenRangesAgree, OneChunkAgrees, PlansAgree};

/// Where no window makes read-only what a write meets, and no piece of a device reaches past its range, an access reaches the same by
/// its chunks as by QEMU's core.
pub fn plans_agree()
    ensures { PlansAgree }
{}

/// It reaches the same where no window makes read-only what a write meets and the whole access is one chunk.
pub fn one_chunk_agrees()
    ensures { OneChunkAgrees }
{}

/// It reaches the same where no window makes read-only what a write meets, each range of a device that it leaves ends at a multiple of
/// the largest size that the device takes, and the device's callbacks take aligned accesses alone.
pub fn even_ranges_agree()
    ensures { EvenRangesAgree }
{}
