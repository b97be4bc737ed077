// The memory map: regions, address spaces, the calls that change them, and refusals.

pub mod calls;
pub mod chunks;
pub mod forests;
pub mod ids;
pub mod ioevents;
pub mod kinds;
pub mod limits;
pub mod refusals;
pub mod sizes;
pub mod spots;
pub mod translations;
