// Flat views of address spaces, and what listeners are told of them.

pub mod flat;
pub mod listening;
pub mod notes;
pub mod paths;
