// Accesses, and the words that back regions.

pub mod accesses;
pub mod cells;
pub mod notices;
