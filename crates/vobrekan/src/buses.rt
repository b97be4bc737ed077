// Accesses over a bus of one's own.
pub use access_reach::{core_read, core_write, read, write};
