//! What all accesses share, whoever answers them: their chunks, the bytes of numbers, and how their parts end together.
//!
//! QEMU's core, `flatview_translate` and `memory_access_size` give the chunks. The layer above may rely on it that the first chunk is
//! that of the defined chunks, that its bytes lie in its leaf's region, and that the bytes of numbers are the defined ones. No memory is
//! taken.
#![tactic(auto)]

mod chunks;
mod numbers;
mod results;

pub use chunks::{first_chunk, reach};
pub use numbers::{bytes_from, padded, put};
pub use results::{DONE, FAULT, UNANSWERED, joined};
