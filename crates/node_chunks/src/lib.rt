//! The regions of a forest that is to be published, in chunks.
//!
//! A forest has its regions in chunks that forests may share. The layer above may rely on it that the chunks made of slots have just
//! the regions of these slots, also where those chunks in which no region changed are taken over from an older forest; and that
//! `Features` tells what a generation asks of all its regions.
#![tactic(auto)]

mod features;
mod near;

pub use features::Features;
pub use near::{is_sparse, nodes_anew, nodes_near};
