//! The forest of memory regions, changed call by call.
//!
//! `Tree` holds the regions and address spaces of a machine as QEMU's manual "The memory API" has them:
//! containers, memory, devices and aliases, each a child of at most one container. `apply` does one call of
//! that interface, or says why it is refused and changes nothing. The layers above may rely on this: the
//! tree is seen as a `Forest`, the forest after a call is the one that the definitions of `mem_base` give,
//! and `children` lists the children of a region in the order in which they are tried.
#![tactic(auto)]

mod calls;
mod conditions;
mod refusals;
mod tree;

pub use node_chunks::Features;
pub use region_slots::Child;
pub use tree::Tree;
