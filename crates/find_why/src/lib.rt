//! Why a region answers an address of a space, and why each other region that a search looks at does not.
//!
//! A search from the root of a space tries regions in order ("The memory API", "Visibility", of QEMU's manual), and `find`
//! tells what it finds. Here each region that it looks into is told with all regions inside it, and of each of these why it
//! answers or does not: it begins after the address or ends before it, it is disabled, nothing inside it answers, or one that is tried
//! before it does. Where the answer is an IOMMU region, the search goes on in the space to which the offset is
//! translated. The layer above may rely on it that the path is the search's, that each reason holds, and that no region is
//! left out.
#![tactic(auto)]

mod hops;
mod looks;
mod regions;
mod search;

pub use hops::{Hop, Hops, why};
pub use looks::{Look, Looks, Outcome, Trials, Tried};
