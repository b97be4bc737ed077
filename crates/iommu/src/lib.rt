//! The route of an access: where its first address leads, through the translations of IOMMU regions, and how many of the
//! addresses after it go the same way.
//!
//! QEMU's core, `address_space_translate` and its IOMMU walk. That at most eight translations are used is this project's own
//! rule. The layer above may rely on it that `route` is the defined route for the forest of the generation, that
//! `end_of_route` is its end, and that `translate` is the translation that covers an offset. No memory is taken.
#![tactic(auto)]

mod ends;
mod hops;
pub mod routes;
mod routing;
mod tables;

pub use ends::end_of_route;
pub use routing::route;
pub use tables::translate;
