//! Dirty pages: which bit of a region's mark words stands for a page, which pages a write marks, and which pages a mark
//! word tells.
//!
//! QEMU's core, `cpu_physical_memory_set_dirty_range` and `cpu_physical_memory_snapshot_and_clear_dirty`: a bitmap for
//! each of the clients VGA, code and migration, one bit a page. Here the bits of a region stand in mark words after its
//! data and registers. The layer above may rely on it that no two marks of a place share a bit.
#![tactic(auto)]

mod marks;
mod pages;

pub use marks::{Marks, marks_of};
pub use pages::{mark_of, marks_are_apart, pages_of};
