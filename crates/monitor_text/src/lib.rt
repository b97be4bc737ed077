//! What QEMU's monitor prints of memory maps, read line by line.
//!
//! `info mtree -D` prints the regions of each address space as a tree, and `info mtree -f` the flat view of each space (QEMU 7.2,
//! `mtree_info` of `softmmu/memory.c`). `read_tree` and `read_flat` read such texts: each line is one of a few forms, or the first line
//! that has none of them is told. What the lines mean is for the layer above.
#![tactic(auto)]

mod addresses;
mod cursor;
mod faults;
mod flat_text;
mod lines;
mod names;
mod parts;
mod rows;
mod tree_text;

pub use addresses::address_in;
pub use faults::{LineFault, MonitorFault};
pub use flat_text::{FlatLine, flat_line};
pub use lines::{read_flat, read_tree};
pub use names::{cleaned, is_named_after, numbered};
pub use rows::{FlatRow, RowKind, TreeRow, Window};
pub use tree_text::{TreeLine, tree_line};
