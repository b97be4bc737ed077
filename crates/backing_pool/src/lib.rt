//! The pool of words that backs the regions: which words each region has, and the holes between them.
//!
//! QEMU's core keeps a list of RAM blocks, each with memory of its own (`RAMBlock`); here all data, registers and marks
//! of regions lie in one pool of words of 8 bytes, and a region gets the first hole that is large enough. The layer
//! above may rely on it that no two places meet, that each lies within the pool, and that giving a place back takes no
//! memory.
#![tactic(auto)]

mod holes;
mod pool;

pub use pool::Pool;
