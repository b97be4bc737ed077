//! The machine for C and stock Rust: a static library.
//!
//! Each call works on a machine behind a handle, one call at a time. It is a call of the pure machine, and its contract says so by
//! the machine that the handle had before it, the numbers that it answers, and the machine that the handle has after it. Arguments
//! are tested inside, so no call has a condition: what stands for nothing is refused, and a refused call changes nothing. A handle
//! that has no machine says so. `bindings/` has the header, the crates for stock Rust, and the tests of both.
#![tactic(auto)]

mod accesses;
mod answers;
mod arguments;
mod buffers;
mod changes;
mod cpu_handle;
mod cpus;
mod deliveries;
mod desk_handle;
mod desks;
mod entered;
mod forgetting;
mod handle;
mod kept;
mod loose;
mod marks;
mod orders;
mod paths;
mod plans;
mod regions;
mod script;
mod shown;
mod texts;
mod writer;
