//! Tests of the pure machine and of the running one: drawn calls after each of which what every listener has by its own calls is what the
//! current generation shows, the same calls of both machines, and single events; the cabinet and its words, whole words that a virtual CPU
//! writes, mapped windows, sixteen virtual CPUs beside a writer that moves their memory or makes it anew, and the desk that threads share.
//!
//! No crate stands on this one. What is tested here is what no clause says and no script reaches: that a listener that knows nothing but
//! its calls has the ranges and the live ioeventfds of its space; that the writer's desk of the running machine and its virtual CPUs, all
//! on one thread, answer each call as the pure machine does, and tell its listeners the same; which events are possible, one by one; that
//! the calls answer with ample memory; that what they answer in worked cases is what QEMU's core and this project's rules give; and that
//! threads which run beside one another, on whatever schedule, go on, lose no step, no write and no order, and read bytes that some write
//! put there. Each test of threads ends by itself. Worked runs of the machine, and the accesses of a virtual CPU in worked cases, are
//! scripts of `examples`.
#![tactic(auto)]

#[cfg(test)]
mod cabinet;
#[cfg(test)]
mod calls;
#[cfg(test)]
mod crowds;
#[cfg(test)]
mod locks;
#[cfg(test)]
mod vcpus;
#[cfg(test)]
mod windows;
#[cfg(test)]
mod world;
