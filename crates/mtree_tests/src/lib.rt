//! Tests that cross crates: the search, rendering and merging, what a view tells and how it is looked up, the views of drawn desks,
//! places in a pool and marks of dirty pages, against plain programs; and of what a desk publishes, of routes, and of accesses over a desk
//! whose regions have their words in a pool.
//!
//! No crate stands on this one. What is tested here is what no clause says and no script reaches: that the definitions which
//! the contracts cite find, show and tell what plain programs do in drawn maps, of which one keeps its own list of regions, and others
//! compare everything with everything, as QEMU's core tells its listeners (`address_space_update_topology_pass`); the paths of
//! the manual's picture, copies, and limits in the thousands; that an untouched space shares its atlas from one generation to the next;
//! that drawn routes are those of a plain program that follows each address by itself, and drawn accesses give the bytes, the marks, the
//! notifiers and the steps of one that goes byte by byte; and that the calls answer with ample memory. The hand of these accesses makes
//! the steps on a plain list of words, and it is proved that the words are those after the events that it makes, and the replies the
//! words before them. Worked maps, walks, ioeventfds, changes, routes and accesses are the scripts of `examples`.
#![tactic(auto)]

#[cfg(test)]
mod cases;
#[cfg(test)]
mod changes;
#[cfg(test)]
mod cuts;
#[cfg(test)]
mod desk;
#[cfg(test)]
mod drawn;
#[cfg(test)]
mod draws;
#[cfg(test)]
mod generated;
#[cfg(test)]
mod grid;
#[cfg(test)]
mod host;
#[cfg(test)]
mod kept;
#[cfg(test)]
mod limits;
#[cfg(test)]
mod lookups;
#[cfg(test)]
mod maps;
#[cfg(test)]
mod marks;
#[cfg(test)]
mod merging;
#[cfg(test)]
mod paths;
#[cfg(test)]
mod picture;
#[cfg(test)]
mod plain;
#[cfg(test)]
mod plain_walks;
#[cfg(test)]
mod pools;
#[cfg(test)]
mod published;
#[cfg(test)]
mod texts;
#[cfg(test)]
mod trees;
#[cfg(test)]
mod trials;
#[cfg(test)]
mod walks;
#[cfg(test)]
mod wide;
