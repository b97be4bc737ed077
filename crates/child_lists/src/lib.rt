//! The children of each region of a forest, in the order of search.
//!
//! A forest says of each region which container it is a child of. `ChildLists` is made of it once, in one pass over the
//! regions, and then tells of each region its children in the order in which a search tries them. The layer above may rely
//! on it that they are those that `children_of` of `mem_base` gives. It stands over a forest that was published, where
//! no tree that is being changed is at hand.
#![tactic(auto)]

mod lists;
mod siblings;

pub use lists::ChildLists;
pub use siblings::Sibling;
