//! A picture of a view: which leaf answers each address, and the windows of the tree over one another.
//!
//! The rows of a picture go over all addresses of 64 bits, each once and in order: the ranges of the view, and the holes
//! between them. How it is drawn, as text or as SVG, is told from the rows.
#![tactic(auto)]

mod layout;
mod rows;
mod shapes;
mod svg;
mod texts;
mod windows;

pub use rows::{Row, rows_of};
pub use svg::add_svg;
pub use texts::add_picture;
pub use windows::{Window, windows_of};
