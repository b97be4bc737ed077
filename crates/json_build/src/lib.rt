//! JSON made part by part, by the kit's `serde_json`, and its text.
//!
//! Objects and lists are made by adding to them. The layer above may rely on it that a value is the one of its parts, in the terms in which
//! `serde_json` defines data, and that its text reads back as the value.
#![tactic(auto)]

mod fields;
mod items;
mod values;

pub use fields::Fields;
pub use items::Items;
pub use serde_json::Value;
pub use values::{address, name, number, text, text_of};
