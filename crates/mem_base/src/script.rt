// The script language.

pub mod changes;
pub mod commands;
pub mod faults;
pub mod places;
pub mod tasks;
pub mod words;
