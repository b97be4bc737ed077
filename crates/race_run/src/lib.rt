//! The run of a script on the running machine, with the actors of its block beside one another.
//!
//! All sixteen virtual CPUs are handed out, the lines before the block, the block and the lines after it are done, and each virtual
//! CPU leaves and is taken in. The layer above may rely on it that the text is one of the script for the very history that the
//! cabinet then has; that a script without a block has the text of its run; and of a race that stopped, that it could have gone on.
#![tactic(auto)]

mod closing;
mod opening;
mod phases;
mod racers;
mod races;

pub use epoch_rule::Cabinet;
pub use generation::Generation;
pub use race_inside::Config;
pub use races::race;
pub use script_run::RunFault;
