//! Laws of races: their history is one of turns, without a block they are runs, and how a race goes on: what a runner keeps from one
//! phase to the next, what it shows of each, and how a race that stopped could have gone on.
//!
//! Each law is the contract of a function that does nothing. The definitions of races stand in `mem_base`.
#![tactic(auto)]

mod acting;
mod outside;
mod races;
mod so_far;
mod stopped;

pub use acting::{desk_acts, lines_do, pass_acts};
pub use outside::{
    desk_line_is_phase, desk_line_stops, faults_write, has_phases, orders_fit, pass_line_is_phase,
    publish_stands, record_tells,
};
pub use races::{outside_is_run, race_has_turns, race_is_run};
pub use so_far::{race_starts, race_stops, race_takes_phase};
pub use stopped::{
    actors_make_phase, race_goes_on, races_exist, stopped_actors_go_on, stopped_race_goes_on,
};
