// Tests of the cabinet and its words under threads, and of the calls that follow one another.
mod boards;
mod crowds;
mod holding;
mod marking;
mod notes;
mod steps;
