// Tests of the pure machine, and of the running one beside it.
mod beside;
mod churn;
mod composites;
mod draws;
mod events;
mod machines;
mod plain;
mod replays;
mod tallies;
