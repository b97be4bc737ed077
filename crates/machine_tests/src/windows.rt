// Tests of windows on the running machine.
mod held;
mod leaves;
mod lines;
mod movers;
