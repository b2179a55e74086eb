// The solver: the upward and the downward pass over slices of cells, for every kind.
#![tactic(auto)]

mod arith;
mod counts;
mod finish;
mod gathered;
mod lower;
mod node;
mod raise;
mod solution;

pub use solution::solve;
