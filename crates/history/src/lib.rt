// The state of a tree sheet; in specs/, what a sheet holds, what each call makes of it, and what a history of calls leaves standing.
#![tactic(auto)]

mod state;

pub use state::{Action, State};
