// Refusals: why a call is denied, with the number that the outside sees, and the place that it concerns.
#![tactic(auto)]

mod denial;
mod reason;

pub use denial::Denial;
pub use reason::Reason;
