// The lines of a listing, and the nearest whole number that they print.
#![tactic(auto)]

mod line;
mod lines;
mod node;
mod rounding;

pub use line::Line;
pub use lines::{first_line, first_line_text, refusal_line, refusal_line_text};
pub use node::{node_line, node_line_text};
pub use rounding::nearest;

#[cfg(test)]
mod tests;
