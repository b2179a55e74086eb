// The shapes of complete trees: which there are, where their nodes lie, and their common denominators.
#![tactic(auto)]

mod laid;
mod places;
mod shape;
mod table;

pub use shape::Shape;

#[cfg(test)]
mod tests;
