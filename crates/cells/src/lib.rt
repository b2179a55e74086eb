// Cells: a row of whole numbers that stands at one node, in several kinds behind one set of calls.
#![tactic(auto)]

mod admission;
mod cell_kind;
mod components;
mod four;
mod kind;
mod pair;
mod single;
#[cfg(test)]
mod tests;

pub use cell_kind::{CellKind, UnknownKind};
pub use components::Components;
pub use four::Four;
pub use kind::{CARRY_LIMIT, Kind};
pub use pair::Pair;
pub use single::Single;
