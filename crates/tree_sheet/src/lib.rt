// The tree sheet: the calls of a table of counts over slices that the caller lends.
#![tactic(auto)]

mod call;
mod enter;
mod laid;
mod lay;
mod line;
mod load;
mod making;
mod marks;
mod read;
mod release;
mod room;
mod runs;
mod sheet;
mod zeros;

pub use call::{Answer, Call, Outcome};
pub use runs::replay;
pub use sheet::Sheet;
pub use zeros::zero_cells;
