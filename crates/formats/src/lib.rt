// The byte formats: reading a noisy table or loading it onto a shape, writing a tree publication, and cutting one node out of it.
#![tactic(auto)]

mod body;
mod cutting;
mod header;
mod load;
mod publication;
mod read;

pub use body::check_body;
pub use cutting::{Part, cut};
pub use header::{Header, read_header};
pub use load::load_table;
pub use publication::{publication_length, write_publication};
pub use read::read_table;

#[cfg(test)]
mod tests;
