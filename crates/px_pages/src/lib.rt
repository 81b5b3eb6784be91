//! Pages of tuples: a page has a header and tuples of a key, a tag and a body.
#![tactic(auto)]

mod edit;
mod header;
mod inner;
pub mod kinds;
mod place;
mod reader;
pub mod tags;
mod writer;
mod zero;

pub use edit::{insert, keep_back, keep_front, remove, replace};
pub use header::{count, kind, link, put_counts, set_link, used};
pub use inner::{Child, child_at, child_count, children_to};
pub use place::{Place, find, find_end, find_from};
pub use reader::{PageReader, Tuple};
pub use writer::{PageWriter, put_entry, room};

#[cfg(test)]
mod tests;
