//! Files of tuples over a disk: a writer puts a list of tuples into a file, and a reader gives it back in order.
//! Each has one frame, as long as the disk's pages. The pages are those of px_pages, of the kind `STREAM`.
#![tactic(auto)]

mod paging;
mod reader;
mod writer;

pub use reader::{Head, Reader};
pub use writer::Writer;

#[cfg(test)]
mod tests;
