//! The default requests: to delete a vertex, to insert one, or both.
#![tactic(auto)]

pub mod laws;
mod longest;
mod verdict;

pub use longest::is_longer;
pub use verdict::{DELETE, INSERT_FRESH, PlainVerdict, settle};

#[cfg(test)]
mod tests;
