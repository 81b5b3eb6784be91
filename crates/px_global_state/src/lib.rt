//! The numbers of a run between two supersteps, and those that the partitions of a superstep make.
#![tactic(auto)]

mod gs;
mod part;

pub use gs::Gs;
pub use part::{Part, join_parts, no_part};

#[cfg(test)]
mod tests;
