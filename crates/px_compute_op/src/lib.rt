//! The compute phase of one partition.
#![tactic(auto)]

mod outs;
mod phase;
mod row;

pub use phase::{Bench, run_partition};

#[cfg(test)]
mod tests;
