//! How messages go from those who send them to those who receive them.
#![tactic(auto)]

mod connector;
mod gathering;
mod partitioning;
mod readers;
mod requests;
mod writers;

pub use connector::Connector;
pub use gathering::{gather, take_pairs};
pub use partitioning::Partitioning;
pub use requests::Requests;
pub use writers::{MOST_PARTS, PartWriters};

#[cfg(test)]
mod tests;
