//! Stores of vertices, which share a desk, and their joins with messages.
#![tactic(auto)]

mod join;
mod shared;
mod store;

pub use join::{Inputs, Join, Row};
pub use shared::Desk;
pub use store::Store;

#[cfg(test)]
mod tests;
