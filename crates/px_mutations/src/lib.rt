//! The settling of a partition: its new vertices and what was decided on its vids go into its store.
#![tactic(auto)]

mod applying;
mod effects;
mod settling;
mod turns;

pub use applying::{Tally, apply};

#[cfg(test)]
mod deciding;
#[cfg(test)]
mod tests;
