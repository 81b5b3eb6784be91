//! A disk in memory, of which some calls fail, and a disk that tells nothing.
#![tactic(auto)]

mod files;
mod memory;
mod tally;
mod wild;

pub use memory::MemDisk;
pub use wild::WildDisk;

#[cfg(test)]
mod tests;
