//! The outside of px: where text comes from and goes to, disks of page files, and whose turn it is.
#![tactic(auto)]

mod disk;
mod memory;
mod script;
mod sink;
mod source;
mod stop;
mod turns;
mod vid;

pub use disk::Disk;
pub use memory::{MemSink, MemSource};
pub use script::Script;
pub use sink::{Sink, write_all};
pub use source::Source;
pub use stop::{Failed, Stop};
pub use turns::{HighTurns, ListTurns, SeedTurns, Turns};
pub use vid::{Vid, part_of};

#[cfg(test)]
mod tests;
