//! From a graph text into the stores, and from the stores to the output text. Both sort more than fits in frames, by files of a scratch disk.
#![tactic(auto)]

mod dump_stops;
mod dumping;
mod filling;
mod framed;
mod frames;
mod gathering;
mod heads;
mod held;
mod loading;
mod parting;
mod printing;
mod scanning;
mod stops;

pub use dumping::dump;
pub use frames::LoadFrames;
pub use loading::load;
pub use stops::{DumpStop, LoadStop};

#[cfg(test)]
mod dump_tests;
#[cfg(test)]
mod tests;
