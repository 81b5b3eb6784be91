//! Runs: ascending lists of tuples are put one after the other, and given back as one ascending list, however many they were.
//! They lie in two files of a disk, and are merged in passes between the two, at most 32 at a time.
#![tactic(auto)]

mod heading;
mod input;
mod least;
mod opening;
mod runs;

pub use runs::Runs;

#[cfg(test)]
mod tests;
