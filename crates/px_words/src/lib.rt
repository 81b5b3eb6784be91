//! The words of the command line: what job they ask for, or that they are refused.
#![tactic(auto)]

mod job;
mod options;
mod read;
mod screen;

pub use job::{Chosen, Job};
pub use read::read_words;

#[cfg(test)]
mod tests;
