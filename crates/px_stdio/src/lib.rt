//! Standard input, output and error as a source and sinks, over any reader and writer of std.
#![tactic(auto)]

mod input;
mod output;

pub use input::Input;
pub use output::Output;

/// How often a call is made that is always interrupted.
const TRIES: u32 = 1000;

#[cfg(test)]
mod tests;
