//! Graph text: its vertices one by one, read through one frame.
#![tactic(auto)]

mod generator;
mod line;
mod parser;
mod refusal;

pub use generator::GenSource;
pub use parser::Parser;
pub use refusal::{Kind, TextStop};

#[cfg(test)]
mod tests;
