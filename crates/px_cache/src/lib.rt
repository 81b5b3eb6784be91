//! Pages of files, held in frames.
#![tactic(auto)]

mod cache;
mod note;
#[cfg(test)]
mod tests;

pub use cache::Cache;
pub use note::Note;
