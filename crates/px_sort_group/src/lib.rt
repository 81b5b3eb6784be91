//! Sort grouping: pairs are held in frames, sorted by vid, and spilled as ascending runs of partial folds.
#![tactic(auto)]

mod folds;
mod held;
mod reading;
mod sorting;
mod writing;

pub use sorting::SortGroup;

#[cfg(test)]
mod tests;
