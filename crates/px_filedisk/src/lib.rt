//! A disk of real files in a folder.
#![tactic(auto)]

mod block;
mod disk;
mod files;
mod folder;

pub use disk::FileDisk;

#[cfg(test)]
mod tests;
