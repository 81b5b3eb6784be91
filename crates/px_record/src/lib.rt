//! A vertex in the bytes that it is stored as, held in one frame.
#![tactic(auto)]

mod body;
mod vertex;

pub use vertex::{FRONT, VertexBuf};

#[cfg(test)]
mod tests;
