//! The full outer join of a store with the messages to its vids: a scan of the store beside the messages.
#![tactic(auto)]

mod due;
mod outer;

pub use outer::OuterJoin;

#[cfg(test)]
mod tests;
