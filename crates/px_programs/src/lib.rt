//! The programs, and the combiners of their messages.
#![tactic(auto)]

mod along;
mod chain_messages;
mod chain_text;
mod chains;
mod close;
mod components;
mod empty;
mod entries;
mod lesser;
mod numbers;
mod pagerank;
mod plain;
mod prune;
mod reach;
mod reverse;
mod sssp;
mod sum;

pub use chain_messages::ChainMessages;
pub use chains::{Chains, ChainsTable};
pub use close::{Close, CloseTable};
pub use components::{Components, ComponentsTable};
pub use empty::Empty;
pub use entries::Entries;
pub use lesser::Lesser;
pub use pagerank::{PageRank, PageRankTable};
pub use plain::{Plain, PlainProgram};
pub use prune::{Prune, PruneTable};
pub use reach::{Reach, ReachTable};
pub use reverse::{Reverse, ReverseTable};
pub use sssp::{Sssp, SsspTable};
pub use sum::Sum;

#[cfg(test)]
mod tests;
