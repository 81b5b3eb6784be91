//! Runs by plan: a setup's plan chooses the kinds of join, grouping, connector and store.
#![tactic(auto)]

mod arms;

pub use arms::dispatch;
pub use px_superstep::{
    ConnectorKind, End, GroupKind, JoinKind, Plan, Setup, Shares, StoreKind, need, shares,
};

#[cfg(test)]
mod tests;
