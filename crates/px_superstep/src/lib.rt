//! The job, and its superstep.
#![tactic(auto)]

mod applying;
mod benches;
mod compute;
mod counting;
mod delivery;
mod gather;
mod job;
mod line;
mod load_tools;
mod opening;
mod parts;
mod plan;
mod running;
mod settling;
mod sharing;
mod stats;
mod superstep;
mod tools;

pub use job::Job;
pub use line::Line;
pub use opening::open_bank;
pub use plan::{ConnectorKind, End, GroupKind, JoinKind, Plan, Setup, Shares, StoreKind};
pub use px_mutations::Tally;
pub use running::run_job;
pub use sharing::{need, shares};
pub use stats::Stats;

#[cfg(test)]
mod tests;
