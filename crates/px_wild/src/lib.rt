//! Tests alone: every public call that takes a disk returns over disks that tell nothing and answer anything.
#![tactic(auto)]

#[cfg(test)]
mod tests;
