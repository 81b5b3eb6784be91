//! A B-tree of vertices on the pages of one partition.
#![tactic(auto)]

mod apart;
mod btree;
mod bulk;
mod cursor;
mod descent;
mod filled;
mod fresh;
mod grow;
mod inner;
mod insert;
mod leaf;
mod locate;
mod open_leaf;
mod page;
mod reading;
mod split;
mod store;
mod tree;
mod writing;

pub use btree::BTree;

#[cfg(test)]
mod bulk_tests;
#[cfg(test)]
mod tests;
#[cfg(test)]
mod tests_apart;
#[cfg(test)]
mod tests_growing;
