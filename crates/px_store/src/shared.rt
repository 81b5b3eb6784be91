// A desk.
use px_cache::Cache;
use px_frames::Share;

/// What the stores of all partitions share: a cache of the graph disk, frames beside it, and the partition that has
/// something of its own in them.
#[derive(Drop)]
pub struct Desk {
    pub cache: Cache,
    pub side: Share,
    pub owner: Option<u32>,
}
