// Vertices by number, and their partitions.
ghost use Rattle.std.specs.Prelude.{◌≡◌, ◌≤◌, ◌<◌};
ghost use Rattle.px_core.specs.Partition.{partition_of};

/// The number of a vertex.
pub type Vid = u64;

// 2^64 over the golden ratio, made odd.
const MULTIPLIER: u64 = 11_400_714_819_323_198_485;

/// The partition that a vertex lies in, from 0.
#[tactic(auto, unfolding(crate::specs::Partition::partition_of))]
pub fn part_of(vid: Vid, partitions: u32) -> u32
    requires some { 1 ≤ partitions }
    requires most { partitions ≤ 16 }
    ensures value { result ≡ partition_of vid partitions }
    ensures below { result < partitions }
{
    let upper = vid.wrapping_mul(MULTIPLIER) >> 32;
    upper as u32 % partitions
}
