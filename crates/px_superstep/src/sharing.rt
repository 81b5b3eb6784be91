// The frames that a plan needs, and how all frames are shared out.
ghost use Rattle.std.specs.Prelude.{◌≡◌, ◌≤◌};
ghost use Rattle.px_superstep.specs.Plans.{needed, shared, total, lsm_frames as lsm_frames_of};

use crate::plan::{Plan, Shares, StoreKind};

/// The least number of frames for a plan.
pub fn need(plan: &Plan, partitions: u32) -> u32
    requires some { 1 ≤ partitions }
    requires most { partitions ≤ 16 }
    ensures { result ≡ needed plan.now partitions }
{
    22 + 2 * partitions + lsm_frames(plan.store)
}

// The frames that a store of this kind has beside the cache.
fn lsm_frames(store: StoreKind) -> u32
    ensures value { result ≡ lsm_frames_of store }
    ensures few { result ≤ 10 }
{
    match store {
        StoreKind::BTree => 0,
        StoreKind::Lsm => 10,
    }
}

/// How so many frames are shared out. Of what is over the need the group gets about a half, and the cache the rest.
pub fn shares(plan: &Plan, partitions: u32, frames: u32) -> Shares
    requires some { 1 ≤ partitions }
    requires most { partitions ≤ 16 }
    requires least { needed plan.now partitions ≤ frames }
    requires frames_most { frames ≤ 65536 }
    ensures shares { result ≡ shared plan.now partitions frames }
    ensures total { total result ≡ frames }
{
    let over = frames - need(plan, partitions);
    let more = over / 4 * 2;
    Shares {
        work: 4,
        streams: 6,
        out: 2 * partitions,
        group: 8 + more,
        cache: 4 + (over - more),
        lsm: lsm_frames(plan.store),
    }
}
