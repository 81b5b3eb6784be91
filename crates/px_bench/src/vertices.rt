// The vertices of a partition, each with three edges.
ghost use Rattle.std.specs.Prelude.{◌≡◌, ◌-◌, ◌/◌, OnOk};
ghost use Rattle.px_meaning.specs.Graph.{room_of};
ghost use Rattle.px_record.specs.Held.{IsRoomOf};
ghost use Rattle.px_store.specs.Desks.{IsReady};

use crate::rank::push_record;
use crate::record::record_of;
use anyhow::Result;
use px_core::{Disk, Stop, Vid};
use px_record::VertexBuf;
use px_store::{Desk, Store};
use std::alloc::Global;

/// The edges of each vertex.
pub const EDGES: u64 = 3;

/// A number to spread edges.
const SPREAD: u64 = 0x9E37_79B9_7F4A_7C15;

/// Where edge number i of all goes, of so many vids.
pub fn target_of(i: u64, count: u64) -> Vid {
    let mixed = i.wrapping_mul(SPREAD);
    let mixed = (mixed ^ (mixed >> 32)).wrapping_mul(SPREAD);
    (mixed >> 32) % count.max(1)
}

// Makes it the vertex of a vid among so many.
fn make(v: &mut VertexBuf, vid: Vid, count: u64) -> Result<(), Stop>
    ensures room { v.new.room ≡ v.old.room }
{
    v.reset(vid);
    if v.set_value(&vid.to_be_bytes()).is_err() {
        return Err(Stop::Beyond);
    }
    for edge in 0..EDGES {
        let i = vid.wrapping_mul(EDGES).wrapping_add(edge);
        if v.push_edge(target_of(i, count), 1).is_err() {
            return Err(Stop::Beyond);
        }
    }
    Ok(())
}

/// Loads so many vertices.
pub fn load<S: Store, D: Disk>(
    store: &mut S,
    disk: &mut D,
    desk: &mut Desk,
    v: &mut VertexBuf,
    count: u64,
) -> Result<(), Stop>
    requires ready { IsReady S.counted (S.part store.old) desk.old (D.shown disk.old) }
    requires room { v.old.room ≡ room_of (D.shown disk.old).page_len }
    ensures ready { OnOk result (IsReady S.counted (S.part store.new) desk.new (D.shown disk.new)) }
    ensures page_len { OnOk result ((D.shown disk.new).page_len ≡ (D.shown disk.old).page_len) }
    ensures room { OnOk result (v.new.room ≡ room_of (D.shown disk.new).page_len) }
{
    store.start(disk, desk)?;
    for vid in 0..count {
        make(v, vid, count)?;
        store.bulk_put(disk, desk, v)?;
    }
    store.bulk_end(disk, desk)?;
    Ok(())
}

/// The records of so many vertices, one behind the other.
pub fn build(alloc: Global, frame_bytes: u32, count: u64) -> Result<Vec<u8>>
    requires { IsRoomOf (frame_bytes / 2 - 16) frame_bytes }
{
    let mut records = Vec::new(alloc);
    let mut v = record_of(alloc, frame_bytes)?;
    for vid in 0..count {
        make(&mut v, vid, count)?;
        push_record(&mut records, &v)?;
    }
    Ok(records)
}
