// Records of a store are loaded, scanned, got and put anew.
ghost use Rattle.std.specs.Prelude.{◌≡◌, ◌≤◌, true, None, OnOk, IfOk};
ghost use Rattle.px_frames.specs.Banks.{IsFrameLen};
ghost use Rattle.px_meaning.specs.Graph.{room_of};
ghost use Rattle.px_store.specs.Desks.{IsReady};

use crate::record::record_of;
use crate::tally::{Tally, number};
use anyhow::Result;
use px_btree::BTree;
use px_cache::Cache;
use px_core::{Disk, Stop, Vid};
use px_frames::Bank;
use px_record::VertexBuf;
use px_store::{Desk, Store};
use std::alloc::{AllocError, Global};
use std::time::{Duration, Instant};

/// What is done with the records of a store.
#[derive(Clone, Copy, PartialEq, Eq)]
pub enum Part {
    /// They are loaded in bulk.
    Load,
    /// They are read in order.
    Scan,
    /// Each is got, ascending.
    Get,
    /// Each is put anew with other bytes of the same size, ascending.
    Same,
    /// Each is put anew with eight bytes more, ascending.
    Grow,
    /// A tenth of them is got in no order.
    Random,
}

/// All parts.
pub const PARTS: [Part; 6] = [
    Part::Load,
    Part::Scan,
    Part::Get,
    Part::Same,
    Part::Grow,
    Part::Random,
];

impl Part {
    /// Its name, behind that of the job.
    pub fn name(self) -> &'static str {
        match self {
            Part::Load => "store load",
            Part::Scan => "store scan",
            Part::Get => "store get",
            Part::Same => "store same",
            Part::Grow => "store grow",
            Part::Random => "store random",
        }
    }
}

/// The part that a word names.
pub fn part_of(word: &str) -> Option<Part> {
    for part in PARTS {
        if part.name().strip_prefix("store ") == Some(word) {
            return Some(part);
        }
    }
    None
}

/// The frames of a cache.
#[derive(Clone, Copy)]
pub enum Frames {
    /// 22 frames of 262,144 bytes.
    Large,
    /// 256 frames of 4,096 bytes.
    Small,
}

impl Frames {
    // The bytes of one.
    fn bytes(self) -> u32
        ensures { IsFrameLen result }
    {
        match self {
            Frames::Large => 262_144,
            Frames::Small => 4_096,
        }
    }

    fn count(self) -> u32
        ensures some { 4 ≤ result }
        ensures few { result ≤ 65536 }
    {
        match self {
            Frames::Large => 22,
            Frames::Small => 256,
        }
    }
}

/// The bytes of a record, and how many more a grown one has.
const SIZE: usize = 40;

const MORE: usize = 8;

/// The bytes of a record before its value.
const FRONT: usize = 9;

/// How far apart the vids are.
const STEP: u64 = 3;

/// A number to spread vids.
const SPREAD: u64 = 7_919;

// Makes it the vertex of a vid whose record has so many bytes, up to 64.
fn make(v: &mut VertexBuf, vid: Vid, size: usize, turn: u64) -> Result<(), Stop>
    ensures room { v.new.room ≡ v.old.room }
{
    let mut value = [0; 64];
    value[..8].copy_from_slice(&(vid ^ turn).to_be_bytes());
    let len = size.saturating_sub(FRONT).min(value.len());
    v.reset(vid);
    match v.set_value(&value[..len]) {
        Ok(()) => Ok(()),
        Err(_) => Err(Stop::Beyond),
    }
}

// The number at the front of a vertex's value, its vid and the bytes of its record.
fn sum_of(v: &VertexBuf) -> u64 {
    let front = match v.value().split_at_checked(8) {
        Some((front, _)) => number(front),
        None => 0,
    };
    v.vid()
        .wrapping_add(front)
        .wrapping_add(v.body().len() as u64)
}

// Loads so many records.
fn load<S: Store, D: Disk>(
    store: &mut S,
    disk: &mut D,
    desk: &mut Desk,
    v: &mut VertexBuf,
    count: u64,
) -> Result<(), Stop>
    requires ready { IsReady S.counted (S.part store.old) desk.old (D.shown disk.old) }
    requires room { v.old.room ≡ room_of (D.shown disk.old).page_len }
    ensures ready { OnOk result (IsReady S.counted (S.part store.new) desk.new (D.shown disk.new)) }
    ensures room { OnOk result (v.new.room ≡ room_of (D.shown disk.new).page_len) }
{
    store.start(disk, desk)?;
    for i in 0..count {
        make(v, i.wrapping_mul(STEP), SIZE, 0)?;
        store.bulk_put(disk, desk, v)?;
    }
    store.bulk_end(disk, desk)?;
    Ok(())
}

// Puts so many records anew.
fn put_all<S: Store, D: Disk>(
    store: &mut S,
    disk: &mut D,
    desk: &mut Desk,
    v: &mut VertexBuf,
    count: u64,
    size: usize,
) -> Result<(), Stop>
    requires ready { IsReady S.counted (S.part store.old) desk.old (D.shown disk.old) }
    requires room { v.old.room ≡ room_of (D.shown disk.old).page_len }
    ensures ready { OnOk result (IsReady S.counted (S.part store.new) desk.new (D.shown disk.new)) }
    ensures room { OnOk result (v.new.room ≡ room_of (D.shown disk.new).page_len) }
{
    for i in 0..count {
        make(v, i.wrapping_mul(STEP), size, 1)?;
        store.put(disk, desk, v)?;
    }
    store.settle(disk, desk)?;
    Ok(())
}

/// Sums all records in order.
pub fn scan<S: Store, D: Disk>(
    store: &mut S,
    disk: &mut D,
    desk: &mut Desk,
    v: &mut VertexBuf,
) -> Result<Tally, Stop>
    requires ready { IsReady S.counted (S.part store.old) desk.old (D.shown disk.old) }
    requires room { v.old.room ≡ room_of (D.shown disk.old).page_len }
    ensures ready { OnOk result (IsReady S.counted (S.part store.new) desk.new (D.shown disk.new)) }
    ensures room { OnOk result (v.new.room ≡ room_of (D.shown disk.new).page_len) }
{
    store.rewind(disk, desk)?;
    let mut tally = Tally::default();
    while store.next(disk, desk, v)? {
        tally.add_next(sum_of(v));
    }
    Ok(tally)
}

// Gets so many records out of `count`, and sums them: the next one stands `by` places further on.
fn get_some<S: Store, D: Disk>(
    store: &mut S,
    disk: &mut D,
    desk: &mut Desk,
    v: &mut VertexBuf,
    count: u64,
    some: u64,
    by: u64,
) -> Result<Tally, Stop>
    requires ready { IsReady S.counted (S.part store.old) desk.old (D.shown disk.old) }
    requires room { v.old.room ≡ room_of (D.shown disk.old).page_len }
    ensures ready { OnOk result (IsReady S.counted (S.part store.new) desk.new (D.shown disk.new)) }
    ensures room { OnOk result (v.new.room ≡ room_of (D.shown disk.new).page_len) }
{
    let mut tally = Tally::default();
    for i in 0..some {
        let vid = (i.wrapping_mul(by) % count.max(1)).wrapping_mul(STEP);
        if store.get(disk, desk, vid, v)? {
            tally.add_next(sum_of(v));
        }
    }
    Ok(tally)
}

/// A desk for a disk, whose cache has so many frames of these bytes.
pub fn desk_of<D: Disk>(alloc: Global, disk: &D, bytes: u32, count: u32) -> Result<Desk, AllocError>
    requires frame_len { IsFrameLen bytes }
    requires page_len { (D.shown disk.now).page_len ≡ bytes }
    requires some { 4 ≤ count }
    requires few { count ≤ 65536 }
    ensures ready { IfOk result (λ desk. IsReady true 0 desk (D.shown disk.now)) }
    ensures owner { IfOk result (λ desk. desk.owner ≡ None) }
{
    let mut bank = Bank::open(alloc, bytes, &[count, 0], 0)?;
    let cache = Cache::open(bank.lend(0));
    let side = bank.lend(1);
    Ok(Desk {
        cache,
        side,
        owner: None,
    })
}

/// A store that holds nothing.
pub fn open_store() -> BTree
    ensures { result.tree.part ≡ 0 }
{
    BTree::open(0)
}

// Loads the records, where the part is not to do so.
fn prepare<S: Store, D: Disk>(
    store: &mut S,
    disk: &mut D,
    desk: &mut Desk,
    v: &mut VertexBuf,
    part: Part,
    count: u64,
) -> Result<(), Stop>
    requires ready { IsReady S.counted (S.part store.old) desk.old (D.shown disk.old) }
    requires room { v.old.room ≡ room_of (D.shown disk.old).page_len }
    ensures ready { OnOk result (IsReady S.counted (S.part store.new) desk.new (D.shown disk.new)) }
    ensures room { OnOk result (v.new.room ≡ room_of (D.shown disk.new).page_len) }
{
    if part == Part::Load {
        return Ok(());
    }
    load(store, disk, desk, v, count)
}

// Does a part of the work with a store that was loaded, or loads it. Putting comes to nothing yet.
fn work<S: Store, D: Disk>(
    store: &mut S,
    disk: &mut D,
    desk: &mut Desk,
    v: &mut VertexBuf,
    part: Part,
    count: u64,
) -> Result<Tally, Stop>
    requires ready { IsReady S.counted (S.part store.old) desk.old (D.shown disk.old) }
    requires room { v.old.room ≡ room_of (D.shown disk.old).page_len }
    ensures ready { OnOk result (IsReady S.counted (S.part store.new) desk.new (D.shown disk.new)) }
    ensures room { OnOk result (v.new.room ≡ room_of (D.shown disk.new).page_len) }
{
    match part {
        Part::Load => load(store, disk, desk, v, count)?,
        Part::Same => put_all(store, disk, desk, v, count, SIZE)?,
        Part::Grow => put_all(store, disk, desk, v, count, SIZE + MORE)?,
        Part::Scan => return scan(store, disk, desk, v),
        Part::Get => return get_some(store, disk, desk, v, count, count, 1),
        Part::Random => return get_some(store, disk, desk, v, count, count / 10, SPREAD),
    }
    Ok(Tally::default())
}

// Does a part of the work. The seconds are those of the part alone.
fn time_part<S: Store, D: Disk>(
    rt: &HostRuntime,
    store: &mut S,
    disk: &mut D,
    desk: &mut Desk,
    v: &mut VertexBuf,
    part: Part,
    count: u64,
) -> Result<(Tally, Duration)>
    requires ready { IsReady S.counted (S.part store.old) desk.old (D.shown disk.old) }
    requires room { v.old.room ≡ room_of (D.shown disk.old).page_len }
{
    prepare(store, disk, desk, v, part, count)?;
    let start = Instant::now(rt)?;
    let done = work(store, disk, desk, v, part, count)?;
    let spent = start.elapsed(rt)?;
    if part == Part::Scan || part == Part::Get || part == Part::Random {
        return Ok((done, spent));
    }
    Ok((scan(store, disk, desk, v)?, spent))
}

/// Does a part of the work with so many records on a disk.
pub fn run<D: Disk>(
    rt: &HostRuntime,
    disk: &mut D,
    frames: Frames,
    part: Part,
    count: u64,
) -> Result<(Tally, Duration)> {
    let bytes = frames.bytes();
    disk.start(bytes)?;
    let mut desk = desk_of(rt.alloc(), disk, bytes, frames.count())?;
    let mut v = record_of(rt.alloc(), bytes)?;
    let mut store = open_store();
    time_part(rt, &mut store, disk, &mut desk, &mut v, part, count)
}
