// What no clause says: trees over a disk in memory that were filled in bulk, called as any store.
ghost use Rattle.std.specs.Prelude.{◌≡◌, ℕ, length, true, OnOk, IfOk};
ghost use Rattle.px_core.specs.Shown.{Shown};
ghost use Rattle.px_meaning.specs.Graph.{room_of};
ghost use Rattle.px_store.specs.Desks.{IsReady};

use crate::BTree;
use px_cache::Cache;
use px_core::{Disk, Stop};
use px_frames::Bank;
use px_memdisk::MemDisk;
use px_record::VertexBuf;
use px_store::{Desk, Store};
use std::alloc::{AllocError, Global};
use std::test::Fail;

// A desk whose cache has four frames.
fn open_desk(alloc: Global) -> Result<Desk, AllocError>
    ensures { IfOk result (λ d. (q : ℕ) (s : Shown) → s.page_len ≡ 256 → IsReady true q d s) }
{
    let mut bank = Bank::open(alloc, 256, &[4, 1], 0)?;
    Ok(Desk {
        cache: Cache::open(bank.lend(0)),
        side: bank.lend(1),
        owner: None,
    })
}

// A record for a vertex.
fn open_vertex(alloc: Global) -> Result<VertexBuf, AllocError>
    ensures { IfOk result (λ v. v.room ≡ 112) }
{
    let mut bank = Bank::open(alloc, 256, &[1], 0)?;
    Ok(VertexBuf::over(bank.lend(0).take(), 112))
}

// Fills a store with the fresh vertices of the vids below `count`.
fn fill<St: Store, D: Disk>(
    store: &mut St,
    disk: &mut D,
    desk: &mut Desk,
    v: &mut VertexBuf,
    count: u64,
) -> Result<(), Stop>
    requires ready { IsReady St.counted (St.part store.old) desk.old (D.shown disk.old) }
    requires room { v.old.room ≡ room_of (D.shown disk.old).page_len }
    ensures ready { OnOk result (IsReady St.counted (St.part store.new) desk.new (D.shown disk.new)) }
    ensures room { OnOk result (v.new.room ≡ room_of (D.shown disk.new).page_len) }
{
    store.start(disk, desk)?;
    for vid in 0..count {
        v.reset(vid);
        store.bulk_put(disk, desk, v)?;
    }
    store.bulk_end(disk, desk)
}

// How many vids from 0 on it gives, each one more than that before.
fn scan<St: Store, D: Disk>(
    store: &mut St,
    disk: &mut D,
    desk: &mut Desk,
    v: &mut VertexBuf,
) -> Result<u64, Stop>
    requires ready { IsReady St.counted (St.part store.old) desk.old (D.shown disk.old) }
    requires room { v.old.room ≡ room_of (D.shown disk.old).page_len }
    ensures ready { OnOk result (IsReady St.counted (St.part store.new) desk.new (D.shown disk.new)) }
    ensures room { OnOk result (v.new.room ≡ room_of (D.shown disk.new).page_len) }
{
    store.rewind(disk, desk)?;
    let mut seen = 0u64;
    while store.next(disk, desk, v)? {
        if v.vid() != seen {
            return Ok(u64::MAX);
        }
        seen = seen.wrapping_add(1);
    }
    Ok(seen)
}

// How many of the vids below `count` are there.
fn probe<St: Store, D: Disk>(
    store: &mut St,
    disk: &mut D,
    desk: &mut Desk,
    v: &mut VertexBuf,
    count: u64,
) -> Result<u64, Stop>
    requires ready { IsReady St.counted (St.part store.old) desk.old (D.shown disk.old) }
    requires room { v.old.room ≡ room_of (D.shown disk.old).page_len }
{
    let mut found = 0u64;
    for vid in 0..count {
        if store.get(disk, desk, vid, v)? {
            found = found.wrapping_add(1);
        }
    }
    Ok(found)
}

// How many vids a tree that was filled with so many gives, how many are found, and its depth.
fn load(alloc: Global, count: u64) -> Result<(u64, u64, u32), Fail> {
    let mut disk = MemDisk::new(alloc, &[])?;
    disk.start(256)?;
    let mut desk = open_desk(alloc)?;
    let mut v = open_vertex(alloc)?;
    let mut tree = BTree::open(0);
    fill(&mut tree, &mut disk, &mut desk, &mut v, count)?;
    let seen = scan(&mut tree, &mut disk, &mut desk, &mut v)?;
    let found = probe(&mut tree, &mut disk, &mut desk, &mut v, count)?;
    Ok((seen, found, tree.depth()))
}

#[test]
fn what_is_filled_in_is_scanned_and_found(rt: HostRuntime) -> Result<(), Fail> {
    assert_eq!(rt; load(rt.alloc(), 0)?, (0, 0, 1));
    assert_eq!(rt; load(rt.alloc(), 1)?, (1, 1, 1));
    assert_eq!(rt; load(rt.alloc(), 2)?, (2, 2, 1));
    assert_eq!(rt; load(rt.alloc(), 11)?, (11, 11, 2));
    assert_eq!(rt; load(rt.alloc(), 1000)?, (1000, 1000, 4));
    Ok(())
}

// What filling answers where this call of the disk fails.
fn fill_failing(alloc: Global, call: u64) -> Result<Result<(), Stop>, Fail> {
    let mut disk = MemDisk::new(alloc, &[call])?;
    disk.start(256)?;
    let mut desk = open_desk(alloc)?;
    let mut v = open_vertex(alloc)?;
    let mut tree = BTree::open(0);
    Ok(fill(&mut tree, &mut disk, &mut desk, &mut v, 400))
}

#[test]
fn a_failing_call_of_the_disk_is_graph(rt: HostRuntime) -> Result<(), Fail> {
    for call in 2..60 {
        assert_eq!(rt; fill_failing(rt.alloc(), call)?, Err(Stop::Graph));
    }
    Ok(())
}
