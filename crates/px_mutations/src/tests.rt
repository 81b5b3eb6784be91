// What no clause says: new vertices settled over disks in memory, and disks of which each call fails in turn.
//
// The store has the vertices up to `LAST`, all of which have halted. Vertex 1 wakes, vertex 30 stays halted with a new value, and one behind the last is new and awake. Nothing was requested.
ghost use Rattle.std.specs.Prelude.{◌≡◌, ◌≤◌, ℕ, true, length, IsTrue, OnOk, IfOk};
ghost use Rattle.px_core.specs.Shown.{Shown};
ghost use Rattle.px_store.specs.Desks.{IsReady};
ghost use Rattle.px_sort_group.specs.Sorted.{takes};
ghost use Rattle.px_mutations.specs.Applying.{AreApart};

use crate::deciding::Deciding;
use crate::{Tally, apply};
use px_btree::BTree;
use px_cache::Cache;
use px_core::{Disk, Stop};
use px_frames::{Bank, Buf, Frame};
use px_memdisk::MemDisk;
use px_pages::tags;
use px_program::Group;
use px_programs::Lesser;
use px_record::VertexBuf;
use px_sort_group::SortGroup;
use px_store::{Desk, Store};
use px_stream::{Head, Reader, Writer};
use px_verdict::PlainVerdict;
use std::alloc::{AllocError, Global};
use std::test::Fail;

// The files of updates, of requests and of live vids.
const UPDATES: u32 = 128;

const REQUESTS: u32 = 160;

const LIVE: u32 = 64;

// More vertices than the cache has frames for.
const LAST: u64 = 60;

// Fills a store with vertices that have halted.
fn fill<St: Store, D: Disk>(
    store: &mut St,
    disk: &mut D,
    desk: &mut Desk,
    v: &mut VertexBuf,
) -> Result<(), Stop>
    requires ready { IsReady St.counted (St.part store.old) desk.old (D.shown disk.old) }
    requires page_len { (D.shown disk.old).page_len ≡ 256 }
    requires room { v.old.room ≡ 112 }
    ensures ready { OnOk result (IsReady St.counted (St.part store.new) desk.new (D.shown disk.new)) }
    ensures page_len { OnOk result ((D.shown disk.new).page_len ≡ 256) }
    ensures room { OnOk result (v.new.room ≡ 112) }
{
    store.start(disk, desk)?;
    for vid in 1..=LAST {
        v.reset(vid);
        v.set_halt(true);
        store.bulk_put(disk, desk, v)?;
    }
    store.bulk_end(disk, desk)
}

// Writes the update of a vid.
fn update<D: Disk>(
    disk: &mut D,
    updates: &mut Writer,
    v: &mut VertexBuf,
    vid: u64,
    halts: bool,
) -> Result<(), Stop>
    requires page_len { (D.shown disk.old).page_len ≡ 256 }
    requires updates_len { updates.old.page_len ≡ 256 }
    requires room { v.old.room ≡ 112 }
    ensures page_len { OnOk result ((D.shown disk.new).page_len ≡ 256) }
    ensures updates_len { OnOk result (updates.new.page_len ≡ 256) }
    ensures room { v.new.room ≡ 112 }
{
    v.reset(vid);
    let _ = v.set_value(&[7]);
    v.set_halt(halts);
    updates.put(disk, vid, tags::VERTEX, v.body())
}

// The numbers of pages of the updates.
fn write_updates<D: Disk>(
    disk: &mut D,
    updates: &mut Writer,
    v: &mut VertexBuf,
) -> Result<u64, Stop>
    requires page_len { (D.shown disk.old).page_len ≡ 256 }
    requires updates_len { updates.old.page_len ≡ 256 }
    requires room { v.old.room ≡ 112 }
    ensures page_len { OnOk result ((D.shown disk.new).page_len ≡ 256) }
    ensures room { OnOk result (v.new.room ≡ 112) }
{
    updates.start(disk)?;
    update(disk, updates, v, 1, false)?;
    update(disk, updates, v, 30, true)?;
    update(disk, updates, v, LAST + 1, false)?;
    updates.finish(disk)?;
    Ok(updates.pages())
}

fn open_desk(alloc: Global) -> Result<Desk, AllocError>
    ensures { IfOk result (λ d. (q : ℕ) (s : Shown) → s.page_len ≡ 256 → IsReady true q d s) }
{
    let mut bank = Bank::open(alloc, 256, &[4, 1], 0)?;
    Ok(Desk {
        cache: Cache::open(bank.lend(0)),
        side: bank.lend(1),
        owner: None,
    })
}

// A group over eight frames and 32 entries.
fn open_group(alloc: Global) -> Result<SortGroup, AllocError>
    ensures frame_len { IfOk result (λ g. g.held.frame_len ≡ 256) }
    ensures first { IfOk result (λ g. g.first ≡ 2) }
    ensures second { IfOk result (λ g. g.second ≡ 3) }
    ensures open { IfOk result (λ g. IsTrue (takes g.stage)) }
{
    let mut bank = Bank::open(alloc, 256, &[8], 32)?;
    let share = bank.lend(0);
    let table = bank.lend_table();
    Ok(SortGroup::open(share, table, 2, 3))
}

// Writes requests: each a vid, and the first byte of its verdict.
fn write_requests<D: Disk>(
    disk: &mut D,
    requests: &mut Writer,
    asked: &[(u64, u8)],
) -> Result<u64, Stop>
    requires page_len { (D.shown disk.old).page_len ≡ 256 }
    requires requests_len { requests.old.page_len ≡ 256 }
    ensures page_len { OnOk result ((D.shown disk.new).page_len ≡ 256) }
{
    requests.start(disk)?;
    for &(vid, kind) in asked {
        requests.put(disk, vid, tags::REQUEST, &[kind, 0, 0, 0, 0, 0, 0, 0])?;
    }
    requests.finish(disk)?;
    Ok(requests.pages())
}

// The frames of a settling, and its files.
#[derive(Drop)]
struct Kit {
    first: VertexBuf,
    second: VertexBuf,
    verdict: Buf,
    spare: Buf,
    updating: Writer,
    asking: Writer,
    updates: Reader,
    requests: Reader,
    vids: Writer,
}

fn open_kit(alloc: Global) -> Result<Kit, AllocError>
    ensures first { IfOk result (λ k. k.first.room ≡ 112) }
    ensures second { IfOk result (λ k. k.second.room ≡ 112) }
    ensures verdict { IfOk result (λ k. k.verdict.limit ≡ 99) }
    ensures spare { IfOk result (λ k. k.spare.limit ≡ 99) }
    ensures updating { IfOk result (λ k. k.updating.page_len ≡ 256) }
    ensures asking { IfOk result (λ k. k.asking.page_len ≡ 256) }
    ensures updates { IfOk result (λ k. k.updates.page_len ≡ 256) }
    ensures requests { IfOk result (λ k. k.requests.page_len ≡ 256) }
    ensures vids { IfOk result (λ k. k.vids.page_len ≡ 256) }
    ensures updates_file { IfOk result (λ k. k.updates.file ≡ 128) }
    ensures requests_file { IfOk result (λ k. k.requests.file ≡ 160) }
    ensures vids_file { IfOk result (λ k. k.vids.file ≡ 64) }
{
    Ok(Kit {
        first: VertexBuf::over(Frame::new(alloc, 256)?, 112),
        second: VertexBuf::over(Frame::new(alloc, 256)?, 112),
        verdict: Buf::over(Frame::new(alloc, 256)?, 99),
        spare: Buf::over(Frame::new(alloc, 256)?, 99),
        updating: Writer::new(Frame::new(alloc, 256)?, UPDATES),
        asking: Writer::new(Frame::new(alloc, 256)?, REQUESTS),
        updates: Reader::new(Frame::new(alloc, 256)?, UPDATES),
        requests: Reader::new(Frame::new(alloc, 256)?, REQUESTS),
        vids: Writer::new(Frame::new(alloc, 256)?, LIVE),
    })
}

// A settling of partition 0 from the front.
fn settle<G: Group, St: Store, GD: Disk, SD: Disk>(
    kit: &mut Kit,
    store: &mut St,
    desk: &mut Desk,
    graph: &mut GD,
    scratch: &mut SD,
    group: &mut G,
    asked: &[(u64, u8)],
) -> Result<Tally, Stop>
    requires first { kit.old.first.room ≡ 112 }
    requires second { kit.old.second.room ≡ 112 }
    requires verdict { kit.old.verdict.limit ≡ 99 }
    requires spare { kit.old.spare.limit ≡ 99 }
    requires updating { kit.old.updating.page_len ≡ 256 }
    requires asking { kit.old.asking.page_len ≡ 256 }
    requires updates { kit.old.updates.page_len ≡ 256 }
    requires requests { kit.old.requests.page_len ≡ 256 }
    requires vids { kit.old.vids.page_len ≡ 256 }
    requires ready { IsReady St.counted (St.part store.old) desk.old (GD.shown graph.old) }
    requires graph { (GD.shown graph.old).page_len ≡ 256 }
    requires scratch { (SD.shown scratch.old).page_len ≡ 256 }
    requires group { (G.made group.old).frame_len ≡ 256 }
    requires open { IsTrue (G.is_open group.old) }
    requires apart { AreApart (G.made group.old) kit.old.updates.file kit.old.requests.file kit.old.vids.file }
    ensures scratch { OnOk result ((SD.shown scratch.new).page_len ≡ 256) }
{
    fill(store, graph, desk, &mut kit.first)?;
    let pages = write_updates(scratch, &mut kit.updating, &mut kit.first)?;
    let asked_pages = write_requests(scratch, &mut kit.asking, asked)?;
    kit.updates.start(pages);
    kit.requests.start(asked_pages);
    kit.vids.start(scratch)?;
    let tally = Tally {
        count: LAST,
        live: 0,
        vid_pages: 0,
    };
    let program = Deciding {
        plain: PlainVerdict,
        lesser: Lesser,
    };
    apply(
        &program,
        &tally,
        store,
        desk,
        graph,
        scratch,
        &mut kit.updates,
        &mut kit.requests,
        &mut kit.vids,
        group,
        &mut kit.first,
        &mut kit.second,
        &mut kit.verdict,
        &mut kit.spare,
    )
}

// The settling over disks of which these calls fail, and the scratch disk.
fn round(
    alloc: Global,
    graph_fail: u64,
    scratch_fail: u64,
    asked: &[(u64, u8)],
) -> Result<(MemDisk, Result<Tally, Stop>), Fail>
    ensures { IfOk result (λ r. OnOk r.1 (r.0.page_len ≡ 256)) }
{
    let mut graph = MemDisk::new(alloc, &[graph_fail])?;
    graph.start(256)?;
    let mut scratch = MemDisk::new(alloc, &[scratch_fail])?;
    scratch.start(256)?;
    let mut store = BTree::open(0);
    let mut desk = open_desk(alloc)?;
    let mut group = open_group(alloc)?;
    let mut kit = open_kit(alloc)?;
    let tally = settle(
        &mut kit,
        &mut store,
        &mut desk,
        &mut graph,
        &mut scratch,
        &mut group,
        asked,
    );
    Ok((scratch, tally))
}

// Whether the file of live vids has these two, and no more.
fn lists(alloc: Global, disk: &mut MemDisk, pages: u64, first: u64, last: u64) -> Result<bool, Fail>
    requires { disk.old.page_len ≡ 256 }
{
    let mut reader = Reader::new(Frame::new(alloc, 256)?, LIVE);
    let mut into = Buf::over(Frame::new(alloc, 256)?, 99);
    reader.start(pages);
    let one = reader.next(disk, &mut into)?;
    let other = reader.next(disk, &mut into)?;
    let end = reader.next(disk, &mut into)?;
    let key = |vid| Some(Head {
        key: vid,
        tag: tags::LIVE_VID,
    });
    Ok(one == key(first) && other == key(last) && end.is_none())
}

#[test]
fn vertices_come_change_and_wake(rt: HostRuntime) -> Result<(), Fail> {
    let alloc = rt.alloc();
    let (mut scratch, tally) = round(alloc, 0, 0, &[])?;
    let want = Tally {
        count: LAST + 1,
        live: 2,
        vid_pages: 1,
    };
    assert_eq!(rt; tally, Ok(want));
    assert!(rt; lists(alloc, &mut scratch, 1, 1, LAST + 1)?);
    Ok(())
}

#[test]
fn requests_keep_set_remove_and_are_too_wide(rt: HostRuntime) -> Result<(), Fail> {
    let alloc = rt.alloc();
    // A vid and its verdict, and how many vertices there are then, and how many of them are awake.
    let cases = [
        ((5, 0), 61, 2),
        ((5, 1), 61, 2),
        ((5, 2), 60, 2),
        ((1, 2), 60, 1),
        ((61, 2), 60, 1),
        ((99, 0), 61, 2),
        ((99, 1), 62, 3),
        ((99, 2), 61, 2),
    ];
    for (asked, count, live) in cases {
        let (_, tally) = round(alloc, 0, 0, &[asked])?;
        let want = Tally {
            count,
            live,
            vid_pages: 1,
        };
        assert_eq!(rt; tally, Ok(want), "{}", asked.0);
    }
    // The lesser of two verdicts counts.
    let (_, tally) = round(alloc, 0, 0, &[(99, 2), (99, 1)])?;
    let count = match tally {
        Ok(tally) => tally.count,
        Err(_) => 0,
    };
    assert_eq!(rt; count, 62);
    let (_, tally) = round(alloc, 0, 0, &[(5, 3)])?;
    assert_eq!(rt; tally, Err(Stop::Beyond));
    Ok(())
}

// How many calls of each disk there are, `start` and those that fill the store among them.
const GRAPH_CALLS: u64 = 19;

const SCRATCH_CALLS: u64 = 9;

#[test]
fn each_call_of_a_disk_fails_in_turn(rt: HostRuntime) -> Result<(), Fail> {
    let alloc = rt.alloc();
    for fail in 2..=GRAPH_CALLS {
        let (_, tally) = round(alloc, fail, 0, &[(5, 2)])?;
        assert_eq!(rt; tally, Err(Stop::Graph), "{fail}");
    }
    for fail in 2..=SCRATCH_CALLS {
        let (_, tally) = round(alloc, 0, fail, &[(5, 2)])?;
        assert_eq!(rt; tally, Err(Stop::Scratch), "{fail}");
    }
    let (_, tally) = round(alloc, GRAPH_CALLS + 1, SCRATCH_CALLS + 1, &[(5, 2)])?;
    assert!(rt; tally.is_ok());
    Ok(())
}
