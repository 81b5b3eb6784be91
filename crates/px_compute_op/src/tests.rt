// What no clause says: a phase of a program over disks in memory, and disks of which each call fails in turn.
//
// The store has vertex 1 with an edge to vid 2, and vertices behind it that have halted. Nothing was sent before, and the program is `Reach` from vertex 1.
ghost use Rattle.std.specs.Prelude.{◌≡◌, ◌≤◌, [], ℕ, List, true, length, IsTrue, OnOk, IfOk};
ghost use Rattle.px_core.specs.Shown.{Shown};
ghost use Rattle.px_store.specs.Desks.{IsReady};
ghost use Rattle.px_store.specs.declared.join.Inputs.{Inputs as InputFiles};
ghost use Rattle.px_sort_group.specs.Sorted.{made_sort, takes};
ghost use Rattle.px_compute_op.specs.Phase.{AreApart, IsBench};

use crate::{Bench, run_partition};
use px_btree::BTree;
use px_cache::Cache;
use px_connectors::{Connector, Partitioning, Requests};
use px_core::{Disk, Stop};
use px_frames::{Bank, Buf, Frame, Share};
use px_global_state::{Gs, Part};
use px_memdisk::MemDisk;
use px_outer_join::OuterJoin;
use px_pages::tags;
use px_program::Group;
use px_programs::Reach;
use px_record::VertexBuf;
use px_sort_group::SortGroup;
use px_store::{Desk, Inputs, Join, Store};
use px_stream::{Head, Reader, Writer};
use std::alloc::{AllocError, Global};
use std::test::Fail;

// The file of updates.
const UPDATES: u32 = 128;

// The file from sender 0 to receiver 0.
const SENT: u32 = 256;

const INPUTS: Inputs = Inputs {
    msg_file: 16,
    msg_pages: 0,
    vid_file: 64,
    vid_pages: 0,
};

// The vertices are those up to this vid: more than the cache has frames for.
const LAST: u64 = 60;

// What vertex 1 has, before the phase or after it.
fn set_vertex(v: &mut VertexBuf, value: &[u8], halts: bool)
    ensures room { v.new.room ≡ v.old.room }
    ensures len { v.new.frame_len ≡ v.old.frame_len }
{
    v.reset(1);
    let _ = v.set_value(value);
    let _ = v.push_edge(2, 5);
    v.set_halt(halts);
}

// Fills a store with the vertices.
fn fill<St: Store, D: Disk>(
    store: &mut St,
    disk: &mut D,
    desk: &mut Desk,
    v: &mut VertexBuf,
) -> Result<(), Stop>
    requires ready { IsReady St.counted (St.part store.old) desk.old (D.shown disk.old) }
    requires page_len { (D.shown disk.old).page_len ≡ 256 }
    requires room { v.old.room ≡ 112 }
    requires len { v.old.frame_len ≡ 256 }
    ensures ready { OnOk result (IsReady St.counted (St.part store.new) desk.new (D.shown disk.new)) }
    ensures page_len { OnOk result ((D.shown disk.new).page_len ≡ 256) }
    ensures room { OnOk result (v.new.room ≡ 112) }
    ensures len { OnOk result (v.new.frame_len ≡ 256) }
{
    store.start(disk, desk)?;
    set_vertex(v, b"", false);
    store.bulk_put(disk, desk, v)?;
    for vid in 2..=LAST {
        v.reset(vid);
        v.set_halt(true);
        store.bulk_put(disk, desk, v)?;
    }
    store.bulk_end(disk, desk)
}

// A phase of partition 0 from the front.
fn run_all<J: Join, G: Group, C: Connector, St: Store, GD: Disk, SD: Disk>(
    join: &mut J,
    store: &mut St,
    desk: &mut Desk,
    graph: &mut GD,
    scratch: &mut SD,
    connector: &mut C,
    requests: &mut Requests,
    bench: &mut Bench<G>,
) -> Result<Part, Stop>
    requires ready { IsReady St.counted (St.part store.old) desk.old (GD.shown graph.old) }
    requires graph { (GD.shown graph.old).page_len ≡ 256 }
    requires scratch { (SD.shown scratch.old).page_len ≡ 256 }
    requires join { (J.view join.old).frame_len ≡ 256 }
    requires connector { (C.view connector.old).frame_len ≡ 256 }
    requires parts { (C.view connector.old).parts ≡ 1 }
    requires requests { requests.old.frame_len ≡ 256 }
    requires bench { IsBench G.made 256 bench.old }
    requires open { IsTrue (G.is_open bench.old.group) }
    requires apart { (ins : InputFiles) → ins.msg_file ≡ 16 → ins.vid_file ≡ 64 → AreApart (G.made bench.old.group) bench.old.updates.file ins }
    ensures scratch { OnOk result ((SD.shown scratch.new).page_len ≡ 256) }
{
    fill(store, graph, desk, &mut bench.vertex)?;
    bench.updates.start(scratch)?;
    requests.start(scratch)?;
    connector.begin(scratch, 0)?;
    join.start(store, desk, graph, scratch, &INPUTS)?;
    let gs = Gs::first(0, LAST);
    let program = Reach::new(1);
    let part = run_partition(
        &program, &gs, join, store, desk, graph, scratch, connector, requests, bench,
    )?;
    requests.finish(scratch)?;
    Ok(part)
}

// A share of so many frames.
fn share_of(alloc: Global, frames: u32) -> Result<Share, AllocError>
    requires { frames ≤ 16 }
    ensures frames { IfOk result (λ s. length s.frames ≡ frames) }
    ensures frame_len { IfOk result (λ s. s.frame_len ≡ 256) }
{
    let mut bank = Bank::open(alloc, 256, &[frames], 0)?;
    Ok(bank.lend(0))
}

fn open_desk(alloc: Global) -> Result<Desk, AllocError>
    ensures { IfOk result (λ d. (q : ℕ) (s : Shown) → s.page_len ≡ 256 → IsReady true q d s) }
{
    let mut bank = Bank::open(alloc, 256, &[4, 1], 0)?;
    Ok(Desk {
        cache: Cache::open(bank.lend(0)),
        side: bank.lend(1),
        owner: None,
    })
}

// A group over eight frames and 32 entries.
fn open_group(alloc: Global) -> Result<SortGroup, AllocError>
    ensures frame_len { IfOk result (λ g. g.held.frame_len ≡ 256) }
    ensures first { IfOk result (λ g. g.first ≡ 2) }
    ensures second { IfOk result (λ g. g.second ≡ 3) }
    ensures open { IfOk result (λ g. IsTrue (takes g.stage)) }
{
    let mut bank = Bank::open(alloc, 256, &[8], 32)?;
    let share = bank.lend(0);
    let table = bank.lend_table();
    Ok(SortGroup::open(share, table, 2, 3))
}

fn open_bench(alloc: Global) -> Result<Bench<SortGroup>, AllocError>
    ensures bench { IfOk result (IsBench made_sort 256) }
    ensures open { IfOk result (λ b. IsTrue (takes b.group.stage)) }
    ensures first { IfOk result (λ b. b.group.first ≡ 2) }
    ensures second { IfOk result (λ b. b.group.second ≡ 3) }
    ensures file { IfOk result (λ b. b.updates.file ≡ 128) }
{
    let group = open_group(alloc)?;
    Ok(Bench {
        group,
        updates: Writer::new(Frame::new(alloc, 256)?, UPDATES),
        vertex: VertexBuf::over(Frame::new(alloc, 256)?, 112),
        message: Buf::over(Frame::new(alloc, 256)?, 99),
        spare: Buf::over(Frame::new(alloc, 256)?, 99),
    })
}

// The phase over disks of which these calls fail, and the scratch disk.
fn round(
    alloc: Global,
    graph_fail: u64,
    scratch_fail: u64,
) -> Result<(MemDisk, Result<Part, Stop>), Fail>
    ensures { IfOk result (λ r. OnOk r.1 (r.0.page_len ≡ 256)) }
{
    let mut graph = MemDisk::new(alloc, &[graph_fail])?;
    graph.start(256)?;
    let mut scratch = MemDisk::new(alloc, &[scratch_fail])?;
    scratch.start(256)?;
    let mut join = OuterJoin::open(share_of(alloc, 3)?);
    let mut store = BTree::open(0);
    let mut desk = open_desk(alloc)?;
    let mut connector = Partitioning::open(share_of(alloc, 1)?, 1);
    let mut requests = Requests::open(share_of(alloc, 1)?, 1);
    let mut bench = open_bench(alloc)?;
    let part = run_all(
        &mut join,
        &mut store,
        &mut desk,
        &mut graph,
        &mut scratch,
        &mut connector,
        &mut requests,
        &mut bench,
    );
    Ok((scratch, part))
}

// Whether the first page of a file holds this tuple and no more.
fn holds_one(
    alloc: Global,
    disk: &mut MemDisk,
    file: u32,
    head: Head,
    body: &[u8],
) -> Result<bool, Fail>
    requires { disk.old.page_len ≡ 256 }
    ensures { disk.new.page_len ≡ 256 }
{
    let mut reader = Reader::new(Frame::new(alloc, 256)?, file);
    let mut into = Buf::over(Frame::new(alloc, 256)?, 99);
    reader.start(1);
    let first = reader.next(disk, &mut into)?;
    let is_there = first == Some(head) && into.bytes() == body;
    Ok(is_there && reader.next(disk, &mut into)?.is_none())
}

#[test]
fn the_first_vertex_sends_along_its_edge(rt: HostRuntime) -> Result<(), Fail> {
    let alloc = rt.alloc();
    let (mut scratch, part) = round(alloc, 0, 0)?;
    let want = Part {
        sends: 1,
        requests: 0,
        contributed: 1,
    };
    assert_eq!(rt; part, Ok(want));
    let mut v = VertexBuf::over(Frame::new(alloc, 256)?, 112);
    set_vertex(&mut v, &[1], true);
    let update = Head {
        key: 1,
        tag: tags::VERTEX,
    };
    assert!(rt; holds_one(alloc, &mut scratch, UPDATES, update, v.body())?);
    let message = Head {
        key: 2,
        tag: tags::MESSAGE,
    };
    assert!(rt; holds_one(alloc, &mut scratch, SENT, message, b"")?);
    Ok(())
}

// How many calls of each disk there are, `start` and those that fill the store among them.
const GRAPH_CALLS: u64 = 24;

const SCRATCH_CALLS: u64 = 6;

#[test]
fn each_call_of_a_disk_fails_in_turn(rt: HostRuntime) -> Result<(), Fail> {
    let alloc = rt.alloc();
    for fail in 2..=GRAPH_CALLS {
        let (_, part) = round(alloc, fail, 0)?;
        assert_eq!(rt; part, Err(Stop::Graph), "{fail}");
    }
    for fail in 2..=SCRATCH_CALLS {
        let (_, part) = round(alloc, 0, fail)?;
        assert_eq!(rt; part, Err(Stop::Scratch), "{fail}");
    }
    let (_, part) = round(alloc, GRAPH_CALLS + 1, SCRATCH_CALLS + 1)?;
    assert!(rt; part.is_ok());
    Ok(())
}
