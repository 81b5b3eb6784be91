// One partition computes the first superstep of pagerank over files. What it is made of is also done alone: the scan of its store,
// its vertices' computing, and the grouping of as many pairs.
//
// It works within 64 frames of 262,144 bytes. The store's cache has 8, the join 3, the connector, the requests and the updates 1 each,
// the vertex and the two buffers of the bench 1 each, and the group 47: 2 for a page and a fold, 15 for payloads, and 30 in a table of
// entries of 16 bytes, one for each payload of 8 bytes.
ghost use Rattle.std.specs.Prelude.{◌≡◌, ◌≤◌, length, IsTrue, OnOk, IfOk};
ghost use Rattle.px_meaning.specs.Graph.{room_of};
ghost use Rattle.px_program.specs.Groups.{room_in};
ghost use Rattle.px_store.specs.Desks.{IsReady};
ghost use Rattle.px_store.specs.declared.join.Inputs.{Inputs as InputFiles};
ghost use Rattle.px_sort_group.specs.Sorted.{made_sort, takes};
ghost use Rattle.px_compute_op.specs.Phase.{AreApart, IsBench};

use crate::group::{fold_all, group_of, payload_of};
use crate::rank;
use crate::record::record_of;
use crate::store::{desk_of, open_store, scan};
use crate::streams::frame_of;
use crate::tally::{Tally, number};
use crate::vertices::{self, EDGES, target_of};
use anyhow::Result;
use px_compute_op::{Bench, run_partition};
use px_connectors::{Connector, Partitioning, Requests};
use px_core::{Disk, Stop};
use px_filedisk::FileDisk;
use px_frames::{Bank, Share};
use px_global_state::{Gs, Part};
use px_outer_join::OuterJoin;
use px_program::Group;
use px_programs::{Lesser, PageRank};
use px_record::VertexBuf;
use px_sort_group::SortGroup;
use px_store::{Desk, Inputs, Join, Store};
use px_stream::{Reader, Writer};
use std::alloc::{AllocError, Global};
use std::fs;
use std::time::{Duration, Instant};

/// What of a superstep is done alone.
#[derive(Clone, Copy)]
pub enum Work {
    /// Its store is scanned.
    Scan,
    /// Its vertices are computed, in memory.
    Rank,
    /// As many pairs are grouped as it sends.
    Group,
}

impl Work {
    /// Its name, behind that of the job.
    pub fn name(self) -> &'static str {
        match self {
            Work::Scan => "superstep scan",
            Work::Rank => "superstep rank",
            Work::Group => "superstep group",
        }
    }

    /// What it goes over.
    pub fn things(self) -> &'static str {
        match self {
            Work::Scan | Work::Rank => "vertices",
            Work::Group => "vids",
        }
    }
}

/// All works.
pub const WORKS: [Work; 3] = [Work::Scan, Work::Rank, Work::Group];

/// The work that a word names.
pub fn work_of(word: &str) -> Option<Work> {
    for work in WORKS {
        if work.name().strip_prefix("superstep ") == Some(word) {
            return Some(work);
        }
    }
    None
}

/// The bytes of a page.
const PAGE: u32 = 262_144;

/// The bytes of a page's block in its file.
const BLOCK: u64 = 262_160;

const CACHE_FRAMES: u32 = 8;

const JOIN_FRAMES: u32 = 3;

const GROUP_FRAMES: u32 = 17;

const GROUP_ENTRIES: u32 = 491_520;

/// The file of updates.
const UPDATES: u32 = 128;

/// The file from sender 0 to receiver 0.
const SENT: u32 = 256;

/// No message was sent before.
const INPUTS: Inputs = Inputs {
    msg_file: 16,
    msg_pages: 0,
    vid_file: 64,
    vid_pages: 0,
};

/// The rounds of pagerank, of which the first one is computed.
const ROUNDS: u32 = 2;

/// What a superstep came to: its numbers, and the folds that the connector's file holds.
#[derive(Clone, Copy)]
pub struct Done {
    pub part: Part,
    pub folds: Tally,
}

// The phase of partition 0, whose store is loaded. The seconds are those of `run_partition` alone.
fn time_phase<J: Join, G: Group, C: Connector, St: Store, GD: Disk, SD: Disk>(
    rt: &HostRuntime,
    join: &mut J,
    store: &mut St,
    desk: &mut Desk,
    graph: &mut GD,
    scratch: &mut SD,
    connector: &mut C,
    requests: &mut Requests,
    bench: &mut Bench<G>,
    count: u64,
) -> Result<(Part, Duration)>
    requires ready { IsReady St.counted (St.part store.old) desk.old (GD.shown graph.old) }
    requires graph { (GD.shown graph.old).page_len ≡ 262144 }
    requires scratch { (SD.shown scratch.old).page_len ≡ 262144 }
    requires join { (J.view join.old).frame_len ≡ 262144 }
    requires connector { (C.view connector.old).frame_len ≡ 262144 }
    requires parts { (C.view connector.old).parts ≡ 1 }
    requires requests { requests.old.frame_len ≡ 262144 }
    requires bench { IsBench G.made 262144 bench.old }
    requires open { IsTrue (G.is_open bench.old.group) }
    requires apart { (ins : InputFiles) → ins.msg_file ≡ 16 → ins.vid_file ≡ 64 → AreApart (G.made bench.old.group) bench.old.updates.file ins }
    ensures scratch { OnOk result ((SD.shown scratch.new).page_len ≡ 262144) }
{
    bench.updates.start(scratch)?;
    requests.start(scratch)?;
    connector.begin(scratch, 0)?;
    join.start(store, desk, graph, scratch, &INPUTS)?;
    let gs = Gs::first(0, count);
    let program = PageRank::new(ROUNDS);
    let start = Instant::now(rt)?;
    let part = run_partition(
        &program, &gs, join, store, desk, graph, scratch, connector, requests, bench,
    )?;
    let spent = start.elapsed(rt)?;
    requests.finish(scratch)?;
    Ok((part, spent))
}

// A share of so many frames.
fn share_of(alloc: Global, frames: u32) -> Result<Share, AllocError>
    requires { frames ≤ 16 }
    ensures frames { IfOk result (λ s. length s.frames ≡ frames) }
    ensures frame_len { IfOk result (λ s. s.frame_len ≡ 262144) }
{
    let mut bank = Bank::open(alloc, PAGE, &[frames], 0)?;
    Ok(bank.lend(0))
}

fn updates_of(alloc: Global) -> Result<Writer, AllocError>
    ensures file { IfOk result (λ w. w.file ≡ 128) }
    ensures page_len { IfOk result (λ w. w.page_len ≡ 262144) }
{
    Ok(Writer::new(frame_of(alloc, PAGE)?, UPDATES))
}

fn open_group(alloc: Global) -> Result<SortGroup, AllocError>
    ensures frame_len { IfOk result (λ g. g.held.frame_len ≡ 262144) }
    ensures first { IfOk result (λ g. g.first ≡ 2) }
    ensures second { IfOk result (λ g. g.second ≡ 3) }
    ensures open { IfOk result (λ g. IsTrue (takes g.stage)) }
{
    group_of(alloc, GROUP_FRAMES, GROUP_ENTRIES)
}

fn open_bench(alloc: Global) -> Result<Bench<SortGroup>, AllocError>
    ensures bench { IfOk result (IsBench made_sort 262144) }
    ensures open { IfOk result (λ b. IsTrue (takes b.group.stage)) }
    ensures first { IfOk result (λ b. b.group.first ≡ 2) }
    ensures second { IfOk result (λ b. b.group.second ≡ 3) }
    ensures file { IfOk result (λ b. b.updates.file ≡ 128) }
{
    let group = open_group(alloc)?;
    let updates = updates_of(alloc)?;
    Ok(Bench {
        group,
        updates,
        vertex: record_of(alloc, PAGE)?,
        message: payload_of(alloc)?,
        spare: payload_of(alloc)?,
    })
}

// Loads the store with vertices that go through a frame which is let go.
fn load<St: Store, D: Disk>(
    alloc: Global,
    store: &mut St,
    disk: &mut D,
    desk: &mut Desk,
    count: u64,
) -> Result<()>
    requires ready { IsReady St.counted (St.part store.old) desk.old (D.shown disk.old) }
    requires page_len { (D.shown disk.old).page_len ≡ 262144 }
    ensures ready { OnOk result (IsReady St.counted (St.part store.new) desk.new (D.shown disk.new)) }
    ensures page_len { OnOk result ((D.shown disk.new).page_len ≡ 262144) }
{
    let mut v = record_of(alloc, PAGE)?;
    vertices::load(store, disk, desk, &mut v, count)?;
    Ok(())
}

// A superstep of so many vertices over these disks.
fn compute<GD: Disk, SD: Disk>(
    rt: &HostRuntime,
    graph: &mut GD,
    scratch: &mut SD,
    count: u64,
) -> Result<(Part, Duration)>
    requires graph { (GD.shown graph.old).page_len ≡ 262144 }
    requires scratch { (SD.shown scratch.old).page_len ≡ 262144 }
    ensures scratch { OnOk result ((SD.shown scratch.new).page_len ≡ 262144) }
{
    let alloc = rt.alloc();
    let mut store = open_store();
    let mut desk = desk_of(alloc, graph, PAGE, CACHE_FRAMES)?;
    load(alloc, &mut store, graph, &mut desk, count)?;
    let mut join = OuterJoin::open(share_of(alloc, JOIN_FRAMES)?);
    let mut connector = Partitioning::open(share_of(alloc, 1)?, 1);
    let mut requests = Requests::open(share_of(alloc, 1)?, 1);
    let mut bench = open_bench(alloc)?;
    time_phase(
        rt,
        &mut join,
        &mut store,
        &mut desk,
        graph,
        scratch,
        &mut connector,
        &mut requests,
        &mut bench,
        count,
    )
}

// Sums vids and numbers of the tuples that a reader has left, in order.
fn sum_tuples<D: Disk>(reader: &mut Reader, disk: &mut D) -> Result<Tally, Stop>
    requires { reader.old.page_len ≡ (D.shown disk.old).page_len }
{
    let mut tally = Tally::default();
    while let Some(head) = reader.peek(disk)? {
        tally.add_next(head.key.wrapping_add(number(reader.peeked())));
        reader.pass();
    }
    Ok(tally)
}

// Sums the folds on so many pages of the file that was sent.
fn sum_folds<D: Disk>(alloc: Global, disk: &mut D, pages: u64) -> Result<Tally>
    requires { (D.shown disk.old).page_len ≡ 262144 }
{
    let mut reader = Reader::new(frame_of(alloc, PAGE)?, SENT);
    reader.start(pages);
    Ok(sum_tuples(&mut reader, disk)?)
}

/// A superstep of so many vertices, with files of two disks in the folder.
pub fn run(rt: HostRuntime, folder: &str, count: u64) -> Result<(Done, Duration)> {
    let alloc = rt.alloc();
    let graph_folder = format!(in alloc; "{folder}/graph")?;
    let mut graph = FileDisk::new(rt, alloc, graph_folder.as_str())?;
    let scratch_folder = format!(in alloc; "{folder}/scratch")?;
    let mut scratch = FileDisk::new(rt, alloc, scratch_folder.as_str())?;
    graph.start(PAGE)?;
    scratch.start(PAGE)?;
    let (part, spent) = compute(&rt, &mut graph, &mut scratch, count)?;
    let sent = format!(in alloc; "{folder}/scratch/f{SENT}")?;
    let pages = fs::metadata(&rt, sent.as_str())?.len() / BLOCK;
    let folds = sum_folds(alloc, &mut scratch, pages)?;
    Ok((Done { part, folds }, spent))
}

// Scans a store that is loaded first.
fn scan_loaded<St: Store, D: Disk>(
    rt: &HostRuntime,
    store: &mut St,
    disk: &mut D,
    desk: &mut Desk,
    v: &mut VertexBuf,
    count: u64,
) -> Result<(Tally, Duration)>
    requires ready { IsReady St.counted (St.part store.old) desk.old (D.shown disk.old) }
    requires room { v.old.room ≡ room_of (D.shown disk.old).page_len }
{
    vertices::load(store, disk, desk, v, count)?;
    let start = Instant::now(rt)?;
    let tally = scan(store, disk, desk, v)?;
    let spent = start.elapsed(rt)?;
    Ok((tally, spent))
}

fn time_scan<D: Disk>(rt: &HostRuntime, disk: &mut D, count: u64) -> Result<(Tally, Duration)> {
    disk.start(PAGE)?;
    let mut desk = desk_of(rt.alloc(), disk, PAGE, CACHE_FRAMES)?;
    let mut v = record_of(rt.alloc(), PAGE)?;
    let mut store = open_store();
    scan_loaded(rt, &mut store, disk, &mut desk, &mut v, count)
}

fn time_rank(rt: &HostRuntime, count: u64) -> Result<(Tally, Duration)> {
    let records = vertices::build(rt.alloc(), PAGE, count)?;
    let start = Instant::now(rt)?;
    let tally = rank::run(rt.alloc(), &records, count, 1)?;
    let spent = start.elapsed(rt)?;
    Ok((tally, spent))
}

// Puts as many pairs into a group as so many vertices send.
fn add_sends<D: Disk, G: Group>(group: &mut G, disk: &mut D, count: u64) -> Result<(), Stop>
    requires page_len { (G.made group.old).frame_len ≡ (D.shown disk.old).page_len }
    requires open { IsTrue (G.is_open group.old) }
    requires room { 21 ≤ room_in (G.made group.old) }
    ensures open { OnOk result (IsTrue (G.is_open group.new)) }
    ensures disk { OnOk result ((D.shown disk.new).page_len ≡ (D.shown disk.old).page_len) }
    ensures stays { G.made group.new ≡ G.made group.old }
{
    for i in 0..count.wrapping_mul(EDGES) {
        group.add(disk, &Lesser, target_of(i, count), &i.to_be_bytes())?;
    }
    Ok(())
}

fn time_group<D: Disk>(rt: &HostRuntime, disk: &mut D, count: u64) -> Result<(Tally, Duration)> {
    disk.start(PAGE)?;
    let mut group = open_group(rt.alloc())?;
    let mut into = payload_of(rt.alloc())?;
    let start = Instant::now(rt)?;
    add_sends(&mut group, disk, count)?;
    let tally = fold_all(&mut group, disk, &mut into)?;
    let spent = start.elapsed(rt)?;
    Ok((tally, spent))
}

/// Does a work alone, on as much as a superstep of so many vertices has.
pub fn run_work<D: Disk>(
    rt: &HostRuntime,
    disk: &mut D,
    work: Work,
    count: u64,
) -> Result<(Tally, Duration)> {
    match work {
        Work::Scan => time_scan(rt, disk, count),
        Work::Rank => time_rank(rt, count),
        Work::Group => time_group(rt, disk, count),
    }
}
