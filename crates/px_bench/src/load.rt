// A graph text is loaded into one store, over files, and dumped.
//
// It works within 64 frames of 262,144 bytes. The store's cache has 8, what goes to the store 1, the text, the vertex and the body
// 1 each, and the runs 38. The table has the bytes of the other 14: an entry of 16 bytes for each vertex of about 43 that the runs hold.
ghost use Rattle.std.specs.Prelude.{◌≡◌, ℕ, length, true, OnOk, IfOk};
ghost use Rattle.px_btree.specs.Open.{OpenTreeView};
ghost use Rattle.px_load.specs.Frames.{AreLoadFrames};
ghost use Rattle.px_load.specs.Loading.{IsFree, AreStores};

use crate::group::payload_of;
use crate::record::record_of;
use crate::store::desk_of;
use crate::streams::frame_of;
use anyhow::Result;
use px_btree::BTree;
use px_core::{Disk, Failed, Sink, Source};
use px_filedisk::FileDisk;
use px_frames::Bank;
use px_global_state::Gs;
use px_load::{LoadFrames, dump, load};
use px_programs::Reach;
use px_store::{Desk, Store};
use std::alloc::{AllocError, Global};
use std::time::{Duration, Instant};

/// The bytes of a page.
const PAGE: u32 = 262_144;

const CACHE_FRAMES: u32 = 8;

const RUN_FRAMES: u32 = 38;

const TABLE_ENTRIES: u32 = 229_376;

/// The most bytes that a text may have.
const LIMIT: u64 = 1 << 48;

/// A sink that counts bytes, and sums them and these sums, so that their order counts. It tells nothing of what it took.
#[derive(Drop)]
struct Sums {
    count: u64,
    sum: u64,
    sums: u64,
}

impl Sink for Sums {
    ghost holds = { λ s h. ⊥ };

    ghost faults = { λ s. 0 };

    fn write(&mut self, from: &[u8]) -> Result<usize, Failed> {
        let mut sum = self.sum;
        let mut sums = self.sums;
        for byte in from {
            sum = sum.wrapping_add(u64::from(*byte));
            sums = sums.wrapping_add(sum);
        }
        self.count = self.count.wrapping_add(from.len() as u64);
        self.sum = sum;
        self.sums = sums;
        Ok(from.len())
    }
}

/// What a load and a dump came to, and how long each took.
#[derive(Clone, Copy)]
pub struct Done {
    pub vertices: u64,
    pub bytes: u64,
    pub checksum: u64,
    pub load: Duration,
    pub dump: Duration,
}

fn open_frames(alloc: Global) -> Result<LoadFrames, AllocError>
    ensures { IfOk result (λ f. AreLoadFrames f 1 262144) }
{
    let mut bank = Bank::open(alloc, PAGE, &[RUN_FRAMES, 1], TABLE_ENTRIES)?;
    let runs = bank.lend(0);
    let outs = bank.lend(1);
    let table = bank.lend_table();
    Ok(LoadFrames {
        runs,
        table,
        outs,
        text: Some(frame_of(alloc, PAGE)?),
        vertex: record_of(alloc, PAGE)?,
        body: payload_of(alloc)?,
    })
}

fn open_desk<D: Disk>(alloc: Global, disk: &D) -> Result<Desk, AllocError>
    requires { (D.shown disk.now).page_len ≡ 262144 }
    ensures { IfOk result (λ desk. IsFree true desk (D.shown disk.now)) }
{
    desk_of(alloc, disk, PAGE, CACHE_FRAMES)
}

fn open_stores() -> [BTree; 1]
    ensures len { length result ≡ 1 }
    ensures parts { AreStores (λ (t : OpenTreeView). t.tree.part) result }
{
    [BTree::open(0)]
}

// The number of vertices, and the seconds of `load` alone.
fn time_load<R: Source, St: Store, GD: Disk, SD: Disk>(
    rt: &HostRuntime,
    source: &mut R,
    frames: &mut LoadFrames,
    stores: &mut [St],
    desk: &mut Desk,
    graph: &mut GD,
    scratch: &mut SD,
) -> Result<(u64, Duration)>
    requires frames { AreLoadFrames frames.old (length stores.old) (SD.shown scratch.old).page_len }
    requires pages { (GD.shown graph.old).page_len ≡ (SD.shown scratch.old).page_len }
    requires parts { AreStores St.part stores.old }
    requires free { IsFree St.counted desk.old (GD.shown graph.old) }
    ensures frames { OnOk result (AreLoadFrames frames.new (length stores.new) (SD.shown scratch.new).page_len) }
    ensures pages { OnOk result ((GD.shown graph.new).page_len ≡ (SD.shown scratch.new).page_len) }
    ensures parts { OnOk result (AreStores St.part stores.new) }
    ensures free { OnOk result (IsFree St.counted desk.new (GD.shown graph.new)) }
{
    let start = Instant::now(rt)?;
    let vertices = load(source, LIMIT, frames, stores, desk, graph, scratch)?;
    let spent = start.elapsed(rt)?;
    Ok((vertices, spent))
}

// The seconds of `dump` alone, of so many vertices of which none has a value.
fn time_dump<W: Sink, St: Store, GD: Disk, SD: Disk>(
    rt: &HostRuntime,
    vertices: u64,
    frames: &mut LoadFrames,
    stores: &mut [St],
    desk: &mut Desk,
    graph: &mut GD,
    scratch: &mut SD,
    out: &mut W,
) -> Result<Duration>
    requires frames { AreLoadFrames frames.old (length stores.old) (SD.shown scratch.old).page_len }
    requires pages { (GD.shown graph.old).page_len ≡ (SD.shown scratch.old).page_len }
    requires parts { AreStores St.part stores.old }
    requires free { IsFree St.counted desk.old (GD.shown graph.old) }
{
    let program = Reach::new(0);
    let gs = Gs::first(0, vertices);
    let start = Instant::now(rt)?;
    dump(
        &program, &gs, false, frames, stores, desk, graph, scratch, out,
    )?;
    let spent = start.elapsed(rt)?;
    Ok(spent)
}

// Loads a text into stores that hold nothing, and dumps them.
fn load_and_dump<R: Source, St: Store, GD: Disk, SD: Disk>(
    rt: &HostRuntime,
    source: &mut R,
    frames: &mut LoadFrames,
    stores: &mut [St],
    desk: &mut Desk,
    graph: &mut GD,
    scratch: &mut SD,
) -> Result<Done>
    requires frames { AreLoadFrames frames.old (length stores.old) (SD.shown scratch.old).page_len }
    requires pages { (GD.shown graph.old).page_len ≡ (SD.shown scratch.old).page_len }
    requires parts { AreStores St.part stores.old }
    requires free { IsFree St.counted desk.old (GD.shown graph.old) }
{
    let mut out = Sums {
        count: 0,
        sum: 0,
        sums: 0,
    };
    let (vertices, load) = time_load(rt, source, frames, stores, desk, graph, scratch)?;
    let dump = time_dump(rt, vertices, frames, stores, desk, graph, scratch, &mut out)?;
    Ok(Done {
        vertices,
        bytes: out.count,
        checksum: out.sums,
        load,
        dump,
    })
}

// The same over these disks, with frames and a store that are let go.
fn work<R: Source, GD: Disk, SD: Disk>(
    rt: &HostRuntime,
    source: &mut R,
    graph: &mut GD,
    scratch: &mut SD,
) -> Result<Done>
    requires graph { (GD.shown graph.old).page_len ≡ 262144 }
    requires scratch { (SD.shown scratch.old).page_len ≡ 262144 }
{
    let mut frames = open_frames(rt.alloc())?;
    let mut desk = open_desk(rt.alloc(), graph)?;
    let mut stores = open_stores();
    load_and_dump(
        rt,
        source,
        &mut frames,
        &mut stores,
        &mut desk,
        graph,
        scratch,
    )
}

/// Loads a text and dumps it, with files of two disks in the folder.
pub fn run<R: Source>(rt: HostRuntime, folder: &str, source: &mut R) -> Result<Done> {
    let alloc = rt.alloc();
    let graph_folder = format!(in alloc; "{folder}/graph")?;
    let mut graph = FileDisk::new(rt, alloc, graph_folder.as_str())?;
    let scratch_folder = format!(in alloc; "{folder}/scratch")?;
    let mut scratch = FileDisk::new(rt, alloc, scratch_folder.as_str())?;
    graph.start(PAGE)?;
    scratch.start(PAGE)?;
    work(&rt, source, &mut graph, &mut scratch)
}
