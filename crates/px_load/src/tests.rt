// A caller of `load`, over any source, stores and disks, which stands on its clauses alone. Then what no clause says: trees over disks in memory are loaded and scanned, and each call of a device fails in turn.
ghost use Rattle.std.specs.Prelude.{◌≡◌, ◌≤◌, ◌<◌, length, codes, true, IfOk, OnOk};
ghost use Rattle.px_btree.specs.Open.{OpenTreeView};
ghost use Rattle.px_core.specs.Shown.{Shown};
ghost use Rattle.px_frames.specs.Banks.{IsFrameLen};
ghost use Rattle.px_meaning.specs.Graph.{room_of};
ghost use Rattle.px_load.specs.Frames.{AreLoadFrames};
ghost use Rattle.px_load.specs.Loading.{IsFree, AreStores};

use crate::{LoadFrames, LoadStop, load};
use itoa::Buffer;
use px_btree::BTree;
use px_cache::Cache;
use px_core::{Disk, MemSource, Source, Vid, part_of};
use px_frames::{Bank, Buf, Frame};
use px_graph_text::Kind;
use px_memdisk::MemDisk;
use px_record::VertexBuf;
use px_store::{Desk, Store};
use std::alloc::{AllocError, Global};
use std::test::Fail;

// A text of four vertices, whose lines are not in the order of their vids.
fn load_four<R: Source, St: Store, GD: Disk, SD: Disk>(
    source: &mut R,
    frames: &mut LoadFrames,
    stores: &mut [St],
    desk: &mut Desk,
    graph: &mut GD,
    scratch: &mut SD,
) -> Result<u64, LoadStop>
    requires text { R.left source.old (codes "4 1\n1 2\n3\n2 3\n") }
    requires tells { (SD.shown scratch.old).tells ≡ true }
    requires len { (GD.shown graph.old).page_len ≡ 256 }
    requires frames { AreLoadFrames frames.old (length stores.old) (SD.shown scratch.old).page_len }
    requires pages { (GD.shown graph.old).page_len ≡ (SD.shown scratch.old).page_len }
    requires parts { AreStores St.part stores.old }
    requires free { IsFree St.counted desk.old (GD.shown graph.old) }
    ensures { IfOk result (λ n. n ≡ 4) }
{
    let count = load(source, 1000, frames, stores, desk, graph, scratch)?;
    Ok(count)
}

// What is found in the stores: the number of a store, a vid in it, and where the first edge of the vertex leads, or 0.
type Row = (u32, Vid, Vid);

// Appends what a store has, in its order.
fn scan<St: Store, D: Disk>(
    store: &mut St,
    q: u32,
    desk: &mut Desk,
    disk: &mut D,
    v: &mut VertexBuf,
    rows: &mut Vec<Row>,
) -> Result<(), Fail>
    requires free { IsFree St.counted desk.old (D.shown disk.old) }
    requires room { v.old.room ≡ room_of (D.shown disk.old).page_len }
    ensures free { OnOk result (IsFree St.counted desk.new (D.shown disk.new)) }
    ensures room { OnOk result (v.new.room ≡ room_of (D.shown disk.new).page_len) }
{
    store.rewind(disk, desk)?;
    while store.next(disk, desk, v)? {
        let to = if v.edges() == 0 { 0 } else { v.edge(0).0 };
        rows.push((q, v.vid(), to))?;
    }
    store.settle(disk, desk)?;
    Ok(())
}

// Appends what all stores have, one behind the other.
fn scan_all<St: Store, D: Disk>(
    stores: &mut [St],
    desk: &mut Desk,
    disk: &mut D,
    v: &mut VertexBuf,
    rows: &mut Vec<Row>,
) -> Result<(), Fail>
    requires few { length stores.old ≤ 16 }
    requires free { IsFree St.counted desk.old (D.shown disk.old) }
    requires room { v.old.room ≡ room_of (D.shown disk.old).page_len }
{
    for q in 0..stores.len() as u32 {
        scan(&mut stores[q as usize], q, desk, disk, v, rows)?;
    }
    Ok(())
}

// Loads a text, and scans the stores where it answers Ok and this is wanted.
fn load_and_scan<R: Source, St: Store, GD: Disk, SD: Disk>(
    source: &mut R,
    frames: &mut LoadFrames,
    stores: &mut [St],
    desk: &mut Desk,
    graph: &mut GD,
    scratch: &mut SD,
    rows: Option<&mut Vec<Row>>,
) -> Result<Result<u64, LoadStop>, Fail>
    requires frames { AreLoadFrames frames.old (length stores.old) (SD.shown scratch.old).page_len }
    requires pages { (GD.shown graph.old).page_len ≡ (SD.shown scratch.old).page_len }
    requires parts { AreStores St.part stores.old }
    requires free { IsFree St.counted desk.old (GD.shown graph.old) }
{
    match load(source, 1_000_000_000, frames, stores, desk, graph, scratch) {
        Ok(count) => {
            if let Some(rows) = rows {
                scan_all(stores, desk, graph, &mut frames.vertex, rows)?;
            }
            Ok(Ok(count))
        }
        Err(stop) => Ok(Err(stop)),
    }
}

// A desk whose cache has four frames.
pub(crate) fn open_desk(alloc: Global, page_len: u32) -> Result<Desk, AllocError>
    requires { IsFrameLen page_len }
    ensures { IfOk result (λ d. (s : Shown) → s.page_len ≡ page_len → IsFree true d s) }
{
    let mut bank = Bank::open(alloc, page_len, &[4, 1], 0)?;
    Ok(Desk {
        cache: Cache::open(bank.lend(0)),
        side: bank.lend(1),
        owner: None,
    })
}

// A record for a vertex.
fn open_vertex(alloc: Global, page_len: u32) -> Result<VertexBuf, AllocError>
    requires { IsFrameLen page_len }
    ensures { IfOk result (λ v. v.room ≡ room_of page_len) }
{
    Ok(VertexBuf::over(Frame::new(alloc, page_len)?, page_len / 2 - 16))
}

// Frames for three stores, with so many entries in the table.
pub(crate) fn open_frames(
    alloc: Global,
    page_len: u32,
    entries: u32,
) -> Result<LoadFrames, AllocError>
    requires page_len { IsFrameLen page_len }
    requires entries { 32 ≤ entries }
    ensures { IfOk result (λ f. AreLoadFrames f 3 page_len) }
{
    let mut bank = Bank::open(alloc, page_len, &[6, 3], entries)?;
    Ok(LoadFrames {
        runs: bank.lend(0),
        table: bank.lend_table(),
        outs: bank.lend(1),
        text: Some(Frame::new(alloc, page_len)?),
        vertex: open_vertex(alloc, page_len)?,
        body: Buf::over(Frame::new(alloc, page_len)?, page_len / 2 - 29),
    })
}

// A disk in memory with pages of so many bytes, of which this call fails.
pub(crate) fn open_disk(alloc: Global, page_len: u32, fail: u64) -> Result<MemDisk, Fail>
    ensures { IfOk result (λ d. d.page_len ≡ page_len) }
{
    let mut disk = MemDisk::new(alloc, &[fail])?;
    disk.start(page_len)?;
    Ok(disk)
}

pub(crate) fn open_stores() -> [BTree; 3]
    ensures len { length result ≡ 3 }
    ensures parts { AreStores (λ (t : OpenTreeView). t.tree.part) result }
{
    [BTree::open(0), BTree::open(1), BTree::open(2)]
}

// What came of a load.
#[derive(Drop)]
struct Loaded {
    answer: Result<u64, LoadStop>,
    rows: Vec<Row>,
    // Whether all frames are in their places.
    is_whole: bool,
}

// Which call of each device fails, numbered from 1, where 0 is none.
#[derive(Clone, Copy)]
struct Fails {
    source: u64,
    graph: u64,
    scratch: u64,
}

const NONE: Fails = Fails {
    source: 0,
    graph: 0,
    scratch: 0,
};

// Loads a text over pages of so many bytes, and scans the stores where no call of the graph disk fails.
fn load_text(
    alloc: Global,
    text: &[u8],
    page_len: u32,
    entries: u32,
    fails: Fails,
) -> Result<Loaded, Fail>
    requires page_len { IsFrameLen page_len }
    requires entries { 32 ≤ entries }
{
    let mut source = MemSource::new(alloc, text, &[fails.source])?;
    let mut graph = open_disk(alloc, page_len, fails.graph)?;
    let mut scratch = open_disk(alloc, page_len, fails.scratch)?;
    let mut frames = open_frames(alloc, page_len, entries)?;
    let mut desk = open_desk(alloc, page_len)?;
    let mut stores = open_stores();
    let mut rows = Vec::new(alloc);
    let answer = load_and_scan(
        &mut source,
        &mut frames,
        &mut stores,
        &mut desk,
        &mut graph,
        &mut scratch,
        if fails.graph == 0 {
            Some(&mut rows)
        } else {
            None
        },
    )?;
    let is_whole = frames.runs.len() == 6 && frames.outs.len() == 3 && frames.text.is_some();
    Ok(Loaded {
        answer,
        rows,
        is_whole,
    })
}

const FOUR: &[u8] = b"1 2\n2 3\n3\n4 1\n";

const TWICE: &[u8] = b"5 6\n5 7\n3\n3\n";

fn bad(line: u64, kind: Kind) -> Result<u64, LoadStop> {
    Err(LoadStop::Bad { line, kind })
}

fn twice(vid: Vid) -> Result<u64, LoadStop> {
    Err(LoadStop::Twice { vid })
}

// The vertices below `count`, descending, a line for each with an edge to the vid above.
fn descending(alloc: Global, count: u64) -> Result<Vec<u8>, AllocError> {
    let mut text = Vec::new(alloc);
    let mut number = Buffer::new();
    for to in (1..=count).rev() {
        text.extend_from_slice(number.format(to - 1).as_bytes())?;
        text.push(b' ')?;
        text.extend_from_slice(number.format(to).as_bytes())?;
        text.push(b'\n')?;
    }
    Ok(text)
}

// Whether these rows are the vertices below `count`, each in the store of its partition and with an edge to the vid above.
fn are_below(rows: &[Row], count: u64) -> bool {
    let mut least = (0, 0);
    for (q, vid, to) in rows {
        if *vid >= count || *to != *vid + 1 || *q != part_of(*vid, 3) || (*q, *vid) < least {
            return false;
        }
        least = (*q, *to);
    }
    rows.len() as u64 == count
}

#[derive(Clone, Copy)]
enum Device {
    Source,
    Graph,
    Scratch,
}

impl Device {
    // Its first call within a load.
    fn first(self) -> u64 {
        match self {
            Device::Source => 1,
            Device::Graph | Device::Scratch => 2,
        }
    }

    fn fails(self, call: u64) -> Fails {
        match self {
            Device::Source => Fails {
                source: call,
                ..NONE
            },
            Device::Graph => Fails {
                graph: call,
                ..NONE
            },
            Device::Scratch => Fails {
                scratch: call,
                ..NONE
            },
        }
    }

    // Its own of three numbers.
    fn of(self, numbers: [u64; 3]) -> u64 {
        match self {
            Device::Source => numbers[0],
            Device::Graph => numbers[1],
            Device::Scratch => numbers[2],
        }
    }

    fn stop(self) -> LoadStop {
        match self {
            Device::Source => LoadStop::Source,
            Device::Graph => LoadStop::Graph,
            Device::Scratch => LoadStop::Scratch,
        }
    }
}

// How many calls of a device a load of a text makes, where it answers this device's stop for each that fails, and the same as ever where none does.
fn calls_of(
    alloc: Global,
    text: &[u8],
    device: Device,
    want: Result<u64, LoadStop>,
) -> Result<Option<u64>, Fail> {
    for made in 0..2000u64 {
        let call = made.saturating_add(device.first());
        let loaded = load_text(alloc, text, 256, 32, device.fails(call))?;
        if loaded.answer == want {
            return Ok(Some(made));
        }
        if loaded.answer != Err(device.stop()) || !loaded.is_whole {
            return Ok(None);
        }
    }
    Ok(None)
}

#[test]
fn a_text_is_loaded_or_refused(rt: HostRuntime) -> Result<(), Fail> {
    let alloc = rt.alloc();
    let table: [(&[u8], Result<u64, LoadStop>); 9] = [
        (b"", Ok(0)),
        (b"7", Ok(1)),
        (FOUR, Ok(4)),
        (TWICE, twice(3)),
        (
            b"3\n3\n18446744073709551615\n18446744073709551615\n",
            twice(3),
        ),
        (b"3\n3\nx\n", bad(3, Kind::Form)),
        (b"1 2 3 4 5 6 7 8 9\n", bad(1, Kind::Wide)),
        (b"0\n18446744073709551615\n", Ok(2)),
        (b"1\n2 4294967296:1 2:4294967296\n", bad(2, Kind::Number)),
    ];
    for (text, want) in table {
        let loaded = load_text(alloc, text, 256, 32, NONE)?;
        assert_eq!(rt; loaded.answer, want);
        assert!(rt; loaded.is_whole);
    }
    Ok(())
}

#[test]
fn each_vertex_is_in_the_store_of_its_partition(rt: HostRuntime) -> Result<(), Fail> {
    let alloc = rt.alloc();
    let loaded = load_text(alloc, FOUR, 256, 32, NONE)?;
    let want: [Row; 4] = [(0, 1, 2), (0, 3, 0), (2, 2, 3), (2, 4, 1)];
    assert_eq!(rt; &loaded.rows[..], &want[..]);
    // More runs than are merged at once.
    let text = descending(alloc, 250)?;
    let loaded = load_text(alloc, &text, 256, 32, NONE)?;
    assert_eq!(rt; loaded.answer, Ok(250));
    assert!(rt; are_below(&loaded.rows, 250));
    Ok(())
}

#[test]
fn each_call_of_a_device_fails_in_turn(rt: HostRuntime) -> Result<(), Fail> {
    let alloc = rt.alloc();
    let long = descending(alloc, 250)?;
    let table: [(&[u8], Result<u64, LoadStop>, [u64; 3]); 3] = [
        (FOUR, Ok(4), [2, 3, 13]),
        (TWICE, twice(3), [2, 0, 9]),
        (&long, Ok(250), [8, 106, 299]),
    ];
    for (text, want, calls) in table {
        for device in [Device::Source, Device::Graph, Device::Scratch] {
            let made = calls_of(alloc, text, device, want)?;
            assert_eq!(rt; made, Some(device.of(calls)));
        }
    }
    Ok(())
}

#[test]
fn many_lines_in_descending_order(rt: HostRuntime) -> Result<(), Fail> {
    let alloc = rt.alloc();
    let text = descending(alloc, 300_000)?;
    let loaded = load_text(alloc, &text, 4096, 512, NONE)?;
    assert_eq!(rt; loaded.answer, Ok(300_000));
    assert!(rt; are_below(&loaded.rows, 300_000));
    Ok(())
}
