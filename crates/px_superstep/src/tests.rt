// What no clause says: rows of the plans' needs and shares, a job over disks in memory that takes three supersteps, how runs end, and runs of which each call of a device fails in turn.
ghost use Rattle.std.specs.Prelude.{◌≡◌, ◌≤◌, true, IfOk};
ghost use Rattle.px_btree.specs.Open.{OpenTreeView};
ghost use Rattle.px_superstep.specs.Jobs.{IsJob};

use crate::{
    ConnectorKind, End, GroupKind, Job, JoinKind, Line, Plan, Setup, Shares, Stats, StoreKind,
    need, open_bank, run_job, shares,
};
use px_btree::BTree;
use px_connectors::{Connector, Partitioning};
use px_core::{Disk, HighTurns, MemSink, MemSource, Sink, Source, Turns};
use px_global_state::Gs;
use px_graph_text::Kind;
use px_memdisk::MemDisk;
use px_outer_join::OuterJoin;
use px_program::{Group, Program};
use px_programs::{Reach, Sssp};
use px_sort_group::SortGroup;
use px_store::{Join, Store};
use std::alloc::Global;
use std::test::Fail;

// The plan whose stores are trees, and the one whose stores are not.
const BASE: Plan = Plan {
    join: JoinKind::Full,
    group: GroupKind::Sort,
    connector: ConnectorKind::Plain,
    store: StoreKind::BTree,
};

const OTHER: Plan = Plan {
    store: StoreKind::Lsm,
    ..BASE
};

#[test]
fn a_plan_needs_two_frames_for_each_partition(rt: HostRuntime) -> Result<(), Fail> {
    for (partitions, frames) in [(1, 24), (4, 30), (16, 54)] {
        assert_eq!(rt; need(&BASE, partitions), frames);
        assert_eq!(rt; need(&OTHER, partitions), frames + 10);
    }
    Ok(())
}

#[test]
fn frames_are_shared_out(rt: HostRuntime) -> Result<(), Fail> {
    let base = Shares {
        work: 4,
        streams: 6,
        out: 8,
        group: 24,
        cache: 22,
        lsm: 0,
    };
    assert_eq!(rt; shares(&BASE, 4, 64), base);
    let other = Shares {
        group: 20,
        cache: 16,
        lsm: 10,
        ..base
    };
    assert_eq!(rt; shares(&OTHER, 4, 64), other);
    Ok(())
}

// Four vertices, and what is written of them when all that vertex 1 leads to are reached.
const FOUR: &[u8] = b"1 2\n2 3\n3\n4 1\n";

const REACHED: &[u8] = b"1 1 2:1\n2 1 3:1\n3 1\n4 0 1:1\n#superstep 3 aggregate 1 vertices 4\n";

// Loads a text, takes three supersteps, and writes the text of the state. The numbers are those after the last superstep.
fn take_three<
    P: Program,
    J: Join,
    G: Group,
    C: Connector,
    St: Store,
    R: Source,
    W: Sink,
    GD: Disk,
    SD: Disk,
    T: Turns,
>(
    job: &mut Job<P, J, G, C, St>,
    source: &mut R,
    out: &mut W,
    graph: &mut GD,
    scratch: &mut SD,
    turns: &mut T,
) -> Result<Gs, Fail>
    requires job { IsJob St.part St.counted job.old }
    requires graph_len { (GD.shown graph.old).page_len ≡ job.old.bank.frame_len }
    requires scratch_len { (SD.shown scratch.old).page_len ≡ job.old.bank.frame_len }
{
    job.load(source, graph, scratch)?;
    for _ in 0..3u64 {
        job.superstep(graph, scratch, turns)?;
    }
    let gs = job.gs();
    job.finish(graph, scratch, out, false)?;
    Ok(gs)
}

// A disk in memory of pages of 256 bytes.
fn open_disk(alloc: Global) -> Result<MemDisk, Fail>
    ensures { IfOk result (λ d. d.page_len ≡ 256) }
{
    let mut disk = MemDisk::new(alloc, &[])?;
    disk.start(256)?;
    Ok(disk)
}

type Base = Job<Reach, OuterJoin, SortGroup, Partitioning, BTree>;

// A job of three partitions with no more frames than it needs.
fn open_job(alloc: Global) -> Result<Base, Fail>
    ensures job { IfOk result (IsJob (λ (t : OpenTreeView). t.tree.part) true) }
    ensures frame_len { IfOk result (λ job. job.bank.frame_len ≡ 256) }
{
    let bank = open_bank(alloc, &shares(&BASE, 3, 28), 3, 256)?;
    let job = Job::open(alloc, Reach::new(1), 3, bank)?;
    Ok(job)
}

#[test]
fn all_have_halted_after_three_supersteps(rt: HostRuntime) -> Result<(), Fail> {
    let alloc = rt.alloc();
    let mut source = MemSource::new(alloc, FOUR, &[])?;
    let mut sink = MemSink::new(alloc, 4096, &[])?;
    let mut graph = open_disk(alloc)?;
    let mut scratch = open_disk(alloc)?;
    let mut turns = HighTurns::new();
    let mut job = open_job(alloc)?;
    let gs = take_three(
        &mut job,
        &mut source,
        &mut sink,
        &mut graph,
        &mut scratch,
        &mut turns,
    )?;
    let want = Gs {
        superstep: 3,
        aggregate: 1,
        live: 0,
        count: 4,
        in_flight: 0,
    };
    assert_eq!(rt; gs, want);
    assert!(rt; sink.bytes() == REACHED);
    Ok(())
}

// Which call of each device fails, numbered from 1, where 0 is none.
#[derive(Clone, Copy)]
struct Fails {
    source: u64,
    sink: u64,
    graph: u64,
    scratch: u64,
}

const NONE: Fails = Fails {
    source: 0,
    sink: 0,
    graph: 0,
    scratch: 0,
};

// This call fails of the device that a run names by its end.
fn failing(end: End, call: u64) -> Fails {
    match end {
        End::Source => Fails {
            source: call,
            ..NONE
        },
        End::Sink => Fails { sink: call, ..NONE },
        End::Graph => Fails {
            graph: call,
            ..NONE
        },
        _ => Fails {
            scratch: call,
            ..NONE
        },
    }
}

// Three partitions with no more frames than they need.
const SMALLEST: Setup = Setup {
    plan: BASE,
    partitions: 3,
    frames: 28,
    frame_bytes: 256,
    max: 3,
    summary: false,
    stats: false,
};

// Runs a program on a text, and answers how it ended and what was written.
fn run<P: Program>(
    alloc: Global,
    program: P,
    text: &[u8],
    setup: &Setup,
    fails: Fails,
) -> Result<(End, MemSink), Fail>
    requires partitions { setup.now.partitions ≡ 3 }
    requires frames { setup.now.frames ≤ 28 }
    requires frame_bytes { setup.now.frame_bytes ≡ 256 }
{
    let mut source = MemSource::new(alloc, text, &[fails.source])?;
    let mut sink = MemSink::new(alloc, 4096, &[fails.sink])?;
    let mut errs = MemSink::new(alloc, 4096, &[])?;
    let mut graph = MemDisk::new(alloc, &[fails.graph])?;
    let mut scratch = MemDisk::new(alloc, &[fails.scratch])?;
    let mut turns = HighTurns::new();
    let end = run_job::<
        P,
        OuterJoin,
        SortGroup,
        Partitioning,
        BTree,
        MemSource,
        MemSink,
        MemSink,
        MemDisk,
        MemDisk,
        HighTurns,
    >(
        alloc,
        program,
        setup,
        &mut source,
        &mut sink,
        &mut errs,
        &mut graph,
        &mut scratch,
        &mut turns,
    );
    Ok((end, sink))
}

// A text, what a run is made with, how it ends, and what it has written.
type Row = (&'static [u8], Setup, End, &'static [u8]);

const ROWS: &[Row] = &[
    (FOUR, SMALLEST, End::Done, REACHED),
    (
        FOUR,
        Setup {
            summary: true,
            ..SMALLEST
        },
        End::Done,
        b"#superstep 3 aggregate 1 vertices 4\n",
    ),
    (
        FOUR,
        Setup {
            frames: 27,
            ..SMALLEST
        },
        End::Short { need: 28, have: 27 },
        b"",
    ),
    (FOUR, Setup { max: 2, ..SMALLEST }, End::Limit { n: 2 }, b""),
    (
        b"1 2 3 4 5 6 7 8 9\n",
        SMALLEST,
        End::Bad {
            line: 1,
            kind: Kind::Wide,
        },
        b"",
    ),
    (b"5 6\n5 7\n3\n3\n", SMALLEST, End::Twice { vid: 3 }, b""),
];

#[test]
fn runs_end_as_they_are_due(rt: HostRuntime) -> Result<(), Fail> {
    let alloc = rt.alloc();
    for (text, setup, end, written) in ROWS {
        let (given, sink) = run(alloc, Reach::new(1), text, setup, NONE)?;
        assert_eq!(rt; given, *end);
        assert!(rt; sink.bytes() == *written);
    }
    // With its distance the vertex is wider than half a frame.
    let (given, sink) = run(alloc, Sssp::new(1), b"1 2 3 4 5 6 7 8\n", &SMALLEST, NONE)?;
    assert_eq!(rt; given, End::Beyond { superstep: 1 });
    assert!(rt; sink.bytes().is_empty());
    Ok(())
}

// How a run ends whose device failed, and how many calls of the device there are.
const DEVICES: &[(End, u64)] = &[
    (End::Source, 2),
    (End::Sink, 1),
    (End::Graph, 4),
    (End::Scratch, 100),
];

#[test]
fn each_call_of_a_device_fails_in_turn(rt: HostRuntime) -> Result<(), Fail> {
    let alloc = rt.alloc();
    for (end, calls) in DEVICES {
        for call in 1..=*calls {
            let fails = failing(*end, call);
            let (given, sink) = run(alloc, Reach::new(1), FOUR, &SMALLEST, fails)?;
            assert_eq!(rt; given, *end, "{call}");
            assert!(rt; REACHED.starts_with(sink.bytes()));
        }
        let fails = failing(*end, calls.saturating_add(1));
        let (given, _) = run(alloc, Reach::new(1), FOUR, &SMALLEST, fails)?;
        assert_eq!(rt; given, End::Done);
    }
    Ok(())
}

#[test]
fn the_last_64_lines_are_kept(rt: HostRuntime) -> Result<(), Fail> {
    let mut stats = Stats::open(rt.alloc())?;
    for superstep in 1..=70u64 {
        let gs = Gs {
            superstep,
            aggregate: 0,
            live: 2,
            count: 3,
            in_flight: 4,
        };
        stats.note(Line {
            gs,
            graph_reads: 5,
            graph_writes: 6,
            scratch_reads: 7,
            scratch_writes: 8,
        });
    }
    let mut errs = MemSink::new(rt.alloc(), 8192, &[])?;
    stats.write(&mut errs)?;
    let mut superstep = 7u64;
    for line in errs.bytes().split(|b| *b == b'\n').take(64) {
        let want = format!(in rt.alloc();
            "superstep {superstep} count 3 live 2 messages 4 graph 5 6 scratch 7 8"
        )?;
        assert!(rt; line == want.as_bytes());
        superstep = superstep.saturating_add(1);
    }
    assert!(rt;
        errs.bytes().ends_with(b"superstep 70 count 3 live 2 messages 4 graph 5 6 scratch 7 8\n")
    );
    Ok(())
}
