// A job, and whole runs.
ghost use Rattle.std.specs.Prelude.{◌≡◌, true, IfOk};
ghost use Rattle.px_btree.specs.Open.{OpenTreeView};
ghost use Rattle.px_plan_matrix.specs.Base.{IsBasePlan};
ghost use Rattle.px_superstep.specs.Jobs.{IsJob};

use super::Ended;
use px_btree::BTree;
use px_connectors::{Connector, Partitioning};
use px_core::{Disk, HighTurns, MemSink, MemSource, Sink, Source, Turns};
use px_outer_join::OuterJoin;
use px_plan_matrix::{ConnectorKind, End, GroupKind, JoinKind, Plan, Setup, StoreKind, dispatch};
use px_program::{Group, Program};
use px_programs::{Chains, Reach};
use px_sort_group::SortGroup;
use px_store::{Join, Store};
use px_superstep::{Job, open_bank, shares};
use std::alloc::{AllocError, Global};

const TEXT: &[u8] = b"1 2\n2 3\n3\n4 1\n5\n6 7\n7 6\n";

// The base plan over three partitions, with no more frames than it needs.
fn setup() -> Setup
    ensures partitions { result.partitions ≡ 3 }
    ensures frames { result.frames ≡ 28 }
    ensures frame_bytes { result.frame_bytes ≡ 256 }
    ensures base { IsBasePlan result.plan }
{
    let plan = Plan {
        join: JoinKind::Full,
        group: GroupKind::Sort,
        connector: ConnectorKind::Plain,
        store: StoreKind::BTree,
    };
    Setup {
        plan,
        partitions: 3,
        frames: 28,
        frame_bytes: 256,
        max: 20,
        summary: false,
        stats: true,
    }
}

// Loads a text, takes three supersteps, and writes the text of the state.
fn take_three<
    P: Program,
    J: Join,
    G: Group,
    C: Connector,
    St: Store,
    R: Source,
    W: Sink,
    GD: Disk,
    SD: Disk,
    T: Turns,
>(
    job: &mut Job<P, J, G, C, St>,
    source: &mut R,
    out: &mut W,
    graph: &mut GD,
    scratch: &mut SD,
    turns: &mut T,
) -> Result<(), Ended>
    requires job { IsJob St.part St.counted job.old }
    requires graph_len { (GD.shown graph.old).page_len ≡ job.old.bank.frame_len }
    requires scratch_len { (SD.shown scratch.old).page_len ≡ job.old.bank.frame_len }
{
    job.load(source, graph, scratch)?;
    for _ in 0..3u64 {
        job.superstep(graph, scratch, turns)?;
    }
    job.finish(graph, scratch, out, false)?;
    Ok(())
}

type Base<P> = Job<P, OuterJoin, SortGroup, Partitioning, BTree>;

// A job of three partitions with no more frames than it needs.
fn open_job<P: Program>(alloc: Global, program: P) -> Result<Base<P>, AllocError>
    ensures job { IfOk result (IsJob (λ (t : OpenTreeView). t.tree.part) true) }
    ensures frame_len { IfOk result (λ job. job.bank.frame_len ≡ 256) }
{
    let bank = open_bank(alloc, &shares(&setup().plan, 3, 28), 3, 256)?;
    Job::open(alloc, program, 3, bank)
}

// A job that loads, takes three supersteps and writes.
pub fn call_job<GD: Disk, SD: Disk>(
    alloc: Global,
    graph: &mut GD,
    scratch: &mut SD,
) -> Result<(), Ended>
    requires graph { (GD.shown graph.old).page_len ≡ 256 }
    requires scratch { (SD.shown scratch.old).page_len ≡ 256 }
{
    let mut source = MemSource::new(alloc, TEXT, &[])?;
    let mut out = MemSink::new(alloc, 4096, &[])?;
    let mut job = open_job(alloc, Chains::new())?;
    take_three(
        &mut job,
        &mut source,
        &mut out,
        graph,
        scratch,
        &mut HighTurns::new(),
    )
}

// A whole run of this program.
fn run<P: Program, GD: Disk, SD: Disk>(
    alloc: Global,
    program: P,
    graph: &mut GD,
    scratch: &mut SD,
) -> Result<(), Ended> {
    let mut source = MemSource::new(alloc, TEXT, &[])?;
    let mut out = MemSink::new(alloc, 4096, &[])?;
    let mut errs = MemSink::new(alloc, 4096, &[])?;
    let end = dispatch(
        alloc,
        program,
        &setup(),
        &mut source,
        &mut out,
        &mut errs,
        graph,
        scratch,
        &mut HighTurns::new(),
    );
    match end {
        End::Graph | End::Scratch => Err(Ended::Disk),
        _ => Ok(()),
    }
}

// Whole runs that start the disks anew, with requests and without.
pub fn call_runs<GD: Disk, SD: Disk>(
    alloc: Global,
    graph: &mut GD,
    scratch: &mut SD,
) -> Result<(), Ended> {
    run(alloc, Reach::new(1), graph, scratch)?;
    run(alloc, Chains::new(), graph, scratch)
}
