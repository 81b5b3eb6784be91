// What no clause says: a whole run of the base plan over disks in memory, with memory enough.
ghost use Rattle.std.specs.Prelude.{◌≡◌};
ghost use Rattle.px_plan_matrix.specs.Base.{IsBasePlan};

use crate::{ConnectorKind, End, GroupKind, JoinKind, Plan, Setup, StoreKind, dispatch, need};
use px_core::{HighTurns, MemSink, MemSource};
use px_memdisk::MemDisk;
use px_programs::Reach;
use std::alloc::Global;
use std::test::Fail;

const TEXT: &[u8] = b"1 2\n2 3\n3\n4 1\n";

const REACHED: &[u8] = b"1 1 2:1\n2 1 3:1\n3 1\n4 0 1:1\n#superstep 3 aggregate 1 vertices 4\n";

// The base plan over three partitions, with no more frames than it needs.
fn setup() -> Setup
    ensures partitions { result.partitions ≡ 3 }
    ensures frames { result.frames ≡ 28 }
    ensures frame_bytes { result.frame_bytes ≡ 256 }
    ensures base { IsBasePlan result.plan }
{
    let plan = Plan {
        join: JoinKind::Full,
        group: GroupKind::Sort,
        connector: ConnectorKind::Plain,
        store: StoreKind::BTree,
    };
    Setup {
        plan,
        partitions: 3,
        frames: 28,
        frame_bytes: 256,
        max: 1000,
        summary: false,
        stats: false,
    }
}

// Runs over disks in memory, and answers how the run ended, what was written, and what the error sink holds of which this call fails.
fn run(alloc: Global, setup: &Setup, failing: u64) -> Result<(End, MemSink, MemSink), Fail>
    requires partitions { setup.now.partitions ≡ 3 }
    requires frames { setup.now.frames ≡ 28 }
    requires frame_bytes { setup.now.frame_bytes ≡ 256 }
    requires base { IsBasePlan setup.now.plan }
{
    let mut source = MemSource::new(alloc, TEXT, &[])?;
    let mut out = MemSink::new(alloc, 4096, &[])?;
    let mut errs = MemSink::new(alloc, 4096, &[failing])?;
    let mut graph = MemDisk::new(alloc, &[])?;
    let mut scratch = MemDisk::new(alloc, &[])?;
    let mut turns = HighTurns::new();
    let end = dispatch(
        alloc,
        Reach::new(1),
        setup,
        &mut source,
        &mut out,
        &mut errs,
        &mut graph,
        &mut scratch,
        &mut turns,
    );
    Ok((end, out, errs))
}

#[test]
fn reached_vertices_are_written(rt: HostRuntime) -> Result<(), Fail> {
    let setup = setup();
    assert_eq!(rt; need(&setup.plan, setup.partitions), setup.frames);
    let (end, out, errs) = run(rt.alloc(), &setup, 0)?;
    assert_eq!(rt; end, End::Done);
    assert!(rt; out.bytes() == REACHED);
    assert!(rt; errs.bytes().is_empty());
    Ok(())
}

const LINES: [&[u8]; 3] = [
    b"superstep 1 count 4 live 0 messages 1 graph ",
    b"superstep 2 count 4 live 0 messages 1 graph ",
    b"superstep 3 count 4 live 0 messages 0 graph ",
];

#[test]
fn lines_are_written_as_far_as_the_error_sink_goes(rt: HostRuntime) -> Result<(), Fail> {
    let setup = Setup {
        stats: true,
        ..setup()
    };
    let (end, out, whole) = run(rt.alloc(), &setup, 0)?;
    assert_eq!(rt; end, End::Done);
    assert!(rt; out.bytes() == REACHED);
    let mut lines = 0usize;
    for (line, begin) in whole.bytes().split(|b| *b == b'\n').zip(LINES) {
        assert!(rt; line.starts_with(begin));
        lines = lines.saturating_add(1);
    }
    assert_eq!(rt; lines, 3);
    for failing in 1..=3u64 {
        let (end, out, errs) = run(rt.alloc(), &setup, failing)?;
        assert_eq!(rt; end, End::Done);
        assert!(rt; out.bytes() == REACHED);
        assert!(rt; whole.bytes().starts_with(errs.bytes()));
        assert!(rt; errs.bytes() != whole.bytes());
    }
    Ok(())
}
