// What no clause says: texts that are loaded and dumped over disks in memory, and of the disks and the sink each call failing in turn.
ghost use Rattle.std.specs.Prelude.{◌≡◌, length};
ghost use Rattle.px_load.specs.Frames.{AreLoadFrames};
ghost use Rattle.px_load.specs.Loading.{IsFree, AreStores};

use crate::tests::{open_desk, open_disk, open_frames, open_stores};
use crate::{DumpStop, LoadFrames, LoadStop, dump, load};
use px_core::{Disk, MemSink, MemSource, Sink, Source};
use px_global_state::Gs;
use px_programs::Reach;
use px_store::{Desk, Store};
use std::alloc::Global;
use std::test::Fail;

// Four vertices, not in the order of their vids, and what is written of them.
const FOUR: &[u8] = b"4 1\n1 2\n3\n2 3\n";

const FOUR_WRITTEN: &[u8] =
    b"1 - 2:1\n2 - 3:1\n3 -\n4 - 1:1\n#superstep 0 aggregate 0 vertices 4\n";

// Vertices whose text fills more than one frame, and which have more pages than the cache has frames.
const MANY: &[u8] =
    b"60\n59\n58\n57\n56\n55\n54\n53\n52\n51\n50\n49\n48\n47\n46\n45\n44\n43\n42\n41\n40\n39\n38\n37\n36\n35\n34\n33\n32\n31\n30\n29\n28\n27\n26\n25\n24\n23\n22\n21\n20\n19\n18\n17\n16\n15\n14\n13\n12\n11\n10\n9\n8\n7\n6\n5\n4\n3\n2\n1\n";

const MANY_WRITTEN: &[u8] =
    b"1 -\n2 -\n3 -\n4 -\n5 -\n6 -\n7 -\n8 -\n9 -\n10 -\n11 -\n12 -\n13 -\n14 -\n15 -\n16 -\n17 -\n18 -\n19 -\n20 -\n21 -\n22 -\n23 -\n24 -\n25 -\n26 -\n27 -\n28 -\n29 -\n30 -\n31 -\n32 -\n33 -\n34 -\n35 -\n36 -\n37 -\n38 -\n39 -\n40 -\n41 -\n42 -\n43 -\n44 -\n45 -\n46 -\n47 -\n48 -\n49 -\n50 -\n51 -\n52 -\n53 -\n54 -\n55 -\n56 -\n57 -\n58 -\n59 -\n60 -\n#superstep 0 aggregate 0 vertices 60\n";

// Which calls fail, each counted from 1 and 0 for none.
#[derive(Clone, Copy)]
struct Fails {
    graph: u64,
    scratch: u64,
    sink: u64,
}

const NONE: Fails = Fails {
    graph: 0,
    scratch: 0,
    sink: 0,
};

// How many calls of each disk there are, `start` among them.
const GRAPH_CALLS: u64 = 25;

const SCRATCH_CALLS: u64 = 56;

// What a load and a dump answered.
#[derive(Clone, Copy, Debug, PartialEq, Eq)]
enum End {
    Done,
    NotLoaded(LoadStop),
    NotDumped(DumpStop),
}

// Loads a text, and dumps what was loaded.
fn load_and_dump<R: Source, W: Sink, St: Store, GD: Disk, SD: Disk>(
    source: &mut R,
    summary: bool,
    frames: &mut LoadFrames,
    stores: &mut [St],
    desk: &mut Desk,
    graph: &mut GD,
    scratch: &mut SD,
    sink: &mut W,
) -> End
    requires frames { AreLoadFrames frames.old (length stores.old) (SD.shown scratch.old).page_len }
    requires pages { (GD.shown graph.old).page_len ≡ (SD.shown scratch.old).page_len }
    requires parts { AreStores St.part stores.old }
    requires free { IsFree St.counted desk.old (GD.shown graph.old) }
{
    let count = match load(source, 4096, frames, stores, desk, graph, scratch) {
        Ok(count) => count,
        Err(stop) => return End::NotLoaded(stop),
    };
    let program = Reach::new(1);
    let gs = Gs::first(0, count);
    match dump(
        &program, &gs, summary, frames, stores, desk, graph, scratch, sink,
    ) {
        Ok(()) => End::Done,
        Err(stop) => End::NotDumped(stop),
    }
}

// A text is loaded into three trees and dumped. The sink, and what was answered.
fn round(alloc: Global, text: &[u8], summary: bool, fails: Fails) -> Result<(MemSink, End), Fail> {
    let mut source = MemSource::new(alloc, text, &[])?;
    let mut graph = open_disk(alloc, 256, fails.graph)?;
    let mut scratch = open_disk(alloc, 256, fails.scratch)?;
    let mut frames = open_frames(alloc, 256, 32)?;
    let mut desk = open_desk(alloc, 256)?;
    let mut stores = open_stores();
    let mut sink = MemSink::new(alloc, 4096, &[fails.sink])?;
    let end = load_and_dump(
        &mut source,
        summary,
        &mut frames,
        &mut stores,
        &mut desk,
        &mut graph,
        &mut scratch,
        &mut sink,
    );
    Ok((sink, end))
}

#[test]
fn a_text_is_dumped_in_the_order_of_its_vids(rt: HostRuntime) -> Result<(), Fail> {
    let (sink, end) = round(rt.alloc(), FOUR, false, NONE)?;
    assert_eq!(rt; end, End::Done);
    assert!(rt; sink.bytes() == FOUR_WRITTEN);
    Ok(())
}

#[test]
fn a_summary_is_the_last_line(rt: HostRuntime) -> Result<(), Fail> {
    let (sink, end) = round(rt.alloc(), FOUR, true, NONE)?;
    assert_eq!(rt; end, End::Done);
    assert!(rt; sink.bytes() == b"#superstep 0 aggregate 0 vertices 4\n".as_slice());
    Ok(())
}

#[test]
fn a_text_above_a_frame_goes_to_the_sink_in_two_calls(rt: HostRuntime) -> Result<(), Fail> {
    let alloc = rt.alloc();
    let (sink, end) = round(alloc, MANY, false, Fails { sink: 3, ..NONE })?;
    assert_eq!(rt; end, End::Done);
    assert!(rt; sink.bytes() == MANY_WRITTEN);
    for (fail, held) in [(1, 0), (2, 256)] {
        let (sink, end) = round(alloc, MANY, false, Fails { sink: fail, ..NONE })?;
        assert_eq!(rt; end, End::NotDumped(DumpStop::Sink));
        assert!(rt; sink.bytes() == &MANY_WRITTEN[..held]);
    }
    Ok(())
}

#[test]
fn each_call_of_a_disk_fails_in_turn(rt: HostRuntime) -> Result<(), Fail> {
    let alloc = rt.alloc();
    let mut dumped = false;
    for fail in 2..=GRAPH_CALLS {
        let (sink, end) = round(
            alloc,
            MANY,
            false,
            Fails {
                graph: fail,
                ..NONE
            },
        )?;
        if end == End::NotDumped(DumpStop::Graph) {
            dumped = true;
            assert!(rt; sink.bytes().is_empty());
        } else {
            assert_eq!(rt; end, End::NotLoaded(LoadStop::Graph), "{fail}");
        }
    }
    assert!(rt; dumped);
    dumped = false;
    for fail in 2..=SCRATCH_CALLS {
        let (sink, end) = round(
            alloc,
            MANY,
            false,
            Fails {
                scratch: fail,
                ..NONE
            },
        )?;
        if end == End::NotDumped(DumpStop::Scratch) {
            dumped = true;
            assert!(rt; MANY_WRITTEN.starts_with(sink.bytes()));
        } else {
            assert_eq!(rt; end, End::NotLoaded(LoadStop::Scratch), "{fail}");
        }
    }
    assert!(rt; dumped);
    let fails = Fails {
        graph: GRAPH_CALLS + 1,
        scratch: SCRATCH_CALLS + 1,
        sink: 0,
    };
    let (_, end) = round(alloc, MANY, false, fails)?;
    assert_eq!(rt; end, End::Done);
    Ok(())
}
