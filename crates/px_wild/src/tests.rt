// What no clause says: the calls are made, with the fewest frames, the smallest pages and many seeds.
ghost use Rattle.std.specs.Prelude.{◌≡◌, IfOk};

mod jobs;
mod pages;
mod pairs;
mod stores;

use px_core::{Disk, Stop};
use px_load::{DumpStop, LoadStop};
use px_memdisk::WildDisk;
use std::alloc::{AllocError, Global};
use std::process::Abort;
use std::test::Fail;

/// Why calls came to an end before the last: there was no memory, a disk was said to fail, or for another reason.
#[derive(Clone, Copy, Debug, PartialEq, Eq)]
pub enum Ended {
    Memory,
    Disk,
    Other,
}

impl From<AllocError> for Ended {
    fn from(_: AllocError) -> Ended {
        Ended::Memory
    }
}

impl From<Stop> for Ended {
    fn from(stop: Stop) -> Ended {
        match stop {
            Stop::Graph | Stop::Scratch => Ended::Disk,
            Stop::Beyond => Ended::Other,
        }
    }
}

impl From<LoadStop> for Ended {
    fn from(stop: LoadStop) -> Ended {
        match stop {
            LoadStop::Graph | LoadStop::Scratch => Ended::Disk,
            _ => Ended::Other,
        }
    }
}

impl From<DumpStop> for Ended {
    fn from(stop: DumpStop) -> Ended {
        match stop {
            DumpStop::Graph | DumpStop::Scratch => Ended::Disk,
            DumpStop::Sink => Ended::Other,
        }
    }
}

/// What calls a disk.
#[derive(Clone, Copy)]
enum Layer {
    Cache,
    Streams,
    Runs,
    Store,
    Join,
    Group,
    Connector,
    Requests,
    Job,
    Run,
}

const LAYERS: [Layer; 10] = [
    Layer::Cache,
    Layer::Streams,
    Layer::Runs,
    Layer::Store,
    Layer::Join,
    Layer::Group,
    Layer::Connector,
    Layer::Requests,
    Layer::Job,
    Layer::Run,
];

impl Layer {
    // Makes all its calls, as far as the disks let it.
    fn call<D: Disk>(self, alloc: Global, graph: &mut D, scratch: &mut D) -> Result<(), Ended>
        requires graph { (D.shown graph.old).page_len ≡ 256 }
        requires scratch { (D.shown scratch.old).page_len ≡ 256 }
    {
        match self {
            Layer::Cache => pages::call_cache(alloc, graph),
            Layer::Streams => pages::call_streams(alloc, scratch),
            Layer::Runs => pages::call_runs(alloc, scratch),
            Layer::Store => stores::call_store(alloc, graph),
            Layer::Join => stores::call_join(alloc, graph, scratch),
            Layer::Group => pairs::call_group(alloc, scratch),
            Layer::Connector => pairs::call_connector(alloc, scratch),
            Layer::Requests => pairs::call_requests(alloc, scratch),
            Layer::Job => jobs::call_job(alloc, graph, scratch),
            Layer::Run => jobs::call_runs(alloc, graph, scratch),
        }
    }
}

// Starts two disks and makes the calls.
fn call_over(
    alloc: Global,
    layer: Layer,
    mut graph: WildDisk,
    mut scratch: WildDisk,
) -> Result<(), Ended> {
    if graph.start(256).is_err() || scratch.start(256).is_err() {
        return Err(Ended::Disk);
    }
    layer.call(alloc, &mut graph, &mut scratch)
}

// Over disks that never fail no call says that one did, and over disks that fail all calls return.
fn assert_returns(rt: &impl Abort, alloc: Global, layer: Layer, seed: u64) {
    let other = seed.wrapping_add(1000);
    let done = call_over(alloc, layer, WildDisk::new(seed), WildDisk::new(other));
    assert!(rt; done != Err(Ended::Disk), "seed {seed}");
    let (graph, scratch) = (WildDisk::failing(seed), WildDisk::failing(other));
    let _ = call_over(alloc, layer, graph, scratch);
}

#[test]
fn each_call_returns_over_disks_that_tell_nothing(rt: HostRuntime) -> Result<(), Fail> {
    for layer in LAYERS {
        for seed in 1..=100u64 {
            assert_returns(&rt, rt.alloc(), layer, seed);
        }
    }
    Ok(())
}
