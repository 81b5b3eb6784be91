// Whole runs over devices in memory: what is written, what is said, and how they end where a device fails.
ghost use Rattle.px_core.specs.Memory.{IsLeft};

use crate::run::px_run;
use arrayvec::ArrayVec;
use px_core::{Disk, Failed, HighTurns, ListTurns, MemSink, MemSource, SeedTurns, Source, Turns};
use px_memdisk::{MemDisk, WildDisk};
use std::alloc::{AllocError, Global};
use std::process::Abort;
use std::test::Fail;

/// A source in memory that counts its calls, and those after one that failed.
#[derive(Drop)]
struct Watched {
    source: MemSource,
    failed: bool,
    calls: u32,
    after: u32,
}

impl Source for Watched {
    ghost left = { λ s l. IsLeft s.source l };

    ghost faults = { λ s. s.source.faults };

    fn read(&mut self, into: &mut [u8]) -> Result<usize, Failed> {
        self.calls = self.calls.saturating_add(1);
        self.after = self.after.saturating_add(u32::from(self.failed));
        match self.source.read(into) {
            Ok(count) => Ok(count),
            Err(failed) => {
                self.failed = true;
                Err(failed)
            }
        }
    }
}

/// Turns that note how often they were started, and the last seed.
#[derive(Drop)]
struct Noted<T: Turns> {
    turns: T,
    starts: u32,
    seed: Option<u64>,
}

impl<T: Turns> Noted<T> {
    fn new(turns: T) -> Noted<T> {
        Noted {
            turns,
            starts: 0,
            seed: None,
        }
    }
}

impl<T: Turns> Turns for Noted<T> {
    fn start(&mut self, seed: u64) {
        self.starts = self.starts.saturating_add(1);
        self.seed = Some(seed);
        self.turns.start(seed);
    }

    fn pick(&mut self, ready: u32) -> u32 {
        self.turns.pick(ready)
    }
}

/// A disk that passes each call on and notes the files of updates to which pages with tuples are written, in order.
#[derive(Drop)]
struct Noting<D: Disk> {
    disk: D,
    files: ArrayVec<u32, 8>,
}

impl<D: Disk> Disk for Noting<D> {
    ghost shown = { λ d. D.shown d.disk };

    fn start(&mut self, frame_bytes: u32) -> Result<(), Failed> {
        self.disk.start(frame_bytes)
    }

    fn read(&mut self, file: u32, page: u64, into: &mut [u8]) -> Result<(), Failed> {
        self.disk.read(file, page, into)
    }

    fn write(&mut self, file: u32, page: u64, from: &[u8]) -> Result<(), Failed> {
        // The number of tuples stands in bytes 4 to 7 of a page.
        let has_tuples = from.iter().skip(4).take(4).any(|byte| *byte > 0);
        if has_tuples && (128..144).contains(&file) && !self.files.is_full() {
            self.files.push(file);
        }
        self.disk.write(file, page, from)
    }

    fn clear(&mut self, file: u32) -> Result<(), Failed> {
        self.disk.clear(file)
    }

    fn reads(&self) -> u64 {
        self.disk.reads()
    }

    fn writes(&self) -> u64 {
        self.disk.writes()
    }
}

/// Which calls of the devices fail, by their numbers, and how much the output takes.
#[derive(Drop, Clone, Copy)]
struct Setting<'a> {
    source: &'a [u64],
    out: &'a [u64],
    errs: &'a [u64],
    graph: &'a [u64],
    scratch: &'a [u64],
    most: u64,
}

const WORKING: Setting = Setting {
    source: &[],
    out: &[],
    errs: &[],
    graph: &[],
    scratch: &[],
    most: 4096,
};

const FIRST_READ: Setting = Setting {
    source: &[1],
    ..WORKING
};

const SECOND_READ: Setting = Setting {
    source: &[2],
    ..WORKING
};

const FIRST_WRITE: Setting = Setting {
    out: &[1],
    ..WORKING
};

const NO_GRAPH: Setting = Setting {
    graph: &[1],
    ..WORKING
};

const NO_SCRATCH: Setting = Setting {
    scratch: &[1],
    ..WORKING
};

const FULL: Setting = Setting {
    most: 20,
    ..WORKING
};

const MUTE: Setting = Setting {
    errs: &[1],
    ..WORKING
};

const MUTE_NO_GRAPH: Setting = Setting {
    errs: &[1],
    ..NO_GRAPH
};

/// A run and its devices.
#[derive(Drop)]
struct Ran {
    status: u8,
    source: Watched,
    out: MemSink,
    errs: MemSink,
}

fn strings(alloc: Global, words: &str) -> Result<Vec<String>, AllocError> {
    let mut strings = Vec::new(alloc);
    for word in words.split_whitespace() {
        strings.push(word.to_string(alloc)?)?;
    }
    Ok(strings)
}

fn run<T: Turns>(
    alloc: Global,
    setting: Setting,
    words: &str,
    text: &str,
    turns: &mut T,
) -> Result<Ran, AllocError> {
    let words = strings(alloc, words)?;
    let mut source = Watched {
        source: MemSource::new(alloc, text.as_bytes(), setting.source)?,
        failed: false,
        calls: 0,
        after: 0,
    };
    let mut out = MemSink::new(alloc, setting.most, setting.out)?;
    let mut errs = MemSink::new(alloc, 4096, setting.errs)?;
    let mut graph = MemDisk::new(alloc, setting.graph)?;
    let mut scratch = MemDisk::new(alloc, setting.scratch)?;
    let status = px_run(
        alloc,
        &words,
        &mut source,
        &mut out,
        &mut errs,
        &mut graph,
        &mut scratch,
        turns,
    );
    Ok(Ran {
        status,
        source,
        out,
        errs,
    })
}

// A vertex with so many edges as fit room, and no byte more.
fn widest(alloc: Global) -> Result<String, AllocError> {
    let mut text = String::new(alloc);
    for _ in 0..10920 {
        text.push_str("1 ")?;
    }
    Ok(text)
}

const USAGE: &str =
    "px: usage: px --program reach|sssp|components|pagerank|chains|reverse|close|prune [--NAME VALUE ..]\n";

const REACH: &str = "--program reach --from 1";

const TWO_STEPS: &str = "--program reach --from 1 --max-supersteps 2";

const NO_STEPS: &str = "--program reach --from 1 --max-supersteps 0";

const SSSP: &str = "--program sssp --from 1";

const ONE_ROUND: &str = "--program pagerank --rounds 1";

const FOUR: &str = "1 2\n2 3\n3\n4 1\n";

const FOUR_REACHED: &str = "1 1 2:1\n2 1 3:1\n3 1\n4 0 1:1\n#superstep 3 aggregate 1 vertices 4\n";

const LARGEST: &str = "0 18446744073709551615\n18446744073709551615 0\n";

const LARGEST_REACHED: &str =
    "0 1 18446744073709551615:1\n18446744073709551615 1 0:1\n#superstep 3 aggregate 0 vertices 2\n";

const SMALL_CHAINS: &str = "--program chains --frame-bytes 256";

const PATH: &str = "1 2\n2 3\n3\n";

const PATH_JOINED: &str = "1 1+2+3\n#superstep 6 aggregate 1 vertices 1\n";

// How many calls of each device there are in that run.
const SOURCE_CALLS: u64 = 2;

const SINK_CALLS: u64 = 1;

const GRAPH_CALLS: u64 = 5;

const SCRATCH_CALLS: u64 = 266;

const SMALL_REACH: &str = "--program reach --from 1 --frame-bytes 256";

const SMALL_SSSP: &str = "--program sssp --from 1 --frame-bytes 256";

const SMALL_REVERSE: &str = "--program reverse --frame-bytes 256";

const STAR: &str = "1 2 3 4 5 6 7 8\n";

const STAR_REACHED: &str =
    "1 1 2:1 3:1 4:1 5:1 6:1 7:1 8:1\n2 1\n3 1\n4 1\n5 1\n6 1\n7 1\n8 1\n#superstep 2 aggregate 7 vertices 8\n";

const PAIR: &str = "1 2\n2 1\n3\n";

const PAIR_LABELLED: &str = "1 1 2:1\n2 1 1:1\n3 3\n#superstep 3 aggregate 0 vertices 3\n";

const EMPTY: &str = "#superstep 0 aggregate 0 vertices 0\n";

const SEVEN: &str = "7 1\n#superstep 1 aggregate 1 vertices 1\n";

/// The devices, the words, the text, the status, the output and the line on the error sink.
type Case<'a> = (Setting<'a>, &'a str, &'a str, u8, &'a str, &'a str);

const CASES: &[Case] = &[
    (WORKING, REACH, FOUR, 0, FOUR_REACHED, ""),
    (WORKING, REACH, "4 1\n3\n2 3\n1 2", 0, FOUR_REACHED, ""),
    (
        WORKING,
        "--program=reach --from=1 --max-supersteps=3",
        FOUR,
        0,
        FOUR_REACHED,
        "",
    ),
    (
        WORKING,
        TWO_STEPS,
        FOUR,
        5,
        "",
        "px: not halted after 2 supersteps\n",
    ),
    (WORKING, REACH, "", 0, EMPTY, ""),
    (WORKING, NO_STEPS, "", 0, EMPTY, ""),
    (
        WORKING,
        NO_STEPS,
        "1\n",
        5,
        "",
        "px: not halted after 0 supersteps\n",
    ),
    (
        WORKING,
        REACH,
        "1 9\n",
        0,
        "1 1 9:1\n9 1\n#superstep 2 aggregate 1 vertices 2\n",
        "",
    ),
    (
        WORKING,
        "--program reach --from 7",
        " \t\n# c\n7\r\n",
        0,
        SEVEN,
        "",
    ),
    (WORKING, "--program reach --from 7", "7", 0, SEVEN, ""),
    (
        WORKING,
        "--program reach --from 0",
        LARGEST,
        0,
        LARGEST_REACHED,
        "",
    ),
    (
        WORKING,
        SSSP,
        "1 2:5 3:1\n3 2:1\n2\n",
        0,
        "1 0 2:5 3:1\n2 2\n3 1 2:1\n#superstep 3 aggregate 1 vertices 3\n",
        "",
    ),
    (
        WORKING,
        SSSP,
        "1\n2 1\n",
        0,
        "1 0\n2 inf 1:1\n#superstep 1 aggregate 1 vertices 2\n",
        "",
    ),
    (WORKING, "--program components", PAIR, 0, PAIR_LABELLED, ""),
    (
        WORKING,
        "--program components --partitions 4 --frames 29",
        PAIR,
        11,
        "",
        "px: needs 30 frames, has 29\n",
    ),
    (
        WORKING,
        "--program components --partitions 4 --frames 30",
        PAIR,
        0,
        PAIR_LABELLED,
        "",
    ),
    (WORKING, "--program chains", PATH, 0, PATH_JOINED, ""),
    (
        WORKING,
        "--program chains",
        "1 2\n2 1\n",
        0,
        "1 1 2:1\n2 2 1:1\n#superstep 2 aggregate 0 vertices 2\n",
        "",
    ),
    (
        WORKING,
        "--program chains",
        "1 2\n2 1\n3 1\n",
        0,
        "1 1+2 1:1\n3 3 1:1\n#superstep 5 aggregate 0 vertices 2\n",
        "",
    ),
    (
        WORKING,
        "--program reverse",
        "1 2:5 3\n2 3\n",
        0,
        "1 -\n2 - 1:5\n3 - 1:1 2:1\n#superstep 2 aggregate 3 vertices 3\n",
        "",
    ),
    (
        WORKING,
        SMALL_REVERSE,
        "1 9\n2 9\n3 9\n4 9\n5 9\n6 9\n7 9\n8 9\n",
        4,
        "",
        "px: beyond the limits in superstep 2\n",
    ),
    (
        WORKING,
        SMALL_REVERSE,
        "1 10\n2 10\n3 10\n4 10\n5 10\n6 10\n7 10\n8 10\n9 10\n",
        4,
        "",
        "px: beyond the limits in superstep 1\n",
    ),
    (
        WORKING,
        "--program close",
        "1 9 9\n2 1\n",
        0,
        "1 - 9:1 9:1\n2 - 1:1\n9 -\n#superstep 2 aggregate 1 vertices 3\n",
        "",
    ),
    (
        WORKING,
        "--program prune",
        "1 2\n2\n3\n",
        0,
        "1 - 2:1\n2 -\n#superstep 2 aggregate 0 vertices 2\n",
        "",
    ),
    (WORKING, SMALL_REACH, STAR, 0, STAR_REACHED, ""),
    (
        WORKING,
        SMALL_REACH,
        "1 2 3 4 5 6 7 8 9\n",
        2,
        "",
        "px: line 1: wide\n",
    ),
    (
        WORKING,
        SMALL_SSSP,
        STAR,
        4,
        "",
        "px: beyond the limits in superstep 1\n",
    ),
    (
        WORKING,
        ONE_ROUND,
        "1 2\n2 1\n",
        0,
        "1 500000000000 2:1\n2 500000000000 1:1\n#superstep 2 aggregate 1000000000000 vertices 2\n",
        "",
    ),
    (
        WORKING,
        ONE_ROUND,
        "1 2\n",
        0,
        "1 150000000000 2:1\n2 1000000000000\n#superstep 2 aggregate 1150000000000 vertices 2\n",
        "",
    ),
    (
        WORKING,
        REACH,
        "5 6\n5 7\n3\n3\n",
        3,
        "",
        "px: vertex 3 twice\n",
    ),
    (WORKING, REACH, "3\n3\n1 x\n", 2, "", "px: line 3: form\n"),
    (WORKING, REACH, "1 x\n1 2\n", 2, "", "px: line 1: form\n"),
    (WORKING, REACH, "1 2:\n", 2, "", "px: line 1: form\n"),
    (WORKING, REACH, "1 2\n2 x\n", 2, "", "px: line 2: form\n"),
    (
        WORKING,
        REACH,
        "1 18446744073709551616\n",
        2,
        "",
        "px: line 1: number\n",
    ),
    (
        WORKING,
        REACH,
        "1 2:4294967296\n",
        2,
        "",
        "px: line 1: number\n",
    ),
    (WORKING, "--help", FOUR, 1, "", USAGE),
    (FIRST_READ, REACH, FOUR, 8, "", "px: input failed\n"),
    (SECOND_READ, REACH, FOUR, 8, "", "px: input failed\n"),
    (FIRST_WRITE, REACH, FOUR, 9, "", "px: output failed\n"),
    (
        FULL,
        REACH,
        FOUR,
        9,
        "1 1 2:1\n2 1 3:1\n3 1\n",
        "px: output failed\n",
    ),
    (MUTE, REACH, FOUR, 0, FOUR_REACHED, ""),
    (MUTE, "--help", FOUR, 1, "", ""),
    (MUTE, REACH, "1 x\n", 2, "", ""),
    (MUTE, REACH, "3\n3\n", 3, "", ""),
    (MUTE, TWO_STEPS, FOUR, 5, "", ""),
    (NO_GRAPH, REACH, FOUR, 6, "", "px: graph disk failed\n"),
    (NO_SCRATCH, REACH, FOUR, 7, "", "px: scratch disk failed\n"),
    (MUTE_NO_GRAPH, REACH, FOUR, 6, "", ""),
    (
        MUTE,
        "--program components --partitions 4 --frames 29",
        PAIR,
        11,
        "",
        "",
    ),
];

fn assert_runs(rt: &impl Abort, alloc: Global, cases: &[Case]) -> Result<(), Fail> {
    for (setting, words, text, status, out, errs) in cases {
        let mut turns = Noted::new(HighTurns::new());
        let run = run(alloc, *setting, words, text, &mut turns)?;
        assert_eq!(rt; run.out.bytes(), out.as_bytes());
        assert_eq!(rt; run.errs.bytes(), errs.as_bytes());
        assert_eq!(rt; run.status, *status, "{words}");
        let refused = *status == 1;
        let seed = if refused { None } else { Some(0) };
        assert_eq!(rt; (turns.seed, turns.starts), (seed, u32::from(!refused)));
        assert_eq!(rt; run.source.after, 0);
        let is_unread = refused || *status == 11;
        assert!(rt; !is_unread || run.source.calls == 0);
    }
    Ok(())
}

#[test]
fn runs(rt: HostRuntime) -> Result<(), Fail> {
    assert_runs(&rt, rt.alloc(), CASES)
}

#[test]
fn vertex_that_passes_room(rt: HostRuntime) -> Result<(), Fail> {
    let text = widest(rt.alloc())?;
    let line = "px: beyond the limits in superstep 1\n";
    let cases: [Case; 2] = [
        (WORKING, SSSP, text.as_str(), 4, "", line),
        (MUTE, SSSP, text.as_str(), 4, "", ""),
    ];
    assert_runs(&rt, rt.alloc(), &cases)
}

// The run of the largest vid in this order of turns, which are started once with the seed.
fn assert_turns<T: Turns>(
    rt: &impl Abort,
    alloc: Global,
    words: &str,
    turns: T,
) -> Result<(), Fail> {
    let mut turns = Noted::new(turns);
    let run = run(alloc, WORKING, words, LARGEST, &mut turns)?;
    assert_eq!(rt; run.status, 0);
    assert_eq!(rt; run.out.bytes(), LARGEST_REACHED.as_bytes());
    assert_eq!(rt; (turns.seed, turns.starts), (Some(7), 1));
    Ok(())
}

#[test]
fn any_turns(rt: HostRuntime) -> Result<(), Fail> {
    let alloc = rt.alloc();
    for words in [
        "--program reach --from 0 --seed 7 --partitions 1",
        "--program reach --from 0 --seed 7 --partitions 3",
        "--program reach --from 0 --seed 7 --partitions 16",
    ] {
        assert_turns(&rt, alloc, words, ListTurns::new(alloc, &[])?)?;
        assert_turns(&rt, alloc, words, HighTurns::new())?;
        assert_turns(&rt, alloc, words, SeedTurns::new())?;
    }
    Ok(())
}

// The updates of three of sixteen partitions are written in the order of their turns.
fn assert_noted<T: Turns>(
    rt: &impl Abort,
    alloc: Global,
    turns: &mut T,
    files: &[u32],
) -> Result<(), Fail> {
    let words = strings(alloc, "--program reach --from 1 --partitions 16")?;
    let mut source = MemSource::new(alloc, b"1\n2\n3\n", &[])?;
    let mut out = MemSink::new(alloc, 4096, &[])?;
    let mut errs = MemSink::new(alloc, 4096, &[])?;
    let mut graph = MemDisk::new(alloc, &[])?;
    let mut scratch = Noting {
        disk: MemDisk::new(alloc, &[])?,
        files: ArrayVec::new(),
    };
    let status = px_run(
        alloc,
        &words,
        &mut source,
        &mut out,
        &mut errs,
        &mut graph,
        &mut scratch,
        turns,
    );
    assert_eq!(rt; status, 0);
    assert_eq!(rt; scratch.files.as_slice(), files);
    Ok(())
}

#[test]
fn partitions_are_computed_by_turns(rt: HostRuntime) -> Result<(), Fail> {
    let alloc = rt.alloc();
    assert_noted(&rt, alloc, &mut HighTurns::new(), &[140, 137, 130])?;
    let mut lowest = ListTurns::new(alloc, &[])?;
    assert_noted(&rt, alloc, &mut lowest, &[130, 137, 140])
}

// The status of a run over disks that tell nothing.
fn run_wild(
    alloc: Global,
    words: &str,
    text: &str,
    mut graph: WildDisk,
    mut scratch: WildDisk,
) -> Result<u8, AllocError> {
    let words = strings(alloc, words)?;
    let mut source = MemSource::new(alloc, text.as_bytes(), &[])?;
    let mut out = MemSink::new(alloc, 4096, &[])?;
    let mut errs = MemSink::new(alloc, 4096, &[])?;
    Ok(px_run(
        alloc,
        &words,
        &mut source,
        &mut out,
        &mut errs,
        &mut graph,
        &mut scratch,
        &mut HighTurns::new(),
    ))
}

// Over such disks a run returns, whatever they answer, and says of none that it failed where none did.
fn assert_returns(rt: &impl Abort, alloc: Global, words: &str, text: &str) -> Result<(), Fail> {
    for seed in 1..=200u64 {
        let graph = WildDisk::new(seed);
        let scratch = WildDisk::new(seed.wrapping_add(1000));
        let status = run_wild(alloc, words, text, graph, scratch)?;
        assert!(rt; status != 6 && status != 7, "seed {seed}: status {status}");
        let graph = WildDisk::failing(seed);
        let scratch = WildDisk::failing(seed.wrapping_add(1000));
        run_wild(alloc, words, text, graph, scratch)?;
    }
    Ok(())
}

#[test]
fn runs_return_over_disks_that_tell_nothing(rt: HostRuntime) -> Result<(), Fail> {
    let reach =
        "--program reach --from 1 --partitions 1 --frames 24 --frame-bytes 256 --max-supersteps 20";
    assert_returns(&rt, rt.alloc(), reach, FOUR)?;
    let chains =
        "--program chains --partitions 1 --frames 24 --frame-bytes 256 --max-supersteps 20";
    assert_returns(&rt, rt.alloc(), chains, PATH)
}

// The input is not read where the graph is generated, and the last line is all that is written.
#[test]
fn generated_graph(rt: HostRuntime) -> Result<(), Fail> {
    let words = "--program components --generate 10 --seed 7";
    let run = run(rt.alloc(), FIRST_READ, words, "x", &mut HighTurns::new())?;
    assert_eq!(rt; run.status, 0);
    assert_eq!(rt; run.source.calls, 0);
    assert_eq!(rt;
        run.out.bytes(),
        b"#superstep 6 aggregate 0 vertices 10\n".as_slice()
    );
    assert!(rt; run.errs.bytes().is_empty());
    Ok(())
}

// A run that halts says of each superstep what it led to; a failing error sink changes nothing.
#[test]
fn statistics(rt: HostRuntime) -> Result<(), Fail> {
    let words = "--program reach --from 1 --stats yes";
    for setting in [WORKING, MUTE] {
        let run = run(rt.alloc(), setting, words, FOUR, &mut HighTurns::new())?;
        assert_eq!(rt; run.status, 0);
        assert_eq!(rt; run.out.bytes(), FOUR_REACHED.as_bytes());
        let first = b"superstep 1 count 4 live 0 messages 1 graph ";
        assert_eq!(rt;
            run.errs.bytes().starts_with(first),
            setting.errs.is_empty()
        );
    }
    let late = "--program reach --from 1 --stats yes --max-supersteps 2";
    let run = run(rt.alloc(), WORKING, late, FOUR, &mut HighTurns::new())?;
    assert_eq!(rt;
        run.errs.bytes(),
        b"px: not halted after 2 supersteps\n".as_slice()
    );
    Ok(())
}

/// The devices that may fail in the middle of a run.
#[derive(Clone, Copy)]
enum Device {
    Source,
    Sink,
    Graph,
    Scratch,
}

impl Device {
    // All work but this one, which fails at these calls.
    fn failing_at(self, calls: &[u64]) -> Setting<'_> {
        match self {
            Device::Source => Setting {
                source: calls,
                ..WORKING
            },
            Device::Sink => Setting {
                out: calls,
                ..WORKING
            },
            Device::Graph => Setting {
                graph: calls,
                ..WORKING
            },
            Device::Scratch => Setting {
                scratch: calls,
                ..WORKING
            },
        }
    }

    // The status and the line of a run in which it fails, and how often it is called in the run that is tried.
    fn failure(self) -> (u8, &'static str, u64) {
        match self {
            Device::Source => (8, "px: input failed\n", SOURCE_CALLS),
            Device::Sink => (9, "px: output failed\n", SINK_CALLS),
            Device::Graph => (6, "px: graph disk failed\n", GRAPH_CALLS),
            Device::Scratch => (7, "px: scratch disk failed\n", SCRATCH_CALLS),
        }
    }
}

// A run in which this call of the device fails: it writes a prefix and says so, or all where there is no such call.
fn assert_fails(rt: &impl Abort, alloc: Global, device: Device, call: u64) -> Result<(), Fail> {
    let calls = [call];
    let setting = device.failing_at(&calls);
    let run = run(alloc, setting, SMALL_CHAINS, PATH, &mut HighTurns::new())?;
    let (status, line, most) = device.failure();
    if call > most {
        assert_eq!(rt; run.status, 0);
        assert_eq!(rt; run.out.bytes(), PATH_JOINED.as_bytes());
        return Ok(());
    }
    assert_eq!(rt; run.status, status);
    assert_eq!(rt; run.errs.bytes(), line.as_bytes());
    assert!(rt; PATH_JOINED.as_bytes().starts_with(run.out.bytes()));
    Ok(())
}

// The same for each call in turn.
fn assert_fails_in_turn(rt: &impl Abort, alloc: Global, device: Device) -> Result<(), Fail> {
    let (_, _, most) = device.failure();
    for call in 1..=most.saturating_add(1) {
        assert_fails(rt, alloc, device, call)?;
    }
    Ok(())
}

#[test]
fn each_call_of_the_source_and_the_sink_fails_in_turn(rt: HostRuntime) -> Result<(), Fail> {
    assert_fails_in_turn(&rt, rt.alloc(), Device::Source)?;
    assert_fails_in_turn(&rt, rt.alloc(), Device::Sink)
}

#[test]
fn each_call_of_the_graph_disk_fails_in_turn(rt: HostRuntime) -> Result<(), Fail> {
    assert_fails_in_turn(&rt, rt.alloc(), Device::Graph)
}

#[test]
fn each_call_of_the_scratch_disk_fails_in_turn(rt: HostRuntime) -> Result<(), Fail> {
    assert_fails_in_turn(&rt, rt.alloc(), Device::Scratch)
}
