// What words ask for, and the words that are refused.
use crate::{Chosen, Job, read_words};
use std::alloc::{AllocError, Global};
use std::test::Fail;

/// Components, with nothing said of the rest.
const PLAIN: Job = Job {
    chosen: Chosen::Components,
    most: 1000,
    partitions: 4,
    frames: 64,
    frame_bytes: 262144,
    seed: 0,
    generate: None,
    stats: false,
};

/// Words, and what they ask for.
const ASKED: &[(&str, Job)] = &[
    ("--program components", PLAIN),
    (
        "--program reach --from 1",
        Job {
            chosen: Chosen::Reach { from: 1 },
            ..PLAIN
        },
    ),
    (
        "--from=1 --program=reach",
        Job {
            chosen: Chosen::Reach { from: 1 },
            ..PLAIN
        },
    ),
    (
        "--program reach --from 00000000000000000007",
        Job {
            chosen: Chosen::Reach { from: 7 },
            ..PLAIN
        },
    ),
    (
        "--program sssp --from 18446744073709551615",
        Job {
            chosen: Chosen::Sssp { from: u64::MAX },
            ..PLAIN
        },
    ),
    (
        "--program=pagerank --rounds 0",
        Job {
            chosen: Chosen::PageRank { rounds: 0 },
            ..PLAIN
        },
    ),
    (
        "--rounds=4294967295 --program pagerank",
        Job {
            chosen: Chosen::PageRank { rounds: u32::MAX },
            ..PLAIN
        },
    ),
    (
        "--max-supersteps 0 --program components",
        Job { most: 0, ..PLAIN },
    ),
    (
        "--program components --max-supersteps=4294967295",
        Job {
            most: u32::MAX,
            ..PLAIN
        },
    ),
    (
        "--program components --partitions 1",
        Job {
            partitions: 1,
            ..PLAIN
        },
    ),
    (
        "--partitions=16 --program components",
        Job {
            partitions: 16,
            ..PLAIN
        },
    ),
    (
        "--frames 1 --program components",
        Job { frames: 1, ..PLAIN },
    ),
    (
        "--program components --frames=65536",
        Job {
            frames: 65536,
            ..PLAIN
        },
    ),
    (
        "--program components --frame-bytes 256",
        Job {
            frame_bytes: 256,
            ..PLAIN
        },
    ),
    (
        "--frame-bytes=1048576 --program components",
        Job {
            frame_bytes: 1048576,
            ..PLAIN
        },
    ),
    (
        "--frame-bytes 00000000000000004096 --program components",
        Job {
            frame_bytes: 4096,
            ..PLAIN
        },
    ),
    (
        "--program components --seed 18446744073709551615",
        Job {
            seed: u64::MAX,
            ..PLAIN
        },
    ),
    (
        "--seed=8 --frame-bytes 512 --frames 7 --partitions 5 --max-supersteps 6 --from 2 --program sssp",
        Job {
            chosen: Chosen::Sssp { from: 2 },
            most: 6,
            partitions: 5,
            frames: 7,
            frame_bytes: 512,
            seed: 8,
            ..PLAIN
        },
    ),
];

/// Words that are refused.
const REFUSED: &[&str] = &[
    "",
    "--help",
    "-h",
    "--",
    "--from 1",
    "--program",
    "--program=",
    "--program Reach --from 1",
    "--program reach",
    "--program reach --from",
    "--program reach 1",
    "--program reach --from -1",
    "--program reach --from=-1",
    "--program reach --from==1",
    "--program reach --from 1 --from 2",
    "--program reach --from 1 --from=1",
    "--program reach --from 1 --program reach",
    "--program reach --from 1 --program components",
    "--program reach --from 1 --rounds 2",
    "--program reach --from 1 --help",
    "--program reach --from 1 --help 2",
    "--program reach --from 1 --Seed 2",
    "--program reach --from 1 --seed 2 --seed 2",
    "--from= --program reach",
    "--program reach --from 18446744073709551616",
    "--program reach --from 000000000000000000001",
    "--program reach --from 1 --max-supersteps 4294967296",
    "--program sssp",
    "--program sssp --rounds 2",
    "--program components --from 1",
    "--program components --from x",
    "--program components --rounds 1",
    "--program pagerank",
    "--program pagerank --from 1",
    "--program pagerank --rounds 3 --from 1",
    "--program pagerank --rounds 4294967296",
    "--program components --partitions 0",
    "--program components --partitions 17",
    "--program components --partitions x",
    "--program components --frames 0",
    "--program components --frames 65537",
    "--program components --frame-bytes 0",
    "--program components --frame-bytes 128",
    "--program components --frame-bytes 300",
    "--program components --frame-bytes 2097152",
    "--program components --seed -1",
    "--program components --seed 18446744073709551616",
];

fn asked(alloc: Global, line: &str) -> Result<Option<Job>, AllocError> {
    let mut words = Vec::new(alloc);
    for word in line.split_whitespace() {
        words.push(String::from_str(alloc, word)?)?;
    }
    read_words(alloc, &words)
}

#[test]
fn words_and_what_they_ask_for(rt: HostRuntime) -> Result<(), Fail> {
    for (line, job) in ASKED {
        assert_eq!(rt; asked(rt.alloc(), line)?, Some(*job), "{line}");
    }
    Ok(())
}

#[test]
fn refused_words(rt: HostRuntime) -> Result<(), Fail> {
    for line in REFUSED {
        assert_eq!(rt; asked(rt.alloc(), line)?, None, "{line}");
    }
    Ok(())
}
