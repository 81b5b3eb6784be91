//! Times libraries of px: pages of tuples, files of tuples, the parser of graph text, stores, groupings, programs and their printing, a superstep, and a load and a dump.
//!
//!     px_bench pages N            fills N pages of tuples and walks them
//!     px_bench parse              parses the graph text on standard input
//!     px_bench streams N FOLDER   writes N tuples to a file of a disk in FOLDER and reads them back
//!     px_bench merge N FOLDER     writes 16 runs of N tuples to a file of a disk in FOLDER and merges them
//!     px_bench group N FOLDER     groups N pairs by sorting, with files of a disk in FOLDER
//!     px_bench store PART N FOLDER
//!                                 does PART (load, scan, get, same, grow, random) of the work with a store of N records,
//!                                 with files of a disk in FOLDER and a cache of 22 frames of 262144 bytes
//!     px_bench small PART N FOLDER
//!                                 the same with a cache of 256 frames of 4096 bytes
//!     px_bench superstep N FOLDER computes the first superstep of pagerank on a partition of N vertices with three edges each,
//!                                 within 64 frames of 262144 bytes and with files of two disks in FOLDER
//!     px_bench superstep PART N FOLDER
//!                                 does a part of what that does alone (scan, rank, group), with files of a disk in FOLDER
//!     px_bench load FOLDER        loads the graph text on standard input into a store and dumps it,
//!                                 within 64 frames of 262144 bytes and with files of two disks in FOLDER; it tells the seconds of both
//!     px_bench rank N             loads N vertices, computes them and stores them, in ten rounds
//!     px_bench print N            prints N values as ranks and as distances
//!     px_bench                    does a little of each
//!
//! What a job came to goes to standard output, and the seconds that it took to standard error.
//! The files of `streams`, `merge`, `group`, `store`, `small`, `superstep` and `load` stay. Without words nothing is timed, and the files are removed.
#![tactic(auto)]

mod group;
mod load;
mod merge;
mod pages;
mod parse;
mod print;
mod rank;
mod record;
mod store;
mod streams;
mod superstep;
mod tally;
mod vertices;

use crate::load::Done as Loaded;
use crate::store::{Frames, PARTS, Part};
use crate::superstep::{Done, WORKS, Work};
use crate::tally::Tally;
use anyhow::{Result, bail};
use px_core::MemSource;
use px_filedisk::FileDisk;
use px_sort_group::SortGroup;
use px_stdio::Input;
use std::time::Instant;
use std::{env, fs};

/// What the words ask for.
#[derive(Clone, Copy)]
enum Job {
    /// A little of each job, and no time.
    Little,
    /// So many pages.
    Pages(u64),
    /// The text on standard input.
    Parse,
    /// So many tuples, in a file of the folder that the last word names.
    Streams(u64),
    /// So many tuples a run, in a file of the folder that the last word names.
    Merge(u64),
    /// So many pairs, with files of the folder that the last word names.
    Group(u64),
    /// A part of the work with so many records, over these frames and in a file of the folder that the last word names.
    Store(Frames, Part, u64),
    /// So many vertices, with files of the folder that the last word names.
    Superstep(u64),
    /// A part of a superstep of so many vertices, with files of the folder that the last word names.
    Work(Work, u64),
    /// The text on standard input, with files of the folder that the last word names.
    Load,
    /// So many vertices.
    Rank(u64),
    /// So many values.
    Print(u64),
}

const LITTLE_PAGES: u64 = 3;

const LITTLE_TEXT: &[u8; 55] = b"# six vertices\n1 2:3 4\r\n2 1\n\n3\n 4 1:10 2 3:7\n5\t5:0 \n6 1";

const LITTLE_TUPLES: u64 = 20_000;

const LITTLE_FOLDER: &str = "px_bench_streams";

const LITTLE_FILE: &str = "px_bench_streams/f1";

const LITTLE_MERGE: &str = "px_bench_merge";

const LITTLE_RUNS: &str = "px_bench_merge/f0";

const LITTLE_GROUP: &str = "px_bench_group";

const LITTLE_STORE: &str = "px_bench_store";

const LITTLE_RECORDS: u64 = 6_000;

const LITTLE_TREE: &str = "px_bench_store/f0";

const LITTLE_SUPERSTEP: &str = "px_bench_superstep";

const LITTLE_VERTICES: u64 = 2_000;

const LITTLE_LOAD: &str = "px_bench_load";

const LITTLE_GRAPH: &[u8; 35] = b"4 1:10 2\n1 2\n# three\n3\n 2 3:7 5\n5 1";

const LITTLE_COUNT: u64 = 100;

const ROUNDS: u64 = 10;

fn counted_job(name: &str, count: u64) -> Option<Job> {
    if name == "pages" {
        Some(Job::Pages(count))
    } else if name == "rank" {
        Some(Job::Rank(count))
    } else if name == "print" {
        Some(Job::Print(count))
    } else {
        None
    }
}

fn filed_job(name: &str, count: u64) -> Option<Job> {
    if name == "streams" {
        Some(Job::Streams(count))
    } else if name == "merge" {
        Some(Job::Merge(count))
    } else if name == "group" {
        Some(Job::Group(count))
    } else if name == "superstep" {
        Some(Job::Superstep(count))
    } else {
        None
    }
}

fn store_job(name: &str, part: &str, count: u64) -> Option<Job> {
    let part = store::part_of(part)?;
    if name == "store" {
        Some(Job::Store(Frames::Large, part, count))
    } else if name == "small" {
        Some(Job::Store(Frames::Small, part, count))
    } else {
        None
    }
}

fn part_job(name: &str, part: &str, count: u64) -> Option<Job> {
    if name == "superstep" {
        Some(Job::Work(superstep::work_of(part)?, count))
    } else {
        store_job(name, part, count)
    }
}

fn job_of(words: &[String]) -> Option<Job> {
    match words {
        [] => Some(Job::Little),
        [name] if name.as_str() == "parse" => Some(Job::Parse),
        [name, _] if name.as_str() == "load" => Some(Job::Load),
        [name, count] => counted_job(name.as_str(), count.parse().ok()?),
        [name, count, _] => filed_job(name.as_str(), count.parse().ok()?),
        [name, part, count, _] => part_job(name.as_str(), part.as_str(), count.parse().ok()?),
        _ => None,
    }
}

// Prints what a job came to: so many things of this name, and their checksum.
fn print_tally(rt: &HostRuntime, job: &str, tally: Tally, things: &str) -> Result<()> {
    println!(rt; "{job}: {} {things}, checksum {}", tally.count, tally.sum)?;
    Ok(())
}

fn print_streams(rt: &HostRuntime, (tally, pages): (Tally, u64)) -> Result<()> {
    println!(rt;
        "streams: {} tuples on {} pages, checksum {}",
        tally.count, pages, tally.sum
    )?;
    Ok(())
}

fn print_superstep(rt: &HostRuntime, done: &Done) -> Result<()> {
    println!(rt;
        "superstep: {} sends, {} requests, {} contributed, {} folds, checksum {}",
        done.part.sends, done.part.requests, done.part.contributed, done.folds.count, done.folds.sum
    )?;
    Ok(())
}

fn print_load(rt: &HostRuntime, done: &Loaded) -> Result<()> {
    println!(rt;
        "load: {} vertices, {} bytes, checksum {}",
        done.vertices, done.bytes, done.checksum
    )?;
    Ok(())
}

fn print_seconds(rt: &HostRuntime, start: Instant) -> Result<()> {
    let spent = start.elapsed(rt)?;
    eprintln!(rt; "{:.6}", spent.as_secs_f64())?;
    Ok(())
}

// A little of the jobs that need no files.
fn little_in_memory(rt: &HostRuntime) -> Result<()> {
    let alloc = rt.alloc();
    let mut source = MemSource::new(alloc, LITTLE_TEXT, &[])?;
    print_tally(rt, "pages", pages::run(alloc, LITTLE_PAGES)?, "tuples")?;
    print_tally(rt, "parse", parse::run(alloc, &mut source)?, "vertices")?;
    let records = rank::build(alloc, LITTLE_COUNT)?;
    let ranked = rank::run(alloc, &records, LITTLE_COUNT, ROUNDS)?;
    print_tally(rt, "rank", ranked, "vertices")?;
    print_tally(rt, "print", print::run(alloc, LITTLE_COUNT)?, "bytes")
}

fn little_streams(rt: HostRuntime) -> Result<()> {
    let mut disk = FileDisk::new(rt, rt.alloc(), LITTLE_FOLDER)?;
    print_streams(&rt, streams::run(rt.alloc(), &mut disk, LITTLE_TUPLES)?)?;
    fs::remove_file(&rt, LITTLE_FILE)?;
    fs::remove_dir(&rt, LITTLE_FOLDER)?;
    Ok(())
}

fn little_merge(rt: HostRuntime) -> Result<()> {
    let mut disk = FileDisk::new(rt, rt.alloc(), LITTLE_MERGE)?;
    let tally = merge::run(rt.alloc(), &mut disk, LITTLE_TUPLES)?;
    print_tally(&rt, "merge", tally, "tuples")?;
    fs::remove_file(&rt, LITTLE_RUNS)?;
    fs::remove_dir(&rt, LITTLE_MERGE)?;
    Ok(())
}

fn little_group(rt: HostRuntime) -> Result<()> {
    let mut disk = FileDisk::new(rt, rt.alloc(), LITTLE_GROUP)?;
    let tally = group::run::<_, SortGroup>(rt.alloc(), &mut disk, LITTLE_TUPLES)?;
    print_tally(&rt, "group", tally, "vids")?;
    fs::remove_dir(&rt, LITTLE_GROUP)?;
    Ok(())
}

// All parts of the work with a store whose cache has these frames.
fn little_store(rt: HostRuntime, frames: Frames) -> Result<()> {
    let mut disk = FileDisk::new(rt, rt.alloc(), LITTLE_STORE)?;
    for part in PARTS {
        let (tally, _) = store::run(&rt, &mut disk, frames, part, LITTLE_RECORDS)?;
        print_tally(&rt, part.name(), tally, "records")?;
    }
    fs::remove_file(&rt, LITTLE_TREE)?;
    fs::remove_dir(&rt, LITTLE_STORE)?;
    Ok(())
}

fn little_superstep(rt: HostRuntime) -> Result<()> {
    let (done, _) = superstep::run(rt, LITTLE_SUPERSTEP, LITTLE_VERTICES)?;
    print_superstep(&rt, &done)?;
    let mut disk = FileDisk::new(rt, rt.alloc(), LITTLE_SUPERSTEP)?;
    for work in WORKS {
        let (tally, _) = superstep::run_work(&rt, &mut disk, work, LITTLE_VERTICES)?;
        print_tally(&rt, work.name(), tally, work.things())?;
    }
    fs::remove_dir_all(&rt, LITTLE_SUPERSTEP)?;
    Ok(())
}

fn little_load(rt: HostRuntime) -> Result<()> {
    let mut source = MemSource::new(rt.alloc(), LITTLE_GRAPH, &[])?;
    print_load(&rt, &load::run(rt, LITTLE_LOAD, &mut source)?)?;
    fs::remove_dir_all(&rt, LITTLE_LOAD)?;
    Ok(())
}

fn do_little(rt: HostRuntime) -> Result<()> {
    little_in_memory(&rt)?;
    little_streams(rt)?;
    little_merge(rt)?;
    little_group(rt)?;
    little_store(rt, Frames::Large)?;
    little_store(rt, Frames::Small)?;
    little_superstep(rt)?;
    little_load(rt)
}

fn time_pages(rt: &HostRuntime, pages: u64) -> Result<()> {
    let start = Instant::now(rt)?;
    let tally = pages::run(rt.alloc(), pages)?;
    print_seconds(rt, start)?;
    print_tally(rt, "pages", tally, "tuples")
}

fn time_parse(rt: &HostRuntime) -> Result<()> {
    let mut source = Input::new(rt.stdin());
    let start = Instant::now(rt)?;
    let tally = parse::run(rt.alloc(), &mut source)?;
    print_seconds(rt, start)?;
    print_tally(rt, "parse", tally, "vertices")
}

fn time_streams(rt: HostRuntime, count: u64, folder: Option<&String>) -> Result<()> {
    let Some(folder) = folder else {
        bail!("there is no folder");
    };
    let mut disk = FileDisk::new(rt, rt.alloc(), folder.as_str())?;
    let start = Instant::now(&rt)?;
    let done = streams::run(rt.alloc(), &mut disk, count)?;
    print_seconds(&rt, start)?;
    print_streams(&rt, done)
}

fn time_merge(rt: HostRuntime, count: u64, folder: Option<&String>) -> Result<()> {
    let Some(folder) = folder else {
        bail!("there is no folder");
    };
    let mut disk = FileDisk::new(rt, rt.alloc(), folder.as_str())?;
    let start = Instant::now(&rt)?;
    let tally = merge::run(rt.alloc(), &mut disk, count)?;
    print_seconds(&rt, start)?;
    print_tally(&rt, "merge", tally, "tuples")
}

fn time_group(rt: HostRuntime, count: u64, folder: Option<&String>) -> Result<()> {
    let Some(folder) = folder else {
        bail!("there is no folder");
    };
    let mut disk = FileDisk::new(rt, rt.alloc(), folder.as_str())?;
    let start = Instant::now(&rt)?;
    let tally = group::run::<_, SortGroup>(rt.alloc(), &mut disk, count)?;
    print_seconds(&rt, start)?;
    print_tally(&rt, "group", tally, "vids")
}

fn time_store(
    rt: HostRuntime,
    frames: Frames,
    part: Part,
    count: u64,
    folder: Option<&String>,
) -> Result<()> {
    let Some(folder) = folder else {
        bail!("there is no folder");
    };
    let mut disk = FileDisk::new(rt, rt.alloc(), folder.as_str())?;
    let (tally, spent) = store::run(&rt, &mut disk, frames, part, count)?;
    eprintln!(rt; "{:.6}", spent.as_secs_f64())?;
    print_tally(&rt, part.name(), tally, "records")
}

fn time_superstep(rt: HostRuntime, count: u64, folder: Option<&String>) -> Result<()> {
    let Some(folder) = folder else {
        bail!("there is no folder");
    };
    let (done, spent) = superstep::run(rt, folder.as_str(), count)?;
    eprintln!(rt; "{:.6}", spent.as_secs_f64())?;
    print_superstep(&rt, &done)
}

fn time_work(rt: HostRuntime, work: Work, count: u64, folder: Option<&String>) -> Result<()> {
    let Some(folder) = folder else {
        bail!("there is no folder");
    };
    let mut disk = FileDisk::new(rt, rt.alloc(), folder.as_str())?;
    let (tally, spent) = superstep::run_work(&rt, &mut disk, work, count)?;
    eprintln!(rt; "{:.6}", spent.as_secs_f64())?;
    print_tally(&rt, work.name(), tally, work.things())
}

fn time_load(rt: HostRuntime, folder: Option<&String>) -> Result<()> {
    let Some(folder) = folder else {
        bail!("there is no folder");
    };
    let mut source = Input::new(rt.stdin());
    let done = load::run(rt, folder.as_str(), &mut source)?;
    eprintln!(rt; "{:.6}", done.load.as_secs_f64())?;
    eprintln!(rt; "{:.6}", done.dump.as_secs_f64())?;
    print_load(&rt, &done)
}

fn time_rank(rt: &HostRuntime, count: u64) -> Result<()> {
    let records = rank::build(rt.alloc(), count)?;
    let start = Instant::now(rt)?;
    let tally = rank::run(rt.alloc(), &records, count, ROUNDS)?;
    print_seconds(rt, start)?;
    print_tally(rt, "rank", tally, "vertices")
}

fn time_print(rt: &HostRuntime, count: u64) -> Result<()> {
    let start = Instant::now(rt)?;
    let tally = print::run(rt.alloc(), count)?;
    print_seconds(rt, start)?;
    print_tally(rt, "print", tally, "bytes")
}

fn main(rt: HostRuntime) -> Result<()> {
    let mut words = Vec::new(rt.alloc());
    for word in env::args(&rt)?.skip(1) {
        words.push(word)?;
    }
    match job_of(&words) {
        Some(Job::Little) => do_little(rt),
        Some(Job::Pages(pages)) => time_pages(&rt, pages),
        Some(Job::Parse) => time_parse(&rt),
        Some(Job::Streams(count)) => time_streams(rt, count, words.last()),
        Some(Job::Merge(count)) => time_merge(rt, count, words.last()),
        Some(Job::Group(count)) => time_group(rt, count, words.last()),
        Some(Job::Store(frames, part, count)) => {
            time_store(rt, frames, part, count, words.last())
        }
        Some(Job::Superstep(count)) => time_superstep(rt, count, words.last()),
        Some(Job::Work(work, count)) => time_work(rt, work, count, words.last()),
        Some(Job::Load) => time_load(rt, words.last()),
        Some(Job::Rank(count)) => time_rank(&rt, count),
        Some(Job::Print(count)) => time_print(&rt, count),
        None => bail!(
            "the words are `pages N`, `parse`, `streams N FOLDER`, `merge N FOLDER`, `group N FOLDER`, `store PART N FOLDER`, `small PART N FOLDER`, `superstep N FOLDER`, `superstep PART N FOLDER`, `load FOLDER`, `rank N` or `print N`"
        ),
    }
}
