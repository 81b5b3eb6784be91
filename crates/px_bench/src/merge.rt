// Runs of tuples are written to a file of a disk, and merged.
ghost use Rattle.std.specs.Prelude.{◌≡◌, ◌≤◌, ◌+◌, length, IfOk};
ghost use Rattle.px_meaning.specs.Graph.{room_of};

use crate::tally::{Tally, number};
use anyhow::Result;
use px_core::{Disk, Stop};
use px_frames::{Bank, Buf, Frame, Share};
use px_pages::{room, tags};
use px_runs::Runs;
use std::alloc::{AllocError, Global};

/// The bytes of a page.
const PAGE: u32 = 262_144;

/// The numbers of the two files.
const FIRST: u32 = 0;

const SECOND: u32 = 1;

/// How many runs are written and merged.
const RUNS: u32 = 16;

// Key number i of a run: between those of the other runs, in no plain order.
fn key_of(run: u64, i: u64) -> u64 {
    let runs = u64::from(RUNS);
    let place = run.wrapping_mul(7).wrapping_add(i.wrapping_mul(5)) % runs;
    i.wrapping_mul(runs).wrapping_add(place)
}

// Writes one run of so many tuples.
fn write_run<D: Disk>(runs: &mut Runs, disk: &mut D, run: u64, count: u64) -> Result<(), Stop>
    requires page_len { runs.old.writer.page_len ≡ (D.shown disk.old).page_len }
    requires room { 21 ≤ room_of runs.old.writer.page_len }
    ensures disk { (D.shown disk.new).page_len ≡ (D.shown disk.old).page_len }
    ensures runs { runs.new.writer.page_len ≡ runs.old.writer.page_len }
{
    runs.begin_run(disk)?;
    for i in 0..count {
        let key = key_of(run, i);
        let body = (key ^ run).to_be_bytes();
        runs.put(disk, key, tags::MESSAGE, &body)?;
    }
    runs.end_run(disk)
}

// Writes the runs.
fn write<D: Disk>(runs: &mut Runs, disk: &mut D, count: u64) -> Result<(), Stop>
    requires page_len { runs.old.writer.page_len ≡ (D.shown disk.old).page_len }
    requires room { 21 ≤ room_of runs.old.writer.page_len }
    ensures disk { (D.shown disk.new).page_len ≡ (D.shown disk.old).page_len }
    ensures runs { runs.new.writer.page_len ≡ runs.old.writer.page_len }
{
    runs.start(disk)?;
    for run in 0..u64::from(RUNS) {
        write_run(runs, disk, run, count)?;
    }
    Ok(())
}

// Merges the runs, and sums keys and numbers in the order in which they come.
fn merge<D: Disk>(
    runs: &mut Runs,
    disk: &mut D,
    share: &mut Share,
    into: &mut Buf,
) -> Result<Tally, Stop>
    requires page_len { runs.old.writer.page_len ≡ (D.shown disk.old).page_len }
    requires frames { 2 ≤ length share.old.frames }
    requires frame_len { share.old.frame_len ≡ runs.old.writer.page_len }
    requires limit { room_of runs.old.writer.page_len ≤ 13 + into.old.limit }
{
    runs.reduce(disk, share)?;
    let mut tally = Tally::default();
    while let Some(head) = runs.merge_next(disk, share, into)? {
        tally.add_next(head.key.wrapping_add(number(into.bytes())));
    }
    Ok(tally)
}

// The frames of the inputs.
fn inputs_of(alloc: Global) -> Result<Share, AllocError>
    ensures frames { IfOk result (λ share. 2 ≤ length share.frames) }
    ensures frame_len { IfOk result (λ share. share.frame_len ≡ 262144) }
{
    let mut bank = Bank::open(alloc, PAGE, &[RUNS], 0)?;
    Ok(bank.lend(0))
}

// Runs in pages of the two files.
fn runs_of(alloc: Global) -> Result<Runs, AllocError>
    ensures { IfOk result (λ runs. runs.writer.page_len ≡ 262144) }
{
    let page = Frame::new(alloc, PAGE)?;
    Ok(Runs::new(page, FIRST, SECOND))
}

// A buffer for a body.
fn body_of(alloc: Global) -> Result<Buf, AllocError>
    ensures { IfOk result (λ into. into.limit ≡ 131043) }
{
    let frame = Frame::new(alloc, PAGE)?;
    Ok(Buf::over(frame, room(PAGE) - 13))
}

/// Writes runs of so many tuples to a file of the disk and merges them.
pub fn run<D: Disk>(alloc: Global, disk: &mut D, count: u64) -> Result<Tally> {
    disk.start(PAGE)?;
    let mut share = inputs_of(alloc)?;
    let mut runs = runs_of(alloc)?;
    let mut into = body_of(alloc)?;
    write(&mut runs, disk, count)?;
    Ok(merge(&mut runs, disk, &mut share, &mut into)?)
}
