// What no clause says: runs over a disk in memory.
ghost use Rattle.std.specs.Prelude.{◌≡◌, ◌≤◌, [], ◌∷◌, length, true, OnOk, IfOk};
ghost use Rattle.px_pages.specs.Entry.{entry};
ghost use Rattle.px_runs.specs.Runs.{Ended, ToMerge};

use crate::Runs;
use px_core::{Disk, Stop, Vid};
use px_frames::{Bank, Buf, Frame, Share};
use px_memdisk::MemDisk;
use std::alloc::{AllocError, Global};
use std::test::Fail;

// Two runs of one tuple each. What was put is these two, as often as they were put.
fn put_two<D: Disk>(disk: &mut D, runs: &mut Runs) -> Result<(), Stop>
    requires page_len { runs.old.writer.page_len ≡ (D.shown disk.old).page_len }
    requires len { runs.old.writer.page_len ≡ 256 }
    requires tells { (D.shown disk.old).tells ≡ true }
    ensures ended { OnOk result (Ended (D.shown disk.new) runs.new (entry 9 1 (97 ∷ []) ∷ entry 7 2 [] ∷ [])) }
    ensures disk { (D.shown disk.new).page_len ≡ 256 }
    ensures runs { runs.new.writer.page_len ≡ 256 }
{
    runs.start(disk)?;
    runs.begin_run(disk)?;
    runs.put(disk, 9, 1, b"a")?;
    runs.end_run(disk)?;
    runs.begin_run(disk)?;
    runs.put(disk, 7, 2, b"")?;
    runs.end_run(disk)
}

// What is then to be merged is these two.
fn reduce_two<D: Disk>(disk: &mut D, runs: &mut Runs, share: &mut Share) -> Result<(), Stop>
    requires page_len { runs.old.writer.page_len ≡ (D.shown disk.old).page_len }
    requires len { runs.old.writer.page_len ≡ 256 }
    requires tells { (D.shown disk.old).tells ≡ true }
    requires frames { 2 ≤ length share.old.frames }
    requires frame_len { share.old.frame_len ≡ 256 }
    ensures { OnOk result (ToMerge (D.shown disk.new) runs.new share.new.frames (entry 9 1 (97 ∷ []) ∷ entry 7 2 [] ∷ [])) }
{
    put_two(disk, runs)?;
    runs.reduce(disk, share)
}

// A share of so many frames of 256 bytes.
fn share_of(alloc: Global, frames: u32) -> Result<Share, AllocError>
    requires { frames ≤ 65536 }
    ensures frames { IfOk result (λ s. length s.frames ≡ frames) }
    ensures frame_len { IfOk result (λ s. s.frame_len ≡ 256) }
{
    let mut bank = Bank::open(alloc, 256, &[frames], 1)?;
    Ok(bank.lend(0))
}

// Puts a run of these keys, each with the longest body that a page of 256 bytes has room for.
fn put_run<D: Disk>(disk: &mut D, runs: &mut Runs, keys: &[Vid]) -> Result<(), Stop>
    requires disk { (D.shown disk.old).page_len ≡ 256 }
    requires runs { runs.old.writer.page_len ≡ 256 }
    ensures disk { (D.shown disk.new).page_len ≡ 256 }
    ensures runs { runs.new.writer.page_len ≡ 256 }
{
    runs.begin_run(disk)?;
    for key in keys {
        runs.put(disk, *key, 0, &[9; 99])?;
    }
    runs.end_run(disk)
}

// Puts so many runs of four tuples.
fn put_runs<D: Disk>(disk: &mut D, runs: &mut Runs, n: u32) -> Result<(), Stop>
    requires disk { (D.shown disk.old).page_len ≡ 256 }
    requires runs { runs.old.writer.page_len ≡ 256 }
    ensures disk { (D.shown disk.new).page_len ≡ 256 }
    ensures runs { runs.new.writer.page_len ≡ 256 }
{
    runs.start(disk)?;
    for _ in 0..n {
        put_run(disk, runs, &[0, 7, 7, u64::MAX])?;
    }
    Ok(())
}

// Whether the merge gives this key next, so many times.
fn gives<D: Disk>(
    disk: &mut D,
    runs: &mut Runs,
    share: &mut Share,
    into: &mut Buf,
    want: (Vid, u32),
) -> Result<bool, Stop>
    requires disk { (D.shown disk.old).page_len ≡ 256 }
    requires runs { runs.old.writer.page_len ≡ 256 }
    requires share { share.old.frame_len ≡ 256 }
    requires frames { length runs.old.inputs ≤ length share.old.frames }
    requires limit { 99 ≤ into.old.limit }
    ensures disk { (D.shown disk.new).page_len ≡ 256 }
    ensures runs { runs.new.writer.page_len ≡ 256 }
    ensures share { share.new.frame_len ≡ 256 }
    ensures frames { length runs.new.inputs ≤ length share.new.frames }
    ensures limit { 99 ≤ into.new.limit }
{
    let (key, times) = want;
    for _ in 0..times {
        match runs.merge_next(disk, share, into)? {
            Some(head) if head.key == key && into.bytes().len() == 99 => {}
            _ => return Ok(false),
        }
    }
    Ok(true)
}

// Whether so many runs come back as one ascending list.
fn come_back<D: Disk>(
    disk: &mut D,
    runs: &mut Runs,
    share: &mut Share,
    into: &mut Buf,
    n: u32,
) -> Result<bool, Stop>
    requires disk { (D.shown disk.old).page_len ≡ 256 }
    requires runs { runs.old.writer.page_len ≡ 256 }
    requires share { share.old.frame_len ≡ 256 }
    requires frames { 2 ≤ length share.old.frames }
    requires limit { 99 ≤ into.old.limit }
    requires few { n ≤ 1000 }
{
    put_runs(disk, runs, n)?;
    runs.reduce(disk, share)?;
    Ok(
        gives(disk, runs, share, into, (0, n))?
            && gives(disk, runs, share, into, (7, 2 * n))?
            && gives(disk, runs, share, into, (u64::MAX, n))?
            && runs.merge_next(disk, share, into)?.is_none(),
    )
}

// So many runs through a share of so many frames, over a disk of which this call fails.
fn round(alloc: Global, frames: u32, n: u32, fail: u64) -> Result<Result<bool, Stop>, Fail>
    requires two { 2 ≤ frames }
    requires most { frames ≤ 65536 }
    requires few { n ≤ 1000 }
{
    let mut disk = MemDisk::new(alloc, &[fail])?;
    disk.start(256)?;
    let mut runs = Runs::new(Frame::new(alloc, 256)?, 2, 3);
    let mut share = share_of(alloc, frames)?;
    let mut into = Buf::over(Frame::new(alloc, 256)?, 99);
    Ok(come_back(&mut disk, &mut runs, &mut share, &mut into, n))
}

#[test]
fn runs_come_back_as_one_ascending_list(rt: HostRuntime) -> Result<(), Fail> {
    for (frames, n) in [(2, 0), (2, 1), (2, 7), (5, 32), (40, 32), (40, 33)] {
        assert_eq!(rt;
            round(rt.alloc(), frames, n, 0)?,
            Ok(true),
            "{n} runs, {frames} frames"
        );
    }
    Ok(())
}

// Each call of the disk fails in turn, until none does.
fn first_that_works(alloc: Global) -> Result<u64, Fail> {
    for fail in 2..10_000 {
        match round(alloc, 40, 33, fail)? {
            Ok(true) => return Ok(fail),
            Ok(false) => return Ok(0),
            Err(Stop::Scratch) => {}
            Err(_) => return Ok(1),
        }
    }
    Ok(2)
}

#[test]
fn each_call_fails_in_turn(rt: HostRuntime) -> Result<(), Fail> {
    let calls = first_that_works(rt.alloc())?;
    assert!(rt; calls > 300, "{calls}");
    Ok(())
}
