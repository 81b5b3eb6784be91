// Pages of a cache, tuples of a stream, and runs.
ghost use Rattle.std.specs.Prelude.{◌≡◌, ◌<◌, ◌≤◌, length, OnOk, IfOk};
ghost use Rattle.px_cache.specs.View.{NoPins, SameCache};

use super::Ended;
use px_cache::Cache;
use px_core::{Disk, Stop, Vid};
use px_frames::{Bank, Buf, Frame, Share};
use px_runs::Runs;
use px_stream::{Reader, Writer};
use std::alloc::{AllocError, Global};

// So many new pages of a file, each of which is looked at again at once.
fn add_pages<D: Disk>(cache: &mut Cache, disk: &mut D, file: u32, pages: u64) -> Result<(), Stop>
    requires len { cache.old.len ≡ (D.shown disk.old).page_len }
    requires free { NoPins cache.old.notes }
    ensures len { OnOk result (cache.new.len ≡ (D.shown disk.new).page_len) }
    ensures free { OnOk result (NoPins cache.new.notes) }
    ensures stays { SameCache cache.old cache.new }
{
    for page in 0..pages {
        cache.new_page(disk, file, page)?;
        cache.load(disk, file, page)?;
    }
    Ok(())
}

// Pages of two files, more than there are frames, written and loaded.
pub fn call_cache<D: Disk>(alloc: Global, disk: &mut D) -> Result<(), Ended>
    requires { (D.shown disk.old).page_len ≡ 256 }
{
    let mut bank = Bank::open(alloc, 256, &[4], 0)?;
    let mut cache = Cache::open(bank.lend(0));
    add_pages(&mut cache, disk, 0, 9)?;
    add_pages(&mut cache, disk, 8, 9)?;
    cache.load(disk, 0, u64::MAX)?;
    cache.flush(disk)?;
    Ok(())
}

// So many tuples of these bodies.
fn put_tuples<D: Disk>(disk: &mut D, to: &mut Writer, tuples: u64, body: &[u8]) -> Result<(), Stop>
    requires disk { (D.shown disk.old).page_len ≡ 256 }
    requires to { to.old.page_len ≡ 256 }
    requires body { length body.now ≤ 99 }
    ensures disk { (D.shown disk.new).page_len ≡ 256 }
    ensures to { to.new.page_len ≡ 256 }
{
    to.start(disk)?;
    for key in 0..tuples {
        to.put(disk, key, 0, body)?;
    }
    to.finish(disk)
}

// The tuples that come, at most so many.
fn take_tuples<D: Disk>(
    disk: &mut D,
    from: &mut Reader,
    into: &mut Buf,
    most: u64,
) -> Result<(), Stop>
    requires disk { (D.shown disk.old).page_len ≡ 256 }
    requires from { from.old.page_len ≡ 256 }
    requires limit { 99 ≤ into.old.limit }
    ensures disk { (D.shown disk.new).page_len ≡ 256 }
{
    for _ in 0..most {
        from.peek(disk)?;
        if from.next(disk, into)?.is_none() {
            return Ok(());
        }
    }
    Ok(())
}

// Tuples of several pages that are written and read, the last page again from where it stands.
pub fn call_streams<D: Disk>(alloc: Global, disk: &mut D) -> Result<(), Ended>
    requires { (D.shown disk.old).page_len ≡ 256 }
{
    let mut writer = Writer::new(Frame::new(alloc, 256)?, 1);
    put_tuples(disk, &mut writer, 20, &[7; 99])?;
    let mut reader = Reader::new(writer.close(), 1);
    let mut into = Buf::over(Frame::new(alloc, 256)?, 99);
    reader.start(10);
    take_tuples(disk, &mut reader, &mut into, 1000)?;
    Ok(())
}

// A run of these keys, each with the longest body that a page of 256 bytes has room for.
fn put_run<D: Disk>(disk: &mut D, runs: &mut Runs, keys: &[Vid]) -> Result<(), Stop>
    requires disk { (D.shown disk.old).page_len ≡ 256 }
    requires runs { runs.old.writer.page_len ≡ 256 }
    ensures disk { (D.shown disk.new).page_len ≡ 256 }
    ensures runs { runs.new.writer.page_len ≡ 256 }
{
    runs.begin_run(disk)?;
    for key in keys {
        runs.put(disk, *key, 0, &[9; 99])?;
    }
    runs.end_run(disk)
}

// So many runs of four tuples.
fn put_runs<D: Disk>(disk: &mut D, runs: &mut Runs, n: u32) -> Result<(), Stop>
    requires disk { (D.shown disk.old).page_len ≡ 256 }
    requires runs { runs.old.writer.page_len ≡ 256 }
    ensures disk { (D.shown disk.new).page_len ≡ 256 }
    ensures runs { runs.new.writer.page_len ≡ 256 }
{
    runs.start(disk)?;
    for _ in 0..n {
        put_run(disk, runs, &[0, 7, 7, u64::MAX])?;
    }
    Ok(())
}

// The tuples that the merge gives, at most so many.
fn take_merged<D: Disk>(
    disk: &mut D,
    runs: &mut Runs,
    share: &mut Share,
    into: &mut Buf,
    most: u32,
) -> Result<(), Stop>
    requires disk { (D.shown disk.old).page_len ≡ 256 }
    requires runs { runs.old.writer.page_len ≡ 256 }
    requires share { share.old.frame_len ≡ 256 }
    requires frames { length runs.old.inputs ≤ length share.old.frames }
    requires limit { 99 ≤ into.old.limit }
{
    for _ in 0..most {
        if runs.merge_next(disk, share, into)?.is_none() {
            return Ok(());
        }
    }
    Ok(())
}

// Five runs that are merged in two frames.
pub fn call_runs<D: Disk>(alloc: Global, disk: &mut D) -> Result<(), Ended>
    requires { (D.shown disk.old).page_len ≡ 256 }
{
    let mut runs = Runs::new(Frame::new(alloc, 256)?, 2, 3);
    let mut bank = Bank::open(alloc, 256, &[2], 1)?;
    let mut share = bank.lend(0);
    let mut into = Buf::over(Frame::new(alloc, 256)?, 99);
    put_runs(disk, &mut runs, 5)?;
    runs.reduce(disk, &mut share)?;
    take_merged(disk, &mut runs, &mut share, &mut into, 1000)?;
    Ok(())
}
