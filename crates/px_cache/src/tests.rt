// What no clause says: a run over a disk in memory, each call of which fails in turn.
ghost use Rattle.std.specs.Prelude.{◌≡◌, ◌<◌, ◌≤◌, length, OnOk, IfOk};
ghost use Rattle.px_cache.specs.View.{NoPins, HasFree, SameCache};

use crate::Cache;
use px_core::{Disk, Stop};
use px_frames::Bank;
use px_memdisk::MemDisk;
use std::alloc::{AllocError, Global};
use std::test::Fail;

// Adds a page to a file, and writes its number to its front.
fn add<D: Disk>(cache: &mut Cache, disk: &mut D, file: u32, page: u8) -> Result<(), Stop>
    requires len { cache.old.len ≡ (D.shown disk.old).page_len }
    requires free { NoPins cache.old.notes }
    requires some { 0 < cache.old.len }
    ensures free { OnOk result (NoPins cache.new.notes) }
    ensures len { OnOk result (cache.new.len ≡ (D.shown disk.new).page_len) }
    ensures stays { SameCache cache.old cache.new }
{
    let i = cache.new_page(disk, file, u64::from(page))?;
    cache.frame_mut(i)[0] = page;
    Ok(())
}

// The number at the front of a page.
fn look<D: Disk>(cache: &mut Cache, disk: &mut D, file: u32, page: u8) -> Result<u8, Stop>
    requires len { cache.old.len ≡ (D.shown disk.old).page_len }
    requires free { NoPins cache.old.notes }
    requires some { 0 < cache.old.len }
    ensures free { OnOk result (NoPins cache.new.notes) }
    ensures len { OnOk result (cache.new.len ≡ (D.shown disk.new).page_len) }
    ensures stays { SameCache cache.old cache.new }
{
    let i = cache.load(disk, file, u64::from(page))?;
    Ok(cache.frame(i)[0])
}

// Adds so many pages to two files by turns, and looks at all of them again.
fn fill<D: Disk>(cache: &mut Cache, disk: &mut D, pages: u8) -> Result<bool, Stop>
    requires len { cache.old.len ≡ (D.shown disk.old).page_len }
    requires free { NoPins cache.old.notes }
    requires some { 0 < cache.old.len }
    ensures stays { SameCache cache.old cache.new }
    ensures free { OnOk result (NoPins cache.new.notes) }
    ensures len { OnOk result (cache.new.len ≡ (D.shown disk.new).page_len) }
{
    for page in 0..pages {
        add(cache, disk, 0, page)?;
        add(cache, disk, 8, page)?;
    }
    let mut same = true;
    for page in 0..pages {
        let one = look(cache, disk, 0, page)?;
        let two = look(cache, disk, 8, page)?;
        same = same && one == page && two == page;
    }
    Ok(same)
}

// Loads eight pages of a file, each twice.
fn sweep<D: Disk>(cache: &mut Cache, disk: &mut D, file: u32) -> Result<(), Stop>
    requires len { cache.old.len ≡ (D.shown disk.old).page_len }
    requires free { HasFree cache.old.notes }
    ensures free { OnOk result (HasFree cache.new.notes) }
    ensures len { OnOk result (cache.new.len ≡ (D.shown disk.new).page_len) }
    ensures stays { SameCache cache.old cache.new }
{
    for page in 1..9 {
        cache.load(disk, file, page)?;
        cache.load(disk, file, page)?;
    }
    Ok(())
}

// Pins one of the frames, of which none was pinned.
fn pin_first(cache: &mut Cache, i: u32)
    requires at { i < length cache.old.notes }
    requires free { NoPins cache.old.notes }
    ensures free { HasFree cache.new.notes }
    ensures len { cache.new.len ≡ cache.old.len }
    ensures size { length cache.new.notes ≡ length cache.old.notes }
{
    cache.pin(i);
}

// A cache of four frames.
fn open_four(alloc: Global) -> Result<Cache, AllocError>
    ensures len { IfOk result (λ c. c.len ≡ 256) }
    ensures free { IfOk result (λ c. NoPins c.notes) }
    ensures size { IfOk result (λ c. length c.notes ≡ 4) }
{
    let mut bank = Bank::open(alloc, 256, &[4], 0)?;
    Ok(Cache::open(bank.lend(0)))
}

// Fills a cache, whose share goes home whatever comes.
fn fill_four(alloc: Global, disk: &mut MemDisk) -> Result<Result<bool, Stop>, AllocError>
    requires { disk.old.page_len ≡ 256 }
{
    let mut bank = Bank::open(alloc, 256, &[4], 0)?;
    let mut cache = Cache::open(bank.lend(0));
    let done = fill(&mut cache, disk, 9);
    bank.give(0, cache.close());
    Ok(done)
}

// Two pages of one file that are written, and one of another that is not.
fn write_two<D: Disk>(cache: &mut Cache, disk: &mut D) -> Result<(), Stop>
    requires len { cache.old.len ≡ (D.shown disk.old).page_len }
    requires free { NoPins cache.old.notes }
    requires some { 0 < cache.old.len }
    ensures len { OnOk result ((D.shown disk.new).page_len ≡ (D.shown disk.old).page_len) }
{
    add(cache, disk, 0, 0)?;
    add(cache, disk, 0, 1)?;
    add(cache, disk, 8, 0)?;
    cache.forget(8);
    cache.flush(disk)?;
    cache.flush(disk)
}

#[test]
fn each_failing_call_of_the_disk_is_graph(rt: HostRuntime) -> Result<(), Fail> {
    // Each of eighteen pages is written once and read once, after the start of the disk.
    for call in 2..40 {
        let mut disk = MemDisk::new(rt.alloc(), &[call])?;
        disk.start(256)?;
        let want = if call < 38 {
            Err(Stop::Graph)
        } else {
            Ok(true)
        };
        assert_eq!(rt; fill_four(rt.alloc(), &mut disk)?, want);
    }
    Ok(())
}

#[test]
fn a_flush_writes_each_changed_page_and_a_forget_none(rt: HostRuntime) -> Result<(), Fail> {
    let mut disk = MemDisk::new(rt.alloc(), &[])?;
    disk.start(256)?;
    let mut cache = open_four(rt.alloc())?;
    write_two(&mut cache, &mut disk)?;
    assert_eq!(rt; (disk.reads(), disk.writes()), (0, 2));
    let mut page = [9; 256];
    disk.read(0, 1, &mut page)?;
    assert_eq!(rt; (page[0], page[1]), (1, 0));
    Ok(())
}

#[test]
fn a_pinned_page_and_the_last_one_stay(rt: HostRuntime) -> Result<(), Fail> {
    let mut disk = MemDisk::new(rt.alloc(), &[])?;
    disk.start(256)?;
    let mut cache = open_four(rt.alloc())?;
    fill(&mut cache, &mut disk, 9)?;
    let i = cache.load(&mut disk, 0, 0)?;
    pin_first(&mut cache, i);
    let reads = disk.reads();
    sweep(&mut cache, &mut disk, 8)?;
    assert_eq!(rt; cache.load(&mut disk, 0, 0)?, i);
    cache.unpin(i);
    assert_eq!(rt;
        (disk.reads(), cache.frame(i)[0]),
        (reads.saturating_add(8), 0)
    );
    Ok(())
}
