// What no clause says: pairs are grouped over a disk in memory, in frames that hold few of them.
ghost use Rattle.std.specs.Prelude.{◌≡◌, ◌≤◌, ◌+◌, ◌<◌, length, IsTrue, OnOk, IfOk};
ghost use Rattle.px_sort_group.specs.Sorted.{takes, gives};

use crate::SortGroup;
use px_connectors::gather;
use px_core::{Disk, Stop, Vid};
use px_frames::{Bank, Buf, Frame};
use px_memdisk::MemDisk;
use px_pages::tags;
use px_program::Group;
use px_programs::Lesser;
use px_stream::{Head, Reader, Writer};
use std::alloc::{AllocError, Global};
use std::collections::BTreeMap;
use std::test::Fail;

// Vids with numbers, which are the payloads.
type Numbers = Vec<(Vid, u64)>;

// A group takes all pairs.
fn add_all<D: Disk>(disk: &mut D, group: &mut SortGroup, pairs: &[(Vid, u64)]) -> Result<(), Stop>
    requires disk { (D.shown disk.old).page_len ≡ 256 }
    requires group { group.old.held.frame_len ≡ 256 }
    requires open { IsTrue (takes group.old.stage) }
    ensures disk { OnOk result ((D.shown disk.new).page_len ≡ 256) }
    ensures group { OnOk result (group.new.held.frame_len ≡ 256) }
    ensures open { OnOk result (IsTrue (takes group.new.stage)) }
{
    for (vid, number) in pairs {
        group.add(disk, &Lesser, *vid, &number.to_be_bytes())?;
    }
    Ok(())
}

// Whether a group gives these pairs and no more.
fn gives<D: Disk>(
    disk: &mut D,
    group: &mut SortGroup,
    into: &mut Buf,
    want: &[(Vid, u64)],
) -> Result<bool, Stop>
    requires disk { (D.shown disk.old).page_len ≡ 256 }
    requires group { group.old.held.frame_len ≡ 256 }
    requires sealed { IsTrue (gives group.old.stage) }
    requires limit { into.old.limit ≡ 99 }
{
    for (vid, number) in want {
        match group.next(disk, &Lesser, into)? {
            Some(v) if v == *vid && into.bytes() == number.to_be_bytes().as_slice() => {}
            _ => return Ok(false),
        }
    }
    Ok(group.next(disk, &Lesser, into)?.is_none())
}

// Whether the pairs come back as these folds.
fn comes_back<D: Disk>(
    disk: &mut D,
    group: &mut SortGroup,
    into: &mut Buf,
    pairs: &[(Vid, u64)],
    want: &[(Vid, u64)],
) -> Result<bool, Stop>
    requires disk { (D.shown disk.old).page_len ≡ 256 }
    requires group { group.old.held.frame_len ≡ 256 }
    requires open { IsTrue (takes group.old.stage) }
    requires limit { into.old.limit ≡ 99 }
{
    add_all(disk, group, pairs)?;
    group.seal(disk, &Lesser)?;
    gives(disk, group, into, want)
}

// A group over eight frames, six of which hold pairs, and 32 entries.
fn small_group(alloc: Global) -> Result<SortGroup, AllocError>
    ensures frame_len { IfOk result (λ g. g.held.frame_len ≡ 256) }
    ensures first { IfOk result (λ g. g.first ≡ 2) }
    ensures second { IfOk result (λ g. g.second ≡ 3) }
    ensures open { IfOk result (λ g. IsTrue (takes g.stage)) }
{
    let mut bank = Bank::open(alloc, 256, &[8], 32)?;
    let share = bank.lend(0);
    let table = bank.lend_table();
    Ok(SortGroup::open(share, table, 2, 3))
}

// Groups the pairs over a disk of which this call fails. It answers the number of writes too.
fn round(
    alloc: Global,
    pairs: &[(Vid, u64)],
    want: &[(Vid, u64)],
    fail: u64,
) -> Result<(Result<bool, Stop>, u64), Fail> {
    let mut disk = MemDisk::new(alloc, &[fail])?;
    disk.start(256)?;
    let mut group = small_group(alloc)?;
    let mut into = Buf::over(Frame::new(alloc, 256)?, 99);
    let answer = comes_back(&mut disk, &mut group, &mut into, pairs, want);
    let (share, table) = group.close();
    if share.len() != 8 || table.capacity() != 32 {
        return Ok((Ok(false), 0));
    }
    Ok((answer, disk.writes()))
}

// A writer puts all pairs to its file. It answers the number of pages.
fn write_pairs<D: Disk>(disk: &mut D, to: &mut Writer, pairs: &[(Vid, u64)]) -> Result<u64, Stop>
    requires disk { (D.shown disk.old).page_len ≡ 256 }
    requires to { to.old.page_len ≡ 256 }
    ensures disk { OnOk result ((D.shown disk.new).page_len ≡ 256) }
    ensures to { OnOk result (to.new.page_len ≡ 256) }
{
    to.start(disk)?;
    for (vid, number) in pairs {
        to.put(disk, *vid, tags::MESSAGE, &number.to_be_bytes())?;
    }
    to.finish(disk)?;
    Ok(to.pages())
}

// Whether a reader has these pairs left, as messages, and no more.
fn reads<D: Disk>(
    disk: &mut D,
    from: &mut Reader,
    into: &mut Buf,
    want: &[(Vid, u64)],
) -> Result<bool, Stop>
    requires disk { (D.shown disk.old).page_len ≡ 256 }
    requires from { from.old.page_len ≡ 256 }
    requires limit { into.old.limit ≡ 99 }
{
    for (vid, number) in want {
        let head = Head {
            key: *vid,
            tag: tags::MESSAGE,
        };
        if from.next(disk, into)? != Some(head) || into.bytes() != number.to_be_bytes().as_slice() {
            return Ok(false);
        }
    }
    Ok(from.next(disk, into)?.is_none())
}

// The folds of the pairs that a reader has left go to the file 9. It answers the number of its pages.
fn gather_all<D: Disk>(
    disk: &mut D,
    group: &mut SortGroup,
    from: &mut Reader,
    to: &mut Writer,
    into: &mut Buf,
) -> Result<u64, Stop>
    requires disk { (D.shown disk.old).page_len ≡ 256 }
    requires group { group.old.held.frame_len ≡ 256 }
    requires open { IsTrue (takes group.old.stage) }
    requires first { group.old.first ≡ 2 }
    requires second { group.old.second ≡ 3 }
    requires file { from.old.file ≡ 8 }
    requires from { from.old.page_len ≡ 256 }
    requires to { to.old.page_len ≡ 256 }
    requires limit { into.old.limit ≡ 99 }
    ensures disk { OnOk result ((D.shown disk.new).page_len ≡ 256) }
    ensures limit { into.new.limit ≡ 99 }
{
    to.turn_to(9);
    to.start(disk)?;
    gather(disk, &Lesser, group, from, to, into)?;
    Ok(to.pages())
}

// Whether the pairs, which go to the file 8, are gathered as these folds.
fn gathers<D: Disk>(
    disk: &mut D,
    group: &mut SortGroup,
    writer: &mut Writer,
    from: &mut Reader,
    back: &mut Reader,
    into: &mut Buf,
    rows: (&[(Vid, u64)], &[(Vid, u64)]),
) -> Result<bool, Stop>
    requires disk { (D.shown disk.old).page_len ≡ 256 }
    requires group { group.old.held.frame_len ≡ 256 }
    requires open { IsTrue (takes group.old.stage) }
    requires first { group.old.first ≡ 2 }
    requires second { group.old.second ≡ 3 }
    requires writer { writer.old.page_len ≡ 256 }
    requires file { from.old.file ≡ 8 }
    requires from { from.old.page_len ≡ 256 }
    requires back { back.old.page_len ≡ 256 }
    requires limit { into.old.limit ≡ 99 }
{
    let (pairs, want) = rows;
    let pages = write_pairs(disk, writer, pairs)?;
    from.start(pages);
    let pages = gather_all(disk, group, from, writer, into)?;
    back.start(pages);
    reads(disk, back, into, want)
}

// Gathers the pairs over a disk of which this call fails.
fn gather_round(
    alloc: Global,
    pairs: &[(Vid, u64)],
    want: &[(Vid, u64)],
    fail: u64,
) -> Result<Result<bool, Stop>, Fail> {
    let mut disk = MemDisk::new(alloc, &[fail])?;
    disk.start(256)?;
    let mut group = small_group(alloc)?;
    let mut writer = Writer::new(Frame::new(alloc, 256)?, 8);
    let mut from = Reader::new(Frame::new(alloc, 256)?, 8);
    let mut back = Reader::new(Frame::new(alloc, 256)?, 9);
    let mut into = Buf::over(Frame::new(alloc, 256)?, 99);
    Ok(gathers(
        &mut disk,
        &mut group,
        &mut writer,
        &mut from,
        &mut back,
        &mut into,
        (pairs, want),
    ))
}

// So many pairs over so many vids.
fn pairs_of(alloc: Global, n: u64, vids: u64) -> Result<Numbers, AllocError>
    requires { 0 < vids }
{
    let mut pairs = Vec::new(alloc);
    for i in 0..n {
        pairs.push((i.wrapping_mul(7) % vids, i.wrapping_mul(31) % 1009))?;
    }
    Ok(pairs)
}

// Each vid with its least number, ascending.
fn least_of(alloc: Global, pairs: &[(Vid, u64)]) -> Result<Numbers, AllocError> {
    let mut least = BTreeMap::new(alloc);
    for (vid, number) in pairs {
        let number = match least.get(vid) {
            Some(before) => *number.min(before),
            None => *number,
        };
        least.insert(*vid, number)?;
    }
    let mut folds = Vec::new(alloc);
    for (vid, number) in &least {
        folds.push((*vid, *number))?;
    }
    Ok(folds)
}

#[test]
fn each_vid_is_given_once_with_its_fold(rt: HostRuntime) -> Result<(), Fail> {
    let alloc = rt.alloc();
    let pairs = [(9, 5), (0, 3), (9, 2), (u64::MAX, 8)];
    let answer = round(alloc, &pairs, &[(0, 3), (9, 2), (u64::MAX, 8)], 0)?;
    assert_eq!(rt; answer, (Ok(true), 0));
    Ok(())
}

#[test]
fn pairs_that_fit_are_not_written(rt: HostRuntime) -> Result<(), Fail> {
    let alloc = rt.alloc();
    let pairs = pairs_of(alloc, 21, 5)?;
    let answer = round(alloc, &pairs, &least_of(alloc, &pairs)?, 0)?;
    assert_eq!(rt; answer, (Ok(true), 0));
    Ok(())
}

// Each call of the disk but its start fails in turn, until none does.
fn first_that_works(alloc: Global, pairs: &[(Vid, u64)], want: &[(Vid, u64)]) -> Result<u64, Fail> {
    for fail in 2..10_000 {
        match round(alloc, pairs, want, fail)?.0 {
            Ok(true) => return Ok(fail),
            Err(Stop::Scratch) => {}
            _ => return Ok(0),
        }
    }
    Ok(1)
}

#[test]
fn many_pairs_are_spilled_and_merged(rt: HostRuntime) -> Result<(), Fail> {
    let alloc = rt.alloc();
    let pairs = pairs_of(alloc, 1000, 400)?;
    let want = least_of(alloc, &pairs)?;
    let (answer, writes) = round(alloc, &pairs, &want, 0)?;
    assert_eq!(rt; answer, Ok(true));
    assert!(rt; writes > 100, "{writes}");
    let calls = first_that_works(alloc, &pairs, &want)?;
    assert!(rt; calls > 200, "{calls}");
    Ok(())
}

// Each call of the disk but its start fails in turn, until none does.
fn first_that_gathers(
    alloc: Global,
    pairs: &[(Vid, u64)],
    want: &[(Vid, u64)],
) -> Result<u64, Fail> {
    for fail in 2..10_000 {
        match gather_round(alloc, pairs, want, fail)? {
            Ok(true) => return Ok(fail),
            Err(Stop::Scratch) => {}
            _ => return Ok(0),
        }
    }
    Ok(1)
}

#[test]
fn a_stream_of_pairs_is_gathered(rt: HostRuntime) -> Result<(), Fail> {
    let alloc = rt.alloc();
    for (n, vids, most) in [(0, 1, 10), (21, 5, 20), (1000, 400, 1000)] {
        let pairs = pairs_of(alloc, n, vids)?;
        let want = least_of(alloc, &pairs)?;
        assert_eq!(rt; gather_round(alloc, &pairs, &want, 0)?, Ok(true));
        let calls = first_that_gathers(alloc, &pairs, &want)?;
        assert!(rt; calls > 1 && calls < most, "{n} pairs: {calls}");
    }
    Ok(())
}
