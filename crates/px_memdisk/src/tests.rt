// What no clause says: that the calls can answer Ok, and the trait used through its bound.
ghost use Rattle.std.specs.Prelude.{◌≡◌, [], ◌∷◌, true, length, IfOk, OnOk};
ghost use Rattle.px_memdisk.specs.Files.{pages_in};

use crate::{MemDisk, WildDisk};
use px_core::{Disk, Failed};
use std::test::Fail;

// Starts a disk, writes the first page of a file and reads it. On a disk that tells, the bytes come back.
fn write_and_read<D: Disk>(
    disk: &mut D,
    frame_bytes: u32,
    from: &[u8],
    into: &mut [u8],
) -> Result<(), Failed>
    requires from { length from.now ≡ frame_bytes }
    requires into { length into.old ≡ frame_bytes }
    ensures { (D.shown disk.old).tells ≡ true → OnOk result (into.new ≡ from.now) }
{
    disk.start(frame_bytes)?;
    disk.write(7, 0, from)?;
    disk.read(7, 0, into)?;
    Ok(())
}

// This disk tells.
fn write_and_read_here(disk: &mut MemDisk, from: &[u8; 4]) -> Result<[u8; 4], Failed>
    ensures { IfOk result (λ bytes. bytes ≡ from.now) }
{
    let mut bytes = [0; 4];
    write_and_read(disk, 4, from, &mut bytes)?;
    Ok(bytes)
}

// Two pages are added, one is replaced, and one past the end is none: what the file then holds is these two.
fn put_two(disk: &mut MemDisk) -> Result<(), Failed>
    ensures file { OnOk result (pages_in disk.new.files 7 ≡ (65 ∷ 66 ∷ []) ∷ (99 ∷ 100 ∷ []) ∷ []) }
    ensures beside { OnOk result (pages_in disk.new.files 8 ≡ []) }
{
    disk.start(2)?;
    disk.write(7, 0, b"ab")?;
    disk.write(7, 1, b"cd")?;
    disk.write(7, 0, b"AB")?;
    disk.write(7, 3, b"??")
}

#[test]
fn a_page_comes_back(rt: HostRuntime) -> Result<(), Fail> {
    let mut disk = MemDisk::new(rt.alloc(), &[])?;
    assert_eq!(rt; write_and_read_here(&mut disk, b"abcd"), Ok(*b"abcd"));
    assert_eq!(rt; put_two(&mut disk), Ok(()));
    Ok(())
}

#[test]
fn pages_are_added_and_replaced(rt: HostRuntime) -> Result<(), Fail> {
    let mut disk = MemDisk::new(rt.alloc(), &[])?;
    disk.start(4)?;
    for (page, byte) in [(0, b'a'), (1, b'b'), (3, b'?'), (0, b'A')] {
        disk.write(u32::MAX, page, &[byte; 4])?;
    }
    for (page, byte) in [(0, b'A'), (1, b'b'), (2, 0), (3, 0)] {
        let mut bytes = *b"....";
        disk.read(u32::MAX, page, &mut bytes)?;
        assert_eq!(rt; bytes, [byte; 4], "page {page}");
    }
    disk.clear(u32::MAX)?;
    let mut bytes = *b"....";
    disk.read(u32::MAX, 0, &mut bytes)?;
    assert_eq!(rt; bytes, *b"\0\0\0\0");
    assert_eq!(rt; (disk.reads(), disk.writes(), disk.short()), (5, 4, 0));
    Ok(())
}

#[test]
fn each_call_fails_in_turn(rt: HostRuntime) -> Result<(), Fail> {
    for fail in 1..=5 {
        let mut disk = MemDisk::new(rt.alloc(), &[fail])?;
        let failed = [
            disk.start(0).is_err(),
            disk.write(1, 0, &[]).is_err(),
            disk.read(1, 0, &mut []).is_err(),
            disk.clear(1).is_err(),
        ];
        for (call, failed) in (1..).zip(failed) {
            assert_eq!(rt; failed, call == fail, "call {call}");
        }
        assert_eq!(rt; disk.short(), 0);
    }
    Ok(())
}

#[test]
fn a_wild_disk_gives_other_bytes_from_page_to_page(rt: HostRuntime) -> Result<(), Fail> {
    let mut disk = WildDisk::new(1);
    disk.start(4)?;
    let (mut kept, mut changed) = (false, false);
    for page in 0..32 {
        disk.write(7, page, b"abcd")?;
        let mut bytes = *b"abcd";
        disk.read(7, page, &mut bytes)?;
        kept |= bytes == *b"abcd";
        changed |= bytes != *b"abcd";
    }
    disk.clear(7)?;
    assert!(rt; kept && changed);
    assert_eq!(rt; (disk.reads(), disk.writes()), (32, 32));
    Ok(())
}

#[test]
fn a_failing_wild_disk_fails_now_and_then(rt: HostRuntime) -> Result<(), Fail> {
    let mut disk = WildDisk::failing(1);
    let (mut worked, mut failed) = (false, false);
    for _ in 0..256 {
        let done = disk.clear(7);
        worked |= done.is_ok();
        failed |= done.is_err();
    }
    assert!(rt; worked && failed);
    Ok(())
}
