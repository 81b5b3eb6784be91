// Streams over a disk in memory.
ghost use Rattle.std.specs.Prelude.{◌≡◌, ◌≤◌, ◌+◌, [], ◌∷◌, Some, OnOk, IfOk, IfErr};
ghost use Rattle.px_memdisk.specs.Memory.{shown_of};
ghost use Rattle.px_pages.specs.Entry.{Entry, entry};
ghost use Rattle.px_stream.specs.Stream.{Holds, ToGive};

use crate::{Head, Reader, Writer};
use px_core::{Disk, Stop, Vid};
use px_frames::{Buf, Frame};
use px_memdisk::MemDisk;
use std::test::Fail;

// Two tuples in a file: what it holds is these two.
fn put_two(disk: &mut MemDisk, writer: &mut Writer) -> Result<(), Stop>
    requires page_len { disk.old.page_len ≡ 256 }
    requires writer { writer.old.page_len ≡ 256 }
    ensures holds { OnOk result (Holds (shown_of disk.new) writer.old.file writer.new.pages (entry 7 1 (97 ∷ 98 ∷ []) ∷ entry 9 2 [] ∷ [])) }
    ensures page_len { disk.new.page_len ≡ 256 }
{
    writer.start(disk)?;
    writer.put(disk, 7, 1, b"ab")?;
    writer.put(disk, 9, 2, b"")?;
    writer.finish(disk)
}

// The first of the two, read from that file. The second is then left.
fn first_of_two(
    disk: &mut MemDisk,
    writer: &mut Writer,
    reader: &mut Reader,
    into: &mut Buf,
) -> Result<Option<Head>, Stop>
    requires page_len { disk.old.page_len ≡ 256 }
    requires writer { writer.old.page_len ≡ 256 }
    requires reader { reader.old.page_len ≡ 256 }
    requires file { reader.old.file ≡ writer.old.file }
    requires limit { 99 ≤ into.old.limit }
    ensures head { IfOk result (λ o. o ≡ Some (record { key = 7; tag = 1 })) }
    ensures body { OnOk result (into.new.bytes ≡ 97 ∷ 98 ∷ []) }
    ensures left { OnOk result (ToGive (shown_of disk.new) reader.new (entry 9 2 [] ∷ [])) }
{
    put_two(disk, writer)?;
    reader.start(writer.pages());
    reader.next(disk, into)
}

// Writes four tuples, of which the fourth opens a second page.
fn put_four<D: Disk>(disk: &mut D, writer: &mut Writer, body: &[u8; 99]) -> Result<(), Stop>
    requires page_len { (D.shown disk.old).page_len ≡ 256 }
    requires writer { writer.old.page_len ≡ 256 }
    ensures page_len { (D.shown disk.new).page_len ≡ 256 }
{
    writer.start(disk)?;
    writer.put(disk, 0, 0, &[])?;
    writer.put(disk, 7, 1, &body[..1])?;
    writer.put(disk, 7, 2, &body[..90])?;
    writer.put(disk, u64::MAX, 3, body)?;
    writer.finish(disk)
}

// Whether this tuple is shown and given next.
fn is_next<D: Disk>(
    disk: &mut D,
    reader: &mut Reader,
    into: &mut Buf,
    want: (Vid, u8, &[u8]),
) -> Result<bool, Stop>
    requires page_len { (D.shown disk.old).page_len ≡ 256 }
    requires reader { reader.old.page_len ≡ 256 }
    requires limit { 99 ≤ into.old.limit }
    ensures page_len { (D.shown disk.new).page_len ≡ 256 }
    ensures reader { reader.new.page_len ≡ 256 }
    ensures limit { into.new.limit ≡ into.old.limit }
{
    let (key, tag, body) = want;
    let head = Some(Head { key, tag });
    let shown = reader.peek(disk)? == head;
    Ok(shown && reader.next(disk, into)? == head && into.bytes() == body)
}

// Whether this tuple is shown next, which is then passed.
fn is_passed<D: Disk>(
    disk: &mut D,
    reader: &mut Reader,
    want: (Vid, u8, &[u8]),
) -> Result<bool, Stop>
    requires page_len { (D.shown disk.old).page_len ≡ 256 }
    requires reader { reader.old.page_len ≡ 256 }
    ensures page_len { (D.shown disk.new).page_len ≡ 256 }
    ensures reader { reader.new.page_len ≡ 256 }
{
    let (key, tag, body) = want;
    let Some(head) = reader.peek(disk)? else {
        return Ok(false);
    };
    let same = head == Head { key, tag } && reader.peeked() == body;
    reader.pass();
    Ok(same)
}

// Whether the four tuples come back, and none after them.
fn are_four<D: Disk>(
    disk: &mut D,
    reader: &mut Reader,
    into: &mut Buf,
    body: &[u8; 99],
) -> Result<bool, Stop>
    requires page_len { (D.shown disk.old).page_len ≡ 256 }
    requires reader { reader.old.page_len ≡ 256 }
    requires limit { 99 ≤ into.old.limit }
{
    Ok(
        is_next(disk, reader, into, (0, 0, &[]))?
            && is_next(disk, reader, into, (7, 1, &body[..1]))?
            && is_passed(disk, reader, (7, 2, &body[..90]))?
            && is_next(disk, reader, into, (u64::MAX, 3, body))?
            && reader.next(disk, into)?.is_none(),
    )
}

// The four tuples through a disk of which this call fails.
fn round(rt: &HostRuntime, fail: u64) -> Result<Result<bool, Stop>, Fail> {
    let alloc = rt.alloc();
    let mut disk = MemDisk::new(alloc, &[fail])?;
    disk.start(256)?;
    let mut writer = Writer::new(Frame::new(alloc, 256)?, 1);
    let mut reader = Reader::new(Frame::new(alloc, 256)?, 1);
    let mut into = Buf::over(Frame::new(alloc, 256)?, 99);
    if let Err(stop) = put_four(&mut disk, &mut writer, &[9; 99]) {
        return Ok(Err(stop));
    }
    reader.start(writer.pages());
    Ok(are_four(&mut disk, &mut reader, &mut into, &[9; 99]))
}

#[test]
fn the_first_of_two_comes_back(rt: HostRuntime) -> Result<(), Fail> {
    let alloc = rt.alloc();
    let mut disk = MemDisk::new(alloc, &[])?;
    disk.start(256)?;
    let mut writer = Writer::new(Frame::new(alloc, 256)?, 7);
    let mut reader = Reader::new(Frame::new(alloc, 256)?, 7);
    let mut into = Buf::over(Frame::new(alloc, 256)?, 99);
    let first = first_of_two(&mut disk, &mut writer, &mut reader, &mut into);
    assert_eq!(rt; first, Ok(Some(Head { key: 7, tag: 1 })));
    assert_eq!(rt; into.bytes(), b"ab".as_slice());
    Ok(())
}

#[test]
fn four_tuples_come_back_and_each_call_fails_in_turn(rt: HostRuntime) -> Result<(), Fail> {
    for fail in 2..=6 {
        assert_eq!(rt; round(&rt, fail)?, Err(Stop::Scratch), "{fail}");
    }
    assert_eq!(rt; round(&rt, 7)?, Ok(true));
    Ok(())
}
