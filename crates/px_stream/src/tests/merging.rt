// Two streams are merged into a third, and two lists stand in one file.
ghost use Rattle.std.specs.Prelude.{◌≡◌, ◌≢◌, ◌<◌, ◌≤◌, ◌+◌, ◌++◌, [], ◌∷◌, List, length, true, OnOk, IfOk, IfErr, IfSome, IfNone, OnSome};
ghost use Rattle.px_core.specs.Shown.{NoFile, Only, Either, Clean, Broke};
ghost use Rattle.px_pages.specs.Entry.{Entry, entry};
ghost use Rattle.px_meaning.specs.Graph.{room_of};
ghost use Rattle.px_stream.specs.Stream.{Took, Has, ToGive, tuple};
ghost use Rattle.px_stream.specs.Counts.{SameWriter, SameReader, left};
ghost use Rattle.px_stream.specs.Merged.{merged, goes_first, LeadsBoth};

use crate::{Head, Reader, Writer};
use px_core::{Disk, Stop, Vid};
use px_frames::{Buf, Frame};
use px_memdisk::MemDisk;
use std::test::Fail;

// Whether the first of two heads is to be taken.
fn is_first(a: Option<Head>, b: Option<Head>) -> bool
    ensures { result ≡ goes_first a b }
{
    match (a, b) {
        (Some(x), Some(y)) => x.key <= y.key,
        (Some(_), None) => true,
        (None, _) => false,
    }
}

// The next tuple of two streams, that with the lesser key.
fn next_of<D: Disk>(
    disk: &mut D,
    a: &mut Reader,
    b: &mut Reader,
    body: &mut Buf,
) -> Result<Option<Head>, Stop>
    requires a_len { a.old.page_len ≡ (D.shown disk.old).page_len }
    requires b_len { b.old.page_len ≡ (D.shown disk.old).page_len }
    requires limit { room_of (D.shown disk.old).page_len ≤ 13 + body.old.limit }
    ensures none { IfOk result (λ o. IfNone o ((la lb : List Entry) → ToGive (D.shown disk.old) a.old la → ToGive (D.shown disk.old) b.old lb → merged la lb ≡ [])) }
    ensures some { IfOk result (λ o. IfSome o (λ h. (la lb : List Entry) → ToGive (D.shown disk.old) a.old la → ToGive (D.shown disk.old) b.old lb
        → LeadsBoth (tuple h body.new.bytes) (merged la lb) (ToGive (D.shown disk.new) a.new) (ToGive (D.shown disk.new) b.new))) }
    ensures falls { IfOk result (λ o. OnSome o (left a.new + left b.new < left a.old + left b.old)) }
    ensures ok { OnOk result (Clean NoFile (D.shown disk.old) (D.shown disk.new)) }
    ensures err { IfErr result (Broke Stop.Scratch (Either a.old.file b.old.file) (D.shown disk.old) (D.shown disk.new)) }
    ensures limit { body.new.limit ≡ body.old.limit }
    ensures a { SameReader a.old a.new }
    ensures b { SameReader b.old b.new }
{
    let in_a = a.peek(disk)?;
    let in_b = b.peek(disk)?;
    if is_first(in_a, in_b) {
        a.next(disk, body)
    } else {
        b.next(disk, body)
    }
}

// Puts all tuples of two streams, the lesser key first.
fn merge_two<D: Disk>(
    disk: &mut D,
    a: &mut Reader,
    b: &mut Reader,
    to: &mut Writer,
    body: &mut Buf,
) -> Result<(), Stop>
    requires a_len { a.old.page_len ≡ (D.shown disk.old).page_len }
    requires b_len { b.old.page_len ≡ (D.shown disk.old).page_len }
    requires to_len { to.old.page_len ≡ (D.shown disk.old).page_len }
    requires limit { 13 + body.old.limit ≡ room_of (D.shown disk.old).page_len }
    requires a_file { a.old.file ≢ to.old.file }
    requires b_file { b.old.file ≢ to.old.file }
    ensures took { OnOk result ((la lb l : List Entry) → ToGive (D.shown disk.old) a.old la → ToGive (D.shown disk.old) b.old lb → Took (D.shown disk.old) to.old l → Took (D.shown disk.new) to.new (l ++ merged la lb)) }
    ensures ok { OnOk result (Clean (Only to.old.file) (D.shown disk.old) (D.shown disk.new)) }
    ensures to { SameWriter to.old to.new }
{
    while let Some(head) = next_of(disk, a, b, body)? {
        to.put(disk, head.key, head.tag, body.bytes())?;
    }
    Ok(())
}

// One tuple each in two lists of one file, the second behind the first. It answers where the second begins.
fn put_behind<D: Disk>(disk: &mut D, writer: &mut Writer, keys: (Vid, Vid)) -> Result<u64, Stop>
    requires page_len { writer.old.page_len ≡ (D.shown disk.old).page_len }
    requires room { 13 ≤ room_of writer.old.page_len }
    requires tells { (D.shown disk.old).tells ≡ true }
    ensures first { IfOk result (λ middle. Has (D.shown disk.new) writer.new.file 0 middle (entry keys.0 0 [] ∷ [])) }
    ensures second { IfOk result (λ middle. Has (D.shown disk.new) writer.new.file middle writer.new.pages (entry keys.1 0 [] ∷ [])) }
{
    writer.start(disk)?;
    writer.put(disk, keys.0, 0, &[])?;
    writer.finish(disk)?;
    let middle = writer.pages();
    writer.begin_at(middle);
    writer.put(disk, keys.1, 0, &[])?;
    writer.finish(disk)?;
    Ok(middle)
}

// Puts a tuple for each key, each with the longest body that a page of 256 bytes has room for.
fn put_all<D: Disk>(disk: &mut D, writer: &mut Writer, keys: &[Vid]) -> Result<u64, Stop>
    requires page_len { (D.shown disk.old).page_len ≡ 256 }
    requires writer { writer.old.page_len ≡ 256 }
    ensures page_len { (D.shown disk.new).page_len ≡ 256 }
    ensures writer { writer.new.page_len ≡ 256 }
    ensures here { OnOk result (writer.new.here ≡ []) }
{
    for key in keys {
        writer.put(disk, *key, 0, &[9; 99])?;
    }
    writer.finish(disk)?;
    Ok(writer.pages())
}

// Whether the reader gives these keys, and then none.
fn gives<D: Disk>(disk: &mut D, reader: &mut Reader, keys: &[Vid]) -> Result<bool, Stop>
    requires page_len { (D.shown disk.old).page_len ≡ 256 }
    requires reader { reader.old.page_len ≡ 256 }
    ensures page_len { (D.shown disk.new).page_len ≡ 256 }
    ensures reader { reader.new.page_len ≡ 256 }
{
    for key in keys {
        match reader.peek(disk)? {
            Some(head) if head.key == *key => reader.pass(),
            _ => return Ok(false),
        }
    }
    Ok(reader.peek(disk)?.is_none())
}

// A page of its own and two lists, one behind the other, and then that page again. It answers where each list ends.
fn put_both<D: Disk>(
    disk: &mut D,
    writer: &mut Writer,
    keys: (&[Vid], &[Vid]),
) -> Result<(u64, u64), Stop>
    requires page_len { (D.shown disk.old).page_len ≡ 256 }
    requires writer { writer.old.page_len ≡ 256 }
    ensures page_len { (D.shown disk.new).page_len ≡ 256 }
    ensures writer { writer.new.page_len ≡ 256 }
{
    let head = Head { key: 0, tag: 5 };
    writer.begin_at(0);
    writer.put_page(disk, 0, 2, head, &[1; 8])?;
    writer.begin_at(1);
    let middle = put_all(disk, writer, keys.0)?;
    writer.begin_at(middle);
    let last = put_all(disk, writer, keys.1)?;
    writer.put_page(disk, 0, 2, head, &[2; 8])?;
    Ok((middle, last))
}

// Whether two lists in one file come back.
fn come_back<D: Disk>(
    disk: &mut D,
    writer: Writer,
    keys: (&[Vid], &[Vid]),
) -> Result<(bool, bool), Stop>
    requires page_len { (D.shown disk.old).page_len ≡ 256 }
    requires writer { writer.page_len ≡ 256 }
{
    let mut writer = writer;
    let (middle, last) = put_both(disk, &mut writer, keys)?;
    let mut reader = read_by(writer, 5);
    reader.start_at(middle, middle.max(last));
    let second = gives(disk, &mut reader, keys.1)?;
    reader.start_at(1, middle.max(1));
    Ok((gives(disk, &mut reader, keys.0)?, second))
}

// The frame of a writer that is handed in serves a reader.
fn read_by(writer: Writer, file: u32) -> Reader
    ensures { result.page_len ≡ writer.page_len }
{
    Reader::new(writer.close(), file)
}

// A buffer for any body that a writer that is handed in may take.
fn body_of(writer: &mut Writer, frame: Frame) -> Buf
    requires { length frame ≡ writer.old.page_len }
    ensures { room_of writer.new.page_len ≡ 13 + result.limit }
{
    writer.begin_at(0);
    Buf::over(frame, px_pages::room(writer.page_len()) - 13)
}

#[test]
fn two_lists_in_one_file_come_back(rt: HostRuntime) -> Result<(), Fail> {
    let alloc = rt.alloc();
    let table: [(&[Vid], &[Vid]); 4] = [
        (&[], &[]),
        (&[], &[0, u64::MAX]),
        (&[0, 7, 7], &[]),
        (&[0, 7, 7, u64::MAX], &[1, 7, u64::MAX]),
    ];
    for keys in table {
        let mut disk = MemDisk::new(alloc, &[])?;
        disk.start(256)?;
        let writer = Writer::new(Frame::new(alloc, 256)?, 5);
        assert_eq!(rt;
            come_back(&mut disk, writer, keys),
            Ok((true, true)),
            "{keys:?}"
        );
    }
    Ok(())
}
