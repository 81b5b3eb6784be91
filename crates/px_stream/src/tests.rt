// What no clause says: a disk that fails each call, and callers that stand on the clauses alone.
ghost use Rattle.std.specs.Prelude.{◌≡◌, ◌≢◌, ◌≤◌, ◌+◌, ℕ, List, length, false, None, IsErr, IsTrue, IfOk, IfSome};
ghost use Rattle.px_core.specs.Counts.{bumped};
ghost use Rattle.px_core.specs.Shown.{Shown};
ghost use Rattle.px_pages.specs.Entry.{Entry};
ghost use Rattle.px_meaning.specs.Graph.{room_of};
ghost use Rattle.px_stream.specs.Stream.{Took, Holds, ToGive, first_body};

use crate::{Reader, Writer};
use px_core::{Disk, Failed, Stop, Vid};
use px_frames::{Buf, Frame};
use std::marker::Model;
use std::test::Fail;

// A disk of pages of 256 bytes that fails each call.
#[derive(Drop)]
struct Broken {
    faults: u64,
}

impl Model for Broken {
    ghost use Rattle.std.specs.Prelude.{ℕ};

    ghost Value = { ℕ };

    ghost view = { λ d. d.faults };
}

impl Broken {
    fn refuse(&mut self) -> Result<(), Failed>
        ensures always { IsErr result }
        ensures counted { self.new ≡ bumped self.old }
        ensures faults { self.old ≤ self.new }
    {
        self.faults = self.faults.saturating_add(1);
        Err(Failed)
    }
}

impl Disk for Broken {
    ghost shown = { λ faults. record { tells = false; files = λ f. None; page_len = 256; faults = faults; reads = 0; writes = 0 } };

    fn start(&mut self, _frame_bytes: u32) -> Result<(), Failed>
        ensures always { IsErr result }
        ensures counted { self.new ≡ bumped self.old }
        ensures faults { self.old ≤ self.new }
    {
        self.refuse()
    }

    fn read(&mut self, _file: u32, _page: u64, into: &mut [u8]) -> Result<(), Failed>
        requires { length into.old ≡ 256 }
        ensures always { IsErr result }
        ensures counted { self.new ≡ bumped self.old }
        ensures faults { self.old ≤ self.new }
        ensures same { into.new ≡ into.old }
    {
        self.refuse()
    }

    fn write(&mut self, _file: u32, _page: u64, from: &[u8]) -> Result<(), Failed>
        requires { length from.now ≡ 256 }
        ensures always { IsErr result }
        ensures counted { self.new ≡ bumped self.old }
        ensures faults { self.old ≤ self.new }
    {
        self.refuse()
    }

    fn clear(&mut self, _file: u32) -> Result<(), Failed>
        ensures always { IsErr result }
        ensures counted { self.new ≡ bumped self.old }
        ensures faults { self.old ≤ self.new }
    {
        self.refuse()
    }

    fn reads(&self) -> u64
        ensures { result ≡ 0 }
    {
        0
    }

    fn writes(&self) -> u64
        ensures { result ≡ 0 }
    {
        0
    }
}

// A tuple is put into one file. What stands in three others stays.
fn put_beside<D: Disk>(
    disk: &mut D,
    to: &mut Writer,
    key: Vid,
    other: &Writer,
    reader: &Reader,
    file: u32,
) -> Result<(), Stop>
    requires page_len { to.old.page_len ≡ (D.shown disk.old).page_len }
    requires room { 13 ≤ room_of to.old.page_len }
    requires other { other.now.file ≢ to.old.file }
    requires reader { reader.now.file ≢ to.old.file }
    requires file { file ≢ to.old.file }
    ensures other { (l : List Entry) → Took (D.shown disk.old) other.now l → Took (D.shown disk.new) other.now l }
    ensures reader { (l : List Entry) → ToGive (D.shown disk.old) reader.now l → ToGive (D.shown disk.new) reader.now l }
    ensures file { (pages : ℕ) (l : List Entry) → Holds (D.shown disk.old) file pages l → Holds (D.shown disk.new) file pages l }
{
    to.put(disk, key, 0, &[])
}

// What the next call of `next` gives is what `peek` gave, on any disk.
fn is_as_peeked<D: Disk>(disk: &mut D, reader: &mut Reader, into: &mut Buf) -> Result<bool, Stop>
    requires page_len { reader.old.page_len ≡ (D.shown disk.old).page_len }
    requires limit { room_of reader.old.page_len ≤ 13 + into.old.limit }
    ensures { IfOk result (λ same. IsTrue same) }
{
    let peeked = reader.peek(disk)?;
    let given = reader.next(disk, into)?;
    Ok(peeked == given)
}

// The length of the body that comes next.
fn next_len<D: Disk>(disk: &mut D, reader: &mut Reader) -> Result<Option<usize>, Stop>
    requires { reader.old.page_len ≡ (D.shown disk.old).page_len }
    ensures { IfOk result (λ o. IfSome o (λ n. n ≡ length (first_body reader.new.here))) }
{
    match reader.peek(disk)? {
        None => Ok(None),
        Some(_) => Ok(Some(reader.peeked().len())),
    }
}

#[test]
fn each_call_of_a_broken_disk_is_scratch(rt: HostRuntime) -> Result<(), Fail> {
    let mut disk = Broken { faults: 0 };
    let mut writer = Writer::new(Frame::new(rt.alloc(), 256)?, 1);
    assert_eq!(rt; writer.start(&mut disk), Err(Stop::Scratch));
    assert_eq!(rt; writer.put(&mut disk, 7, 0, &[5; 90]), Ok(()));
    assert_eq!(rt; writer.put(&mut disk, 7, 0, &[6; 99]), Ok(()));
    assert_eq!(rt; writer.put(&mut disk, u64::MAX, 1, &[]), Err(Stop::Scratch));
    assert_eq!(rt; writer.finish(&mut disk), Err(Stop::Scratch));
    let mut reader = Reader::new(writer.close(), 1);
    let mut body = Buf::over(Frame::new(rt.alloc(), 256)?, 99);
    assert_eq!(rt; reader.next(&mut disk, &mut body), Ok(None));
    reader.start(1);
    assert!(rt; reader.edge());
    assert_eq!(rt; reader.peek(&mut disk), Err(Stop::Scratch));
    assert_eq!(rt; reader.next(&mut disk, &mut body), Err(Stop::Scratch));
    assert_eq!(rt; disk.faults, 5);
    Ok(())
}

mod memory;
mod merging;
