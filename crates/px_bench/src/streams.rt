// Tuples are written to a file of a disk, and read back.
ghost use Rattle.std.specs.Prelude.{◌≡◌, ◌≤◌, ◌+◌, length, IfOk};
ghost use Rattle.px_meaning.specs.Graph.{room_of};

use crate::pages::body_with_edge;
use crate::tally::Tally;
use anyhow::Result;
use byteorder::{BigEndian, ByteOrder};
use px_core::{Disk, Stop};
use px_frames::Frame;
use px_pages::tags;
use px_stream::{Reader, Writer};
use std::alloc::{AllocError, Global};

/// The bytes of a page.
const PAGE: u32 = 262_144;

/// The number of the file.
const FILE: u32 = 1;

// Writes so many tuples, whose keys count up, and answers how many pages they take.
fn write<D: Disk>(writer: &mut Writer, disk: &mut D, count: u64) -> Result<u64, Stop>
    requires page_len { writer.old.page_len ≡ (D.shown disk.old).page_len }
    requires room { 34 ≤ room_of writer.old.page_len }
    ensures disk { (D.shown disk.new).page_len ≡ (D.shown disk.old).page_len }
    ensures writer { writer.new.page_len ≡ writer.old.page_len }
{
    let bodies = [1, 2, 3, 5, 7, 11, 13, 17].map(body_with_edge);
    writer.start(disk)?;
    for key in 0..count {
        let body = &bodies[(key % 8) as usize];
        writer.put(disk, key, tags::VERTEX, body)?;
    }
    writer.finish(disk)?;
    Ok(writer.pages())
}

// The target in a body with one edge.
fn target_of(body: &[u8]) -> u64 {
    match body.get(9..17) {
        Some(target) => BigEndian::read_u64(target),
        None => 0,
    }
}

// Reads what a reader has left, and sums keys, tags and targets.
fn read<D: Disk>(reader: &mut Reader, disk: &mut D) -> Result<Tally, Stop>
    requires { reader.old.page_len ≡ (D.shown disk.old).page_len }
{
    let mut tally = Tally::default();
    'tuples: while let Some(head) = reader.peek(disk)? {
        let sum = head.key.wrapping_add(head.tag.into());
        tally.add(1, sum.wrapping_add(target_of(reader.peeked())));
        reader.pass();
    }
    Ok(tally)
}

/// A frame of so many bytes.
pub fn frame_of(alloc: Global, len: u32) -> Result<Frame, AllocError>
    ensures { IfOk result (λ frame. length frame ≡ len) }
{
    Frame::new(alloc, len)
}

/// Writes so many tuples to a file of the disk and reads them back. It also answers how many pages they take.
pub fn run<D: Disk>(alloc: Global, disk: &mut D, count: u64) -> Result<(Tally, u64)> {
    disk.start(PAGE)?;
    let mut writer = Writer::new(frame_of(alloc, PAGE)?, FILE);
    let pages = write(&mut writer, disk, count)?;
    let mut reader = Reader::new(writer.close(), FILE);
    reader.start(pages);
    let tally = read(&mut reader, disk)?;
    Ok((tally, pages))
}
