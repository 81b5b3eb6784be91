// A disk over files in memory, whose bytes are known: what is written there is what is read.
ghost use Rattle.std.specs.Prelude.{◌≡◌, ◌<◌, ◌≤◌, ◌+◌, ◌^◌, ◌==◌, if◌then◌else◌, [], length, Some, None, Ok, IsOk, IfOk, IfSome, OnOk, OnErr, vec_capacity};
ghost use Rattle.px_filedisk.specs.Block.{put_at};

use crate::FileDisk;
use crate::block::{read_page, write_page};
use crate::files::Files;
use px_core::{Disk, Failed};
use std::alloc::{AllocError, Global};
use std::io;
use std::io::ErrorKind;
use std::test::Fail;

// Two files whose bytes are known, in memory that was set aside. Of any other file nothing is known.
#[derive(Drop)]
struct Kept {
    file_7: Vec<u8>,
    file_300: Vec<u8>,
}

// Writes bytes at an offset of a file.
fn put(file: &mut Vec<u8>, at: usize, from: &[u8]) -> Result<(), AllocError>
    requires { at + length from.now < 2 ^ 64 }
    ensures bytes { OnOk result (file.new.items ≡ put_at at from.now file.old.items) }
    ensures kept { OnErr result (file.new.items ≡ file.old.items) }
    ensures room { vec_capacity file.old ≤ vec_capacity file.new }
    ensures ready { at + length from.now ≤ vec_capacity file.old → IsOk result }
{
    let end = at + from.len();
    if file.len() < end {
        file.resize(end, 0)?;
    }
    file.slice_mut(at..end).copy_from_slice(from);
    Ok(())
}

impl Kept {
    // With so many bytes set aside for each file.
    fn new(alloc: Global, room: usize) -> Result<Kept, AllocError>
        ensures { IfOk result (λ k. (room ≤ vec_capacity k.file_7) × (room ≤ vec_capacity k.file_300)) }
    {
        Ok(Kept {
            file_7: Vec::with_capacity(alloc, room)?,
            file_300: Vec::with_capacity(alloc, room)?,
        })
    }

    fn file(&self, number: u32) -> &[u8]
        ensures { result.now ≡ (if number == 7 then self.now.file_7.items else (if number == 300 then self.now.file_300.items else [])) }
    {
        match number {
            7 => &self.file_7,
            300 => &self.file_300,
            _ => &[],
        }
    }
}

impl Files for Kept {
    ghost bytes = { λ k n. if n == 7 then Some k.file_7.items else (if n == 300 then Some k.file_300.items else None) };

    ghost reads_work = { λ _. Unit {0} };

    ghost writes_work = { λ k end. (end ≤ vec_capacity k.file_7) × (end ≤ vec_capacity k.file_300) };

    ghost failed = { λ _. 0 };

    fn start(&mut self) -> io::Result<()> {
        self.file_7.clear();
        self.file_300.clear();
        Ok(())
    }

    fn read_at(&mut self, number: u32, at: u64, into: &mut [u8]) -> io::Result<()> {
        let file = self.file(number);
        let at = at as usize;
        let end = at + into.len();
        if end > file.len() {
            return Err(io::Error::from(ErrorKind::UnexpectedEof));
        }
        into.copy_from_slice(&file[at..end]);
        Ok(())
    }

    fn write_at(&mut self, number: u32, at: u64, from: &[u8]) -> io::Result<()> {
        match number {
            7 => put(&mut self.file_7, at as usize, from)?,
            300 => put(&mut self.file_300, at as usize, from)?,
            _ => {}
        }
        Ok(())
    }

    fn clear(&mut self, number: u32) -> io::Result<()> {
        match number {
            7 => self.file_7.clear(),
            300 => self.file_300.clear(),
            _ => {}
        }
        Ok(())
    }
}

// A page that is written is what is read.
fn write_and_read<F: Files>(
    files: &mut F,
    number: u32,
    page: u64,
    from: &[u8],
    into: &mut [u8],
) -> io::Result<()>
    requires { length into.old ≡ length from.now }
    ensures { OnOk result (IfSome (F.bytes files.old number) (λ _. into.new ≡ from.now)) }
{
    write_page(files, number, page, from)?;
    read_page(files, number, page, into)?;
    Ok(())
}

// The same through the disk, where files of 144 bytes work: no call fails.
fn comes_back(disk: &mut FileDisk<Kept>, from: &[u8; 8]) -> Result<[u8; 8], Failed>
    requires seven { 144 ≤ vec_capacity disk.old.files.file_7 }
    requires three_hundred { 144 ≤ vec_capacity disk.old.files.file_300 }
    ensures { result ≡ Ok from.now }
{
    disk.start(8)?;
    disk.clear(300)?;
    disk.write(300, 5, from)?;
    let mut bytes = [0; 8];
    disk.read(300, 5, &mut bytes)?;
    Ok(bytes)
}

#[test]
fn a_page_comes_back_from_memory(rt: HostRuntime) -> Result<(), Fail> {
    let mut files = Kept::new(rt.alloc(), 144)?;
    let mut bytes = *b"........";
    write_and_read(&mut files, 7, 1, b"page two", &mut bytes)?;
    assert_eq!(rt; bytes, *b"page two");
    let mut disk = FileDisk::over(Kept::new(rt.alloc(), 144)?);
    assert_eq!(rt; comes_back(&mut disk, b"page six"), Ok(*b"page six"));
    Ok(())
}
