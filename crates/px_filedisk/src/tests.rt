// What no contract can say: that pages come back from real files, how they stand there, and that a bad block is noticed.
ghost use Rattle.std.specs.Prelude.{◌≡◌, IfOk};

use crate::FileDisk;
use px_core::{Disk, Failed};
use std::fs;
use std::fs::OpenOptions;
use std::os::unix::fs::FileExt;
use std::test::Fail;

// A disk in which file 7 has two pages and file 300 one.
fn filled(rt: HostRuntime, folder: &str) -> Result<FileDisk, Fail>
    ensures { IfOk result (λ d. d.page_len ≡ 8) }
{
    let mut disk = FileDisk::new(rt, rt.alloc(), folder)?;
    disk.start(8)?;
    disk.write(7, 0, b"page one")?;
    disk.write(7, 1, b"page two")?;
    disk.write(300, 0, b"and this")?;
    Ok(disk)
}

fn page_of<D: Disk>(disk: &mut D, file: u32, page: u64) -> Result<[u8; 8], Failed>
    requires { (D.shown disk.old).page_len ≡ 8 }
    ensures { (D.shown disk.new).page_len ≡ 8 }
{
    let mut bytes = [0; 8];
    disk.read(file, page, &mut bytes)?;
    Ok(bytes)
}

#[test]
fn pages_come_back(rt: HostRuntime) -> Result<(), Fail> {
    let mut disk = filled(rt, "px_pages/folder")?;
    assert_eq!(rt; page_of(&mut disk, 7, 0), Ok(*b"page one"));
    assert_eq!(rt; page_of(&mut disk, 7, 1), Ok(*b"page two"));
    assert_eq!(rt; page_of(&mut disk, 7, 2), Err(Failed));
    let block = fs::read(&rt, "px_pages/folder/f300")?;
    assert_eq!(rt;
        block.as_slice(),
        b"\0\0\x01\x2c\0\0\0\0\0\0\0\0\0\0\0\0and this".as_slice()
    );
    disk.clear(300)?;
    assert_eq!(rt; page_of(&mut disk, 300, 0), Err(Failed));
    assert_eq!(rt; (disk.reads(), disk.writes()), (2, 3));
    fs::remove_dir_all(&rt, "px_pages")?;
    Ok(())
}

#[test]
fn a_bad_block_fails(rt: HostRuntime) -> Result<(), Fail> {
    let mut disk = filled(rt, "px_blocks")?;
    let file = OpenOptions::new().write(true).open(&rt, "px_blocks/f7")?;
    file.set_len(47)?;
    assert_eq!(rt; page_of(&mut disk, 7, 1), Err(Failed));
    assert_eq!(rt; page_of(&mut disk, 7, 0), Ok(*b"page one"));
    file.write_all_at(&[8], 3)?;
    assert_eq!(rt; page_of(&mut disk, 7, 0), Err(Failed));
    fs::remove_dir_all(&rt, "px_blocks")?;
    Ok(())
}

#[test]
fn a_start_removes_what_was_left(rt: HostRuntime) -> Result<(), Fail> {
    let left = filled(rt, "px_left")?;
    drop(left);
    fs::write(&rt, "px_left/f7.txt", "mine")?;
    let mut disk = FileDisk::new(rt, rt.alloc(), "px_left")?;
    disk.start(8)?;
    assert!(rt; !fs::exists(&rt, "px_left/f300")?);
    assert!(rt; fs::exists(&rt, "px_left/f7.txt")?);
    // A file that the listing missed is emptied at its first use.
    let block = b"\0\0\0\x07\0\0\0\0\0\0\0\0\0\0\0\0page one";
    fs::write(&rt, "px_left/f7", block)?;
    assert_eq!(rt; page_of(&mut disk, 7, 0), Err(Failed));
    // So is a file that this disk has written.
    disk.write(7, 0, b"page one")?;
    disk.start(8)?;
    assert_eq!(rt; page_of(&mut disk, 7, 0), Err(Failed));
    fs::remove_dir_all(&rt, "px_left")?;
    Ok(())
}

#[test]
fn a_folder_below_a_file_fails(rt: HostRuntime) -> Result<(), Fail> {
    fs::write(&rt, "px_file", "")?;
    let mut disk = FileDisk::new(rt, rt.alloc(), "px_file/folder")?;
    assert_eq!(rt; disk.start(8), Err(Failed));
    assert_eq!(rt; disk.clear(7), Err(Failed));
    fs::remove_file(&rt, "px_file")?;
    Ok(())
}

mod kept;
