// A disk of real files in a folder, which tells nothing of what they hold.
ghost use Rattle.std.specs.Prelude.{◌≡◌, ◌≢◌, ◌<◌, ◌≤◌, ◌↔◌, ◌+◌, ◌*◌, ◌^◌, ℕ, List, [], length, Some, IfOk, IfSome, IsOk, OnErr, OnOk};
ghost use Rattle.std.specs.Option.{option_map};
ghost use Rattle.px_core.specs.Counts.{bumped};
ghost use Rattle.px_core.specs.Shown.{Gives, HasRoom, NoFile, Only, Started, Stopped, Unstarted, Worked, told_if, written};
ghost use Rattle.px_filedisk.specs.Block.{HasPage, IsPartlyPut, with_page};
ghost use Rattle.px_filedisk.specs.Disk.{counts_of, shown_of};

use crate::block::{read_page, write_page};
use crate::files::Files;
use crate::folder::Folder;
use px_core::{Disk, Failed};
use std::alloc::{AllocError, Global};
use std::io;

/// A disk of real files in a folder: file n is the file `f` followed by n in decimal. Each page stands in a block after a stamp of 16 bytes:
/// the file number in 4 bytes, four zero bytes and the page number in 8, the numbers with their high byte first.
/// A file is opened at its first use and stays open. What can't be made, opened, removed, read or written is a fault, for lack of memory too,
/// and so is a page whose block is short or has another stamp.
#[derive(Drop)]
pub struct FileDisk<F = Folder> {
    files: F,
    page_len: u32,
    faults: u64,
    reads: u64,
    writes: u64,
}

impl FileDisk {
    /// A disk whose page length is 0. Nothing is made or opened before `start`.
    pub fn new(rt: HostRuntime, alloc: Global, folder: &str) -> Result<FileDisk, AllocError>
        ensures { IfOk result (λ d. counts_of d ≡ record { page_len = 0; faults = 0; reads = 0; writes = 0 }) }
    {
        Ok(FileDisk::over(Folder::new(rt, alloc, folder)?))
    }
}

impl<F> FileDisk<F> {
    // The same over these files.
    pub(crate) fn over(files: F) -> FileDisk<F>
        ensures files { result.files ≡ files }
        ensures counts { counts_of result ≡ record { page_len = 0; faults = 0; reads = 0; writes = 0 } }
    {
        FileDisk {
            files,
            page_len: 0,
            faults: 0,
            reads: 0,
            writes: 0,
        }
    }
}

// Counts a fault where a call on the files failed.
fn checked(faults: &mut u64, done: io::Result<()>) -> Result<(), Failed>
    ensures same { IsOk result ↔ IsOk done }
    ensures ok { OnOk result (faults.new ≡ faults.old) }
    ensures err { OnErr result (faults.new ≡ bumped faults.old) }
    ensures faults { faults.old ≤ faults.new }
{
    match done {
        Ok(()) => Ok(()),
        Err(_) => {
            *faults = faults.saturating_add(1);
            Err(Failed)
        }
    }
}

impl<F: Files> Disk for FileDisk<F> {
    ghost shown = { shown_of };

    /// Makes the folder where it is missing, and removes each file in it whose name is `f` and digits. After `Failed` the page length is as before.
    fn start(&mut self, frame_bytes: u32) -> Result<(), Failed>
        ensures ok { OnOk result (Started frame_bytes (shown_of self.old) (shown_of self.new)) }
        ensures err { OnErr result (Unstarted (shown_of self.old) (shown_of self.new)) }

        ensures after { OnOk result (counts_of self.new ≡ record (counts_of self.old) { page_len = frame_bytes }) }
        ensures bytes { OnOk result ((n : ℕ) → F.bytes self.new.files n ≡ option_map (λ _. []) (F.bytes self.old.files n)) }
        ensures counted { OnErr result (counts_of self.new ≡ record (counts_of self.old) { faults = bumped self.old.faults }) }
        ensures none_failed { OnOk result (F.failed self.new.files ≡ F.failed self.old.files) }
        ensures reads_work { F.reads_work self.old.files → F.reads_work self.new.files }
        ensures writes_work { (end : ℕ) → F.writes_work self.old.files end → F.writes_work self.new.files end }
        ensures ready { (end : ℕ) → F.writes_work self.old.files end → IsOk result }
    {
        let done = self.files.start();
        checked(&mut self.faults, done)?;
        self.page_len = frame_bytes;
        Ok(())
    }

    /// A page past the end of the file is short, and so `Failed`.
    fn read(&mut self, file: u32, page: u64, into: &mut [u8]) -> Result<(), Failed>
        requires { length into.old ≡ (shown_of self.old).page_len }
        ensures page { OnOk result (IfSome ((shown_of self.old).files file) (Gives page into.new)) }
        ensures ok { OnOk result (Worked NoFile 1 0 (shown_of self.old) (shown_of self.new)) }
        ensures err { OnErr result (Stopped (Only file) 0 0 (shown_of self.old) (shown_of self.new)) }

        ensures after { OnOk result (counts_of self.new ≡ record (counts_of self.old) { reads = bumped self.old.reads }) }
        ensures block { OnOk result (IfSome (F.bytes self.old.files file) (HasPage file page into.new)) }
        ensures bytes { (n : ℕ) → F.bytes self.new.files n ≡ F.bytes self.old.files n }
        ensures ready { F.reads_work self.old.files → (page + 1) * (length into.old + 16) < 2 ^ 64 → (page_bytes bytes : List ℕ) → F.bytes self.old.files file ≡ Some bytes
            → length page_bytes ≡ length into.old → HasPage file page page_bytes bytes → IsOk result }
        ensures counted { OnErr result (counts_of self.new ≡ record (counts_of self.old) { faults = bumped self.old.faults }) }
        ensures none_failed { OnOk result (F.failed self.new.files ≡ F.failed self.old.files) }
        ensures reads_work { F.reads_work self.old.files → F.reads_work self.new.files }
        ensures writes_work { (end : ℕ) → F.writes_work self.old.files end → F.writes_work self.new.files end }
    {
        let done = read_page(&mut self.files, file, page, into);
        checked(&mut self.faults, done)?;
        self.reads = self.reads.saturating_add(1);
        Ok(())
    }

    fn write(&mut self, file: u32, page: u64, from: &[u8]) -> Result<(), Failed>
        requires { length from.now ≡ (shown_of self.old).page_len }
        ensures page { OnOk result ((shown_of self.new).files file ≡ option_map (written page from.now) ((shown_of self.old).files file)) }
        ensures limit { OnOk result (IfSome ((shown_of self.old).files file) (HasRoom page)) }
        ensures ok { OnOk result (Worked (Only file) 0 1 (shown_of self.old) (shown_of self.new)) }
        ensures err { OnErr result (Stopped (Only file) 0 0 (shown_of self.old) (shown_of self.new)) }

        ensures after { OnOk result (counts_of self.new ≡ record (counts_of self.old) { writes = bumped self.old.writes }) }
        ensures block { OnOk result (F.bytes self.new.files file ≡ option_map (with_page file page from.now) (F.bytes self.old.files file)) }
        ensures partly { OnErr result (IsPartlyPut file page from.now (F.bytes self.old.files file) (F.bytes self.new.files file)) }
        ensures others { (n : ℕ) → n ≢ file → F.bytes self.new.files n ≡ F.bytes self.old.files n }
        ensures counted { OnErr result (counts_of self.new ≡ record (counts_of self.old) { faults = bumped self.old.faults }) }
        ensures none_failed { OnOk result (F.failed self.new.files ≡ F.failed self.old.files) }
        ensures reads_work { F.reads_work self.old.files → F.reads_work self.new.files }
        ensures writes_work { (end : ℕ) → F.writes_work self.old.files end → F.writes_work self.new.files end }
        ensures ready { (end : ℕ) → F.writes_work self.old.files end → (page + 1) * (length from.now + 16) ≤ end → (page + 1) * (length from.now + 16) < 2 ^ 64 → IsOk result }
    {
        let done = write_page(&mut self.files, file, page, from);
        checked(&mut self.faults, done)?;
        self.writes = self.writes.saturating_add(1);
        Ok(())
    }

    fn clear(&mut self, file: u32) -> Result<(), Failed>
        ensures empty { OnOk result ((shown_of self.new).files file ≡ told_if (shown_of self.new).tells []) }
        ensures ok { OnOk result (Worked (Only file) 0 0 (shown_of self.old) (shown_of self.new)) }
        ensures err { OnErr result (Stopped (Only file) 0 0 (shown_of self.old) (shown_of self.new)) }

        ensures after { OnOk result (counts_of self.new ≡ counts_of self.old) }
        ensures cleared { OnOk result (F.bytes self.new.files file ≡ option_map (λ _. []) (F.bytes self.old.files file)) }
        ensures kept { OnErr result (F.bytes self.new.files file ≡ F.bytes self.old.files file) }
        ensures others { (n : ℕ) → n ≢ file → F.bytes self.new.files n ≡ F.bytes self.old.files n }
        ensures counted { OnErr result (counts_of self.new ≡ record (counts_of self.old) { faults = bumped self.old.faults }) }
        ensures none_failed { OnOk result (F.failed self.new.files ≡ F.failed self.old.files) }
        ensures reads_work { F.reads_work self.old.files → F.reads_work self.new.files }
        ensures writes_work { (end : ℕ) → F.writes_work self.old.files end → F.writes_work self.new.files end }
        ensures ready { (end : ℕ) → F.writes_work self.old.files end → IsOk result }
    {
        let done = self.files.clear(file);
        checked(&mut self.faults, done)
    }

    fn reads(&self) -> u64
        ensures { result ≡ (shown_of self.now).reads }
    {
        self.reads
    }

    fn writes(&self) -> u64
        ensures { result ≡ (shown_of self.now).writes }
    {
        self.writes
    }
}
