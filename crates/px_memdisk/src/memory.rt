// A disk in memory, of which some calls fail.
ghost use Rattle.std.specs.Prelude.{◌≡◌, ◌⊎◌, ◌↔◌, ℕ, [], length, OnOk, OnErr, IsErr, IfOk, IfSome};
ghost use Rattle.std.specs.Option.{option_map};
ghost use Rattle.px_core.specs.Shown.{Only, NoFile, Worked, Stopped, Started, Unstarted, Gives, HasRoom, written, told_if};
ghost use Rattle.px_memdisk.specs.Files.{AreLong, IsFull, page_or_zeros, pages_in};
ghost use Rattle.px_memdisk.specs.Tally.{IsListed, after_call, after_fault, after_no_memory, after_read, after_write};

use crate::files::{Pages, Refusal, put, read_page};
use crate::tally::Tally;
use px_core::{Disk, Failed};
use std::alloc::{AllocError, Global};
use std::collections::BTreeMap;

/// A disk in memory, which tells its files. Of its calls of `start`, `read`, `write` and `clear` those fail that are listed,
/// and writes that add a page past the most pages or find no memory for it. After a failure each file is as before.
#[derive(Drop)]
pub struct MemDisk {
    alloc: Global,
    files: BTreeMap<u32, Pages>,
    page_len: u32,
    tally: Tally,
    ghost long: { (f : ℕ) → AreLong page_len (pages_in files f) },
}

impl MemDisk {
    /// A disk without pages, whose page length is 0. The calls with the numbers `fails` fail, all counted together from 1.
    pub fn new(alloc: Global, fails: &[u64]) -> Result<MemDisk, AllocError>
        ensures empty { IfOk result (λ d. (f : ℕ) → pages_in d.files f ≡ []) }
        ensures page_len { IfOk result (λ d. d.page_len ≡ 0) }
        ensures tally { IfOk result (λ d. d.tally ≡ record { fails = fails.now; calls = 0; faults = 0; reads = 0; writes = 0; short = 0 }) }
    {
        let tally = Tally::new(alloc, fails)?;
        Ok(MemDisk {
            alloc,
            files: BTreeMap::new(alloc),
            page_len: 0,
            tally,
        })
    }

    /// How many writes failed because there was no memory. The count stands still at `u64::MAX`.
    pub fn short(&self) -> u64
        ensures { result ≡ self.now.tally.short }
    {
        self.tally.short()
    }
}

impl Disk for MemDisk {
    ghost use Rattle.px_memdisk.specs.Memory.{shown_of};

    ghost shown = { shown_of };

    /// Fails exactly where the call is listed. Then the files and the page length are as before.
    fn start(&mut self, frame_bytes: u32) -> Result<(), Failed>
        ensures ok { OnOk result (Started frame_bytes (shown_of self.old) (shown_of self.new)) }
        ensures err { OnErr result (Unstarted (shown_of self.old) (shown_of self.new)) }

        ensures listed { IsErr result ↔ IsListed self.old.tally }
        ensures after { OnOk result (self.new.tally ≡ after_call self.old.tally) }
        ensures after_err { OnErr result (self.new.tally ≡ after_fault (after_call self.old.tally)) }
        ensures kept { OnErr result ((self.new.files ≡ self.old.files) × (self.new.page_len ≡ self.old.page_len)) }
    {
        self.tally.call()?;
        self.files.clear();
        self.page_len = frame_bytes;
        Ok(())
    }

    /// Fails exactly where the call is listed. Then `into` is as before. A page past the end is zeros.
    fn read(&mut self, file: u32, page: u64, into: &mut [u8]) -> Result<(), Failed>
        requires { length into.old ≡ (shown_of self.old).page_len }
        ensures page { OnOk result (IfSome ((shown_of self.old).files file) (Gives page into.new)) }
        ensures ok { OnOk result (Worked NoFile 1 0 (shown_of self.old) (shown_of self.new)) }
        ensures err { OnErr result (Stopped (Only file) 0 0 (shown_of self.old) (shown_of self.new)) }

        ensures listed { IsErr result ↔ IsListed self.old.tally }
        ensures bytes { OnOk result (into.new ≡ page_or_zeros page (length into.old) (pages_in self.old.files file)) }
        ensures after { OnOk result (self.new.tally ≡ after_read (after_call self.old.tally)) }
        ensures after_err { OnErr result (self.new.tally ≡ after_fault (after_call self.old.tally)) }
        ensures unfilled { OnErr result (into.new ≡ into.old) }
        ensures kept { self.new.files ≡ self.old.files }
    {
        self.tally.call()?;
        read_page(&self.files, file, page, into);
        self.tally.count_read();
        Ok(())
    }

    /// Fails where the call is listed, where it adds a page past the most pages, and where it adds one that there is no memory for.
    /// Only the last is counted as short. Then the files are as before.
    fn write(&mut self, file: u32, page: u64, from: &[u8]) -> Result<(), Failed>
        requires { length from.now ≡ (shown_of self.old).page_len }
        ensures page { OnOk result ((shown_of self.new).files file ≡ option_map (written page from.now) ((shown_of self.old).files file)) }
        ensures limit { OnOk result (IfSome ((shown_of self.old).files file) (HasRoom page)) }
        ensures ok { OnOk result (Worked (Only file) 0 1 (shown_of self.old) (shown_of self.new)) }
        ensures err { OnErr result (Stopped (Only file) 0 0 (shown_of self.old) (shown_of self.new)) }

        ensures after { OnOk result (self.new.tally ≡ after_write (after_call self.old.tally)) }
        ensures kept { OnErr result (pages_in self.new.files file ≡ pages_in self.old.files file) }
        ensures refused { IsListed self.old.tally ⊎ IsFull page (pages_in self.old.files file) → IsErr result × (self.new.tally ≡ after_fault (after_call self.old.tally)) }
        ensures short { OnErr result ((IsListed self.old.tally ⊎ IsFull page (pages_in self.old.files file))
            ⊎ ((page ≡ length (pages_in self.old.files file)) × (self.new.tally ≡ after_no_memory (after_call self.old.tally)))) }
    {
        self.tally.call()?;
        match put(self.alloc, &mut self.files, file, page, from) {
            Ok(()) => {
                self.tally.count_write();
                Ok(())
            }
            Err(Refusal::Full) => Err(self.tally.fault()),
            Err(Refusal::NoMemory) => Err(self.tally.no_memory()),
        }
    }

    /// Fails exactly where the call is listed. Then the file is as before.
    fn clear(&mut self, file: u32) -> Result<(), Failed>
        ensures empty { OnOk result ((shown_of self.new).files file ≡ told_if (shown_of self.new).tells []) }
        ensures ok { OnOk result (Worked (Only file) 0 0 (shown_of self.old) (shown_of self.new)) }
        ensures err { OnErr result (Stopped (Only file) 0 0 (shown_of self.old) (shown_of self.new)) }

        ensures listed { IsErr result ↔ IsListed self.old.tally }
        ensures after { OnOk result (self.new.tally ≡ after_call self.old.tally) }
        ensures after_err { OnErr result (self.new.tally ≡ after_fault (after_call self.old.tally)) }
        ensures kept { OnErr result (self.new.files ≡ self.old.files) }
    {
        self.tally.call()?;
        self.files.remove(&file);
        Ok(())
    }

    fn reads(&self) -> u64
        ensures { result ≡ (shown_of self.now).reads }
    {
        self.tally.reads()
    }

    fn writes(&self) -> u64
        ensures { result ≡ (shown_of self.now).writes }
    {
        self.tally.writes()
    }
}
