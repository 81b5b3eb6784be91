// A disk that tells nothing.
ghost use Rattle.std.specs.Prelude.{◌≡◌, ◌≤◌, [], false, true, length, IsOk, OnOk, OnErr, IfSome};
ghost use Rattle.std.specs.Option.{option_map};
ghost use Rattle.px_core.specs.Counts.{bumped};
ghost use Rattle.px_core.specs.Shown.{Only, NoFile, Worked, Stopped, Started, Unstarted, Gives, HasRoom, written, told_if};

use px_core::{Disk, Failed};
use rand_core::utils::NextWord;
use rand_pcg::Lcg64Xsh32;

/// A disk that tells nothing and keeps nothing. What it answers comes from a seed: a page is any bytes, small ones, zeros,
/// or what stood in the slice. It is for tests of what a caller does with it.
#[derive(Drop)]
pub struct WildDisk {
    words: Lcg64Xsh32,
    fails: bool,
    page_len: u32,
    faults: u64,
    reads: u64,
    writes: u64,
}

impl WildDisk {
    /// A disk whose calls all answer Ok.
    pub fn new(seed: u64) -> WildDisk
        ensures { result.fails ≡ false }
    {
        WildDisk::over(seed, false)
    }

    /// A disk of which one call in about sixteen fails.
    pub fn failing(seed: u64) -> WildDisk
        ensures { result.fails ≡ true }
    {
        WildDisk::over(seed, true)
    }

    fn over(seed: u64, fails: bool) -> WildDisk
        ensures { result.fails ≡ fails }
    {
        WildDisk {
            words: Lcg64Xsh32::new(seed, 1),
            fails,
            page_len: 0,
            faults: 0,
            reads: 0,
            writes: 0,
        }
    }

    // Fails where the disk may fail and the next word is a multiple of 16.
    fn call(&mut self) -> Result<(), Failed>
        ensures ok { OnOk result (self.new ≡ record self.old { words = self.new.words }) }
        ensures err { OnErr result (self.new ≡ record self.old { words = self.new.words; faults = bumped self.old.faults }) }
        ensures faults { self.old.faults ≤ self.new.faults }
        ensures never { self.old.fails ≡ false → IsOk result }
    {
        if self.fails && self.words.next_word() % 16 == 0 {
            self.faults = self.faults.saturating_add(1);
            return Err(Failed);
        }
        Ok(())
    }
}

// Any bytes where each bit of the mask may be set.
fn scatter(words: &mut Lcg64Xsh32, mask: u8, into: &mut [u8])
    ensures { length into.new ≡ length into.old }
{
    for byte in into.iter_mut() {
        *byte = (words.next_word() >> 24) as u8 & mask;
    }
}

fn fill(words: &mut Lcg64Xsh32, into: &mut [u8])
    ensures { length into.new ≡ length into.old }
{
    match words.next_word() % 4 {
        0 => scatter(words, 255, into),
        1 => scatter(words, 3, into),
        2 => into.fill(0),
        _ => {}
    }
}

impl Disk for WildDisk {
    ghost use Rattle.px_memdisk.specs.Wild.{wild_shown};

    ghost shown = { wild_shown };

    fn start(&mut self, frame_bytes: u32) -> Result<(), Failed>
        ensures ok { OnOk result (Started frame_bytes (wild_shown self.old) (wild_shown self.new)) }
        ensures err { OnErr result (Unstarted (wild_shown self.old) (wild_shown self.new)) }

        ensures never { self.old.fails ≡ false → IsOk result }
        ensures fails { self.new.fails ≡ self.old.fails }
    {
        self.call()?;
        self.page_len = frame_bytes;
        Ok(())
    }

    fn read(&mut self, file: u32, page: u64, into: &mut [u8]) -> Result<(), Failed>
        requires { length into.old ≡ (wild_shown self.old).page_len }
        ensures page { OnOk result (IfSome ((wild_shown self.old).files file) (Gives page into.new)) }
        ensures ok { OnOk result (Worked NoFile 1 0 (wild_shown self.old) (wild_shown self.new)) }
        ensures err { OnErr result (Stopped (Only file) 0 0 (wild_shown self.old) (wild_shown self.new)) }

        ensures never { self.old.fails ≡ false → IsOk result }
        ensures fails { self.new.fails ≡ self.old.fails }
    {
        self.call()?;
        fill(&mut self.words, into);
        self.reads = self.reads.saturating_add(1);
        Ok(())
    }

    fn write(&mut self, file: u32, page: u64, from: &[u8]) -> Result<(), Failed>
        requires { length from.now ≡ (wild_shown self.old).page_len }
        ensures page { OnOk result ((wild_shown self.new).files file ≡ option_map (written page from.now) ((wild_shown self.old).files file)) }
        ensures limit { OnOk result (IfSome ((wild_shown self.old).files file) (HasRoom page)) }
        ensures ok { OnOk result (Worked (Only file) 0 1 (wild_shown self.old) (wild_shown self.new)) }
        ensures err { OnErr result (Stopped (Only file) 0 0 (wild_shown self.old) (wild_shown self.new)) }

        ensures never { self.old.fails ≡ false → IsOk result }
        ensures fails { self.new.fails ≡ self.old.fails }
    {
        self.call()?;
        self.writes = self.writes.saturating_add(1);
        Ok(())
    }

    fn clear(&mut self, file: u32) -> Result<(), Failed>
        ensures empty { OnOk result ((wild_shown self.new).files file ≡ told_if (wild_shown self.new).tells []) }
        ensures ok { OnOk result (Worked (Only file) 0 0 (wild_shown self.old) (wild_shown self.new)) }
        ensures err { OnErr result (Stopped (Only file) 0 0 (wild_shown self.old) (wild_shown self.new)) }

        ensures never { self.old.fails ≡ false → IsOk result }
        ensures fails { self.new.fails ≡ self.old.fails }
    {
        self.call()
    }

    fn reads(&self) -> u64
        ensures { result ≡ (wild_shown self.now).reads }
    {
        self.reads
    }

    fn writes(&self) -> u64
        ensures { result ≡ (wild_shown self.now).writes }
    {
        self.writes
    }
}
