// A device of page files, which may tell what it holds.
ghost use Rattle.std.specs.Prelude.{◌≡◌, [], ℕ, length, OnOk, OnErr, IfSome};
ghost use Rattle.std.specs.Option.{option_map};
ghost use Rattle.px_core.specs.Shown.{Shown, Only, NoFile, Worked, Stopped, Started, Unstarted, Gives, HasRoom, written, told_if};

use crate::Failed;

/// Files of pages, by number. A file that was never written is empty, and no file has more than 2^40 pages.
/// A disk may tell what it holds or tell nothing: what is said of pages here holds where it tells.
/// `Failed` is answered only where the count of faults rose, and `Ok` only where it did not: a disk tries no call again. After `Failed` nothing is told of the file that the call names,
/// until a `clear` of it or a `start` answers Ok, and every other file is as before.
pub trait Disk: Drop {
    /// What the disk shows.
    ghost shown: { Self → Shown };

    /// Empties all files and sets the page length, which no other call changes. From then on every file is told to be empty.
    /// After `Failed` nothing is told of any file, nor which of the two page lengths holds.
    fn start(&mut self, frame_bytes: u32) -> Result<(), Failed>
        ensures ok { OnOk result (Started frame_bytes (shown self.old) (shown self.new)) }
        ensures err { OnErr result (Unstarted (shown self.old) (shown self.new)) };

    /// Reads a page into a slice of the page length. A page below the end of the file is told to be these bytes; past the end the bytes are any.
    /// After `Failed` the slice holds any bytes, and nothing is told of the file.
    fn read(&mut self, file: u32, page: u64, into: &mut [u8]) -> Result<(), Failed>
        requires { length into.old ≡ (shown self.old).page_len }
        ensures page { OnOk result (IfSome ((shown self.old).files file) (Gives page into.new)) }
        ensures ok { OnOk result (Worked NoFile 1 0 (shown self.old) (shown self.new)) }
        ensures err { OnErr result (Stopped (Only file) 0 0 (shown self.old) (shown self.new)) };

    /// Writes a page, of the page length. Below the end of the file it replaces the page there, at the end it adds one, past the end the file stays as it is:
    /// the file is told to have these pages. A write that would add a page to 2^40 answers `Failed`. After `Failed` nothing is told of the file.
    fn write(&mut self, file: u32, page: u64, from: &[u8]) -> Result<(), Failed>
        requires { length from.now ≡ (shown self.old).page_len }
        ensures page { OnOk result ((shown self.new).files file ≡ option_map (written page from.now) ((shown self.old).files file)) }
        ensures limit { OnOk result (IfSome ((shown self.old).files file) (HasRoom page)) }
        ensures ok { OnOk result (Worked (Only file) 0 1 (shown self.old) (shown self.new)) }
        ensures err { OnErr result (Stopped (Only file) 0 0 (shown self.old) (shown self.new)) };

    /// Makes a file empty, and it is told to be so. After `Failed` nothing is told of the file.
    fn clear(&mut self, file: u32) -> Result<(), Failed>
        ensures empty { OnOk result ((shown self.new).files file ≡ told_if (shown self.new).tells []) }
        ensures ok { OnOk result (Worked (Only file) 0 0 (shown self.old) (shown self.new)) }
        ensures err { OnErr result (Stopped (Only file) 0 0 (shown self.old) (shown self.new)) };

    /// How many reads answered Ok. The count stands still at `u64::MAX`.
    fn reads(&self) -> u64
        ensures { result ≡ (shown self.now).reads };

    /// How many writes answered Ok. The count stands still at `u64::MAX`.
    fn writes(&self) -> u64
        ensures { result ≡ (shown self.now).writes };
}
