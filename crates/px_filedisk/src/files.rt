// Files of bytes, by number.
ghost use Rattle.std.specs.Prelude.{◌≡◌, ◌≢◌, ◌<◌, ◌≤◌, ◌+◌, ◌^◌, ℕ, List, [], length, Option, Some, IsOk, OnOk, OnErr, IfSome};
ghost use Rattle.std.specs.Option.{option_map};
ghost use Rattle.px_filedisk.specs.Block.{IsPartly, StandsAt, put_at};

use std::io;

/// Files of bytes, by number. One that was never written is empty.
pub trait Files: Drop {
    /// The bytes of a file, where they are known.
    ghost bytes: { Self → ℕ → Option (List ℕ) };

    /// No read within a file whose bytes are known fails.
    ghost reads_work: { Self → Type 0 };

    /// No write that ends at this offset or before it fails, no clear and no start.
    ghost writes_work: { Self → ℕ → Type 0 };

    /// How many calls have failed, where the files count them: one that answers Ok adds none.
    ghost failed: { Self → ℕ };

    /// Makes all files empty.
    fn start(&mut self) -> io::Result<()>
        ensures empty { OnOk result ((n : ℕ) → bytes self.new n ≡ option_map (λ _. []) (bytes self.old n)) }
        ensures failed { OnOk result (failed self.new ≡ failed self.old) }
        ensures reads_work { reads_work self.old → reads_work self.new }
        ensures writes_work { (end : ℕ) → writes_work self.old end → writes_work self.new end }
        ensures ready { (end : ℕ) → writes_work self.old end → IsOk result };

    /// Fills the slice with the bytes at an offset. Where the file has too few it is an error.
    fn read_at(&mut self, number: u32, at: u64, into: &mut [u8]) -> io::Result<()>
        requires { at + length into.old < 2 ^ 64 }
        ensures read { OnOk result (IfSome (bytes self.old number) (StandsAt at into.new)) }
        ensures kept { (n : ℕ) → bytes self.new n ≡ bytes self.old n }
        ensures failed { OnOk result (failed self.new ≡ failed self.old) }
        ensures reads_work { reads_work self.old → reads_work self.new }
        ensures writes_work { (end : ℕ) → writes_work self.old end → writes_work self.new end }
        ensures ready { reads_work self.old → (file : List ℕ) → bytes self.old number ≡ Some file → at + length into.old ≤ length file → IsOk result };

    /// Writes bytes at an offset. After an error some of the first of them may have been written.
    fn write_at(&mut self, number: u32, at: u64, from: &[u8]) -> io::Result<()>
        requires { at + length from.now < 2 ^ 64 }
        ensures written { OnOk result (bytes self.new number ≡ option_map (put_at at from.now) (bytes self.old number)) }
        ensures partly { OnErr result (IsPartly at from.now (bytes self.old number) (bytes self.new number)) }
        ensures others { (n : ℕ) → n ≢ number → bytes self.new n ≡ bytes self.old n }
        ensures failed { OnOk result (failed self.new ≡ failed self.old) }
        ensures reads_work { reads_work self.old → reads_work self.new }
        ensures writes_work { (end : ℕ) → writes_work self.old end → writes_work self.new end }
        ensures ready { (end : ℕ) → writes_work self.old end → at + length from.now ≤ end → IsOk result };

    /// Makes a file empty. After an error it is as before.
    fn clear(&mut self, number: u32) -> io::Result<()>
        ensures empty { OnOk result (bytes self.new number ≡ option_map (λ _. []) (bytes self.old number)) }
        ensures kept { OnErr result (bytes self.new number ≡ bytes self.old number) }
        ensures others { (n : ℕ) → n ≢ number → bytes self.new n ≡ bytes self.old n }
        ensures failed { OnOk result (failed self.new ≡ failed self.old) }
        ensures reads_work { reads_work self.old → reads_work self.new }
        ensures writes_work { (end : ℕ) → writes_work self.old end → writes_work self.new end }
        ensures ready { (end : ℕ) → writes_work self.old end → IsOk result };
}
