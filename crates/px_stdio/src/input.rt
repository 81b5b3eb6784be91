// A reader as a source.
ghost use Rattle.std.specs.Prelude.{◌≡◌, ◌≢◌, ◌≤◌, ◌<◌, ℕ, List, [], length, take, drop, Some, IfOk, IfErr, OnOk, OnErr};
ghost use Rattle.std.specs.Io.KnownBytes.{Consumes, IsAtEnd, Keeps};
ghost use Rattle.std.specs.IoError.{error_kind};
ghost use Rattle.px_core.specs.Counts.{Rose, bumped};
ghost use Rattle.px_core.specs.Moved.{BeginsWith};

use crate::TRIES;
use px_core::{Failed, Source};
use std::io;
use std::io::{ErrorKind, Read};

/// Standard input, or another reader. It tells what is left where the reader does, and standard input does not.
/// A read that is interrupted is made again. One that fails, or is always interrupted, is a fault.
#[derive(Drop)]
pub struct Input<R: Read + Drop> {
    reader: R,
    faults: u64,
}

impl<R: Read + Drop> Input<R> {
    pub fn new(reader: R) -> Input<R>
        ensures reader { result.reader ≡ reader }
        ensures faults { result.faults ≡ 0 }
    {
        Input { reader, faults: 0 }
    }
}

// Reads once, and again where the call was interrupted.
fn read_some<R: Read>(reader: &mut R, into: &mut [u8]) -> io::Result<usize>
    ensures count { IfOk result (λ n. n ≤ length into.new) }
    ensures bytes { IfOk result (λ n. Consumes (R.remaining reader.old) (R.remaining reader.new) (take n into.new)) }
    ensures end { 0 < length into.new → IfOk result (λ n. n ≡ 0 → IsAtEnd (R.remaining reader.new)) }
    ensures kept { OnErr result (Keeps (R.remaining reader.old) (R.remaining reader.new)) }
    ensures retried { IfErr result (λ e. error_kind e ≢ ErrorKind.Interrupted) }
{
    for _ in 0..TRIES {
        match reader.read(into) {
            Ok(n) => return Ok(n),
            Err(e) if e.kind() == ErrorKind::Interrupted => {}
            Err(e) => return Err(e),
        }
    }
    Err(io::Error::from(ErrorKind::TimedOut))
}

impl<R: Read + Drop> Source for Input<R> {
    ghost left = { λ s l. R.remaining s.reader ≡ Some l };

    ghost faults = { λ s. s.faults };

    fn read(&mut self, into: &mut [u8]) -> Result<usize, Failed>
        ensures count { IfOk result (λ n. n ≤ length into.new) }
        ensures bytes { IfOk result (λ n. (l : List ℕ) → R.remaining self.old.reader ≡ Some l → BeginsWith n into.new l) }
        ensures rest { IfOk result (λ n. (l : List ℕ) → R.remaining self.old.reader ≡ Some l → R.remaining self.new.reader ≡ Some (drop n l)) }
        ensures end { 0 < length into.new → IfOk result (λ n. n ≡ 0 → (l : List ℕ) → R.remaining self.old.reader ≡ Some l → l ≡ []) }
        ensures err { OnErr result ((l : List ℕ) → R.remaining self.old.reader ≡ Some l → R.remaining self.new.reader ≡ Some l) }
        ensures cause { OnErr result (Rose self.old.faults self.new.faults) }
        ensures no_fault { OnOk result (self.new.faults ≡ self.old.faults) }

        ensures counted { OnErr result (self.new.faults ≡ bumped self.old.faults) }
    {
        match read_some(&mut self.reader, into) {
            Ok(n) => Ok(n),
            Err(_) => {
                self.faults = self.faults.saturating_add(1);
                Err(Failed)
            }
        }
    }
}
