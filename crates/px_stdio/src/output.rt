// A writer as a sink.
ghost use Rattle.std.specs.Prelude.{◌≡◌, ◌≢◌, ◌≤◌, ◌<◌, ◌++◌, ℕ, List, length, take, Some, IfOk, IfErr, OnOk, OnErr};
ghost use Rattle.std.specs.Io.KnownBytes.{Appends, Keeps};
ghost use Rattle.std.specs.IoError.{error_kind};
ghost use Rattle.px_core.specs.Counts.{Rose, bumped};

use crate::TRIES;
use px_core::{Failed, Sink};
use std::io;
use std::io::{ErrorKind, Write};

/// Standard output, standard error, or another writer. It tells what it holds where the writer does, and those of the system do not.
/// A write that is interrupted is made again. One that fails, is always interrupted, or takes none of its bytes is a fault.
#[derive(Drop)]
pub struct Output<W: Write + Drop> {
    writer: W,
    faults: u64,
}

impl<W: Write + Drop> Output<W> {
    pub fn new(writer: W) -> Output<W>
        ensures writer { result.writer ≡ writer }
        ensures faults { result.faults ≡ 0 }
    {
        Output { writer, faults: 0 }
    }
}

// Writes once, and again where the call was interrupted. A call that takes nothing is an error.
fn write_some<W: Write>(writer: &mut W, from: &[u8]) -> io::Result<usize>
    ensures count { IfOk result (λ n. n ≤ length from.now) }
    ensures some { 0 < length from.now → IfOk result (λ n. 0 < n) }
    ensures bytes { IfOk result (λ n. Appends (W.contents writer.old) (W.contents writer.new) (take n from.now)) }
    ensures kept { OnErr result (Keeps (W.contents writer.old) (W.contents writer.new)) }
    ensures retried { IfErr result (λ e. error_kind e ≢ ErrorKind.Interrupted) }
{
    for _ in 0..TRIES {
        match writer.write(from) {
            Ok(n) if n > 0 || from.is_empty() => return Ok(n),
            Ok(_) => return Err(io::Error::from(ErrorKind::WriteZero)),
            Err(e) if e.kind() == ErrorKind::Interrupted => {}
            Err(e) => return Err(e),
        }
    }
    Err(io::Error::from(ErrorKind::TimedOut))
}

impl<W: Write + Drop> Sink for Output<W> {
    ghost holds = { λ s h. W.contents s.writer ≡ Some h };

    ghost faults = { λ s. s.faults };

    fn write(&mut self, from: &[u8]) -> Result<usize, Failed>
        ensures count { IfOk result (λ n. n ≤ length from.now) }
        ensures some { 0 < length from.now → IfOk result (λ n. 0 < n) }
        ensures ok { IfOk result (λ n. (h : List ℕ) → W.contents self.old.writer ≡ Some h → W.contents self.new.writer ≡ Some (h ++ take n from.now)) }
        ensures err { OnErr result ((h : List ℕ) → W.contents self.old.writer ≡ Some h → W.contents self.new.writer ≡ Some h) }
        ensures cause { OnErr result (Rose self.old.faults self.new.faults) }
        ensures no_fault { OnOk result (self.new.faults ≡ self.old.faults) }

        ensures counted { OnErr result (self.new.faults ≡ bumped self.old.faults) }
    {
        match write_some(&mut self.writer, from) {
            Ok(n) => Ok(n),
            Err(_) => {
                self.faults = self.faults.saturating_add(1);
                Err(Failed)
            }
        }
    }
}
