// What readers and writers do that no clause speaks of, and what is told over those in memory.
ghost use Rattle.std.specs.Prelude.{◌≡◌, [], ◌∷◌, ◌++◌, length, take, drop, Some, IfOk, OnOk};

use crate::{Input, Output};
use px_core::{Failed, Sink, Source, write_all};
use std::io;
use std::io::{ErrorKind, Read, Write};

// A reader of these bytes. Every other call is interrupted, and past the end it fails.
#[derive(Drop)]
struct Flaky<'a> {
    bytes: &'a [u8],
    is_interrupted: bool,
}

impl Read for Flaky<'_> {
    ghost remaining = { λ r. Some r.bytes.now };

    fn read(&mut self, into: &mut [u8]) -> io::Result<usize> {
        self.is_interrupted = !self.is_interrupted;
        if self.is_interrupted {
            return Err(io::Error::from(ErrorKind::Interrupted));
        }
        if self.bytes.is_empty() {
            return Err(io::Error::from(ErrorKind::BrokenPipe));
        }
        self.bytes.read(into)
    }
}

// A reader that is always interrupted, and a writer that is full.
#[derive(Drop)]
struct Stuck;

impl Read for Stuck {
    fn read(&mut self, _into: &mut [u8]) -> io::Result<usize> {
        Err(io::Error::from(ErrorKind::Interrupted))
    }
}

impl Write for Stuck {
    fn write(&mut self, _from: &[u8]) -> io::Result<usize> {
        Ok(0)
    }

    fn flush(&mut self) -> io::Result<()> {
        Ok(())
    }
}

// A reader and writer that fails at its first call, and then has nothing and takes everything.
#[derive(Drop)]
struct FailsOnce {
    has_failed: bool,
}

impl Read for FailsOnce {
    fn read(&mut self, _into: &mut [u8]) -> io::Result<usize> {
        if self.has_failed {
            return Ok(0);
        }
        self.has_failed = true;
        Err(io::Error::from(ErrorKind::BrokenPipe))
    }
}

impl Write for FailsOnce {
    fn write(&mut self, from: &[u8]) -> io::Result<usize> {
        if self.has_failed {
            return Ok(from.len());
        }
        self.has_failed = true;
        Err(io::Error::from(ErrorKind::BrokenPipe))
    }

    fn flush(&mut self) -> io::Result<()> {
        Ok(())
    }
}

// A reader that tells what is left gives the first of it.
fn read_here(input: &mut Input<Flaky<'_>>, into: &mut [u8]) -> Result<usize, Failed>
    requires { input.old.reader.bytes.now ≡ 97 ∷ 98 ∷ [] }
    ensures moved { IfOk result (λ n. take n into.new ≡ take n (97 ∷ 98 ∷ [])) }
    ensures rest { IfOk result (λ n. input.new.reader.bytes.now ≡ drop n (97 ∷ 98 ∷ [])) }
{
    input.read(into)
}

// A writer that tells what it holds has all the bytes in the end.
fn write_here(output: &mut Output<Vec<u8>>, bytes: &[u8]) -> Result<(), Failed>
    ensures { OnOk result (output.new.writer.items ≡ output.old.writer.items ++ bytes.now) }
{
    write_all(output, bytes)
}

#[test]
fn an_interrupted_read_is_made_again(rt: HostRuntime) {
    let mut input = Input::new(Flaky {
        bytes: b"ab",
        is_interrupted: false,
    });
    let mut bytes = [0; 4];
    assert_eq!(rt; read_here(&mut input, &mut bytes[..1]), Ok(1));
    assert_eq!(rt; input.read(&mut bytes[1..]), Ok(1));
    assert_eq!(rt; bytes, *b"ab\0\0");
    assert_eq!(rt; input.read(&mut bytes), Err(Failed));
}

#[test]
fn interruptions_without_end_are_a_fault(rt: HostRuntime) {
    let mut input = Input::new(Stuck);
    assert_eq!(rt; input.read(&mut [0; 4]), Err(Failed));
}

#[test]
fn a_failed_call_is_not_made_again(rt: HostRuntime) {
    let mut input = Input::new(FailsOnce { has_failed: false });
    assert_eq!(rt; input.read(&mut [0; 4]), Err(Failed));
    assert_eq!(rt; input.read(&mut [0; 4]), Ok(0));
    let mut output = Output::new(FailsOnce { has_failed: false });
    assert_eq!(rt; output.write(b"a"), Err(Failed));
    assert_eq!(rt; output.write(b"a"), Ok(1));
}

#[test]
fn a_write_that_takes_nothing_is_a_fault(rt: HostRuntime) {
    let mut output = Output::new(Stuck);
    assert_eq!(rt; output.write(&[]), Ok(0));
    assert_eq!(rt; output.write(b"a"), Err(Failed));
}

#[test]
fn bytes_arrive_at_a_writer(rt: HostRuntime) {
    let mut output = Output::new(Vec::new(rt.alloc()));
    assert_eq!(rt; write_here(&mut output, b"abc"), Ok(()));
}
