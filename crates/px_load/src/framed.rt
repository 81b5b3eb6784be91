// A sink over a frame: what is put goes on to another sink a frame at a time.
ghost use Rattle.std.specs.Prelude.{◌≡◌, ◌≤◌, ◌<◌, ◌+◌, ◌-◌, ◌++◌, ⊤, ℕ, List, length, take, drop, min, Ok, OnOk, OnErr, IfErr};
ghost use Rattle.px_core.specs.Counts.{Rose};
ghost use Rattle.px_load.specs.Dumping.{SomeOf};
ghost use Rattle.px_load.specs.Framed.{IsFramed, IsPut, IsNamed, EndsFramed};

use crate::stops::DumpStop;
use px_core::{Failed, Sink};
use px_frames::Frame;
use std::marker::{Brand, PhantomData};

/// What a sink over a frame was made with, to be named in proofs: what the sink held that it lends, and the length of the frame.
pub(crate) trait Lent {
    ghost began: { List ℕ → Type 0 };

    ghost len: { ℕ };
}

impl Lent for Brand {
    ghost began = { λ h. ⊤ };

    ghost len = { 0 };
}

/// Gathers bytes in a frame, and hands a full frame on to another sink. The rest goes on where `flush` is called.
#[derive(Drop)]
pub(crate) struct Framed<'f, 'w, W: Sink, K: Lent> {
    pub(crate) frame: &'f mut Frame,
    pub(crate) out: &'w mut W,
    // The bytes from the first place on, up to before the second, wait to go on.
    pub(crate) from: usize,
    pub(crate) to: usize,
    pub(crate) of: PhantomData<K>,
    ghost is: { IsFramed K.len frame.now from to },
}

// Copies as many of the bytes as have room in a frame behind a place, and answers how many.
fn put_at(frame: &mut [u8], at: usize, bytes: &[u8]) -> usize
    requires { at ≤ length frame.old }
    ensures count { result ≡ min (length bytes.now) (length frame.old - at) }
    ensures frame { frame.new ≡ take at frame.old ++ take result bytes.now ++ drop (at + result) frame.old }
    ensures len { length frame.new ≡ length frame.old }
{
    let n = bytes.len().min(frame.len() - at);
    frame[at..at + n].copy_from_slice(&bytes[..n]);
    n
}

impl<W: Sink, K: Lent> Framed<'_, '_, W, K> {
    // Takes as many of the bytes as have room in the frame, and answers how many.
    fn gather(&mut self, bytes: &[u8]) -> usize
        ensures count { result ≡ min (length bytes.now) (K.len - self.old.to) }
        ensures puts { (all : List ℕ) → IsPut K.began (W.holds self.old.out.now) self.old.frame.now self.old.from self.old.to all → IsPut K.began (W.holds self.new.out.now) self.new.frame.now self.new.from self.new.to (all ++ take result bytes.now) }
        ensures faults { W.faults self.new.out.now ≡ W.faults self.old.out.now }
        ensures lends { self.new.out.ghost_name ≡ self.old.out.ghost_name }
        ensures fills { self.new.frame.ghost_name ≡ self.old.frame.ghost_name }
    {
        let to = self.to;
        let n = put_at(self.frame.bytes_mut(), to, bytes);
        self.to = to + n;
        n
    }

    /// Hands on all that waits. Where the sink fails, the rest still waits.
    pub(crate) fn flush(&mut self) -> Result<(), Failed>
        ensures puts { (all : List ℕ) → IsPut K.began (W.holds self.old.out.now) self.old.frame.now self.old.from self.old.to all → IsPut K.began (W.holds self.new.out.now) self.new.frame.now self.new.from self.new.to all }
        ensures from { OnOk result (self.new.from ≡ 0) }
        ensures to { OnOk result (self.new.to ≡ 0) }
        ensures lends { self.new.out.ghost_name ≡ self.old.out.ghost_name }
        ensures fills { self.new.frame.ghost_name ≡ self.old.frame.ghost_name }
        ensures cause { OnErr result (Rose (W.faults self.old.out.now) (W.faults self.new.out.now)) }
        ensures no_fault { OnOk result (W.faults self.new.out.now ≡ W.faults self.old.out.now) }
    {
        while self.from < self.to {
            let n = self.out.write(&self.frame.bytes()[self.from..self.to])?;
            self.from += n;
        }
        self.from = 0;
        self.to = 0;
        Ok(())
    }

    /// Hands on the rest, where all was put.
    pub(crate) fn end(&mut self, put: Result<(), DumpStop>) -> Result<(), DumpStop>
        ensures puts { OnOk result ((all : List ℕ) → IsPut K.began (W.holds self.old.out.now) self.old.frame.now self.old.from self.old.to all → (h : List ℕ) → K.began h → W.holds self.new.out.now (h ++ all)) }
        ensures part { OnErr result ((all : List ℕ) → IsPut K.began (W.holds self.old.out.now) self.old.frame.now self.old.from self.old.to all → (h : List ℕ) → K.began h → SomeOf all (λ text. W.holds self.new.out.now (h ++ text))) }
        ensures ok { OnOk result (put ≡ Ok tt) }
        ensures lends { self.new.out.ghost_name ≡ self.old.out.ghost_name }
        ensures fills { self.new.frame.ghost_name ≡ self.old.frame.ghost_name }
        ensures err { IfErr result (λ e. EndsFramed put e (W.faults self.old.out.now) (W.faults self.new.out.now)) }
        ensures no_fault { OnOk result (W.faults self.new.out.now ≡ W.faults self.old.out.now) }
    {
        put?;
        self.flush()?;
        Ok(())
    }
}

impl<W: Sink, K: Lent> Sink for Framed<'_, '_, W, K> {
    ghost holds = { λ f l. IsNamed f.out.ghost_name f.frame.ghost_name (IsPut K.began (W.holds f.out.now) f.frame.now f.from f.to) l };

    ghost faults = { λ f. W.faults f.out.now };

    fn write(&mut self, from: &[u8]) -> Result<usize, Failed> {
        if self.to == self.frame.bytes().len() {
            self.flush()?;
        }
        Ok(self.gather(from))
    }
}
