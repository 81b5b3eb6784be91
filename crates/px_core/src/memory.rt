// A source and a sink in memory, of which some calls fail.
ghost use Rattle.std.specs.Prelude.{◌≡◌, ◌≤◌, ◌<◌, ◌-◌, ◌⊎◌, ◌↔◌, ℕ, List, [], ◌++◌, length, take, drop, min, IsErr, IfOk, OnErr};
ghost use Rattle.px_core.specs.Counts.{Rose, bumped};
ghost use Rattle.px_core.specs.Memory.{IsLeft, IsHeld, NextFails};
ghost use Rattle.px_core.specs.Moved.{BeginsWith};

use crate::script::Script;
use crate::{Failed, Sink, Source};
use std::alloc::{AllocError, Global};
use std::marker::Model;

/// A source of bytes in memory. It tells what is left, and a read moves as much as fits.
#[derive(Drop)]
pub struct MemSource {
    bytes: Vec<u8>,
    next: usize,
    script: Script,
}

impl Model for MemSource {
    ghost use Rattle.std.specs.Prelude.{◌≤◌, drop, vec_len};
    ghost use Rattle.px_core.specs.Memory.{SourceView};

    ghost Value = { SourceView };

    ghost view = { λ s. record { left = drop s.next s.bytes.items; fails = s.script.fails; calls = s.script.calls; faults = s.script.faults } };

    ghost invariant = { λ s. s.next ≤ vec_len s.bytes };
}

impl MemSource {
    /// A source of these bytes, of which the calls with the numbers `fails` fail, counted from 1. Only memory can be short.
    pub fn new(alloc: Global, bytes: &[u8], fails: &[u64]) -> Result<MemSource, AllocError>
        ensures { IfOk result (λ s. s ≡ record { left = bytes.now; fails = fails.now; calls = 0; faults = 0 }) }
    {
        let bytes = bytes.to_vec(alloc)?;
        let script = Script::new(alloc, fails)?;
        Ok(MemSource {
            bytes,
            next: 0,
            script,
        })
    }
}

impl Source for MemSource {
    ghost left = { λ s l. l ≡ s.left };

    ghost faults = { λ s. s.faults };

    /// Fails exactly where the call is listed.
    fn read(&mut self, into: &mut [u8]) -> Result<usize, Failed>
        ensures count { IfOk result (λ n. n ≤ length into.new) }
        ensures bytes { IfOk result (λ n. (l : List ℕ) → IsLeft self.old l → BeginsWith n into.new l) }
        ensures rest { IfOk result (λ n. (l : List ℕ) → IsLeft self.old l → IsLeft self.new (drop n l)) }
        ensures end { 0 < length into.new → IfOk result (λ n. n ≡ 0 → (l : List ℕ) → IsLeft self.old l → l ≡ []) }
        ensures err { OnErr result ((l : List ℕ) → IsLeft self.old l → IsLeft self.new l) }
        ensures cause { OnErr result (Rose self.old.faults self.new.faults) }

        ensures listed { IsErr result ↔ NextFails self.old.fails self.old.calls }
        ensures moved { IfOk result (λ n. n ≡ min (length into.old) (length self.old.left)) }
        ensures filled { IfOk result (λ n. into.new ≡ take n self.old.left ++ drop n into.old) }
        ensures after { IfOk result (λ n. self.new ≡ record self.old { left = drop n self.old.left; calls = bumped self.old.calls }) }
        ensures unfilled { OnErr result (into.new ≡ into.old) }
        ensures failed { OnErr result (self.new ≡ record self.old { calls = bumped self.old.calls; faults = bumped self.old.faults }) }
    {
        self.script.call()?;
        let n = into.len().min(self.bytes.len() - self.next);
        into[..n].copy_from_slice(&self.bytes[self.next..self.next + n]);
        self.next += n;
        Ok(n)
    }
}

/// A sink of at most so many bytes in memory. It tells what it holds, and a write takes as much as there is room for.
#[derive(Drop)]
pub struct MemSink {
    held: Vec<u8>,
    most: usize,
    script: Script,
}

impl Model for MemSink {
    ghost use Rattle.std.specs.Prelude.{◌≤◌, vec_len, vec_capacity};
    ghost use Rattle.px_core.specs.Memory.{SinkView};

    ghost Value = { SinkView };

    ghost view = { λ s. record { held = s.held.items; most = s.most; fails = s.script.fails; calls = s.script.calls; faults = s.script.faults } };

    ghost invariant = { λ s. (vec_len s.held ≤ s.most) × (s.most ≤ vec_capacity s.held) };
}

impl MemSink {
    /// An empty sink for `most` bytes, of which the calls with the numbers `fails` fail, counted from 1.
    /// All its memory is taken here, which is the only call that memory can be short for.
    pub fn new(alloc: Global, most: u64, fails: &[u64]) -> Result<MemSink, AllocError>
        ensures { IfOk result (λ s. s ≡ record { held = []; most = most; fails = fails.now; calls = 0; faults = 0 }) }
    {
        let most = most as usize;
        let held = Vec::with_capacity(alloc, most)?;
        let script = Script::new(alloc, fails)?;
        Ok(MemSink { held, most, script })
    }

    /// The bytes that it holds, in the order in which they were written.
    pub fn bytes(&self) -> &[u8]
        ensures value { result.now ≡ self.now.held }
        ensures most { length self.now.held ≤ self.now.most }
    {
        &self.held
    }
}

impl Sink for MemSink {
    ghost holds = { λ s h. h ≡ s.held };

    ghost faults = { λ s. s.faults };

    /// Fails exactly where the call is listed, and where there are bytes to write and no room for one.
    fn write(&mut self, from: &[u8]) -> Result<usize, Failed>
        ensures count { IfOk result (λ n. n ≤ length from.now) }
        ensures some { 0 < length from.now → IfOk result (λ n. 0 < n) }
        ensures ok { IfOk result (λ n. (h : List ℕ) → IsHeld self.old h → IsHeld self.new (h ++ take n from.now)) }
        ensures err { OnErr result ((h : List ℕ) → IsHeld self.old h → IsHeld self.new h) }
        ensures cause { OnErr result (Rose self.old.faults self.new.faults) }

        ensures listed { IsErr result ↔ (NextFails self.old.fails self.old.calls ⊎ ((0 < length from.now) × (length self.old.held ≡ self.old.most))) }
        ensures taken { IfOk result (λ n. n ≡ min (length from.now) (self.old.most - length self.old.held)) }
        ensures after { IfOk result (λ n. self.new ≡ record self.old { held = self.old.held ++ take n from.now; calls = bumped self.old.calls }) }
        ensures failed { OnErr result (self.new ≡ record self.old { calls = bumped self.old.calls; faults = bumped self.old.faults }) }
    {
        self.script.call()?;
        let room = self.most - self.held.len();
        if room == 0 && !from.is_empty() {
            return Err(self.script.fault());
        }
        let n = from.len().min(room);
        self.held.extend_from_slice(&from[..n]).unwrap();
        Ok(n)
    }
}
