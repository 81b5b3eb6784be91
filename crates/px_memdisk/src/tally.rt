// What the calls of a disk came to.
ghost use Rattle.std.specs.Prelude.{◌≡◌, ◌≤◌, ◌↔◌, IsErr, IfOk, OnOk, OnErr};
ghost use Rattle.px_memdisk.specs.Tally.{IsListed, TallyView, after_call, after_fault, after_read, after_write, after_no_memory};

use px_core::{Failed, Script};
use std::alloc::{AllocError, Global};
use std::marker::Model;

/// Which calls are to fail, and how many came to what. Each count stands still at its last value.
#[derive(Drop)]
pub struct Tally {
    script: Script,
    reads: u64,
    writes: u64,
    short: u64,
}

impl Model for Tally {
    ghost Value = { TallyView };

    ghost view = { λ t. record { fails = t.script.fails; calls = t.script.calls; faults = t.script.faults; reads = t.reads; writes = t.writes; short = t.short } };
}

impl Tally {
    pub fn new(alloc: Global, fails: &[u64]) -> Result<Tally, AllocError>
        ensures { IfOk result (λ t. t ≡ record { fails = fails.now; calls = 0; faults = 0; reads = 0; writes = 0; short = 0 }) }
    {
        let script = Script::new(alloc, fails)?;
        Ok(Tally {
            script,
            reads: 0,
            writes: 0,
            short: 0,
        })
    }

    /// Counts a call, which fails where it is listed.
    pub fn call(&mut self) -> Result<(), Failed>
        ensures listed { IsErr result ↔ IsListed self.old }
        ensures ok { OnOk result (self.new ≡ after_call self.old) }
        ensures err { OnErr result (self.new ≡ after_fault (after_call self.old)) }
        ensures faults { self.old.faults ≤ self.new.faults }
    {
        self.script.call()
    }

    /// Counts a fault.
    pub fn fault(&mut self) -> Failed
        ensures value { self.new ≡ after_fault self.old }
        ensures faults { self.old.faults ≤ self.new.faults }
    {
        self.script.fault()
    }

    /// Counts a fault for memory alone.
    pub fn no_memory(&mut self) -> Failed
        ensures value { self.new ≡ after_no_memory self.old }
        ensures faults { self.old.faults ≤ self.new.faults }
    {
        self.short = self.short.saturating_add(1);
        self.fault()
    }

    pub fn count_read(&mut self)
        ensures value { self.new ≡ after_read self.old }
        ensures grows { self.old.reads ≤ self.new.reads }
    {
        self.reads = self.reads.saturating_add(1);
    }

    pub fn count_write(&mut self)
        ensures value { self.new ≡ after_write self.old }
        ensures grows { self.old.writes ≤ self.new.writes }
    {
        self.writes = self.writes.saturating_add(1);
    }

    pub fn reads(&self) -> u64
        ensures { result ≡ self.now.reads }
    {
        self.reads
    }

    pub fn writes(&self) -> u64
        ensures { result ≡ self.now.writes }
    {
        self.writes
    }

    pub fn short(&self) -> u64
        ensures { result ≡ self.now.short }
    {
        self.short
    }
}
