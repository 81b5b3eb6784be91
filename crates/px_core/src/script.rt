// Which calls of an object fail, by their numbers.
ghost use Rattle.std.specs.Prelude.{◌≡◌, ◌≤◌, ◌↔◌, IsErr, IfOk, OnOk, OnErr};
ghost use Rattle.px_core.specs.Counts.{bumped};
ghost use Rattle.px_core.specs.Memory.{NextFails};

use crate::Failed;
use std::alloc::{AllocError, Global};
use std::marker::Model;

/// For a device in memory: which of its calls are to fail, numbered from 1, with its counts of calls and of faults. A count stands still at `u64::MAX`.
#[derive(Drop)]
pub struct Script {
    fails: Vec<u64>,
    calls: u64,
    faults: u64,
}

impl Model for Script {
    ghost use Rattle.px_core.specs.Memory.{ScriptView};

    ghost Value = { ScriptView };

    ghost view = { λ s. record { fails = s.fails.items; calls = s.calls; faults = s.faults } };
}

impl Script {
    /// No call is counted yet. Only memory can be short.
    pub fn new(alloc: Global, fails: &[u64]) -> Result<Script, AllocError>
        ensures { IfOk result (λ s. s ≡ record { fails = fails.now; calls = 0; faults = 0 }) }
    {
        let fails = fails.to_vec(alloc)?;
        Ok(Script {
            fails,
            calls: 0,
            faults: 0,
        })
    }

    /// Counts a call, which fails where it is listed.
    pub fn call(&mut self) -> Result<(), Failed>
        ensures listed { IsErr result ↔ NextFails self.old.fails self.old.calls }
        ensures ok { OnOk result (self.new ≡ record self.old { calls = bumped self.old.calls }) }
        ensures err { OnErr result (self.new ≡ record self.old { calls = bumped self.old.calls; faults = bumped self.old.faults }) }
        ensures faults { self.old.faults ≤ self.new.faults }
    {
        self.calls = self.calls.saturating_add(1);
        if self.fails.contains(&self.calls) {
            return Err(self.fault());
        }
        Ok(())
    }

    /// Counts a fault.
    pub fn fault(&mut self) -> Failed
        ensures counted { self.new ≡ record self.old { faults = bumped self.old.faults } }
        ensures faults { self.old.faults ≤ self.new.faults }
    {
        self.faults = self.faults.saturating_add(1);
        Failed
    }
}
