// Where bytes go to.
ghost use Rattle.std.specs.Prelude.{◌≡◌, ◌≤◌, ◌<◌, ℕ, List, ◌++◌, length, take, IfOk, OnOk, OnErr};
ghost use Rattle.px_core.specs.Counts.{Rose};

use crate::Failed;

/// A stream of bytes that is written once, from its beginning on.
pub trait Sink: Drop {
    /// It holds these bytes. A sink that does not tell what it holds stands in this relation to no list.
    ghost holds: { Self → List ℕ → Type 0 };

    /// How often it has failed: a call that answers Ok adds nothing.
    ghost faults: { Self → ℕ };

    /// Appends some of the first bytes, and answers how many: at least one, unless `from` is empty.
    fn write(&mut self, from: &[u8]) -> Result<usize, Failed>
        ensures count { IfOk result (λ n. n ≤ length from.now) }
        ensures some { 0 < length from.now → IfOk result (λ n. 0 < n) }
        ensures ok { IfOk result (λ n. (h : List ℕ) → holds self.old h → holds self.new (h ++ take n from.now)) }
        ensures err { OnErr result ((h : List ℕ) → holds self.old h → holds self.new h) }
        ensures cause { OnErr result (Rose (faults self.old) (faults self.new)) }
        ensures no_fault { OnOk result (faults self.new ≡ faults self.old) };
}

/// Writes all the bytes, by as many calls as it takes. It ends at the first failure: then a prefix of them was written.
pub fn write_all<W: Sink>(sink: &mut W, bytes: &[u8]) -> Result<(), Failed>
    ensures ok { OnOk result ((h : List ℕ) → W.holds sink.old h → W.holds sink.new (h ++ bytes.now)) }
    ensures err { OnErr result ((h : List ℕ) → W.holds sink.old h → (n : ℕ) × W.holds sink.new (h ++ take n bytes.now)) }
    ensures cause { OnErr result (Rose (W.faults sink.old) (W.faults sink.new)) }
    ensures no_fault { OnOk result (W.faults sink.new ≡ W.faults sink.old) }
{
    let mut done = 0;
    while done < bytes.len() {
        done += sink.write(&bytes[done..])?;
    }
    Ok(())
}
