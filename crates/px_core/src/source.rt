// Where bytes come from.
ghost use Rattle.std.specs.Prelude.{◌≡◌, ◌≤◌, ◌<◌, ℕ, List, [], drop, length, IfOk, OnOk, OnErr};
ghost use Rattle.px_core.specs.Counts.{Rose};
ghost use Rattle.px_core.specs.Moved.{BeginsWith};

use crate::Failed;

/// A stream of bytes that is read once, from its beginning to its end.
pub trait Source: Drop {
    /// These bytes are left. A source that does not tell what it has stands in this relation to no list.
    ghost left: { Self → List ℕ → Type 0 };

    /// How often it has failed: a call that answers Ok adds nothing.
    ghost faults: { Self → ℕ };

    /// Moves some of the bytes left into the front of `into`, and answers how many. 0 is the end of input, unless `into` is empty.
    fn read(&mut self, into: &mut [u8]) -> Result<usize, Failed>
        ensures count { IfOk result (λ n. n ≤ length into.new) }
        ensures bytes { IfOk result (λ n. (l : List ℕ) → left self.old l → BeginsWith n into.new l) }
        ensures rest { IfOk result (λ n. (l : List ℕ) → left self.old l → left self.new (drop n l)) }
        ensures end { 0 < length into.new → IfOk result (λ n. n ≡ 0 → (l : List ℕ) → left self.old l → l ≡ []) }
        ensures err { OnErr result ((l : List ℕ) → left self.old l → left self.new l) }
        ensures cause { OnErr result (Rose (faults self.old) (faults self.new)) }
        ensures no_fault { OnOk result (faults self.new ≡ faults self.old) };
}
