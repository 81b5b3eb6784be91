// Combiners: what becomes of two payloads, or two verdicts, to one vid.
ghost use Rattle.std.specs.Prelude.{◌≡◌, ◌↔◌, ◌<◌, length, OnOk, OnErr, IsErr, IsTrue};
ghost use Rattle.px_meaning.specs.Merge.{MergeRule, MergeLaws};
ghost use Rattle.px_frames.specs.Buffer.{SameRoom};

use px_frames::{Buf, Wide};

/// A combiner. The engine merges in any grouping and order, which its laws allow.
pub trait Merge: Drop {
    /// Its test of byte lists, and what it makes of two valid ones.
    ghost rule: { Self → MergeRule };

    /// Merges the bytes into those of the buffer. Of lists that are not valid nothing is said but that the call returns.
    fn merge_into(&self, buf: &mut Buf, bytes: &[u8]) -> Result<(), Wide>
        ensures ok { IsTrue ((rule self.now).valid buf.old.bytes) → IsTrue ((rule self.now).valid bytes.now)
            → OnOk result (buf.new.bytes ≡ (rule self.now).merge buf.old.bytes bytes.now) }
        ensures wide { IsTrue ((rule self.now).valid buf.old.bytes) → IsTrue ((rule self.now).valid bytes.now)
            → (IsErr result ↔ (buf.old.limit < length ((rule self.now).merge buf.old.bytes bytes.now))) }
        ensures same { OnErr result (buf.new ≡ buf.old) }
        ensures stays { SameRoom buf.old buf.new };

    ghost laws: { (m : Self) → MergeLaws (rule m) };
}
