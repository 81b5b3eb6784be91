// A fold is formed in a buffer.
ghost use Rattle.std.specs.Prelude.{◌≡◌, ◌≢◌, ◌≤◌, ◌<◌, length, IsTrue, Some, false, OnOk, OnErr, IfErr};
ghost use Rattle.px_frames.specs.Buffer.{SameRoom};

use px_core::{Stop, Vid};
use px_frames::{Buf, Wide};
use px_program::Merge;

/// Merges bytes into a fold.
pub(crate) fn merge_in<M: Merge>(merge: &M, fold: &mut Buf, bytes: &[u8]) -> Result<(), Stop>
    ensures ok { OnOk result (IsTrue ((M.rule merge.now).valid fold.old.bytes) → IsTrue ((M.rule merge.now).valid bytes.now) → fold.new.bytes ≡ (M.rule merge.now).merge fold.old.bytes bytes.now) }
    ensures within { OnOk result (IsTrue ((M.rule merge.now).valid fold.old.bytes) → IsTrue ((M.rule merge.now).valid bytes.now) → length fold.new.bytes ≤ fold.old.limit) }
    ensures beyond { OnErr result (IsTrue ((M.rule merge.now).valid fold.old.bytes) → IsTrue ((M.rule merge.now).valid bytes.now) → fold.old.limit < length ((M.rule merge.now).merge fold.old.bytes bytes.now)) }
    ensures only { IfErr result (λ e. e ≡ Stop.Beyond) }
    ensures room { SameRoom fold.old fold.new }
{
    match merge.merge_into(fold, bytes) {
        Ok(()) => Ok(()),
        Err(Wide) => Err(Stop::Beyond),
    }
}

/// Begins a fold.
pub(crate) fn begin(fold: &mut Buf, bytes: &[u8]) -> Result<(), Stop>
    ensures ok { OnOk result (fold.new.bytes ≡ bytes.now) }
    ensures within { OnOk result (length fold.new.bytes ≤ fold.old.limit) }
    ensures beyond { OnErr result (fold.old.limit < length bytes.now) }
    ensures only { IfErr result (λ e. e ≡ Stop.Beyond) }
    ensures room { SameRoom fold.old fold.new }
{
    match fold.set(bytes) {
        Ok(()) => Ok(()),
        Err(Wide) => Err(Stop::Beyond),
    }
}

/// Whether this is the vid.
pub(crate) fn is_current(current: Option<Vid>, vid: Vid) -> bool
    ensures same { IsTrue result → current ≡ Some vid }
    ensures other { result ≡ false → current ≢ Some vid }
{
    match current {
        Some(v) => v == vid,
        None => false,
    }
}
