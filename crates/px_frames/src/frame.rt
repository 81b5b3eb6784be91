// A frame: some bytes of a fixed number, lent by move.
ghost use Rattle.std.specs.Prelude.{◌≡◌, ◌≤◌, IfOk, length, take, replicate};
ghost use Rattle.std.specs.Borrow.{sem};
ghost use Rattle.px_frames.specs.Lending.{LendsBytes};

use std::alloc::{AllocError, Global};
use std::marker::Model;

/// A frame of bytes. Its length never changes. A contract sees it as the list of its bytes.
#[derive(Drop)]
pub struct Frame {
    bytes: Vec<u8>,
}

impl Model for Frame {
    ghost use Rattle.std.specs.Prelude.{List, ℕ};

    ghost Value = { List ℕ };

    ghost view = { λ f. f.bytes.items };
}

impl Frame {
    /// A frame of `len` zero bytes. The only error is want of memory.
    pub fn new(alloc: Global, len: u32) -> Result<Frame, AllocError>
        ensures { IfOk result (λ f. f ≡ replicate len 0) }
    {
        let bytes = vec![in alloc; 0u8; len as usize]?;
        Ok(Frame { bytes })
    }

    /// All its bytes.
    pub fn bytes(&self) -> &[u8]
        ensures { result.now ≡ self.now }
    {
        &self.bytes
    }

    /// All its bytes, to be written.
    pub fn bytes_mut(&mut self) -> &mut [u8]
        ensures* writes_back { sem 𝓛 (LendsBytes self.entry result) }
        ensures value { result.now ≡ self.old }
    {
        &mut self.bytes
    }

    // Its first bytes, to be written.
    pub(crate) fn front_mut(&mut self, len: usize) -> &mut [u8]
        requires { len ≤ length self.old }
        ensures* writes_back { sem 𝓛 (LendsBytes self.entry result) }
        ensures value { result.now ≡ take len self.old }
    {
        self.bytes.slice_mut(..len)
    }
}
