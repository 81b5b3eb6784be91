// A list of bytes in a frame, of at most `limit` bytes.
ghost use Rattle.std.specs.Prelude.{◌≡◌, ◌≤◌, ◌<◌, ◌+◌, ◌++◌, ◌↔◌, [], length, take, OnOk, OnErr, IsErr};
ghost use Rattle.std.specs.Borrow.{sem};
ghost use Rattle.px_frames.specs.Buffer.{SameRoom, IsWithin};

use crate::Frame;
use std::marker::Model;
use thiserror::Error;

/// The bytes are more than the limit of the buffer or record that was to take them.
#[derive(Clone, Copy, Debug, PartialEq, Eq, Error)]
#[error("there is no room for so many bytes")]
pub struct Wide;

/// Bytes held in a frame, at most as many as the limit.
#[derive(Drop)]
pub struct Buf {
    frame: Frame,
    len: u32,
    limit: u32,
}

impl Model for Buf {
    ghost use Rattle.std.specs.Prelude.{◌≤◌, length, take};
    ghost use Rattle.px_frames.specs.Buffer.{BufView};

    ghost Value = { BufView };

    ghost view = { λ b. record { bytes = take b.len b.frame; limit = b.limit; frame_len = length b.frame } };

    ghost invariant = { λ b. (b.len ≤ b.limit) × (b.limit ≤ length b.frame) };
}

// Writes these bytes at a place of the frame.
fn put_at(frame: &mut Frame, at: usize, bytes: &[u8])
    requires { at + length bytes.now ≤ length frame.old }
    ensures front { take (at + length bytes.now) frame.new ≡ take at frame.old ++ bytes.now }
    ensures len { length frame.new ≡ length frame.old }
{
    frame.bytes_mut()[at..at + bytes.len()].copy_from_slice(bytes);
}

impl Buf {
    ghost use Rattle.px_frames.specs.LendingBuffer.{LendsHeld};

    /// An empty buffer over this frame.
    pub fn over(frame: Frame, limit: u32) -> Buf
        requires { limit ≤ length frame }
        ensures bytes { result.bytes ≡ [] }
        ensures limit { result.limit ≡ limit }
        ensures frame_len { result.frame_len ≡ length frame }
    {
        Buf {
            frame,
            len: 0,
            limit,
        }
    }

    /// The frame back. What its bytes are is not said.
    pub fn close(self) -> Frame
        ensures { length result ≡ self.frame_len }
    {
        self.frame
    }

    /// The bytes held.
    pub fn bytes(&self) -> &[u8]
        ensures bytes { result.now ≡ self.now.bytes }
        ensures within { IsWithin self.now }
    {
        &self.frame.bytes()[..self.len as usize]
    }

    /// The bytes held, to be written. Their number stays.
    pub fn bytes_mut(&mut self) -> &mut [u8]
        ensures* writes_back { sem 𝓛 (LendsHeld self.entry result) }
        ensures value { result.now ≡ self.old.bytes }
        ensures within { IsWithin self.old }
    {
        self.frame.front_mut(self.len as usize)
    }

    /// Lets all bytes go.
    pub fn clear(&mut self)
        ensures bytes { self.new.bytes ≡ [] }
        ensures stays { SameRoom self.old self.new }
        ensures within { IsWithin self.new }
    {
        self.len = 0;
    }

    /// Takes these bytes in place of its own. After `Wide` it is as before.
    pub fn set(&mut self, bytes: &[u8]) -> Result<(), Wide>
        ensures ok { OnOk result (self.new.bytes ≡ bytes.now) }
        ensures same { OnErr result (self.new ≡ self.old) }
        ensures wide { IsErr result ↔ (self.old.limit < length bytes.now) }
        ensures stays { SameRoom self.old self.new }
        ensures within { IsWithin self.new }
    {
        if bytes.len() > self.limit as usize {
            return Err(Wide);
        }
        put_at(&mut self.frame, 0, bytes);
        self.len = bytes.len() as u32;
        Ok(())
    }

    /// Adds these bytes after its own. After `Wide` it is as before.
    pub fn append(&mut self, bytes: &[u8]) -> Result<(), Wide>
        ensures ok { OnOk result (self.new.bytes ≡ self.old.bytes ++ bytes.now) }
        ensures same { OnErr result (self.new ≡ self.old) }
        ensures wide { IsErr result ↔ (self.old.limit < length self.old.bytes + length bytes.now) }
        ensures stays { SameRoom self.old self.new }
        ensures within { IsWithin self.new }
    {
        let at = self.len as usize;
        if bytes.len() > self.limit as usize - at {
            return Err(Wide);
        }
        put_at(&mut self.frame, at, bytes);
        self.len += bytes.len() as u32;
        Ok(())
    }
}
