// A share: frames that were lent, at most as many as it has places.
ghost use Rattle.std.specs.Prelude.{◌≡◌, ◌<◌, ◌≤◌, ◌≢◌, ◌++◌, [], ◌∷◌, List, ℕ, ◌+◌, length, take, drop, slice_index_or, slice_set, IfOk};
ghost use Rattle.px_frames.specs.Shares.{IsShare, SamePlaces, overlaid, with_range};
ghost use Rattle.px_frames.specs.Banks.{IsFrameLen};

use crate::Frame;
use std::alloc::{AllocError, Global};
use std::marker::Model;

/// Frames of one length that a bank lent, each at a place, and a note of two numbers for each place.
/// A note is its owner's to use and belongs to the place, not to the frame.
#[derive(Drop)]
pub struct Share {
    frames: Vec<Frame>,
    notes: Vec<(u64, u64)>,
    size: u32,
    frame_len: u32,
}

impl Model for Share {
    ghost use Rattle.std.specs.Prelude.{◌≡◌, ◌≤◌, length, vec_capacity};
    ghost use Rattle.px_frames.specs.Shares.{ShareView, HaveLen};
    ghost use Rattle.px_frames.specs.Banks.{IsFrameLen};

    ghost Value = { ShareView };

    ghost view = { λ s. record { size = s.size; frame_len = s.frame_len; frames = s.frames.items; notes = s.notes.items } };

    ghost invariant = { λ s. (s.size ≤ vec_capacity s.frames) × (length s.frames.items ≤ s.size) × (length s.notes.items ≡ s.size) × HaveLen s.frame_len s.frames.items × (s.size ≤ 65536) × IsFrameLen s.frame_len };
}

impl Share {
    ghost use Rattle.std.specs.Borrow.{sem};
    ghost use Rattle.px_frames.specs.LendingShare.{LendsFrame};

    // A share with no frame in it. All its room is made here.
    fn empty(alloc: Global, size: u32, frame_len: u32) -> Result<Share, AllocError>
        requires few { size ≤ 65536 }
        requires frame_len { IsFrameLen frame_len }
        ensures size { IfOk result (λ s. s.size ≡ size) }
        ensures frame_len { IfOk result (λ s. s.frame_len ≡ frame_len) }
        ensures frames { IfOk result (λ s. s.frames ≡ []) }
    {
        let frames = Vec::with_capacity(alloc, size as usize)?;
        let notes = vec![in alloc; (0, 0); size as usize]?;
        Ok(Share {
            frames,
            notes,
            size,
            frame_len,
        })
    }

    // A share with a frame at each place.
    pub(crate) fn full(alloc: Global, size: u32, frame_len: u32) -> Result<Share, AllocError>
        requires few { size ≤ 65536 }
        requires frame_len { IsFrameLen frame_len }
        ensures size { IfOk result (λ s. s.size ≡ size) }
        ensures frame_len { IfOk result (λ s. s.frame_len ≡ frame_len) }
        ensures full { IfOk result (λ s. length s.frames ≡ size) }
    {
        let mut share = Share::empty(alloc, size, frame_len)?;
        for _ in 0..size {
            share.put(Frame::new(alloc, frame_len)?);
        }
        Ok(share)
    }

    /// The number of places.
    pub fn size(&self) -> u32
        ensures value { result ≡ self.now.size }
        ensures share { IsShare self.now }
    {
        self.size
    }

    /// The number of frames that are in it.
    pub fn len(&self) -> u32
        ensures value { result ≡ length self.now.frames }
        ensures share { IsShare self.now }
    {
        // The length is at most the size, and the size is read so that its range is known.
        let _size = self.size;
        self.frames.len() as u32
    }

    /// Takes the last frame.
    pub fn take(&mut self) -> Frame
        requires { 0 < length self.old.frames }
        ensures frames { self.old.frames ≡ self.new.frames ++ result ∷ [] }
        ensures len { length result ≡ self.old.frame_len }
        ensures room { length self.new.frames < self.new.size }
        ensures notes { self.new.notes ≡ self.old.notes }
        ensures stays { SamePlaces self.old self.new }
        ensures share { IsShare self.new }
    {
        match self.frames.pop() {
            Some(frame) => frame,
            None => unreachable!(),
        }
    }

    /// Puts a frame last. No memory is asked for.
    pub fn put(&mut self, frame: Frame)
        requires room { length self.old.frames < self.old.size }
        requires len { length frame ≡ self.old.frame_len }
        ensures frames { self.new.frames ≡ self.old.frames ++ frame ∷ [] }
        ensures notes { self.new.notes ≡ self.old.notes }
        ensures stays { SamePlaces self.old self.new }
        ensures share { IsShare self.new }
    {
        match self.frames.push(frame) {
            Ok(()) => {}
            Err(_) => unreachable!(),
        }
    }

    /// The bytes of the frame at a place.
    pub fn frame(&self, i: u32) -> &[u8]
        requires { i < length self.now.frames }
        ensures value { (d : List ℕ) → result.now ≡ slice_index_or self.now.frames i d }
        ensures len { length result.now ≡ self.now.frame_len }
        ensures share { IsShare self.now }
    {
        self.frames[i as usize].bytes()
    }

    /// The bytes of the frame at a place, to be written.
    pub fn frame_mut(&mut self, i: u32) -> &mut [u8]
        requires { i < length self.old.frames }
        ensures* writes_back { sem 𝓛 (LendsFrame self.entry i result) }
        ensures value { (d : List ℕ) → result.now ≡ slice_index_or self.old.frames i d }
        ensures len { length result.now ≡ self.old.frame_len }
    {
        self.frames[i as usize].bytes_mut()
    }

    /// Copies the bytes of a frame over those of another.
    pub fn copy(&mut self, from: u32, to: u32)
        requires from { from < length self.old.frames }
        requires to { to < length self.old.frames }
        requires apart { from ≢ to }
        ensures frames { self.new.frames ≡ slice_set self.old.frames to (slice_index_or self.old.frames from []) }
        ensures notes { self.new.notes ≡ self.old.notes }
        ensures stays { SamePlaces self.old self.new }
        ensures share { IsShare self.new }
    {
        self.copy_range(from, 0, self.frame_len, to, 0);
    }

    /// Copies `len` bytes of a frame, from byte `at` on, over those of another, from its byte `to_at` on.
    pub fn copy_range(&mut self, from: u32, at: u32, len: u32, to: u32, to_at: u32)
        requires from { from < length self.old.frames }
        requires to { to < length self.old.frames }
        requires apart { from ≢ to }
        requires read { at + len ≤ self.old.frame_len }
        requires written { to_at + len ≤ self.old.frame_len }
        ensures frames { self.new.frames ≡ with_range self.old.frames from at len to to_at }
        ensures notes { self.new.notes ≡ self.old.notes }
        ensures stays { SamePlaces self.old self.new }
        ensures share { IsShare self.new }
    {
        let part = Part {
            at: at as usize,
            len: len as usize,
            to_at: to_at as usize,
        };
        copy_among(&mut self.frames, from as usize, to as usize, part);
    }

    /// The note of a place where a frame is.
    pub fn note(&self, i: u32) -> (u64, u64)
        requires { i < length self.now.frames }
        ensures value { (d : ℕ × ℕ) → result ≡ slice_index_or self.now.notes i d }
        ensures share { IsShare self.now }
    {
        self.notes[i as usize]
    }

    /// Writes the note of a place where a frame is.
    pub fn set_note(&mut self, i: u32, a: u64, b: u64)
        requires { i < length self.old.frames }
        ensures notes { self.new.notes ≡ slice_set self.old.notes i (a, b) }
        ensures frames { self.new.frames ≡ self.old.frames }
        ensures stays { SamePlaces self.old self.new }
        ensures share { IsShare self.new }
    {
        self.notes[i as usize] = (a, b);
    }
}

// Which bytes of a frame are copied, and to where in the other.
#[derive(Clone, Copy)]
struct Part {
    at: usize,
    len: usize,
    to_at: usize,
}

// Copies a part of one of several frames over bytes of another.
fn copy_among(frames: &mut [Frame], from: usize, to: usize, part: Part)
    requires from { from < length frames.old }
    requires to { to < length frames.old }
    requires apart { from ≢ to }
    requires read { part.at + part.len ≤ length (slice_index_or frames.old from []) }
    requires written { part.to_at + part.len ≤ length (slice_index_or frames.old to []) }
    ensures { frames.new ≡ with_range frames.old from part.at part.len to part.to_at }
{
    if from < to {
        let (front, back) = frames.split_at_mut(to);
        copy_over(&front[from], &mut back[0], part);
    } else {
        let (front, back) = frames.split_at_mut(from);
        copy_over(&back[0], &mut front[to], part);
    }
}

// Copies a part of a frame over bytes of another.
fn copy_over(from: &Frame, into: &mut Frame, part: Part)
    requires read { part.at + part.len ≤ length from.now }
    requires written { part.to_at + part.len ≤ length into.old }
    ensures { into.new ≡ overlaid into.old part.to_at (take part.len (drop part.at from.now)) }
{
    let bytes = &from.bytes()[part.at..part.at + part.len];
    into.bytes_mut()[part.to_at..part.to_at + part.len].copy_from_slice(bytes);
}
