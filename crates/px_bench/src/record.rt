// A vertex in a frame of its own.
ghost use Rattle.std.specs.Prelude.{◌≡◌, ◌-◌, ◌/◌, IfOk};
ghost use Rattle.px_record.specs.Held.{IsRoomOf};

use px_frames::Frame;
use px_record::VertexBuf;
use std::alloc::{AllocError, Global};

/// A fresh vertex over a frame of so many bytes.
pub fn record_of(alloc: Global, frame_bytes: u32) -> Result<VertexBuf, AllocError>
    requires { IsRoomOf (frame_bytes / 2 - 16) frame_bytes }
    ensures room { IfOk result (λ v. v.room ≡ frame_bytes / 2 - 16) }
    ensures len { IfOk result (λ v. v.frame_len ≡ frame_bytes) }
{
    let frame = Frame::new(alloc, frame_bytes)?;
    Ok(VertexBuf::over(frame, frame_bytes / 2 - 16))
}
