// Frames that are lent to a load or a dump.
use px_frames::{Buf, Frame, Share, SlotShare};
use px_record::VertexBuf;

/// What a load and a dump work with. All of it is back in its place when they end.
#[derive(Drop)]
pub struct LoadFrames {
    /// Holds vertices until they are sorted, and then the pages of a merge.
    pub runs: Share,
    /// Where each vertex that is held has its bytes.
    pub table: SlotShare,
    /// One for each store.
    pub outs: Share,
    /// Text that was read, or is to be written.
    pub text: Option<Frame>,
    pub vertex: VertexBuf,
    pub body: Buf,
}
