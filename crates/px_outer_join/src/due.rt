// Which row comes next.
ghost use Rattle.std.specs.Prelude.{◌≡◌, ◌&&◌};
ghost use Rattle.px_outer_join.specs.Due.{due_row, is_before};

use px_core::Vid;
use px_record::VertexBuf;
use px_store::Row;

/// The row of the lesser of two vids: of the next vertex and of the next message, as far as there are any.
pub(crate) fn row_of(vertex: Option<Vid>, message: Option<Vid>) -> Option<Row>
    ensures { result ≡ due_row vertex message }
{
    let vid = match (vertex, message) {
        (None, None) => return None,
        (Some(vid), None) | (None, Some(vid)) => vid,
        (Some(a), Some(b)) => a.min(b),
    };
    Some(Row {
        vid,
        has_vertex: vertex == Some(vid),
        has_message: message == Some(vid),
    })
}

/// Whether a vertex has halted and gets no message, where the next message is to this vid.
pub(crate) fn is_asleep(vertex: &VertexBuf, message: Option<Vid>) -> bool
    ensures { result ≡ (vertex.now.vertex.halt && is_before vertex.now.vid message) }
{
    let is_before = match message {
        None => true,
        Some(vid) => vertex.vid() < vid,
    };
    vertex.halt() && is_before
}
