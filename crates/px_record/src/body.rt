// The bytes of a vertex, numbers big-endian:
//
//   halt                   1 byte, 1 where the vertex has halted and else 0
//   length of the value    4 bytes
//   number of edges        4 bytes
//   value
//   edges                  12 bytes each: target 8, weight 4
//
// These are 9 + |value| + 12 * edges bytes, and bytes are a vertex only where their length is just
// that. A stored record has 13 bytes before them, so its size is 22 + |value| + 12 * edges.
ghost use Rattle.std.specs.Prelude.{◌≡◌, ◌≤◌, ◌+◌, ◌*◌, ◌-◌, ◌∷◌, ◌++◌, length, take, drop, IfSome, IfNone, false};
ghost use Rattle.std.specs.List.{copy_within};
ghost use Rattle.px_record.specs.Body.{header_bytes, edge_bytes, edge_at, body_len, is_vertex_body};

use byteorder::{BigEndian, ByteOrder};

pub(crate) const HEADER: usize = 9;

pub(crate) const EDGE: usize = 12;

/// What stands before the value.
#[derive(Clone, Copy)]
pub(crate) struct Header {
    pub(crate) halt: bool,
    /// The length of the value.
    pub(crate) value: u32,
    /// The number of edges.
    pub(crate) edges: u32,
}

/// The header of a vertex that hasn't halted, without value and edges.
pub(crate) const FRESH: Header = Header {
    halt: false,
    value: 0,
    edges: 0,
};

impl Header {
    ghost use Rattle.px_record.specs.Headers.{IsHeaderOf};

    /// The header of a vertex body, or `None` where the bytes are none.
    #[tactic(auto, unfolding(crate::specs::Body::is_vertex_body))]
    pub(crate) fn read(body: &[u8]) -> Option<Header>
        ensures none { IfNone result (is_vertex_body body.now ≡ false) }
        ensures some { IfSome result (λ header. IsHeaderOf header body.now) }
    {
        if body.len() < HEADER || body[0] > 1 {
            return None;
        }
        let header = Header {
            halt: body[0] == 1,
            value: BigEndian::read_u32(&body[1..]),
            edges: BigEndian::read_u32(&body[5..]),
        };
        (header.body_len() == body.len()).then_some(header)
    }

    /// The number of bytes of the whole body.
    pub(crate) fn body_len(self) -> usize
        ensures { result ≡ body_len self.value self.edges }
    {
        HEADER + self.value as usize + EDGE * self.edges as usize
    }

    pub(crate) fn put(self, out: &mut [u8])
        requires { 9 ≤ length out.old }
        ensures { out.new ≡ header_bytes self.halt self.value self.edges ++ drop 9 out.old }
    {
        out[0] = u8::from(self.halt);
        BigEndian::write_u32(&mut out[1..], self.value);
        BigEndian::write_u32(&mut out[5..], self.edges);
    }
}

/// Puts a whole body at the front.
pub(crate) fn put_body(out: &mut [u8], body: &[u8])
    requires { length body.now ≤ length out.old }
    ensures { out.new ≡ body.now ++ drop (length body.now) out.old }
{
    out[..body.len()].copy_from_slice(body);
}

/// Puts edges behind the value, and then the new header.
pub(crate) fn put_edges(bytes: &mut [u8], header: Header, edges: &[u8])
    requires { 9 + header.value + length edges.now ≤ length bytes.old }
    ensures { bytes.new ≡ header_bytes header.halt header.value header.edges
        ++ drop 9 (take (9 + header.value) bytes.old ++ edges.now ++ drop (9 + header.value + length edges.now) bytes.old) }
{
    let at = HEADER + header.value as usize;
    bytes[at..at + edges.len()].copy_from_slice(edges);
    header.put(bytes);
}

/// Puts a byte in the place of the first of the value.
pub(crate) fn put_first(bytes: &mut [u8], byte: u8)
    requires { 10 ≤ length bytes.old }
    ensures { bytes.new ≡ take 9 bytes.old ++ byte ∷ drop 10 bytes.old }
{
    bytes[HEADER] = byte;
}

/// The edge that begins at `at`.
pub(crate) fn edge_at(bytes: &[u8], at: usize) -> (u64, u32)
    requires { at + 12 ≤ length bytes.now }
    ensures { result ≡ edge_at (drop at bytes.now) }
{
    let edge = &bytes[at..at + EDGE];
    (BigEndian::read_u64(edge), BigEndian::read_u32(&edge[8..]))
}

fn put_edge(out: &mut [u8], dst: u64, weight: u32)
    requires { 12 ≤ length out.old }
    ensures { out.new ≡ edge_bytes (dst, weight) ++ drop 12 out.old }
{
    BigEndian::write_u64(out, dst);
    BigEndian::write_u32(&mut out[8..], weight);
}

/// Puts an edge at `at`, and then the new header.
pub(crate) fn add_edge(bytes: &mut [u8], header: Header, at: usize, dst: u64, weight: u32)
    requires from { 9 ≤ at }
    requires room { at + 12 ≤ length bytes.old }
    ensures { bytes.new ≡ header_bytes header.halt header.value header.edges
        ++ drop 9 (take at bytes.old ++ edge_bytes (dst, weight) ++ drop (at + 12) bytes.old) }
{
    put_edge(&mut bytes[at..], dst, weight);
    header.put(bytes);
}

// Moves what stands from `start` to `end`, so that it begins at `at`.
fn shift(bytes: &mut [u8], start: usize, end: usize, at: usize)
    requires order { start ≤ end }
    requires end { end ≤ length bytes.old }
    requires room { at + (end - start) ≤ length bytes.old }
    ensures { bytes.new ≡ copy_within bytes.old start end at }
{
    if start != at {
        bytes.copy_within(start..end, at);
    }
}

// Puts `more` in the place of what stands from `from` to `to`, and behind it what stood from there
// to `end`.
fn splice(bytes: &mut [u8], from: usize, to: usize, end: usize, more: &[u8])
    requires from { from ≤ to }
    requires to { to ≤ end }
    requires end { end ≤ length bytes.old }
    requires room { from + length more.now + (end - to) ≤ length bytes.old }
    ensures { take (from + length more.now + (end - to)) bytes.new
        ≡ take from bytes.old ++ more.now ++ take (end - to) (drop to bytes.old) }
{
    shift(bytes, to, end, from + more.len());
    bytes[from..from + more.len()].copy_from_slice(more);
}

/// Keeps the value up to `from`, puts `more` behind that, and then the new header.
pub(crate) fn put_value(bytes: &mut [u8], was: Header, header: Header, from: u32, more: &[u8])
    requires from { from ≤ was.value }
    requires body { body_len was.value was.edges ≤ length bytes.old }
    requires room { body_len (from + length more.now) was.edges ≤ length bytes.old }
    ensures { take (body_len (from + length more.now) was.edges) bytes.new
        ≡ header_bytes header.halt header.value header.edges
        ++ drop 9 (take (9 + from) bytes.old ++ more.now ++ take (12 * was.edges) (drop (9 + was.value) bytes.old)) }
{
    splice(
        bytes,
        HEADER + from as usize,
        HEADER + was.value as usize,
        was.body_len(),
        more,
    );
    header.put(bytes);
}
