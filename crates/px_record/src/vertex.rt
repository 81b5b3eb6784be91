// One vertex, in the bytes that it is stored as, at the front of a frame.
ghost use Rattle.std.specs.Prelude.{◌≡◌, ◌↔◌, ◌+◌, ◌*◌, ◌/◌, ◌%◌, ◌≤◌, ◌<◌, [], ◌∷◌, ◌++◌, length, take, drop, IsTrue, IsFalse, OnOk, OnErr, IsErr, slice_get, Some};
ghost use Rattle.px_meaning.specs.Graph.{fresh, vertex_size, size_of};
ghost use Rattle.px_record.specs.Body.{body_of, vertex_of, is_vertex_body, edges_bytes, edges_in};
ghost use Rattle.px_record.specs.Held.{IsRoomOf, IsWithin};

use crate::body::{
    EDGE, FRESH, HEADER, Header, add_edge, edge_at, put_body, put_edges, put_first, put_value,
};
use px_frames::{Frame, Wide};
use std::marker::Model;

/// How many bytes a stored record or pair has before its body or payload.
pub const FRONT: usize = 13;

/// One vertex within its room, in the bytes that it is stored as.
#[derive(Drop)]
pub struct VertexBuf {
    frame: Frame,
    vid: u64,
    room: u32,
    header: Header,
}

impl Model for VertexBuf {
    ghost use Rattle.std.specs.Prelude.{length};
    ghost use Rattle.px_record.specs.Held.{HeldVertex};
    ghost use Rattle.px_record.specs.Headers.{vertex_at, IsHeld};

    ghost Value = { HeldVertex };

    ghost view = { λ v. record { vid = v.vid; vertex = vertex_at v.header v.frame; room = v.room; frame_len = length v.frame } };

    ghost invariant = { λ v. IsHeld v.header v.room v.frame };
}

impl VertexBuf {
    /// The fresh vertex of vid 0 in this frame. `room` is the most that the vertex's size may be.
    pub fn over(mut frame: Frame, room: u32) -> VertexBuf
        requires { IsRoomOf room (length frame) }
        ensures { result ≡ record { vid = 0; vertex = fresh; room = room; frame_len = length frame } }
    {
        FRESH.put(frame.bytes_mut());
        VertexBuf {
            frame,
            vid: 0,
            room,
            header: FRESH,
        }
    }

    /// Gives the frame back.
    pub fn close(self) -> Frame
        ensures { length result ≡ self.frame_len }
    {
        self.frame
    }

    /// Makes it the fresh vertex of this vid.
    pub fn reset(&mut self, vid: u64)
        ensures { self.new ≡ record self.old { vid = vid; vertex = fresh } }
    {
        FRESH.put(self.frame.bytes_mut());
        self.vid = vid;
        self.header = FRESH;
    }

    /// Makes it the vertex of this vid that a body spells. It is false, and nothing is changed, where
    /// the bytes are no vertex body or its size is above the room.
    pub fn load(&mut self, vid: u64, body: &[u8]) -> bool
        ensures loaded { IsTrue result ↔ (IsTrue (is_vertex_body body.now) × (13 + length body.now ≤ self.old.room)) }
        ensures held { IsTrue result → self.new ≡ record self.old { vid = vid; vertex = vertex_of body.now } }
        ensures body { IsTrue result → body_of self.new.vertex ≡ body.now }
        ensures same { IsFalse result → self.new ≡ self.old }
    {
        if body.len() > self.room as usize - FRONT {
            return false;
        }
        let Some(header) = Header::read(body) else {
            return false;
        };
        put_body(self.frame.bytes_mut(), body);
        self.vid = vid;
        self.header = header;
        true
    }

    /// The bytes that the vertex is stored as.
    pub fn body(&self) -> &[u8]
        ensures body { result.now ≡ body_of self.now.vertex }
        ensures valid { IsTrue (is_vertex_body result.now) }
        ensures spells { vertex_of result.now ≡ self.now.vertex }
        ensures len { 13 + length result.now ≡ vertex_size self.now.vertex }
        ensures within { IsWithin self.now }
    {
        &self.frame.bytes()[..self.header.body_len()]
    }

    /// The most that the vertex's size may be.
    pub fn room(&self) -> u32
        ensures value { result ≡ self.now.room }
        ensures within { IsWithin self.now }
    {
        self.room
    }

    pub fn vid(&self) -> u64
        ensures { result ≡ self.now.vid }
    {
        self.vid
    }

    pub fn halt(&self) -> bool
        ensures { result ≡ self.now.vertex.halt }
    {
        self.header.halt
    }

    pub fn value(&self) -> &[u8]
        ensures value { result.now ≡ self.now.vertex.value }
        ensures within { IsWithin self.now }
    {
        &self.frame.bytes()[HEADER..HEADER + self.header.value as usize]
    }

    /// The number of edges.
    pub fn edges(&self) -> u32
        ensures count { result ≡ length self.now.vertex.edges }
        ensures within { IsWithin self.now }
    {
        self.header.edges
    }

    /// The target and the weight of an edge.
    pub fn edge(&self, i: u32) -> (u64, u32)
        requires { i < length self.now.vertex.edges }
        ensures { slice_get self.now.vertex.edges i ≡ Some result }
    {
        let at = HEADER + self.header.value as usize + EDGE * i as usize;
        edge_at(self.frame.bytes(), at)
    }

    /// The edges in the bytes that they are stored as.
    pub fn edge_bytes(&self) -> &[u8]
        ensures bytes { result.now ≡ edges_bytes self.now.vertex.edges }
        ensures within { IsWithin self.now }
    {
        let at = HEADER + self.header.value as usize;
        &self.frame.bytes()[at..self.header.body_len()]
    }

    pub fn set_halt(&mut self, halt: bool)
        ensures { self.new ≡ record self.old { vertex = record self.old.vertex { halt = halt } } }
    {
        let header = Header {
            halt,
            ..self.header
        };
        header.put(self.frame.bytes_mut());
        self.header = header;
    }

    pub fn clear_edges(&mut self)
        ensures { self.new ≡ record self.old { vertex = record self.old.vertex { edges = [] } } }
    {
        let header = Header {
            edges: 0,
            ..self.header
        };
        header.put(self.frame.bytes_mut());
        self.header = header;
    }

    // How much larger the vertex may become.
    fn free(&self) -> usize
        ensures { result + vertex_size self.now.vertex ≡ self.now.room }
    {
        self.room as usize - FRONT - self.header.body_len()
    }

    // Keeps the value up to `from`, and puts `more` behind that.
    fn write_value(&mut self, from: u32, more: &[u8]) -> Result<(), Wide>
        requires { from ≤ length self.old.vertex.value }
        ensures wide { IsErr result ↔ (self.old.room < size_of (from + length more.now) (length self.old.vertex.edges)) }
        ensures ok { OnOk result (self.new ≡ record self.old { vertex = record self.old.vertex { value = take from self.old.vertex.value ++ more.now } }) }
        ensures err { OnErr result (self.new ≡ self.old) }
    {
        if more.len() > self.free() + (self.header.value - from) as usize {
            return Err(Wide);
        }
        let was = self.header;
        let header = Header {
            value: from + more.len() as u32,
            ..was
        };
        put_value(self.frame.bytes_mut(), was, header, from, more);
        self.header = header;
        Ok(())
    }

    pub fn set_value(&mut self, value: &[u8]) -> Result<(), Wide>
        ensures wide { IsErr result ↔ (self.old.room < size_of (length value.now) (length self.old.vertex.edges)) }
        ensures ok { OnOk result (self.new ≡ record self.old { vertex = record self.old.vertex { value = value.now } }) }
        ensures err { OnErr result (self.new ≡ self.old) }
    {
        self.write_value(0, value)
    }

    /// Sets the first byte of the value.
    pub fn set_first(&mut self, byte: u8)
        requires { 1 ≤ length self.old.vertex.value }
        ensures { self.new ≡ record self.old { vertex = record self.old.vertex { value = byte ∷ drop 1 self.old.vertex.value } } }
    {
        put_first(self.frame.bytes_mut(), byte);
    }

    /// Puts more bytes behind the value.
    pub fn append_value(&mut self, more: &[u8]) -> Result<(), Wide>
        ensures wide { IsErr result ↔ (self.old.room < vertex_size self.old.vertex + length more.now) }
        ensures ok { OnOk result (self.new ≡ record self.old { vertex = record self.old.vertex { value = self.old.vertex.value ++ more.now } }) }
        ensures err { OnErr result (self.new ≡ self.old) }
    {
        self.write_value(self.header.value, more)
    }

    /// Takes the edges that stand in these bytes in place of its own.
    pub fn set_edges(&mut self, edges: &[u8]) -> Result<(), Wide>
        requires { length edges.now % 12 ≡ 0 }
        ensures wide { IsErr result ↔ (self.old.room < size_of (length self.old.vertex.value) (length edges.now / 12)) }
        ensures ok { OnOk result (self.new ≡ record self.old { vertex = record self.old.vertex { edges = edges_in (length edges.now / 12) edges.now } }) }
        ensures err { OnErr result (self.new ≡ self.old) }
    {
        if edges.len() > self.free() + EDGE * self.header.edges as usize {
            return Err(Wide);
        }
        let header = Header {
            edges: (edges.len() / EDGE) as u32,
            ..self.header
        };
        put_edges(self.frame.bytes_mut(), header, edges);
        self.header = header;
        Ok(())
    }

    /// Adds an edge behind the others.
    pub fn push_edge(&mut self, dst: u64, weight: u32) -> Result<(), Wide>
        ensures wide { IsErr result ↔ (self.old.room < vertex_size self.old.vertex + 12) }
        ensures ok { OnOk result (self.new ≡ record self.old { vertex = record self.old.vertex { edges = self.old.vertex.edges ++ (dst, weight) ∷ [] } }) }
        ensures err { OnErr result (self.new ≡ self.old) }
    {
        if self.free() < EDGE {
            return Err(Wide);
        }
        let at = self.header.body_len();
        let header = Header {
            edges: self.header.edges + 1,
            ..self.header
        };
        add_edge(self.frame.bytes_mut(), header, at, dst, weight);
        self.header = header;
        Ok(())
    }
}
