// A graph text is parsed, a vertex at a time.
ghost use Rattle.std.specs.Prelude.{IsFalse};

use crate::record::record_of;
use crate::tally::Tally;
use anyhow::Result;
use px_core::Source;
use px_frames::Frame;
use px_graph_text::{Parser, TextStop};
use px_record::VertexBuf;
use std::alloc::Global;

/// The bytes of a frame.
const FRAME: u32 = 262_144;

/// The most bytes that a text may have.
const LIMIT: u64 = 1 << 48;

// The sum of the vid, the targets and the weights. It wraps.
fn sum_of(vertex: &VertexBuf) -> u64 {
    let mut sum = vertex.vid();
    for i in 0..vertex.edges() {
        let (dst, weight) = vertex.edge(i);
        sum = sum.wrapping_add(dst).wrapping_add(weight.into());
    }
    sum
}

// Reads what is left of the text, and sums its vertices.
fn sum_text<R: Source>(
    parser: &mut Parser,
    source: &mut R,
    into: &mut VertexBuf,
) -> Result<Tally, TextStop>
    requires { IsFalse parser.old.spent }
{
    let mut tally = Tally::default();
    'vertices: while parser.next(source, into)? {
        tally.add(1, sum_of(into));
    }
    Ok(tally)
}

/// Reads a text to its end, and sums its vertices.
pub fn run<R: Source>(alloc: Global, source: &mut R) -> Result<Tally> {
    let mut parser = Parser::open(Frame::new(alloc, FRAME)?, LIMIT);
    let mut into = record_of(alloc, FRAME)?;
    let tally = sum_text(&mut parser, source, &mut into)?;
    Ok(tally)
}
