// What is printed of a run, over any sink: numbers in decimal, edges, and the last line.
ghost use Rattle.std.specs.Prelude.{◌≡◌, ◌≤◌, ◌+◌, ◌++◌, ℕ, List, length, take, decimal, flat_map, OnOk, OnErr};
ghost use Rattle.px_core.specs.Counts.{Rose};
ghost use Rattle.px_meaning.specs.OutputText.{edge_text, summary_line, vertex_line};

use crate::Program;
use arrayvec::ArrayString;
use itoa::Buffer;
use px_core::{Failed, Sink, write_all};
use px_record::VertexBuf;

/// The most bytes of a line of a few words and numbers.
pub const MOST_OF_LINE: usize = 192;

/// A line of this text.
pub fn line_with(text: &str) -> ArrayString<MOST_OF_LINE>
    requires { length text.now ≤ 128 }
    ensures { result.bytes ≡ text.now }
{
    let mut line = ArrayString::new();
    let _ = line.try_push_str(text);
    line
}

/// Puts a number in decimal behind a line.
pub fn push_decimal(line: &mut ArrayString<MOST_OF_LINE>, n: u64)
    requires { length line.old.bytes ≤ 160 }
    ensures bytes { line.new.bytes ≡ line.old.bytes ++ decimal n }
    ensures short { length line.new.bytes ≤ length line.old.bytes + 20 }
{
    let mut buffer = Buffer::new();
    let _ = line.try_push_str(buffer.format(n));
}

// A space, the target, `:` and the weight.
fn edge_line(dst: u64, weight: u32) -> ArrayString<MOST_OF_LINE>
    ensures { result.bytes ≡ edge_text (dst, weight) }
{
    let mut line = line_with(" ");
    push_decimal(&mut line, dst);
    let _ = line.try_push_str(":");
    push_decimal(&mut line, u64::from(weight));
    line
}

// The last line of a text.
fn last_line(superstep: u64, aggregate: u64, count: u64) -> ArrayString<MOST_OF_LINE>
    ensures { result.bytes ≡ summary_line superstep aggregate count }
{
    let mut line = line_with("#superstep ");
    push_decimal(&mut line, superstep);
    let _ = line.try_push_str(" aggregate ");
    push_decimal(&mut line, aggregate);
    let _ = line.try_push_str(" vertices ");
    push_decimal(&mut line, count);
    let _ = line.try_push_str("\n");
    line
}

/// Writes a number in decimal. After a failure a prefix of it was written.
pub fn print_decimal<W: Sink>(n: u64, sink: &mut W) -> Result<(), Failed>
    ensures ok { OnOk result ((h : List ℕ) → W.holds sink.old h → W.holds sink.new (h ++ decimal n)) }
    ensures err { OnErr result ((h : List ℕ) → W.holds sink.old h → (k : ℕ) × W.holds sink.new (h ++ take k (decimal n))) }
    ensures cause { OnErr result (Rose (W.faults sink.old) (W.faults sink.new)) }
    ensures no_fault { OnOk result (W.faults sink.new ≡ W.faults sink.old) }
{
    let mut buffer = Buffer::new();
    write_all(sink, buffer.format(n).as_bytes())
}

/// Writes an edge of a vertex: a space, the target, `:` and the weight. After a failure a prefix of it was written.
pub fn print_edge<W: Sink>(dst: u64, weight: u32, sink: &mut W) -> Result<(), Failed>
    ensures ok { OnOk result ((h : List ℕ) → W.holds sink.old h → W.holds sink.new (h ++ edge_text (dst, weight))) }
    ensures err { OnErr result ((h : List ℕ) → W.holds sink.old h → (k : ℕ) × W.holds sink.new (h ++ take k (edge_text (dst, weight)))) }
    ensures cause { OnErr result (Rose (W.faults sink.old) (W.faults sink.new)) }
    ensures no_fault { OnOk result (W.faults sink.new ≡ W.faults sink.old) }
{
    let line = edge_line(dst, weight);
    write_all(sink, line.as_bytes())
}

/// Writes the edges of a vertex, in their order. After a failure a prefix of them was written.
pub fn print_edges<W: Sink>(v: &VertexBuf, sink: &mut W) -> Result<(), Failed>
    ensures ok { OnOk result ((h : List ℕ) → W.holds sink.old h → W.holds sink.new (h ++ flat_map edge_text v.now.vertex.edges)) }
    ensures err { OnErr result ((h : List ℕ) → W.holds sink.old h → (k : ℕ) × W.holds sink.new (h ++ take k (flat_map edge_text v.now.vertex.edges))) }
    ensures cause { OnErr result (Rose (W.faults sink.old) (W.faults sink.new)) }
    ensures no_fault { OnOk result (W.faults sink.new ≡ W.faults sink.old) }
{
    for i in 0..v.edges() {
        let (dst, weight) = v.edge(i);
        print_edge(dst, weight, sink)?;
    }
    Ok(())
}

/// Writes the line of a vertex: its vid, a space, its value, its edges. After a failure a prefix of it was written.
pub fn print_vertex<P: Program, W: Sink>(
    program: &P,
    v: &VertexBuf,
    sink: &mut W,
) -> Result<(), Failed>
    ensures ok { OnOk result ((h : List ℕ) → W.holds sink.old h → W.holds sink.new (h ++ vertex_line (P.meaning program.now) (v.now.vid, v.now.vertex))) }
    ensures err { OnErr result ((h : List ℕ) → W.holds sink.old h → (k : ℕ) × W.holds sink.new (h ++ take k (vertex_line (P.meaning program.now) (v.now.vid, v.now.vertex)))) }
    ensures cause { OnErr result (Rose (W.faults sink.old) (W.faults sink.new)) }
    ensures no_fault { OnOk result (W.faults sink.new ≡ W.faults sink.old) }
{
    print_decimal(v.vid(), sink)?;
    write_all(sink, b" ")?;
    program.print_value(v, sink)?;
    print_edges(v, sink)?;
    write_all(sink, b"\n")?;
    Ok(())
}

/// Writes the last line of a text. After a failure a prefix of it was written.
pub fn print_summary<W: Sink>(
    superstep: u64,
    aggregate: u64,
    count: u64,
    sink: &mut W,
) -> Result<(), Failed>
    ensures ok { OnOk result ((h : List ℕ) → W.holds sink.old h → W.holds sink.new (h ++ summary_line superstep aggregate count)) }
    ensures err { OnErr result ((h : List ℕ) → W.holds sink.old h → (k : ℕ) × W.holds sink.new (h ++ take k (summary_line superstep aggregate count))) }
    ensures cause { OnErr result (Rose (W.faults sink.old) (W.faults sink.new)) }
    ensures no_fault { OnOk result (W.faults sink.new ≡ W.faults sink.old) }
{
    let line = last_line(superstep, aggregate, count);
    write_all(sink, line.as_bytes())
}
