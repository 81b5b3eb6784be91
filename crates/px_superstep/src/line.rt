// A line of statistics, and its text.
ghost use Rattle.std.specs.Prelude.{◌≡◌, ◌≤◌, ◌+◌, ◌++◌, length, decimal, flat_map, ℕ, List, take, OnOk, OnErr};
ghost use Rattle.px_core.specs.Counts.{Rose};
ghost use Rattle.px_superstep.specs.Lines.{line_text, line_between};

use arrayvec::ArrayString;
use itoa::Buffer;
use px_core::{Disk, Failed, Sink, write_all};
use px_global_state::Gs;

// Room for a line whose numbers are as long as can be.
const MOST_OF_STATS: usize = 256;

/// What a superstep led to, and how many reads and writes of each disk it took.
#[derive(Clone, Copy, Debug, PartialEq, Eq)]
pub struct Line {
    /// The numbers of the state after it.
    pub gs: Gs,
    pub graph_reads: u64,
    pub graph_writes: u64,
    pub scratch_reads: u64,
    pub scratch_writes: u64,
}

/// The counts of both disks at some time.
#[derive(Clone, Copy)]
pub struct Asked {
    graph_reads: u64,
    graph_writes: u64,
    scratch_reads: u64,
    scratch_writes: u64,
}

impl Asked {
    /// The counts now.
    pub fn now<GD: Disk, SD: Disk>(graph: &GD, scratch: &SD) -> Asked
        ensures { result ≡ record { graph_reads = (GD.shown graph.now).reads; graph_writes = (GD.shown graph.now).writes; scratch_reads = (SD.shown scratch.now).reads; scratch_writes = (SD.shown scratch.now).writes } }
    {
        Asked {
            graph_reads: graph.reads(),
            graph_writes: graph.writes(),
            scratch_reads: scratch.reads(),
            scratch_writes: scratch.writes(),
        }
    }

    /// The line of a superstep that led to these numbers, and before which the counts were others.
    pub fn line_since(self, before: Asked, gs: Gs) -> Line
        requires graph_reads { before.graph_reads ≤ self.graph_reads }
        requires graph_writes { before.graph_writes ≤ self.graph_writes }
        requires scratch_reads { before.scratch_reads ≤ self.scratch_reads }
        requires scratch_writes { before.scratch_writes ≤ self.scratch_writes }
        ensures { result ≡ line_between gs before self }
    {
        Line {
            gs,
            graph_reads: self.graph_reads - before.graph_reads,
            graph_writes: self.graph_writes - before.graph_writes,
            scratch_reads: self.scratch_reads - before.scratch_reads,
            scratch_writes: self.scratch_writes - before.scratch_writes,
        }
    }
}

// Puts a word and a number in decimal behind a line.
fn push_part(line: &mut ArrayString<MOST_OF_STATS>, word: &str, n: u64)
    requires { length line.old.bytes + length word.now ≤ 220 }
    ensures bytes { line.new.bytes ≡ line.old.bytes ++ word.now ++ decimal n }
    ensures short { length line.new.bytes ≤ length line.old.bytes + length word.now + 20 }
{
    let mut buffer = Buffer::new();
    let _ = line.try_push_str(word);
    let _ = line.try_push_str(buffer.format(n));
}

impl Line {
    // Its text.
    fn text(&self) -> ArrayString<MOST_OF_STATS>
        ensures { result.bytes ≡ line_text self.now }
    {
        let mut line = ArrayString::new();
        push_part(&mut line, "superstep ", self.gs.superstep);
        push_part(&mut line, " count ", self.gs.count);
        push_part(&mut line, " live ", self.gs.live);
        push_part(&mut line, " messages ", self.gs.in_flight);
        push_part(&mut line, " graph ", self.graph_reads);
        push_part(&mut line, " ", self.graph_writes);
        push_part(&mut line, " scratch ", self.scratch_reads);
        push_part(&mut line, " ", self.scratch_writes);
        let _ = line.try_push_str("\n");
        line
    }
}

/// Writes lines in their order, a call of the sink for each. After a failure a prefix of their text was written.
pub fn write_lines<E: Sink>(lines: &[Line], errs: &mut E) -> Result<(), Failed>
    ensures ok { OnOk result ((h : List ℕ) → E.holds errs.old h → E.holds errs.new (h ++ flat_map line_text lines.now)) }
    ensures err { OnErr result ((h : List ℕ) → E.holds errs.old h → (n : ℕ) × E.holds errs.new (h ++ take n (flat_map line_text lines.now))) }
    ensures cause { OnErr result (Rose (E.faults errs.old) (E.faults errs.new)) }
    ensures no_fault { OnOk result (E.faults errs.new ≡ E.faults errs.old) }
{
    for line in lines {
        write_all(errs, line.text().as_str().as_bytes())?;
    }
    Ok(())
}
