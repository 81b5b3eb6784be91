// How a run ends: its status, and its line on the error sink.
ghost use Rattle.std.specs.Prelude.{◌≡◌, ◌+◌, ◌≤◌, length};
ghost use Rattle.px_tool.specs.Endings.{status_of, status_of_end, line_of, line_of_end, kind_text as text_of_kind, decimal_line, short_line as text_of_short};

use arrayvec::ArrayString;
use px_graph_text::Kind;
use px_plan_matrix::End;
use px_program::{MOST_OF_LINE, line_with, push_decimal};

/// How a run ends.
#[derive(Clone, Copy, Debug, PartialEq, Eq)]
pub enum Ending {
    /// The words are refused.
    Usage,
    /// The words name a job, and its run ended so.
    Ran(End),
}

// The end of the line that names a kind of refusal.
fn kind_text(kind: Kind) -> &'static str
    ensures text { result.now ≡ text_of_kind kind }
    ensures short { length result.now ≤ 16 }
{
    match kind {
        Kind::Form => ": form\n",
        Kind::Number => ": number\n",
        Kind::Wide => ": wide\n",
        Kind::Long => ": long\n",
    }
}

// A line that has a number in it.
fn with_number(before: &str, n: u64, after: &str) -> ArrayString<MOST_OF_LINE>
    requires { length before.now + length after.now ≤ 128 }
    ensures { result.bytes ≡ decimal_line before.now n after.now }
{
    let mut line = line_with(before);
    push_decimal(&mut line, n);
    let _ = line.try_push_str(after);
    line
}

// The line of a plan that needs more frames than there are.
fn short_line(need: u32, have: u32) -> ArrayString<MOST_OF_LINE>
    ensures { result.bytes ≡ text_of_short need have }
{
    let mut line = line_with("px: needs ");
    push_decimal(&mut line, u64::from(need));
    let _ = line.try_push_str(" frames, has ");
    push_decimal(&mut line, u64::from(have));
    let _ = line.try_push_str("\n");
    line
}

// The status of a run that ended so.
fn status_of_end(end: End) -> u8
    ensures { result ≡ status_of_end end }
{
    match end {
        End::Done => 0,
        End::Bad { .. } => 2,
        End::Twice { .. } => 3,
        End::Beyond { .. } => 4,
        End::Limit { .. } => 5,
        End::Graph => 6,
        End::Scratch => 7,
        End::Source => 8,
        End::Sink => 9,
        End::Memory => 10,
        End::Short { .. } => 11,
    }
}

// The line of a run that ended so.
fn line_of_end(end: End) -> ArrayString<MOST_OF_LINE>
    ensures { result.bytes ≡ line_of_end end }
{
    match end {
        End::Done => line_with(""),
        End::Bad { line, kind } => with_number("px: line ", line, kind_text(kind)),
        End::Twice { vid } => with_number("px: vertex ", vid, " twice\n"),
        End::Beyond { superstep } => {
            with_number("px: beyond the limits in superstep ", superstep, "\n")
        }
        End::Limit { n } => with_number("px: not halted after ", u64::from(n), " supersteps\n"),
        End::Graph => line_with("px: graph disk failed\n"),
        End::Scratch => line_with("px: scratch disk failed\n"),
        End::Source => line_with("px: input failed\n"),
        End::Sink => line_with("px: output failed\n"),
        End::Memory => line_with("px: no memory\n"),
        End::Short { need, have } => short_line(need, have),
    }
}

impl Ending {
    /// The status with which the program ends.
    pub fn status(self) -> u8
        ensures { result ≡ status_of self }
    {
        match self {
            Ending::Usage => 1,
            Ending::Ran(end) => status_of_end(end),
        }
    }

    /// The line on the error sink, which is empty where the run halted.
    pub fn line(self) -> ArrayString<MOST_OF_LINE>
        ensures { result.bytes ≡ line_of self }
    {
        match self {
            Ending::Usage => line_with(
                "px: usage: px --program reach|sssp|components|pagerank|chains|reverse|close|prune [--NAME VALUE ..]\n",
            ),
            Ending::Ran(end) => line_of_end(end),
        }
    }
}
