// sssp: the least sum of weights on a path from one vertex.
ghost use Rattle.std.specs.Prelude.{◌≡◌, IsTrue, option_copied, refl};
ghost use Rattle.px_meaning.specs.Graph.{Vertex, fresh};
ghost use Rattle.px_meaning.specs.Merge.{IsValidMessage};
ghost use Rattle.px_program.specs.Calls.{answer};
ghost use Rattle.px_program.specs.Numbers.{lesser_rule};
ghost use Rattle.px_programs.specs.Sssp.{sssp, sssp_table, sssp_laws, distance_of, hears};
ghost use Rattle.px_programs.specs.Steps.{taken};

use crate::along::send_distances;
use crate::lesser::Lesser;
use crate::numbers::{bytes_of, heard, number_of};
use crate::plain::{Plain, PlainProgram};
use px_core::{Failed, Sink, Stop, write_all};
use px_frames::Wide;
use px_program::{At, Outbox, print_decimal};
use px_record::VertexBuf;

// The value of a vertex to which no path is known.
const UNREACHED: u64 = u64::MAX;

/// Finds the least sum of weights on a path from one vertex to each, printed as `inf` where there is
/// no path. The aggregate counts the vertices whose distance fell in the last superstep.
pub type Sssp = PlainProgram<SsspTable>;

/// The table of `Sssp`.
#[derive(Clone, Copy, Debug, PartialEq, Eq)]
pub struct SsspTable {
    pub from: u64,
}

impl Sssp {
    pub fn new(from: u64) -> Sssp
        ensures { result.table.from ≡ from }
    {
        PlainProgram::of(SsspTable { from }, Lesser)
    }
}

impl SsspTable {
    // What a vertex does.
    fn step(&self, at: &At, v: &VertexBuf, msg: Option<&[u8]>) -> Step
        requires { IsTrue at.now.fresh → v.now.vertex ≡ fresh }
        ensures step { IsValidMessage lesser_rule (option_copied msg.entry)
            → answer (sssp self.now.from) at.now v.now (option_copied msg.entry) ≡ taken result v.now.vertex }
    {
        let value = v.value();
        if at.superstep == 0 {
            return if v.vid() == self.from {
                Step::Find(0)
            } else {
                Step::Wait
            };
        }
        match heard(msg) {
            Some(d) => compare(d, value),
            None => Step::Rest,
        }
    }
}

// What a vertex does in a superstep.
#[derive(Clone, Copy)]
enum Step {
    // It takes this distance and sends it on.
    Find(u64),
    // It is unreached.
    Wait,
    // It keeps its value.
    Rest,
}

// What a value is in a comparison: an empty one is unreached.
fn distance_of(value: &[u8]) -> Option<u64>
    ensures { result ≡ distance_of value.now }
{
    if value.is_empty() {
        Some(UNREACHED)
    } else {
        number_of(value)
    }
}

// What a vertex with this value does where the distance `d` comes to it.
fn compare(d: u64, value: &[u8]) -> Step
    ensures { (x : Vertex) → x.value ≡ value.now → hears (Some d) x ≡ taken result x }
{
    match distance_of(value) {
        Some(known) if d < known => Step::Find(d),
        Some(_) if value.is_empty() => Step::Wait,
        _ => Step::Rest,
    }
}

impl Plain for SsspTable {
    type Message = Lesser;

    ghost table = { λ t. sssp_table t.from };

    ghost one_rule = { λ t m. refl };

    ghost laws = { λ t. sssp_laws t.from };

    fn compute<O: Outbox>(
        &self,
        at: &At,
        v: &mut VertexBuf,
        msg: Option<&[u8]>,
        out: &mut O,
    ) -> Result<(), Stop> {
        let step = self.step(at, v, msg);
        v.set_halt(true);
        match step {
            Step::Find(d) => {
                if v.set_value(&bytes_of(d)).is_err() {
                    return Err(Stop::Beyond);
                }
                out.contribute(1);
                send_distances(v, d, out)
            }
            Step::Wait => match v.set_value(&bytes_of(UNREACHED)) {
                Ok(()) => Ok(()),
                Err(Wide) => Err(Stop::Beyond),
            },
            Step::Rest => Ok(()),
        }
    }

    fn print_value<W: Sink>(&self, v: &VertexBuf, sink: &mut W) -> Result<(), Failed> {
        match number_of(v.value()) {
            Some(UNREACHED) => write_all(sink, b"inf"),
            Some(d) => print_decimal(d, sink),
            None => write_all(sink, b"-"),
        }
    }
}
