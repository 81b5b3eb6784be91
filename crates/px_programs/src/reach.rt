// reach: which vertices are reached from one.
ghost use Rattle.std.specs.Prelude.{◌≡◌, ◌==◌, ◌&&◌, not, if◌then◌else◌, is_some, option_copied, refl};
ghost use Rattle.px_programs.specs.Reach.{reach_table, reach_laws, is_reached};

use crate::along::post_along;
use crate::empty::Empty;
use crate::plain::{Plain, PlainProgram};
use px_core::{Failed, Sink, Stop, write_all};
use px_program::{At, Outbox};
use px_record::VertexBuf;

/// Marks the vertices that are reached from one by 1, the others by 0. The aggregate counts those of the last superstep.
pub type Reach = PlainProgram<ReachTable>;

/// The table of `Reach`.
#[derive(Clone, Copy, Debug, PartialEq, Eq)]
pub struct ReachTable {
    pub from: u64,
}

impl Reach {
    pub fn new(from: u64) -> Reach
        ensures { result.table.from ≡ from }
    {
        PlainProgram::of(ReachTable { from }, Empty)
    }
}

impl ReachTable {
    // Whether a vertex is reached in this superstep, and was not before.
    fn reaches(&self, at: &At, v: &VertexBuf, msg: Option<&[u8]>) -> bool
        ensures reaches { result ≡ (if at.now.superstep == 0 then v.now.vid == self.now.from else is_some (option_copied msg.entry) && not (is_reached v.now.vertex.value)) }
    {
        let was_reached = has_one(v.value());
        if at.superstep == 0 {
            v.vid() == self.from
        } else {
            msg.is_some() && !was_reached
        }
    }
}

// Whether a value says that its vertex is reached.
fn has_one(value: &[u8]) -> bool
    ensures { result ≡ is_reached value.now }
{
    match value {
        [b] => *b == 1,
        _ => false,
    }
}

impl Plain for ReachTable {
    type Message = Empty;

    ghost table = { λ t. reach_table t.from };

    ghost one_rule = { λ t m. refl };

    ghost laws = { λ t. reach_laws t.from };

    fn compute<O: Outbox>(
        &self,
        at: &At,
        v: &mut VertexBuf,
        msg: Option<&[u8]>,
        out: &mut O,
    ) -> Result<(), Stop> {
        let reached = self.reaches(at, v, msg);
        v.set_halt(true);
        if reached {
            if v.set_value(&[1]).is_err() {
                return Err(Stop::Beyond);
            }
            return post_along(v, 1, &[], out);
        }
        if at.superstep == 0 && v.set_value(&[0]).is_err() {
            return Err(Stop::Beyond);
        }
        Ok(())
    }

    fn print_value<W: Sink>(&self, v: &VertexBuf, sink: &mut W) -> Result<(), Failed> {
        let text: &[u8] = match v.value() {
            [0] => b"0",
            [1] => b"1",
            _ => b"-",
        };
        write_all(sink, text)
    }
}
