// prune: without the vertices that have neither out-edges nor in-edges.
ghost use Rattle.std.specs.Prelude.{refl};
ghost use Rattle.px_programs.specs.Prune.{prune_table, prune_laws};

use crate::along::send_along;
use crate::empty::Empty;
use crate::plain::{Plain, PlainProgram};
use px_core::{Failed, Sink, Stop, write_all};
use px_program::{At, Outbox};
use px_record::VertexBuf;
use px_verdict::DELETE;

/// Removes the vertices that have neither out-edges nor in-edges. A vertex with in-edges alone is removed too, and made again
/// by a message, without its value. The aggregate counts the removals of the last superstep.
pub type Prune = PlainProgram<PruneTable>;

/// The table of `Prune`.
#[derive(Clone, Copy, Debug, PartialEq, Eq)]
pub struct PruneTable;

impl Prune {
    pub fn new() -> Prune {
        PlainProgram::of(PruneTable, Empty)
    }
}

impl Plain for PruneTable {
    type Message = Empty;

    ghost table = { λ t. prune_table };

    ghost one_rule = { λ t m. refl };

    ghost laws = { λ t. prune_laws };

    fn compute<O: Outbox>(
        &self,
        at: &At,
        v: &mut VertexBuf,
        _msg: Option<&[u8]>,
        out: &mut O,
    ) -> Result<(), Stop> {
        v.set_halt(true);
        if at.superstep > 0 {
            return Ok(());
        }
        if v.edges() > 0 {
            return send_along(v, &[], out);
        }
        out.contribute(1);
        out.request(v.vid(), &DELETE)
    }

    fn print_value<W: Sink>(&self, _v: &VertexBuf, sink: &mut W) -> Result<(), Failed> {
        write_all(sink, b"-")
    }
}
