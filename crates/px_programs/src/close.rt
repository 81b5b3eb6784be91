// close: a vertex for every edge's target.
ghost use Rattle.std.specs.Prelude.{refl};
ghost use Rattle.px_programs.specs.Close.{close_table, close_laws};

use crate::along::request_along;
use crate::empty::Empty;
use crate::plain::{Plain, PlainProgram};
use px_core::{Failed, Sink, Stop, write_all};
use px_program::{At, Outbox};
use px_record::VertexBuf;
use px_verdict::INSERT_FRESH;

/// Makes a vertex of every edge's target that has none. The aggregate counts the vertices made, and those that had not halted.
pub type Close = PlainProgram<CloseTable>;

/// The table of `Close`.
#[derive(Clone, Copy, Debug, PartialEq, Eq)]
pub struct CloseTable;

impl Close {
    pub fn new() -> Close {
        PlainProgram::of(CloseTable, Empty)
    }
}

impl Plain for CloseTable {
    type Message = Empty;

    ghost table = { λ t. close_table };

    ghost one_rule = { λ t m. refl };

    ghost laws = { λ t. close_laws };

    fn compute<O: Outbox>(
        &self,
        at: &At,
        v: &mut VertexBuf,
        _msg: Option<&[u8]>,
        out: &mut O,
    ) -> Result<(), Stop> {
        v.set_halt(true);
        if at.superstep == 0 {
            return request_along(v, &INSERT_FRESH, out);
        }
        out.contribute(1);
        Ok(())
    }

    fn print_value<W: Sink>(&self, _v: &VertexBuf, sink: &mut W) -> Result<(), Failed> {
        write_all(sink, b"-")
    }
}
