// reverse: all edges turned round.
ghost use Rattle.std.specs.Prelude.{◌≡◌, ◌<◌, IsTrue, OnOk, OnErr, refl};
ghost use Rattle.px_meaning.specs.Graph.{vertex_size};
ghost use Rattle.px_record.specs.Held.{SameRecord};
ghost use Rattle.px_programs.specs.Entries.{is_entries};
ghost use Rattle.px_programs.specs.Reverse.{reverse_table, reverse_laws, edges_of};

use crate::along::send_back;
use crate::entries::{ENTRY, Entries};
use crate::plain::{Plain, PlainProgram};
use px_core::{Failed, Sink, Stop, write_all};
use px_frames::Wide;
use px_program::{At, Outbox};
use px_record::VertexBuf;

/// Turns all edges round, each with its weight, so that those of a vertex ascend by target and then by weight. The aggregate
/// counts the edges that were turned in the last superstep.
pub type Reverse = PlainProgram<ReverseTable>;

/// The table of `Reverse`.
#[derive(Clone, Copy, Debug, PartialEq, Eq)]
pub struct ReverseTable;

impl Reverse {
    pub fn new() -> Reverse {
        PlainProgram::of(ReverseTable, Entries)
    }
}

// Puts the edges that these entries are in the place of the vertex's own.
fn take_edges(v: &mut VertexBuf, entries: &[u8]) -> Result<(), Wide>
    ensures ok { IsTrue (is_entries entries.now) → OnOk result (v.new ≡ record v.old { vertex = record v.old.vertex { edges = edges_of entries.now } }) }
    ensures wide { IsTrue (is_entries entries.now) → OnErr result (v.old.room < vertex_size (record v.old.vertex { edges = edges_of entries.now })) }
    ensures record_stays { SameRecord v.old v.new }
{
    if entries.len() % ENTRY != 0 {
        return Ok(());
    }
    v.set_edges(entries)
}

impl Plain for ReverseTable {
    type Message = Entries;

    ghost table = { λ t. reverse_table };

    ghost one_rule = { λ t m. refl };

    ghost laws = { λ t. reverse_laws };

    fn compute<O: Outbox>(
        &self,
        at: &At,
        v: &mut VertexBuf,
        msg: Option<&[u8]>,
        out: &mut O,
    ) -> Result<(), Stop> {
        v.set_halt(true);
        if at.superstep == 0 {
            send_back(v, out)?;
            v.clear_edges();
            return Ok(());
        }
        let Some(entries) = msg else {
            return Ok(());
        };
        if take_edges(v, entries).is_err() {
            return Err(Stop::Beyond);
        }
        out.contribute(u64::from(v.edges()));
        Ok(())
    }

    fn print_value<W: Sink>(&self, _v: &VertexBuf, sink: &mut W) -> Result<(), Failed> {
        write_all(sink, b"-")
    }
}
