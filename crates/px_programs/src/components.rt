// components: the least vid that leads to a vertex.
ghost use Rattle.std.specs.Prelude.{◌≡◌, option_copied, option_map, refl};
ghost use Rattle.px_meaning.specs.Merge.{IsValidMessage};
ghost use Rattle.px_program.specs.Numbers.{number, lesser_rule};
ghost use Rattle.px_programs.specs.Components.{components_table, components_laws, heard_label, new_label};

use crate::along::post_along;
use crate::lesser::Lesser;
use crate::numbers::{bytes_of, heard, number_of, print_number};
use crate::plain::{Plain, PlainProgram};
use px_core::{Failed, Sink, Stop, Vid};
use px_program::{At, Outbox};
use px_record::VertexBuf;

/// Labels each vertex with the least vid that leads to it. Where each edge has one back, that names
/// its connected component. The aggregate counts the vertices whose label fell in the last superstep.
pub type Components = PlainProgram<ComponentsTable>;

/// The table of `Components`.
#[derive(Clone, Copy, Debug, PartialEq, Eq)]
pub struct ComponentsTable;

impl Components {
    pub fn new() -> Components {
        PlainProgram::of(ComponentsTable, Lesser)
    }
}

// The label that a vertex takes of one that it hears.
fn heard_label(vid: Vid, value: &[u8], label: u64) -> Option<u64>
    ensures { result ≡ heard_label vid value.now (Some label) }
{
    if value.is_empty() {
        return Some(vid.min(label));
    }
    match number_of(value) {
        Some(known) if label < known => Some(label),
        _ => None,
    }
}

// The label that a vertex takes, if it takes one.
fn new_label(superstep: u64, vid: Vid, value: &[u8], msg: Option<&[u8]>) -> Option<u64>
    ensures { IsValidMessage lesser_rule (option_copied msg.entry)
        → result ≡ new_label superstep vid value.now (option_map number (option_copied msg.entry)) }
{
    if superstep == 0 {
        return Some(vid);
    }
    match heard(msg) {
        Some(label) => heard_label(vid, value, label),
        None => None,
    }
}

impl Plain for ComponentsTable {
    type Message = Lesser;

    ghost table = { λ t. components_table };

    ghost one_rule = { λ t m. refl };

    ghost laws = { λ t. components_laws };

    fn compute<O: Outbox>(
        &self,
        at: &At,
        v: &mut VertexBuf,
        msg: Option<&[u8]>,
        out: &mut O,
    ) -> Result<(), Stop> {
        let label = new_label(at.superstep, v.vid(), v.value(), msg);
        v.set_halt(true);
        let Some(label) = label else {
            return Ok(());
        };
        let payload = bytes_of(label);
        if v.set_value(&payload).is_err() {
            return Err(Stop::Beyond);
        }
        post_along(v, 1, &payload, out)
    }

    fn print_value<W: Sink>(&self, v: &VertexBuf, sink: &mut W) -> Result<(), Failed> {
        print_number(number_of(v.value()), sink)
    }
}
