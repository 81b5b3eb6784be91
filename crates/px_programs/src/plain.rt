// What all programs of this crate share.
ghost use Rattle.std.specs.Prelude.{◌≡◌, ◌<◌, ℕ, List, [], ◌++◌, take, OnOk, OnErr, IfErr, IsTrue, option_copied};
ghost use Rattle.px_core.specs.Counts.{Rose};
ghost use Rattle.px_meaning.specs.Graph.{fresh, vertex_size};
ghost use Rattle.px_meaning.specs.Merge.{IsValidMessage};
ghost use Rattle.px_meaning.specs.Program.{ProgramLaws};
ghost use Rattle.px_program.specs.Calls.{answer};
ghost use Rattle.px_program.specs.Posted.{Posted, with_out, gathered, StaysOpen, StopsComputing};
ghost use Rattle.px_record.specs.Held.{SameRecord};
ghost use Rattle.px_verdict.specs.Verdict.{verdict_rule};
ghost use Rattle.px_programs.specs.Table.{Table, plain};

use px_core::{Failed, Sink, Stop};
use px_frames::Wide;
use px_program::{At, Merge, Outbox, Program, Settled};
use px_record::VertexBuf;
use px_verdict::{PlainVerdict, settle};

/// What a program has of its own: what a vertex computes, and how its value is printed. The clauses are those of `Program`.
pub trait Plain: Drop {
    type Message: Merge;

    /// What it computes.
    ghost table: { Self → Table };

    fn compute<O: Outbox>(
        &self,
        at: &At,
        v: &mut VertexBuf,
        msg: Option<&[u8]>,
        out: &mut O,
    ) -> Result<(), Stop>
        requires open { IsTrue (O.is_open out.old) }
        requires message { (O.made_for out.old).message ≡ (table self.now).message }
        requires verdict { (O.made_for out.old).verdict ≡ verdict_rule }
        requires fresh { IsTrue at.now.fresh → v.old.vertex ≡ fresh }
        requires pieces { O.pieces out.old ≡ gathered (O.made_for out.old).room [] }

        ensures vertex { IsValidMessage (table self.now).message (option_copied msg.entry)
            → OnOk result (v.new ≡ record v.old { vertex = (answer (plain (table self.now)) at.now v.old (option_copied msg.entry)).vertex }) }
        ensures posted { IsValidMessage (table self.now).message (option_copied msg.entry)
            → OnOk result ((p : Posted) → O.took out.old p → O.took out.new (with_out (answer (plain (table self.now)) at.now v.old (option_copied msg.entry)) p)) }
        ensures open { OnOk result (StaysOpen (O.is_open out.new) (O.faults out.old) (O.faults out.new)) }
        ensures pieces { OnOk result (O.pieces out.new ≡ gathered (O.made_for out.old).room []) }

        ensures err { IfErr result (StopsComputing (IsValidMessage (table self.now).message (option_copied msg.entry))
            (v.old.room < vertex_size (answer (plain (table self.now)) at.now v.old (option_copied msg.entry)).vertex)
            (O.took out.old) (O.took out.new) (answer (plain (table self.now)) at.now v.old (option_copied msg.entry)) (O.made_for out.old) (O.is_open out.new) (O.faults out.old) (O.faults out.new)) }
        ensures record_stays { SameRecord v.old v.new }
        ensures stays { O.made_for out.new ≡ O.made_for out.old };

    fn print_value<W: Sink>(&self, v: &VertexBuf, sink: &mut W) -> Result<(), Failed>
        ensures ok { OnOk result ((h : List ℕ) → W.holds sink.old h → W.holds sink.new (h ++ (table self.now).value_text v.now.vertex)) }
        ensures err { OnErr result ((h : List ℕ) → W.holds sink.old h → (n : ℕ) × W.holds sink.new (h ++ take n ((table self.now).value_text v.now.vertex))) }
        ensures cause { OnErr result (Rose (W.faults sink.old) (W.faults sink.new)) }
        ensures no_fault { OnOk result (W.faults sink.new ≡ W.faults sink.old) };

    /// Whichever combiner of the type it is, its rule is the table's.
    ghost one_rule: { (t : Self) (m : Self.Message) → Self.Message.rule m ≡ (table t).message };

    ghost laws: { (t : Self) → ProgramLaws (plain (table t)) };
}

/// The program of a table, with the default verdict, and with an aggregate that sums, at most `u64::MAX`.
#[derive(Drop)]
pub struct PlainProgram<T: Plain> {
    pub table: T,
    message: T::Message,
    verdict: PlainVerdict,
}

impl<T: Plain> PlainProgram<T> {
    pub(crate) fn of(table: T, message: T::Message) -> PlainProgram<T>
        ensures { result.table ≡ table }
    {
        PlainProgram {
            table,
            message,
            verdict: PlainVerdict,
        }
    }
}

impl<T: Plain> Program for PlainProgram<T> {
    type Message = T::Message;

    type Verdict = PlainVerdict;

    ghost meaning = { λ p. plain (T.table p.table) };

    ghost laws = { λ p. T.laws p.table };

    fn message(&self) -> &T::Message {
        &self.message
    }

    fn verdict(&self) -> &PlainVerdict {
        &self.verdict
    }

    fn compute<O: Outbox>(
        &self,
        at: &At,
        v: &mut VertexBuf,
        msg: Option<&[u8]>,
        out: &mut O,
    ) -> Result<(), Stop> {
        let computed = self.table.compute(at, v, msg, out);
        // Whatever was computed, `room` tells that the vertex is within it.
        let _room = v.room();
        computed
    }

    fn settle(&self, existing: bool, v: &mut VertexBuf, verdict: &[u8]) -> Result<Settled, Wide> {
        settle(existing, v, verdict)
    }

    fn unit(&self) -> u64 {
        0
    }

    fn join(&self, a: u64, b: u64) -> u64 {
        a.saturating_add(b)
    }

    fn print_value<W: Sink>(&self, v: &VertexBuf, sink: &mut W) -> Result<(), Failed> {
        self.table.print_value(v, sink)
    }
}
