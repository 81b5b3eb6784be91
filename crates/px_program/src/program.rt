// Programs: what a vertex computes in a superstep.
ghost use Rattle.std.specs.Prelude.{◌≡◌, ◌↔◌, ℕ, List, [], ◌++◌, take, false, ◌<◌, ◌≤◌, OnOk, OnErr, IfOk, IfErr, IsTrue, IsErr, option_copied, Some, None, if◌then◌else◌};
ghost use Rattle.px_core.specs.Counts.{Rose};
ghost use Rattle.px_meaning.specs.Graph.{fresh, vertex_size};
ghost use Rattle.px_meaning.specs.Merge.{IsValidMessage};
ghost use Rattle.px_meaning.specs.Program.{ProgramMeaning, ProgramLaws};
ghost use Rattle.px_record.specs.Held.{SameRecord};
ghost use Rattle.px_program.specs.Posted.{Posted, with_out, gathered, StaysOpen, StopsComputing};
ghost use Rattle.px_program.specs.Calls.{answer, Applies, is_too_wide};

use crate::{Merge, Outbox};
use px_core::{Failed, Sink, Stop};
use px_frames::Wide;
use px_record::VertexBuf;

/// What a vertex is told of the superstep. `count` is the number of vertices at its start, fresh ones not among them.
#[derive(Clone, Copy, Debug, PartialEq, Eq)]
pub struct At {
    pub superstep: u64,
    pub aggregate: u64,
    pub count: u64,
    /// There is no vertex under this vid yet: a message makes it.
    pub fresh: bool,
}

/// What becomes of a vid that requests named.
#[derive(Clone, Copy, Debug, PartialEq, Eq)]
pub enum Settled {
    Keep,
    Set,
    Remove,
}

/// A vertex program. Its meaning is a record of total functions; the calls compute them.
pub trait Program: Drop {
    type Message: Merge;

    type Verdict: Merge;

    /// What it computes.
    ghost meaning: { Self → ProgramMeaning };

    /// The combiner of its messages.
    fn message(&self) -> &Self::Message
        ensures { Self.Message.rule result.now ≡ (meaning self.now).message };

    /// The combiner of its verdicts.
    fn verdict(&self) -> &Self::Verdict
        ensures { Self.Verdict.rule result.now ≡ (meaning self.now).verdict };

    /// Computes one active vertex. A stop comes from `out` alone, or where the new vertex would be above room.
    fn compute<O: Outbox>(
        &self,
        at: &At,
        v: &mut VertexBuf,
        msg: Option<&[u8]>,
        out: &mut O,
    ) -> Result<(), Stop>
        requires open { IsTrue (O.is_open out.old) }
        requires message { (O.made_for out.old).message ≡ (meaning self.now).message }
        requires verdict { (O.made_for out.old).verdict ≡ (meaning self.now).verdict }
        requires fresh { IsTrue at.now.fresh → v.old.vertex ≡ fresh }
        requires pieces { O.pieces out.old ≡ gathered (O.made_for out.old).room [] }

        ensures vertex { IsValidMessage (meaning self.now).message (option_copied msg.entry)
            → OnOk result (v.new ≡ record v.old { vertex = (answer (meaning self.now) at.now v.old (option_copied msg.entry)).vertex }) }
        ensures posted { IsValidMessage (meaning self.now).message (option_copied msg.entry)
            → OnOk result ((p : Posted) → O.took out.old p → O.took out.new (with_out (answer (meaning self.now) at.now v.old (option_copied msg.entry)) p)) }
        ensures open { OnOk result (StaysOpen (O.is_open out.new) (O.faults out.old) (O.faults out.new)) }
        ensures fits { OnOk result (vertex_size v.new.vertex ≤ v.new.room) }
        ensures pieces { OnOk result (O.pieces out.new ≡ gathered (O.made_for out.old).room []) }

        ensures err { IfErr result (StopsComputing (IsValidMessage (meaning self.now).message (option_copied msg.entry))
            (v.old.room < vertex_size (answer (meaning self.now) at.now v.old (option_copied msg.entry)).vertex)
            (O.took out.old) (O.took out.new) (answer (meaning self.now) at.now v.old (option_copied msg.entry)) (O.made_for out.old) (O.is_open out.new) (O.faults out.old) (O.faults out.new)) }
        ensures record_stays { SameRecord v.old v.new }
        ensures stays { O.made_for out.new ≡ O.made_for out.old };

    /// Decides what a vid's folded verdict does to its vertex, which `v` holds, or to the fresh vertex where there is none.
    fn settle(&self, existing: bool, v: &mut VertexBuf, verdict: &[u8]) -> Result<Settled, Wide>
        requires fresh { existing ≡ false → v.old.vertex ≡ fresh }

        ensures ok { IsTrue ((meaning self.now).verdict.valid verdict.now)
            → IfOk result (λ settled. Applies ((meaning self.now).settle_of v.old.vid (if existing then Some v.old.vertex else None) verdict.now) settled v.old v.new) }
        ensures wide { IsTrue ((meaning self.now).verdict.valid verdict.now)
            → (IsErr result ↔ IsTrue (is_too_wide v.old.room ((meaning self.now).settle_of v.old.vid (if existing then Some v.old.vertex else None) verdict.now))) }
        ensures same { OnErr result (v.new ≡ v.old) }
        ensures record_stays { SameRecord v.old v.new };

    /// The aggregate of no contributions.
    fn unit(&self) -> u64
        ensures { result ≡ (meaning self.now).unit };

    /// Joins two aggregates.
    fn join(&self, a: u64, b: u64) -> u64
        ensures { result ≡ (meaning self.now).join a b };

    /// Writes the printed form of a vertex's value. After a failure a prefix of it was written.
    fn print_value<W: Sink>(&self, v: &VertexBuf, sink: &mut W) -> Result<(), Failed>
        ensures ok { OnOk result ((h : List ℕ) → W.holds sink.old h → W.holds sink.new (h ++ (meaning self.now).value_text v.now.vertex)) }
        ensures err { OnErr result ((h : List ℕ) → W.holds sink.old h → (n : ℕ) × W.holds sink.new (h ++ take n ((meaning self.now).value_text v.now.vertex))) }
        ensures cause { OnErr result (Rose (W.faults sink.old) (W.faults sink.new)) }
        ensures no_fault { OnOk result (W.faults sink.new ≡ W.faults sink.old) };

    ghost laws: { (p : Self) → ProgramLaws (meaning p) };
}
