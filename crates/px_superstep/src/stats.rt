// Statistics of a run: a line for each of its last supersteps.
ghost use Rattle.std.specs.Prelude.{◌≡◌, ◌<◌, ◌+◌, ◌++◌, ◌^◌, [], ◌∷◌, ℕ, List, None, length, take, flat_map, OnOk, OnErr, IfOk, IfErr};
ghost use Rattle.px_core.specs.Counts.{Rose};
ghost use Rattle.px_core.specs.Shown.{Clean};
ghost use Rattle.px_cache.specs.View.{AnyFile};
ghost use Rattle.px_meaning.specs.Graph.{room_of};
ghost use Rattle.px_meaning.specs.Step.{State, step};
ghost use Rattle.px_connectors.specs.Stops.{StopsPhase};
ghost use Rattle.px_store.specs.Desks.{SameDesk};
ghost use Rattle.px_superstep.specs.Files.{IsStepFile};
ghost use Rattle.px_superstep.specs.Jobs.{IsJob, JobStands, JobStandsNext};
ghost use Rattle.px_superstep.specs.Lines.{asked_of, last_of, line_between, line_text};

use crate::job::Job;
use crate::line::{Asked, Line, write_lines};
use circular_buffer::HeapCircularBuffer;
use px_connectors::Connector;
use px_core::{Disk, Failed, Sink, Stop, Turns};
use px_program::{Group, Program};
use px_store::{Join, Store};
use std::alloc::{AllocError, Global};
use std::marker::Model;

// How many lines are kept.
const MOST_LINES: usize = 64;

/// The lines of the last 64 supersteps of a run. A contract sees them as a list, the oldest first.
#[derive(Drop)]
pub struct Stats {
    lines: HeapCircularBuffer<Line>,
}

impl Model for Stats {
    ghost use Rattle.std.specs.Prelude.{◌≡◌, List};
    ghost use Rattle.px_superstep.specs.declared.line.Line.{Line as Row};

    ghost Value = { List Row };

    ghost view = { λ s. s.lines.items };

    ghost invariant = { λ s. s.lines.capacity ≡ 64 };
}

impl Stats {
    /// No lines. The only error is want of memory.
    pub fn open(alloc: Global) -> Result<Stats, AllocError>
        ensures { IfOk result (λ s. s ≡ []) }
    {
        let lines = HeapCircularBuffer::with_capacity(alloc, MOST_LINES)?;
        Ok(Stats { lines })
    }

    /// Appends a line. The oldest goes where 64 were there.
    pub fn note(&mut self, line: Line)
        ensures { self.new ≡ last_of (self.old ++ line ∷ []) }
    {
        self.lines.push_back(line);
    }

    /// Writes the lines in their order, a call of the sink for each. After a failure a prefix of their text was written.
    pub fn write<E: Sink>(&self, errs: &mut E) -> Result<(), Failed>
        ensures ok { OnOk result ((h : List ℕ) → E.holds errs.old h → E.holds errs.new (h ++ flat_map line_text self.now)) }
        ensures err { OnErr result ((h : List ℕ) → E.holds errs.old h → (n : ℕ) × E.holds errs.new (h ++ take n (flat_map line_text self.now))) }
        ensures cause { OnErr result (Rose (E.faults errs.old) (E.faults errs.new)) }
        ensures no_fault { OnOk result (E.faults errs.new ≡ E.faults errs.old) }
    {
        let (older, newer) = self.lines.as_slices();
        write_lines(older, errs)?;
        write_lines(newer, errs)
    }

    /// Takes one superstep of a job, for every order of turns, and notes its line. After an error nothing is noted, and nothing is said of the job's content.
    pub fn step<
        P: Program,
        J: Join,
        G: Group,
        C: Connector,
        St: Store,
        GD: Disk,
        SD: Disk,
        T: Turns,
    >(
        &mut self,
        job: &mut Job<P, J, G, C, St>,
        graph: &mut GD,
        scratch: &mut SD,
        turns: &mut T,
    ) -> Result<(), Stop>
        requires job { IsJob St.part St.counted job.old }
        requires graph_len { (GD.shown graph.old).page_len ≡ job.old.bank.frame_len }
        requires scratch_len { (SD.shown scratch.old).page_len ≡ job.old.bank.frame_len }
        requires superstep { job.old.gs.superstep < 2 ^ 32 }
        ensures noted { OnOk result (self.new ≡ last_of (self.old ++ line_between job.new.gs (asked_of (GD.shown graph.old) (SD.shown scratch.old)) (asked_of (GD.shown graph.new) (SD.shown scratch.new)) ∷ [])) }
        ensures unnoted { OnErr result (self.new ≡ self.old) }
        ensures stands { OnOk result ((s : State)
            → JobStands (P.meaning job.old.program) (room_of job.old.bank.frame_len) J.probing St.holds (GD.shown graph.old) (SD.shown scratch.old) job.old s
            → JobStandsNext (P.meaning job.old.program) (room_of job.old.bank.frame_len) J.probing St.holds (GD.shown graph.new) (SD.shown scratch.new) job.new s) }
        ensures number { OnOk result (job.new.gs.superstep ≡ job.old.gs.superstep + 1) }
        ensures bank { job.new.bank ≡ job.old.bank }
        ensures desk { SameDesk job.old.desk job.new.desk }
        ensures program { P.meaning job.new.program ≡ P.meaning job.old.program }
        ensures partitions { length job.new.stores.items ≡ length job.old.stores.items }
        ensures job { OnOk result (IsJob St.part St.counted job.new) }
        ensures clean { OnOk result (Clean AnyFile (GD.shown graph.old) (GD.shown graph.new)) }
        ensures scratch { OnOk result (Clean IsStepFile (SD.shown scratch.old) (SD.shown scratch.new)) }
        ensures err { IfErr result (StopsPhase IsStepFile
            ((s : State)
            → JobStands (P.meaning job.old.program) (room_of job.old.bank.frame_len) J.probing St.holds (GD.shown graph.old) (SD.shown scratch.old) job.old s
            → step (P.meaning job.old.program) (room_of job.old.bank.frame_len) s ≡ None)
            (GD.shown graph.old) (GD.shown graph.new) (SD.shown scratch.old) (SD.shown scratch.new)) }
    {
        let before = Asked::now(graph, scratch);
        job.superstep(graph, scratch, turns)?;
        self.note(Asked::now(graph, scratch).line_since(before, job.gs()));
        Ok(())
    }
}
