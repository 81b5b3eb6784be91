// The run of a job, whichever program it names.
ghost use Rattle.std.specs.Prelude.{◌≡◌, ℕ, List, [], true, false};
ghost use Rattle.px_superstep.specs.declared.plan.End.TheVariants.{Done};
ghost use Rattle.px_tool.specs.Clauses.{DisksTell, HasEnded, HasFaults, HasStats};
ghost use Rattle.px_tool.specs.Due.{program_of, setup_of, due_of_job, output_of, states_of};
ghost use Rattle.px_tool.specs.Endings.{status_of};
ghost use Rattle.px_words.specs.Words.{IsInRange};

use crate::ending::Ending;
use px_core::{Disk, Sink, Source, Turns};
use px_plan_matrix::{ConnectorKind, GroupKind, JoinKind, Plan, Setup, StoreKind, dispatch};
use px_program::Program;
use px_programs::{Chains, Close, Components, PageRank, Prune, Reach, Reverse, Sssp};
use px_words::{Chosen, Job};
use std::alloc::Global;

// What a job is run with. Each runs by the base plan.
fn setup_of(job: Job) -> Setup
    ensures { result ≡ setup_of job }
{
    let plan = Plan {
        join: JoinKind::Full,
        group: GroupKind::Sort,
        connector: ConnectorKind::Plain,
        store: StoreKind::BTree,
    };
    Setup {
        plan,
        partitions: job.partitions,
        frames: job.frames,
        frame_bytes: job.frame_bytes,
        max: job.most,
        summary: job.generate.is_some(),
        stats: job.stats,
    }
}

// Runs this program as the job says.
fn run_program<P: Program, R: Source, W: Sink, E: Sink, G: Disk, S: Disk, T: Turns>(
    alloc: Global,
    program: P,
    job: Job,
    source: &mut R,
    out: &mut W,
    errs: &mut E,
    graph: &mut G,
    scratch: &mut S,
    turns: &mut T,
) -> Ending
    requires ranges { IsInRange job }
    requires program { P.meaning program ≡ program_of job.chosen }
    ensures ended { HasEnded (R.left source.old) (R.left source.new []) (source.new ≡ source.old) W.holds (G.shown graph.old) (S.shown scratch.old) (due_of_job job) (output_of job) out.old out.new graph.old graph.new scratch.old scratch.new result }
    ensures faults { HasFaults (status_of result) (R.faults source.old) (R.faults source.new) (W.faults out.old) (W.faults out.new) (G.shown graph.old).faults (G.shown graph.new).faults (S.shown scratch.old).faults (S.shown scratch.new).faults }
    ensures known { result ≡ Ending.Usage → ⊥ }
    ensures quiet { job.stats ≡ false → errs.new ≡ errs.old }
    ensures quiet_end { (result ≡ Ending.Ran Done → ⊥) → errs.new ≡ errs.old }
    ensures stats { result ≡ Ending.Ran Done → job.stats ≡ true → (l e : List ℕ) → R.left source.old l → DisksTell (G.shown graph.old) (S.shown scratch.old) → E.holds errs.old e
        → HasStats (states_of job l) (E.holds errs.new) (E.faults errs.old) (E.faults errs.new) e }
{
    let setup = setup_of(job);
    let end = dispatch(
        alloc, program, &setup, source, out, errs, graph, scratch, turns,
    );
    Ending::Ran(end)
}

/// Runs the job's program on the text of the source, and writes no line of its ending.
pub fn run_job<R: Source, W: Sink, E: Sink, G: Disk, S: Disk, T: Turns>(
    alloc: Global,
    job: Job,
    source: &mut R,
    out: &mut W,
    errs: &mut E,
    graph: &mut G,
    scratch: &mut S,
    turns: &mut T,
) -> Ending
    requires ranges { IsInRange job }
    ensures ended { HasEnded (R.left source.old) (R.left source.new []) (source.new ≡ source.old) W.holds (G.shown graph.old) (S.shown scratch.old) (due_of_job job) (output_of job) out.old out.new graph.old graph.new scratch.old scratch.new result }
    ensures faults { HasFaults (status_of result) (R.faults source.old) (R.faults source.new) (W.faults out.old) (W.faults out.new) (G.shown graph.old).faults (G.shown graph.new).faults (S.shown scratch.old).faults (S.shown scratch.new).faults }
    ensures known { result ≡ Ending.Usage → ⊥ }
    ensures quiet { job.stats ≡ false → errs.new ≡ errs.old }
    ensures quiet_end { (result ≡ Ending.Ran Done → ⊥) → errs.new ≡ errs.old }
    ensures stats { result ≡ Ending.Ran Done → job.stats ≡ true → (l e : List ℕ) → R.left source.old l → DisksTell (G.shown graph.old) (S.shown scratch.old) → E.holds errs.old e
        → HasStats (states_of job l) (E.holds errs.new) (E.faults errs.old) (E.faults errs.new) e }
{
    macro_rules! run {
        ($program:expr) => {
            run_program(
                alloc, $program, job, source, out, errs, graph, scratch, turns,
            )
        };
    }
    match job.chosen {
        Chosen::Reach { from } => run!(Reach::new(from)),
        Chosen::Sssp { from } => run!(Sssp::new(from)),
        Chosen::Components => run!(Components::new()),
        Chosen::PageRank { rounds } => run!(PageRank::new(rounds)),
        Chosen::Chains => run!(Chains::new()),
        Chosen::Reverse => run!(Reverse::new()),
        Chosen::Close => run!(Close::new()),
        Chosen::Prune => run!(Prune::new()),
    }
}
