// A whole run over a job: from a text to a text.
ghost use Rattle.std.specs.Prelude.{◌≡◌, ◌≤◌, ◌<◌, ◌+◌, ◌++◌, ◌^◌, [], ◌∷◌, ℕ, suc, List, Bool, true, false, None, flat_map, OnOk, OnErr, IfOk, IfErr};
ghost use Rattle.px_core.specs.Shown.{Shown, Clean, Started};
ghost use Rattle.px_cache.specs.View.{AnyFile};
ghost use Rattle.px_frames.specs.Banks.{IsFrameLen};
ghost use Rattle.px_load.specs.Dumping.{SomeOf};
ghost use Rattle.px_load.specs.Stops.{Counts};
ghost use Rattle.px_meaning.specs.Due.{due_of_text};
ghost use Rattle.px_meaning.specs.Graph.{room_of};
ghost use Rattle.px_meaning.specs.GraphText.{graph_of};
ghost use Rattle.px_meaning.specs.Meaning.{is_halted, run, Beyond, Limit};
ghost use Rattle.px_meaning.specs.Program.{ProgramMeaning};
ghost use Rattle.px_meaning.specs.Runs.{HasHalted};
ghost use Rattle.px_meaning.specs.Step.{State, step};
ghost use Rattle.px_superstep.specs.Ends.{end_of_load, end_of_step, end_of_dump, is_graph, is_scratch, text_due, IsDiskEnd, IsStepEnd, IsRunEnd, IsOwed, IsLineOwed, IsAfterText, IsCut, IsUnwritten, IsUnread, RunEnds, FaultsAt};
ghost use Rattle.px_superstep.specs.Files.{IsStepFile};
ghost use Rattle.px_superstep.specs.Jobs.{IsJob, JobStands, JobStandsNext};
ghost use Rattle.px_superstep.specs.Lines.{asked_of, last_of, line_between, line_text, AreLinesOf, Grew, TellsLast};
ghost use Rattle.px_superstep.specs.Plans.{needed};
ghost use Rattle.px_superstep.specs.Reached.{reached, reached_of_text};
ghost use Rattle.px_superstep.specs.declared.plan.End.TheVariants as ends;
ghost use Rattle.px_superstep.specs.declared.plan.StoreKind.TheVariants.{BTree};

use crate::job::Job;
use crate::opening::open_bank;
use crate::plan::{End, Setup};
use crate::sharing::{need, shares};
use crate::stats::Stats;
use px_connectors::Connector;
use px_core::{Disk, Sink, Source, Stop, Turns};
use px_load::{DumpStop, LoadStop};
use px_program::{Group, Program};
use px_store::{Join, Store};
use std::alloc::{AllocError, Global};

impl From<LoadStop> for End {
    ghost from_gives = { λ stop end. end ≡ end_of_load stop };

    fn from(stop: LoadStop) -> End {
        match stop {
            LoadStop::Source => End::Source,
            LoadStop::Bad { line, kind } => End::Bad { line, kind },
            LoadStop::Twice { vid } => End::Twice { vid },
            LoadStop::Graph => End::Graph,
            LoadStop::Scratch => End::Scratch,
        }
    }
}

impl From<DumpStop> for End {
    ghost from_gives = { λ stop end. end ≡ end_of_dump stop };

    fn from(stop: DumpStop) -> End {
        match stop {
            DumpStop::Graph => End::Graph,
            DumpStop::Scratch => End::Scratch,
            DumpStop::Sink => End::Sink,
        }
    }
}

// How a run ends whose step to this superstep was not taken.
fn end_at(superstep: u64, stop: Stop) -> End
    ensures { result ≡ end_of_step superstep stop }
{
    match stop {
        Stop::Graph => End::Graph,
        Stop::Scratch => End::Scratch,
        Stop::Beyond => End::Beyond { superstep },
    }
}

// Opens the bank and the job. The only error is want of memory.
fn open_job<P: Program, J: Join, G: Group, C: Connector, St: Store>(
    alloc: Global,
    program: P,
    setup: &Setup,
) -> Result<Job<P, J, G, C, St>, AllocError>
    requires some { 1 ≤ setup.now.partitions }
    requires most { setup.now.partitions ≤ 16 }
    requires frames { setup.now.frames ≤ 65536 }
    requires need { needed setup.now.plan setup.now.partitions ≤ setup.now.frames }
    requires frame_len { IsFrameLen setup.now.frame_bytes }
    requires store { setup.now.plan.store ≡ BTree → St.counted ≡ true }
    ensures job { IfOk result (IsJob St.part St.counted) }
    ensures frame_len { IfOk result (λ job. job.bank.frame_len ≡ setup.now.frame_bytes) }
    ensures program { IfOk result (λ job. P.meaning job.program ≡ P.meaning program) }
{
    let frames = shares(&setup.plan, setup.partitions, setup.frames);
    let bank = open_bank(alloc, &frames, setup.partitions, setup.frame_bytes)?;
    Job::open(alloc, program, setup.partitions, bank)
}

// Starts both disks.
fn start_disks<GD: Disk, SD: Disk>(
    frame_bytes: u32,
    graph: &mut GD,
    scratch: &mut SD,
) -> Result<(), End>
    ensures graph { OnOk result (Started frame_bytes (GD.shown graph.old) (GD.shown graph.new)) }
    ensures scratch { OnOk result (Started frame_bytes (SD.shown scratch.old) (SD.shown scratch.new)) }
    ensures kind { IfErr result IsDiskEnd }
    ensures graph_faults { IfErr result (λ e. Counts (is_graph e) (GD.shown graph.old).faults (GD.shown graph.new).faults) }
    ensures scratch_faults { IfErr result (λ e. Counts (is_scratch e) (SD.shown scratch.old).faults (SD.shown scratch.new).faults) }
{
    if graph.start(frame_bytes).is_err() {
        return Err(End::Graph);
    }
    if scratch.start(frame_bytes).is_err() {
        return Err(End::Scratch);
    }
    Ok(())
}

// Every vertex has voted to halt, and no message is in transit.
fn is_still<P: Program, J: Join, G: Group, C: Connector, St: Store>(
    job: &Job<P, J, G, C, St>,
) -> bool
    ensures { (p : ProgramMeaning) (room : ℕ) (probing : Bool) (g t : Shown) (s : State) → JobStands p room probing St.holds g t job.now s → result ≡ is_halted s }
{
    job.gs().halted()
}

// Takes one superstep of a run, and says which one an end is in.
fn advance<P: Program, J: Join, G: Group, C: Connector, St: Store, GD: Disk, SD: Disk, T: Turns>(
    job: &mut Job<P, J, G, C, St>,
    stats: &mut Stats,
    graph: &mut GD,
    scratch: &mut SD,
    turns: &mut T,
) -> Result<(), End>
    requires job { IsJob St.part St.counted job.old }
    requires graph_len { (GD.shown graph.old).page_len ≡ job.old.bank.frame_len }
    requires scratch_len { (SD.shown scratch.old).page_len ≡ job.old.bank.frame_len }
    requires superstep { job.old.gs.superstep < 2 ^ 32 }
    ensures stands { OnOk result ((s : State)
        → JobStands (P.meaning job.old.program) (room_of job.old.bank.frame_len) J.probing St.holds (GD.shown graph.old) (SD.shown scratch.old) job.old s
        → JobStandsNext (P.meaning job.old.program) (room_of job.old.bank.frame_len) J.probing St.holds (GD.shown graph.new) (SD.shown scratch.new) job.new s) }
    ensures noted { OnOk result (stats.new ≡ last_of (stats.old ++ line_between job.new.gs (asked_of (GD.shown graph.old) (SD.shown scratch.old)) (asked_of (GD.shown graph.new) (SD.shown scratch.new)) ∷ [])) }
    ensures unnoted { OnErr result (stats.new ≡ stats.old) }
    ensures number { OnOk result (job.new.gs.superstep ≡ job.old.gs.superstep + 1) }
    ensures bank { job.new.bank ≡ job.old.bank }
    ensures program { P.meaning job.new.program ≡ P.meaning job.old.program }
    ensures job { OnOk result (IsJob St.part St.counted job.new) }
    ensures clean { OnOk result (Clean AnyFile (GD.shown graph.old) (GD.shown graph.new)) }
    ensures scratch { OnOk result (Clean IsStepFile (SD.shown scratch.old) (SD.shown scratch.new)) }
    ensures end { IfErr result (IsStepEnd (λ n. (s : State)
        → JobStands (P.meaning job.old.program) (room_of job.old.bank.frame_len) J.probing St.holds (GD.shown graph.old) (SD.shown scratch.old) job.old s
        → (step (P.meaning job.old.program) (room_of job.old.bank.frame_len) s ≡ None) × (n ≡ suc s.superstep))) }
    ensures graph_faults { IfErr result (λ e. Counts (is_graph e) (GD.shown graph.old).faults (GD.shown graph.new).faults) }
    ensures scratch_faults { IfErr result (λ e. Counts (is_scratch e) (SD.shown scratch.old).faults (SD.shown scratch.new).faults) }
{
    let superstep = job.gs().superstep + 1;
    match stats.step(job, graph, scratch, turns) {
        Ok(()) => Ok(()),
        Err(stop) => Err(end_at(superstep, stop)),
    }
}

// Takes supersteps until the job is halted, or beyond the limits, or has taken `most`.
fn run_to_halt<
    P: Program,
    J: Join,
    G: Group,
    C: Connector,
    St: Store,
    GD: Disk,
    SD: Disk,
    T: Turns,
>(
    job: &mut Job<P, J, G, C, St>,
    stats: &mut Stats,
    most: u32,
    graph: &mut GD,
    scratch: &mut SD,
    turns: &mut T,
) -> Result<(), End>
    requires job { IsJob St.part St.counted job.old }
    requires graph_len { (GD.shown graph.old).page_len ≡ job.old.bank.frame_len }
    requires scratch_len { (SD.shown scratch.old).page_len ≡ job.old.bank.frame_len }
    requires fresh { stats.old ≡ [] }
    requires first { job.old.gs.superstep ≡ 0 }
    ensures halted { OnOk result ((s : State)
        → JobStands (P.meaning job.old.program) (room_of job.old.bank.frame_len) J.probing St.holds (GD.shown graph.old) (SD.shown scratch.old) job.old s
        → HasHalted (P.meaning job.old.program) (room_of job.old.bank.frame_len) most s (JobStands (P.meaning job.old.program) (room_of job.old.bank.frame_len) J.probing St.holds (GD.shown graph.new) (SD.shown scratch.new) job.new)) }
    ensures noted { OnOk result ((s : State)
        → JobStands (P.meaning job.old.program) (room_of job.old.bank.frame_len) J.probing St.holds (GD.shown graph.old) (SD.shown scratch.old) job.old s
        → AreLinesOf (last_of (reached (P.meaning job.old.program) (room_of job.old.bank.frame_len) most s)) stats.new) }
    ensures bank { job.new.bank ≡ job.old.bank }
    ensures program { P.meaning job.new.program ≡ P.meaning job.old.program }
    ensures job { OnOk result (IsJob St.part St.counted job.new) }
    ensures clean { OnOk result (Clean AnyFile (GD.shown graph.old) (GD.shown graph.new)) }
    ensures scratch { OnOk result (Clean IsStepFile (SD.shown scratch.old) (SD.shown scratch.new)) }
    ensures end { IfErr result (IsRunEnd
        (λ n. (s : State)
        → JobStands (P.meaning job.old.program) (room_of job.old.bank.frame_len) J.probing St.holds (GD.shown graph.old) (SD.shown scratch.old) job.old s
        → run (P.meaning job.old.program) (room_of job.old.bank.frame_len) most s ≡ Beyond n)
        (λ n. (s : State)
        → JobStands (P.meaning job.old.program) (room_of job.old.bank.frame_len) J.probing St.holds (GD.shown graph.old) (SD.shown scratch.old) job.old s
        → run (P.meaning job.old.program) (room_of job.old.bank.frame_len) most s ≡ Limit n)) }
    ensures graph_faults { IfErr result (λ e. Counts (is_graph e) (GD.shown graph.old).faults (GD.shown graph.new).faults) }
    ensures scratch_faults { IfErr result (λ e. Counts (is_scratch e) (SD.shown scratch.old).faults (SD.shown scratch.new).faults) }
{
    for _ in 0..most {
        if is_still(job) {
            return Ok(());
        }
        advance(job, stats, graph, scratch, turns)?;
    }
    if is_still(job) {
        Ok(())
    } else {
        Err(End::Limit { n: most })
    }
}

// Starts the disks, loads the text, takes supersteps and writes the text of the halted state.
fn run_phases<
    P: Program,
    J: Join,
    G: Group,
    C: Connector,
    St: Store,
    R: Source,
    W: Sink,
    GD: Disk,
    SD: Disk,
    T: Turns,
>(
    job: &mut Job<P, J, G, C, St>,
    stats: &mut Stats,
    setup: &Setup,
    source: &mut R,
    out: &mut W,
    graph: &mut GD,
    scratch: &mut SD,
    turns: &mut T,
) -> Result<(), End>
    requires job { IsJob St.part St.counted job.old }
    requires fresh { stats.old ≡ [] }
    requires frame_len { job.old.bank.frame_len ≡ setup.now.frame_bytes }
    requires no_probes { J.probing ≡ false }
    ensures done { OnOk result (RunEnds R.left W.holds (λ bytes. graph_of bytes (room_of setup.now.frame_bytes) (2 ^ 48)) (P.meaning job.old.program) (room_of setup.now.frame_bytes) setup.now.max setup.now.summary source.old source.new out.old out.new (GD.shown graph.old) (SD.shown scratch.old) ends.Done) }
    ensures end { IfErr result (RunEnds R.left W.holds (λ bytes. graph_of bytes (room_of setup.now.frame_bytes) (2 ^ 48)) (P.meaning job.old.program) (room_of setup.now.frame_bytes) setup.now.max setup.now.summary source.old source.new out.old out.new (GD.shown graph.old) (SD.shown scratch.old)) }
    ensures unfinished { IfErr result (λ e. e ≡ ends.Done → ⊥) }
    ensures noted { OnOk result ((bytes : List ℕ) → R.left source.old bytes → (GD.shown graph.old).tells ≡ true → (SD.shown scratch.old).tells ≡ true
        → AreLinesOf (last_of (reached_of_text (P.meaning job.old.program) (room_of setup.now.frame_bytes) setup.now.max (graph_of bytes (room_of setup.now.frame_bytes) (2 ^ 48)))) stats.new) }
    ensures no_fault { OnOk result (FaultsAt (R.faults source.old) (R.faults source.new) (W.faults out.old) (W.faults out.new) (GD.shown graph.old).faults (GD.shown graph.new).faults (SD.shown scratch.old).faults (SD.shown scratch.new).faults ends.Done) }
    ensures faults { IfErr result (FaultsAt (R.faults source.old) (R.faults source.new) (W.faults out.old) (W.faults out.new) (GD.shown graph.old).faults (GD.shown graph.new).faults (SD.shown scratch.old).faults (SD.shown scratch.new).faults) }
{
    start_disks(setup.frame_bytes, graph, scratch)?;
    job.load(source, graph, scratch)?;
    run_to_halt(job, stats, setup.max, graph, scratch, turns)?;
    job.finish(graph, scratch, out, setup.summary)?;
    Ok(())
}

// The same, and how it ended.
fn run_opened<
    P: Program,
    J: Join,
    G: Group,
    C: Connector,
    St: Store,
    R: Source,
    W: Sink,
    GD: Disk,
    SD: Disk,
    T: Turns,
>(
    job: &mut Job<P, J, G, C, St>,
    stats: &mut Stats,
    setup: &Setup,
    source: &mut R,
    out: &mut W,
    graph: &mut GD,
    scratch: &mut SD,
    turns: &mut T,
) -> End
    requires job { IsJob St.part St.counted job.old }
    requires fresh { stats.old ≡ [] }
    requires frame_len { job.old.bank.frame_len ≡ setup.now.frame_bytes }
    requires no_probes { J.probing ≡ false }
    ensures ends { RunEnds R.left W.holds (λ bytes. graph_of bytes (room_of setup.now.frame_bytes) (2 ^ 48)) (P.meaning job.old.program) (room_of setup.now.frame_bytes) setup.now.max setup.now.summary source.old source.new out.old out.new (GD.shown graph.old) (SD.shown scratch.old) result }
    ensures noted { result ≡ ends.Done → (bytes : List ℕ) → R.left source.old bytes → (GD.shown graph.old).tells ≡ true → (SD.shown scratch.old).tells ≡ true
        → AreLinesOf (last_of (reached_of_text (P.meaning job.old.program) (room_of setup.now.frame_bytes) setup.now.max (graph_of bytes (room_of setup.now.frame_bytes) (2 ^ 48)))) stats.new }
    ensures faults { FaultsAt (R.faults source.old) (R.faults source.new) (W.faults out.old) (W.faults out.new) (GD.shown graph.old).faults (GD.shown graph.new).faults (SD.shown scratch.old).faults (SD.shown scratch.new).faults result }
{
    match run_phases(job, stats, setup, source, out, graph, scratch, turns) {
        Ok(()) => End::Done,
        Err(end) => end,
    }
}

// Writes the lines of a run that ended well, where they are asked for. A sink that fails changes nothing else.
fn report<E: Sink>(setup: &Setup, end: End, stats: &Stats, errs: &mut E)
    ensures quiet { setup.now.stats ≡ false → errs.new ≡ errs.old }
    ensures quiet_end { (end ≡ ends.Done → ⊥) → errs.new ≡ errs.old }
    ensures written { end ≡ ends.Done → setup.now.stats ≡ true → (e : List ℕ) → E.holds errs.old e → Grew (E.holds errs.new) (E.faults errs.old) (E.faults errs.new) e (flat_map line_text stats.now) }
{
    if setup.stats && matches!(end, End::Done) {
        let _ = stats.write(errs);
    }
}

/// Loads the text of a graph, takes supersteps until the state is halted, beyond the limits, or as many were taken as are allowed, and writes the text of the halted state.
/// Want of memory is the one answer that anybody may get where there are frames enough, and then no device was asked.
/// With `stats` the lines of the last 64 supersteps are written to `errs` after a run that ended well; a sink that fails there changes nothing else.
/// Joins that look vids up are not run yet: `Job::load` writes no files of vids.
pub fn run_job<
    P: Program,
    J: Join,
    G: Group,
    C: Connector,
    St: Store,
    R: Source,
    W: Sink,
    E: Sink,
    GD: Disk,
    SD: Disk,
    T: Turns,
>(
    alloc: Global,
    program: P,
    setup: &Setup,
    source: &mut R,
    out: &mut W,
    errs: &mut E,
    graph: &mut GD,
    scratch: &mut SD,
    turns: &mut T,
) -> End
    requires some { 1 ≤ setup.now.partitions }
    requires most { setup.now.partitions ≤ 16 }
    requires frames { setup.now.frames ≤ 65536 }
    requires frame_len { IsFrameLen setup.now.frame_bytes }
    requires store { setup.now.plan.store ≡ BTree → St.counted ≡ true }
    requires no_probes { J.probing ≡ false }

    // Where there are too few frames, nothing is asked.
    ensures short { setup.now.frames < needed setup.now.plan setup.now.partitions → result ≡ End.Short (needed setup.now.plan setup.now.partitions) setup.now.frames }
    ensures enough { needed setup.now.plan setup.now.partitions ≤ setup.now.frames → (need have : ℕ) → result ≡ End.Short need have → ⊥ }
    ensures unread { IsUnread result → source.new ≡ source.old }
    ensures unread_graph { IsUnread result → graph.new ≡ graph.old }
    ensures unread_scratch { IsUnread result → scratch.new ≡ scratch.old }

    // The end is the one that the program and the text owe.
    ensures decided { (bytes : List ℕ) → R.left source.old bytes → (GD.shown graph.old).tells ≡ true → (SD.shown scratch.old).tells ≡ true
        → IsOwed (due_of_text (P.meaning program) (room_of setup.now.frame_bytes) setup.now.max (graph_of bytes (room_of setup.now.frame_bytes) (2 ^ 48))) result }
    ensures line { (bytes : List ℕ) → R.left source.old bytes → IsLineOwed (graph_of bytes (room_of setup.now.frame_bytes) (2 ^ 48)) result }

    // What was written: the text that is due, or a part of it where a device failed, or nothing.
    ensures text { result ≡ End.Done → (bytes h : List ℕ) → R.left source.old bytes → (GD.shown graph.old).tells ≡ true → (SD.shown scratch.old).tells ≡ true → W.holds out.old h
        → W.holds out.new (h ++ text_due setup.now.summary (P.meaning program) (room_of setup.now.frame_bytes) setup.now.max (graph_of bytes (room_of setup.now.frame_bytes) (2 ^ 48))) }
    ensures part { IsCut result → (bytes h : List ℕ) → R.left source.old bytes → (GD.shown graph.old).tells ≡ true → (SD.shown scratch.old).tells ≡ true → W.holds out.old h
        → SomeOf (text_due setup.now.summary (P.meaning program) (room_of setup.now.frame_bytes) setup.now.max (graph_of bytes (room_of setup.now.frame_bytes) (2 ^ 48))) (λ t. W.holds out.new (h ++ t)) }
    ensures unwritten { IsUnwritten result → out.new ≡ out.old }

    // What was written of the last supersteps.
    ensures quiet { setup.now.stats ≡ false → errs.new ≡ errs.old }
    ensures quiet_end { (result ≡ ends.Done → ⊥) → errs.new ≡ errs.old }
    ensures stats { result ≡ ends.Done → setup.now.stats ≡ true → (bytes e : List ℕ) → R.left source.old bytes → (GD.shown graph.old).tells ≡ true → (SD.shown scratch.old).tells ≡ true → E.holds errs.old e
        → (t : List ℕ) × TellsLast (reached_of_text (P.meaning program) (room_of setup.now.frame_bytes) setup.now.max (graph_of bytes (room_of setup.now.frame_bytes) (2 ^ 48))) t × Grew (E.holds errs.new) (E.faults errs.old) (E.faults errs.new) e t }

    // What was read, and which device failed.
    ensures read { IsAfterText result → (bytes : List ℕ) → R.left source.old bytes → R.left source.new [] }
    ensures faults { FaultsAt (R.faults source.old) (R.faults source.new) (W.faults out.old) (W.faults out.new) (GD.shown graph.old).faults (GD.shown graph.new).faults (SD.shown scratch.old).faults (SD.shown scratch.new).faults result }
{
    let least = need(&setup.plan, setup.partitions);
    if setup.frames < least {
        return End::Short {
            need: least,
            have: setup.frames,
        };
    }
    let Ok(mut job) = open_job::<P, J, G, C, St>(alloc, program, setup) else {
        return End::Memory;
    };
    let Ok(mut stats) = Stats::open(alloc) else {
        return End::Memory;
    };
    let end = run_opened(
        &mut job, &mut stats, setup, source, out, graph, scratch, turns,
    );
    report(setup, end, &stats, errs);
    end
}
