// A whole run: from words and a text to a text and a status.
ghost use Rattle.std.specs.Prelude.{◌≡◌, ◌≢◌, ◌⊎◌, ℕ, List, [], ◌++◌, take, true, false, IsTrue, is_some, Option, Some, None};
ghost use Rattle.px_core.specs.Counts.{Rose};
ghost use Rattle.px_superstep.specs.Lines.{Grew};
ghost use Rattle.px_tool.specs.Clauses.{DisksTell, HasEnded, HasFaults, HasStats, IsAfterInput, IsCut, IsDecided, IsShort, IsStatus, IsUnasked, IsUnwritten, RestsOnDisks, RestsOnText, line_owed};
ghost use Rattle.px_tool.specs.Due.{due, due_if, notes, notes_if, output, output_if, reads_if, states, states_if, IsRead, words_of};
ghost use Rattle.px_tool.specs.Endings.{ending_of, line_of, status_of};
ghost use Rattle.px_words.specs.Words.{job_of, IsInRange};
ghost use Rattle.px_superstep.specs.declared.plan.End.TheVariants.{Done, Memory};
ghost use Rattle.px_words.specs.declared.job.Job.{Job as TheJob};

use crate::ending::Ending;
use crate::work::run_job;
use px_core::{Disk, Sink, Source, Turns, write_all};
use px_graph_text::GenSource;
use px_plan_matrix::End;
use px_words::{Job, read_words};
use std::alloc::Global;

// The run of a job on its text: the input, or a generated one, and then the source is not asked.
fn run_text<R: Source, W: Sink, E: Sink, G: Disk, S: Disk, T: Turns>(
    alloc: Global,
    job: Job,
    source: &mut R,
    out: &mut W,
    errs: &mut E,
    graph: &mut G,
    scratch: &mut S,
    turns: &mut T,
) -> Ending
    requires ranges { IsInRange job }
    ensures ended { (o : Option TheJob) → o ≡ Some job → HasEnded (λ l. IsTrue (reads_if o) → R.left source.old l) (IsTrue (reads_if o) → R.left source.new []) (source.new ≡ source.old) W.holds (G.shown graph.old) (S.shown scratch.old) (due_if o) (output_if o) out.old out.new graph.old graph.new scratch.old scratch.new result }
    ensures faults { HasFaults (status_of result) (R.faults source.old) (R.faults source.new) (W.faults out.old) (W.faults out.new) (G.shown graph.old).faults (G.shown graph.new).faults (S.shown scratch.old).faults (S.shown scratch.new).faults }
    ensures unread { is_some job.generate ≡ true → source.new ≡ source.old }
    ensures known { result ≡ Ending.Usage → ⊥ }
    ensures quiet { job.stats ≡ false → errs.new ≡ errs.old }
    ensures quiet_end { (result ≡ Ending.Ran Done → ⊥) → errs.new ≡ errs.old }
    ensures stats { (o : Option TheJob) → o ≡ Some job → result ≡ Ending.Ran Done → notes_if o ≡ true → (l e : List ℕ) → (IsTrue (reads_if o) → R.left source.old l) → DisksTell (G.shown graph.old) (S.shown scratch.old) → E.holds errs.old e
        → HasStats (states_if o l) (E.holds errs.new) (E.faults errs.old) (E.faults errs.new) e }
{
    match job.generate {
        Some(n) => {
            let mut made = GenSource::new(job.seed, n);
            run_job(alloc, job, &mut made, out, errs, graph, scratch, turns)
        }
        None => run_job(alloc, job, source, out, errs, graph, scratch, turns),
    }
}

// The run without its line on the error sink.
fn run_words<R: Source, W: Sink, E: Sink, G: Disk, S: Disk, T: Turns>(
    alloc: Global,
    words: &[String],
    source: &mut R,
    out: &mut W,
    errs: &mut E,
    graph: &mut G,
    scratch: &mut S,
    turns: &mut T,
) -> Ending
    ensures ended { HasEnded (λ l. IsRead (words_of words.now) → R.left source.old l) (IsRead (words_of words.now) → R.left source.new []) (source.new ≡ source.old) W.holds (G.shown graph.old) (S.shown scratch.old) (due (words_of words.now)) (output (words_of words.now)) out.old out.new graph.old graph.new scratch.old scratch.new result }
    ensures faults { HasFaults (status_of result) (R.faults source.old) (R.faults source.new) (W.faults out.old) (W.faults out.new) (G.shown graph.old).faults (G.shown graph.new).faults (S.shown scratch.old).faults (S.shown scratch.new).faults }
    ensures usage { result ≡ Ending.Usage → job_of (words_of words.now) ≡ None }
    ensures refused { job_of (words_of words.now) ≡ None → (result ≡ Ending.Usage) ⊎ (result ≡ Ending.Ran Memory) }
    ensures unread { (IsRead (words_of words.now) → ⊥) → source.new ≡ source.old }
    ensures quiet { notes (words_of words.now) ≡ false → errs.new ≡ errs.old }
    ensures quiet_end { (result ≡ Ending.Ran Done → ⊥) → errs.new ≡ errs.old }
    ensures stats { result ≡ Ending.Ran Done → notes (words_of words.now) ≡ true → (l e : List ℕ) → (IsRead (words_of words.now) → R.left source.old l) → DisksTell (G.shown graph.old) (S.shown scratch.old) → E.holds errs.old e
        → HasStats (states (words_of words.now) l) (E.holds errs.new) (E.faults errs.old) (E.faults errs.new) e }
{
    let Ok(read) = read_words(alloc, words) else {
        return Ending::Ran(End::Memory);
    };
    let Some(job) = read else {
        return Ending::Usage;
    };
    turns.start(job.seed);
    run_text(alloc, job, source, out, errs, graph, scratch, turns)
}

/// Writes the line of an ending. A failure there changes no status.
pub fn report<E: Sink>(ending: Ending, errs: &mut E)
    ensures quiet { ending ≡ Ending.Ran Done → errs.new ≡ errs.old }
    ensures line { ending ≢ Ending.Ran Done → (e : List ℕ) → E.holds errs.old e → Grew (E.holds errs.new) (E.faults errs.old) (E.faults errs.new) e (line_of ending) }
{
    if ending != Ending::Ran(End::Done) {
        let line = ending.line();
        let _ = write_all(errs, line.as_str().as_bytes());
    }
}

/// Reads the words, runs the job that they name on the text of the source or on a generated one, over both disks and in the order of the turns, writes the text of its halted state to `out`, and answers the status.
/// Where the status is not 0, one line on `errs` says why; where it is and the words ask for it, lines of statistics follow there. Want of memory is the one answer that anybody may get, and then nothing was asked.
pub fn px_run<R: Source, W: Sink, E: Sink, G: Disk, S: Disk, T: Turns>(
    alloc: Global,
    words: &[String],
    source: &mut R,
    out: &mut W,
    errs: &mut E,
    graph: &mut G,
    scratch: &mut S,
    turns: &mut T,
) -> u8
    // The status is that of the one answer that the words and the text owe.
    ensures statuses { IsStatus result }
    ensures status { IsDecided result → (l : List ℕ) → (RestsOnText result → IsRead (words_of words.now) → R.left source.old l) → (RestsOnDisks result → DisksTell (G.shown graph.old) (S.shown scratch.old))
        → result ≡ status_of (ending_of (due (words_of words.now) l)) }
    ensures usage { result ≡ 1 → job_of (words_of words.now) ≡ None }
    ensures refused { job_of (words_of words.now) ≡ None → (result ≡ 1) ⊎ (result ≡ 10) }
    ensures short { (l : List ℕ) → status_of (ending_of (due (words_of words.now) l)) ≡ 11 → IsShort result }

    // Where no fault rose, and the answer is not want of memory, it is the one owed.
    ensures complete { (Rose (R.faults source.old) (R.faults source.new) → ⊥) → (Rose (W.faults out.old) (W.faults out.new) → ⊥)
        → (Rose (G.shown graph.old).faults (G.shown graph.new).faults → ⊥) → (Rose (S.shown scratch.old).faults (S.shown scratch.new).faults → ⊥) → result ≢ 10
        → (l : List ℕ) → (IsRead (words_of words.now) → R.left source.old l) → DisksTell (G.shown graph.old) (S.shown scratch.old) → result ≡ status_of (ending_of (due (words_of words.now) l)) }

    // What was written: the text of the halted state, or a prefix where a disk or the sink failed, or nothing.
    ensures text { result ≡ 0 → (l h : List ℕ) → (IsRead (words_of words.now) → R.left source.old l) → DisksTell (G.shown graph.old) (S.shown scratch.old) → W.holds out.old h
        → W.holds out.new (h ++ output (words_of words.now) l) }
    ensures part { IsCut result → (l h : List ℕ) → (IsRead (words_of words.now) → R.left source.old l) → DisksTell (G.shown graph.old) (S.shown scratch.old) → W.holds out.old h
        → (n : ℕ) × W.holds out.new (h ++ take n (output (words_of words.now) l)) }
    ensures unwritten { IsUnwritten result → out.new ≡ out.old }

    // What a fault is the cause of, and that none passes unanswered.
    ensures graph_failed { result ≡ 6 → Rose (G.shown graph.old).faults (G.shown graph.new).faults }
    ensures graph_no_fault { result ≢ 6 → (G.shown graph.new).faults ≡ (G.shown graph.old).faults }
    ensures scratch_failed { result ≡ 7 → Rose (S.shown scratch.old).faults (S.shown scratch.new).faults }
    ensures scratch_no_fault { result ≢ 7 → (S.shown scratch.new).faults ≡ (S.shown scratch.old).faults }
    ensures source_failed { result ≡ 8 → Rose (R.faults source.old) (R.faults source.new) }
    ensures source_no_fault { result ≢ 8 → R.faults source.new ≡ R.faults source.old }
    ensures sink_failed { result ≡ 9 → Rose (W.faults out.old) (W.faults out.new) }
    ensures sink_no_fault { result ≢ 9 → W.faults out.new ≡ W.faults out.old }
    ensures sink_owed { result ≡ 9 → (l : List ℕ) → (IsRead (words_of words.now) → R.left source.old l) → DisksTell (G.shown graph.old) (S.shown scratch.old) → status_of (ending_of (due (words_of words.now) l)) ≡ 0 }

    // What is left of the input, which is not asked where the graph is generated. Where the words or the frames are refused, or memory is wanting, no device was asked.
    ensures read { IsAfterInput result → IsRead (words_of words.now) → (l : List ℕ) → R.left source.old l → R.left source.new [] }
    ensures unread { (IsRead (words_of words.now) → ⊥) → source.new ≡ source.old }
    ensures unasked { IsUnasked result → source.new ≡ source.old }
    ensures unasked_graph { IsUnasked result → graph.new ≡ graph.old }
    ensures unasked_scratch { IsUnasked result → scratch.new ≡ scratch.old }

    // The line on the error sink, and the lines of statistics of a run that halted.
    ensures quiet { result ≡ 0 → notes (words_of words.now) ≡ false → errs.new ≡ errs.old }
    ensures stats { result ≡ 0 → notes (words_of words.now) ≡ true → (l e : List ℕ) → (IsRead (words_of words.now) → R.left source.old l) → DisksTell (G.shown graph.old) (S.shown scratch.old) → E.holds errs.old e
        → HasStats (states (words_of words.now) l) (E.holds errs.new) (E.faults errs.old) (E.faults errs.new) e }
    ensures line { result ≢ 0 → (l e : List ℕ) → (RestsOnText result → IsRead (words_of words.now) → R.left source.old l) → (RestsOnDisks result → DisksTell (G.shown graph.old) (S.shown scratch.old)) → E.holds errs.old e
        → Grew (E.holds errs.new) (E.faults errs.old) (E.faults errs.new) e (line_owed result (due (words_of words.now) l)) }
{
    let ending = run_words(alloc, words, source, out, errs, graph, scratch, turns);
    report(ending, errs);
    ending.status()
}

#[cfg(test)]
mod tests;
