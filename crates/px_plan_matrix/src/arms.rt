// A run by the plan of its setup.
ghost use Rattle.std.specs.Prelude.{◌≡◌, ◌≤◌, ◌<◌, ◌++◌, ◌^◌, [], ℕ, List, true, false};
ghost use Rattle.px_frames.specs.Banks.{IsFrameLen};
ghost use Rattle.px_load.specs.Dumping.{SomeOf};
ghost use Rattle.px_meaning.specs.Due.{due_of_text};
ghost use Rattle.px_meaning.specs.Graph.{room_of};
ghost use Rattle.px_meaning.specs.GraphText.{graph_of};
ghost use Rattle.px_plan_matrix.specs.Base.{IsBasePlan};
ghost use Rattle.px_superstep.specs.Ends.{text_due, IsOwed, IsLineOwed, IsAfterText, IsCut, IsUnwritten, IsUnread, FaultsAt};
ghost use Rattle.px_superstep.specs.Lines.{Grew, TellsLast};
ghost use Rattle.px_superstep.specs.Plans.{needed};
ghost use Rattle.px_superstep.specs.Reached.{reached_of_text};
ghost use Rattle.px_superstep.specs.declared.plan.End.TheVariants as ends;

use px_btree::BTree;
use px_connectors::Partitioning;
use px_core::{Disk, Sink, Source, Turns};
use px_outer_join::OuterJoin;
use px_program::Program;
use px_sort_group::SortGroup;
use px_superstep::{End, Setup, run_job};
use std::alloc::Global;

/// Runs a program on the text of a graph, over the kinds that the setup's plan names, and says how the run ended.
/// Of the plans only the base plan runs yet. Want of memory is the one end that any run with frames enough may have, and then no device was asked.
/// With `stats` the lines of the last 64 supersteps are written to `errs` after a run that ended well; a sink that fails there changes nothing else.
pub fn dispatch<P: Program, R: Source, W: Sink, E: Sink, G: Disk, S: Disk, T: Turns>(
    alloc: Global,
    program: P,
    setup: &Setup,
    source: &mut R,
    out: &mut W,
    errs: &mut E,
    graph: &mut G,
    scratch: &mut S,
    turns: &mut T,
) -> End
    requires some { 1 ≤ setup.now.partitions }
    requires most { setup.now.partitions ≤ 16 }
    requires frames { setup.now.frames ≤ 65536 }
    requires frame_len { IsFrameLen setup.now.frame_bytes }
    requires base { IsBasePlan setup.now.plan }

    // Where there are too few frames, nothing is asked.
    ensures short { setup.now.frames < needed setup.now.plan setup.now.partitions → result ≡ ends.Short (needed setup.now.plan setup.now.partitions) setup.now.frames }
    ensures enough { needed setup.now.plan setup.now.partitions ≤ setup.now.frames → (need have : ℕ) → result ≡ ends.Short need have → ⊥ }
    ensures unread { IsUnread result → source.new ≡ source.old }
    ensures unread_graph { IsUnread result → graph.new ≡ graph.old }
    ensures unread_scratch { IsUnread result → scratch.new ≡ scratch.old }

    // The end is the one that the program and the text owe.
    ensures decided { (bytes : List ℕ) → R.left source.old bytes → (G.shown graph.old).tells ≡ true → (S.shown scratch.old).tells ≡ true
        → IsOwed (due_of_text (P.meaning program) (room_of setup.now.frame_bytes) setup.now.max (graph_of bytes (room_of setup.now.frame_bytes) (2 ^ 48))) result }
    ensures line { (bytes : List ℕ) → R.left source.old bytes → IsLineOwed (graph_of bytes (room_of setup.now.frame_bytes) (2 ^ 48)) result }

    // What was written: the text that is due, or a part of it where a device failed, or nothing.
    ensures text { result ≡ ends.Done → (bytes h : List ℕ) → R.left source.old bytes → (G.shown graph.old).tells ≡ true → (S.shown scratch.old).tells ≡ true → W.holds out.old h
        → W.holds out.new (h ++ text_due setup.now.summary (P.meaning program) (room_of setup.now.frame_bytes) setup.now.max (graph_of bytes (room_of setup.now.frame_bytes) (2 ^ 48))) }
    ensures part { IsCut result → (bytes h : List ℕ) → R.left source.old bytes → (G.shown graph.old).tells ≡ true → (S.shown scratch.old).tells ≡ true → W.holds out.old h
        → SomeOf (text_due setup.now.summary (P.meaning program) (room_of setup.now.frame_bytes) setup.now.max (graph_of bytes (room_of setup.now.frame_bytes) (2 ^ 48))) (λ t. W.holds out.new (h ++ t)) }
    ensures unwritten { IsUnwritten result → out.new ≡ out.old }

    // What was written of the last supersteps.
    ensures quiet { setup.now.stats ≡ false → errs.new ≡ errs.old }
    ensures quiet_end { (result ≡ ends.Done → ⊥) → errs.new ≡ errs.old }
    ensures stats { result ≡ ends.Done → setup.now.stats ≡ true → (bytes e : List ℕ) → R.left source.old bytes → (G.shown graph.old).tells ≡ true → (S.shown scratch.old).tells ≡ true → E.holds errs.old e
        → (t : List ℕ) × TellsLast (reached_of_text (P.meaning program) (room_of setup.now.frame_bytes) setup.now.max (graph_of bytes (room_of setup.now.frame_bytes) (2 ^ 48))) t × Grew (E.holds errs.new) (E.faults errs.old) (E.faults errs.new) e t }

    // What was read, and which device failed.
    ensures read { IsAfterText result → (bytes : List ℕ) → R.left source.old bytes → R.left source.new [] }
    ensures faults { FaultsAt (R.faults source.old) (R.faults source.new) (W.faults out.old) (W.faults out.new) (G.shown graph.old).faults (G.shown graph.new).faults (S.shown scratch.old).faults (S.shown scratch.new).faults result }
{
    run_job::<P, OuterJoin, SortGroup, Partitioning, BTree, R, W, E, G, S, T>(
        alloc, program, setup, source, out, errs, graph, scratch, turns,
    )
}
