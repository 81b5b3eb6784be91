// The stores' vertices become a text.
ghost use Rattle.std.specs.Prelude.{◌≡◌, ◌≤◌, ◌+◌, ◌*◌, ◌++◌, ℕ, List, length, map, true, false, OnOk, IfErr};
ghost use Rattle.std.specs.Bool.{OnTrue};
ghost use Rattle.px_core.specs.Shown.{Clean};
ghost use Rattle.px_cache.specs.View.{AnyFile};
ghost use Rattle.px_meaning.specs.OutputText.{text_of, summary_of};
ghost use Rattle.px_meaning.specs.Step.{State};
ghost use Rattle.px_store.specs.Desks.{SameDesk};
ghost use Rattle.px_load.specs.Dumping.{DumpStops, IsDumpFile, IsStored, KeepAll, FarKept, SomeOf, dumped, total};
ghost use Rattle.px_load.specs.Frames.{AreLoadFrames, SameLoadFrames};
ghost use Rattle.px_load.specs.Loading.{IsFree, AreStores};

use crate::frames::LoadFrames;
use crate::printing::print_files;
use crate::scanning::scan_all;
use crate::stops::DumpStop;
use px_core::{Disk, Sink};
use px_global_state::Gs;
use px_program::{Program, print_summary};
use px_store::{Desk, Store};

/// Writes the text of the state whose vertices are in the stores: a line for each vertex, in the order of their vids, and a last line with the numbers of `gs`, of which `count` is the number of vertices. With `summary` it writes the last line alone, and asks no disk.
/// The sink gets a frame at a time, and the rest at the end. All frames are back in their places, whatever is answered.
pub fn dump<P: Program, W: Sink, St: Store, GD: Disk, SD: Disk>(
    program: &P,
    gs: &Gs,
    summary: bool,
    frames: &mut LoadFrames,
    stores: &mut [St],
    desk: &mut Desk,
    graph: &mut GD,
    scratch: &mut SD,
    out: &mut W,
) -> Result<(), DumpStop>
    requires frames { AreLoadFrames frames.old (length stores.old) (SD.shown scratch.old).page_len }
    requires pages { (GD.shown graph.old).page_len ≡ (SD.shown scratch.old).page_len }
    requires parts { AreStores St.part stores.old }
    requires free { IsFree St.counted desk.old (GD.shown graph.old) }
    ensures written { OnOk result ((s : State) (h : List ℕ) → IsStored (λ st l. St.holds st desk.old (GD.shown graph.old) l) stores.old gs.now s → (SD.shown scratch.old).tells ≡ true
        → W.holds out.old h → W.holds out.new (h ++ dumped summary (P.meaning program.now) s)) }
    ensures part { IfErr result (λ e. (s : State) (h : List ℕ) → IsStored (λ st l. St.holds st desk.old (GD.shown graph.old) l) stores.old gs.now s → (SD.shown scratch.old).tells ≡ true
        → W.holds out.old h → SomeOf (dumped summary (P.meaning program.now) s) (λ text. W.holds out.new (h ++ text))) }
    ensures keeps { OnOk result (KeepAll (λ st l. St.holds st desk.old (GD.shown graph.old) l) (λ st l. St.holds st desk.new (GD.shown graph.new) l) stores.old stores.new) }
    ensures leaves { OnTrue St.counted (map St.leaves stores.new ≡ map St.leaves stores.old) }
    ensures reads { OnTrue St.counted ((GD.shown graph.new).reads ≤ (GD.shown graph.old).reads + 64 * length stores.old + total (map St.leaves stores.old)) }
    ensures count { length stores.new ≡ length stores.old }
    ensures parts { AreStores St.part stores.new }
    ensures desk { SameDesk desk.old desk.new }
    ensures free { OnOk result (IsFree St.counted desk.new (GD.shown graph.new)) }
    ensures frames { SameLoadFrames frames.old frames.new }
    ensures clean { OnOk result (Clean AnyFile (GD.shown graph.old) (GD.shown graph.new)) }
    ensures far { OnOk result (FarKept (length stores.old) desk.old (GD.shown graph.old) desk.new (GD.shown graph.new)) }
    ensures scratch { OnOk result (Clean IsDumpFile (SD.shown scratch.old) (SD.shown scratch.new)) }
    ensures no_fault { OnOk result (W.faults out.new ≡ W.faults out.old) }
    ensures err { IfErr result (DumpStops (W.faults out.old) (W.faults out.new) (GD.shown graph.old) (GD.shown graph.new) (SD.shown scratch.old) (SD.shown scratch.new)) }
{
    if summary {
        print_summary(gs.superstep, gs.aggregate, gs.count, out)?;
        return Ok(());
    }
    let pages = scan_all(stores, frames, desk, graph, scratch)?;
    print_files(
        program,
        gs,
        &pages,
        stores.len() as u32,
        frames,
        scratch,
        out,
    )?;
    Ok(())
}
