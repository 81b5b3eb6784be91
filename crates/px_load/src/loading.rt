// A text becomes the stores' vertices.
ghost use Rattle.std.specs.Prelude.{◌≡◌, ◌≤◌, ◌<◌, ◌+◌, ◌*◌, ◌^◌, [], ℕ, List, length, true, OnOk, IfOk, IfErr};
ghost use Rattle.std.specs.Bool.{OnTrue};
ghost use Rattle.px_core.specs.Shown.{Clean};
ghost use Rattle.px_cache.specs.View.{AnyFile};
ghost use Rattle.px_meaning.specs.Graph.{Graph, room_of};
ghost use Rattle.px_meaning.specs.GraphText.{Good, graph_of};
ghost use Rattle.px_store.specs.Desks.{SameDesk};
ghost use Rattle.px_load.specs.Frames.{AreLoadFrames, AreLentFrames, SameLoadFrames};
ghost use Rattle.px_load.specs.Loading.{IsFree, AreStores, IsLoaded, FewLeaves};
ghost use Rattle.px_load.specs.Stops.{Stops, HasGoodLines, IsLineRefusal, IsRefusal, IsAfterText, IsLoadFile};

use crate::filling::fill_all;
use crate::frames::LoadFrames;
use crate::gathering::read_text;
use crate::parting::part_text;
use crate::stops::LoadStop;
use px_core::{Disk, Source};
use px_runs::Runs;
use px_store::{Desk, Store};

// The two files of the runs.
const RUNS: u32 = 0;

const OTHER_RUNS: u32 = 1;

/// Reads a text to its end, or to its first offending place, and leaves its graph in the stores, each vertex in that of its partition. The number of vertices is answered.
/// A text of more than `limit` bytes is refused. Its lines may stand in any order. All frames are back in their places, whatever is answered.
pub fn load<R: Source, St: Store, GD: Disk, SD: Disk>(
    source: &mut R,
    limit: u64,
    frames: &mut LoadFrames,
    stores: &mut [St],
    desk: &mut Desk,
    graph: &mut GD,
    scratch: &mut SD,
) -> Result<u64, LoadStop>
    requires limit { limit ≤ 2 ^ 48 }
    requires frames { AreLoadFrames frames.old (length stores.old) (SD.shown scratch.old).page_len }
    requires pages { (GD.shown graph.old).page_len ≡ (SD.shown scratch.old).page_len }
    requires parts { AreStores St.part stores.old }
    requires free { IsFree St.counted desk.old (GD.shown graph.old) }
    ensures loaded { IfOk result (λ n. (bytes : List ℕ) → R.left source.old bytes → (SD.shown scratch.old).tells ≡ true
        → IsLoaded (graph_of bytes (room_of (GD.shown graph.old).page_len) limit) (λ st g. (GD.shown graph.old).tells ≡ true → St.holds st desk.new (GD.shown graph.new) g) stores.new n) }
    ensures good_lines { OnOk result ((bytes : List ℕ) → R.left source.old bytes → HasGoodLines (graph_of bytes (room_of (GD.shown graph.old).page_len) limit)) }
    ensures refused_line { IfErr result (λ e. (bytes : List ℕ) → R.left source.old bytes → IsLineRefusal (graph_of bytes (room_of (GD.shown graph.old).page_len) limit) e) }
    ensures refused { IfErr result (λ e. (bytes : List ℕ) → R.left source.old bytes → (SD.shown scratch.old).tells ≡ true → IsRefusal (graph_of bytes (room_of (GD.shown graph.old).page_len) limit) e) }
    ensures read { OnOk result ((bytes : List ℕ) → R.left source.old bytes → R.left source.new []) }
    ensures read_whole { IfErr result (λ e. IsAfterText e → (bytes : List ℕ) → R.left source.old bytes → R.left source.new []) }
    ensures leaves { OnTrue St.counted (OnOk result ((bytes : List ℕ) (g : Graph) → R.left source.old bytes → (SD.shown scratch.old).tells ≡ true → graph_of bytes (room_of (GD.shown graph.old).page_len) limit ≡ Good g → FewLeaves St.leaves stores.new g)) }
    ensures reads { OnTrue St.counted ((bytes : List ℕ) (g : Graph) → R.left source.old bytes → (SD.shown scratch.old).tells ≡ true → graph_of bytes (room_of (GD.shown graph.old).page_len) limit ≡ Good g
        → (GD.shown graph.new).reads ≤ (GD.shown graph.old).reads + 2 * length g) }
    ensures count { length stores.new ≡ length stores.old }
    ensures parts { AreStores St.part stores.new }
    ensures desk { SameDesk desk.old desk.new }
    ensures free { OnOk result (IsFree St.counted desk.new (GD.shown graph.new)) }
    ensures frames { SameLoadFrames frames.old frames.new }
    ensures clean { OnOk result (Clean AnyFile (GD.shown graph.old) (GD.shown graph.new)) }
    ensures scratch { OnOk result (Clean IsLoadFile (SD.shown scratch.old) (SD.shown scratch.new)) }
    ensures no_fault { OnOk result (R.faults source.new ≡ R.faults source.old) }
    ensures err { IfErr result (Stops (R.faults source.old) (R.faults source.new) (GD.shown graph.old) (GD.shown graph.new) (SD.shown scratch.old) (SD.shown scratch.new)) }
{
    let _places = frames.runs.size();
    let mut runs = Runs::new(frames.runs.take(), RUNS, OTHER_RUNS);
    let answer = load_by(
        source, limit, frames, &mut runs, stores, desk, graph, scratch,
    );
    frames.runs.put(runs.close());
    answer
}

// Loads a text by these runs.
fn load_by<R: Source, St: Store, GD: Disk, SD: Disk>(
    source: &mut R,
    limit: u64,
    frames: &mut LoadFrames,
    runs: &mut Runs,
    stores: &mut [St],
    desk: &mut Desk,
    graph: &mut GD,
    scratch: &mut SD,
) -> Result<u64, LoadStop>
    requires limit { limit ≤ 2 ^ 48 }
    requires file { runs.old.writer.file < 2 }
    requires spare { runs.old.spare < 2 }
    requires page_len { runs.old.writer.page_len ≡ (SD.shown scratch.old).page_len }
    requires frames { AreLentFrames frames.old (length stores.old) (SD.shown scratch.old).page_len }
    requires pages { (GD.shown graph.old).page_len ≡ (SD.shown scratch.old).page_len }
    requires parts { AreStores St.part stores.old }
    requires free { IsFree St.counted desk.old (GD.shown graph.old) }
    ensures loaded { IfOk result (λ n. (bytes : List ℕ) → R.left source.old bytes → (SD.shown scratch.old).tells ≡ true
        → IsLoaded (graph_of bytes (room_of (GD.shown graph.old).page_len) limit) (λ st g. (GD.shown graph.old).tells ≡ true → St.holds st desk.new (GD.shown graph.new) g) stores.new n) }
    ensures good_lines { OnOk result ((bytes : List ℕ) → R.left source.old bytes → HasGoodLines (graph_of bytes (room_of (GD.shown graph.old).page_len) limit)) }
    ensures refused_line { IfErr result (λ e. (bytes : List ℕ) → R.left source.old bytes → IsLineRefusal (graph_of bytes (room_of (GD.shown graph.old).page_len) limit) e) }
    ensures refused { IfErr result (λ e. (bytes : List ℕ) → R.left source.old bytes → (SD.shown scratch.old).tells ≡ true → IsRefusal (graph_of bytes (room_of (GD.shown graph.old).page_len) limit) e) }
    ensures read { OnOk result ((bytes : List ℕ) → R.left source.old bytes → R.left source.new []) }
    ensures read_whole { IfErr result (λ e. IsAfterText e → (bytes : List ℕ) → R.left source.old bytes → R.left source.new []) }
    ensures leaves { OnTrue St.counted (OnOk result ((bytes : List ℕ) (g : Graph) → R.left source.old bytes → (SD.shown scratch.old).tells ≡ true → graph_of bytes (room_of (GD.shown graph.old).page_len) limit ≡ Good g → FewLeaves St.leaves stores.new g)) }
    ensures reads { OnTrue St.counted ((bytes : List ℕ) (g : Graph) → R.left source.old bytes → (SD.shown scratch.old).tells ≡ true → graph_of bytes (room_of (GD.shown graph.old).page_len) limit ≡ Good g
        → (GD.shown graph.new).reads ≤ (GD.shown graph.old).reads + 2 * length g) }
    ensures count { length stores.new ≡ length stores.old }
    ensures parts { AreStores St.part stores.new }
    ensures desk { SameDesk desk.old desk.new }
    ensures free { OnOk result (IsFree St.counted desk.new (GD.shown graph.new)) }
    ensures frames { SameLoadFrames frames.old frames.new }
    ensures clean { OnOk result (Clean AnyFile (GD.shown graph.old) (GD.shown graph.new)) }
    ensures scratch { OnOk result (Clean IsLoadFile (SD.shown scratch.old) (SD.shown scratch.new)) }
    ensures no_fault { OnOk result (R.faults source.new ≡ R.faults source.old) }
    ensures err { IfErr result (Stops (R.faults source.old) (R.faults source.new) (GD.shown graph.old) (GD.shown graph.new) (SD.shown scratch.old) (SD.shown scratch.new)) }
    ensures runs { runs.new.writer.page_len ≡ runs.old.writer.page_len }
{
    let count = read_text(source, limit, frames, runs, scratch)?;
    let pages = part_text(scratch, runs, frames, stores.len() as u32)?;
    fill_all(stores, &pages, frames, desk, graph, scratch)?;
    Ok(count)
}
