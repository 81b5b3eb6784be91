// A caller of any join beside any store.
ghost use Rattle.std.specs.Prelude.{◌≡◌, ◌≤◌, ◌+◌, ◌==◌, ◌||◌, ℕ, OnOk, IfOk, IfErr, IsFalse};
ghost use Rattle.std.specs.Bool.{OnTrue};
ghost use Rattle.std.specs.List.{list_any};
ghost use Rattle.px_core.specs.Shown.{NoFile, Clean};
ghost use Rattle.px_meaning.specs.Graph.{Graph, room_of};
ghost use Rattle.px_meaning.specs.Merge.{Pairs};
ghost use Rattle.px_store.specs.Desks.{IsReady, IsDone, SameDesk};
ghost use Rattle.px_store.specs.Joins.{IsInput, AreInputs, rows_in, OneBroke};

use crate::{Desk, Inputs, Join, Store};
use px_core::{Disk, Stop, Vid};
use px_frames::Buf;
use px_record::VertexBuf;

fn either(a: bool, b: bool) -> bool
    ensures { result ≡ (a || b) }
{
    a || b
}

// Whether there is a row for a vid.
fn has_row<J: Join, St: Store, GD: Disk, SD: Disk>(
    join: &mut J,
    store: &mut St,
    desk: &mut Desk,
    graph: &mut GD,
    scratch: &mut SD,
    ins: &Inputs,
    vertex: &mut VertexBuf,
    message: &mut Buf,
    vid: Vid,
) -> Result<bool, Stop>
    requires ready { IsReady St.counted (St.part store.old) desk.old (GD.shown graph.old) }
    requires graph_len { (J.view join.old).frame_len ≡ (GD.shown graph.old).page_len }
    requires scratch_len { (J.view join.old).frame_len ≡ (SD.shown scratch.old).page_len }
    requires vertex_len { vertex.old.frame_len ≡ (J.view join.old).frame_len }
    requires room { vertex.old.room ≡ room_of (J.view join.old).frame_len }
    requires limit { room_of (J.view join.old).frame_len ≤ 13 + message.old.limit }
    ensures found { IfOk result (λ b. (l : Graph) (m : Pairs) → St.holds store.old desk.old (GD.shown graph.old) l → AreInputs J.probing (SD.shown scratch.old) ins.now l m
        → (list_any (λ r. r.vid == vid) (rows_in l m) ≡ b) × St.holds store.new desk.new (GD.shown graph.new) l) }
    ensures leaves { OnTrue St.counted (St.leaves store.new ≡ St.leaves store.old) }
    ensures reads { IsFalse J.probing → OnTrue St.counted ((GD.shown graph.new).reads ≤ (GD.shown graph.old).reads + 64 + St.leaves store.old) }
    ensures desk { SameDesk desk.old desk.new }
    ensures done { OnOk result (IsDone St.counted (St.part store.old) desk.old (GD.shown graph.old) desk.new (GD.shown graph.new)) }
    ensures ok { OnOk result (Clean NoFile (SD.shown scratch.old) (SD.shown scratch.new)) }
    ensures err { IfErr result (OneBroke (IsInput ins.now) (GD.shown graph.old) (GD.shown graph.new) (SD.shown scratch.old) (SD.shown scratch.new)) }
{
    join.start(store, desk, graph, scratch, ins)?;
    let mut found = false;
    loop {
        match join.next_row(store, desk, graph, scratch, vertex, message)? {
            None => return Ok(found),
            Some(row) => found = either(found, row.vid == vid),
        }
    }
}
