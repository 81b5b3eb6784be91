// One row of a compute phase.
ghost use Rattle.std.specs.Prelude.{◌≡◌, ◌⊎◌, ◌<◌, ◌≤◌, ◌+◌, ◌^◌, [], OnOk, IfErr, IsTrue, IsFalse, not};
ghost use Rattle.px_core.specs.Shown.{Clean};
ghost use Rattle.px_core.specs.Same.{Apart};
ghost use Rattle.px_frames.specs.Buffer.{SameRoom};
ghost use Rattle.px_meaning.specs.Graph.{fresh, vertex_size};
ghost use Rattle.px_meaning.specs.Merge.{IsValidMessage};
ghost use Rattle.px_meaning.specs.Program.{Row as MeantRow};
ghost use Rattle.px_record.specs.Held.{SameRecord};
ghost use Rattle.px_program.specs.Groups.{IsOwn, StopsGrouping, room_in};
ghost use Rattle.px_program.specs.Posted.{Posted, with_out, gathered, StaysOpen, IsCause, IsPartOf, IsBeyond, made_for};
ghost use Rattle.px_store.specs.Joins.{IsRow};
ghost use Rattle.px_connectors.specs.Asking.{IsRequestFile, SameRequests, Asked};
ghost use Rattle.px_program.specs.Calls.{moment_of as moment_at};
ghost use Rattle.px_global_state.specs.States.{moment_of};
ghost use Rattle.px_compute_op.specs.Outs.{IsOutFile, HasTaken};

use crate::outs::{Meant, Outs};
use px_connectors::Requests;
use px_core::{Disk, Stop};
use px_frames::Buf;
use px_global_state::{Gs, Part};
use px_program::{At, Group, Outbox, Program};
use px_record::VertexBuf;
use px_store::Row;
use std::marker::PhantomData;

// What a row's vertex is told.
fn at_row(gs: &Gs, row: &Row) -> At
    ensures moment { moment_at result ≡ moment_of gs.now }
    ensures fresh { result.fresh ≡ not row.now.has_vertex }
{
    At {
        superstep: gs.superstep,
        aggregate: gs.aggregate,
        count: gs.count,
        fresh: !row.has_vertex,
    }
}

// Computes a row. Its vertex is in `vertex`, or the fresh one, and its message in `message`.
fn compute_row<P: Program, O: Outbox>(
    program: &P,
    gs: &Gs,
    row: &Row,
    vertex: &mut VertexBuf,
    message: &Buf,
    out: &mut O,
) -> Result<(), Stop>
    requires open { IsTrue (O.is_open out.old) }
    requires message { (O.made_for out.old).message ≡ (P.meaning program.now).message }
    requires verdict { (O.made_for out.old).verdict ≡ (P.meaning program.now).verdict }
    requires vid { vertex.old.vid ≡ row.now.vid }
    requires fresh { IsFalse row.now.has_vertex → vertex.old.vertex ≡ fresh }
    requires pieces { O.pieces out.old ≡ gathered (O.made_for out.old).room [] }

    ensures vertex { (r : MeantRow) → IsRow row.now vertex.old message.now.bytes r → IsValidMessage (P.meaning program.now).message r.message
        → OnOk result (vertex.new ≡ record vertex.old { vertex = ((P.meaning program.now).out_of (moment_of gs.now) r).vertex }) }
    ensures took { (r : MeantRow) → IsRow row.now vertex.old message.now.bytes r → IsValidMessage (P.meaning program.now).message r.message
        → OnOk result ((p : Posted) → O.took out.old p → O.took out.new (with_out ((P.meaning program.now).out_of (moment_of gs.now) r) p)) }
    ensures open { OnOk result (StaysOpen (O.is_open out.new) (O.faults out.old) (O.faults out.new)) }
    ensures fits { OnOk result (vertex_size vertex.new.vertex ≤ vertex.new.room) }

    // The new vertex is above room, or what was made so far is beyond the limits, the refused pair included.
    ensures beyond { (r : MeantRow) → IsRow row.now vertex.old message.now.bytes r → IsValidMessage (P.meaning program.now).message r.message
        → result ≡ Err Stop.Beyond → (vertex.old.room < vertex_size ((P.meaning program.now).out_of (moment_of gs.now) r).vertex)
        ⊎ ((p : Posted) → O.took out.old p → (made : Posted) × IsPartOf ((P.meaning program.now).out_of (moment_of gs.now) r) p made × IsBeyond (O.made_for out.old) made) }
    ensures cause { IfErr result (IsCause (O.faults out.old) (O.faults out.new)) }
    ensures record_stays { SameRecord vertex.old vertex.new }
    ensures stays { O.made_for out.new ≡ O.made_for out.old }
{
    let at = at_row(gs, row);
    let payload = if row.has_message {
        Some(message.bytes())
    } else {
        None
    };
    program.compute(&at, vertex, payload, out)
}

/// Computes a row, and takes what it sends, requests and contributes. The outbox lives for this row alone, so that all other files are known to be as before.
pub fn compute_in<P: Program, G: Group, SD: Disk, K: Meant>(
    program: &P,
    gs: &Gs,
    row: &Row,
    vertex: &mut VertexBuf,
    message: &Buf,
    group: &mut G,
    requests: &mut Requests,
    scratch: &mut SD,
    spare: &mut Buf,
    part: &mut Part,
) -> Result<(), Stop>
    requires program { P.meaning program.now ≡ K.start.program }
    requires group_is { G.made group.old ≡ K.start.group }
    requires requests_are { requests.old ≡ K.start.requests }
    requires disk { SD.shown scratch.old ≡ K.start.disk }
    requires spare { spare.old ≡ K.start.spare }
    requires open { IsTrue (G.is_open group.old) }
    requires apart { Apart (IsOwn K.start.group) IsRequestFile }
    requires group_len { K.start.group.frame_len ≡ K.start.disk.page_len }
    requires requests_len { K.start.requests.frame_len ≡ K.start.disk.page_len }
    requires room { vertex.old.room ≡ room_in K.start.group }
    requires limit { 13 + spare.old.limit ≡ room_in K.start.group }
    requires sends { part.old.sends ≤ 2 ^ 40 }
    requires asked { part.old.requests ≤ 2 ^ 40 }
    requires small { part.old.contributed < 2 ^ 64 }
    requires vid { vertex.old.vid ≡ row.now.vid }
    requires fresh { IsFalse row.now.has_vertex → vertex.old.vertex ≡ fresh }

    ensures vertex { (r : MeantRow) → IsRow row.now vertex.old message.now.bytes r → IsValidMessage K.start.program.message r.message
        → OnOk result (vertex.new ≡ record vertex.old { vertex = (K.start.program.out_of (moment_of gs.now) r).vertex }) }
    ensures took { (r : MeantRow) (p : Posted) → IsRow row.now vertex.old message.now.bytes r → IsValidMessage K.start.program.message r.message
        → HasTaken K.start.program vertex.old.room (G.took (SD.shown scratch.old) group.old K.start.program.message) (Asked (SD.shown scratch.old) requests.old) K.asked_before part.old p
        → OnOk result (HasTaken K.start.program vertex.old.room (G.took (SD.shown scratch.new) group.new K.start.program.message) (Asked (SD.shown scratch.new) requests.new) K.asked_before part.new (with_out (K.start.program.out_of (moment_of gs.now) r) p)) }
    ensures open { OnOk result (IsTrue (G.is_open group.new)) }
    ensures fits { OnOk result (vertex_size vertex.new.vertex ≤ vertex.new.room) }
    ensures few_sends { OnOk result (part.new.sends ≤ 2 ^ 40) }
    ensures few_requests { OnOk result (part.new.requests ≤ 2 ^ 40) }
    ensures small { OnOk result (part.new.contributed < 2 ^ 64) }
    ensures ok { OnOk result (Clean (IsOutFile K.start.group) (SD.shown scratch.old) (SD.shown scratch.new)) }
    ensures err { IfErr result (StopsGrouping (IsOutFile K.start.group) ((r : MeantRow) (p : Posted) → IsRow row.now vertex.old message.now.bytes r → IsValidMessage K.start.program.message r.message
        → HasTaken K.start.program vertex.old.room (G.took (SD.shown scratch.old) group.old K.start.program.message) (Asked (SD.shown scratch.old) requests.old) K.asked_before part.old p
        → (vertex.old.room < vertex_size (K.start.program.out_of (moment_of gs.now) r).vertex)
        ⊎ ((made : Posted) × IsPartOf (K.start.program.out_of (moment_of gs.now) r) p made × IsBeyond (made_for K.start.program vertex.old.room) made)) (SD.shown scratch.old) (SD.shown scratch.new)) }
    ensures group_stays { G.made group.new ≡ G.made group.old }
    ensures requests_stay { SameRequests requests.old requests.new }
    ensures record_stays { SameRecord vertex.old vertex.new }
    ensures spare_stays { SameRoom spare.old spare.new }
{
    let room = vertex.room();
    spare.clear();
    let mut out = Outs::<P, G, SD, K> {
        program,
        group,
        requests,
        disk: scratch,
        spare,
        long: false,
        room,
        made: *part,
        unspent: true,
        of: PhantomData,
    };
    compute_row(program, gs, row, vertex, message, &mut out)?;
    *part = out.made;
    Ok(())
}
