// The compute phase of a partition: its rows are computed, what they send is grouped, and the folds go to the connector.
ghost use Rattle.std.specs.Prelude.{◌≡◌, ◌≢◌, ◌<◌, ◌≤◌, ◌+◌, ◌*◌, ◌^◌, [], ℕ, length, false, OnOk, IfOk, IfErr, IsTrue, IsFalse, List};
ghost use Rattle.std.specs.Bool.{OnTrue};
ghost use Rattle.px_core.specs.Same.{Apart};
ghost use Rattle.px_core.specs.Shown.{Clean};
ghost use Rattle.px_frames.specs.Buffer.{SameRoom};
ghost use Rattle.px_meaning.specs.Graph.{Graph, IsMap, room_of};
ghost use Rattle.px_meaning.specs.Merge.{Pairs};
ghost use Rattle.px_meaning.specs.Program.{Row as MeantRow};
ghost use Rattle.px_meaning.specs.Step.{computed, has_wide_fold};
ghost use Rattle.px_program.specs.Groups.{IsOwn, StopsGrouping, room_in};
ghost use Rattle.px_program.specs.Phase.{with_all};
ghost use Rattle.px_program.specs.Posted.{nothing};
ghost use Rattle.px_stream.specs.Stream.{Took, Has};
ghost use Rattle.px_connectors.specs.Asking.{SameRequests, Asked};
ghost use Rattle.px_connectors.specs.Stops.{StopsPhase};
ghost use Rattle.px_connectors.specs.Views.{IsConnectorFile};
ghost use Rattle.px_store.specs.Desks.{IsReady, IsDone, SameDesk};
ghost use Rattle.px_store.specs.Joins.{HasRows};
ghost use Rattle.px_global_state.specs.States.{moment_of};
ghost use Rattle.px_compute_op.specs.Outs.{HasTaken};
ghost use Rattle.px_compute_op.specs.Phase.{AreApart, OwnOrSent, IsRunFile, IsPhaseFile, OrInput, IsBench, SameBench, Begun, AreComputed, HasRun, is_part_beyond};

use crate::outs::Meant;
use crate::row::compute_in;
use px_connectors::{Connector, Requests};
use px_core::{Disk, Stop};
use px_frames::Buf;
use px_global_state::{Gs, Part, no_part};
use px_pages::tags;
use px_program::{Group, Merge, Program};
use px_record::VertexBuf;
use px_store::{Desk, Join, Store};
use px_stream::Writer;
use std::marker::Brand;

/// What a compute phase works with.
#[derive(Drop)]
pub struct Bench<G: Group> {
    pub group: G,
    pub updates: Writer,
    pub vertex: VertexBuf,
    pub message: Buf,
    pub spare: Buf,
}

// Moves the folds of a sealed group to the sender that is begun.
fn move_folds<G: Group, C: Connector, M: Merge, SD: Disk>(
    group: &mut G,
    connector: &mut C,
    merge: &M,
    scratch: &mut SD,
    into: &mut Buf,
) -> Result<(), Stop>
    requires group_len { (G.made group.old).frame_len ≡ (SD.shown scratch.old).page_len }
    requires connector_len { (C.view connector.old).frame_len ≡ (SD.shown scratch.old).page_len }
    requires limit { 13 + into.old.limit ≡ room_in (G.made group.old) }
    requires sealed { IsTrue (G.is_sealed group.old) }
    requires sender { (C.view connector.old).sender < 16 }
    requires apart { Apart (IsOwn (G.made group.old)) IsConnectorFile }
    ensures sending { OnOk result ((all rest : Pairs) → IsMap rest → G.gives (SD.shown scratch.old) group.old (M.rule merge.now) all rest → C.sending connector.old (SD.shown scratch.old) (C.view connector.old).sender []
        → C.sending connector.new (SD.shown scratch.new) (C.view connector.old).sender rest) }
    ensures fits { OnOk result ((all rest : Pairs) → G.gives (SD.shown scratch.old) group.old (M.rule merge.now) all rest → has_wide_fold (M.rule merge.now) (room_in (G.made group.old)) all ≡ false) }
    ensures others { OnOk result ((p : ℕ) (l : Pairs) → p < 16 → p ≢ (C.view connector.old).sender → C.sent connector.old (SD.shown scratch.old) p l → C.sent connector.new (SD.shown scratch.new) p l) }
    ensures ok { OnOk result (Clean (OwnOrSent (G.made group.old) (C.view connector.old).sender) (SD.shown scratch.old) (SD.shown scratch.new)) }
    ensures err { IfErr result (StopsGrouping (OwnOrSent (G.made group.old) (C.view connector.old).sender)
        ((all rest : Pairs) → G.gives (SD.shown scratch.old) group.old (M.rule merge.now) all rest → IsTrue (has_wide_fold (M.rule merge.now) (room_in (G.made group.old)) all))
        (SD.shown scratch.old) (SD.shown scratch.new)) }
    ensures into { SameRoom into.old into.new }
    ensures group { G.made group.new ≡ G.made group.old }
    ensures connector { C.view connector.new ≡ C.view connector.old }
{
    while let Some(vid) = group.next(scratch, merge, into)? {
        connector.put(scratch, vid, into.bytes())?;
    }
    Ok(())
}

// Computes the rows that a join gives, one after the other.
fn each_row<P: Program, J: Join, G: Group, St: Store, GD: Disk, SD: Disk, K: Meant>(
    program: &P,
    gs: &Gs,
    join: &mut J,
    store: &mut St,
    desk: &mut Desk,
    graph: &mut GD,
    scratch: &mut SD,
    requests: &mut Requests,
    bench: &mut Bench<G>,
) -> Result<Part, Stop>
    requires program { P.meaning program.now ≡ K.start.program }
    requires ready { IsReady St.counted (St.part store.old) desk.old (GD.shown graph.old) }
    requires graph_len { (J.view join.old).frame_len ≡ (GD.shown graph.old).page_len }
    requires join_len { (J.view join.old).frame_len ≡ (SD.shown scratch.old).page_len }
    requires requests_len { requests.old.frame_len ≡ (SD.shown scratch.old).page_len }
    requires bench { IsBench G.made (SD.shown scratch.old).page_len bench.old }
    requires open { IsTrue (G.is_open bench.old.group) }
    requires apart { AreApart (G.made bench.old.group) bench.old.updates.file (J.view join.old).inputs }

    ensures made { (l : Graph) (rows : List MeantRow)
        → Begun K.start.program.message (HasRows J.probing (St.holds store.old desk.old (GD.shown graph.old)) (St.scans store.old desk.old (GD.shown graph.old)) (J.gives join.old (SD.shown scratch.old)) l)
        (Took (SD.shown scratch.old) bench.old.updates) (G.took (SD.shown scratch.old) bench.old.group K.start.program.message) rows
        → ((a : Pairs) → K.asked_before a → Asked (SD.shown scratch.old) requests.old a)
        → IfOk result (λ part. AreComputed (room_of (SD.shown scratch.old).page_len) (Took (SD.shown scratch.new) bench.new.updates)
        (HasTaken K.start.program (room_of (SD.shown scratch.old).page_len) (G.took (SD.shown scratch.new) bench.new.group K.start.program.message) (Asked (SD.shown scratch.new) requests.new) K.asked_before part)
        (computed K.start.program (moment_of gs.now) rows)) }
    ensures holds { OnOk result ((l : Graph) (rows : List MeantRow)
        → HasRows J.probing (St.holds store.old desk.old (GD.shown graph.old)) (St.scans store.old desk.old (GD.shown graph.old)) (J.gives join.old (SD.shown scratch.old)) l rows
        → St.holds store.new desk.new (GD.shown graph.new) l) }
    ensures few_sends { IfOk result (λ part. part.sends ≤ 2 ^ 40) }
    ensures few_requests { IfOk result (λ part. part.requests ≤ 2 ^ 40) }
    ensures small { IfOk result (λ part. part.contributed < 2 ^ 64) }
    ensures open { OnOk result (IsTrue (G.is_open bench.new.group)) }
    ensures first { OnOk result (bench.new.updates.first ≡ bench.old.updates.first) }
    ensures ok { OnOk result (Clean (IsRunFile (G.made bench.old.group) bench.old.updates.file) (SD.shown scratch.old) (SD.shown scratch.new)) }
    ensures done { OnOk result (IsDone St.counted (St.part store.old) desk.old (GD.shown graph.old) desk.new (GD.shown graph.new)) }
    ensures err { IfErr result (StopsPhase (OrInput (J.view join.old).inputs (IsRunFile (G.made bench.old.group) bench.old.updates.file))
        ((l : Graph) (rows : List MeantRow)
        → Begun K.start.program.message (HasRows J.probing (St.holds store.old desk.old (GD.shown graph.old)) (St.scans store.old desk.old (GD.shown graph.old)) (J.gives join.old (SD.shown scratch.old)) l)
        (Took (SD.shown scratch.old) bench.old.updates) (G.took (SD.shown scratch.old) bench.old.group K.start.program.message) rows
        → ((a : Pairs) → K.asked_before a → Asked (SD.shown scratch.old) requests.old a)
        → IsTrue (is_part_beyond K.start.program (room_of (SD.shown scratch.old).page_len) (computed K.start.program (moment_of gs.now) rows)))
        (GD.shown graph.old) (GD.shown graph.new) (SD.shown scratch.old) (SD.shown scratch.new)) }
    ensures leaves { OnTrue St.counted (St.leaves store.new ≡ St.leaves store.old) }
    ensures reads { IsFalse J.probing → OnTrue St.counted ((GD.shown graph.new).reads + St.unread store.new desk.new ≤ (GD.shown graph.old).reads + St.unread store.old desk.old) }
    ensures few_reads { (l : Graph) (rows : List MeantRow)
        → HasRows J.probing (St.holds store.old desk.old (GD.shown graph.old)) (St.scans store.old desk.old (GD.shown graph.old)) (J.gives join.old (SD.shown scratch.old)) l rows
        → IsTrue J.probing → OnTrue St.counted ((GD.shown graph.new).reads ≤ (GD.shown graph.old).reads + 64 * length rows) }
    ensures part { St.part store.new ≡ St.part store.old }
    ensures desk { SameDesk desk.old desk.new }
    ensures join { J.view join.new ≡ J.view join.old }
    ensures requests { SameRequests requests.old requests.new }
    ensures bench { SameBench G.made bench.old bench.new }
{
    let mut part = no_part(program);
    while let Some(row) = join.next_row(
        store,
        desk,
        graph,
        scratch,
        &mut bench.vertex,
        &mut bench.message,
    )? {
        compute_in::<P, G, SD, Brand>(
            program,
            gs,
            &row,
            &mut bench.vertex,
            &bench.message,
            &mut bench.group,
            requests,
            scratch,
            &mut bench.spare,
            &mut part,
        )?;
        bench
            .updates
            .put(scratch, row.vid, tags::VERTEX, bench.vertex.body())?;
    }
    Ok(part)
}

/// The compute phase of a partition: its new vertices go to the updates, the fold of what it sends to each vid to the sender that is begun, and what it requests to the requests.
/// The join was started and gave nothing yet, and the updates, the group and the sender took nothing.
/// The errors are `Stop::Graph` and `Stop::Scratch`, where that disk failed, and `Stop::Beyond`, where what is computed is beyond the limits. After one nothing is said of what was taken.
pub fn run_partition<P: Program, J: Join, G: Group, C: Connector, St: Store, GD: Disk, SD: Disk>(
    program: &P,
    gs: &Gs,
    join: &mut J,
    store: &mut St,
    desk: &mut Desk,
    graph: &mut GD,
    scratch: &mut SD,
    connector: &mut C,
    requests: &mut Requests,
    bench: &mut Bench<G>,
) -> Result<Part, Stop>
    requires ready { IsReady St.counted (St.part store.old) desk.old (GD.shown graph.old) }
    requires graph_len { (J.view join.old).frame_len ≡ (GD.shown graph.old).page_len }
    requires join_len { (J.view join.old).frame_len ≡ (SD.shown scratch.old).page_len }
    requires connector_len { (C.view connector.old).frame_len ≡ (SD.shown scratch.old).page_len }
    requires requests_len { requests.old.frame_len ≡ (SD.shown scratch.old).page_len }
    requires bench { IsBench G.made (SD.shown scratch.old).page_len bench.old }
    requires open { IsTrue (G.is_open bench.old.group) }
    requires sender { (C.view connector.old).sender < 16 }
    requires apart { AreApart (G.made bench.old.group) bench.old.updates.file (J.view join.old).inputs }

    ensures made { (l : Graph) (rows : List MeantRow) (before : Pairs)
        → Begun (P.meaning program.now).message (HasRows J.probing (St.holds store.old desk.old (GD.shown graph.old)) (St.scans store.old desk.old (GD.shown graph.old)) (J.gives join.old (SD.shown scratch.old)) l)
        (Took (SD.shown scratch.old) bench.old.updates) (G.took (SD.shown scratch.old) bench.old.group (P.meaning program.now).message) rows
        → C.sending connector.old (SD.shown scratch.old) (C.view connector.old).sender [] → Asked (SD.shown scratch.old) requests.old before
        → IfOk result (HasRun (P.meaning program.now) (room_of (SD.shown scratch.old).page_len) (computed (P.meaning program.now) (moment_of gs.now) rows)
        (Has (SD.shown scratch.new) bench.new.updates.file bench.new.updates.first bench.new.updates.pages) (C.sent connector.new (SD.shown scratch.new) (C.view connector.old).sender) (Asked (SD.shown scratch.new) requests.new) before) }
    ensures holds { OnOk result ((l : Graph) (rows : List MeantRow)
        → HasRows J.probing (St.holds store.old desk.old (GD.shown graph.old)) (St.scans store.old desk.old (GD.shown graph.old)) (J.gives join.old (SD.shown scratch.old)) l rows
        → St.holds store.new desk.new (GD.shown graph.new) l) }
    ensures others { OnOk result ((p : ℕ) (l : Pairs) → p < 16 → p ≢ (C.view connector.old).sender → C.sent connector.old (SD.shown scratch.old) p l → C.sent connector.new (SD.shown scratch.new) p l) }
    ensures few_sends { IfOk result (λ part. part.sends ≤ 2 ^ 40) }
    ensures few_requests { IfOk result (λ part. part.requests ≤ 2 ^ 40) }
    ensures small { IfOk result (λ part. part.contributed < 2 ^ 64) }
    ensures first { OnOk result (bench.new.updates.first ≡ bench.old.updates.first) }
    ensures ok { OnOk result (Clean (IsPhaseFile (G.made bench.old.group) bench.old.updates.file (C.view connector.old).sender) (SD.shown scratch.old) (SD.shown scratch.new)) }
    ensures done { OnOk result (IsDone St.counted (St.part store.old) desk.old (GD.shown graph.old) desk.new (GD.shown graph.new)) }
    ensures err { IfErr result (StopsPhase (OrInput (J.view join.old).inputs (IsPhaseFile (G.made bench.old.group) bench.old.updates.file (C.view connector.old).sender))
        ((l : Graph) (rows : List MeantRow) (before : Pairs)
        → Begun (P.meaning program.now).message (HasRows J.probing (St.holds store.old desk.old (GD.shown graph.old)) (St.scans store.old desk.old (GD.shown graph.old)) (J.gives join.old (SD.shown scratch.old)) l)
        (Took (SD.shown scratch.old) bench.old.updates) (G.took (SD.shown scratch.old) bench.old.group (P.meaning program.now).message) rows
        → Asked (SD.shown scratch.old) requests.old before
        → IsTrue (is_part_beyond (P.meaning program.now) (room_of (SD.shown scratch.old).page_len) (computed (P.meaning program.now) (moment_of gs.now) rows)))
        (GD.shown graph.old) (GD.shown graph.new) (SD.shown scratch.old) (SD.shown scratch.new)) }
    ensures leaves { OnTrue St.counted (St.leaves store.new ≡ St.leaves store.old) }
    ensures reads { IsFalse J.probing → OnTrue St.counted ((GD.shown graph.new).reads + St.unread store.new desk.new ≤ (GD.shown graph.old).reads + St.unread store.old desk.old) }
    ensures few_reads { (l : Graph) (rows : List MeantRow)
        → HasRows J.probing (St.holds store.old desk.old (GD.shown graph.old)) (St.scans store.old desk.old (GD.shown graph.old)) (J.gives join.old (SD.shown scratch.old)) l rows
        → IsTrue J.probing → OnTrue St.counted ((GD.shown graph.new).reads ≤ (GD.shown graph.old).reads + 64 * length rows) }
    ensures part { St.part store.new ≡ St.part store.old }
    ensures desk { SameDesk desk.old desk.new }
    ensures join { J.view join.new ≡ J.view join.old }
    ensures connector { C.view connector.new ≡ C.view connector.old }
    ensures requests { SameRequests requests.old requests.new }
    ensures bench { SameBench G.made bench.old bench.new }
{
    let part = each_row::<P, J, G, St, GD, SD, Brand>(
        program, gs, join, store, desk, graph, scratch, requests, bench,
    )?;
    bench.group.seal(scratch, program.message())?;
    move_folds(
        &mut bench.group,
        connector,
        program.message(),
        scratch,
        &mut bench.spare,
    )?;
    connector.finish(scratch)?;
    bench.updates.finish(scratch)?;
    Ok(part)
}
