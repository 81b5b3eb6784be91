// What a superstep does for one partition. Each call opens what it needs from the bank, makes the one call of the layer below, and gives all frames back, whatever is answered.
ghost use Rattle.std.specs.Prelude.{◌≡◌, ◌≢◌, ◌≤◌, ◌<◌, ◌^◌, [], ℕ, true, OnOk, IfOk, IfErr, IsTrue};
ghost use Rattle.px_core.specs.Shown.{Clean, Shown};
ghost use Rattle.px_meaning.specs.Graph.{Graph, room_of};
ghost use Rattle.px_meaning.specs.Merge.{MergeRule, Pairs};
ghost use Rattle.px_meaning.specs.Step.{computed};
ghost use Rattle.px_stream.specs.Stream.{Holds};
ghost use Rattle.px_connectors.specs.Asking.{SameRequests, Asked};
ghost use Rattle.px_connectors.specs.Stops.{StopsPhase};
ghost use Rattle.px_store.specs.Desks.{IsDone, SameDesk};
ghost use Rattle.px_store.specs.Joins.{rows_in};
ghost use Rattle.px_global_state.specs.States.{moment_of};
ghost use Rattle.px_load.specs.Loading.{IsFree};
ghost use Rattle.px_compute_op.specs.Phase.{HasRun, OrInput, is_part_beyond};
ghost use Rattle.px_superstep.specs.Benches.{HasBench};
ghost use Rattle.px_superstep.specs.Files.{AreInputFiles, IsComputeFile, update_file};
ghost use Rattle.px_superstep.specs.Phases.{SameConnector, IsReadyToCompute};
ghost use Rattle.px_superstep.specs.Tooling.{AreToolsFor, SameTools};

use crate::benches::{give_bench, lend_bench};
use crate::tools::Tools;
use px_compute_op::run_partition;
use px_connectors::{Connector, Requests};
use px_core::{Disk, Stop};
use px_frames::Bank;
use px_global_state::{Gs, Part};
use px_program::{Group, Program};
use px_store::{Desk, Inputs, Join, Store};

/// What a partition's compute phase made, and the pages of its updates.
#[derive(Clone, Copy, Debug, PartialEq, Eq)]
pub struct Made {
    pub part: Part,
    pub pages: u64,
}

/// The compute phase of partition `q`. The requests were started, and no sender is begun.
pub fn compute_part<P: Program, J: Join, G: Group, C: Connector, St: Store, GD: Disk, SD: Disk>(
    program: &P,
    gs: &Gs,
    bank: &mut Bank,
    store: &mut St,
    desk: &mut Desk,
    connector: &mut C,
    requests: &mut Requests,
    ins: &Inputs,
    q: u32,
    graph: &mut GD,
    scratch: &mut SD,
) -> Result<Made, Stop>
    requires bench { HasBench bank.old }
    requires few { q < 16 }
    requires sender { q < (C.view connector.old).parts }
    requires part { St.part store.old ≡ q }
    requires inputs { AreInputFiles ins.now }
    requires free { IsFree St.counted desk.old (GD.shown graph.old) }
    requires graph_len { bank.old.frame_len ≡ (GD.shown graph.old).page_len }
    requires scratch_len { bank.old.frame_len ≡ (SD.shown scratch.old).page_len }
    requires connector_len { (C.view connector.old).frame_len ≡ (SD.shown scratch.old).page_len }
    requires requests_len { requests.old.frame_len ≡ (SD.shown scratch.old).page_len }

    ensures made { (g : Graph) (m before : Pairs)
        → IsReadyToCompute (P.meaning program.now).message J.probing (St.holds store.old desk.old (GD.shown graph.old)) (SD.shown scratch.old) ins.now (Asked (SD.shown scratch.old) requests.old) g m before
        → IfOk result (λ made. HasRun (P.meaning program.now) (room_of (SD.shown scratch.old).page_len) (computed (P.meaning program.now) (moment_of gs.now) (rows_in g m))
        (Holds (SD.shown scratch.new) (update_file q) made.pages) (C.sent connector.new (SD.shown scratch.new) q) (Asked (SD.shown scratch.new) requests.new) before made.part) }
    ensures holds { OnOk result ((g : Graph) (m before : Pairs)
        → IsReadyToCompute (P.meaning program.now).message J.probing (St.holds store.old desk.old (GD.shown graph.old)) (SD.shown scratch.old) ins.now (Asked (SD.shown scratch.old) requests.old) g m before
        → St.holds store.new desk.new (GD.shown graph.new) g) }
    ensures others { OnOk result ((p : ℕ) (l : Pairs) → p < 16 → p ≢ q → C.sent connector.old (SD.shown scratch.old) p l → C.sent connector.new (SD.shown scratch.new) p l) }
    ensures few_sends { IfOk result (λ made. made.part.sends ≤ 2 ^ 40) }
    ensures few_requests { IfOk result (λ made. made.part.requests ≤ 2 ^ 40) }
    ensures small { IfOk result (λ made. made.part.contributed < 2 ^ 64) }
    ensures ok { OnOk result (Clean (IsComputeFile q) (SD.shown scratch.old) (SD.shown scratch.new)) }
    ensures done { OnOk result (IsDone St.counted q desk.old (GD.shown graph.old) desk.new (GD.shown graph.new)) }
    ensures free { OnOk result (IsFree St.counted desk.new (GD.shown graph.new)) }
    ensures err { IfErr result (StopsPhase (OrInput ins.now (IsComputeFile q))
        ((g : Graph) (m before : Pairs)
        → IsReadyToCompute (P.meaning program.now).message J.probing (St.holds store.old desk.old (GD.shown graph.old)) (SD.shown scratch.old) ins.now (Asked (SD.shown scratch.old) requests.old) g m before
        → IsTrue (is_part_beyond (P.meaning program.now) (room_of (SD.shown scratch.old).page_len) (computed (P.meaning program.now) (moment_of gs.now) (rows_in g m))))
        (GD.shown graph.old) (GD.shown graph.new) (SD.shown scratch.old) (SD.shown scratch.new)) }
    ensures part { St.part store.new ≡ St.part store.old }
    ensures desk { SameDesk desk.old desk.new }
    ensures connector { SameConnector (C.view connector.old) (C.view connector.new) }
    ensures requests { SameRequests requests.old requests.new }
    ensures bank { bank.new ≡ bank.old }
{
    let lent = lend_bench(bank);
    let mut tools = Tools::<J, G>::open(lent, q);
    let answer = compute_with(
        program, gs, &mut tools, store, desk, connector, requests, ins, q, graph, scratch,
    );
    give_bench(bank, tools.close());
    answer
}

// The same with these tools, of which nothing was used yet.
fn compute_with<P: Program, J: Join, G: Group, C: Connector, St: Store, GD: Disk, SD: Disk>(
    program: &P,
    gs: &Gs,
    tools: &mut Tools<J, G>,
    store: &mut St,
    desk: &mut Desk,
    connector: &mut C,
    requests: &mut Requests,
    ins: &Inputs,
    q: u32,
    graph: &mut GD,
    scratch: &mut SD,
) -> Result<Made, Stop>
    requires tools { AreToolsFor J.view G.made q (SD.shown scratch.old).page_len tools.old }
    requires took { (s : Shown) (rule : MergeRule) → s.tells ≡ true → s.page_len ≡ (SD.shown scratch.old).page_len → G.took s tools.old.bench.group rule [] }
    requires open { IsTrue (G.is_open tools.old.bench.group) }
    requires few { q < 16 }
    requires sender { q < (C.view connector.old).parts }
    requires part { St.part store.old ≡ q }
    requires inputs { AreInputFiles ins.now }
    requires free { IsFree St.counted desk.old (GD.shown graph.old) }
    requires graph_len { (GD.shown graph.old).page_len ≡ (SD.shown scratch.old).page_len }
    requires connector_len { (C.view connector.old).frame_len ≡ (SD.shown scratch.old).page_len }
    requires requests_len { requests.old.frame_len ≡ (SD.shown scratch.old).page_len }

    ensures made { (g : Graph) (m before : Pairs)
        → IsReadyToCompute (P.meaning program.now).message J.probing (St.holds store.old desk.old (GD.shown graph.old)) (SD.shown scratch.old) ins.now (Asked (SD.shown scratch.old) requests.old) g m before
        → IfOk result (λ made. HasRun (P.meaning program.now) (room_of (SD.shown scratch.old).page_len) (computed (P.meaning program.now) (moment_of gs.now) (rows_in g m))
        (Holds (SD.shown scratch.new) (update_file q) made.pages) (C.sent connector.new (SD.shown scratch.new) q) (Asked (SD.shown scratch.new) requests.new) before made.part) }
    ensures holds { OnOk result ((g : Graph) (m before : Pairs)
        → IsReadyToCompute (P.meaning program.now).message J.probing (St.holds store.old desk.old (GD.shown graph.old)) (SD.shown scratch.old) ins.now (Asked (SD.shown scratch.old) requests.old) g m before
        → St.holds store.new desk.new (GD.shown graph.new) g) }
    ensures others { OnOk result ((p : ℕ) (l : Pairs) → p < 16 → p ≢ q → C.sent connector.old (SD.shown scratch.old) p l → C.sent connector.new (SD.shown scratch.new) p l) }
    ensures few_sends { IfOk result (λ made. made.part.sends ≤ 2 ^ 40) }
    ensures few_requests { IfOk result (λ made. made.part.requests ≤ 2 ^ 40) }
    ensures small { IfOk result (λ made. made.part.contributed < 2 ^ 64) }
    ensures ok { OnOk result (Clean (IsComputeFile q) (SD.shown scratch.old) (SD.shown scratch.new)) }
    ensures done { OnOk result (IsDone St.counted q desk.old (GD.shown graph.old) desk.new (GD.shown graph.new)) }
    ensures free { OnOk result (IsFree St.counted desk.new (GD.shown graph.new)) }
    ensures err { IfErr result (StopsPhase (OrInput ins.now (IsComputeFile q))
        ((g : Graph) (m before : Pairs)
        → IsReadyToCompute (P.meaning program.now).message J.probing (St.holds store.old desk.old (GD.shown graph.old)) (SD.shown scratch.old) ins.now (Asked (SD.shown scratch.old) requests.old) g m before
        → IsTrue (is_part_beyond (P.meaning program.now) (room_of (SD.shown scratch.old).page_len) (computed (P.meaning program.now) (moment_of gs.now) (rows_in g m))))
        (GD.shown graph.old) (GD.shown graph.new) (SD.shown scratch.old) (SD.shown scratch.new)) }
    ensures part { St.part store.new ≡ St.part store.old }
    ensures desk { SameDesk desk.old desk.new }
    ensures connector { SameConnector (C.view connector.old) (C.view connector.new) }
    ensures requests { SameRequests requests.old requests.new }
    ensures tools { SameTools J.view G.made tools.old tools.new }
{
    tools.bench.updates.start(scratch)?;
    connector.begin(scratch, q)?;
    tools.join.start(store, desk, graph, scratch, ins)?;
    let part = run_partition(
        program,
        gs,
        &mut tools.join,
        store,
        desk,
        graph,
        scratch,
        connector,
        requests,
        &mut tools.bench,
    )?;
    store.settle(graph, desk)?;
    let pages = tools.bench.updates.pages();
    Ok(Made { part, pages })
}
