// The compute phases of a superstep.
ghost use Rattle.std.specs.Prelude.{◌≡◌, ◌≢◌, ◌≤◌, ◌<◌, ◌+◌, ◌%◌, ◌++◌, ◌∷◌, [], ◌^◌, ℕ, List, length, slice_get, Some, OnOk, IfOk, IfErr, IsTrue};
ghost use Rattle.std.specs.Int.{bit_at};
ghost use Rattle.px_core.specs.Bits.{IsBit};
ghost use Rattle.px_core.specs.Shown.{Clean};
ghost use Rattle.px_cache.specs.View.{AnyFile};
ghost use Rattle.px_meaning.specs.Graph.{room_of};
ghost use Rattle.px_meaning.specs.Step.{State};
ghost use Rattle.px_connectors.specs.Asking.{Asked};
ghost use Rattle.px_connectors.specs.Stops.{StopsPhase};
ghost use Rattle.px_compute_op.specs.Phase.{IsPart, is_part_beyond};
ghost use Rattle.px_superstep.specs.Benches.{IsLent, StaysLent};
ghost use Rattle.px_mutations.specs.declared.applying.Tally.{Tally as TallyOf};
ghost use Rattle.px_superstep.specs.Files.{msg_file, vid_file, IsComputeFile, IsStepFile};
ghost use Rattle.px_superstep.specs.Parting.{times};
ghost use Rattle.px_superstep.specs.Partial.{computed_at};
ghost use Rattle.px_superstep.specs.Phases.{HasComputed, IsPhaseBeyond};
ghost use Rattle.px_superstep.specs.Steps.{StandsFor, StandsMidway};

use crate::parts::compute_part;
use px_connectors::{Connector, Requests};
use px_core::{Disk, Stop, Turns};
use px_frames::Bank;
use px_global_state::{Gs, Part, join_parts, no_part};
use px_mutations::Tally;
use px_program::{Group, Program};
use px_store::{Desk, Inputs, Join, Store};

// What the join of a partition reads.
fn inputs(gs: &Gs, q: u32, msg_pages: &[u64], tallies: &[Tally]) -> Inputs
    requires few { q < 16 }
    requires msgs { q < length msg_pages.now }
    requires tallies { q < length tallies.now }
    ensures msg_file { result.msg_file ≡ msg_file (gs.now.superstep % 2) q }
    ensures msg_pages { slice_get msg_pages.now q ≡ Some result.msg_pages }
    ensures vid_file { result.vid_file ≡ vid_file (gs.now.superstep % 2) q }
    ensures vid_pages { (tally : TallyOf) → slice_get tallies.now q ≡ Some tally → result.vid_pages ≡ tally.vid_pages }
{
    let parity = (gs.superstep % 2) as u32;
    Inputs {
        msg_file: 16 + 2 * q + parity,
        msg_pages: msg_pages[q as usize],
        vid_file: 64 + 2 * q + parity,
        vid_pages: tallies[q as usize].vid_pages,
    }
}

// The compute phase of one of the partitions.
fn compute_at<P: Program, J: Join, G: Group, C: Connector, St: Store, GD: Disk, SD: Disk>(
    program: &P,
    gs: &Gs,
    bank: &mut Bank,
    stores: &mut [St],
    desk: &mut Desk,
    connector: &mut C,
    requests: &mut Requests,
    msg_pages: &[u64],
    tallies: &[Tally],
    update_pages: &mut [u64],
    q: u32,
    graph: &mut GD,
    scratch: &mut SD,
) -> Result<Part, Stop>
    requires lent { IsLent St.counted St.part bank.old stores.old desk.old (C.view connector.old) requests.old (GD.shown graph.old) (SD.shown scratch.old) }
    requires at { q < length stores.old }
    requires msgs { length msg_pages.now ≡ length stores.old }
    requires tallies { length tallies.now ≡ length stores.old }
    requires pages { length update_pages.old ≡ 16 }

    ensures next { OnOk result ((s : State) (done : List ℕ)
        → StandsMidway (P.meaning program.now) (room_of (SD.shown scratch.old).page_len) J.probing (λ st l. St.holds st desk.old (GD.shown graph.old) l) stores.old (SD.shown scratch.old) msg_pages.now tallies.now gs.now (C.sent connector.old (SD.shown scratch.old)) (Asked (SD.shown scratch.old) requests.old) update_pages.old s done
        → times q done ≡ 0
        → StandsMidway (P.meaning program.now) (room_of (SD.shown scratch.old).page_len) J.probing (λ st l. St.holds st desk.new (GD.shown graph.new) l) stores.new (SD.shown scratch.new) msg_pages.now tallies.now gs.now (C.sent connector.new (SD.shown scratch.new)) (Asked (SD.shown scratch.new) requests.new) update_pages.new s (done ++ q ∷ [])) }
    ensures part { IfOk result (λ part. (s : State) (done : List ℕ)
        → StandsMidway (P.meaning program.now) (room_of (SD.shown scratch.old).page_len) J.probing (λ st l. St.holds st desk.old (GD.shown graph.old) l) stores.old (SD.shown scratch.old) msg_pages.now tallies.now gs.now (C.sent connector.old (SD.shown scratch.old)) (Asked (SD.shown scratch.old) requests.old) update_pages.old s done
        → IsPart (P.meaning program.now) (computed_at (P.meaning program.now) (length stores.old) s q) part) }
    ensures few_sends { IfOk result (λ part. part.sends ≤ 2 ^ 40) }
    ensures few_requests { IfOk result (λ part. part.requests ≤ 2 ^ 40) }
    ensures ok { OnOk result (Clean (IsComputeFile q) (SD.shown scratch.old) (SD.shown scratch.new)) }
    ensures clean { OnOk result (Clean AnyFile (GD.shown graph.old) (GD.shown graph.new)) }
    ensures lent { OnOk result (IsLent St.counted St.part bank.new stores.new desk.new (C.view connector.new) requests.new (GD.shown graph.new) (SD.shown scratch.new)) }
    ensures err { IfErr result (StopsPhase IsStepFile
        ((s : State) (done : List ℕ)
        → StandsMidway (P.meaning program.now) (room_of (SD.shown scratch.old).page_len) J.probing (λ st l. St.holds st desk.old (GD.shown graph.old) l) stores.old (SD.shown scratch.old) msg_pages.now tallies.now gs.now (C.sent connector.old (SD.shown scratch.old)) (Asked (SD.shown scratch.old) requests.old) update_pages.old s done
        → IsTrue (is_part_beyond (P.meaning program.now) (room_of (SD.shown scratch.old).page_len) (computed_at (P.meaning program.now) (length stores.old) s q)))
        (GD.shown graph.old) (GD.shown graph.new) (SD.shown scratch.old) (SD.shown scratch.new)) }
    ensures stays { StaysLent St.part bank.old stores.old desk.old (C.view connector.old) requests.old bank.new stores.new desk.new (C.view connector.new) requests.new }
    ensures pages { length update_pages.new ≡ 16 }
{
    let at = q as usize;
    let ins = inputs(gs, q, msg_pages, tallies);
    let store = &mut stores[at];
    let made = compute_part::<P, J, G, C, St, GD, SD>(
        program, gs, bank, store, desk, connector, requests, &ins, q, graph, scratch,
    )?;
    update_pages[at] = made.pages;
    Ok(made.part)
}

// The number of which so many of the lowest bits are set.
fn all_ready(parts: u32) -> u32
    requires { parts ≤ 16 }
    ensures set { (k : ℕ) → k < parts → bit_at result k ≡ 1 }
    ensures clear { (k : ℕ) → parts ≤ k → bit_at result k ≡ 0 }
{
    (1 << parts) - 1
}

// The number without one of its bits.
fn without(ready: u32, q: u32) -> u32
    requires { IsBit ready q }
    ensures cleared { bit_at result q ≡ 0 }
    ensures others { (k : ℕ) → k < 32 → k ≢ q → bit_at result k ≡ bit_at ready k }
{
    ready & !(1 << q)
}

/// All compute phases of a superstep, each partition once, in the order that the turns pick. The requests were started.
pub fn compute_all<
    P: Program,
    J: Join,
    G: Group,
    C: Connector,
    St: Store,
    GD: Disk,
    SD: Disk,
    T: Turns,
>(
    program: &P,
    gs: &Gs,
    bank: &mut Bank,
    stores: &mut [St],
    desk: &mut Desk,
    connector: &mut C,
    requests: &mut Requests,
    msg_pages: &[u64],
    tallies: &[Tally],
    update_pages: &mut [u64],
    graph: &mut GD,
    scratch: &mut SD,
    turns: &mut T,
) -> Result<Part, Stop>
    requires lent { IsLent St.counted St.part bank.old stores.old desk.old (C.view connector.old) requests.old (GD.shown graph.old) (SD.shown scratch.old) }
    requires msgs { length msg_pages.now ≡ length stores.old }
    requires tallies { length tallies.now ≡ length stores.old }
    requires pages { length update_pages.old ≡ 16 }

    ensures computed { IfOk result (λ total. (s : State)
        → StandsFor (P.meaning program.now) (room_of (SD.shown scratch.old).page_len) J.probing (λ st l. St.holds st desk.old (GD.shown graph.old) l) stores.old (SD.shown scratch.old) msg_pages.now tallies.now gs.now s
        → Asked (SD.shown scratch.old) requests.old []
        → HasComputed (P.meaning program.now) (length stores.old) s (StandsMidway (P.meaning program.now) (room_of (SD.shown scratch.old).page_len) J.probing (λ st l. St.holds st desk.new (GD.shown graph.new) l) stores.new (SD.shown scratch.new) msg_pages.now tallies.now gs.now (C.sent connector.new (SD.shown scratch.new)) (Asked (SD.shown scratch.new) requests.new) update_pages.new s) total) }
    ensures small { IfOk result (λ total. total.contributed < 2 ^ 64) }
    ensures ok { OnOk result (Clean IsStepFile (SD.shown scratch.old) (SD.shown scratch.new)) }
    ensures clean { OnOk result (Clean AnyFile (GD.shown graph.old) (GD.shown graph.new)) }
    ensures lent { OnOk result (IsLent St.counted St.part bank.new stores.new desk.new (C.view connector.new) requests.new (GD.shown graph.new) (SD.shown scratch.new)) }
    ensures err { IfErr result (StopsPhase IsStepFile
        ((s : State)
        → StandsFor (P.meaning program.now) (room_of (SD.shown scratch.old).page_len) J.probing (λ st l. St.holds st desk.old (GD.shown graph.old) l) stores.old (SD.shown scratch.old) msg_pages.now tallies.now gs.now s
        → Asked (SD.shown scratch.old) requests.old []
        → IsPhaseBeyond (P.meaning program.now) (room_of (SD.shown scratch.old).page_len) (length stores.old) s)
        (GD.shown graph.old) (GD.shown graph.new) (SD.shown scratch.old) (SD.shown scratch.new)) }
    ensures stays { StaysLent St.part bank.old stores.old desk.old (C.view connector.old) requests.old bank.new stores.new desk.new (C.view connector.new) requests.new }
    ensures pages { length update_pages.new ≡ 16 }
{
    let parts = stores.len() as u32;
    let mut ready = all_ready(parts);
    let mut total = no_part(program);
    for _ in 0..parts {
        let q = turns.pick(ready);
        let part = compute_at::<P, J, G, C, St, GD, SD>(
            program,
            gs,
            bank,
            stores,
            desk,
            connector,
            requests,
            msg_pages,
            tallies,
            update_pages,
            q,
            graph,
            scratch,
        )?;
        total = join_parts(program, &total, &part);
        ready = without(ready, q);
    }
    Ok(total)
}
