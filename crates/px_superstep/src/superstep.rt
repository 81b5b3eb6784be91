// One superstep of a job.
ghost use Rattle.std.specs.Prelude.{◌≡◌, ◌≤◌, ◌<◌, ◌⊎◌, ◌^◌, ◌%◌, ◌+◌, ℕ, suc, length, None, OnOk, OnErr, IfErr};
ghost use Rattle.px_core.specs.Shown.{Clean};
ghost use Rattle.px_cache.specs.View.{AnyFile};
ghost use Rattle.px_meaning.specs.Graph.{room_of};
ghost use Rattle.px_meaning.specs.Step.{State, step};
ghost use Rattle.px_connectors.specs.Stops.{StopsPhase};
ghost use Rattle.px_superstep.specs.Benches.{IsLent, StaysLent};
ghost use Rattle.px_superstep.specs.Files.{IsStepFile};
ghost use Rattle.px_superstep.specs.Steps.{StandsFor, StandsForNext};

use crate::compute::compute_all;
use crate::delivery::deliver_all;
use crate::settling::settle_all;
use px_connectors::{Connector, MOST_PARTS, Requests};
use px_core::{Disk, Stop, Turns};
use px_frames::Bank;
use px_global_state::{Gs, Part};
use px_mutations::Tally;
use px_program::{Group, Program};
use px_store::{Desk, Join, Store};

// The most sends, and the most requests, of a superstep.
const MOST_PAIRS: u64 = 1 << 40;

// The most vertices after one.
const MOST_VERTICES: u64 = 1 << 32;

// Too many sends, or too many requests, are beyond the limits.
fn check_pairs(total: &Part) -> Result<(), Stop>
    ensures sends { OnOk result (total.now.sends ≤ 2 ^ 40) }
    ensures requests { OnOk result (total.now.requests ≤ 2 ^ 40) }
    ensures beyond { IfErr result (λ e. e ≡ Stop.Beyond) }
    ensures many { OnErr result ((2 ^ 40 < total.now.sends) ⊎ (2 ^ 40 < total.now.requests)) }
{
    if total.sends > MOST_PAIRS || total.requests > MOST_PAIRS {
        return Err(Stop::Beyond);
    }
    Ok(())
}

// So are too many vertices.
fn check_vertices(sum: &Tally) -> Result<(), Stop>
    ensures few { OnOk result (sum.now.count ≤ 2 ^ 32) }
    ensures beyond { IfErr result (λ e. e ≡ Stop.Beyond) }
    ensures many { OnErr result (2 ^ 32 < sum.now.count) }
{
    if sum.count > MOST_VERTICES {
        return Err(Stop::Beyond);
    }
    Ok(())
}

// The parity of the next superstep.
fn parity_after(gs: &Gs) -> u32
    requires { gs.now.superstep < 2 ^ 32 }
    ensures parity { result ≡ suc gs.now.superstep % 2 }
    ensures small { result < 2 }
{
    ((gs.superstep + 1) % 2) as u32
}

/// Takes one superstep, for every order of turns: what stands for a state then stands for the next.
/// The errors are `Stop::Graph` and `Stop::Scratch`, where that disk failed, and `Stop::Beyond`, where the step is beyond the limits. After one nothing is said of what stands.
pub fn take_superstep<
    P: Program,
    J: Join,
    G: Group,
    C: Connector,
    St: Store,
    GD: Disk,
    SD: Disk,
    T: Turns,
>(
    program: &P,
    gs: &mut Gs,
    bank: &mut Bank,
    stores: &mut [St],
    desk: &mut Desk,
    connector: &mut C,
    requests: &mut Requests,
    msg_pages: &mut [u64],
    tallies: &mut [Tally],
    graph: &mut GD,
    scratch: &mut SD,
    turns: &mut T,
) -> Result<(), Stop>
    requires lent { IsLent St.counted St.part bank.old stores.old desk.old (C.view connector.old) requests.old (GD.shown graph.old) (SD.shown scratch.old) }
    requires superstep { gs.old.superstep < 2 ^ 32 }
    requires msgs { length msg_pages.old ≡ length stores.old }
    requires tallies { length tallies.old ≡ length stores.old }

    ensures stands { OnOk result ((s : State)
        → StandsFor (P.meaning program.now) (room_of (SD.shown scratch.old).page_len) J.probing (λ st l. St.holds st desk.old (GD.shown graph.old) l) stores.old (SD.shown scratch.old) msg_pages.old tallies.old gs.old s
        → StandsForNext (P.meaning program.now) (room_of (SD.shown scratch.old).page_len) J.probing (λ st l. St.holds st desk.new (GD.shown graph.new) l) stores.new (SD.shown scratch.new) msg_pages.new tallies.new gs.new s) }
    ensures number { OnOk result (gs.new.superstep ≡ gs.old.superstep + 1) }
    ensures ok { OnOk result (Clean IsStepFile (SD.shown scratch.old) (SD.shown scratch.new)) }
    ensures clean { OnOk result (Clean AnyFile (GD.shown graph.old) (GD.shown graph.new)) }
    ensures lent { OnOk result (IsLent St.counted St.part bank.new stores.new desk.new (C.view connector.new) requests.new (GD.shown graph.new) (SD.shown scratch.new)) }
    ensures err { IfErr result (StopsPhase IsStepFile
        ((s : State)
        → StandsFor (P.meaning program.now) (room_of (SD.shown scratch.old).page_len) J.probing (λ st l. St.holds st desk.old (GD.shown graph.old) l) stores.old (SD.shown scratch.old) msg_pages.old tallies.old gs.old s
        → step (P.meaning program.now) (room_of (SD.shown scratch.old).page_len) s ≡ None)
        (GD.shown graph.old) (GD.shown graph.new) (SD.shown scratch.old) (SD.shown scratch.new)) }
    ensures stays { StaysLent St.part bank.old stores.old desk.old (C.view connector.old) requests.old bank.new stores.new desk.new (C.view connector.new) requests.new }
    ensures msgs { length msg_pages.new ≡ length msg_pages.old }
    ensures tallies { length tallies.new ≡ length tallies.old }
{
    requests.start(scratch)?;
    let mut update_pages = [0u64; MOST_PARTS];
    let total = compute_all::<P, J, G, C, St, GD, SD, T>(
        program,
        gs,
        bank,
        stores,
        desk,
        connector,
        requests,
        msg_pages,
        tallies,
        &mut update_pages,
        graph,
        scratch,
        turns,
    )?;
    check_pairs(&total)?;
    requests.finish(scratch)?;
    let parity = parity_after(gs);
    deliver_all::<P, G, C, SD, T>(program, bank, connector, parity, msg_pages, scratch, turns)?;
    let sum = settle_all::<P, G, St, GD, SD>(
        program,
        bank,
        stores,
        desk,
        &update_pages,
        requests,
        tallies,
        parity,
        graph,
        scratch,
    )?;
    check_vertices(&sum)?;
    *gs = Gs {
        superstep: gs.superstep + 1,
        aggregate: total.contributed,
        live: sum.live,
        count: sum.count,
        in_flight: total.sends,
    };
    Ok(())
}
