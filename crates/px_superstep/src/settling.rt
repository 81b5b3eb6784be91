// The settling of what was computed and requested.
ghost use Rattle.std.specs.Prelude.{◌≡◌, ◌≤◌, ◌<◌, ◌+◌, ◌^◌, ℕ, length, OnOk, IfOk, IfErr, IsTrue};
ghost use Rattle.px_core.specs.Shown.{Clean};
ghost use Rattle.px_cache.specs.View.{AnyFile};
ghost use Rattle.px_meaning.specs.Graph.{Graph, room_of};
ghost use Rattle.px_meaning.specs.Merge.{Pairs};
ghost use Rattle.px_connectors.specs.Asking.{receivers, pages_of};
ghost use Rattle.px_connectors.specs.Stops.{StopsPhase};
ghost use Rattle.px_store.specs.Desks.{SameDesk};
ghost use Rattle.px_load.specs.Loading.{IsFree, AreStores};
ghost use Rattle.px_mutations.specs.Applying.{settled_after, is_settling_beyond, IsTally};
ghost use Rattle.px_superstep.specs.Benches.{HasBench};
ghost use Rattle.px_superstep.specs.Files.{vid_file, IsResultFile, IsSettlingFile, IsStepFile};
ghost use Rattle.px_superstep.specs.Steps.{SettledBelow, IsSum, IsSettlingBeyond};

use crate::applying::apply_part;
use px_connectors::Requests;
use px_core::{Disk, Stop};
use px_frames::Bank;
use px_mutations::Tally;
use px_program::{Group, Program};
use px_store::{Desk, Store};

// The settling of one of the partitions.
fn settle_at<P: Program, G: Group, St: Store, GD: Disk, SD: Disk>(
    program: &P,
    bank: &mut Bank,
    stores: &mut [St],
    desk: &mut Desk,
    update_pages: &[u64],
    requests: &Requests,
    tallies: &mut [Tally],
    parity: u32,
    q: u32,
    graph: &mut GD,
    scratch: &mut SD,
) -> Result<Tally, Stop>
    requires bench { HasBench bank.old }
    requires parts { AreStores St.part stores.old }
    requires free { IsFree St.counted desk.old (GD.shown graph.old) }
    requires graph_len { bank.old.frame_len ≡ (GD.shown graph.old).page_len }
    requires scratch_len { bank.old.frame_len ≡ (SD.shown scratch.old).page_len }
    requires at { q < length stores.old }
    requires parity { parity < 2 }
    requires pages { length update_pages.now ≡ 16 }
    requires receivers { receivers requests.now ≡ length stores.old }
    requires tallies { length tallies.old ≡ length stores.old }
    ensures next { OnOk result ((before changes : ℕ → Graph) (asked : ℕ → Pairs)
        → SettledBelow (P.meaning program.now) (room_of (SD.shown scratch.old).page_len) parity (λ st l. St.holds st desk.old (GD.shown graph.old) l) stores.old (SD.shown scratch.old) tallies.old update_pages.now (pages_of requests.now) before changes asked q
        → SettledBelow (P.meaning program.now) (room_of (SD.shown scratch.old).page_len) parity (λ st l. St.holds st desk.new (GD.shown graph.new) l) stores.new (SD.shown scratch.new) tallies.new update_pages.now (pages_of requests.now) before changes asked (q + 1)) }
    ensures tally { IfOk result (λ new. (before changes : ℕ → Graph) (asked : ℕ → Pairs)
        → SettledBelow (P.meaning program.now) (room_of (SD.shown scratch.old).page_len) parity (λ st l. St.holds st desk.old (GD.shown graph.old) l) stores.old (SD.shown scratch.old) tallies.old update_pages.now (pages_of requests.now) before changes asked q
        → IsTally new (settled_after (P.meaning program.now) (before q) (changes q) (asked q))) }
    ensures few { IfOk result (λ new. new.count ≤ 2 ^ 32) }
    ensures live { IfOk result (λ new. new.live ≤ new.count) }
    ensures ok { OnOk result (Clean (IsResultFile (vid_file parity q)) (SD.shown scratch.old) (SD.shown scratch.new)) }
    ensures clean { OnOk result (Clean AnyFile (GD.shown graph.old) (GD.shown graph.new)) }
    ensures free { OnOk result (IsFree St.counted desk.new (GD.shown graph.new)) }
    ensures err { IfErr result (StopsPhase IsStepFile
        ((before changes : ℕ → Graph) (asked : ℕ → Pairs)
        → SettledBelow (P.meaning program.now) (room_of (SD.shown scratch.old).page_len) parity (λ st l. St.holds st desk.old (GD.shown graph.old) l) stores.old (SD.shown scratch.old) tallies.old update_pages.now (pages_of requests.now) before changes asked q
        → IsTrue (is_settling_beyond (P.meaning program.now) (room_of (SD.shown scratch.old).page_len) (settled_after (P.meaning program.now) (before q) (changes q) (asked q)) (asked q)))
        (GD.shown graph.old) (GD.shown graph.new) (SD.shown scratch.old) (SD.shown scratch.new)) }
    ensures count { length stores.new ≡ length stores.old }
    ensures tallies { length tallies.new ≡ length tallies.old }
    ensures parts { AreStores St.part stores.new }
    ensures desk { SameDesk desk.old desk.new }
    ensures bank { bank.new ≡ bank.old }
{
    let at = q as usize;
    let to = 64 + 2 * q + parity;
    let tally = tallies[at];
    let store = &mut stores[at];
    let new = apply_part::<P, G, St, GD, SD>(
        program,
        bank,
        &tally,
        store,
        desk,
        update_pages[at],
        requests.pages(q),
        q,
        to,
        graph,
        scratch,
    )?;
    tallies[at] = new;
    Ok(new)
}

/// The settling of each partition, ascending, the vids going into the files of a parity. The numbers of all together are answered.
pub fn settle_all<P: Program, G: Group, St: Store, GD: Disk, SD: Disk>(
    program: &P,
    bank: &mut Bank,
    stores: &mut [St],
    desk: &mut Desk,
    update_pages: &[u64],
    requests: &Requests,
    tallies: &mut [Tally],
    parity: u32,
    graph: &mut GD,
    scratch: &mut SD,
) -> Result<Tally, Stop>
    requires bench { HasBench bank.old }
    requires parts { AreStores St.part stores.old }
    requires free { IsFree St.counted desk.old (GD.shown graph.old) }
    requires graph_len { bank.old.frame_len ≡ (GD.shown graph.old).page_len }
    requires scratch_len { bank.old.frame_len ≡ (SD.shown scratch.old).page_len }
    requires parity { parity < 2 }
    requires pages { length update_pages.now ≡ 16 }
    requires receivers { receivers requests.now ≡ length stores.old }
    requires tallies { length tallies.old ≡ length stores.old }
    ensures settled { OnOk result ((before changes : ℕ → Graph) (asked : ℕ → Pairs)
        → SettledBelow (P.meaning program.now) (room_of (SD.shown scratch.old).page_len) parity (λ st l. St.holds st desk.old (GD.shown graph.old) l) stores.old (SD.shown scratch.old) tallies.old update_pages.now (pages_of requests.now) before changes asked 0
        → SettledBelow (P.meaning program.now) (room_of (SD.shown scratch.old).page_len) parity (λ st l. St.holds st desk.new (GD.shown graph.new) l) stores.new (SD.shown scratch.new) tallies.new update_pages.now (pages_of requests.now) before changes asked (length stores.old)) }
    ensures sum { IfOk result (λ sum. (before changes : ℕ → Graph) (asked : ℕ → Pairs)
        → SettledBelow (P.meaning program.now) (room_of (SD.shown scratch.old).page_len) parity (λ st l. St.holds st desk.old (GD.shown graph.old) l) stores.old (SD.shown scratch.old) tallies.old update_pages.now (pages_of requests.now) before changes asked 0
        → IsSum (length stores.old) (λ q. settled_after (P.meaning program.now) (before q) (changes q) (asked q)) sum) }
    ensures ok { OnOk result (Clean IsSettlingFile (SD.shown scratch.old) (SD.shown scratch.new)) }
    ensures clean { OnOk result (Clean AnyFile (GD.shown graph.old) (GD.shown graph.new)) }
    ensures free { OnOk result (IsFree St.counted desk.new (GD.shown graph.new)) }
    ensures err { IfErr result (StopsPhase IsStepFile
        ((before changes : ℕ → Graph) (asked : ℕ → Pairs)
        → SettledBelow (P.meaning program.now) (room_of (SD.shown scratch.old).page_len) parity (λ st l. St.holds st desk.old (GD.shown graph.old) l) stores.old (SD.shown scratch.old) tallies.old update_pages.now (pages_of requests.now) before changes asked 0
        → IsSettlingBeyond (P.meaning program.now) (room_of (SD.shown scratch.old).page_len) (λ q. settled_after (P.meaning program.now) (before q) (changes q) (asked q)) asked)
        (GD.shown graph.old) (GD.shown graph.new) (SD.shown scratch.old) (SD.shown scratch.new)) }
    ensures count { length stores.new ≡ length stores.old }
    ensures tallies { length tallies.new ≡ length tallies.old }
    ensures parts { AreStores St.part stores.new }
    ensures desk { SameDesk desk.old desk.new }
    ensures bank { bank.new ≡ bank.old }
{
    let mut sum = Tally {
        count: 0,
        live: 0,
        vid_pages: 0,
    };
    for q in 0..stores.len() as u32 {
        let new = settle_at::<P, G, St, GD, SD>(
            program,
            bank,
            stores,
            desk,
            update_pages,
            requests,
            tallies,
            parity,
            q,
            graph,
            scratch,
        )?;
        sum.count += new.count;
        sum.live += new.live;
    }
    Ok(sum)
}
