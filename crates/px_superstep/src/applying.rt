// The settling of one partition. The call opens what it needs from the bank and gives all frames back, whatever is answered.
ghost use Rattle.std.specs.Prelude.{◌≡◌, ◌≤◌, ◌<◌, ◌^◌, [], ℕ, true, OnOk, IfOk, IfErr, IsTrue};
ghost use Rattle.px_core.specs.Shown.{Shown, Clean};
ghost use Rattle.px_meaning.specs.Graph.{Graph, room_of};
ghost use Rattle.px_meaning.specs.Merge.{MergeRule, Pairs};
ghost use Rattle.px_connectors.specs.Stops.{StopsPhase};
ghost use Rattle.px_store.specs.Desks.{IsDone, SameDesk};
ghost use Rattle.px_load.specs.Loading.{IsFree};
ghost use Rattle.px_mutations.specs.Applying.{settled_after, is_settling_beyond, IsReadyToSettle};
ghost use Rattle.px_superstep.specs.Benches.{HasBench};
ghost use Rattle.px_superstep.specs.Files.{IsVidFile, IsResultFile, IsStepFile};
ghost use Rattle.px_superstep.specs.Lending.{IsEnough};
ghost use Rattle.px_superstep.specs.SettleTooling.{AreSettleTools, AreSettleToolsFor, SameSettleTools, CanCloseSettle, IsSettleClosed};
ghost use Rattle.px_superstep.specs.Steps.{CanSettle, IsSettled};

use crate::benches::{Lent, give_bench, lend_bench};
use crate::tools::{FIRST_UPDATES, GROUP, OTHER_GROUP, payload_in, vertex_in};
use px_core::{Disk, Stop};
use px_frames::{Bank, Buf, Share};
use px_mutations::{Tally, apply};
use px_program::{Group, Program};
use px_record::VertexBuf;
use px_store::{Desk, Store};
use px_stream::{Reader, Writer};

// The file of the requests to partition 0.
const FIRST_REQUESTS: u32 = 160;

/// A group, the readers of updates and requests, a writer of vids and four buffers, and what is left of the shares that they were made of.
#[derive(Drop)]
pub(crate) struct SettleTools<G: Group> {
    pub group: G,
    pub updates: Reader,
    pub requests: Reader,
    pub vids: Writer,
    pub first: VertexBuf,
    pub second: VertexBuf,
    pub verdict: Buf,
    pub spare: Buf,
    pub work: Share,
    pub join: Share,
    pub streams: Share,
}

impl<G: Group> SettleTools<G> {
    /// Opens what partition `q` is settled with, its vids going into the file `to`. The readers are to be started, and the writer. The group took nothing.
    fn open(lent: Lent, q: u32, to: u32) -> SettleTools<G>
        requires enough { IsEnough lent }
        requires few { q < 16 }
        ensures tools { AreSettleTools G.made q to lent result }
        ensures open { IsTrue (G.is_open result.group) }
        ensures took { (s : Shown) (rule : MergeRule) → s.tells ≡ true → s.page_len ≡ lent.work.frame_len → G.took s result.group rule [] }
    {
        let Lent {
            mut work,
            join,
            mut streams,
            group,
            table,
        } = lent;
        SettleTools {
            group: G::open(group, table, GROUP, OTHER_GROUP),
            updates: Reader::new(streams.take(), FIRST_UPDATES + q),
            requests: Reader::new(streams.take(), FIRST_REQUESTS + q),
            vids: Writer::new(streams.take(), to),
            first: vertex_in(work.take()),
            second: vertex_in(work.take()),
            verdict: payload_in(work.take()),
            spare: payload_in(work.take()),
            work,
            join,
            streams,
        }
    }

    /// All that they were made of.
    fn close(self) -> Lent
        requires { CanCloseSettle self }
        ensures { IsSettleClosed G.made self result }
    {
        let SettleTools {
            group,
            updates,
            requests,
            vids,
            first,
            second,
            verdict,
            spare,
            mut work,
            join,
            mut streams,
        } = self;
        let (group, table) = group.close();
        work.put(spare.close());
        work.put(verdict.close());
        work.put(second.close());
        work.put(first.close());
        streams.put(vids.close());
        streams.put(requests.close());
        streams.put(updates.close());
        Lent {
            work,
            join,
            streams,
            group,
            table,
        }
    }
}

/// The settling of partition `q`, its vids going into a file. Its new numbers are answered.
pub(crate) fn apply_part<P: Program, G: Group, St: Store, GD: Disk, SD: Disk>(
    program: &P,
    bank: &mut Bank,
    tally: &Tally,
    store: &mut St,
    desk: &mut Desk,
    update_pages: u64,
    request_pages: u64,
    q: u32,
    to: u32,
    graph: &mut GD,
    scratch: &mut SD,
) -> Result<Tally, Stop>
    requires bench { HasBench bank.old }
    requires few { q < 16 }
    requires part { St.part store.old ≡ q }
    requires to { IsVidFile to }
    requires free { IsFree St.counted desk.old (GD.shown graph.old) }
    requires graph_len { bank.old.frame_len ≡ (GD.shown graph.old).page_len }
    requires scratch_len { bank.old.frame_len ≡ (SD.shown scratch.old).page_len }
    ensures settled { IfOk result (λ new. (g c : Graph) (asked : Pairs)
        → IsReadyToSettle (P.meaning program.now) (room_of (SD.shown scratch.old).page_len) tally.now g c asked
        → CanSettle (St.holds store.old desk.old (GD.shown graph.old)) (SD.shown scratch.old) q update_pages request_pages g c asked
        → IsSettled (P.meaning program.now) (room_of (SD.shown scratch.old).page_len) (SD.shown scratch.new) to new (settled_after (P.meaning program.now) g c asked) asked) }
    ensures holds { OnOk result ((g c : Graph) (asked : Pairs)
        → IsReadyToSettle (P.meaning program.now) (room_of (SD.shown scratch.old).page_len) tally.now g c asked
        → CanSettle (St.holds store.old desk.old (GD.shown graph.old)) (SD.shown scratch.old) q update_pages request_pages g c asked
        → St.holds store.new desk.new (GD.shown graph.new) (settled_after (P.meaning program.now) g c asked)) }
    ensures few { IfOk result (λ new. new.count ≤ 2 ^ 32) }
    ensures live { IfOk result (λ new. new.live ≤ new.count) }
    ensures ok { OnOk result (Clean (IsResultFile to) (SD.shown scratch.old) (SD.shown scratch.new)) }
    ensures done { OnOk result (IsDone St.counted q desk.old (GD.shown graph.old) desk.new (GD.shown graph.new)) }
    ensures free { OnOk result (IsFree St.counted desk.new (GD.shown graph.new)) }
    ensures err { IfErr result (StopsPhase IsStepFile
        ((g c : Graph) (asked : Pairs)
        → IsReadyToSettle (P.meaning program.now) (room_of (SD.shown scratch.old).page_len) tally.now g c asked
        → CanSettle (St.holds store.old desk.old (GD.shown graph.old)) (SD.shown scratch.old) q update_pages request_pages g c asked
        → IsTrue (is_settling_beyond (P.meaning program.now) (room_of (SD.shown scratch.old).page_len) (settled_after (P.meaning program.now) g c asked) asked))
        (GD.shown graph.old) (GD.shown graph.new) (SD.shown scratch.old) (SD.shown scratch.new)) }
    ensures part { St.part store.new ≡ St.part store.old }
    ensures desk { SameDesk desk.old desk.new }
    ensures bank { bank.new ≡ bank.old }
{
    let lent = lend_bench(bank);
    let mut tools = SettleTools::<G>::open(lent, q, to);
    let answer = apply_with(
        program,
        &mut tools,
        tally,
        store,
        desk,
        update_pages,
        request_pages,
        q,
        to,
        graph,
        scratch,
    );
    give_bench(bank, tools.close());
    answer
}

// The same with these tools, of which nothing was used yet.
fn apply_with<P: Program, G: Group, St: Store, GD: Disk, SD: Disk>(
    program: &P,
    tools: &mut SettleTools<G>,
    tally: &Tally,
    store: &mut St,
    desk: &mut Desk,
    update_pages: u64,
    request_pages: u64,
    q: u32,
    to: u32,
    graph: &mut GD,
    scratch: &mut SD,
) -> Result<Tally, Stop>
    requires tools { AreSettleToolsFor G.made q to (SD.shown scratch.old).page_len tools.old }
    requires took { (s : Shown) (rule : MergeRule) → s.tells ≡ true → s.page_len ≡ (SD.shown scratch.old).page_len → G.took s tools.old.group rule [] }
    requires open { IsTrue (G.is_open tools.old.group) }
    requires few { q < 16 }
    requires part { St.part store.old ≡ q }
    requires to { IsVidFile to }
    requires free { IsFree St.counted desk.old (GD.shown graph.old) }
    requires graph_len { (GD.shown graph.old).page_len ≡ (SD.shown scratch.old).page_len }
    ensures settled { IfOk result (λ new. (g c : Graph) (asked : Pairs)
        → IsReadyToSettle (P.meaning program.now) (room_of (SD.shown scratch.old).page_len) tally.now g c asked
        → CanSettle (St.holds store.old desk.old (GD.shown graph.old)) (SD.shown scratch.old) q update_pages request_pages g c asked
        → IsSettled (P.meaning program.now) (room_of (SD.shown scratch.old).page_len) (SD.shown scratch.new) to new (settled_after (P.meaning program.now) g c asked) asked) }
    ensures holds { OnOk result ((g c : Graph) (asked : Pairs)
        → IsReadyToSettle (P.meaning program.now) (room_of (SD.shown scratch.old).page_len) tally.now g c asked
        → CanSettle (St.holds store.old desk.old (GD.shown graph.old)) (SD.shown scratch.old) q update_pages request_pages g c asked
        → St.holds store.new desk.new (GD.shown graph.new) (settled_after (P.meaning program.now) g c asked)) }
    ensures few { IfOk result (λ new. new.count ≤ 2 ^ 32) }
    ensures live { IfOk result (λ new. new.live ≤ new.count) }
    ensures ok { OnOk result (Clean (IsResultFile to) (SD.shown scratch.old) (SD.shown scratch.new)) }
    ensures done { OnOk result (IsDone St.counted q desk.old (GD.shown graph.old) desk.new (GD.shown graph.new)) }
    ensures free { OnOk result (IsFree St.counted desk.new (GD.shown graph.new)) }
    ensures err { IfErr result (StopsPhase IsStepFile
        ((g c : Graph) (asked : Pairs)
        → IsReadyToSettle (P.meaning program.now) (room_of (SD.shown scratch.old).page_len) tally.now g c asked
        → CanSettle (St.holds store.old desk.old (GD.shown graph.old)) (SD.shown scratch.old) q update_pages request_pages g c asked
        → IsTrue (is_settling_beyond (P.meaning program.now) (room_of (SD.shown scratch.old).page_len) (settled_after (P.meaning program.now) g c asked) asked))
        (GD.shown graph.old) (GD.shown graph.new) (SD.shown scratch.old) (SD.shown scratch.new)) }
    ensures part { St.part store.new ≡ St.part store.old }
    ensures desk { SameDesk desk.old desk.new }
    ensures tools { SameSettleTools G.made tools.old tools.new }
{
    tools.updates.start(update_pages);
    tools.requests.start(request_pages);
    tools.vids.start(scratch)?;
    let new = apply(
        program,
        tally,
        store,
        desk,
        graph,
        scratch,
        &mut tools.updates,
        &mut tools.requests,
        &mut tools.vids,
        &mut tools.group,
        &mut tools.first,
        &mut tools.second,
        &mut tools.verdict,
        &mut tools.spare,
    )?;
    store.settle(graph, desk)?;
    Ok(new)
}
