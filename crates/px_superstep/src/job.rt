// A job between two supersteps.
ghost use Rattle.std.specs.Prelude.{◌≡◌, ◌≤◌, ◌<◌, ◌+◌, ◌++◌, ◌^◌, [], ℕ, List, true, false, length, map, take, None, OnOk, IfOk, IfErr};
ghost use Rattle.px_core.specs.Shown.{Clean};
ghost use Rattle.px_frames.specs.Banks.{size_of};
ghost use Rattle.px_cache.specs.View.{AnyFile};
ghost use Rattle.px_meaning.specs.Graph.{room_of};
ghost use Rattle.px_meaning.specs.Step.{State, step};
ghost use Rattle.px_connectors.specs.Stops.{StopsPhase};
ghost use Rattle.px_store.specs.Desks.{SameDesk};
ghost use Rattle.px_load.specs.Dumping.{DumpStops, IsDumpFile, SomeOf, dumped};
ghost use Rattle.px_meaning.specs.GraphText.{graph_of};
ghost use Rattle.px_load.specs.Frames.{AreLoadFrames, SameLoadFrames};
ghost use Rattle.px_load.specs.Loading.{IsFree, AreStores};
ghost use Rattle.px_load.specs.Stops.{Stops, HasGoodLines, IsLineRefusal, IsRefusal, IsAfterText, IsLoadFile};
ghost use Rattle.px_superstep.specs.Jobs.{IsJob, JobStands, JobStandsNext, AreLoaded, AreNoMessages, StandsForText};
ghost use Rattle.px_superstep.specs.Benches.{IsLent, StaysLent};
ghost use Rattle.px_superstep.specs.Files.{IsStepFile};
ghost use Rattle.px_superstep.specs.Steps.{StandsFor, StandsForNext};
ghost use Rattle.px_superstep.specs.Plans.{IsBank};

use crate::counting::{NO_TALLY, count_all};
use crate::load_tools::{give_load, lend_load};
use crate::superstep::take_superstep;
use px_cache::Cache;
use px_connectors::{Connector, MOST_PARTS, Requests};
use px_core::{Disk, Sink, Source, Stop, Turns};
use px_frames::Bank;
use px_global_state::Gs;
use px_load::{DumpStop, LoadFrames, LoadStop, dump, load};
use px_mutations::Tally;
use px_program::{Group, Program};
use px_store::{Desk, Join, Store};
use std::alloc::{AllocError, Global};
use std::marker::PhantomData;

// The most bytes of a text.
const MOST_TEXT: u64 = 1 << 48;

// The slots of a superstep's connector and requests.
const MESSAGES: u32 = 3;

const REQUESTS: u32 = 4;

// The slots of the desk.
const CACHE: u32 = 6;

const LSM: u32 = 7;

/// A program's run over a graph: its vertices in a store for each partition, its numbers, and the bank that all work is done with.
/// `load` comes first, and once. After an error nothing is said of the job's content, and it can only be let go.
#[derive(Drop)]
pub struct Job<P: Program, J: Join, G: Group, C: Connector, St: Store> {
    program: P,
    bank: Bank,
    desk: Desk,
    stores: Vec<St>,
    gs: Gs,
    msg_pages: [u64; MOST_PARTS],
    tallies: [Tally; MOST_PARTS],
    join: PhantomData<J>,
    group: PhantomData<G>,
    connector: PhantomData<C>,
}

// A store for each partition.
fn open_stores<St: Store>(alloc: Global, partitions: u32) -> Result<Vec<St>, AllocError>
    requires some { 1 ≤ partitions }
    requires most { partitions ≤ 16 }
    ensures count { IfOk result (λ v. length v.items ≡ partitions) }
    ensures stores { IfOk result (λ v. AreStores St.part v.items) }
{
    let mut stores = Vec::with_capacity(alloc, partitions as usize)?;
    for q in 0..partitions {
        stores.push(St::open(q))?;
    }
    Ok(stores)
}

// Loads a text, and counts what is loaded.
fn load_with<P: Program, R: Source, St: Store, GD: Disk, SD: Disk>(
    program: &P,
    source: &mut R,
    frames: &mut LoadFrames,
    stores: &mut [St],
    tallies: &mut [Tally; MOST_PARTS],
    desk: &mut Desk,
    graph: &mut GD,
    scratch: &mut SD,
) -> Result<Gs, LoadStop>
    requires frames { AreLoadFrames frames.old (length stores.old) (SD.shown scratch.old).page_len }
    requires pages { (GD.shown graph.old).page_len ≡ (SD.shown scratch.old).page_len }
    requires parts { AreStores St.part stores.old }
    requires free { IsFree St.counted desk.old (GD.shown graph.old) }
    ensures loaded { IfOk result (λ gs. (bytes : List ℕ) → R.left source.old bytes → (SD.shown scratch.old).tells ≡ true → (GD.shown graph.old).tells ≡ true
        → AreLoaded (graph_of bytes (room_of (GD.shown graph.old).page_len) (2 ^ 48)) (λ st g. St.holds st desk.new (GD.shown graph.new) g) stores.new tallies.new gs.count) }
    ensures gs { IfOk result (λ gs. gs ≡ record { superstep = 0; aggregate = (P.meaning program.now).unit; live = gs.count; count = gs.count; in_flight = 0 }) }
    ensures good_lines { OnOk result ((bytes : List ℕ) → R.left source.old bytes → HasGoodLines (graph_of bytes (room_of (GD.shown graph.old).page_len) (2 ^ 48))) }
    ensures refused_line { IfErr result (λ e. (bytes : List ℕ) → R.left source.old bytes → IsLineRefusal (graph_of bytes (room_of (GD.shown graph.old).page_len) (2 ^ 48)) e) }
    ensures refused { IfErr result (λ e. (bytes : List ℕ) → R.left source.old bytes → (SD.shown scratch.old).tells ≡ true → (GD.shown graph.old).tells ≡ true → IsRefusal (graph_of bytes (room_of (GD.shown graph.old).page_len) (2 ^ 48)) e) }
    ensures read { OnOk result ((bytes : List ℕ) → R.left source.old bytes → R.left source.new []) }
    ensures read_whole { IfErr result (λ e. IsAfterText e → (bytes : List ℕ) → R.left source.old bytes → R.left source.new []) }
    ensures count { length stores.new ≡ length stores.old }
    ensures parts { AreStores St.part stores.new }
    ensures desk { SameDesk desk.old desk.new }
    ensures free { OnOk result (IsFree St.counted desk.new (GD.shown graph.new)) }
    ensures frames { SameLoadFrames frames.old frames.new }
    ensures clean { OnOk result (Clean AnyFile (GD.shown graph.old) (GD.shown graph.new)) }
    ensures scratch { OnOk result (Clean IsLoadFile (SD.shown scratch.old) (SD.shown scratch.new)) }
    ensures no_fault { OnOk result (R.faults source.new ≡ R.faults source.old) }
    ensures err { IfErr result (Stops (R.faults source.old) (R.faults source.new) (GD.shown graph.old) (GD.shown graph.new) (SD.shown scratch.old) (SD.shown scratch.new)) }
{
    let count = load(source, MOST_TEXT, frames, stores, desk, graph, scratch)?;
    count_all(stores, tallies, desk, graph, &mut frames.vertex)?;
    Ok(Gs::first(program.unit(), count))
}

// The number of vertices, as a number of 64 bits.
fn count_of(gs: &Gs) -> u64
    ensures { result ≡ gs.now.count }
{
    gs.count
}

// Takes a superstep of the partitions that there are, which have the first places of both slices.
fn superstep_with<
    P: Program,
    J: Join,
    G: Group,
    C: Connector,
    St: Store,
    GD: Disk,
    SD: Disk,
    T: Turns,
>(
    program: &P,
    gs: &mut Gs,
    bank: &mut Bank,
    stores: &mut [St],
    desk: &mut Desk,
    connector: &mut C,
    requests: &mut Requests,
    msg_pages: &mut [u64],
    tallies: &mut [Tally],
    graph: &mut GD,
    scratch: &mut SD,
    turns: &mut T,
) -> Result<(), Stop>
    requires lent { IsLent St.counted St.part bank.old stores.old desk.old (C.view connector.old) requests.old (GD.shown graph.old) (SD.shown scratch.old) }
    requires superstep { gs.old.superstep < 2 ^ 32 }
    requires msgs { length msg_pages.old ≡ 16 }
    requires tallies { length tallies.old ≡ 16 }

    ensures stands { OnOk result ((s : State)
        → StandsFor (P.meaning program.now) (room_of (SD.shown scratch.old).page_len) J.probing (λ st l. St.holds st desk.old (GD.shown graph.old) l) stores.old (SD.shown scratch.old) (take (length stores.old) msg_pages.old) (take (length stores.old) tallies.old) gs.old s
        → StandsForNext (P.meaning program.now) (room_of (SD.shown scratch.old).page_len) J.probing (λ st l. St.holds st desk.new (GD.shown graph.new) l) stores.new (SD.shown scratch.new) (take (length stores.old) msg_pages.new) (take (length stores.old) tallies.new) gs.new s) }
    ensures number { OnOk result (gs.new.superstep ≡ gs.old.superstep + 1) }
    ensures ok { OnOk result (Clean IsStepFile (SD.shown scratch.old) (SD.shown scratch.new)) }
    ensures clean { OnOk result (Clean AnyFile (GD.shown graph.old) (GD.shown graph.new)) }
    ensures lent { OnOk result (IsLent St.counted St.part bank.new stores.new desk.new (C.view connector.new) requests.new (GD.shown graph.new) (SD.shown scratch.new)) }
    ensures err { IfErr result (StopsPhase IsStepFile
        ((s : State)
        → StandsFor (P.meaning program.now) (room_of (SD.shown scratch.old).page_len) J.probing (λ st l. St.holds st desk.old (GD.shown graph.old) l) stores.old (SD.shown scratch.old) (take (length stores.old) msg_pages.old) (take (length stores.old) tallies.old) gs.old s
        → step (P.meaning program.now) (room_of (SD.shown scratch.old).page_len) s ≡ None)
        (GD.shown graph.old) (GD.shown graph.new) (SD.shown scratch.old) (SD.shown scratch.new)) }
    ensures stays { StaysLent St.part bank.old stores.old desk.old (C.view connector.old) requests.old bank.new stores.new desk.new (C.view connector.new) requests.new }
    ensures msgs { length msg_pages.new ≡ 16 }
    ensures tallies { length tallies.new ≡ 16 }
{
    let parts = stores.len();
    take_superstep::<P, J, G, C, St, GD, SD, T>(
        program,
        gs,
        bank,
        stores,
        desk,
        connector,
        requests,
        &mut msg_pages[..parts],
        &mut tallies[..parts],
        graph,
        scratch,
        turns,
    )
}

impl<P: Program, J: Join, G: Group, C: Connector, St: Store> Job<P, J, G, C, St> {
    /// A job of so many partitions, to be loaded. The only error is want of memory.
    pub fn open(alloc: Global, program: P, partitions: u32, bank: Bank) -> Result<Self, AllocError>
        requires some { 1 ≤ partitions }
        requires most { partitions ≤ 16 }
        requires bank { IsBank partitions true true bank }
        requires cache { 4 ≤ size_of bank 6 }
        requires lsm { St.counted ≡ false → 10 ≤ size_of bank 7 }
        ensures job { IfOk result (IsJob St.part St.counted) }
        ensures partitions { IfOk result (λ job. length job.stores.items ≡ partitions) }
        ensures frame_len { IfOk result (λ job. job.bank.frame_len ≡ bank.frame_len) }
        ensures program { IfOk result (λ job. P.meaning job.program ≡ P.meaning program) }
    {
        let mut bank = bank;
        let stores = open_stores(alloc, partitions)?;
        let desk = Desk {
            cache: Cache::open(bank.lend(CACHE)),
            side: bank.lend(LSM),
            owner: None,
        };
        let gs = Gs::first(program.unit(), 0);
        Ok(Job {
            program,
            bank,
            desk,
            stores,
            gs,
            msg_pages: [0; MOST_PARTS],
            tallies: [NO_TALLY; MOST_PARTS],
            join: PhantomData,
            group: PhantomData,
            connector: PhantomData,
        })
    }

    /// The numbers of its state.
    pub fn gs(&self) -> Gs
        ensures { result ≡ self.now.gs }
    {
        self.gs
    }

    /// Loads the text of a graph. The scratch disk was started, and nothing was written to it since.
    /// Over joins that look vids up, the files of vids are not written yet.
    pub fn load<R: Source, GD: Disk, SD: Disk>(
        &mut self,
        source: &mut R,
        graph: &mut GD,
        scratch: &mut SD,
    ) -> Result<(), LoadStop>
        requires job { IsJob St.part St.counted self.old }
        requires graph_len { (GD.shown graph.old).page_len ≡ self.old.bank.frame_len }
        requires scratch_len { (SD.shown scratch.old).page_len ≡ self.old.bank.frame_len }
        ensures loaded { OnOk result ((bytes : List ℕ) → R.left source.old bytes → J.probing ≡ false → (SD.shown scratch.old).tells ≡ true → (GD.shown graph.old).tells ≡ true → AreNoMessages (length self.old.stores.items) (SD.shown scratch.old)
            → StandsForText (P.meaning self.new.program) (room_of self.old.bank.frame_len) J.probing St.holds (GD.shown graph.new) (SD.shown scratch.new) self.new (graph_of bytes (room_of self.old.bank.frame_len) (2 ^ 48))) }
        ensures first { OnOk result (self.new.gs.superstep ≡ 0) }
        ensures good_lines { OnOk result ((bytes : List ℕ) → R.left source.old bytes → HasGoodLines (graph_of bytes (room_of self.old.bank.frame_len) (2 ^ 48))) }
        ensures refused_line { IfErr result (λ e. (bytes : List ℕ) → R.left source.old bytes → IsLineRefusal (graph_of bytes (room_of self.old.bank.frame_len) (2 ^ 48)) e) }
        ensures refused { IfErr result (λ e. (bytes : List ℕ) → R.left source.old bytes → (SD.shown scratch.old).tells ≡ true → (GD.shown graph.old).tells ≡ true → IsRefusal (graph_of bytes (room_of self.old.bank.frame_len) (2 ^ 48)) e) }
        ensures read { OnOk result ((bytes : List ℕ) → R.left source.old bytes → R.left source.new []) }
        ensures read_whole { IfErr result (λ e. IsAfterText e → (bytes : List ℕ) → R.left source.old bytes → R.left source.new []) }
        ensures bank { self.new.bank ≡ self.old.bank }
        ensures desk { SameDesk self.old.desk self.new.desk }
        ensures program { P.meaning self.new.program ≡ P.meaning self.old.program }
        ensures partitions { length self.new.stores.items ≡ length self.old.stores.items }
        ensures job { OnOk result (IsJob St.part St.counted self.new) }
        ensures clean { OnOk result (Clean AnyFile (GD.shown graph.old) (GD.shown graph.new)) }
        ensures scratch { OnOk result (Clean IsLoadFile (SD.shown scratch.old) (SD.shown scratch.new)) }
        ensures no_fault { OnOk result (R.faults source.new ≡ R.faults source.old) }
        ensures err { IfErr result (Stops (R.faults source.old) (R.faults source.new) (GD.shown graph.old) (GD.shown graph.new) (SD.shown scratch.old) (SD.shown scratch.new)) }
    {
        let mut tools = lend_load(&mut self.bank);
        let answer = load_with(
            &self.program,
            source,
            &mut tools.frames,
            &mut self.stores,
            &mut self.tallies,
            &mut self.desk,
            graph,
            scratch,
        );
        give_load(&mut self.bank, tools);
        self.msg_pages = [0; MOST_PARTS];
        let gs = answer?;
        let _count = count_of(&gs);
        self.gs = gs;
        Ok(())
    }

    /// Takes one superstep, for every order of turns. After an error nothing is said of the job's content.
    pub fn superstep<T: Turns, GD: Disk, SD: Disk>(
        &mut self,
        graph: &mut GD,
        scratch: &mut SD,
        turns: &mut T,
    ) -> Result<(), Stop>
        requires job { IsJob St.part St.counted self.old }
        requires graph_len { (GD.shown graph.old).page_len ≡ self.old.bank.frame_len }
        requires scratch_len { (SD.shown scratch.old).page_len ≡ self.old.bank.frame_len }
        requires superstep { self.old.gs.superstep < 2 ^ 32 }
        ensures stands { OnOk result ((s : State)
            → JobStands (P.meaning self.old.program) (room_of self.old.bank.frame_len) J.probing St.holds (GD.shown graph.old) (SD.shown scratch.old) self.old s
            → JobStandsNext (P.meaning self.old.program) (room_of self.old.bank.frame_len) J.probing St.holds (GD.shown graph.new) (SD.shown scratch.new) self.new s) }
        ensures number { OnOk result (self.new.gs.superstep ≡ self.old.gs.superstep + 1) }
        ensures bank { self.new.bank ≡ self.old.bank }
        ensures desk { SameDesk self.old.desk self.new.desk }
        ensures program { P.meaning self.new.program ≡ P.meaning self.old.program }
        ensures partitions { length self.new.stores.items ≡ length self.old.stores.items }
        ensures job { OnOk result (IsJob St.part St.counted self.new) }
        ensures clean { OnOk result (Clean AnyFile (GD.shown graph.old) (GD.shown graph.new)) }
        ensures scratch { OnOk result (Clean IsStepFile (SD.shown scratch.old) (SD.shown scratch.new)) }
        ensures err { IfErr result (StopsPhase IsStepFile
            ((s : State)
            → JobStands (P.meaning self.old.program) (room_of self.old.bank.frame_len) J.probing St.holds (GD.shown graph.old) (SD.shown scratch.old) self.old s
            → step (P.meaning self.old.program) (room_of self.old.bank.frame_len) s ≡ None)
            (GD.shown graph.old) (GD.shown graph.new) (SD.shown scratch.old) (SD.shown scratch.new)) }
    {
        let parts = self.stores.len() as u32;
        let mut connector = C::open(self.bank.lend(MESSAGES), parts);
        let mut requests = Requests::open(self.bank.lend(REQUESTS), parts);
        let answer = superstep_with::<P, J, G, C, St, GD, SD, T>(
            &self.program,
            &mut self.gs,
            &mut self.bank,
            &mut self.stores,
            &mut self.desk,
            &mut connector,
            &mut requests,
            &mut self.msg_pages,
            &mut self.tallies,
            graph,
            scratch,
            turns,
        );
        self.bank.give(REQUESTS, requests.close());
        self.bank.give(MESSAGES, connector.close());
        answer
    }

    /// Writes the text of its state, or with `summary` the last line alone.
    pub fn finish<W: Sink, GD: Disk, SD: Disk>(
        &mut self,
        graph: &mut GD,
        scratch: &mut SD,
        out: &mut W,
        summary: bool,
    ) -> Result<(), DumpStop>
        requires job { IsJob St.part St.counted self.old }
        requires graph_len { (GD.shown graph.old).page_len ≡ self.old.bank.frame_len }
        requires scratch_len { (SD.shown scratch.old).page_len ≡ self.old.bank.frame_len }
        ensures written { OnOk result ((s : State) (h : List ℕ) → JobStands (P.meaning self.old.program) (room_of self.old.bank.frame_len) J.probing St.holds (GD.shown graph.old) (SD.shown scratch.old) self.old s → (SD.shown scratch.old).tells ≡ true
            → W.holds out.old h → W.holds out.new (h ++ dumped summary (P.meaning self.old.program) s)) }
        ensures part { IfErr result (λ e. (s : State) (h : List ℕ) → JobStands (P.meaning self.old.program) (room_of self.old.bank.frame_len) J.probing St.holds (GD.shown graph.old) (SD.shown scratch.old) self.old s → (SD.shown scratch.old).tells ≡ true
            → W.holds out.old h → SomeOf (dumped summary (P.meaning self.old.program) s) (λ text. W.holds out.new (h ++ text))) }
        ensures bank { self.new.bank ≡ self.old.bank }
        ensures desk { SameDesk self.old.desk self.new.desk }
        ensures gs { self.new.gs ≡ self.old.gs }
        ensures job { OnOk result (IsJob St.part St.counted self.new) }
        ensures clean { OnOk result (Clean AnyFile (GD.shown graph.old) (GD.shown graph.new)) }
        ensures scratch { OnOk result (Clean IsDumpFile (SD.shown scratch.old) (SD.shown scratch.new)) }
        ensures no_fault { OnOk result (W.faults out.new ≡ W.faults out.old) }
        ensures err { IfErr result (DumpStops (W.faults out.old) (W.faults out.new) (GD.shown graph.old) (GD.shown graph.new) (SD.shown scratch.old) (SD.shown scratch.new)) }
    {
        let mut tools = lend_load(&mut self.bank);
        let answer = dump(
            &self.program,
            &self.gs,
            summary,
            &mut tools.frames,
            &mut self.stores,
            &mut self.desk,
            graph,
            scratch,
            out,
        );
        give_load(&mut self.bank, tools);
        answer
    }
}
