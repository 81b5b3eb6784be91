// The delivery to one partition. The call opens what it needs from the bank and gives all frames back, whatever is answered.
ghost use Rattle.std.specs.Prelude.{◌≡◌, ◌≤◌, ◌<◌, [], ℕ, true, false, OnOk, IfOk, IfErr, IsTrue};
ghost use Rattle.px_core.specs.Parts.{to_part, all_of};
ghost use Rattle.px_core.specs.Shown.{Shown, Clean};
ghost use Rattle.px_meaning.specs.Graph.{room_of};
ghost use Rattle.px_meaning.specs.Merge.{MergeRule, Pairs, AllValid, grouped};
ghost use Rattle.px_meaning.specs.Step.{has_wide_fold};
ghost use Rattle.px_program.specs.Groups.{StopsGrouping};
ghost use Rattle.px_stream.specs.Stream.{Holds};
ghost use Rattle.px_store.specs.Joins.{message_tuples};
ghost use Rattle.px_superstep.specs.Benches.{HasBench};
ghost use Rattle.px_superstep.specs.Gathering.{AreGatherTools, AreGatherToolsFor, SameGatherTools, CanGiveBack, AreGivenBack};
ghost use Rattle.px_superstep.specs.Files.{IsMsgFile, IsResultFile, IsStepFile};
ghost use Rattle.px_superstep.specs.Lending.{IsEnough};

use crate::benches::{Lent, give_bench, lend_bench};
use crate::tools::{GROUP, OTHER_GROUP, payload_in};
use px_connectors::Connector;
use px_core::{Disk, Stop, Turns};
use px_frames::{Bank, Buf, Share};
use px_program::{Group, Program};
use px_stream::Writer;

/// A group, a writer of messages and a buffer, and what is left of the shares that they were made of.
#[derive(Drop)]
pub(crate) struct GatherTools<G: Group> {
    pub group: G,
    pub writer: Writer,
    pub buf: Buf,
    pub work: Share,
    pub join: Share,
    pub streams: Share,
}

impl<G: Group> GatherTools<G> {
    /// Opens what messages are gathered into the file `to` with. The writer is to be started. The group took nothing.
    fn open(lent: Lent, to: u32) -> GatherTools<G>
        requires enough { IsEnough lent }
        ensures tools { AreGatherTools G.made to lent result }
        ensures open { IsTrue (G.is_open result.group) }
        ensures took { (s : Shown) (rule : MergeRule) → s.tells ≡ true → s.page_len ≡ lent.work.frame_len → G.took s result.group rule [] }
    {
        let Lent {
            mut work,
            join,
            mut streams,
            group,
            table,
        } = lent;
        GatherTools {
            group: G::open(group, table, GROUP, OTHER_GROUP),
            writer: Writer::new(streams.take(), to),
            buf: payload_in(work.take()),
            work,
            join,
            streams,
        }
    }

    /// All that they were made of.
    fn close(self) -> Lent
        requires { CanGiveBack self }
        ensures { AreGivenBack G.made self result }
    {
        let GatherTools {
            group,
            writer,
            buf,
            mut work,
            join,
            mut streams,
        } = self;
        let (group, table) = group.close();
        work.put(buf.close());
        streams.put(writer.close());
        Lent {
            work,
            join,
            streams,
            group,
            table,
        }
    }
}

/// The delivery to partition `q`, into a file. The pages of its messages are answered.
pub(crate) fn gather_part<P: Program, G: Group, C: Connector, SD: Disk, T: Turns>(
    program: &P,
    bank: &mut Bank,
    connector: &mut C,
    q: u32,
    to: u32,
    scratch: &mut SD,
    turns: &mut T,
) -> Result<u64, Stop>
    requires bench { HasBench bank.old }
    requires receiver { q < (C.view connector.old).parts }
    requires most { (C.view connector.old).parts ≤ 16 }
    requires to { IsMsgFile to }
    requires len { bank.old.frame_len ≡ (SD.shown scratch.old).page_len }
    requires connector_len { (C.view connector.old).frame_len ≡ (SD.shown scratch.old).page_len }
    ensures holds { IfOk result (λ pages. (ls : ℕ → Pairs) → ((p : ℕ) → p < (C.view connector.old).parts → C.sent connector.old (SD.shown scratch.old) p (ls p))
        → AllValid (P.meaning program.now).message (all_of (C.view connector.old).parts ls)
        → Holds (SD.shown scratch.new) to pages (message_tuples (grouped (P.meaning program.now).message (to_part (C.view connector.old).parts q (all_of (C.view connector.old).parts ls))))) }
    ensures fits { OnOk result ((ls : ℕ → Pairs) → ((p : ℕ) → p < (C.view connector.old).parts → C.sent connector.old (SD.shown scratch.old) p (ls p))
        → AllValid (P.meaning program.now).message (all_of (C.view connector.old).parts ls)
        → has_wide_fold (P.meaning program.now).message (room_of (SD.shown scratch.old).page_len) (to_part (C.view connector.old).parts q (all_of (C.view connector.old).parts ls)) ≡ false) }
    ensures sent { OnOk result ((p : ℕ) (l : Pairs) → C.sent connector.old (SD.shown scratch.old) p l → C.sent connector.new (SD.shown scratch.new) p l) }
    ensures ok { OnOk result (Clean (IsResultFile to) (SD.shown scratch.old) (SD.shown scratch.new)) }
    ensures err { IfErr result (StopsGrouping IsStepFile
        ((ls : ℕ → Pairs) → ((p : ℕ) → p < (C.view connector.old).parts → C.sent connector.old (SD.shown scratch.old) p (ls p))
        → AllValid (P.meaning program.now).message (all_of (C.view connector.old).parts ls)
        → IsTrue (has_wide_fold (P.meaning program.now).message (room_of (SD.shown scratch.old).page_len) (to_part (C.view connector.old).parts q (all_of (C.view connector.old).parts ls))))
        (SD.shown scratch.old) (SD.shown scratch.new)) }
    ensures connector { C.view connector.new ≡ C.view connector.old }
    ensures bank { bank.new ≡ bank.old }
{
    let lent = lend_bench(bank);
    let mut tools = GatherTools::<G>::open(lent, to);
    let answer = gather_with(program, &mut tools, connector, q, scratch, turns);
    give_bench(bank, tools.close());
    answer
}

// The same with these tools, of which nothing was used yet.
fn gather_with<P: Program, G: Group, C: Connector, SD: Disk, T: Turns>(
    program: &P,
    tools: &mut GatherTools<G>,
    connector: &mut C,
    q: u32,
    scratch: &mut SD,
    turns: &mut T,
) -> Result<u64, Stop>
    requires tools { AreGatherToolsFor G.made (SD.shown scratch.old).page_len tools.old }
    requires took { (s : Shown) (rule : MergeRule) → s.tells ≡ true → s.page_len ≡ (SD.shown scratch.old).page_len → G.took s tools.old.group rule [] }
    requires open { IsTrue (G.is_open tools.old.group) }
    requires receiver { q < (C.view connector.old).parts }
    requires to { IsMsgFile tools.old.writer.file }
    requires connector_len { (C.view connector.old).frame_len ≡ (SD.shown scratch.old).page_len }
    ensures holds { IfOk result (λ pages. (ls : ℕ → Pairs) → ((p : ℕ) → p < (C.view connector.old).parts → C.sent connector.old (SD.shown scratch.old) p (ls p))
        → AllValid (P.meaning program.now).message (all_of (C.view connector.old).parts ls)
        → Holds (SD.shown scratch.new) tools.old.writer.file pages (message_tuples (grouped (P.meaning program.now).message (to_part (C.view connector.old).parts q (all_of (C.view connector.old).parts ls))))) }
    ensures fits { OnOk result ((ls : ℕ → Pairs) → ((p : ℕ) → p < (C.view connector.old).parts → C.sent connector.old (SD.shown scratch.old) p (ls p))
        → AllValid (P.meaning program.now).message (all_of (C.view connector.old).parts ls)
        → has_wide_fold (P.meaning program.now).message (room_of (SD.shown scratch.old).page_len) (to_part (C.view connector.old).parts q (all_of (C.view connector.old).parts ls)) ≡ false) }
    ensures sent { OnOk result ((p : ℕ) (l : Pairs) → C.sent connector.old (SD.shown scratch.old) p l → C.sent connector.new (SD.shown scratch.new) p l) }
    ensures ok { OnOk result (Clean (IsResultFile tools.old.writer.file) (SD.shown scratch.old) (SD.shown scratch.new)) }
    ensures err { IfErr result (StopsGrouping IsStepFile
        ((ls : ℕ → Pairs) → ((p : ℕ) → p < (C.view connector.old).parts → C.sent connector.old (SD.shown scratch.old) p (ls p))
        → AllValid (P.meaning program.now).message (all_of (C.view connector.old).parts ls)
        → IsTrue (has_wide_fold (P.meaning program.now).message (room_of (SD.shown scratch.old).page_len) (to_part (C.view connector.old).parts q (all_of (C.view connector.old).parts ls))))
        (SD.shown scratch.old) (SD.shown scratch.new)) }
    ensures connector { C.view connector.new ≡ C.view connector.old }
    ensures tools { SameGatherTools G.made tools.old tools.new }
{
    tools.writer.start(scratch)?;
    connector.receive(scratch, q)?;
    connector.gather(
        scratch,
        turns,
        program.message(),
        &mut tools.group,
        &mut tools.writer,
        &mut tools.buf,
    )?;
    Ok(tools.writer.pages())
}
