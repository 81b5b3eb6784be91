// The settling of a partition.
ghost use Rattle.std.specs.Prelude.{◌≡◌, ◌≤◌, ◌<◌, ◌+◌, ◌*◌, ◌^◌, [], ℕ, List, length, true, false, OnOk, IfOk, IfErr, IsTrue};
ghost use Rattle.std.specs.Bool.{OnTrue};
ghost use Rattle.px_core.specs.Shown.{Shown, Only, Clean, Broke};
ghost use Rattle.px_frames.specs.Buffer.{SameRoom as SameBuf};
ghost use Rattle.px_meaning.specs.Graph.{Graph, room_of};
ghost use Rattle.px_meaning.specs.Merge.{Pairs};
ghost use Rattle.px_meaning.specs.Step.{put_all, settled, has_wide_fold, has_many_vertices};
ghost use Rattle.px_pages.specs.Page.{IsPageLen};
ghost use Rattle.px_program.specs.Groups.{IsOwn, StopsGrouping, room_in};
ghost use Rattle.px_stream.specs.Stream.{Took, Has, ToGive};
ghost use Rattle.px_connectors.specs.Stops.{StopsPhase};
ghost use Rattle.px_store.specs.Desks.{IsReady, IsDone, SameDesk, SameRoom};
ghost use Rattle.px_store.specs.Joins.{vertex_tuples, vid_tuples};
ghost use Rattle.px_mutations.specs.Turns.{Comes, Takes, given_if, Waits, still, with_vid, vids_as_tuples};
ghost use Rattle.px_mutations.specs.Applying.{settled_after, is_settling_beyond, touched, IsTally, Begun, IsSettled, OrRead, AreApart, AreCounts, IsMerging, IsMerged};

use crate::effects::Counts;
use crate::settling::settle_vid;
use crate::turns::{Turn, next_turn, take_update};
use px_connectors::take_pairs;
use px_core::{Disk, Stop, Vid};
use px_frames::Buf;
use px_pages::tags;
use px_program::{Group, Merge, Program};
use px_record::VertexBuf;
use px_store::{Desk, Store};
use px_stream::{Reader, Writer};

// The most vertices of a partition, and of a graph.
const MOST: u64 = 1 << 32;

/// The number of a partition's vertices, that of the ones that have not voted to halt, and how many pages the file of their vids has.
#[derive(Clone, Copy, Debug, PartialEq, Eq)]
pub struct Tally {
    pub count: u64,
    pub live: u64,
    pub vid_pages: u64,
}

// The next fold of a group, which goes into the buffer.
fn next_fold<G: Group, M: Merge, SD: Disk>(
    group: &mut G,
    scratch: &mut SD,
    merge: &M,
    verdict: &mut Buf,
) -> Result<Option<Vid>, Stop>
    requires group_len { (G.made group.old).frame_len ≡ (SD.shown scratch.old).page_len }
    requires sealed { IsTrue (G.is_sealed group.old) }
    requires limit { 13 + verdict.old.limit ≡ room_in (G.made group.old) }
    ensures waits { IfOk result (λ o. (all fs : Pairs) → G.gives (SD.shown scratch.old) group.old (M.rule merge.now) all fs
        → Waits o verdict.new.bytes (has_wide_fold (M.rule merge.now) (room_in (G.made group.old)) all ≡ false) (G.gives (SD.shown scratch.new) group.new (M.rule merge.now) all) fs) }
    ensures falls { IfOk result (λ o. still (G.left group.new) o ≤ G.left group.old) }
    ensures sealed { OnOk result (IsTrue (G.is_sealed group.new)) }
    ensures ok { OnOk result (Clean (IsOwn (G.made group.old)) (SD.shown scratch.old) (SD.shown scratch.new)) }
    ensures err { IfErr result (StopsGrouping (IsOwn (G.made group.old)) ((all fs : Pairs) → G.gives (SD.shown scratch.old) group.old (M.rule merge.now) all fs
        → IsTrue (has_wide_fold (M.rule merge.now) (room_in (G.made group.old)) all)) (SD.shown scratch.old) (SD.shown scratch.new)) }
    ensures verdict { SameBuf verdict.old verdict.new }
    ensures stays { G.made group.new ≡ G.made group.old }
{
    let vid = group.next(scratch, merge, verdict)?;
    Ok(vid)
}

// The next fold after a turn, where that had one. Else the one that is held waits on.
fn next_asked<G: Group, M: Merge, SD: Disk>(
    turn: Turn,
    asked: Option<Vid>,
    group: &mut G,
    scratch: &mut SD,
    merge: &M,
    verdict: &mut Buf,
) -> Result<Option<Vid>, Stop>
    requires asked { turn.has_verdict ≡ true → asked ≡ Some turn.vid }
    requires group_len { (G.made group.old).frame_len ≡ (SD.shown scratch.old).page_len }
    requires sealed { IsTrue (G.is_sealed group.old) }
    requires limit { 13 + verdict.old.limit ≡ room_in (G.made group.old) }
    ensures waits { IfOk result (λ o. (all fs : Pairs)
        → Waits asked verdict.old.bytes (has_wide_fold (M.rule merge.now) (room_in (G.made group.old)) all ≡ false) (G.gives (SD.shown scratch.old) group.old (M.rule merge.now) all) fs
        → Comes turn.has_verdict turn.vid fs
        → (rest : Pairs) × Takes turn.vid (given_if turn.has_verdict verdict.old.bytes) fs rest
        × Waits o verdict.new.bytes (has_wide_fold (M.rule merge.now) (room_in (G.made group.old)) all ≡ false) (G.gives (SD.shown scratch.new) group.new (M.rule merge.now) all) rest) }
    ensures falls { IfOk result (λ o. turn.has_verdict ≡ true → still (G.left group.new) o < still (G.left group.old) asked) }
    ensures not_more { IfOk result (λ o. still (G.left group.new) o ≤ still (G.left group.old) asked) }
    ensures sealed { OnOk result (IsTrue (G.is_sealed group.new)) }
    ensures ok { OnOk result (Clean (IsOwn (G.made group.old)) (SD.shown scratch.old) (SD.shown scratch.new)) }
    ensures err { IfErr result (StopsGrouping (IsOwn (G.made group.old)) ((all fs : Pairs)
        → Waits asked verdict.old.bytes (has_wide_fold (M.rule merge.now) (room_in (G.made group.old)) all ≡ false) (G.gives (SD.shown scratch.old) group.old (M.rule merge.now) all) fs
        → IsTrue (has_wide_fold (M.rule merge.now) (room_in (G.made group.old)) all)) (SD.shown scratch.old) (SD.shown scratch.new)) }
    ensures verdict { SameBuf verdict.old verdict.new }
    ensures stays { G.made group.new ≡ G.made group.old }
{
    if !turn.has_verdict {
        return Ok(asked);
    }
    next_fold(group, scratch, merge, verdict)
}

// Writes a vid, where its vertex is awake.
fn write_live<SD: Disk>(
    vid: Vid,
    live: bool,
    scratch: &mut SD,
    vids: &mut Writer,
) -> Result<(), Stop>
    requires page_len { vids.old.page_len ≡ (SD.shown scratch.old).page_len }
    requires valid { IsPageLen (SD.shown scratch.old).page_len }
    ensures took { OnOk result ((vs : List ℕ) → Took (SD.shown scratch.old) vids.old (vids_as_tuples vs) → Took (SD.shown scratch.new) vids.new (vids_as_tuples (with_vid live vid vs))) }
    ensures ok { OnOk result (Clean (Only vids.old.file) (SD.shown scratch.old) (SD.shown scratch.new)) }
    ensures err { IfErr result (Broke Stop.Scratch (Only vids.old.file) (SD.shown scratch.old) (SD.shown scratch.new)) }
    ensures first { OnOk result (vids.new.first ≡ vids.old.first) }
    ensures file { vids.new.file ≡ vids.old.file }
    ensures len { vids.new.page_len ≡ vids.old.page_len }
{
    if live {
        vids.put(scratch, vid, tags::LIVE_VID, b"")?;
    }
    Ok(())
}

// Settles the vids that have an update or a fold, one after the other.
fn settle_all<P: Program, G: Group, St: Store, GD: Disk, SD: Disk>(
    program: &P,
    store: &mut St,
    desk: &mut Desk,
    graph: &mut GD,
    scratch: &mut SD,
    updates: &mut Reader,
    vids: &mut Writer,
    group: &mut G,
    first: &mut VertexBuf,
    second: &mut VertexBuf,
    verdict: &mut Buf,
) -> Result<Counts, Stop>
    requires ready { IsReady St.counted (St.part store.old) desk.old (GD.shown graph.old) }
    requires graph_len { (GD.shown graph.old).page_len ≡ (SD.shown scratch.old).page_len }
    requires updates_len { updates.old.page_len ≡ (SD.shown scratch.old).page_len }
    requires vids_len { vids.old.page_len ≡ (SD.shown scratch.old).page_len }
    requires group_len { (G.made group.old).frame_len ≡ (SD.shown scratch.old).page_len }
    requires sealed { IsTrue (G.is_sealed group.old) }
    requires first { first.old.room ≡ room_of (SD.shown scratch.old).page_len }
    requires second { second.old.room ≡ room_of (SD.shown scratch.old).page_len }
    requires verdict { 13 + verdict.old.limit ≡ room_of (SD.shown scratch.old).page_len }
    requires updates_apart { IsOwn (G.made group.old) updates.old.file → ⊥ }
    requires vids_apart { IsOwn (G.made group.old) vids.old.file → ⊥ }
    requires apart { updates.old.file ≡ vids.old.file → ⊥ }
    ensures merged { (l changes : Graph) (all folds : Pairs)
        → IsMerging (P.meaning program.now) (room_of (SD.shown scratch.old).page_len) (St.holds store.old desk.old (GD.shown graph.old)) (ToGive (SD.shown scratch.old) updates.old)
        (G.gives (SD.shown scratch.old) group.old (P.meaning program.now).verdict all) (Took (SD.shown scratch.old) vids.old) l changes folds
        → IfOk result (IsMerged (room_of (SD.shown scratch.old).page_len) (has_wide_fold (P.meaning program.now).verdict (room_of (SD.shown scratch.old).page_len) all ≡ false)
        (St.holds store.new desk.new (GD.shown graph.new)) (Took (SD.shown scratch.new) vids.new) l (settled (P.meaning program.now) (put_all l changes) folds)) }
    ensures first { OnOk result (vids.new.first ≡ vids.old.first) }
    ensures ok { OnOk result (Clean (IsSettled (G.made group.old) vids.old.file) (SD.shown scratch.old) (SD.shown scratch.new)) }
    ensures done { OnOk result (IsDone St.counted (St.part store.old) desk.old (GD.shown graph.old) desk.new (GD.shown graph.new)) }
    ensures err { IfErr result (StopsPhase (OrRead updates.old.file updates.old.file (IsSettled (G.made group.old) vids.old.file)) ((l changes : Graph) (all folds : Pairs)
        → IsMerging (P.meaning program.now) (room_of (SD.shown scratch.old).page_len) (St.holds store.old desk.old (GD.shown graph.old)) (ToGive (SD.shown scratch.old) updates.old)
        (G.gives (SD.shown scratch.old) group.old (P.meaning program.now).verdict all) (Took (SD.shown scratch.old) vids.old) l changes folds
        → IsTrue (is_settling_beyond (P.meaning program.now) (room_of (SD.shown scratch.old).page_len) (settled (P.meaning program.now) (put_all l changes) folds) all))
        (GD.shown graph.old) (GD.shown graph.new) (SD.shown scratch.old) (SD.shown scratch.new)) }
    ensures leaves { (l changes : Graph) (all folds : Pairs)
        → IsMerging (P.meaning program.now) (room_of (SD.shown scratch.old).page_len) (St.holds store.old desk.old (GD.shown graph.old)) (ToGive (SD.shown scratch.old) updates.old)
        (G.gives (SD.shown scratch.old) group.old (P.meaning program.now).verdict all) (Took (SD.shown scratch.old) vids.old) l changes folds
        → OnTrue St.counted (St.leaves store.new ≤ St.leaves store.old + touched changes folds) }
    ensures reads { (l changes : Graph) (all folds : Pairs)
        → IsMerging (P.meaning program.now) (room_of (SD.shown scratch.old).page_len) (St.holds store.old desk.old (GD.shown graph.old)) (ToGive (SD.shown scratch.old) updates.old)
        (G.gives (SD.shown scratch.old) group.old (P.meaning program.now).verdict all) (Took (SD.shown scratch.old) vids.old) l changes folds
        → OnTrue St.counted ((GD.shown graph.new).reads ≤ (GD.shown graph.old).reads + 192 * touched changes folds) }
    ensures part { St.part store.new ≡ St.part store.old }
    ensures desk { SameDesk desk.old desk.new }
    ensures first_stays { SameRoom first.old first.new }
    ensures second_stays { SameRoom second.old second.new }
    ensures verdict { SameBuf verdict.old verdict.new }
    ensures updates_file { updates.new.file ≡ updates.old.file }
    ensures updates_len { updates.new.page_len ≡ updates.old.page_len }
    ensures vids_file { vids.new.file ≡ vids.old.file }
    ensures vids_len { vids.new.page_len ≡ vids.old.page_len }
    ensures group { G.made group.new ≡ G.made group.old }
{
    let mut counts = Counts::none();
    let mut asked = next_fold(group, scratch, program.verdict(), verdict)?;
    while let Some(turn) = next_turn(scratch, updates, asked)? {
        take_update(turn, updates, first);
        let effect = settle_vid(
            program,
            turn,
            store,
            desk,
            graph,
            first,
            second,
            verdict.bytes(),
        )?;
        counts = counts.with(effect);
        write_live(turn.vid, effect.live, scratch, vids)?;
        asked = next_asked(turn, asked, group, scratch, program.verdict(), verdict)?;
    }
    Ok(counts)
}

// The numbers of a partition from those before and what became of it.
fn tally_after(tally: &Tally, counts: Counts, vid_pages: u64) -> Result<Tally, Stop>
    ensures counted { (l after : Graph) → tally.now.count ≡ length l → AreCounts counts l after → IfOk result (λ new. IsTally new after) }
    ensures within { (l after : Graph) → tally.now.count ≡ length l → AreCounts counts l after → OnOk result (has_many_vertices after ≡ false) }
    ensures beyond { (l after : Graph) → tally.now.count ≡ length l → AreCounts counts l after → IfErr result (λ e. IsTrue (has_many_vertices after)) }
    ensures only { IfErr result (λ e. e ≡ Stop.Beyond) }
    ensures few { IfOk result (λ new. new.count ≤ 2 ^ 32) }
    ensures live { IfOk result (λ new. new.live ≤ new.count) }
    ensures vid_pages { IfOk result (λ new. new.vid_pages ≡ vid_pages) }
{
    let count = tally
        .count
        .saturating_sub(counts.removed)
        .saturating_add(counts.added);
    if count > MOST {
        return Err(Stop::Beyond);
    }
    Ok(Tally {
        count,
        live: counts.live.min(count),
        vid_pages,
    })
}

/// Puts a partition's new vertices into its store, settles the requests to it, and writes the vids that have not voted to halt then, ascending, to `vids`, which it finishes. Nothing is scanned.
/// Both readers were started and gave nothing yet, the writer and the group took nothing, and `tally` has the numbers of before. The updates are the new vertices, ascending; the requests are in any order.
/// The errors are `Stop::Graph` and `Stop::Scratch`, where that disk failed, and `Stop::Beyond`, where the graph that is left or some vid's fold of verdicts is beyond the limits. After one nothing is said of the store and of the vids.
pub fn apply<P: Program, G: Group, St: Store, GD: Disk, SD: Disk>(
    program: &P,
    tally: &Tally,
    store: &mut St,
    desk: &mut Desk,
    graph: &mut GD,
    scratch: &mut SD,
    updates: &mut Reader,
    requests: &mut Reader,
    vids: &mut Writer,
    group: &mut G,
    first: &mut VertexBuf,
    second: &mut VertexBuf,
    verdict: &mut Buf,
    spare: &mut Buf,
) -> Result<Tally, Stop>
    requires ready { IsReady St.counted (St.part store.old) desk.old (GD.shown graph.old) }
    requires graph_len { (GD.shown graph.old).page_len ≡ (SD.shown scratch.old).page_len }
    requires updates_len { updates.old.page_len ≡ (SD.shown scratch.old).page_len }
    requires requests_len { requests.old.page_len ≡ (SD.shown scratch.old).page_len }
    requires vids_len { vids.old.page_len ≡ (SD.shown scratch.old).page_len }
    requires group_len { (G.made group.old).frame_len ≡ (SD.shown scratch.old).page_len }
    requires open { IsTrue (G.is_open group.old) }
    requires first { first.old.room ≡ room_of (SD.shown scratch.old).page_len }
    requires second { second.old.room ≡ room_of (SD.shown scratch.old).page_len }
    requires verdict { 13 + verdict.old.limit ≡ room_of (SD.shown scratch.old).page_len }
    requires spare { 13 + spare.old.limit ≡ room_of (SD.shown scratch.old).page_len }
    requires apart { AreApart (G.made group.old) updates.old.file requests.old.file vids.old.file }

    ensures holds { (l changes : Graph) (asked : Pairs)
        → Begun (P.meaning program.now) (room_of (SD.shown scratch.old).page_len) tally.now (St.holds store.old desk.old (GD.shown graph.old)) (ToGive (SD.shown scratch.old) updates.old)
        (ToGive (SD.shown scratch.old) requests.old) (Took (SD.shown scratch.old) vids.old) (G.took (SD.shown scratch.old) group.old (P.meaning program.now).verdict) l changes asked
        → OnOk result (St.holds store.new desk.new (GD.shown graph.new) (settled_after (P.meaning program.now) l changes asked)) }
    ensures tally { (l changes : Graph) (asked : Pairs)
        → Begun (P.meaning program.now) (room_of (SD.shown scratch.old).page_len) tally.now (St.holds store.old desk.old (GD.shown graph.old)) (ToGive (SD.shown scratch.old) updates.old)
        (ToGive (SD.shown scratch.old) requests.old) (Took (SD.shown scratch.old) vids.old) (G.took (SD.shown scratch.old) group.old (P.meaning program.now).verdict) l changes asked
        → IfOk result (λ new. IsTally new (settled_after (P.meaning program.now) l changes asked)) }
    ensures vids { (l changes : Graph) (asked : Pairs)
        → Begun (P.meaning program.now) (room_of (SD.shown scratch.old).page_len) tally.now (St.holds store.old desk.old (GD.shown graph.old)) (ToGive (SD.shown scratch.old) updates.old)
        (ToGive (SD.shown scratch.old) requests.old) (Took (SD.shown scratch.old) vids.old) (G.took (SD.shown scratch.old) group.old (P.meaning program.now).verdict) l changes asked
        → OnOk result (Has (SD.shown scratch.new) vids.new.file vids.new.first vids.new.pages (vid_tuples (settled_after (P.meaning program.now) l changes asked))) }
    ensures within { (l changes : Graph) (asked : Pairs)
        → Begun (P.meaning program.now) (room_of (SD.shown scratch.old).page_len) tally.now (St.holds store.old desk.old (GD.shown graph.old)) (ToGive (SD.shown scratch.old) updates.old)
        (ToGive (SD.shown scratch.old) requests.old) (Took (SD.shown scratch.old) vids.old) (G.took (SD.shown scratch.old) group.old (P.meaning program.now).verdict) l changes asked
        → OnOk result (is_settling_beyond (P.meaning program.now) (room_of (SD.shown scratch.old).page_len) (settled_after (P.meaning program.now) l changes asked) asked ≡ false) }
    ensures vid_pages { IfOk result (λ new. new.vid_pages ≡ vids.new.pages) }
    ensures first_page { OnOk result (vids.new.first ≡ vids.old.first) }
    ensures few { IfOk result (λ new. new.count ≤ 2 ^ 32) }
    ensures live { IfOk result (λ new. new.live ≤ new.count) }
    ensures ok { OnOk result (Clean (IsSettled (G.made group.old) vids.old.file) (SD.shown scratch.old) (SD.shown scratch.new)) }
    ensures done { OnOk result (IsDone St.counted (St.part store.old) desk.old (GD.shown graph.old) desk.new (GD.shown graph.new)) }
    ensures err { IfErr result (StopsPhase (OrRead updates.old.file requests.old.file (IsSettled (G.made group.old) vids.old.file)) ((l changes : Graph) (asked : Pairs)
        → Begun (P.meaning program.now) (room_of (SD.shown scratch.old).page_len) tally.now (St.holds store.old desk.old (GD.shown graph.old)) (ToGive (SD.shown scratch.old) updates.old)
        (ToGive (SD.shown scratch.old) requests.old) (Took (SD.shown scratch.old) vids.old) (G.took (SD.shown scratch.old) group.old (P.meaning program.now).verdict) l changes asked
        → IsTrue (is_settling_beyond (P.meaning program.now) (room_of (SD.shown scratch.old).page_len) (settled_after (P.meaning program.now) l changes asked) asked))
        (GD.shown graph.old) (GD.shown graph.new) (SD.shown scratch.old) (SD.shown scratch.new)) }
    ensures leaves { (l changes : Graph) (asked : Pairs)
        → Begun (P.meaning program.now) (room_of (SD.shown scratch.old).page_len) tally.now (St.holds store.old desk.old (GD.shown graph.old)) (ToGive (SD.shown scratch.old) updates.old)
        (ToGive (SD.shown scratch.old) requests.old) (Took (SD.shown scratch.old) vids.old) (G.took (SD.shown scratch.old) group.old (P.meaning program.now).verdict) l changes asked
        → OnTrue St.counted (St.leaves store.new ≤ St.leaves store.old + touched changes asked) }
    ensures reads { (l changes : Graph) (asked : Pairs)
        → Begun (P.meaning program.now) (room_of (SD.shown scratch.old).page_len) tally.now (St.holds store.old desk.old (GD.shown graph.old)) (ToGive (SD.shown scratch.old) updates.old)
        (ToGive (SD.shown scratch.old) requests.old) (Took (SD.shown scratch.old) vids.old) (G.took (SD.shown scratch.old) group.old (P.meaning program.now).verdict) l changes asked
        → OnTrue St.counted ((GD.shown graph.new).reads ≤ (GD.shown graph.old).reads + 192 * touched changes asked) }
    ensures part { St.part store.new ≡ St.part store.old }
    ensures desk { SameDesk desk.old desk.new }
    ensures first_stays { SameRoom first.old first.new }
    ensures second_stays { SameRoom second.old second.new }
    ensures verdict { SameBuf verdict.old verdict.new }
    ensures spare { SameBuf spare.old spare.new }
    ensures updates_file { updates.new.file ≡ updates.old.file }
    ensures updates_len { updates.new.page_len ≡ updates.old.page_len }
    ensures requests_file { requests.new.file ≡ requests.old.file }
    ensures requests_len { requests.new.page_len ≡ requests.old.page_len }
    ensures vids_file { vids.new.file ≡ vids.old.file }
    ensures vids_len { vids.new.page_len ≡ vids.old.page_len }
    ensures group { G.made group.new ≡ G.made group.old }
{
    take_pairs(scratch, program.verdict(), group, requests, spare)?;
    group.seal(scratch, program.verdict())?;
    let counts = settle_all(
        program, store, desk, graph, scratch, updates, vids, group, first, second, verdict,
    )?;
    vids.finish(scratch)?;
    tally_after(tally, counts, vids.pages())
}
