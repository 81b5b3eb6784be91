// The stores are filled in turn, each from the file of its partition.
ghost use Rattle.std.specs.Prelude.{◌≡◌, ◌≤◌, ◌<◌, ◌+◌, ◌*◌, [], ℕ, length, true, None, OnOk, IfOk, IfErr, IsTrue, slice_index_or};
ghost use Rattle.std.specs.Bool.{OnTrue};
ghost use Rattle.px_core.specs.Shown.{Clean, Broke, Only, NoFile};
ghost use Rattle.px_cache.specs.View.{AnyFile};
ghost use Rattle.px_meaning.specs.Graph.{Graph, IsMap, room_of};
ghost use Rattle.px_meaning.specs.Merge.{Pairs};
ghost use Rattle.px_store.specs.Desks.{IsReady, IsDone, SameDesk, SameRoom};
ghost use Rattle.px_stream.specs.Counts.{left};
ghost use Rattle.px_stream.specs.Stream.{ToGive, Holds};
ghost use Rattle.px_frames.specs.Buffer as buffer;
ghost use Rattle.px_load.specs.Frames.{SameLoadFrames, StillReader};
ghost use Rattle.px_load.specs.Held.{tuples};
ghost use Rattle.px_load.specs.Filling.{GaveNext, HoldUpTo};
ghost use Rattle.px_load.specs.Loading.{IsFree, AreStores, HoldGraph, FewLeaves};
ghost use Rattle.px_load.specs.Reading.{vertices_of, AllBodies};
ghost use Rattle.px_load.specs.Stops.{Stops, IsFault, IsLoadFile};
ghost use Rattle.px_connectors.specs.Writers.{HoldParts};

use crate::frames::LoadFrames;
use crate::parting::FIRST_PART;
use crate::stops::LoadStop;
use px_connectors::MOST_PARTS;
use px_core::{Disk, Stop};
use px_frames::Buf;
use px_record::VertexBuf;
use px_store::{Desk, Store};
use px_stream::Reader;

// Makes the record the next vertex of the file. It is false at the end of the file.
fn next_vertex<D: Disk>(
    disk: &mut D,
    reader: &mut Reader,
    body: &mut Buf,
    v: &mut VertexBuf,
) -> Result<bool, Stop>
    requires page_len { reader.old.page_len ≡ (D.shown disk.old).page_len }
    requires limit { room_of reader.old.page_len ≤ 13 + body.old.limit }
    ensures gave { IfOk result (λ more. (l : Pairs) → AllBodies v.old.room l → ToGive (D.shown disk.old) reader.old (tuples l) → GaveNext more v.new l (λ rest. ToGive (D.shown disk.new) reader.new (tuples rest))) }
    ensures falls { IfOk result (λ more. IsTrue more → left reader.new < left reader.old) }
    ensures ok { OnOk result (Clean NoFile (D.shown disk.old) (D.shown disk.new)) }
    ensures err { IfErr result (Broke Stop.Scratch (Only reader.old.file) (D.shown disk.old) (D.shown disk.new)) }
    ensures reader { StillReader reader.old reader.new }
    ensures body { buffer.SameRoom body.old body.new }
    ensures vertex { SameRoom v.old v.new }
{
    let Some(head) = reader.next(disk, body)? else {
        return Ok(false);
    };
    // What a writer put is a vertex. Other bytes leave the record as it was.
    let _ = v.load(head.key, body.bytes());
    Ok(true)
}

// Gives all vertices of a file to a store that was started.
fn take_all<St: Store, GD: Disk, SD: Disk>(
    store: &mut St,
    desk: &mut Desk,
    graph: &mut GD,
    scratch: &mut SD,
    reader: &mut Reader,
    body: &mut Buf,
    v: &mut VertexBuf,
) -> Result<(), LoadStop>
    requires ready { IsReady St.counted (St.part store.old) desk.old (GD.shown graph.old) }
    requires page_len { reader.old.page_len ≡ (SD.shown scratch.old).page_len }
    requires limit { room_of reader.old.page_len ≤ 13 + body.old.limit }
    requires room { v.old.room ≡ room_of (GD.shown graph.old).page_len }
    ensures took { OnOk result ((l : Pairs) → AllBodies v.old.room l → IsMap l → ToGive (SD.shown scratch.old) reader.old (tuples l) → St.fills store.old desk.old (GD.shown graph.old) [] → St.fills store.new desk.new (GD.shown graph.new) (vertices_of l)) }
    ensures leaves { OnTrue St.counted (OnOk result ((l : Pairs) → AllBodies v.old.room l → IsMap l → ToGive (SD.shown scratch.old) reader.old (tuples l) → St.leaves store.new ≤ St.leaves store.old + length l)) }
    ensures reads { OnTrue St.counted ((l : Pairs) → AllBodies v.old.room l → IsMap l → ToGive (SD.shown scratch.old) reader.old (tuples l) → (GD.shown graph.new).reads + St.saved store.new ≤ (GD.shown graph.old).reads + St.saved store.old + 2 * length l) }
    ensures part { St.part store.new ≡ St.part store.old }
    ensures desk { SameDesk desk.old desk.new }
    ensures done { OnOk result (IsDone St.counted (St.part store.old) desk.old (GD.shown graph.old) desk.new (GD.shown graph.new)) }
    ensures scratch { OnOk result (Clean NoFile (SD.shown scratch.old) (SD.shown scratch.new)) }
    ensures err { IfErr result (λ e. IsLoadFile reader.old.file → (n : ℕ) → Stops n n (GD.shown graph.old) (GD.shown graph.new) (SD.shown scratch.old) (SD.shown scratch.new) e) }
    ensures fault { IfErr result IsFault }
    ensures reader { StillReader reader.old reader.new }
    ensures body { buffer.SameRoom body.old body.new }
    ensures vertex { SameRoom v.old v.new }
{
    while next_vertex(scratch, reader, body, v)? {
        store.bulk_put(graph, desk, v)?;
    }
    Ok(())
}

// Fills a store from its file.
fn fill_store<St: Store, GD: Disk, SD: Disk>(
    store: &mut St,
    desk: &mut Desk,
    graph: &mut GD,
    scratch: &mut SD,
    reader: &mut Reader,
    body: &mut Buf,
    v: &mut VertexBuf,
) -> Result<(), LoadStop>
    requires ready { IsReady St.counted (St.part store.old) desk.old (GD.shown graph.old) }
    requires page_len { reader.old.page_len ≡ (SD.shown scratch.old).page_len }
    requires limit { room_of reader.old.page_len ≤ 13 + body.old.limit }
    requires room { v.old.room ≡ room_of (GD.shown graph.old).page_len }
    ensures holds { OnOk result ((l : Pairs) → AllBodies v.old.room l → IsMap l → ToGive (SD.shown scratch.old) reader.old (tuples l) → (GD.shown graph.old).tells ≡ true → St.holds store.new desk.new (GD.shown graph.new) (vertices_of l)) }
    ensures leaves { OnTrue St.counted (OnOk result ((l : Pairs) → AllBodies v.old.room l → IsMap l → ToGive (SD.shown scratch.old) reader.old (tuples l) → St.leaves store.new ≤ length l + 1)) }
    ensures reads { OnTrue St.counted ((l : Pairs) → AllBodies v.old.room l → IsMap l → ToGive (SD.shown scratch.old) reader.old (tuples l) → (GD.shown graph.new).reads ≤ (GD.shown graph.old).reads + 2 * length l) }
    ensures part { St.part store.new ≡ St.part store.old }
    ensures desk { SameDesk desk.old desk.new }
    ensures done { OnOk result (IsDone St.counted (St.part store.old) desk.old (GD.shown graph.old) desk.new (GD.shown graph.new)) }
    ensures owner { OnOk result (desk.new.owner ≡ None) }
    ensures scratch { OnOk result (Clean NoFile (SD.shown scratch.old) (SD.shown scratch.new)) }
    ensures err { IfErr result (λ e. IsLoadFile reader.old.file → (n : ℕ) → Stops n n (GD.shown graph.old) (GD.shown graph.new) (SD.shown scratch.old) (SD.shown scratch.new) e) }
    ensures fault { IfErr result IsFault }
    ensures reader { StillReader reader.old reader.new }
    ensures body { buffer.SameRoom body.old body.new }
    ensures vertex { SameRoom v.old v.new }
{
    store.start(graph, desk)?;
    take_all(store, desk, graph, scratch, reader, body, v)?;
    store.bulk_end(graph, desk)?;
    store.settle(graph, desk)?;
    Ok(())
}

// Fills the store of partition q from its file of so many pages.
fn fill_at<St: Store, GD: Disk, SD: Disk>(
    stores: &mut [St],
    q: u32,
    pages: u64,
    frames: &mut LoadFrames,
    desk: &mut Desk,
    graph: &mut GD,
    scratch: &mut SD,
) -> Result<(), LoadStop>
    requires at { q < length stores.old }
    requires parts { AreStores St.part stores.old }
    requires free { IsFree St.counted desk.old (GD.shown graph.old) }
    requires pages { (GD.shown graph.old).page_len ≡ (SD.shown scratch.old).page_len }
    requires outs { 1 ≤ length frames.old.outs.frames }
    requires outs_len { frames.old.outs.frame_len ≡ (SD.shown scratch.old).page_len }
    requires limit { 13 + frames.old.body.limit ≡ room_of (SD.shown scratch.old).page_len }
    requires room { frames.old.vertex.room ≡ room_of (SD.shown scratch.old).page_len }
    ensures holds { OnOk result ((graphs : ℕ → Graph) (l : Pairs) → AllBodies frames.old.vertex.room l → IsMap l → Holds (SD.shown scratch.old) (192 + q) pages (tuples l) → (GD.shown graph.old).tells ≡ true → graphs q ≡ vertices_of l
        → HoldUpTo (λ st g. St.holds st desk.old (GD.shown graph.old) g) q graphs stores.old → HoldUpTo (λ st g. St.holds st desk.new (GD.shown graph.new) g) (q + 1) graphs stores.new) }
    ensures leaves { OnTrue St.counted (OnOk result ((graphs : ℕ → Graph) (l : Pairs) → AllBodies frames.old.vertex.room l → IsMap l → Holds (SD.shown scratch.old) (192 + q) pages (tuples l) → graphs q ≡ vertices_of l
        → HoldUpTo (λ st g. St.leaves st ≤ length g + 1) q graphs stores.old → HoldUpTo (λ st g. St.leaves st ≤ length g + 1) (q + 1) graphs stores.new)) }
    ensures reads { OnTrue St.counted ((l : Pairs) → AllBodies frames.old.vertex.room l → IsMap l → Holds (SD.shown scratch.old) (192 + q) pages (tuples l) → (GD.shown graph.new).reads ≤ (GD.shown graph.old).reads + 2 * length l) }
    ensures count { length stores.new ≡ length stores.old }
    ensures parts { AreStores St.part stores.new }
    ensures desk { SameDesk desk.old desk.new }
    ensures free { OnOk result (IsFree St.counted desk.new (GD.shown graph.new)) }
    ensures clean { OnOk result (Clean AnyFile (GD.shown graph.old) (GD.shown graph.new)) }
    ensures scratch { OnOk result (Clean NoFile (SD.shown scratch.old) (SD.shown scratch.new)) }
    ensures err { IfErr result (λ e. (n : ℕ) → Stops n n (GD.shown graph.old) (GD.shown graph.new) (SD.shown scratch.old) (SD.shown scratch.new) e) }
    ensures fault { IfErr result IsFault }
    ensures frames { SameLoadFrames frames.old frames.new }
{
    let _places = frames.outs.size();
    let mut reader = Reader::new(frames.outs.take(), FIRST_PART + q);
    reader.start(pages);
    let answer = fill_store(
        &mut stores[q as usize],
        desk,
        graph,
        scratch,
        &mut reader,
        &mut frames.body,
        &mut frames.vertex,
    );
    frames.outs.put(reader.close());
    answer?;
    Ok(())
}

// The number of pages of a partition's file.
fn pages_at(pages: &[u64; MOST_PARTS], q: u32) -> u64
    requires { q < 16 }
    ensures { result ≡ slice_index_or pages.now q 0 }
{
    pages[q as usize]
}

/// Fills each store from the file of its partition.
pub(crate) fn fill_all<St: Store, GD: Disk, SD: Disk>(
    stores: &mut [St],
    pages: &[u64; MOST_PARTS],
    frames: &mut LoadFrames,
    desk: &mut Desk,
    graph: &mut GD,
    scratch: &mut SD,
) -> Result<(), LoadStop>
    requires parts { AreStores St.part stores.old }
    requires free { IsFree St.counted desk.old (GD.shown graph.old) }
    requires pages { (GD.shown graph.old).page_len ≡ (SD.shown scratch.old).page_len }
    requires outs { 1 ≤ length frames.old.outs.frames }
    requires outs_len { frames.old.outs.frame_len ≡ (SD.shown scratch.old).page_len }
    requires limit { 13 + frames.old.body.limit ≡ room_of (SD.shown scratch.old).page_len }
    requires room { frames.old.vertex.room ≡ room_of (SD.shown scratch.old).page_len }
    ensures holds { OnOk result ((l : Pairs) → AllBodies frames.old.vertex.room l → IsMap l → HoldParts (SD.shown scratch.old) 1 192 (length stores.old) pages.now l → (GD.shown graph.old).tells ≡ true
        → HoldGraph (λ st g. St.holds st desk.new (GD.shown graph.new) g) stores.new (vertices_of l)) }
    ensures leaves { OnTrue St.counted (OnOk result ((l : Pairs) → AllBodies frames.old.vertex.room l → IsMap l → HoldParts (SD.shown scratch.old) 1 192 (length stores.old) pages.now l → FewLeaves St.leaves stores.new (vertices_of l))) }
    ensures reads { OnTrue St.counted ((l : Pairs) → AllBodies frames.old.vertex.room l → IsMap l → HoldParts (SD.shown scratch.old) 1 192 (length stores.old) pages.now l → (GD.shown graph.new).reads ≤ (GD.shown graph.old).reads + 2 * length l) }
    ensures count { length stores.new ≡ length stores.old }
    ensures parts { AreStores St.part stores.new }
    ensures desk { SameDesk desk.old desk.new }
    ensures free { OnOk result (IsFree St.counted desk.new (GD.shown graph.new)) }
    ensures clean { OnOk result (Clean AnyFile (GD.shown graph.old) (GD.shown graph.new)) }
    ensures scratch { OnOk result (Clean NoFile (SD.shown scratch.old) (SD.shown scratch.new)) }
    ensures err { IfErr result (λ e. (n : ℕ) → Stops n n (GD.shown graph.old) (GD.shown graph.new) (SD.shown scratch.old) (SD.shown scratch.new) e) }
    ensures fault { IfErr result IsFault }
    ensures frames { SameLoadFrames frames.old frames.new }
{
    for q in 0..stores.len() as u32 {
        let count = pages_at(pages, q);
        fill_at(stores, q, count, frames, desk, graph, scratch)?;
    }
    Ok(())
}
