// The vertices of each store go to a file of its partition.
ghost use Rattle.std.specs.Prelude.{◌≡◌, ◌≤◌, ◌<◌, ◌+◌, ◌*◌, ◌++◌, [], ℕ, length, map, take, true, None, OnOk, IfOk, IfErr, slice_index_or};
ghost use Rattle.std.specs.Bool.{OnTrue};
ghost use Rattle.px_core.specs.Parts.{to_part};
ghost use Rattle.px_core.specs.Shown.{Clean, Only};
ghost use Rattle.px_cache.specs.View.{AnyFile};
ghost use Rattle.px_meaning.specs.Graph.{Graph, room_of};
ghost use Rattle.px_store.specs.Desks.{IsReady, IsDone, SameDesk, SameRoom};
ghost use Rattle.px_stream.specs.Stream.{Took, Holds};
ghost use Rattle.px_load.specs.Dumping.{DumpStops, IsDumpFile, KeepAll, FarKept, total};
ghost use Rattle.px_load.specs.Frames.{SameLoadFrames};
ghost use Rattle.px_load.specs.Loading.{IsFree, AreStores, HoldGraph};
ghost use Rattle.px_load.specs.Scanning.{Spelled, HoldsVertices, HoldFiles};

use crate::frames::LoadFrames;
use crate::parting::FIRST_PART;
use crate::stops::DumpStop;
use px_connectors::MOST_PARTS;
use px_core::Disk;
use px_pages::tags;
use px_record::VertexBuf;
use px_store::{Desk, Store};
use px_stream::Writer;

// Puts all vertices that a store still gives into a file.
fn put_all<St: Store, GD: Disk, SD: Disk>(
    store: &mut St,
    desk: &mut Desk,
    graph: &mut GD,
    scratch: &mut SD,
    writer: &mut Writer,
    v: &mut VertexBuf,
) -> Result<(), DumpStop>
    requires ready { IsReady St.counted (St.part store.old) desk.old (GD.shown graph.old) }
    requires page_len { writer.old.page_len ≡ (SD.shown scratch.old).page_len }
    requires pages { (GD.shown graph.old).page_len ≡ (SD.shown scratch.old).page_len }
    requires room { v.old.room ≡ room_of (GD.shown graph.old).page_len }
    ensures scans { OnOk result ((l : Graph) → St.scans store.old desk.old (GD.shown graph.old) [] l → St.scans store.new desk.new (GD.shown graph.new) l []) }
    ensures took { OnOk result ((l : Graph) → St.scans store.old desk.old (GD.shown graph.old) [] l → Took (SD.shown scratch.old) writer.old [] → Spelled v.old.room (Took (SD.shown scratch.new) writer.new) l) }
    ensures leaves { OnTrue St.counted (St.leaves store.new ≡ St.leaves store.old) }
    ensures reads { OnTrue St.counted ((GD.shown graph.new).reads + St.unread store.new desk.new ≤ (GD.shown graph.old).reads + St.unread store.old desk.old) }
    ensures part { St.part store.new ≡ St.part store.old }
    ensures desk { SameDesk desk.old desk.new }
    ensures done { OnOk result (IsDone St.counted (St.part store.old) desk.old (GD.shown graph.old) desk.new (GD.shown graph.new)) }
    ensures scratch { OnOk result (Clean (Only writer.old.file) (SD.shown scratch.old) (SD.shown scratch.new)) }
    ensures err { IfErr result (λ e. IsDumpFile writer.old.file → (n : ℕ) → DumpStops n n (GD.shown graph.old) (GD.shown graph.new) (SD.shown scratch.old) (SD.shown scratch.new) e) }
    ensures file { writer.new.file ≡ writer.old.file }
    ensures first { OnOk result (writer.new.first ≡ writer.old.first) }
    ensures writer { writer.new.page_len ≡ writer.old.page_len }
    ensures vertex { SameRoom v.old v.new }
{
    while store.next(graph, desk, v)? {
        writer.put(scratch, v.vid(), tags::VERTEX, v.body())?;
    }
    Ok(())
}

// Puts all vertices of a store into a file, and answers how many pages that has.
fn scan_store<St: Store, GD: Disk, SD: Disk>(
    store: &mut St,
    desk: &mut Desk,
    graph: &mut GD,
    scratch: &mut SD,
    writer: &mut Writer,
    v: &mut VertexBuf,
) -> Result<u64, DumpStop>
    requires ready { IsReady St.counted (St.part store.old) desk.old (GD.shown graph.old) }
    requires page_len { writer.old.page_len ≡ (SD.shown scratch.old).page_len }
    requires pages { (GD.shown graph.old).page_len ≡ (SD.shown scratch.old).page_len }
    requires room { v.old.room ≡ room_of (GD.shown graph.old).page_len }
    ensures keeps { OnOk result ((l : Graph) → St.holds store.old desk.old (GD.shown graph.old) l → St.holds store.new desk.new (GD.shown graph.new) l) }
    ensures file { IfOk result (λ pages. (l : Graph) → St.holds store.old desk.old (GD.shown graph.old) l → (SD.shown scratch.old).tells ≡ true → HoldsVertices (SD.shown scratch.new) v.old.room writer.old.file pages l) }
    ensures leaves { OnTrue St.counted (St.leaves store.new ≡ St.leaves store.old) }
    ensures reads { OnTrue St.counted ((GD.shown graph.new).reads ≤ (GD.shown graph.old).reads + 64 + St.leaves store.old) }
    ensures part { St.part store.new ≡ St.part store.old }
    ensures desk { SameDesk desk.old desk.new }
    ensures done { OnOk result (IsDone St.counted (St.part store.old) desk.old (GD.shown graph.old) desk.new (GD.shown graph.new)) }
    ensures owner { OnOk result (desk.new.owner ≡ None) }
    ensures scratch { OnOk result (Clean (Only writer.old.file) (SD.shown scratch.old) (SD.shown scratch.new)) }
    ensures err { IfErr result (λ e. IsDumpFile writer.old.file → (n : ℕ) → DumpStops n n (GD.shown graph.old) (GD.shown graph.new) (SD.shown scratch.old) (SD.shown scratch.new) e) }
    ensures writer { writer.new.page_len ≡ writer.old.page_len }
    ensures vertex { SameRoom v.old v.new }
{
    store.rewind(graph, desk)?;
    writer.start(scratch)?;
    put_all(store, desk, graph, scratch, writer, v)?;
    store.settle(graph, desk)?;
    writer.finish(scratch)?;
    Ok(writer.pages())
}

// Puts the vertices of the store of partition q into the file of that partition, and answers how many pages that has.
fn scan_at<St: Store, GD: Disk, SD: Disk>(
    stores: &mut [St],
    q: u32,
    frames: &mut LoadFrames,
    desk: &mut Desk,
    graph: &mut GD,
    scratch: &mut SD,
) -> Result<u64, DumpStop>
    requires at { q < length stores.old }
    requires parts { AreStores St.part stores.old }
    requires free { IsFree St.counted desk.old (GD.shown graph.old) }
    requires pages { (GD.shown graph.old).page_len ≡ (SD.shown scratch.old).page_len }
    requires outs { 1 ≤ length frames.old.outs.frames }
    requires outs_len { frames.old.outs.frame_len ≡ (SD.shown scratch.old).page_len }
    requires room { frames.old.vertex.room ≡ room_of (SD.shown scratch.old).page_len }
    ensures keeps { OnOk result (KeepAll (λ st l. St.holds st desk.old (GD.shown graph.old) l) (λ st l. St.holds st desk.new (GD.shown graph.new) l) stores.old stores.new) }
    ensures file { IfOk result (λ pages. (g : Graph) → HoldGraph (λ st l. St.holds st desk.old (GD.shown graph.old) l) stores.old g → (SD.shown scratch.old).tells ≡ true
        → HoldsVertices (SD.shown scratch.new) frames.old.vertex.room (192 + q) pages (to_part (length stores.old) q g)) }
    ensures leaves { OnTrue St.counted (map St.leaves stores.new ≡ map St.leaves stores.old) }
    ensures reads { OnTrue St.counted ((GD.shown graph.new).reads ≤ (GD.shown graph.old).reads + 64 + slice_index_or (map St.leaves stores.old) q 0) }
    ensures count { length stores.new ≡ length stores.old }
    ensures parts { AreStores St.part stores.new }
    ensures desk { SameDesk desk.old desk.new }
    ensures free { OnOk result (IsFree St.counted desk.new (GD.shown graph.new)) }
    ensures clean { OnOk result (Clean AnyFile (GD.shown graph.old) (GD.shown graph.new)) }
    ensures far { OnOk result (FarKept (length stores.old) desk.old (GD.shown graph.old) desk.new (GD.shown graph.new)) }
    ensures scratch { OnOk result (Clean (Only (192 + q)) (SD.shown scratch.old) (SD.shown scratch.new)) }
    ensures err { IfErr result (λ e. (n : ℕ) → DumpStops n n (GD.shown graph.old) (GD.shown graph.new) (SD.shown scratch.old) (SD.shown scratch.new) e) }
    ensures frames { SameLoadFrames frames.old frames.new }
{
    let _places = frames.outs.size();
    let mut writer = Writer::new(frames.outs.take(), FIRST_PART + q);
    let answer = scan_store(
        &mut stores[q as usize],
        desk,
        graph,
        scratch,
        &mut writer,
        &mut frames.vertex,
    );
    frames.outs.put(writer.close());
    let pages = answer?;
    Ok(pages)
}

// Notes the number of pages of a partition's file.
fn note_pages(pages: &mut [u64; MOST_PARTS], q: u32, count: u64)
    requires { q < 16 }
    ensures at { slice_index_or pages.new q 0 ≡ count }
    ensures others { (i : ℕ) → (i ≡ q → ⊥) → slice_index_or pages.new i 0 ≡ slice_index_or pages.old i 0 }
{
    pages[q as usize] = count;
}

/// Puts the vertices of each store into the file of its partition, in the order of their vids, and answers how many pages each file has.
pub(crate) fn scan_all<St: Store, GD: Disk, SD: Disk>(
    stores: &mut [St],
    frames: &mut LoadFrames,
    desk: &mut Desk,
    graph: &mut GD,
    scratch: &mut SD,
) -> Result<[u64; MOST_PARTS], DumpStop>
    requires parts { AreStores St.part stores.old }
    requires free { IsFree St.counted desk.old (GD.shown graph.old) }
    requires pages { (GD.shown graph.old).page_len ≡ (SD.shown scratch.old).page_len }
    requires outs { 1 ≤ length frames.old.outs.frames }
    requires outs_len { frames.old.outs.frame_len ≡ (SD.shown scratch.old).page_len }
    requires room { frames.old.vertex.room ≡ room_of (SD.shown scratch.old).page_len }
    ensures keeps { OnOk result (KeepAll (λ st l. St.holds st desk.old (GD.shown graph.old) l) (λ st l. St.holds st desk.new (GD.shown graph.new) l) stores.old stores.new) }
    ensures files { IfOk result (λ pages. (g : Graph) → HoldGraph (λ st l. St.holds st desk.old (GD.shown graph.old) l) stores.old g → (SD.shown scratch.old).tells ≡ true
        → HoldFiles (SD.shown scratch.new) frames.old.vertex.room (length stores.old) (length stores.old) pages g) }
    ensures leaves { OnTrue St.counted (map St.leaves stores.new ≡ map St.leaves stores.old) }
    ensures reads { OnTrue St.counted ((GD.shown graph.new).reads ≤ (GD.shown graph.old).reads + 64 * length stores.old + total (map St.leaves stores.old)) }
    ensures count { length stores.new ≡ length stores.old }
    ensures parts { AreStores St.part stores.new }
    ensures desk { SameDesk desk.old desk.new }
    ensures free { OnOk result (IsFree St.counted desk.new (GD.shown graph.new)) }
    ensures clean { OnOk result (Clean AnyFile (GD.shown graph.old) (GD.shown graph.new)) }
    ensures far { OnOk result (FarKept (length stores.old) desk.old (GD.shown graph.old) desk.new (GD.shown graph.new)) }
    ensures scratch { OnOk result (Clean IsDumpFile (SD.shown scratch.old) (SD.shown scratch.new)) }
    ensures err { IfErr result (λ e. (n : ℕ) → DumpStops n n (GD.shown graph.old) (GD.shown graph.new) (SD.shown scratch.old) (SD.shown scratch.new) e) }
    ensures frames { SameLoadFrames frames.old frames.new }
{
    let mut pages = [0; MOST_PARTS];
    for q in 0..stores.len() as u32 {
        let count = scan_at(stores, q, frames, desk, graph, scratch)?;
        note_pages(&mut pages, q, count);
    }
    Ok(pages)
}
