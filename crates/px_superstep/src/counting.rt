// The vertices of each store are counted.
ghost use Rattle.std.specs.Prelude.{◌≡◌, ◌≤◌, ◌<◌, ◌+◌, ◌^◌, [], ℕ, if◌then◌else◌, None, length, slice_index_or, OnOk, IfOk, IfErr};
ghost use Rattle.px_core.specs.Parts.{to_part};
ghost use Rattle.px_core.specs.Shown.{Clean, Broke};
ghost use Rattle.px_cache.specs.View.{AnyFile};
ghost use Rattle.px_meaning.specs.Graph.{Graph, room_of};
ghost use Rattle.px_store.specs.Desks.{IsReady, IsDone, SameDesk, SameRoom};
ghost use Rattle.px_load.specs.Dumping.{KeepAll};
ghost use Rattle.px_load.specs.Loading.{IsFree, AreStores, HoldGraph};
ghost use Rattle.px_superstep.specs.Counting.{IsCounted, AreCounted, no_tally};

use px_connectors::MOST_PARTS;
use px_core::{Disk, Stop};
use px_mutations::Tally;
use px_record::VertexBuf;
use px_store::{Desk, Store};

/// Nothing was counted yet.
pub(crate) const NO_TALLY: Tally = Tally {
    count: 0,
    live: 0,
    vid_pages: 0,
};

// One vertex more.
fn with_vertex(tally: Tally, halts: bool) -> Tally
    ensures count { tally.count + 1 < 2 ^ 64 → result.count ≡ tally.count + 1 }
    ensures live { tally.live + 1 < 2 ^ 64 → result.live ≡ tally.live + (if halts then 0 else 1) }
{
    Tally {
        count: tally.count.saturating_add(1),
        live: tally.live.saturating_add(u64::from(!halts)),
        ..tally
    }
}

// Counts the vertices that a store still gives.
fn count_rest<St: Store, D: Disk>(
    store: &mut St,
    desk: &mut Desk,
    disk: &mut D,
    v: &mut VertexBuf,
) -> Result<Tally, Stop>
    requires ready { IsReady St.counted (St.part store.old) desk.old (D.shown disk.old) }
    requires room { v.old.room ≡ room_of (D.shown disk.old).page_len }
    ensures scans { OnOk result ((l : Graph) → St.scans store.old desk.old (D.shown disk.old) [] l → St.scans store.new desk.new (D.shown disk.new) l []) }
    ensures counted { IfOk result (λ tally. (l : Graph) → St.scans store.old desk.old (D.shown disk.old) [] l → IsCounted tally l) }
    ensures part { St.part store.new ≡ St.part store.old }
    ensures desk { SameDesk desk.old desk.new }
    ensures done { OnOk result (IsDone St.counted (St.part store.old) desk.old (D.shown disk.old) desk.new (D.shown disk.new)) }
    ensures err { IfErr result (Broke Stop.Graph AnyFile (D.shown disk.old) (D.shown disk.new)) }
    ensures vertex { SameRoom v.old v.new }
{
    let mut tally = NO_TALLY;
    while store.next(disk, desk, v)? {
        tally = with_vertex(tally, v.halt());
    }
    Ok(tally)
}

// Counts the vertices of a store.
fn count_store<St: Store, D: Disk>(
    store: &mut St,
    desk: &mut Desk,
    disk: &mut D,
    v: &mut VertexBuf,
) -> Result<Tally, Stop>
    requires ready { IsReady St.counted (St.part store.old) desk.old (D.shown disk.old) }
    requires room { v.old.room ≡ room_of (D.shown disk.old).page_len }
    ensures keeps { OnOk result ((l : Graph) → St.holds store.old desk.old (D.shown disk.old) l → St.holds store.new desk.new (D.shown disk.new) l) }
    ensures counted { IfOk result (λ tally. (l : Graph) → St.holds store.old desk.old (D.shown disk.old) l → IsCounted tally l) }
    ensures part { St.part store.new ≡ St.part store.old }
    ensures desk { SameDesk desk.old desk.new }
    ensures done { OnOk result (IsDone St.counted (St.part store.old) desk.old (D.shown disk.old) desk.new (D.shown disk.new)) }
    ensures owner { OnOk result (desk.new.owner ≡ None) }
    ensures err { IfErr result (Broke Stop.Graph AnyFile (D.shown disk.old) (D.shown disk.new)) }
    ensures vertex { SameRoom v.old v.new }
{
    store.rewind(disk, desk)?;
    let tally = count_rest(store, desk, disk, v)?;
    store.settle(disk, desk)?;
    Ok(tally)
}

// Counts the vertices of the store of partition q.
fn count_at<St: Store, D: Disk>(
    stores: &mut [St],
    q: u32,
    desk: &mut Desk,
    disk: &mut D,
    v: &mut VertexBuf,
) -> Result<Tally, Stop>
    requires at { q < length stores.old }
    requires parts { AreStores St.part stores.old }
    requires free { IsFree St.counted desk.old (D.shown disk.old) }
    requires room { v.old.room ≡ room_of (D.shown disk.old).page_len }
    ensures keeps { OnOk result (KeepAll (λ st l. St.holds st desk.old (D.shown disk.old) l) (λ st l. St.holds st desk.new (D.shown disk.new) l) stores.old stores.new) }
    ensures counted { IfOk result (λ tally. (g : Graph) → HoldGraph (λ st l. St.holds st desk.old (D.shown disk.old) l) stores.old g → IsCounted tally (to_part (length stores.old) q g)) }
    ensures count { length stores.new ≡ length stores.old }
    ensures parts { AreStores St.part stores.new }
    ensures desk { SameDesk desk.old desk.new }
    ensures free { OnOk result (IsFree St.counted desk.new (D.shown disk.new)) }
    ensures clean { OnOk result (Clean AnyFile (D.shown disk.old) (D.shown disk.new)) }
    ensures err { IfErr result (Broke Stop.Graph AnyFile (D.shown disk.old) (D.shown disk.new)) }
    ensures vertex { SameRoom v.old v.new }
{
    let tally = count_store(&mut stores[q as usize], desk, disk, v)?;
    Ok(tally)
}

// Notes the numbers of a partition.
fn note_tally(tallies: &mut [Tally; MOST_PARTS], q: u32, tally: Tally)
    requires { q < 16 }
    ensures at { slice_index_or tallies.new q no_tally ≡ tally }
    ensures others { (i : ℕ) → (i ≡ q → ⊥) → slice_index_or tallies.new i no_tally ≡ slice_index_or tallies.old i no_tally }
{
    tallies[q as usize] = tally;
}

/// Counts the vertices of each store.
pub(crate) fn count_all<St: Store, D: Disk>(
    stores: &mut [St],
    tallies: &mut [Tally; MOST_PARTS],
    desk: &mut Desk,
    disk: &mut D,
    v: &mut VertexBuf,
) -> Result<(), Stop>
    requires parts { AreStores St.part stores.old }
    requires free { IsFree St.counted desk.old (D.shown disk.old) }
    requires room { v.old.room ≡ room_of (D.shown disk.old).page_len }
    ensures keeps { OnOk result (KeepAll (λ st l. St.holds st desk.old (D.shown disk.old) l) (λ st l. St.holds st desk.new (D.shown disk.new) l) stores.old stores.new) }
    ensures counted { OnOk result ((g : Graph) → HoldGraph (λ st l. St.holds st desk.old (D.shown disk.old) l) stores.old g → AreCounted tallies.new (length stores.old) (length stores.old) g) }
    ensures count { length stores.new ≡ length stores.old }
    ensures parts { AreStores St.part stores.new }
    ensures desk { SameDesk desk.old desk.new }
    ensures free { OnOk result (IsFree St.counted desk.new (D.shown disk.new)) }
    ensures clean { OnOk result (Clean AnyFile (D.shown disk.old) (D.shown disk.new)) }
    ensures err { IfErr result (Broke Stop.Graph AnyFile (D.shown disk.old) (D.shown disk.new)) }
    ensures vertex { SameRoom v.old v.new }
{
    for q in 0..stores.len() as u32 {
        let tally = count_at(stores, q, desk, disk, v)?;
        note_tally(tallies, q, tally);
    }
    Ok(())
}
