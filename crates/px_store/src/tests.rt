// Callers of any store, which stand on its clauses alone.
ghost use Rattle.std.specs.Prelude.{◌≡◌, ◌≤◌, ◌<◌, ◌+◌, ◌*◌, ℕ, List, length, None, OnOk, OnErr, IfOk, IfErr, IsErrOf, if◌then◌else◌};
ghost use Rattle.std.specs.Bool.{OnTrue};
ghost use Rattle.px_core.specs.Counts.{Rose};
ghost use Rattle.px_core.specs.Shown.{Clean, Broke};
ghost use Rattle.px_meaning.specs.Graph.{Graph, vids, put as put_item, room_of};
ghost use Rattle.px_cache.specs.View.{AnyFile};
ghost use Rattle.px_store.specs.Desks.{IsReady, IsDone, SameDesk, GivesNext};
ghost use Rattle.px_store.specs.Lists.{AreParts, HoldAll, change, found_in};

mod joining;

use crate::{Desk, Store};
use px_core::{Disk, Stop};
use px_record::VertexBuf;
use std::alloc::Global;

// Why a scan stopped.
#[derive(Clone, Copy, Debug, PartialEq, Eq)]
enum Why {
    Graph,
    Memory,
}

// The vids that a store holds, in order.
fn scan<St: Store, D: Disk>(
    alloc: Global,
    disk: &mut D,
    desk: &mut Desk,
    store: &mut St,
    into: &mut VertexBuf,
) -> Result<Vec<u64>, Why>
    requires ready { IsReady St.counted (St.part store.old) desk.old (D.shown disk.old) }
    requires room { into.old.room ≡ room_of (D.shown disk.old).page_len }
    ensures vids { IfOk result (λ v. (l : Graph) → St.holds store.old desk.old (D.shown disk.old) l → v.items ≡ vids l) }
    ensures holds { OnOk result ((l : Graph) → St.holds store.old desk.old (D.shown disk.old) l → St.holds store.new desk.new (D.shown disk.new) l) }
    ensures leaves { OnTrue St.counted (St.leaves store.new ≡ St.leaves store.old) }
    ensures reads { OnTrue St.counted ((D.shown disk.new).reads ≤ (D.shown disk.old).reads + 64 + St.leaves store.old) }
    ensures ready { OnOk result (IsReady St.counted (St.part store.old) desk.new (D.shown disk.new)) }
    ensures clean { OnOk result (Clean AnyFile (D.shown disk.old) (D.shown disk.new)) }
    ensures rose { IsErrOf result Why.Graph → Rose (D.shown disk.old).faults (D.shown disk.new).faults }
{
    match store.rewind(disk, desk) {
        Ok(()) => {}
        Err(_) => return Err(Why::Graph),
    }
    let mut found = Vec::new(alloc);
    loop {
        match store.next(disk, desk, into) {
            Err(_) => return Err(Why::Graph),
            Ok(false) => return Ok(found),
            Ok(true) => match found.push(into.vid()) {
                Ok(()) => {}
                Err(_) => return Err(Why::Memory),
            },
        }
    }
}

// How many of the vids are there.
fn probe_all<St: Store, D: Disk>(
    disk: &mut D,
    desk: &mut Desk,
    store: &mut St,
    vids: &[u64],
    into: &mut VertexBuf,
) -> Result<u64, Stop>
    requires ready { IsReady St.counted (St.part store.old) desk.old (D.shown disk.old) }
    requires room { into.old.room ≡ room_of (D.shown disk.old).page_len }
    ensures found { IfOk result (λ n. (l : Graph) → St.holds store.old desk.old (D.shown disk.old) l → n ≡ found_in l vids.now) }
    ensures holds { OnOk result ((l : Graph) → St.holds store.old desk.old (D.shown disk.old) l → St.holds store.new desk.new (D.shown disk.new) l) }
    ensures leaves { OnTrue St.counted (St.leaves store.new ≡ St.leaves store.old) }
    ensures reads { OnTrue St.counted ((D.shown disk.new).reads ≤ (D.shown disk.old).reads + 64 * length vids.now) }
    ensures desk { SameDesk desk.old desk.new }
    ensures done { OnOk result (IsDone St.counted (St.part store.old) desk.old (D.shown disk.old) desk.new (D.shown disk.new)) }
    ensures err { IfErr result (Broke Stop.Graph AnyFile (D.shown disk.old) (D.shown disk.new)) }
{
    let mut found = 0u64;
    for i in 0..vids.len() {
        let there = store.get(disk, desk, vids[i], into)?;
        found += one_if(there);
    }
    Ok(found)
}

fn one_if(there: bool) -> u64
    ensures { result ≡ (if there then 1 else 0) }
{
    u64::from(there)
}

// Puts a vertex into one store of a list.
fn put_at<St: Store, D: Disk>(
    disk: &mut D,
    desk: &mut Desk,
    stores: &mut [St],
    q: usize,
    v: &VertexBuf,
) -> Result<(), Stop>
    requires at { q < length stores.old }
    requires parts { AreParts St.part stores.old }
    requires ready { IsReady St.counted q desk.old (D.shown disk.old) }
    requires owner { desk.old.owner ≡ None }
    requires room { v.now.room ≡ room_of (D.shown disk.old).page_len }
    ensures holds { OnOk result ((ls : List Graph) → HoldAll (λ st l. St.holds st desk.old (D.shown disk.old) l) stores.old ls → HoldAll (λ st l. St.holds st desk.new (D.shown disk.new) l) stores.new (change ls q (put_item v.now.vid v.now.vertex))) }
    ensures parts { AreParts St.part stores.new }
    ensures ready { OnOk result (IsReady St.counted q desk.new (D.shown disk.new)) }
    ensures owner { OnOk result (desk.new.owner ≡ None) }
    ensures reads { OnTrue St.counted ((D.shown disk.new).reads ≤ (D.shown disk.old).reads + 128) }
    ensures clean { OnOk result (Clean AnyFile (D.shown disk.old) (D.shown disk.new)) }
    ensures err { IfErr result (Broke Stop.Graph AnyFile (D.shown disk.old) (D.shown disk.new)) }
{
    let store = &mut stores[q];
    store.put(disk, desk, v)?;
    store.settle(disk, desk)?;
    Ok(())
}

// Puts a vertex into the store of partition 0, and one into that of partition 1.
fn put_two<St: Store, D: Disk>(
    disk: &mut D,
    desk: &mut Desk,
    stores: &mut [St],
    first: &VertexBuf,
    second: &VertexBuf,
) -> Result<(), Stop>
    requires two { 2 ≤ length stores.old }
    requires parts { AreParts St.part stores.old }
    requires ready { IsReady St.counted 0 desk.old (D.shown disk.old) }
    requires owner { desk.old.owner ≡ None }
    requires room { first.now.room ≡ room_of (D.shown disk.old).page_len }
    requires room_too { second.now.room ≡ room_of (D.shown disk.old).page_len }
    ensures holds { OnOk result ((ls : List Graph) → HoldAll (λ st l. St.holds st desk.old (D.shown disk.old) l) stores.old ls → HoldAll (λ st l. St.holds st desk.new (D.shown disk.new) l) stores.new (change (change ls 0 (put_item first.now.vid first.now.vertex)) 1 (put_item second.now.vid second.now.vertex))) }
    ensures owner { OnOk result (desk.new.owner ≡ None) }
    ensures reads { OnTrue St.counted ((D.shown disk.new).reads ≤ (D.shown disk.old).reads + 256) }
    ensures err { IfErr result (Broke Stop.Graph AnyFile (D.shown disk.old) (D.shown disk.new)) }
{
    put_at(disk, desk, stores, 0, first)?;
    put_at(disk, desk, stores, 1, second)?;
    Ok(())
}

// The next vertex of one store, while a store of another partition is written on the same desk.
fn next_beside<St: Store, D: Disk>(
    disk: &mut D,
    desk: &mut Desk,
    one: &mut St,
    other: &mut St,
    v: &VertexBuf,
    into: &mut VertexBuf,
) -> Result<bool, Stop>
    requires apart { St.part one.old ≡ St.part other.old → ⊥ }
    requires ready { IsReady St.counted (St.part one.old) desk.old (D.shown disk.old) }
    requires owner { desk.old.owner ≡ None }
    requires room { v.now.room ≡ room_of (D.shown disk.old).page_len }
    requires room_too { into.old.room ≡ room_of (D.shown disk.old).page_len }
    ensures gives { IfOk result (λ given. (a b : Graph) → St.scans one.old desk.old (D.shown disk.old) a b → GivesNext given into.new.vid into.new.vertex a b (St.scans one.new desk.new (D.shown disk.new))) }
    ensures holds { OnOk result ((l : Graph) → St.holds other.old desk.old (D.shown disk.old) l → St.holds other.new desk.new (D.shown disk.new) (put_item v.now.vid v.now.vertex l)) }
    ensures owner { OnOk result (desk.new.owner ≡ None) }
    ensures err { IfErr result (Broke Stop.Graph AnyFile (D.shown disk.old) (D.shown disk.new)) }
{
    other.put(disk, desk, v)?;
    other.settle(disk, desk)?;
    let given = one.next(disk, desk, into)?;
    one.settle(disk, desk)?;
    Ok(given)
}
