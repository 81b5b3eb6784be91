// What no clause says: passes of puts that grow leave a leaf open between them, whatever calls come between, compared with a list of lengths; and gets in it leave it open.
ghost use Rattle.std.specs.Prelude.{◌≡◌, ◌<◌, ◌≤◌, ℕ, length, true, None, OnOk, IfOk};
ghost use Rattle.px_core.specs.Shown.{Shown};
ghost use Rattle.px_meaning.specs.Graph.{room_of};
ghost use Rattle.px_store.specs.Desks.{IsReady};

use crate::BTree;
use px_cache::Cache;
use px_core::{Disk, Stop, Vid};
use px_frames::Bank;
use px_memdisk::MemDisk;
use px_record::VertexBuf;
use px_store::{Desk, Store};
use std::alloc::{AllocError, Global};
use std::test::Fail;

// A desk whose cache has four frames.
fn open_desk(alloc: Global) -> Result<Desk, AllocError>
    ensures { IfOk result (λ d. (q : ℕ) (s : Shown) → s.page_len ≡ 256 → IsReady true q d s) }
{
    let mut bank = Bank::open(alloc, 256, &[4, 1], 0)?;
    Ok(Desk {
        cache: Cache::open(bank.lend(0)),
        side: bank.lend(1),
        owner: None,
    })
}

// A record for a vertex.
fn open_vertex(alloc: Global) -> Result<VertexBuf, AllocError>
    ensures { IfOk result (λ v. v.room ≡ 112) }
{
    let mut bank = Bank::open(alloc, 256, &[1], 0)?;
    Ok(VertexBuf::over(bank.lend(0).take(), 112))
}

// How many vids there may be. The length of a vertex's value stands at the place of its vid, and 0 where it is not there.
const VIDS: usize = 60;

// The byte of which a vid's value is made.
fn byte_of(vid: Vid) -> u8 {
    (vid % 251) as u8
}

// Makes it the vertex of a vid with so many bytes in its value.
fn make(v: &mut VertexBuf, vid: Vid, len: u8) -> Result<(), Stop>
    ensures { v.new.room ≡ v.old.room }
{
    let value = [byte_of(vid); 64];
    v.reset(vid);
    match v.set_value(&value[..(len as usize).min(64)]) {
        Ok(()) => Ok(()),
        Err(_) => Err(Stop::Beyond),
    }
}

// Whether it is the vertex of a vid with so many bytes in its value, each of them the vid.
fn is_made(v: &VertexBuf, vid: Vid, len: u8) -> bool {
    let value = v.value();
    let front = match value.first() {
        Some(&byte) => byte == byte_of(vid),
        None => false,
    };
    let end = match value.last() {
        Some(&byte) => byte == byte_of(vid),
        None => false,
    };
    v.vid() == vid && value.len() == len as usize && front && end
}

// Puts a vertex, and tells the list.
fn put_len<St: Store, D: Disk>(
    store: &mut St,
    disk: &mut D,
    desk: &mut Desk,
    v: &mut VertexBuf,
    lens: &mut [u8],
    vid: usize,
    len: u8,
) -> Result<(), Stop>
    requires ready { IsReady St.counted (St.part store.old) desk.old (D.shown disk.old) }
    requires room { v.old.room ≡ room_of (D.shown disk.old).page_len }
    ensures ready { OnOk result (IsReady St.counted (St.part store.new) desk.new (D.shown disk.new)) }
    ensures room { OnOk result (v.new.room ≡ room_of (D.shown disk.new).page_len) }
{
    make(v, vid as u64, len)?;
    if let Some(there) = lens.get_mut(vid) {
        *there = len;
    }
    store.put(disk, desk, v)
}

// Whether a vid is there as the list says.
fn agrees_at<St: Store, D: Disk>(
    store: &mut St,
    disk: &mut D,
    desk: &mut Desk,
    v: &mut VertexBuf,
    lens: &[u8],
    vid: usize,
) -> Result<bool, Stop>
    requires ready { IsReady St.counted (St.part store.old) desk.old (D.shown disk.old) }
    requires room { v.old.room ≡ room_of (D.shown disk.old).page_len }
    ensures ready { OnOk result (IsReady St.counted (St.part store.new) desk.new (D.shown disk.new)) }
    ensures room { OnOk result (v.new.room ≡ room_of (D.shown disk.new).page_len) }
{
    let len = lens.get(vid).copied().unwrap_or(0);
    let there = store.get(disk, desk, vid as u64, v)?;
    Ok(there == (len > 0) && (!there || is_made(v, vid as u64, len)))
}

// The first vid from one on that is there, as the list says.
fn next_in(lens: &[u8], from: usize) -> usize {
    let mut vid = from;
    while vid < lens.len() && lens[vid] == 0 {
        vid += 1;
    }
    vid
}

// Whether a scan gives what the list says.
fn agrees<St: Store, D: Disk>(
    store: &mut St,
    disk: &mut D,
    desk: &mut Desk,
    v: &mut VertexBuf,
    lens: &[u8],
) -> Result<bool, Stop>
    requires ready { IsReady St.counted (St.part store.old) desk.old (D.shown disk.old) }
    requires room { v.old.room ≡ room_of (D.shown disk.old).page_len }
    ensures ready { OnOk result (IsReady St.counted (St.part store.new) desk.new (D.shown disk.new)) }
    ensures room { OnOk result (v.new.room ≡ room_of (D.shown disk.new).page_len) }
{
    store.rewind(disk, desk)?;
    let mut from = 0usize;
    while store.next(disk, desk, v)? {
        let vid = next_in(lens, from);
        if vid >= lens.len() || !is_made(v, vid as u64, lens[vid]) {
            return Ok(false);
        }
        from = vid.saturating_add(1);
    }
    Ok(next_in(lens, from) >= lens.len())
}

// What is done at each vid of a pass.
#[derive(Clone, Copy)]
struct Way {
    // The vids are so far apart.
    step: u64,
    // A value of so many bytes is put.
    len: u8,
    // Before the put, each so many vids, the vid is got that is so much smaller or greater.
    get: u64,
    back: u64,
    ahead: u64,
    // The vid is removed that is so much smaller or greater, each so many vids.
    remove: u64,
    less: u64,
    more: u64,
}

// Does it at a vid. Answers whether what was got is what the list says.
fn visit<St: Store, D: Disk>(
    store: &mut St,
    disk: &mut D,
    desk: &mut Desk,
    v: &mut VertexBuf,
    lens: &mut [u8],
    vid: u64,
    way: Way,
) -> Result<bool, Stop>
    requires ready { IsReady St.counted (St.part store.old) desk.old (D.shown disk.old) }
    requires room { v.old.room ≡ room_of (D.shown disk.old).page_len }
    ensures ready { OnOk result (IsReady St.counted (St.part store.new) desk.new (D.shown disk.new)) }
    ensures room { OnOk result (v.new.room ≡ room_of (D.shown disk.new).page_len) }
{
    let asked = vid.saturating_sub(way.back).wrapping_add(way.ahead);
    let good = vid % way.get.max(1) > 0 || agrees_at(store, disk, desk, v, lens, asked as usize)?;
    put_len(store, disk, desk, v, lens, vid as usize, way.len)?;
    if vid % way.remove.max(1) == 0 {
        let other = vid.saturating_sub(way.less).wrapping_add(way.more);
        if let Some(there) = lens.get_mut(other as usize) {
            *there = 0;
        }
        store.remove(disk, desk, other)?;
    }
    Ok(good)
}

// Passes over the vids. Answers whether all that was got, and a scan at the end, is what the list says.
fn pass<St: Store, D: Disk>(
    store: &mut St,
    disk: &mut D,
    desk: &mut Desk,
    v: &mut VertexBuf,
    lens: &mut [u8],
    way: Way,
) -> Result<bool, Stop>
    requires ready { IsReady St.counted (St.part store.old) desk.old (D.shown disk.old) }
    requires room { v.old.room ≡ room_of (D.shown disk.old).page_len }
    ensures ready { OnOk result (IsReady St.counted (St.part store.new) desk.new (D.shown disk.new)) }
    ensures room { OnOk result (v.new.room ≡ room_of (D.shown disk.new).page_len) }
{
    let mut good = true;
    for i in 0..VIDS as u64 {
        let vid = i.wrapping_mul(way.step);
        if vid < VIDS as u64 {
            good = visit(store, disk, desk, v, lens, vid, way)? && good;
        }
    }
    Ok(agrees(store, disk, desk, v, lens)? && good)
}

// Passes in all these ways over a store that was made empty.
fn start_and_pass<St: Store, D: Disk>(
    store: &mut St,
    disk: &mut D,
    desk: &mut Desk,
    v: &mut VertexBuf,
    lens: &mut [u8],
    ways: &[Way],
) -> Result<bool, Stop>
    requires ready { IsReady St.counted (St.part store.old) desk.old (D.shown disk.old) }
    requires room { v.old.room ≡ room_of (D.shown disk.old).page_len }
    ensures ready { OnOk result (IsReady St.counted (St.part store.new) desk.new (D.shown disk.new)) }
    ensures room { OnOk result (v.new.room ≡ room_of (D.shown disk.new).page_len) }
{
    store.start(disk, desk)?;
    store.bulk_end(disk, desk)?;
    pass_all(store, disk, desk, v, lens, ways)
}

// Makes a store empty, and leaves the desk to others.
fn begin<St: Store, D: Disk>(store: &mut St, disk: &mut D, desk: &mut Desk) -> Result<(), Stop>
    requires ready { (q : ℕ) → IsReady St.counted q desk.old (D.shown disk.old) }
    ensures ready { OnOk result ((q : ℕ) → IsReady St.counted q desk.new (D.shown disk.new)) }
    ensures len { OnOk result ((D.shown disk.new).page_len ≡ (D.shown disk.old).page_len) }
{
    store.start(disk, desk)?;
    store.bulk_end(disk, desk)?;
    store.settle(disk, desk)?;
    Ok(())
}

// Puts over the vids, and leaves the desk to others with the last leaf open until then.
fn put_and_leave<St: Store, D: Disk>(
    store: &mut St,
    disk: &mut D,
    desk: &mut Desk,
    v: &mut VertexBuf,
    lens: &mut [u8],
    way: Way,
) -> Result<(), Stop>
    requires ready { (q : ℕ) → IsReady St.counted q desk.old (D.shown disk.old) }
    requires room { v.old.room ≡ room_of (D.shown disk.old).page_len }
    ensures ready { OnOk result ((q : ℕ) → IsReady St.counted q desk.new (D.shown disk.new)) }
    ensures room { OnOk result (v.new.room ≡ room_of (D.shown disk.new).page_len) }
{
    for vid in 0..(VIDS / 2) as u64 {
        put_len(store, disk, desk, v, lens, vid as usize, way.len)?;
    }
    store.settle(disk, desk)?;
    Ok(())
}

// Passes that grow, shrink and go over every second vid, with gets and removals between the puts.
const WAYS: &[Way] = &[
    Way {
        step: 2,
        len: 2,
        get: 90,
        back: 0,
        ahead: 0,
        remove: 90,
        less: 0,
        more: 60,
    },
    Way {
        step: 1,
        len: 5,
        get: 90,
        back: 0,
        ahead: 0,
        remove: 90,
        less: 0,
        more: 60,
    },
    Way {
        step: 1,
        len: 9,
        get: 1,
        back: 0,
        ahead: 0,
        remove: 90,
        less: 0,
        more: 60,
    },
    Way {
        step: 1,
        len: 20,
        get: 3,
        back: 0,
        ahead: 0,
        remove: 7,
        less: 3,
        more: 0,
    },
    Way {
        step: 3,
        len: 64,
        get: 90,
        back: 0,
        ahead: 0,
        remove: 90,
        less: 0,
        more: 60,
    },
    Way {
        step: 1,
        len: 13,
        get: 90,
        back: 0,
        ahead: 0,
        remove: 5,
        less: 0,
        more: 2,
    },
    Way {
        step: 2,
        len: 30,
        get: 2,
        back: 0,
        ahead: 0,
        remove: 4,
        less: 0,
        more: 0,
    },
    Way {
        step: 1,
        len: 1,
        get: 90,
        back: 0,
        ahead: 0,
        remove: 90,
        less: 0,
        more: 60,
    },
];

// Passes of a get and a put by turns: of vids that are there, between them, behind the last of a leaf and of all.
const TURNS: &[Way] = &[
    Way {
        step: 2,
        len: 2,
        get: 90,
        back: 0,
        ahead: 0,
        remove: 90,
        less: 0,
        more: 60,
    },
    Way {
        step: 2,
        len: 4,
        get: 1,
        back: 1,
        ahead: 0,
        remove: 90,
        less: 0,
        more: 60,
    },
    Way {
        step: 2,
        len: 8,
        get: 1,
        back: 0,
        ahead: 0,
        remove: 90,
        less: 0,
        more: 60,
    },
    Way {
        step: 3,
        len: 12,
        get: 1,
        back: 0,
        ahead: 0,
        remove: 90,
        less: 0,
        more: 60,
    },
    Way {
        step: 2,
        len: 15,
        get: 1,
        back: 0,
        ahead: 1,
        remove: 90,
        less: 0,
        more: 60,
    },
    Way {
        step: 1,
        len: 20,
        get: 1,
        back: 0,
        ahead: 0,
        remove: 11,
        less: 0,
        more: 3,
    },
    Way {
        step: 1,
        len: 24,
        get: 2,
        back: 3,
        ahead: 0,
        remove: 90,
        less: 0,
        more: 60,
    },
    Way {
        step: 4,
        len: 40,
        get: 1,
        back: 0,
        ahead: 2,
        remove: 90,
        less: 0,
        more: 60,
    },
];

// Passes in all these ways.
fn pass_all<St: Store, D: Disk>(
    store: &mut St,
    disk: &mut D,
    desk: &mut Desk,
    v: &mut VertexBuf,
    lens: &mut [u8],
    ways: &[Way],
) -> Result<bool, Stop>
    requires ready { IsReady St.counted (St.part store.old) desk.old (D.shown disk.old) }
    requires room { v.old.room ≡ room_of (D.shown disk.old).page_len }
    ensures ready { OnOk result (IsReady St.counted (St.part store.new) desk.new (D.shown disk.new)) }
    ensures room { OnOk result (v.new.room ≡ room_of (D.shown disk.new).page_len) }
{
    let mut good = true;
    for &way in ways {
        good = pass(store, disk, desk, v, lens, way)? && good;
    }
    Ok(good)
}

// Puts in all these ways into two stores in turn.
fn put_both<St: Store, D: Disk>(
    first: &mut St,
    second: &mut St,
    disk: &mut D,
    desk: &mut Desk,
    v: &mut VertexBuf,
    lens: &mut [u8],
) -> Result<(), Stop>
    requires ready { (q : ℕ) → IsReady St.counted q desk.old (D.shown disk.old) }
    requires room { v.old.room ≡ room_of (D.shown disk.old).page_len }
    ensures ready { OnOk result ((q : ℕ) → IsReady St.counted q desk.new (D.shown disk.new)) }
    ensures room { OnOk result (v.new.room ≡ room_of (D.shown disk.new).page_len) }
{
    for &way in WAYS {
        put_and_leave(first, disk, desk, v, lens, way)?;
        put_and_leave(second, disk, desk, v, lens, way)?;
    }
    Ok(())
}

// Passes in all these ways over an empty tree, where these calls of the disk fail.
fn passes(alloc: Global, fails: &[u64], ways: &[Way]) -> Result<Result<bool, Stop>, Fail> {
    let mut disk = MemDisk::new(alloc, fails)?;
    disk.start(256)?;
    let mut desk = open_desk(alloc)?;
    let mut v = open_vertex(alloc)?;
    let mut tree = BTree::open(0);
    let mut lens = [0; VIDS];
    Ok(start_and_pass(&mut tree, &mut disk, &mut desk, &mut v, &mut lens, ways))
}

// Each call of the disk fails in turn, until none does.
fn first_that_works(alloc: Global) -> Result<u64, Fail> {
    for fail in 2..10_000 {
        match passes(alloc, &[fail], TURNS)? {
            Ok(true) => return Ok(fail),
            Ok(false) => return Ok(0),
            Err(Stop::Graph) => {}
            Err(_) => return Ok(1),
        }
    }
    Ok(2)
}

#[test]
fn passes_that_grow_are_those_of_a_list(rt: HostRuntime) -> Result<(), Fail> {
    assert_eq!(rt; passes(rt.alloc(), &[], WAYS)?, Ok(true));
    assert_eq!(rt; passes(rt.alloc(), &[], TURNS)?, Ok(true));
    Ok(())
}

#[test]
fn each_call_fails_in_turn_where_gets_and_puts_take_turns(rt: HostRuntime) -> Result<(), Fail> {
    let calls = first_that_works(rt.alloc())?;
    assert!(rt; calls > 100, "{calls}");
    Ok(())
}

// Opens a leaf with the vids 1, 5 and 7 at the second, and gets a vid. Answers whether that is as it was put, and the leaf is open then.
fn get_in<D: Disk>(
    tree: &mut BTree,
    disk: &mut D,
    desk: &mut Desk,
    v: &mut VertexBuf,
    vid: usize,
) -> Result<(bool, bool), Stop>
    requires ready { IsReady true tree.old.tree.part desk.old (D.shown disk.old) }
    requires room { v.old.room ≡ room_of (D.shown disk.old).page_len }
{
    let mut lens = [0; VIDS];
    tree.start(disk, desk)?;
    tree.bulk_end(disk, desk)?;
    put_len(tree, disk, desk, v, &mut lens, 1, 1)?;
    put_len(tree, disk, desk, v, &mut lens, 5, 1)?;
    put_len(tree, disk, desk, v, &mut lens, 7, 1)?;
    put_len(tree, disk, desk, v, &mut lens, 1, 2)?;
    put_len(tree, disk, desk, v, &mut lens, 5, 2)?;
    let good = agrees_at(tree, disk, desk, v, &lens, vid)?;
    Ok((good, tree.leaf.is_some()))
}

// The same over a tree of its own.
fn open_after(alloc: Global, vid: usize) -> Result<Result<(bool, bool), Stop>, Fail> {
    let mut disk = MemDisk::new(alloc, &[])?;
    disk.start(256)?;
    let mut desk = open_desk(alloc)?;
    let mut v = open_vertex(alloc)?;
    let mut tree = BTree::open(0);
    Ok(get_in(&mut tree, &mut disk, &mut desk, &mut v, vid))
}

#[test]
fn a_get_at_or_behind_the_last_put_leaves_the_leaf_open(rt: HostRuntime) -> Result<(), Fail> {
    assert_eq!(rt; open_after(rt.alloc(), 4)?, Ok((true, false)));
    assert_eq!(rt; open_after(rt.alloc(), 5)?, Ok((true, true)));
    assert_eq!(rt; open_after(rt.alloc(), 6)?, Ok((true, true)));
    assert_eq!(rt; open_after(rt.alloc(), 7)?, Ok((true, true)));
    assert_eq!(rt; open_after(rt.alloc(), 1000)?, Ok((true, true)));
    Ok(())
}

#[test]
fn a_store_that_left_the_desk_holds_what_was_put(rt: HostRuntime) -> Result<(), Fail> {
    let mut disk = MemDisk::new(rt.alloc(), &[])?;
    disk.start(256)?;
    let mut desk = open_desk(rt.alloc())?;
    let mut v = open_vertex(rt.alloc())?;
    let mut first = BTree::open(0);
    let mut second = BTree::open(1);
    let mut lens = [0; VIDS];
    begin(&mut first, &mut disk, &mut desk)?;
    begin(&mut second, &mut disk, &mut desk)?;
    put_both(
        &mut first,
        &mut second,
        &mut disk,
        &mut desk,
        &mut v,
        &mut lens,
    )?;
    assert!(rt; agrees(&mut first, &mut disk, &mut desk, &mut v, &lens)?);
    Ok(())
}
