// What no clause says: trees over a disk in memory, of one leaf, of two levels whose pages were written by hand, and of many pages.
ghost use Rattle.std.specs.Prelude.{◌≡◌, ◌≤◌, ℕ, length, true, OnOk, IfOk};
ghost use Rattle.px_core.specs.Shown.{Shown};
ghost use Rattle.px_meaning.specs.Graph.{room_of};
ghost use Rattle.px_store.specs.Desks.{IsReady};

use crate::tree::ClosedTree;
use px_cache::Cache;
use px_core::{Disk, Failed, Stop};
use px_frames::Bank;
use px_memdisk::MemDisk;
use px_pages::{PageWriter, kinds, set_link, tags};
use px_record::VertexBuf;
use px_store::Desk;
use std::alloc::{AllocError, Global};
use std::test::Fail;

// A desk whose cache has four frames.
fn open_desk(alloc: Global) -> Result<Desk, AllocError>
    ensures { IfOk result (λ d. (q : ℕ) (s : Shown) → s.page_len ≡ 256 → IsReady true q d s) }
{
    let mut bank = Bank::open(alloc, 256, &[4, 1], 0)?;
    Ok(Desk {
        cache: Cache::open(bank.lend(0)),
        side: bank.lend(1),
        owner: None,
    })
}

// A record for a vertex.
fn open_vertex(alloc: Global) -> Result<VertexBuf, AllocError>
    ensures { IfOk result (λ v. v.room ≡ 112) }
{
    let mut bank = Bank::open(alloc, 256, &[1], 0)?;
    Ok(VertexBuf::over(bank.lend(0).take(), 112))
}

// Puts the fresh vertex of a vid.
fn put_vid<D: Disk>(
    tree: &mut ClosedTree,
    disk: &mut D,
    desk: &mut Desk,
    v: &mut VertexBuf,
    vid: u64,
) -> Result<(), Stop>
    requires ready { IsReady true tree.old.part desk.old (D.shown disk.old) }
    requires room { v.old.room ≡ room_of (D.shown disk.old).page_len }
    ensures ready { OnOk result (IsReady true tree.new.part desk.new (D.shown disk.new)) }
    ensures room { OnOk result (v.new.room ≡ room_of (D.shown disk.new).page_len) }
{
    v.reset(vid);
    tree.put(disk, desk, v)
}

// An empty tree with three vertices.
fn put_three<D: Disk>(
    tree: &mut ClosedTree,
    disk: &mut D,
    desk: &mut Desk,
    v: &mut VertexBuf,
) -> Result<(), Stop>
    requires ready { IsReady true tree.old.part desk.old (D.shown disk.old) }
    requires room { v.old.room ≡ room_of (D.shown disk.old).page_len }
    ensures ready { OnOk result (IsReady true tree.new.part desk.new (D.shown disk.new)) }
    ensures room { OnOk result (v.new.room ≡ room_of (D.shown disk.new).page_len) }
{
    tree.start(disk, desk)?;
    put_vid(tree, disk, desk, v, 7)?;
    put_vid(tree, disk, desk, v, 2)?;
    put_vid(tree, disk, desk, v, 5)
}

// An empty tree with the largest vid and those below a number, the greatest first.
fn put_down<D: Disk>(
    tree: &mut ClosedTree,
    disk: &mut D,
    desk: &mut Desk,
    v: &mut VertexBuf,
    n: u64,
) -> Result<(), Stop>
    requires ready { IsReady true tree.old.part desk.old (D.shown disk.old) }
    requires room { v.old.room ≡ room_of (D.shown disk.old).page_len }
    ensures ready { OnOk result (IsReady true tree.new.part desk.new (D.shown disk.new)) }
    ensures room { OnOk result (v.new.room ≡ room_of (D.shown disk.new).page_len) }
{
    tree.start(disk, desk)?;
    put_vid(tree, disk, desk, v, u64::MAX)?;
    for i in 0..n {
        put_vid(tree, disk, desk, v, n - 1 - i)?;
    }
    Ok(())
}

// Removes the first even vids.
fn remove_even<D: Disk>(
    tree: &mut ClosedTree,
    disk: &mut D,
    desk: &mut Desk,
    n: u64,
) -> Result<(), Stop>
    requires ready { IsReady true tree.old.part desk.old (D.shown disk.old) }
    ensures ready { OnOk result (IsReady true tree.new.part desk.new (D.shown disk.new)) }
    ensures len { OnOk result ((D.shown disk.new).page_len ≡ (D.shown disk.old).page_len) }
{
    for i in 0..n {
        tree.remove(disk, desk, i.wrapping_mul(2))?;
    }
    Ok(())
}

// Whether a scan gives so many vids from a first one on, the largest one, and no more.
fn scan_gives<D: Disk>(
    tree: &mut ClosedTree,
    disk: &mut D,
    desk: &mut Desk,
    v: &mut VertexBuf,
    first: u64,
    step: u64,
    n: u64,
) -> Result<bool, Stop>
    requires ready { IsReady true tree.old.part desk.old (D.shown disk.old) }
    requires room { v.old.room ≡ room_of (D.shown disk.old).page_len }
    ensures ready { OnOk result (IsReady true tree.new.part desk.new (D.shown disk.new)) }
    ensures room { OnOk result (v.new.room ≡ room_of (D.shown disk.new).page_len) }
{
    tree.rewind();
    for i in 0..n {
        if !tree.next(disk, desk, v)? || v.vid() != first.wrapping_add(step.wrapping_mul(i)) {
            return Ok(false);
        }
    }
    if !tree.next(disk, desk, v)? || v.vid() != u64::MAX {
        return Ok(false);
    }
    Ok(!tree.next(disk, desk, v)?)
}

// Twice so many vids and the largest are put, and of those the odd ones and the largest stay.
fn put_and_remove<D: Disk>(
    tree: &mut ClosedTree,
    disk: &mut D,
    desk: &mut Desk,
    v: &mut VertexBuf,
    half: u64,
) -> Result<bool, Stop>
    requires ready { IsReady true tree.old.part desk.old (D.shown disk.old) }
    requires room { v.old.room ≡ room_of (D.shown disk.old).page_len }
    requires few { half ≤ 1000 }
    ensures ready { OnOk result (IsReady true tree.new.part desk.new (D.shown disk.new)) }
    ensures room { OnOk result (v.new.room ≡ room_of (D.shown disk.new).page_len) }
{
    put_down(tree, disk, desk, v, 2 * half)?;
    if !scan_gives(tree, disk, desk, v, 0, 1, 2 * half)? {
        return Ok(false);
    }
    remove_even(tree, disk, desk, half)?;
    scan_gives(tree, disk, desk, v, 1, 2, half)
}

// The vids that the cursor has still to give, as the digits of a number.
fn drain<D: Disk>(
    tree: &mut ClosedTree,
    disk: &mut D,
    desk: &mut Desk,
    v: &mut VertexBuf,
) -> Result<u64, Stop>
    requires ready { IsReady true tree.old.part desk.old (D.shown disk.old) }
    requires room { v.old.room ≡ room_of (D.shown disk.old).page_len }
    ensures ready { OnOk result (IsReady true tree.new.part desk.new (D.shown disk.new)) }
    ensures room { OnOk result (v.new.room ≡ room_of (D.shown disk.new).page_len) }
    ensures part { tree.new.part ≡ tree.old.part }
{
    let mut seen = 0u64;
    while tree.next(disk, desk, v)? {
        seen = seen.wrapping_mul(10).wrapping_add(v.vid());
    }
    Ok(seen)
}

// The vids of the tree in order, as the digits of a number.
fn scan<D: Disk>(
    tree: &mut ClosedTree,
    disk: &mut D,
    desk: &mut Desk,
    v: &mut VertexBuf,
) -> Result<u64, Stop>
    requires ready { IsReady true tree.old.part desk.old (D.shown disk.old) }
    requires room { v.old.room ≡ room_of (D.shown disk.old).page_len }
    ensures ready { OnOk result (IsReady true tree.new.part desk.new (D.shown disk.new)) }
    ensures room { OnOk result (v.new.room ≡ room_of (D.shown disk.new).page_len) }
{
    tree.rewind();
    drain(tree, disk, desk, v)
}

// A leaf with two vertices.
fn write_leaf(page: &mut [u8], first: u64, second: u64, link: u64)
    requires { length page.old ≡ 256 }
{
    let mut writer = PageWriter::start(page, kinds::BTREE_LEAF);
    writer.append(page, first, tags::VERTEX, &[0; 9]);
    writer.append(page, second, tags::VERTEX, &[0; 9]);
    set_link(page, link);
}

// A root over pages 0 and 1.
fn write_root(page: &mut [u8])
    requires { length page.old ≡ 256 }
{
    let mut writer = PageWriter::start(page, kinds::BTREE_INNER);
    writer.append(page, 0, tags::CHILD, &[0; 8]);
    writer.append(page, 4, tags::CHILD, &[0, 0, 0, 0, 0, 0, 0, 1]);
}

// Two leaves with the vids 1, 3, 4 and 6, and a root over them.
fn write_tree(disk: &mut MemDisk) -> Result<ClosedTree, Failed>
    requires { disk.old.page_len ≡ 256 }
    ensures len { disk.new.page_len ≡ 256 }
    ensures part { IfOk result (λ t. t.part ≡ 0) }
{
    let mut page = [0; 256];
    write_leaf(&mut page, 1, 3, 2);
    disk.write(0, 0, &page)?;
    write_leaf(&mut page, 4, 6, 0);
    disk.write(0, 1, &page)?;
    write_root(&mut page);
    disk.write(0, 2, &page)?;
    Ok(ClosedTree {
        part: 0,
        root: 2,
        depth: 2,
        pages: 3,
        leaves: 2,
        at: 0,
        togo: 0,
        here: None,
        mark: None,
    })
}

#[test]
fn a_leaf_is_put_to_and_read_in_order(rt: HostRuntime) -> Result<(), Fail> {
    let mut disk = MemDisk::new(rt.alloc(), &[])?;
    disk.start(256)?;
    let mut desk = open_desk(rt.alloc())?;
    let mut v = open_vertex(rt.alloc())?;
    let mut tree = ClosedTree::open(0);
    put_three(&mut tree, &mut disk, &mut desk, &mut v)?;
    assert_eq!(rt; scan(&mut tree, &mut disk, &mut desk, &mut v)?, 257);
    assert_eq!(rt; (tree.depth(), disk.reads()), (1, 0));
    Ok(())
}

#[test]
fn a_failing_clear_is_graph(rt: HostRuntime) -> Result<(), Fail> {
    let mut disk = MemDisk::new(rt.alloc(), &[2])?;
    disk.start(256)?;
    let mut desk = open_desk(rt.alloc())?;
    let mut tree = ClosedTree::open(0);
    assert_eq!(rt; tree.start(&mut disk, &mut desk), Err(Stop::Graph));
    Ok(())
}

#[test]
fn two_leaves_are_searched_and_scanned(rt: HostRuntime) -> Result<(), Fail> {
    let mut disk = MemDisk::new(rt.alloc(), &[])?;
    disk.start(256)?;
    let mut tree = write_tree(&mut disk)?;
    let mut desk = open_desk(rt.alloc())?;
    let mut v = open_vertex(rt.alloc())?;
    assert_eq!(rt; scan(&mut tree, &mut disk, &mut desk, &mut v)?, 1346);
    v.reset(5);
    assert!(rt; tree.put_here(&mut disk, &mut desk, &v)?);
    assert!(rt; tree.remove(&mut disk, &mut desk, 3)?);
    assert_eq!(rt; scan(&mut tree, &mut disk, &mut desk, &mut v)?, 1456);
    assert!(rt; !tree.get(&mut disk, &mut desk, 3, &mut v)?);
    assert_eq!(rt; (v.vid(), disk.reads()), (3, 3));
    Ok(())
}

#[test]
fn a_tree_of_many_pages_is_put_to_scanned_and_removed_from(rt: HostRuntime) -> Result<(), Fail> {
    let mut disk = MemDisk::new(rt.alloc(), &[])?;
    disk.start(256)?;
    let mut desk = open_desk(rt.alloc())?;
    let mut v = open_vertex(rt.alloc())?;
    let mut tree = ClosedTree::open(0);
    assert!(rt; put_and_remove(&mut tree, &mut disk, &mut desk, &mut v, 500)?);
    assert!(rt; tree.depth() > 1);
    assert!(rt; !tree.get(&mut disk, &mut desk, 2, &mut v)?);
    assert_eq!(rt; (v.vid(), v.halt(), v.edges()), (2, false, 0));
    Ok(())
}

// The same with fewer vids, where a call of the disk fails.
fn round(alloc: Global, fail: u64) -> Result<Result<bool, Stop>, Fail> {
    let mut disk = MemDisk::new(alloc, &[fail])?;
    disk.start(256)?;
    let mut desk = open_desk(alloc)?;
    let mut v = open_vertex(alloc)?;
    let mut tree = ClosedTree::open(0);
    Ok(put_and_remove(&mut tree, &mut disk, &mut desk, &mut v, 40))
}

// Each call of the disk fails in turn, until none does.
fn first_that_works(alloc: Global) -> Result<u64, Fail> {
    for fail in 2..10_000 {
        match round(alloc, fail)? {
            Ok(true) => return Ok(fail),
            Ok(false) => return Ok(0),
            Err(Stop::Graph) => {}
            Err(_) => return Ok(1),
        }
    }
    Ok(2)
}

#[test]
fn each_call_fails_in_turn(rt: HostRuntime) -> Result<(), Fail> {
    let calls = first_that_works(rt.alloc())?;
    assert!(rt; calls > 100, "{calls}");
    Ok(())
}

// Four linked leaves behind the tree's pages.
fn write_chain(disk: &mut MemDisk) -> Result<(), Failed>
    requires { disk.old.page_len ≡ 256 }
    ensures { disk.new.page_len ≡ 256 }
{
    let mut page = [0; 256];
    write_leaf(&mut page, 1, 2, 5);
    disk.write(0, 3, &page)?;
    write_leaf(&mut page, 3, 4, 6);
    disk.write(0, 4, &page)?;
    write_leaf(&mut page, 5, 6, 7);
    disk.write(0, 5, &page)?;
    write_leaf(&mut page, 7, 8, 0);
    disk.write(0, 6, &page)
}

// A tree whose cursor is at the first of those leaves.
fn open_chain() -> ClosedTree
    ensures { result.part ≡ 0 }
{
    let mut chain = ClosedTree::open(0);
    chain.at = 3;
    chain.togo = 4;
    chain
}

// Reads those leaves, so that the cache holds no page of the tree any more.
fn sweep<D: Disk>(disk: &mut D, desk: &mut Desk, v: &mut VertexBuf) -> Result<u64, Stop>
    requires ready { IsReady true 0 desk.old (D.shown disk.old) }
    requires room { v.old.room ≡ room_of (D.shown disk.old).page_len }
    ensures ready { OnOk result (IsReady true 0 desk.new (D.shown disk.new)) }
    ensures room { OnOk result (v.new.room ≡ room_of (D.shown disk.new).page_len) }
{
    let mut chain = open_chain();
    drain(&mut chain, disk, desk, v)
}

// The pages that a call reads after a call with another vid, where the cache holds none of them.
fn reads_after<D: Disk>(
    tree: &mut ClosedTree,
    disk: &mut D,
    desk: &mut Desk,
    v: &mut VertexBuf,
    first: u64,
    second: u64,
) -> Result<u64, Stop>
    requires part { tree.old.part ≡ 0 }
    requires ready { IsReady true 0 desk.old (D.shown disk.old) }
    requires room { v.old.room ≡ room_of (D.shown disk.old).page_len }
    ensures part { tree.new.part ≡ 0 }
    ensures ready { OnOk result (IsReady true 0 desk.new (D.shown disk.new)) }
    ensures room { OnOk result (v.new.room ≡ room_of (D.shown disk.new).page_len) }
{
    tree.get(disk, desk, first, v)?;
    sweep(disk, desk, v)?;
    let before = disk.reads();
    tree.get(disk, desk, second, v)?;
    Ok(disk.reads().saturating_sub(before))
}

#[test]
fn a_greater_vid_of_the_same_leaf_reads_that_leaf_alone(rt: HostRuntime) -> Result<(), Fail> {
    let mut disk = MemDisk::new(rt.alloc(), &[])?;
    disk.start(256)?;
    let mut tree = write_tree(&mut disk)?;
    write_chain(&mut disk)?;
    let mut desk = open_desk(rt.alloc())?;
    let mut v = open_vertex(rt.alloc())?;
    assert_eq!(rt;
        reads_after(&mut tree, &mut disk, &mut desk, &mut v, 1, 3)?,
        1
    );
    // The last leaf.
    assert_eq!(rt;
        reads_after(&mut tree, &mut disk, &mut desk, &mut v, 6, 9)?,
        1
    );
    // The next leaf.
    assert_eq!(rt;
        reads_after(&mut tree, &mut disk, &mut desk, &mut v, 1, 4)?,
        3
    );
    // A smaller vid.
    assert_eq!(rt;
        reads_after(&mut tree, &mut disk, &mut desk, &mut v, 3, 1)?,
        2
    );
    Ok(())
}
