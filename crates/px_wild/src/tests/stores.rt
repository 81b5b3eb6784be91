// A store and a join over it.
ghost use Rattle.std.specs.Prelude.{◌≡◌, ℕ, length, true, OnOk, IfOk};
ghost use Rattle.px_core.specs.Shown.{Shown};
ghost use Rattle.px_store.specs.Desks.{IsReady};

use super::Ended;
use px_btree::BTree;
use px_cache::Cache;
use px_core::{Disk, Stop, Vid};
use px_frames::{Bank, Buf, Frame};
use px_outer_join::OuterJoin;
use px_pages::tags;
use px_record::VertexBuf;
use px_store::{Desk, Inputs, Join, Store};
use px_stream::Writer;
use std::alloc::{AllocError, Global};

// A desk whose cache has four frames.
fn open_desk(alloc: Global) -> Result<Desk, AllocError>
    ensures { IfOk result (λ d. (q : ℕ) (s : Shown) → s.page_len ≡ 256 → IsReady true q d s) }
{
    let mut bank = Bank::open(alloc, 256, &[4, 1], 0)?;
    Ok(Desk {
        cache: Cache::open(bank.lend(0)),
        side: bank.lend(1),
        owner: None,
    })
}

// A record for a vertex.
fn open_vertex(alloc: Global) -> Result<VertexBuf, AllocError>
    ensures room { IfOk result (λ v. v.room ≡ 112) }
    ensures len { IfOk result (λ v. v.frame_len ≡ 256) }
{
    Ok(VertexBuf::over(Frame::new(alloc, 256)?, 112))
}

// So many vertices in bulk.
fn fill<St: Store, D: Disk>(
    store: &mut St,
    disk: &mut D,
    desk: &mut Desk,
    v: &mut VertexBuf,
    end: Vid,
) -> Result<(), Stop>
    requires ready { IsReady St.counted (St.part store.old) desk.old (D.shown disk.old) }
    requires page_len { (D.shown disk.old).page_len ≡ 256 }
    requires room { v.old.room ≡ 112 }
    requires len { v.old.frame_len ≡ 256 }
    ensures ready { OnOk result (IsReady St.counted (St.part store.new) desk.new (D.shown disk.new)) }
    ensures page_len { OnOk result ((D.shown disk.new).page_len ≡ 256) }
    ensures room { OnOk result (v.new.room ≡ 112) }
    ensures len { OnOk result (v.new.frame_len ≡ 256) }
{
    store.start(disk, desk)?;
    for vid in 0..end {
        v.reset(vid);
        store.bulk_put(disk, desk, v)?;
    }
    store.bulk_end(disk, desk)
}

// Each third vid is looked up, put anew and removed.
fn change<St: Store, D: Disk>(
    store: &mut St,
    disk: &mut D,
    desk: &mut Desk,
    v: &mut VertexBuf,
    end: Vid,
) -> Result<(), Stop>
    requires ready { IsReady St.counted (St.part store.old) desk.old (D.shown disk.old) }
    requires page_len { (D.shown disk.old).page_len ≡ 256 }
    requires room { v.old.room ≡ 112 }
    ensures ready { OnOk result (IsReady St.counted (St.part store.new) desk.new (D.shown disk.new)) }
    ensures page_len { OnOk result ((D.shown disk.new).page_len ≡ 256) }
    ensures room { OnOk result (v.new.room ≡ 112) }
{
    for vid in 0..end {
        let third = vid.wrapping_mul(3);
        store.get(disk, desk, third, v)?;
        store.put(disk, desk, v)?;
        store.remove(disk, desk, third.wrapping_add(1))?;
    }
    store.settle(disk, desk)
}

// The vertices that the cursor gives.
fn scan<St: Store, D: Disk>(
    store: &mut St,
    disk: &mut D,
    desk: &mut Desk,
    v: &mut VertexBuf,
) -> Result<(), Stop>
    requires ready { IsReady St.counted (St.part store.old) desk.old (D.shown disk.old) }
    requires page_len { (D.shown disk.old).page_len ≡ 256 }
    requires room { v.old.room ≡ 112 }
    ensures ready { OnOk result (IsReady St.counted (St.part store.new) desk.new (D.shown disk.new)) }
    ensures page_len { OnOk result ((D.shown disk.new).page_len ≡ 256) }
    ensures room { OnOk result (v.new.room ≡ 112) }
{
    store.rewind(disk, desk)?;
    while store.next(disk, desk, v)? {}
    Ok(())
}

// A tree of some pages, which is changed and scanned.
pub fn call_store<D: Disk>(alloc: Global, disk: &mut D) -> Result<(), Ended>
    requires { (D.shown disk.old).page_len ≡ 256 }
{
    let mut desk = open_desk(alloc)?;
    let mut v = open_vertex(alloc)?;
    let mut store = BTree::open(0);
    fill(&mut store, disk, &mut desk, &mut v, 60)?;
    scan(&mut store, disk, &mut desk, &mut v)?;
    change(&mut store, disk, &mut desk, &mut v, 40)?;
    scan(&mut store, disk, &mut desk, &mut v)?;
    Ok(())
}

// So many messages.
fn send<D: Disk>(disk: &mut D, writer: &mut Writer, end: Vid) -> Result<u64, Stop>
    requires page_len { (D.shown disk.old).page_len ≡ 256 }
    requires writer { writer.old.page_len ≡ 256 }
    ensures { OnOk result ((D.shown disk.new).page_len ≡ 256) }
{
    writer.start(disk)?;
    for vid in 0..end {
        writer.put(disk, vid, tags::MESSAGE, &vid.to_be_bytes())?;
    }
    writer.finish(disk)?;
    Ok(writer.pages())
}

// The rows that a join gives.
fn take_rows<J: Join, St: Store, GD: Disk, SD: Disk>(
    join: &mut J,
    store: &mut St,
    desk: &mut Desk,
    graph: &mut GD,
    scratch: &mut SD,
    vertex: &mut VertexBuf,
    message: &mut Buf,
    most: u64,
) -> Result<(), Stop>
    requires ready { IsReady St.counted (St.part store.old) desk.old (GD.shown graph.old) }
    requires graph { (GD.shown graph.old).page_len ≡ 256 }
    requires scratch { (SD.shown scratch.old).page_len ≡ 256 }
    requires join { (J.view join.old).frame_len ≡ 256 }
    requires len { vertex.old.frame_len ≡ 256 }
    requires room { vertex.old.room ≡ 112 }
    requires limit { message.old.limit ≡ 99 }
{
    for _ in 0..most {
        if join
            .next_row(store, desk, graph, scratch, vertex, message)?
            .is_none()
        {
            return Ok(());
        }
    }
    Ok(())
}

// A join of a store of 60 vertices with 80 messages.
pub fn call_join<GD: Disk, SD: Disk>(
    alloc: Global,
    graph: &mut GD,
    scratch: &mut SD,
) -> Result<(), Ended>
    requires graph { (GD.shown graph.old).page_len ≡ 256 }
    requires scratch { (SD.shown scratch.old).page_len ≡ 256 }
{
    let mut desk = open_desk(alloc)?;
    let mut vertex = open_vertex(alloc)?;
    let mut message = Buf::over(Frame::new(alloc, 256)?, 99);
    let mut writer = Writer::new(Frame::new(alloc, 256)?, 16);
    let mut store = BTree::open(0);
    fill(&mut store, graph, &mut desk, &mut vertex, 60)?;
    let ins = Inputs {
        msg_file: 16,
        msg_pages: send(scratch, &mut writer, 80)?,
        vid_file: 0,
        vid_pages: 0,
    };
    let mut bank = Bank::open(alloc, 256, &[3], 0)?;
    let mut join = OuterJoin::open(bank.lend(0));
    join.start(&mut store, &mut desk, graph, scratch, &ins)?;
    take_rows(
        &mut join,
        &mut store,
        &mut desk,
        graph,
        scratch,
        &mut vertex,
        &mut message,
        1000,
    )?;
    Ok(())
}
