// What no clause says: rows over disks in memory, and disks of which each call fails in turn.
//
// The vertices are those vids that are no multiples of 3, and the even ones have halted. Messages are to the vids whose remainder by 4 is 2 or 3.
ghost use Rattle.std.specs.Prelude.{◌≡◌, ◌≤◌, ℕ, length, true, OnOk, IfOk};
ghost use Rattle.px_core.specs.Shown.{Shown};
ghost use Rattle.px_store.specs.Desks.{IsReady};

use crate::OuterJoin;
use px_btree::BTree;
use px_cache::Cache;
use px_core::{Disk, Stop, Vid};
use px_frames::{Bank, Buf, Frame, Share};
use px_memdisk::MemDisk;
use px_pages::tags;
use px_record::VertexBuf;
use px_store::{Desk, Inputs, Join, Row, Store};
use px_stream::Writer;
use std::alloc::{AllocError, Global};
use std::test::Fail;

// The file of messages.
const FILE: u32 = 16;

// The row of a vid, if it has one.
fn row_for(vid: Vid) -> Option<Row> {
    let has_vertex = vid % 3 != 0;
    let has_message = vid % 4 >= 2;
    let is_awake = has_vertex && vid % 2 == 1;
    if !is_awake && !has_message {
        return None;
    }
    Some(Row {
        vid,
        has_vertex,
        has_message,
    })
}

// What is sent to a vid.
fn payload_of(vid: Vid) -> [u8; 8]
    ensures { length result ≡ 8 }
{
    vid.to_be_bytes()
}

// Fills a store with the vertices of vids below `end`.
fn fill<St: Store, D: Disk>(
    store: &mut St,
    disk: &mut D,
    desk: &mut Desk,
    v: &mut VertexBuf,
    end: Vid,
) -> Result<(), Stop>
    requires ready { IsReady St.counted (St.part store.old) desk.old (D.shown disk.old) }
    requires page_len { (D.shown disk.old).page_len ≡ 256 }
    requires room { v.old.room ≡ 112 }
    requires len { v.old.frame_len ≡ 256 }
    ensures ready { OnOk result (IsReady St.counted (St.part store.new) desk.new (D.shown disk.new)) }
    ensures page_len { OnOk result ((D.shown disk.new).page_len ≡ 256) }
    ensures room { OnOk result (v.new.room ≡ 112) }
    ensures len { OnOk result (v.new.frame_len ≡ 256) }
{
    store.start(disk, desk)?;
    for vid in 0..end {
        if vid % 3 != 0 {
            v.reset(vid);
            v.set_halt(vid % 2 == 0);
            store.bulk_put(disk, desk, v)?;
        }
    }
    store.bulk_end(disk, desk)
}

// Writes the messages to vids below `end`, and answers on how many pages.
fn send<D: Disk>(disk: &mut D, writer: &mut Writer, end: Vid) -> Result<u64, Stop>
    requires page_len { (D.shown disk.old).page_len ≡ 256 }
    requires writer { writer.old.page_len ≡ 256 }
    ensures { OnOk result ((D.shown disk.new).page_len ≡ 256) }
{
    writer.start(disk)?;
    for vid in 0..end {
        if vid % 4 >= 2 {
            writer.put(disk, vid, tags::MESSAGE, &payload_of(vid))?;
        }
    }
    writer.finish(disk)?;
    Ok(writer.pages())
}

// Whether the next row is this one, with the vertex of its vid or the fresh one, and with its message.
fn next_is<J: Join, St: Store, GD: Disk, SD: Disk>(
    join: &mut J,
    store: &mut St,
    desk: &mut Desk,
    graph: &mut GD,
    scratch: &mut SD,
    vertex: &mut VertexBuf,
    message: &mut Buf,
    want: Option<Row>,
) -> Result<bool, Stop>
    requires ready { IsReady St.counted (St.part store.old) desk.old (GD.shown graph.old) }
    requires graph { (GD.shown graph.old).page_len ≡ 256 }
    requires scratch { (SD.shown scratch.old).page_len ≡ 256 }
    requires join { (J.view join.old).frame_len ≡ 256 }
    requires len { vertex.old.frame_len ≡ 256 }
    requires room { vertex.old.room ≡ 112 }
    requires limit { message.old.limit ≡ 99 }
    ensures ready { OnOk result (IsReady St.counted (St.part store.new) desk.new (GD.shown graph.new)) }
    ensures graph { OnOk result ((GD.shown graph.new).page_len ≡ 256) }
    ensures scratch { OnOk result ((SD.shown scratch.new).page_len ≡ 256) }
    ensures join { OnOk result ((J.view join.new).frame_len ≡ 256) }
    ensures len { OnOk result (vertex.new.frame_len ≡ 256) }
    ensures room { OnOk result (vertex.new.room ≡ 112) }
    ensures limit { OnOk result (message.new.limit ≡ 99) }
{
    let given = join.next_row(store, desk, graph, scratch, vertex, message)?;
    let Some(row) = given else {
        return Ok(want.is_none());
    };
    let halts = row.has_vertex && row.vid % 2 == 0;
    let is_held = vertex.vid() == row.vid && vertex.halt() == halts;
    let is_sent = !row.has_message || message.bytes() == payload_of(row.vid).as_slice();
    Ok(want == Some(row) && is_held && is_sent)
}

// Whether the rows of vids below `end` come, and then none.
fn rows_come<J: Join, St: Store, GD: Disk, SD: Disk>(
    join: &mut J,
    store: &mut St,
    desk: &mut Desk,
    graph: &mut GD,
    scratch: &mut SD,
    vertex: &mut VertexBuf,
    message: &mut Buf,
    end: Vid,
) -> Result<bool, Stop>
    requires ready { IsReady St.counted (St.part store.old) desk.old (GD.shown graph.old) }
    requires graph { (GD.shown graph.old).page_len ≡ 256 }
    requires scratch { (SD.shown scratch.old).page_len ≡ 256 }
    requires join { (J.view join.old).frame_len ≡ 256 }
    requires len { vertex.old.frame_len ≡ 256 }
    requires room { vertex.old.room ≡ 112 }
    requires limit { message.old.limit ≡ 99 }
{
    for vid in 0..end {
        let want = row_for(vid);
        if want.is_some() {
            let is = next_is(join, store, desk, graph, scratch, vertex, message, want)?;
            if !is {
                return Ok(false);
            }
        }
    }
    next_is(join, store, desk, graph, scratch, vertex, message, None)
}

// A share of so many frames of 256 bytes.
fn share_of(alloc: Global, frames: u32) -> Result<Share, AllocError>
    requires { frames ≤ 16 }
    ensures frames { IfOk result (λ s. length s.frames ≡ frames) }
    ensures frame_len { IfOk result (λ s. s.frame_len ≡ 256) }
{
    let mut bank = Bank::open(alloc, 256, &[frames], 0)?;
    Ok(bank.lend(0))
}

// A desk whose cache has four frames.
fn open_desk(alloc: Global) -> Result<Desk, AllocError>
    ensures { IfOk result (λ d. (q : ℕ) (s : Shown) → s.page_len ≡ 256 → IsReady true q d s) }
{
    let mut bank = Bank::open(alloc, 256, &[4, 1], 0)?;
    Ok(Desk {
        cache: Cache::open(bank.lend(0)),
        side: bank.lend(1),
        owner: None,
    })
}

// A store is filled, messages are written, and the rows are looked at.
fn meet<GD: Disk, SD: Disk>(
    graph: &mut GD,
    scratch: &mut SD,
    desk: &mut Desk,
    share: Share,
    writer: &mut Writer,
    vertex: &mut VertexBuf,
    message: &mut Buf,
    end: Vid,
) -> Result<bool, Stop>
    requires ready { IsReady true 0 desk.old (GD.shown graph.old) }
    requires graph { (GD.shown graph.old).page_len ≡ 256 }
    requires scratch { (SD.shown scratch.old).page_len ≡ 256 }
    requires writer { writer.old.page_len ≡ 256 }
    requires frame_len { share.frame_len ≡ 256 }
    requires frames { 3 ≤ length share.frames }
    requires len { vertex.old.frame_len ≡ 256 }
    requires room { vertex.old.room ≡ 112 }
    requires limit { message.old.limit ≡ 99 }
{
    let mut tree = BTree::open(0);
    fill(&mut tree, graph, desk, vertex, end)?;
    let msg_pages = send(scratch, writer, end)?;
    let ins = Inputs {
        msg_file: FILE,
        msg_pages,
        vid_file: 0,
        vid_pages: 0,
    };
    let mut join = OuterJoin::open(share);
    join.start(&mut tree, desk, graph, scratch, &ins)?;
    rows_come(
        &mut join, &mut tree, desk, graph, scratch, vertex, message, end,
    )
}

// The same over disks in memory, of which these calls fail.
fn round(
    alloc: Global,
    end: Vid,
    in_graph: u64,
    in_scratch: u64,
) -> Result<Result<bool, Stop>, Fail> {
    let mut graph = MemDisk::new(alloc, &[in_graph])?;
    graph.start(256)?;
    let mut scratch = MemDisk::new(alloc, &[in_scratch])?;
    scratch.start(256)?;
    let mut desk = open_desk(alloc)?;
    let mut writer = Writer::new(Frame::new(alloc, 256)?, FILE);
    let mut vertex = VertexBuf::over(Frame::new(alloc, 256)?, 112);
    let mut message = Buf::over(Frame::new(alloc, 256)?, 99);
    Ok(meet(
        &mut graph,
        &mut scratch,
        &mut desk,
        share_of(alloc, 3)?,
        &mut writer,
        &mut vertex,
        &mut message,
        end,
    ))
}

fn row(vid: Vid, has_vertex: bool, has_message: bool) -> Option<Row> {
    Some(Row {
        vid,
        has_vertex,
        has_message,
    })
}

#[test]
fn rows_are_of_vertices_that_are_awake_and_of_messages(rt: HostRuntime) -> Result<(), Fail> {
    assert_eq!(rt; row_for(0), None);
    assert_eq!(rt; row_for(1), row(1, true, false));
    assert_eq!(rt; row_for(2), row(2, true, true));
    assert_eq!(rt; row_for(3), row(3, false, true));
    assert_eq!(rt; row_for(4), None);
    assert_eq!(rt; round(rt.alloc(), 5, 0, 0)?, Ok(true));
    assert_eq!(rt; round(rt.alloc(), 0, 0, 0)?, Ok(true));
    assert_eq!(rt; round(rt.alloc(), 200, 0, 0)?, Ok(true));
    Ok(())
}

// How many calls of the graph disk, or of the scratch disk, fail in turn until none does.
fn failing_calls(alloc: Global, in_graph: bool) -> Result<u64, Fail> {
    for call in 2..1_000 {
        let tried = if in_graph {
            round(alloc, 200, call, 0)?
        } else {
            round(alloc, 200, 0, call)?
        };
        let stop = if in_graph { Stop::Graph } else { Stop::Scratch };
        match tried {
            Ok(true) => return Ok(call - 2),
            Ok(false) => return Ok(0),
            Err(found) if found == stop => {}
            Err(_) => return Ok(0),
        }
    }
    Ok(0)
}

#[test]
fn each_call_fails_in_turn(rt: HostRuntime) -> Result<(), Fail> {
    let in_graph = failing_calls(rt.alloc(), true)?;
    assert!(rt; in_graph > 20, "{in_graph}");
    let in_scratch = failing_calls(rt.alloc(), false)?;
    assert!(rt; in_scratch > 10, "{in_scratch}");
    Ok(())
}
