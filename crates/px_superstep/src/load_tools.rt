// What a load and a finish of a job work with.
ghost use Rattle.std.specs.Prelude.{◌≡◌, ◌≤◌, ◌+◌, length};
ghost use Rattle.px_frames.specs.Banks.{size_of};
ghost use Rattle.px_meaning.specs.Graph.{room_of};
ghost use Rattle.px_load.specs.Frames.{AreLoadFrames};
ghost use Rattle.px_superstep.specs.Benches.{HasBench, HasSlot};
ghost use Rattle.px_superstep.specs.Lending.{IsEnough};
ghost use Rattle.px_superstep.specs.LoadTooling.{load_home, HasLen, IsLoadOut, AreLoadTools, AreLentTools, IsUnloaded};
ghost use Rattle.px_superstep.specs.Tooling.{IsShort};

use crate::benches::{Lent, give_bench, lend_bench};
use crate::tools::{payload_in, vertex_in};
use px_frames::{Bank, Frame, Share};
use px_load::LoadFrames;

const MESSAGES: u32 = 3;

/// The frames of a load, and those of their shares that are left.
#[derive(Drop)]
pub(crate) struct LoadTools {
    pub frames: LoadFrames,
    pub work: Share,
    pub join: Share,
    pub streams: Share,
}

// Opens them over what was lent, and a share with a frame for each partition.
fn open_tools(lent: Lent, outs: Share) -> LoadTools
    requires enough { IsEnough lent }
    ensures tools { AreLoadTools lent outs result }
    ensures room { result.frames.vertex.room ≡ room_of lent.work.frame_len }
    ensures limit { 13 + result.frames.body.limit ≡ room_of lent.work.frame_len }
{
    let Lent {
        mut work,
        join,
        mut streams,
        group,
        table,
    } = lent;
    let frames = LoadFrames {
        runs: group,
        table,
        outs,
        text: Some(streams.take()),
        vertex: vertex_in(work.take()),
        body: payload_in(work.take()),
    };
    LoadTools {
        frames,
        work,
        join,
        streams,
    }
}

// All that they were made of.
fn close_tools(tools: LoadTools) -> (Lent, Share)
    requires vertex { tools.frames.vertex.frame_len ≡ tools.work.frame_len }
    requires body { tools.frames.body.frame_len ≡ tools.work.frame_len }
    requires text { HasLen tools.streams.frame_len tools.frames.text }
    requires work { length tools.work.frames + 2 ≤ tools.work.size }
    requires streams { length tools.streams.frames + 1 ≤ tools.streams.size }
    ensures { IsUnloaded tools result.0 result.1 }
{
    let LoadTools {
        frames,
        mut work,
        join,
        mut streams,
    } = tools;
    let LoadFrames {
        runs,
        table,
        outs,
        text,
        vertex,
        body,
    } = frames;
    work.put(body.close());
    work.put(vertex.close());
    put_text(&mut streams, text);
    let lent = Lent {
        work,
        join,
        streams,
        group: runs,
        table,
    };
    (lent, outs)
}

// Puts the frame of the text back.
fn put_text(streams: &mut Share, text: Option<Frame>)
    requires text { HasLen streams.old.frame_len text }
    requires room { length streams.old.frames + 1 ≤ streams.old.size }
    ensures { IsShort 1 streams.new streams.old }
{
    match text {
        Some(frame) => streams.put(frame),
        None => unreachable!(),
    }
}

/// Lends what a load works with.
pub(crate) fn lend_load(bank: &mut Bank) -> LoadTools
    requires bench { HasBench bank.old }
    requires messages { HasSlot bank.old 3 1 }
    ensures frames { AreLoadFrames result.frames (size_of bank.old 3) bank.old.frame_len }
    ensures lent { AreLentTools bank.new result }
    ensures out { IsLoadOut bank.new }
    ensures back { load_home bank.new ≡ bank.old }
{
    let lent = lend_bench(bank);
    let outs = bank.lend(MESSAGES);
    open_tools(lent, outs)
}

/// Takes it back.
pub(crate) fn give_load(bank: &mut Bank, tools: LoadTools)
    requires out { IsLoadOut bank.old }
    requires lent { AreLentTools bank.old tools }
    ensures { bank.new ≡ load_home bank.old }
{
    let (lent, outs) = close_tools(tools);
    bank.give(MESSAGES, outs);
    give_bench(bank, lent);
}
