// What the compute phase of one partition works with.
ghost use Rattle.std.specs.Prelude.{◌≡◌, ◌≤◌, ◌<◌, ◌+◌, [], true, IsTrue, length};
ghost use Rattle.px_core.specs.Shown.{Shown};
ghost use Rattle.px_frames.specs.Banks.{IsFrameLen};
ghost use Rattle.px_meaning.specs.Graph.{room_of};
ghost use Rattle.px_meaning.specs.Merge.{MergeRule};
ghost use Rattle.px_superstep.specs.Lending.{IsEnough};
ghost use Rattle.px_superstep.specs.Tooling.{AreTools, CanClose, IsClosed};

use crate::benches::Lent;
use px_compute_op::Bench;
use px_frames::{Buf, Frame, Share};
use px_pages::room;
use px_program::Group;
use px_record::{FRONT, VertexBuf};
use px_store::Join;
use px_stream::Writer;

// The files of the group.
pub(crate) const GROUP: u32 = 2;

pub(crate) const OTHER_GROUP: u32 = 3;

// The file of partition 0's updates.
pub(crate) const FIRST_UPDATES: u32 = 128;

/// A join and a bench, and the frames of their shares that are left.
#[derive(Drop)]
pub(crate) struct Tools<J: Join, G: Group> {
    pub join: J,
    pub bench: Bench<G>,
    pub work: Share,
    pub streams: Share,
}

// A record for a vertex in a frame.
pub(crate) fn vertex_in(frame: Frame) -> VertexBuf
    requires { IsFrameLen (length frame) }
    ensures room { result.room ≡ room_of (length frame) }
    ensures frame_len { result.frame_len ≡ length frame }
{
    let len = frame.bytes().len() as u32;
    VertexBuf::over(frame, room(len))
}

// A buffer for a payload in a frame.
pub(crate) fn payload_in(frame: Frame) -> Buf
    requires { IsFrameLen (length frame) }
    ensures limit { 13 + result.limit ≡ room_of (length frame) }
    ensures frame_len { result.frame_len ≡ length frame }
{
    let len = frame.bytes().len() as u32;
    Buf::over(frame, room(len) - FRONT as u32)
}

impl<J: Join, G: Group> Tools<J, G> {
    /// Opens what partition `q` is computed with. The join is to be started, and the writer of the updates. The group took nothing.
    pub(crate) fn open(lent: Lent, q: u32) -> Tools<J, G>
        requires enough { IsEnough lent }
        requires few { q < 16 }
        ensures tools { AreTools J.view G.made q lent result }
        ensures open { IsTrue (G.is_open result.bench.group) }
        ensures took { (s : Shown) (rule : MergeRule) → s.tells ≡ true → s.page_len ≡ lent.work.frame_len → G.took s result.bench.group rule [] }
    {
        let Lent {
            mut work,
            join,
            mut streams,
            group,
            table,
        } = lent;
        let bench = Bench {
            group: G::open(group, table, GROUP, OTHER_GROUP),
            updates: Writer::new(streams.take(), FIRST_UPDATES + q),
            vertex: vertex_in(work.take()),
            message: payload_in(work.take()),
            spare: payload_in(work.take()),
        };
        Tools {
            join: J::open(join),
            bench,
            work,
            streams,
        }
    }

    /// All that they were made of.
    pub(crate) fn close(self) -> Lent
        requires { CanClose self }
        ensures { IsClosed J.view G.made self result }
    {
        let Tools {
            join,
            bench,
            mut work,
            mut streams,
        } = self;
        let (group, table) = bench.group.close();
        work.put(bench.spare.close());
        work.put(bench.message.close());
        work.put(bench.vertex.close());
        streams.put(bench.updates.close());
        Lent {
            work,
            join: join.close(),
            streams,
            group,
            table,
        }
    }
}
