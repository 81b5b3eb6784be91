// A join of a store with the messages to its vids.
ghost use Rattle.std.specs.Prelude.{◌≡◌, ◌≤◌, ◌<◌, ◌+◌, ℕ, Bool, List, length, true, false, OnOk, IfOk, IfErr, IfSome, IfNone, OnSome, IsTrue, IsFalse, []};
ghost use Rattle.std.specs.Bool.{OnTrue};
ghost use Rattle.px_core.specs.Same.{Same};
ghost use Rattle.px_core.specs.Shown.{Shown, NoFile, Clean};
ghost use Rattle.px_frames.specs.Buffer.{SameRoom as SameBuf};
ghost use Rattle.px_meaning.specs.Graph.{Graph, fresh, room_of};
ghost use Rattle.px_meaning.specs.Merge.{Pairs};
ghost use Rattle.px_meaning.specs.Program.{Row as MeantRow};
ghost use Rattle.px_store.specs.Desks.{IsReady, IsDone, SameDesk, SameRoom};
ghost use Rattle.px_store.specs.Joins.{JoinView, IsInput, AreInputs, rows_in, GivesRow, HasRows, OneBroke};

use crate::{Desk, Store};
use px_core::{Disk, Stop, Vid};
use px_frames::{Buf, Share};
use px_record::VertexBuf;

/// An active vid. It has a vertex or a message, or both.
#[derive(Clone, Copy, Debug, PartialEq, Eq)]
pub struct Row {
    pub vid: Vid,
    pub has_vertex: bool,
    pub has_message: bool,
}

/// The files that a join reads, and how many pages each has.
#[derive(Clone, Copy, Debug, PartialEq, Eq)]
pub struct Inputs {
    pub msg_file: u32,
    pub msg_pages: u64,
    pub vid_file: u32,
    pub vid_pages: u64,
}

/// Gives the active vids of a store and of the messages to it, ascending: each vid whose vertex has not voted to halt, and each that has a message.
/// The messages lie in a file of the scratch disk, one at most for each vid, ascending.
/// The errors are `Stop::Graph` and `Stop::Scratch`, where a call of that disk failed. After one nothing is said of the store, the desk and the rows.
/// From `start` on no call but `next_row` and `settle` is made on the store.
pub trait Join: Drop {
    ghost use Rattle.px_store.specs.declared.shared.Desk.{Desk};

    /// How its callers see it.
    ghost view: { Self → JoinView };

    /// Whether it looks vids up in the store, and does not scan it.
    ghost probing: { Bool };

    /// The scratch disk tells, and beside a store that gave the first vertices since it was rewound and will give the second, these rows are still to be given.
    ghost gives: { Self → Shown → Graph → Graph → List MeantRow → Type 0 };

    /// How many rows it may still give, over any disk, beside those that the store's cursor may still give.
    ghost left: { Self → ℕ };

    /// A join that works with the frames of this share.
    fn open(share: Share) -> Self
        requires { 3 ≤ length share.frames }
        ensures size { (view result).size ≡ share.size }
        ensures frame_len { (view result).frame_len ≡ share.frame_len }
        ensures frames { (view result).frames ≡ length share.frames };

    /// The share, with all its frames.
    fn close(self) -> Share
        ensures size { result.size ≡ (view self).size }
        ensures frame_len { result.frame_len ≡ (view self).frame_len }
        ensures frames { length result.frames ≡ (view self).frames };

    /// Begins to give the rows of a store and of the messages to it.
    fn start<St: Store, GD: Disk, SD: Disk>(
        &mut self,
        store: &mut St,
        desk: &mut Desk,
        graph: &mut GD,
        scratch: &mut SD,
        ins: &Inputs,
    ) -> Result<(), Stop>
        requires ready { IsReady St.counted (St.part store.old) desk.old (GD.shown graph.old) }
        requires graph_len { (view self.old).frame_len ≡ (GD.shown graph.old).page_len }
        requires scratch_len { (view self.old).frame_len ≡ (SD.shown scratch.old).page_len }
        ensures gives { OnOk result ((l : Graph) (m : Pairs) → St.holds store.old desk.old (GD.shown graph.old) l → AreInputs probing (SD.shown scratch.old) ins.now l m
            → HasRows probing (St.holds store.new desk.new (GD.shown graph.new)) (St.scans store.new desk.new (GD.shown graph.new)) (gives self.new (SD.shown scratch.new)) l (rows_in l m)) }
        ensures holds { OnOk result ((l : Graph) → St.holds store.old desk.old (GD.shown graph.old) l → St.holds store.new desk.new (GD.shown graph.new) l) }
        ensures leaves { OnTrue St.counted (St.leaves store.new ≡ St.leaves store.old) }
        ensures reads { IsFalse probing → OnTrue St.counted ((GD.shown graph.new).reads + St.unread store.new desk.new ≤ (GD.shown graph.old).reads + 64 + St.leaves store.old) }
        ensures no_reads { IsTrue probing → OnTrue St.counted ((GD.shown graph.new).reads ≤ (GD.shown graph.old).reads) }
        ensures part { St.part store.new ≡ St.part store.old }
        ensures desk { SameDesk desk.old desk.new }
        ensures done { OnOk result (IsDone St.counted (St.part store.old) desk.old (GD.shown graph.old) desk.new (GD.shown graph.new)) }
        ensures ok { OnOk result (Clean NoFile (SD.shown scratch.old) (SD.shown scratch.new)) }
        ensures err { IfErr result (OneBroke (IsInput ins.now) (GD.shown graph.old) (GD.shown graph.new) (SD.shown scratch.old) (SD.shown scratch.new)) }
        ensures stays { view self.new ≡ record (view self.old) { inputs = ins.now } };

    /// The next row, or `None` after the last. The vertex of a row is the one of its vid, or the fresh one; its message goes into the buffer, which holds any bytes where there is none.
    fn next_row<St: Store, GD: Disk, SD: Disk>(
        &mut self,
        store: &mut St,
        desk: &mut Desk,
        graph: &mut GD,
        scratch: &mut SD,
        vertex: &mut VertexBuf,
        message: &mut Buf,
    ) -> Result<Option<Row>, Stop>
        requires ready { IsReady St.counted (St.part store.old) desk.old (GD.shown graph.old) }
        requires graph_len { (view self.old).frame_len ≡ (GD.shown graph.old).page_len }
        requires scratch_len { (view self.old).frame_len ≡ (SD.shown scratch.old).page_len }
        requires vertex_len { vertex.old.frame_len ≡ (view self.old).frame_len }
        requires room { vertex.old.room ≡ room_of (view self.old).frame_len }
        requires limit { room_of (view self.old).frame_len ≤ 13 + message.old.limit }
        ensures gives { IfOk result (λ o. (l : Graph) (rows : List MeantRow)
            → HasRows probing (St.holds store.old desk.old (GD.shown graph.old)) (St.scans store.old desk.old (GD.shown graph.old)) (gives self.old (SD.shown scratch.old)) l rows
            → GivesRow o vertex.new message.new.bytes rows (HasRows probing (St.holds store.new desk.new (GD.shown graph.new)) (St.scans store.new desk.new (GD.shown graph.new)) (gives self.new (SD.shown scratch.new)) l)) }
        ensures vid { IfOk result (λ o. IfSome o (λ row. vertex.new.vid ≡ row.vid)) }
        ensures fresh { IfOk result (λ o. IfSome o (λ row. IsFalse row.has_vertex → vertex.new.vertex ≡ fresh)) }
        ensures falls { IfOk result (λ o. OnSome o (left self.new + St.left store.new < left self.old + St.left store.old)) }
        ensures leaves { OnTrue St.counted (St.leaves store.new ≡ St.leaves store.old) }
        ensures reads { IsFalse probing → OnTrue St.counted ((GD.shown graph.new).reads + St.unread store.new desk.new ≤ (GD.shown graph.old).reads + St.unread store.old desk.old) }
        ensures few_reads { IsTrue probing → OnTrue St.counted ((GD.shown graph.new).reads ≤ (GD.shown graph.old).reads + 64) }
        ensures no_reads { IfOk result (λ o. IfNone o (IsTrue probing → OnTrue St.counted ((GD.shown graph.new).reads ≤ (GD.shown graph.old).reads))) }
        ensures none_left { (l : Graph) → HasRows probing (St.holds store.old desk.old (GD.shown graph.old)) (St.scans store.old desk.old (GD.shown graph.old)) (gives self.old (SD.shown scratch.old)) l []
            → IsTrue probing → OnTrue St.counted ((GD.shown graph.new).reads ≤ (GD.shown graph.old).reads) }
        ensures part { St.part store.new ≡ St.part store.old }
        ensures desk { SameDesk desk.old desk.new }
        ensures done { OnOk result (IsDone St.counted (St.part store.old) desk.old (GD.shown graph.old) desk.new (GD.shown graph.new)) }
        ensures ok { OnOk result (Clean NoFile (SD.shown scratch.old) (SD.shown scratch.new)) }
        ensures err { IfErr result (OneBroke (IsInput (view self.old).inputs) (GD.shown graph.old) (GD.shown graph.new) (SD.shown scratch.old) (SD.shown scratch.new)) }
        ensures vertex { SameRoom vertex.old vertex.new }
        ensures message { SameBuf message.old message.new }
        ensures stays { view self.new ≡ view self.old };

    /// What it has to give depends on the files that it reads, and on the place of the store's cursor, alone.
    ghost gives_stays: { (j : Self) (s t : Shown) (a b : Graph) (rows : List MeantRow) → Same (IsInput (view j).inputs) s t → gives j s a b rows → gives j t a b rows };
}
