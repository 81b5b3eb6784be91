// A scan of a store beside the messages to its vids.
ghost use Rattle.std.specs.Prelude.{◌≡◌, ◌≢◌, ◌≤◌, ◌<◌, ◌+◌, ◌||◌, [], ℕ, Bool, List, length, true, false, IsTrue, OnOk, OnErr, IfOk, IfErr, OnSome, Some, if◌then◌else◌};
ghost use Rattle.std.specs.Bool.{OnTrue};
ghost use Rattle.px_core.specs.Shown.{Shown, NoFile, Only, Clean, Broke};
ghost use Rattle.px_frames.specs.Buffer.{SameRoom as SameBuf};
ghost use Rattle.px_meaning.specs.Graph.{Graph, fresh, room_of};
ghost use Rattle.px_meaning.specs.Merge.{Pairs};
ghost use Rattle.px_meaning.specs.Program.{Row as MeantRow};
ghost use Rattle.px_cache.specs.View.{AnyFile};
ghost use Rattle.px_pages.specs.Entry.{Entry};
ghost use Rattle.px_pages.specs.Page.{IsPageLen};
ghost use Rattle.px_stream.specs.Counts.{left, SameReader};
ghost use Rattle.px_stream.specs.Stream.{ToGive, Holds};
ghost use Rattle.px_store.specs.Desks.{IsReady, IsDone, SameDesk, SameRoom, GivesNext};
ghost use Rattle.px_store.specs.Joins.{message_tuples, LeadsRow};
ghost use Rattle.px_outer_join.specs.Due.{key_in, first_vid};
ghost use Rattle.px_outer_join.specs.Outer.{view_of, left_of, ahead_vid, is_due, GivesRows, Beside, AtHand, IsFirst, LeadsMessage, gives_rows_same};

use crate::due::{is_asleep, row_of};
use px_core::{Disk, Stop, Vid};
use px_frames::{Buf, Frame, Share};
use px_pages::room;
use px_record::VertexBuf;
use px_store::{Desk, Inputs, Join, Row, Store};
use px_stream::{Head, Reader};
use std::marker::Model;
use std::mem;

/// The full outer join. It has one page of the messages and one vertex of the store in frames of its share, and never looks at the file of vids.
#[derive(Drop)]
pub struct OuterJoin {
    // The frames that are not in use.
    share: Share,
    messages: Reader,
    // The store's next vertex, where it is held.
    ahead: VertexBuf,
    held: bool,
    inputs: Inputs,
}

impl Model for OuterJoin {
    ghost use Rattle.px_outer_join.specs.Outer.{OuterView, IsOuter};

    ghost Value = { OuterView };

    ghost view = { λ j. record { share = j.share; messages = j.messages; ahead = j.ahead; held = j.held; inputs = j.inputs } };

    ghost invariant = { λ j. IsOuter (record { share = j.share; messages = j.messages; ahead = j.ahead; held = j.held; inputs = j.inputs }) };
}

fn key_of(head: Option<Head>) -> Option<Vid>
    ensures { result ≡ key_in head }
{
    match head {
        None => None,
        Some(head) => Some(head.key),
    }
}

// A record in a frame.
fn record_over(frame: Frame) -> VertexBuf
    requires { IsPageLen (length frame) }
    ensures room { result.room ≡ room_of (length frame) }
    ensures len { result.frame_len ≡ length frame }
{
    let len = frame.bytes().len() as u32;
    VertexBuf::over(frame, room(len))
}

impl OuterJoin {
    // Goes to the front of the messages, with no vertex held.
    fn turn_to(&mut self, ins: &Inputs)
        ensures messages { (s : Shown) (l : List Entry) → Holds s ins.now.msg_file ins.now.msg_pages l → ToGive s self.new.messages l }
        ensures file { self.new.messages.file ≡ ins.now.msg_file }
        ensures held { self.new.held ≡ false }
        ensures inputs { self.new.inputs ≡ ins.now }
        ensures ahead { self.new.ahead ≡ self.old.ahead }
        ensures view { view_of self.new ≡ record (view_of self.old) { inputs = ins.now } }
    {
        let messages = Reader::new(self.share.take(), ins.msg_file);
        let before = mem::replace(&mut self.messages, messages);
        self.share.put(before.close());
        self.messages.start(ins.msg_pages);
        self.held = false;
        self.inputs = *ins;
    }

    // The vid of the next message, if there is one.
    fn message_vid<SD: Disk>(&mut self, scratch: &mut SD) -> Result<Option<Vid>, Stop>
        requires { self.old.share.frame_len ≡ (SD.shown scratch.old).page_len }
        ensures to_give { OnOk result ((l : List Entry) → ToGive (SD.shown scratch.old) self.old.messages l → ToGive (SD.shown scratch.new) self.new.messages l) }
        ensures first { IfOk result (λ o. (m : Pairs) → ToGive (SD.shown scratch.old) self.old.messages (message_tuples m) → first_vid m ≡ o) }
        ensures here { IfOk result (λ o. OnSome o (self.new.messages.here ≢ [])) }
        ensures left { left self.new.messages ≤ left self.old.messages }
        ensures file { self.old.messages.file ≡ self.old.inputs.msg_file }
        ensures ok { OnOk result (Clean NoFile (SD.shown scratch.old) (SD.shown scratch.new)) }
        ensures err { IfErr result (Broke Stop.Scratch (Only self.old.messages.file) (SD.shown scratch.old) (SD.shown scratch.new)) }
        ensures stays { self.new ≡ record self.old { messages = self.new.messages } }
        ensures reader { SameReader self.old.messages self.new.messages }
    {
        let head = self.messages.peek(scratch)?;
        Ok(key_of(head))
    }

    // Whether a vertex is held that has a row, where the next message is to this vid.
    fn is_due(&self, message: Option<Vid>) -> bool
        ensures { result ≡ is_due self.now.held self.now.ahead message }
    {
        self.held && !is_asleep(&self.ahead, message)
    }

    // Takes the store's next vertex in the place of the one that is held.
    fn advance<St: Store, GD: Disk>(
        &mut self,
        store: &mut St,
        desk: &mut Desk,
        graph: &mut GD,
    ) -> Result<(), Stop>
        requires ready { IsReady St.counted (St.part store.old) desk.old (GD.shown graph.old) }
        requires graph_len { self.old.share.frame_len ≡ (GD.shown graph.old).page_len }
        ensures gives { OnOk result ((a b : Graph) → St.scans store.old desk.old (GD.shown graph.old) a b
            → GivesNext self.new.held self.new.ahead.vid self.new.ahead.vertex a b (St.scans store.new desk.new (GD.shown graph.new))) }
        ensures left { St.left store.new + left_of self.new ≤ St.left store.old + left_of self.old }
        ensures falls { OnOk result (IsTrue self.new.held → St.left store.new < St.left store.old) }
        ensures leaves { OnTrue St.counted (St.leaves store.new ≡ St.leaves store.old) }
        ensures reads { OnTrue St.counted ((GD.shown graph.new).reads + St.unread store.new desk.new ≤ (GD.shown graph.old).reads + St.unread store.old desk.old) }
        ensures part { St.part store.new ≡ St.part store.old }
        ensures desk { SameDesk desk.old desk.new }
        ensures done { OnOk result (IsDone St.counted (St.part store.old) desk.old (GD.shown graph.old) desk.new (GD.shown graph.new)) }
        ensures err { IfErr result (Broke Stop.Graph AnyFile (GD.shown graph.old) (GD.shown graph.new)) }
        ensures stays { self.new ≡ record self.old { ahead = self.new.ahead; held = self.new.held } }
    {
        self.held = store.next(graph, desk, &mut self.ahead)?;
        Ok(())
    }

    // Moves the scan on to a vertex that has a row, where the next message is to this vid, or to its end.
    fn look_ahead<St: Store, GD: Disk>(
        &mut self,
        store: &mut St,
        desk: &mut Desk,
        graph: &mut GD,
        message: Option<Vid>,
    ) -> Result<(), Stop>
        requires ready { IsReady St.counted (St.part store.old) desk.old (GD.shown graph.old) }
        requires graph_len { self.old.share.frame_len ≡ (GD.shown graph.old).page_len }
        ensures rows { OnOk result ((l : Graph) (m : Pairs) (rows : List MeantRow) → first_vid m ≡ message
            → Beside (St.scans store.old desk.old (GD.shown graph.old)) self.old.held self.old.ahead l m rows
            → AtHand (St.scans store.new desk.new (GD.shown graph.new)) self.new.held self.new.ahead l m rows) }
        ensures left { St.left store.new + left_of self.new ≤ St.left store.old + left_of self.old }
        ensures leaves { OnTrue St.counted (St.leaves store.new ≡ St.leaves store.old) }
        ensures reads { OnTrue St.counted ((GD.shown graph.new).reads + St.unread store.new desk.new ≤ (GD.shown graph.old).reads + St.unread store.old desk.old) }
        ensures part { St.part store.new ≡ St.part store.old }
        ensures desk { SameDesk desk.old desk.new }
        ensures done { OnOk result (IsDone St.counted (St.part store.old) desk.old (GD.shown graph.old) desk.new (GD.shown graph.new)) }
        ensures err { IfErr result (Broke Stop.Graph AnyFile (GD.shown graph.old) (GD.shown graph.new)) }
        ensures stays { self.new ≡ record self.old { ahead = self.new.ahead; held = self.new.held } }
    {
        while !self.is_due(message) {
            self.advance(store, desk, graph)?;
            if !self.held {
                return Ok(());
            }
        }
        Ok(())
    }

    // The vid of the vertex that is held.
    fn vertex_vid(&self) -> Option<Vid>
        ensures { result ≡ ahead_vid self.now.held self.now.ahead }
    {
        self.held.then_some(self.ahead.vid())
    }

    // Takes the vertex that is held, where the row has one, and else the fresh one.
    fn take_vertex(&mut self, row: Row, vertex: &mut VertexBuf)
        requires len { vertex.old.frame_len ≡ self.old.share.frame_len }
        requires room { vertex.old.room ≡ room_of self.old.share.frame_len }
        ensures taken { row.has_vertex ≡ true → vertex.new ≡ self.old.ahead }
        ensures reset { row.has_vertex ≡ false → vertex.new ≡ record vertex.old { vid = row.vid; vertex = fresh } }
        ensures held { self.new.held ≡ (if row.has_vertex then false else self.old.held) }
        ensures ahead { row.has_vertex ≡ false → self.new.ahead ≡ self.old.ahead }
        ensures same { SameRoom vertex.old vertex.new }
        ensures stays { self.new ≡ record self.old { ahead = self.new.ahead; held = self.new.held } }
    {
        if row.has_vertex {
            mem::swap(vertex, &mut self.ahead);
            self.held = false;
        } else {
            vertex.reset(row.vid);
        }
    }

    // Takes the next message, which is there.
    fn take_message<SD: Disk>(&mut self, scratch: &mut SD, message: &mut Buf) -> Result<(), Stop>
        requires page_len { self.old.share.frame_len ≡ (SD.shown scratch.old).page_len }
        requires limit { room_of self.old.share.frame_len ≤ 13 + message.old.limit }
        requires here { self.old.messages.here ≢ [] }
        ensures gives { OnOk result ((m : Pairs) → ToGive (SD.shown scratch.old) self.old.messages (message_tuples m)
            → LeadsMessage message.new.bytes m (λ rest. ToGive (SD.shown scratch.new) self.new.messages (message_tuples rest))) }
        ensures falls { OnOk result (left self.new.messages < left self.old.messages) }
        ensures ok { OnOk result (Clean NoFile (SD.shown scratch.old) (SD.shown scratch.new)) }
        ensures err { IfErr result (Broke Stop.Scratch (Only self.old.messages.file) (SD.shown scratch.old) (SD.shown scratch.new)) }
        ensures message { SameBuf message.old message.new }
        ensures stays { self.new ≡ record self.old { messages = self.new.messages } }
        ensures reader { SameReader self.old.messages self.new.messages }
    {
        self.messages.next(scratch, message)?;
        Ok(())
    }

    // Takes the vertex and the message of a row.
    fn take_row<SD: Disk>(
        &mut self,
        scratch: &mut SD,
        row: Row,
        vertex: &mut VertexBuf,
        message: &mut Buf,
    ) -> Result<(), Stop>
        requires page_len { self.old.share.frame_len ≡ (SD.shown scratch.old).page_len }
        requires len { vertex.old.frame_len ≡ self.old.share.frame_len }
        requires room { vertex.old.room ≡ room_of self.old.share.frame_len }
        requires limit { room_of self.old.share.frame_len ≤ 13 + message.old.limit }
        requires here { row.has_message ≡ true → self.old.messages.here ≢ [] }
        requires held { row.has_vertex ≡ true → self.old.held ≡ true }
        requires vid { row.has_vertex ≡ true → self.old.ahead.vid ≡ row.vid }
        requires some { (row.has_vertex || row.has_message) ≡ true }
        ensures gives { OnOk result ((given coming : Graph) (m : Pairs) (rows : List MeantRow) → self.old.messages.file ≡ self.old.inputs.msg_file → ToGive (SD.shown scratch.old) self.old.messages (message_tuples m)
            → IsFirst row self.old.held self.old.ahead coming m rows → LeadsRow row vertex.new message.new.bytes rows (GivesRows self.new (SD.shown scratch.new) given coming)) }
        ensures vid { vertex.new.vid ≡ row.vid }
        ensures fresh { row.has_vertex ≡ false → vertex.new.vertex ≡ fresh }
        ensures falls { OnOk result (left_of self.new < left_of self.old) }
        ensures ok { OnOk result (Clean NoFile (SD.shown scratch.old) (SD.shown scratch.new)) }
        ensures err { IfErr result (Broke Stop.Scratch (Only self.old.messages.file) (SD.shown scratch.old) (SD.shown scratch.new)) }
        ensures vertex { SameRoom vertex.old vertex.new }
        ensures message { SameBuf message.old message.new }
        ensures stays { view_of self.new ≡ view_of self.old }
    {
        self.take_vertex(row, vertex);
        if row.has_message {
            self.take_message(scratch, message)?;
        }
        Ok(())
    }
}

impl Join for OuterJoin {
    ghost view = { view_of };

    ghost probing = { false };

    ghost gives = { GivesRows };

    ghost left = { left_of };

    fn open(mut share: Share) -> OuterJoin {
        let messages = Reader::new(share.take(), 0);
        let ahead = record_over(share.take());
        OuterJoin {
            share,
            messages,
            ahead,
            held: false,
            inputs: Inputs {
                msg_file: 0,
                msg_pages: 0,
                vid_file: 0,
                vid_pages: 0,
            },
        }
    }

    fn close(self) -> Share {
        let mut share = self.share;
        share.put(self.messages.close());
        share.put(self.ahead.close());
        share
    }

    fn start<St: Store, GD: Disk, SD: Disk>(
        &mut self,
        store: &mut St,
        desk: &mut Desk,
        graph: &mut GD,
        _scratch: &mut SD,
        ins: &Inputs,
    ) -> Result<(), Stop> {
        self.turn_to(ins);
        store.rewind(graph, desk)?;
        Ok(())
    }

    fn next_row<St: Store, GD: Disk, SD: Disk>(
        &mut self,
        store: &mut St,
        desk: &mut Desk,
        graph: &mut GD,
        scratch: &mut SD,
        vertex: &mut VertexBuf,
        message: &mut Buf,
    ) -> Result<Option<Row>, Stop> {
        let next = self.message_vid(scratch)?;
        self.look_ahead(store, desk, graph, next)?;
        match row_of(self.vertex_vid(), next) {
            None => Ok(None),
            Some(row) => {
                self.take_row(scratch, row, vertex, message)?;
                Ok(Some(row))
            }
        }
    }

    ghost gives_stays = { gives_rows_same };
}
