// The outbox of a compute phase: what is sent goes to a group, and what is requested to the files of the receivers.
ghost use Rattle.std.specs.Prelude.{◌+◌, ◌<◌, ◌≤◌, ◌^◌, ◌≡◌, ◌⊎◌, [], ◌∷◌, ◌++◌, ⊤, length, IsTrue, IsFalse, OnOk, IfErr};
ghost use Rattle.px_core.specs.Shown.{Clean};
ghost use Rattle.px_meaning.specs.Graph.{pair_size};
ghost use Rattle.px_meaning.specs.Merge.{Pairs};
ghost use Rattle.px_meaning.specs.Step.{are_beyond};
ghost use Rattle.px_program.specs.Groups.{IsOwn, StopsGrouping, room_in};
ghost use Rattle.px_program.specs.Posted.{made_over, pieces_in};
ghost use Rattle.px_connectors.specs.Asking.{Asked};
ghost use Rattle.px_compute_op.specs.Outs.{Start, idle_start, IsOut, HasTaken};

use px_connectors::Requests;
use px_core::{Disk, Stop, Vid};
use px_frames::Buf;
use px_global_state::Part;
use px_program::{Group, Merge, Outbox, Program};
use px_record::FRONT;
use std::marker::{Brand, PhantomData};

// The most sends, and the most requests, of a superstep.
const MOST: u64 = 1 << 40;

/// Where a compute phase began, to be named in proofs. It is what an outbox keeps to while vertices write to it.
pub trait Meant {
    ghost start: { Start };

    ghost asked_before: { Pairs → Type 0 };
}

impl Meant for Brand {
    ghost start = { idle_start };

    ghost asked_before = { λ l. ⊤ };
}

/// Where the vertices of a partition put what they send, request and contribute.
/// After a refusal nothing is said of what it took, since the group may have taken a part of it.
#[derive(Drop)]
pub struct Outs<'p, 'g, 'r, 'd, 's, P: Program, G: Group, SD: Disk, K: Meant> {
    pub program: &'p P,
    pub group: &'g mut G,
    pub requests: &'r mut Requests,
    pub disk: &'d mut SD,
    /// The pieces that are gathered.
    pub spare: &'s mut Buf,
    /// They are too long to be sent.
    pub long: bool,
    pub room: u32,
    pub made: Part,
    pub unspent: bool,
    pub of: PhantomData<K>,

    ghost is: { IsOut K.start (P.meaning program.now) (G.made group.now) (G.is_open group.now) requests.now (SD.shown disk.now) spare.now room made unspent },
}

// Whether, after so many pairs, one more with this payload is past the limits.
fn is_past(room: u32, taken: u64, payload: &[u8]) -> bool
    ensures past { IsTrue result → (2 ^ 40 ≤ taken) ⊎ (room < pair_size payload.now) }
    ensures within { IsFalse result → (taken < 2 ^ 40) × (pair_size payload.now ≤ room) }
{
    let room = room as usize;
    taken >= MOST || room < FRONT || payload.len() > room - FRONT
}

// Gives the group a pair and counts it, where neither is past the limits.
fn add_send<G: Group, M: Merge, SD: Disk>(
    group: &mut G,
    disk: &mut SD,
    merge: &M,
    room: u32,
    sends: &mut u64,
    to: Vid,
    payload: &[u8],
) -> Result<(), Stop>
    requires page_len { (G.made group.old).frame_len ≡ (SD.shown disk.old).page_len }
    requires open { IsTrue (G.is_open group.old) }
    requires room { room ≡ room_in (G.made group.old) }
    requires few { sends.old ≤ 2 ^ 40 }
    ensures took { OnOk result ((l : Pairs) → IsTrue ((M.rule merge.now).valid payload.now) → G.took (SD.shown disk.old) group.old (M.rule merge.now) l
        → G.took (SD.shown disk.new) group.new (M.rule merge.now) (l ++ (to, payload.now) ∷ [])) }
    ensures open { OnOk result (IsTrue (G.is_open group.new)) }
    ensures count { OnOk result (sends.new ≡ sends.old + 1) }
    ensures few { sends.new ≤ 2 ^ 40 }
    ensures wide { room < pair_size payload.now → result ≡ Err Stop.Beyond }
    ensures ok { OnOk result (Clean (IsOwn (G.made group.old)) (SD.shown disk.old) (SD.shown disk.new)) }
    ensures err { IfErr result (StopsGrouping (IsOwn (G.made group.old)) ((l : Pairs) → IsTrue ((M.rule merge.now).valid payload.now) → G.took (SD.shown disk.old) group.old (M.rule merge.now) l
        → length l ≡ sends.old → IsTrue (are_beyond (M.rule merge.now) room (l ++ (to, payload.now) ∷ []))) (SD.shown disk.old) (SD.shown disk.new)) }
    ensures stays { G.made group.new ≡ G.made group.old }
{
    if is_past(room, *sends, payload) {
        return Err(Stop::Beyond);
    }
    group.add(disk, merge, to, payload)?;
    *sends += 1;
    Ok(())
}

impl<P: Program, G: Group, SD: Disk, K: Meant> Outbox for Outs<'_, '_, '_, '_, '_, P, G, SD, K> {
    ghost took = { λ o p. IsTrue o.unspent → HasTaken K.start.program o.room (G.took (SD.shown o.disk.now) o.group.now K.start.program.message) (Asked (SD.shown o.disk.now) o.requests.now) K.asked_before o.made p };

    ghost made_for = { λ o. made_over K.start.program o.room (o.group.ghost_name ∷ o.requests.ghost_name ∷ o.disk.ghost_name ∷ o.spare.ghost_name ∷ []) };

    ghost faults = { λ o. (SD.shown o.disk.now).faults };

    ghost is_open = { λ o. o.unspent };

    ghost pieces = { λ o. pieces_in o.long o.spare.now.bytes };

    fn send(&mut self, to: Vid, payload: &[u8]) -> Result<(), Stop> {
        let sent = add_send(
            self.group,
            self.disk,
            self.program.message(),
            self.room,
            &mut self.made.sends,
            to,
            payload,
        );
        self.unspent = sent.is_ok();
        sent
    }

    fn piece(&mut self, bytes: &[u8]) {
        if !self.long {
            self.long = self.spare.append(bytes).is_err();
        }
    }

    fn send_pieces(&mut self, to: Vid) -> Result<(), Stop> {
        if self.long {
            self.spare.clear();
            self.long = false;
            self.unspent = false;
            return Err(Stop::Beyond);
        }
        let posted = add_send(
            self.group,
            self.disk,
            self.program.message(),
            self.room,
            &mut self.made.sends,
            to,
            self.spare.bytes(),
        );
        self.unspent = posted.is_ok();
        self.spare.clear();
        posted
    }

    fn request(&mut self, vid: Vid, verdict: &[u8]) -> Result<(), Stop> {
        if is_past(self.room, self.made.requests, verdict) {
            self.unspent = false;
            return Err(Stop::Beyond);
        }
        match self.requests.put(self.disk, vid, verdict) {
            Ok(()) => {
                self.made.requests += 1;
                Ok(())
            }
            Err(stop) => {
                self.unspent = false;
                Err(stop)
            }
        }
    }

    fn contribute(&mut self, n: u64) {
        self.made.contributed = self.program.join(self.made.contributed, n);
    }
}
