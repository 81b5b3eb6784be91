// chains: each unbranched path is joined into its first vertex. A value is
//
//   state   1 byte: 0 undecided, 1 inner, 2 head
//   vids    8 bytes each, and at least one
ghost use Rattle.std.specs.Prelude.{◌≡◌, ◌<◌, ◌≤◌, ◌/◌, ◌%◌, ◌++◌, ◌∷◌, ℕ, [], true, length, drop, IfSome, IsTrue, OnOk, OnErr, IfErr, option_copied, refl};
ghost use Rattle.std.specs.Option.{option_map};
ghost use Rattle.px_meaning.specs.Graph.{Vertex, fresh, vertex_size, size_of};
ghost use Rattle.px_program.specs.Calls.{answer};
ghost use Rattle.px_program.specs.Numbers.{num};
ghost use Rattle.px_program.specs.Posted.{Posted, with_out, gathered, IsPartOf, StaysOpen, StopsPosting};
ghost use Rattle.px_record.specs.Body.{edges_in};
ghost use Rattle.px_record.specs.Held.{IsWithin, SameRecord};
ghost use Rattle.px_verdict.specs.Verdict.{verdict_rule};
ghost use Rattle.px_programs.specs.Along.{with_sends, SendsPart};
ghost use Rattle.px_programs.specs.ChainMessages.{chain_rule};
ghost use Rattle.px_programs.specs.ChainReading.{said, HasWholeEdges};
ghost use Rattle.px_programs.specs.ChainSteps.{state_byte, changed, posted, taken, IsReady};
ghost use Rattle.px_programs.specs.Chains.{chains, chains_table, chains_laws, is_chain, state_of, with_state, calls, chooses, goes_on, answers};

use crate::along::send_along;
use crate::chain_messages::{ChainMessages, Message, answer_front, are_vids, note};
use crate::chain_text::print_vids;
use crate::numbers::bytes_of;
use crate::plain::{Plain, PlainProgram};
use px_core::{Failed, Sink, Stop, Vid, write_all};
use px_frames::Wide;
use px_program::{At, Outbox};
use px_record::VertexBuf;
use px_verdict::DELETE;

/// Joins each unbranched path into its first vertex, which then has the vids of the path, printed with `+` between two, and the
/// edges of its last vertex. The aggregate counts the vertices that were joined in the last superstep.
pub type Chains = PlainProgram<ChainsTable>;

/// The table of `Chains`.
#[derive(Clone, Copy, Debug, PartialEq, Eq)]
pub struct ChainsTable;

impl Chains {
    pub fn new() -> Chains {
        PlainProgram::of(ChainsTable, ChainMessages)
    }
}

// What a vertex is in its path.
#[derive(Clone, Copy)]
enum State {
    Undecided,
    Inner,
    Head,
}

impl State {
    fn byte(self) -> u8
        ensures { result ≡ state_byte self }
    {
        match self {
            State::Undecided => 0,
            State::Inner => 1,
            State::Head => 2,
        }
    }
}

// What a vertex does in a superstep.
#[derive(Clone, Copy)]
enum Step<'m> {
    // It tells its targets of their edges.
    Tell,
    // It is inner.
    BeInner,
    // It is a head, and calls the next vertex.
    BeHead,
    // It gives its vids and edges to the head, and leaves.
    Answer { head: Vid },
    // It takes these vids and edges, and calls the next vertex.
    Join { vids: &'m [u8], edges: &'m [u8] },
    // It keeps what it has.
    Rest,
}

// Whether a value has the form that chains gives it.
fn is_chain(value: &[u8]) -> bool
    ensures { result ≡ is_chain value.now }
{
    match value.split_first() {
        Some((state, vids)) => {
            *state < 3 && are_vids(vids.len()) && vids.len() <= u32::MAX as usize
        }
        None => false,
    }
}

// What stands behind the state.
fn vids_of(value: &[u8]) -> &[u8]
    requires { 1 ≤ length value.now }
    ensures { result.now ≡ drop 1 value.now }
{
    &value[1..]
}

// A value of another form is undecided.
fn state_of(value: &[u8]) -> State
    ensures { state_byte result ≡ state_of value.now }
{
    if !is_chain(value) {
        return State::Undecided;
    }
    match value.first() {
        Some(1) => State::Inner,
        Some(2) => State::Head,
        _ => State::Undecided,
    }
}

// What a vertex does in superstep 1.
fn choose<'m>(heard: Option<Message<'m>>) -> Step<'m>
    ensures step { (vid : ℕ) (x : Vertex) → chooses vid x (option_map said heard.entry) ≡ taken result vid x }
    ensures ready { (x : Vertex) → IsReady result x }
{
    match heard {
        Some(Message::Note { flag: true, .. }) => Step::BeInner,
        _ => Step::BeHead,
    }
}

// What a vertex does later.
fn go_on<'m>(state: State, heard: Option<Message<'m>>) -> Step<'m>
    requires { IfSome heard HasWholeEdges }
    ensures step { (vid : ℕ) (x : Vertex) → state_byte state ≡ state_of x.value → goes_on vid x (option_map said heard.entry) ≡ taken result vid x }
    ensures ready { (x : Vertex) → state_byte state ≡ state_of x.value → IsReady result x }
{
    match (state, heard) {
        (State::Inner, Some(Message::Note { vid, .. })) => Step::Answer { head: vid },
        (State::Head, Some(Message::Answer { vids, edges })) => Step::Join { vids, edges },
        _ => Step::Rest,
    }
}

// The value with only the vertex's own vid.
fn own_value(state: State, vid: Vid) -> [u8; 9]
    ensures { result ≡ state_byte state ∷ num vid }
{
    let mut value = [state.byte(); 9];
    value[1..].copy_from_slice(&bytes_of(vid));
    value
}

// Sets the state. A value of another form becomes the vertex's own vid.
fn set_state(v: &mut VertexBuf, state: State) -> Result<(), Wide>
    ensures ok { OnOk result (v.new ≡ record v.old { vertex = record v.old.vertex { value = with_state (state_byte state) v.old.vid v.old.vertex.value } }) }
    ensures wide { OnErr result (v.old.room < size_of (length (with_state (state_byte state) v.old.vid v.old.vertex.value)) (length v.old.vertex.edges)) }
    ensures err { OnErr result (v.new ≡ v.old) }
{
    if is_chain(v.value()) {
        v.set_first(state.byte());
        return Ok(());
    }
    v.set_value(&own_value(state, v.vid()))
}

// Appends vids to the value, and takes edges in place of its own.
fn join(v: &mut VertexBuf, vids: &[u8], edges: &[u8]) -> Result<(), Wide>
    requires { length edges.now % 12 ≡ 0 }
    ensures ok { OnOk result (v.new ≡ record v.old { vertex = record v.old.vertex { value = v.old.vertex.value ++ vids.now; edges = edges_in (length edges.now / 12) edges.now } }) }
    ensures wide { OnErr result (v.old.room < size_of (length (v.old.vertex.value ++ vids.now)) (length (edges_in (length edges.now / 12) edges.now))) }
    ensures record_stays { SameRecord v.old v.new }
{
    v.clear_edges();
    v.append_value(vids)?;
    v.set_edges(edges)
}

impl<'m> Step<'m> {
    // What a vertex does.
    fn of(at: &At, v: &VertexBuf, msg: Option<&'m [u8]>) -> Step<'m>
        requires { IsTrue at.now.fresh → v.now.vertex ≡ fresh }
        ensures step { answer chains at.now v.now (option_copied msg.entry) ≡ taken result v.now.vid v.now.vertex }
        ensures ready { IsReady result v.now.vertex }
        ensures within { IsWithin v.now }
    {
        let state = state_of(v.value());
        if at.superstep == 0 {
            return Step::Tell;
        }
        let heard = match msg {
            Some(bytes) => Message::read(bytes),
            None => None,
        };
        if at.superstep == 1 {
            choose(heard)
        } else {
            go_on(state, heard)
        }
    }

    // Makes it the new vertex.
    fn change(self, v: &mut VertexBuf) -> Result<(), Wide>
        requires ready { IsReady self v.old.vertex }
        ensures ok { OnOk result (v.new ≡ record v.old { vertex = changed self.entry v.old.vid v.old.vertex }) }
        ensures wide { OnErr result (v.old.room < vertex_size (changed self.entry v.old.vid v.old.vertex)) }
        ensures record_stays { SameRecord v.old v.new }
    {
        v.set_halt(!matches!(self, Step::Tell));
        match self {
            Step::Tell => v.set_value(&own_value(State::Undecided, v.vid())),
            Step::BeInner => set_state(v, State::Inner),
            Step::BeHead => set_state(v, State::Head),
            Step::Join { vids, edges } => join(v, vids, edges),
            Step::Answer { .. } | Step::Rest => Ok(()),
        }
    }

    // Posts what comes with the new vertex.
    fn post<O: Outbox>(self, v: &VertexBuf, out: &mut O) -> Result<(), Stop>
        requires open { IsTrue (O.is_open out.old) }
        requires message { (O.made_for out.old).message ≡ chain_rule }
        requires verdict { (O.made_for out.old).verdict ≡ verdict_rule }
        requires pieces { O.pieces out.old ≡ gathered (O.made_for out.old).room [] }
        requires ready { IsReady self v.now.vertex }
        ensures ok { OnOk result ((p : Posted) → O.took out.old p → O.took out.new (with_out (posted self.entry v.now.vid v.now.vertex) p)) }
        ensures open { OnOk result (StaysOpen (O.is_open out.new) (O.faults out.old) (O.faults out.new)) }
        ensures pieces { OnOk result (O.pieces out.new ≡ gathered (O.made_for out.old).room []) }
        ensures err { IfErr result (StopsPosting (O.took out.old) (O.took out.new) (IsPartOf (posted self.entry v.now.vid v.now.vertex)) (O.made_for out.old) (O.is_open out.new) (O.faults out.old) (O.faults out.new)) }
        ensures stays { O.made_for out.new ≡ O.made_for out.old }
    {
        match self {
            Step::Tell => send_along(v, &note(v.edges() == 1, v.vid()), out),
            Step::BeHead => call_next(v, out),
            Step::Answer { head } => answer_head(v, head, out),
            Step::Join { .. } => {
                out.contribute(1);
                call_next(v, out)
            }
            Step::BeInner | Step::Rest => Ok(()),
        }
    }
}

// Sends a flagged note along the only edge, where there is just one.
fn call_next<O: Outbox>(v: &VertexBuf, out: &mut O) -> Result<(), Stop>
    requires open { IsTrue (O.is_open out.old) }
    requires message { (O.made_for out.old).message ≡ chain_rule }
    ensures ok { OnOk result ((p : Posted) → O.took out.old p → O.took out.new (with_sends (calls v.now.vid v.now.vertex.edges) p)) }
    ensures open { OnOk result (StaysOpen (O.is_open out.new) (O.faults out.old) (O.faults out.new)) }
    ensures err { IfErr result (StopsPosting (O.took out.old) (O.took out.new) (SendsPart (calls v.now.vid v.now.vertex.edges)) (O.made_for out.old) (O.is_open out.new) (O.faults out.old) (O.faults out.new)) }
    ensures pieces { O.pieces out.new ≡ O.pieces out.old }
    ensures stays { O.made_for out.new ≡ O.made_for out.old }
{
    if v.edges() != 1 {
        return Ok(());
    }
    let (next, _) = v.edge(0);
    out.send(next, &note(true, v.vid()))
}

// Sends the vids and edges to the head, and requests that the vertex goes.
fn answer_head<O: Outbox>(v: &VertexBuf, head: Vid, out: &mut O) -> Result<(), Stop>
    requires open { IsTrue (O.is_open out.old) }
    requires message { (O.made_for out.old).message ≡ chain_rule }
    requires verdict { (O.made_for out.old).verdict ≡ verdict_rule }
    requires pieces { O.pieces out.old ≡ gathered (O.made_for out.old).room [] }
    requires chain { is_chain v.now.vertex.value ≡ true }
    ensures ok { OnOk result ((p : Posted) → O.took out.old p → O.took out.new (with_out (answers v.now.vid v.now.vertex head) p)) }
    ensures open { OnOk result (StaysOpen (O.is_open out.new) (O.faults out.old) (O.faults out.new)) }
    ensures pieces { OnOk result (O.pieces out.new ≡ gathered (O.made_for out.old).room []) }
    ensures err { IfErr result (StopsPosting (O.took out.old) (O.took out.new) (IsPartOf (answers v.now.vid v.now.vertex head)) (O.made_for out.old) (O.is_open out.new) (O.faults out.old) (O.faults out.new)) }
    ensures stays { O.made_for out.new ≡ O.made_for out.old }
{
    let vids = vids_of(v.value());
    out.piece(&answer_front(vids.len() as u32));
    out.piece(vids);
    out.piece(v.edge_bytes());
    out.send_pieces(head)?;
    out.request(v.vid(), &DELETE)
}

impl Plain for ChainsTable {
    type Message = ChainMessages;

    ghost table = { λ t. chains_table };

    ghost one_rule = { λ t m. refl };

    ghost laws = { λ t. chains_laws };

    fn compute<O: Outbox>(
        &self,
        at: &At,
        v: &mut VertexBuf,
        msg: Option<&[u8]>,
        out: &mut O,
    ) -> Result<(), Stop> {
        let step = Step::of(at, v, msg);
        if step.change(v).is_err() {
            return Err(Stop::Beyond);
        }
        step.post(v, out)
    }

    fn print_value<W: Sink>(&self, v: &VertexBuf, sink: &mut W) -> Result<(), Failed> {
        let value = v.value();
        if !is_chain(value) {
            return write_all(sink, b"-");
        }
        print_vids(vids_of(value), sink)
    }
}
