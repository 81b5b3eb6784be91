// One line of graph text, byte by byte. A line has one of these forms, and ends before an LF or at the end of the text:
//
//   blanks
//   blanks '#' and any bytes
//   blanks vid, edges with at least one blank before each, blanks
//
//   edge    vid, or vid ':' weight; without a weight it is 1
//   vid     one or more digits, at most 18446744073709551615
//   weight  one or more digits, at most 4294967295
//   blank   a space, a tab or a CR
//
// Numbers may have leading zeros. An edge that the vertex has no room for is refused at its first digit.
ghost use Rattle.std.specs.Prelude.{◌≡◌, ◌++◌, [], ◌∷◌, IsTrue};
ghost use Rattle.px_meaning.specs.Line.{is_blank, is_digit, greatest_vid, greatest_weight, has_room, Start, InVid, Gap, InTarget, Colon, InWeight};
ghost use Rattle.px_graph_text.specs.Steps.{spot_of, Holds, Steps, Ends, Follows, number_with};

use crate::refusal::Kind;
use px_record::VertexBuf;

/// Where in the grammar a line stands. From `Gap` on its vid and its whole edges stand in the record.
#[derive(Clone, Copy)]
pub(crate) enum State {
    /// Before anything but blanks.
    Start,
    /// In a comment.
    Comment,
    /// In the vid.
    Vid(u64),
    /// After a blank behind the vid or an edge.
    Gap,
    /// In the target of an edge.
    Target(u64),
    /// Behind the `:` of an edge.
    Colon(u64),
    /// In the weight of an edge.
    Weight(u64, u32),
}

/// Why a stretch of bytes was left.
#[derive(Clone, Copy)]
pub(crate) enum Stop {
    /// All its bytes were followed.
    Bytes,
    /// The next byte is an LF.
    LineFeed,
    /// The next byte is refused.
    Offence(Kind),
}

/// How far a line was followed through a stretch of bytes.
#[derive(Clone, Copy)]
pub(crate) struct Followed {
    /// The number of bytes.
    pub(crate) count: usize,
    /// Where the line stands behind them.
    pub(crate) state: State,
    pub(crate) stop: Stop,
}

fn is_blank(byte: u8) -> bool
    ensures { result ≡ is_blank byte }
{
    byte == b' ' || byte == b'\t' || byte == b'\r'
}

fn is_digit(byte: u8) -> bool
    ensures { result ≡ is_digit byte }
{
    b'0' <= byte && byte <= b'9'
}

// The vid with one digit more, unless it passes the greatest.
fn vid_with(vid: u64, digit: u8) -> Option<u64>
    requires { IsTrue (is_digit digit) }
    ensures { result ≡ number_with greatest_vid vid digit }
{
    vid.checked_mul(10)?.checked_add(u64::from(digit - b'0'))
}

// The weight with one digit more, unless it passes the greatest.
fn weight_with(weight: u32, digit: u8) -> Option<u32>
    requires { IsTrue (is_digit digit) }
    ensures { result ≡ number_with greatest_weight weight digit }
{
    weight.checked_mul(10)?.checked_add(u32::from(digit - b'0'))
}

// Whether the vertex has room for one edge more.
fn has_room(into: &VertexBuf) -> bool
    ensures { result ≡ has_room into.now.room into.now.vertex.edges }
{
    34 + 12 * into.edges() <= into.room()
}

// Adds an edge that there is room for.
fn push(into: &mut VertexBuf, dst: u64, weight: u32)
    requires { Holds (State.Target dst) into.old }
    ensures { into.new ≡ record into.old { vertex = record into.old.vertex { edges = into.old.vertex.edges ++ (dst, weight) ∷ [] } } }
{
    into.push_edge(dst, weight).unwrap();
}

fn step_start(byte: u8, into: &VertexBuf) -> Result<State, Kind>
    ensures { Steps Start byte into.now into.now result }
{
    if is_blank(byte) {
        Ok(State::Start)
    } else if byte == b'#' {
        Ok(State::Comment)
    } else if is_digit(byte) {
        vid_with(0, byte).map(State::Vid).ok_or(Kind::Number)
    } else {
        Err(Kind::Form)
    }
}

fn step_vid(vid: u64, byte: u8, into: &mut VertexBuf) -> Result<State, Kind>
    ensures { Steps (InVid vid) byte into.old into.new result }
{
    if is_blank(byte) {
        into.reset(vid);
        Ok(State::Gap)
    } else if is_digit(byte) {
        vid_with(vid, byte).map(State::Vid).ok_or(Kind::Number)
    } else {
        Err(Kind::Form)
    }
}

fn step_gap(byte: u8, into: &VertexBuf) -> Result<State, Kind>
    requires { Holds State.Gap into.now }
    ensures { Steps (Gap into.now.vid into.now.vertex.edges) byte into.now into.now result }
{
    if is_blank(byte) {
        Ok(State::Gap)
    } else if !is_digit(byte) {
        Err(Kind::Form)
    } else if has_room(into) {
        vid_with(0, byte).map(State::Target).ok_or(Kind::Number)
    } else {
        Err(Kind::Wide)
    }
}

fn step_target(dst: u64, byte: u8, into: &mut VertexBuf) -> Result<State, Kind>
    requires { Holds (State.Target dst) into.old }
    ensures { Steps (InTarget into.old.vid into.old.vertex.edges dst) byte into.old into.new result }
{
    if is_blank(byte) {
        push(into, dst, 1);
        Ok(State::Gap)
    } else if byte == b':' {
        Ok(State::Colon(dst))
    } else if is_digit(byte) {
        vid_with(dst, byte).map(State::Target).ok_or(Kind::Number)
    } else {
        Err(Kind::Form)
    }
}

fn step_colon(dst: u64, byte: u8, into: &VertexBuf) -> Result<State, Kind>
    requires { Holds (State.Colon dst) into.now }
    ensures { Steps (Colon into.now.vid into.now.vertex.edges dst) byte into.now into.now result }
{
    if !is_digit(byte) {
        return Err(Kind::Form);
    }
    let weight = weight_with(0, byte).ok_or(Kind::Number)?;
    Ok(State::Weight(dst, weight))
}

fn step_weight(dst: u64, weight: u32, byte: u8, into: &mut VertexBuf) -> Result<State, Kind>
    requires { Holds (State.Weight dst weight) into.old }
    ensures { Steps (InWeight into.old.vid into.old.vertex.edges dst weight) byte into.old into.new result }
{
    if is_blank(byte) {
        push(into, dst, weight);
        return Ok(State::Gap);
    }
    if !is_digit(byte) {
        return Err(Kind::Form);
    }
    let weight = weight_with(weight, byte).ok_or(Kind::Number)?;
    Ok(State::Weight(dst, weight))
}

impl State {
    // What the byte, which is no LF, does to the line.
    fn step(self, byte: u8, into: &mut VertexBuf) -> Result<State, Kind>
        requires { Holds self into.old }
        ensures { Steps (spot_of self into.old) byte into.old into.new result }
    {
        match self {
            State::Start => step_start(byte, into),
            State::Comment => Ok(State::Comment),
            State::Vid(vid) => step_vid(vid, byte, into),
            State::Gap => step_gap(byte, into),
            State::Target(dst) => step_target(dst, byte, into),
            State::Colon(dst) => step_colon(dst, byte, into),
            State::Weight(dst, weight) => step_weight(dst, weight, byte, into),
        }
    }

    /// Whether the line spells a vertex if it ends here. The vertex then stands in the record.
    pub(crate) fn end(self, into: &mut VertexBuf) -> Result<bool, Kind>
        requires { Holds self into.old }
        ensures { Ends (spot_of self into.old) into.old into.new result }
    {
        match self {
            State::Start | State::Comment => return Ok(false),
            State::Vid(vid) => into.reset(vid),
            State::Gap => {}
            State::Target(dst) => push(into, dst, 1),
            State::Colon(_) => return Err(Kind::Form),
            State::Weight(dst, weight) => push(into, dst, weight),
        }
        Ok(true)
    }
}

/// Follows a line through bytes, up to its end, an offence or the end of the bytes.
pub(crate) fn follow(state: State, bytes: &[u8], into: &mut VertexBuf) -> Followed
    requires { Holds state into.old }
    ensures { Follows (spot_of state into.old) bytes.now into.old into.new result }
{
    let mut state = state;
    for (count, byte) in bytes.iter().enumerate() {
        if *byte == b'\n' {
            return Followed {
                count,
                state,
                stop: Stop::LineFeed,
            };
        }
        match state.step(*byte, into) {
            Ok(next) => state = next,
            Err(kind) => {
                return Followed {
                    count,
                    state,
                    stop: Stop::Offence(kind),
                };
            }
        }
    }
    Followed {
        count: bytes.len(),
        state,
        stop: Stop::Bytes,
    }
}
