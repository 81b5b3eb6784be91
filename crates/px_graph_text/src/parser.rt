// A text that is read through one frame, a vertex at a time. Whole frames are read, and the bytes of each are gone over in one
// loop for each line. What a line has spelled goes on from frame to frame in its state and in the record.
ghost use Rattle.std.specs.Prelude.{◌≡◌, ◌≢◌, ◌≤◌, ◌<◌, ◌+◌, ◌^◌, ◌++◌, [], ℕ, List, None, Err, IsTrue, IsFalse, IfOk, OnErr, OnOk, IfErr, is_err, length, drop};
ghost use Rattle.px_core.specs.Counts.{Rose};
ghost use Rattle.px_meaning.specs.GraphText.{line_feed, offence};
ghost use Rattle.px_graph_text.specs.Steps.{spot_of, vertex_with, Holds, SameFrame};
ghost use Rattle.px_graph_text.specs.Reading.{ToGive, OfRest, Begins, IsOver, IsBad, SameParser, left, vertices_before};
ghost use Rattle.px_graph_text.specs.Passing.{Still, HasNext, Meets, GoesOn, EndsLine, EndsText, Passes};

use crate::line::{Followed, State, Stop, follow};
use crate::refusal::{Kind, TextStop};
use px_core::Source;
use px_frames::Frame;
use px_record::VertexBuf;
use std::marker::Model;

/// A reader of graph text, which gives its vertices in the order of their lines. It holds one frame
/// of the text and never more.
#[derive(Drop)]
pub struct Parser {
    frame: Frame,
    // What stands from `from` to `to` in the frame was read and is not yet gone over.
    from: usize,
    to: usize,
    // How many bytes were gone over.
    place: u64,
    // The number of the line that the next byte stands in, from 1.
    line: u64,
    // The most bytes that the text may have.
    limit: u64,
    // An error was answered.
    spent: bool,
}

impl Model for Parser {
    ghost use Rattle.std.specs.Prelude.{◌≤◌, ◌<◌, ◌+◌, ◌-◌, ◌^◌, length, take, drop};
    ghost use Rattle.px_graph_text.specs.Reading.{ParserView};

    ghost Value = { ParserView };

    ghost view = { λ p. record { ahead = take (p.to - p.from) (drop p.from p.frame); place = p.place; line = p.line; limit = p.limit; frame_len = length p.frame; spent = p.spent } };

    ghost invariant = { λ p. (0 < length p.frame) × (p.from ≤ p.to) × (p.to ≤ length p.frame) × (p.place ≤ p.limit) × (p.line ≤ p.place + 1) × (p.limit ≤ 2 ^ 48) };
}

impl Parser {
    /// A parser of a text of which nothing is read yet. A text of more than `limit` bytes is refused.
    pub fn open(frame: Frame, limit: u64) -> Parser
        requires frame { 0 < length frame }
        requires limit { limit ≤ 2 ^ 48 }
        ensures to_give { (room : ℕ) (text : List ℕ) → ToGive room result text (vertices_before room limit text) (offence room limit text) }
        ensures limit { result.limit ≡ limit }
        ensures place { result.place ≡ 0 }
        ensures frame_len { result.frame_len ≡ length frame }
        ensures spent { IsFalse result.spent }
    {
        Parser {
            frame,
            from: 0,
            to: 0,
            place: 0,
            line: 1,
            limit,
            spent: false,
        }
    }

    /// Gives the frame back. What its bytes are is not said.
    pub fn close(self) -> Frame
        ensures { length result ≡ self.frame_len }
    {
        self.frame
    }

    // The bytes of the frame that are not yet gone over.
    fn ahead(&self) -> &[u8]
        ensures { result.now ≡ self.now.ahead }
    {
        &self.frame.bytes()[self.from..self.to]
    }

    // Goes over so many bytes.
    fn skip(&mut self, count: usize)
        requires ahead { count ≤ length self.old.ahead }
        requires limit { self.old.place + count ≤ self.old.limit }
        ensures { self.new ≡ record self.old { ahead = drop count self.old.ahead; place = self.old.place + count } }
    {
        self.from += count;
        self.place += count as u64;
    }

    // The refusal of the line that the text stands in.
    fn bad(&self, kind: Kind) -> TextStop
        ensures { result ≡ TextStop.Bad self.now.line kind }
    {
        TextStop::Bad {
            line: self.line,
            kind,
        }
    }

    // Reads more of the text where the frame is gone over. It is false at the end of the text.
    fn fill<R: Source>(&mut self, source: &mut R) -> Result<bool, TextStop>
        ensures filled { OnOk result ((bytes : List ℕ) → R.left source.old bytes → Still (R.left source.new) (λ rest. self.new.ahead ++ rest ≡ self.old.ahead ++ bytes)) }
        ensures more { IfOk result (λ more. IsTrue more → 0 < length self.new.ahead) }
        ensures was_over { IfOk result (λ more. IsFalse more → self.old.ahead ≡ []) }
        ensures over { IfOk result (λ more. IsFalse more → self.new.ahead ≡ []) }
        ensures end { IfOk result (λ more. IsFalse more → (bytes : List ℕ) → R.left source.old bytes → bytes ≡ []) }
        ensures only { IfErr result (λ stop. stop ≡ TextStop.Source) }
        ensures same { self.new ≡ record self.old { ahead = self.new.ahead } }
        ensures cause { OnErr result (Rose (R.faults source.old) (R.faults source.new)) }
        ensures no_fault { OnOk result (R.faults source.new ≡ R.faults source.old) }
    {
        if self.from < self.to {
            return Ok(true);
        }
        match source.read(self.frame.bytes_mut()) {
            Ok(count) => {
                self.from = 0;
                self.to = count;
                Ok(count > 0)
            }
            Err(_) => Err(TextStop::Source),
        }
    }

    // Follows the line through what is ahead, but not past the limit.
    fn advance(&mut self, state: State, into: &mut VertexBuf) -> Followed
        requires ahead { 0 < length self.old.ahead }
        requires limit { self.old.place < self.old.limit }
        requires holds { Holds state into.old }
        ensures goes_on { GoesOn (spot_of state into.old) into.old into.new self.old self.new result.state }
        ensures meets { Meets into.old.room (spot_of result.state into.new) self.old self.new result.stop }
        ensures forward { left self.new ≤ left self.old }
        ensures same { self.new ≡ record self.old { ahead = self.new.ahead; place = self.new.place } }
        ensures frame { SameFrame into.old into.new }
    {
        let ahead = self.ahead();
        let most = (self.limit - self.place).min(ahead.len() as u64) as usize;
        let followed = follow(state, &ahead[..most], into);
        self.skip(followed.count);
        followed
    }

    // Goes over the LF that ends a line. It is true where the line gives a vertex.
    fn end_line(&mut self, state: State, into: &mut VertexBuf) -> Result<bool, Kind>
        requires feed { HasNext self.old line_feed }
        requires holds { Holds state into.old }
        ensures ends { EndsLine (spot_of state into.old) into.old into.new self.old self.new result }
        ensures forward { OnOk result (left self.new < left self.old) }
        ensures same { OnOk result (self.new ≡ record self.old { ahead = self.new.ahead; place = self.new.place; line = self.new.line }) }
        ensures err { OnErr result (self.new ≡ self.old) }
        ensures frame { SameFrame into.old into.new }
    {
        let gives = state.end(into)?;
        self.from += 1;
        self.place += 1;
        self.line += 1;
        Ok(gives)
    }

    // Goes over bytes ahead, up to the end of the line. It is `None` where the line gives a vertex,
    // and else where in a line the text goes on.
    fn pass(&mut self, state: State, into: &mut VertexBuf) -> Result<Option<State>, Kind>
        requires ahead { 0 < length self.old.ahead }
        requires holds { Holds state into.old }
        ensures passes { Passes (spot_of state into.old) into.old into.new self.old self.new result }
        ensures forward { OnOk result (left self.new < left self.old) }
        ensures same { self.new ≡ record self.old { ahead = self.new.ahead; place = self.new.place; line = self.new.line } }
        ensures line { OnErr result (self.new.line ≡ self.old.line) }
        ensures frame { SameFrame into.old into.new }
    {
        if self.place == self.limit {
            return Err(Kind::Long);
        }
        let followed = self.advance(state, into);
        match followed.stop {
            Stop::Bytes => Ok(Some(followed.state)),
            Stop::LineFeed => {
                if self.end_line(followed.state, into)? {
                    Ok(None)
                } else {
                    Ok(Some(State::Start))
                }
            }
            Stop::Offence(kind) => Err(kind),
        }
    }

    // Ends the last line of the text. It is true where that line gives a vertex.
    fn end_text(&self, state: State, into: &mut VertexBuf) -> Result<bool, TextStop>
        requires over { self.now.ahead ≡ [] }
        requires holds { Holds state into.old }
        ensures ends { EndsText (spot_of state into.old) into.old into.new self.now result }
        ensures ended { (room : ℕ) → ToGive room self.now [] [] None }
        ensures frame { SameFrame into.old into.new }
    {
        let line = self.line;
        match state.end(into) {
            Ok(gives) => Ok(gives),
            Err(kind) => Err(TextStop::Bad { line, kind }),
        }
    }

    // Goes on to the next vertex. It is false at the end of the text.
    fn find<R: Source>(&mut self, source: &mut R, into: &mut VertexBuf) -> Result<bool, TextStop>
        ensures given { IfOk result (λ given. IsTrue given → OfRest (R.left source.old) into.old.room self.old (Begins (R.left source.new) into.old.room self.new into.new)) }
        ensures vertex { IfOk result (λ given. IsTrue given → into.new.vertex ≡ vertex_with into.new.vertex.edges) }
        ensures over { IfOk result (λ given. IsFalse given → OfRest (R.left source.old) into.old.room self.old (IsOver (R.left source.new))) }
        ensures ended { IfOk result (λ given. IsFalse given → (room : ℕ) → ToGive room self.new [] [] None) }
        ensures bad { IfErr result (λ stop. OfRest (R.left source.old) into.old.room self.old (IsBad stop)) }
        ensures cause { IfErr result (λ stop. stop ≡ TextStop.Source → Rose (R.faults source.old) (R.faults source.new)) }
        ensures no_fault { result ≢ Err TextStop.Source → R.faults source.new ≡ R.faults source.old }
        ensures falls { IfOk result (λ given. IsTrue given → left self.new < left self.old) }
        ensures same { SameParser self.old self.new }
        ensures frame { SameFrame into.old into.new }
    {
        let mut state = State::Start;
        while self.fill(source)? {
            match self.pass(state, into) {
                Ok(Some(next)) => state = next,
                Ok(None) => return Ok(true),
                Err(kind) => return Err(self.bad(kind)),
            }
        }
        self.end_text(state, into)
    }

    /// Makes `into` the next vertex of the text. It is false at the end of the text. After an error
    /// the parser can only be closed. What `into` holds where it isn't made a vertex is not said.
    pub fn next<R: Source>(
        &mut self,
        source: &mut R,
        into: &mut VertexBuf,
    ) -> Result<bool, TextStop>
        requires { IsFalse self.old.spent }
        ensures given { IfOk result (λ given. IsTrue given → OfRest (R.left source.old) into.old.room self.old (Begins (R.left source.new) into.old.room self.new into.new)) }
        ensures vertex { IfOk result (λ given. IsTrue given → into.new.vertex ≡ vertex_with into.new.vertex.edges) }
        ensures over { IfOk result (λ given. IsFalse given → OfRest (R.left source.old) into.old.room self.old (IsOver (R.left source.new))) }
        ensures ended { IfOk result (λ given. IsFalse given → (room : ℕ) → ToGive room self.new [] [] None) }
        ensures bad { IfErr result (λ stop. OfRest (R.left source.old) into.old.room self.old (IsBad stop)) }
        ensures cause { IfErr result (λ stop. stop ≡ TextStop.Source → Rose (R.faults source.old) (R.faults source.new)) }
        ensures no_fault { result ≢ Err TextStop.Source → R.faults source.new ≡ R.faults source.old }
        ensures falls { IfOk result (λ given. IsTrue given → left self.new < left self.old) }
        ensures same { SameParser self.old self.new }
        ensures spent { self.new.spent ≡ is_err result }
        ensures frame { SameFrame into.old into.new }
    {
        let given = self.find(source, into);
        self.spent = given.is_err();
        given
    }
}
