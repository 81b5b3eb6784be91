// A graph text that is made as it is read, line by line.
ghost use Rattle.std.specs.Prelude.{◌≡◌, ◌≤◌, ◌<◌, ◌+◌, ◌++◌, ℕ, List, [], take, drop, min, length, decimal, IsTrue, IsFalse, IsOk, IfOk};
ghost use Rattle.px_core.specs.Moved.{BeginsWith};
ghost use Rattle.px_meaning.specs.OutputText.{edge_text};
ghost use Rattle.px_graph_text.specs.Generated.{word, after, next_edge, after_edge, next_edges, after_edges, next_line, after_line, generated};

use arrayvec::ArrayString;
use itoa::Buffer;
use px_core::{Failed, Source};
use rand_core::utils::NextWord;
use rand_pcg::Lcg64Xsh32;
use std::marker::Model;

// More bytes than a line has: four numbers of at most ten digits, three more, and what parts them.
const MOST_OF_LINE: usize = 80;

// The lines of a graph that are still to be made.
#[derive(Drop)]
struct Lines {
    words: Lcg64Xsh32,
    vertices: u32,
    // The vid of the next line.
    next: u32,
}

impl Model for Lines {
    ghost use Rattle.std.specs.Prelude.{ℕ, List, ◌≤◌, ◌-◌};
    ghost use Rattle.px_graph_text.specs.Generated.{next_lines};

    ghost Value = { List ℕ };

    ghost view = { λ s. next_lines s.vertices (s.vertices - s.next) s.next s.words };

    ghost invariant = { λ s. s.next ≤ s.vertices };
}

impl Lines {
    fn new(seed: u64, vertices: u32) -> Lines
        ensures { result ≡ generated seed vertices }
    {
        Lines {
            words: Lcg64Xsh32::new(seed, 1),
            vertices,
            next: 0,
        }
    }

    // Makes the next line. It is false, and the line stays, where none is left.
    fn make(&mut self, line: &mut ArrayString<MOST_OF_LINE>) -> bool
        ensures made { IsTrue result → self.old ≡ line.new.bytes ++ self.new }
        ensures some { IsTrue result → 0 < length line.new.bytes }
        ensures none { IsFalse result → self.old ≡ [] }
        ensures same { IsFalse result → self.new ≡ self.old }
        ensures line { IsFalse result → line.new ≡ line.old }
    {
        if self.next == self.vertices {
            return false;
        }
        make_line(line, &mut self.words, self.vertices, self.next);
        self.next += 1;
        true
    }
}

/// A source of the text of a graph whose edges a seed chooses. It makes a line at a time, takes no memory and never fails.
#[derive(Drop)]
pub struct GenSource {
    lines: Lines,
    // The last line that was made, of which so many bytes were given.
    line: ArrayString<MOST_OF_LINE>,
    given: usize,
}

impl Model for GenSource {
    ghost use Rattle.std.specs.Prelude.{ℕ, List, ◌≤◌, ◌++◌, drop, length};

    ghost Value = { List ℕ };

    ghost view = { λ s. drop s.given s.line.bytes ++ s.lines };

    ghost invariant = { λ s. s.given ≤ length s.line.bytes };
}

impl GenSource {
    /// The text of a graph with the vids below `n`. The same seed gives the same text again.
    pub fn new(seed: u64, n: u32) -> GenSource
        ensures { result ≡ generated seed n }
    {
        GenSource {
            lines: Lines::new(seed, n),
            line: ArrayString::new(),
            given: 0,
        }
    }

    // Moves bytes of one line into the front of `into`, as many as fit. It is 0 only where nothing is left or nothing fits.
    fn give(&mut self, into: &mut [u8]) -> usize
        ensures count { result ≤ length self.old }
        ensures fits { result ≤ length into.old }
        ensures bytes { into.new ≡ take result self.old ++ drop result into.old }
        ensures rest { self.new ≡ drop result self.old }
        ensures end { 0 < length into.old → result ≡ 0 → self.old ≡ [] }
    {
        if self.given == self.line.len() {
            if !self.lines.make(&mut self.line) {
                return 0;
            }
            self.given = 0;
        }
        let count = copy_front(&self.line.as_bytes()[self.given..], into);
        self.given += count;
        count
    }
}

// Copies as many bytes as fit, and answers how many.
fn copy_front(from: &[u8], into: &mut [u8]) -> usize
    ensures count { result ≡ min (length into.old) (length from.now) }
    ensures bytes { into.new ≡ take result from.now ++ drop result into.old }
{
    let count = into.len().min(from.len());
    into[..count].copy_from_slice(&from[..count]);
    count
}

// Makes the line of a vertex, by the words that come next.
#[tactic(auto, unfolding(crate::specs::Generated::next_line, crate::specs::Generated::after_line))]
fn make_line(line: &mut ArrayString<MOST_OF_LINE>, words: &mut Lcg64Xsh32, vertices: u32, vid: u32)
    requires { vid < vertices }
    ensures line { line.new.bytes ≡ next_line vertices vid words.old }
    ensures some { 0 < length line.new.bytes }
    ensures words { words.new ≡ after_line words.old }
{
    line.clear();
    push_number(line, vid);
    let edges = next_word(words) % 4;
    push_edges(line, words, vertices, edges);
    let _ = line.try_push_str("\n");
}

// Puts so many edges behind a line.
fn push_edges(
    line: &mut ArrayString<MOST_OF_LINE>,
    words: &mut Lcg64Xsh32,
    vertices: u32,
    edges: u32,
)
    requires vertices { 0 < vertices }
    requires edges { edges < 4 }
    requires short { length line.old.bytes ≤ 10 }
    ensures line { line.new.bytes ≡ line.old.bytes ++ next_edges vertices edges words.old }
    ensures words { words.new ≡ after_edges edges words.old }
    ensures short { length line.new.bytes ≤ 76 }
{
    'edges: for _i in 0..edges {
        let (target, weight) = next_edge(words, vertices);
        push_edge(line, target, weight);
    }
}

// The target and the weight of an edge, by the words that come next.
fn next_edge(words: &mut Lcg64Xsh32, vertices: u32) -> (u32, u32)
    requires { 0 < vertices }
    ensures edge { result ≡ next_edge vertices words.old }
    ensures words { words.new ≡ after_edge words.old }
{
    let target = next_word(words) % vertices;
    let weight = 1 + next_word(words) % 100;
    (target, weight)
}

// Puts an edge behind a line: a space, the target, `:` and the weight.
fn push_edge(line: &mut ArrayString<MOST_OF_LINE>, target: u32, weight: u32)
    requires { length line.old.bytes ≤ 56 }
    ensures bytes { line.new.bytes ≡ line.old.bytes ++ edge_text (target, weight) }
    ensures short { length line.new.bytes ≤ length line.old.bytes + 22 }
{
    let _ = line.try_push_str(" ");
    push_number(line, target);
    let _ = line.try_push_str(":");
    push_number(line, weight);
}

// Puts a number in decimal behind a line.
fn push_number(line: &mut ArrayString<MOST_OF_LINE>, n: u32)
    requires { length line.old.bytes ≤ 70 }
    ensures bytes { line.new.bytes ≡ line.old.bytes ++ decimal n }
    ensures short { length line.new.bytes ≤ length line.old.bytes + 10 }
{
    let mut buffer = Buffer::new();
    let _ = line.try_push_str(buffer.format(n));
}

#[tactic(auto, unfolding(crate::specs::Generated::word, crate::specs::Generated::after))]
fn next_word(words: &mut Lcg64Xsh32) -> u32
    ensures word { result ≡ word words.old }
    ensures after { words.new ≡ after words.old }
{
    words.next_word()
}

impl Source for GenSource {
    ghost left = { λ s l. l ≡ s };

    ghost faults = { λ s. 0 };

    /// Moves as many bytes as fit.
    fn read(&mut self, into: &mut [u8]) -> Result<usize, Failed>
        ensures count { IfOk result (λ n. n ≤ length into.new) }
        ensures bytes { IfOk result (λ n. (l : List ℕ) → l ≡ self.old → BeginsWith n into.new l) }
        ensures rest { IfOk result (λ n. (l : List ℕ) → l ≡ self.old → drop n l ≡ self.new) }
        ensures end { 0 < length into.new → IfOk result (λ n. n ≡ 0 → (l : List ℕ) → l ≡ self.old → l ≡ []) }

        ensures answers { IsOk result }
        ensures moved { IfOk result (λ n. n ≡ min (length into.old) (length self.old)) }
        ensures filled { IfOk result (λ n. into.new ≡ take n self.old ++ drop n into.old) }
        ensures after { IfOk result (λ n. self.new ≡ drop n self.old) }
    {
        let mut filled = 0;
        'lines: loop {
            let count = self.give(&mut into[filled..]);
            if count == 0 {
                return Ok(filled);
            }
            filled += count;
        }
    }
}
