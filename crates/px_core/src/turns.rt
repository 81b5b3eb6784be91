// Whose turn it is.
ghost use Rattle.std.specs.Prelude.{◌≡◌, ◌<◌, ◌%◌, IfOk, count_ones, drop, option_to_list};
ghost use Rattle.rand_pcg.specs.Pcg.{pcg32};
ghost use Rattle.px_core.specs.Bits.{IsBit, IsHighestBit, IsLowestBit, IsRankedBit, lowest_bit};
ghost use Rattle.px_core.specs.Picks.{picked};
ghost use Rattle.px_core.specs.Seeded.{seeded};

use rand_core::utils::NextWord;
use rand_pcg::Lcg64Xsh32;
use std::alloc::{AllocError, Global};
use std::marker::Model;

/// Chooses among those that are ready. Nothing more is known of a choice than that it is ready.
pub trait Turns: Drop {
    /// Begins a run of choices anew, from a seed.
    fn start(&mut self, seed: u64);

    /// Answers the number of a set bit of `ready`, counted from 0 at the lowest.
    fn pick(&mut self, ready: u32) -> u32
        requires { 0 < ready }
        ensures { IsBit ready result };
}

/// Turns by a list: the n-th pick answers the n-th number listed. Where its bit is not set, and past the list, it answers the lowest set bit.
#[derive(Drop)]
pub struct ListTurns {
    picks: Vec<u32>,
    next: usize,
}

impl Model for ListTurns {
    ghost use Rattle.std.specs.Prelude.{drop};
    ghost use Rattle.px_core.specs.Picks.{TurnsView};

    ghost Value = { TurnsView };

    ghost view = { λ t. record { left = drop t.next t.picks.items } };
}

impl ListTurns {
    /// Turns that answer these numbers, in order. Only memory can be short.
    pub fn new(alloc: Global, picks: &[u32]) -> Result<ListTurns, AllocError>
        ensures { IfOk result (λ t. t ≡ record { left = picks.now }) }
    {
        let picks = picks.to_vec(alloc)?;
        Ok(ListTurns { picks, next: 0 })
    }
}

impl Turns for ListTurns {
    /// Changes nothing: the list goes on where it is.
    fn start(&mut self, _seed: u64)
        ensures { self.new ≡ self.old }
    {}

    fn pick(&mut self, ready: u32) -> u32
        requires { 0 < ready }
        ensures bit { IsBit ready result }
        ensures value { result ≡ picked self.old.left ready }
        ensures lowest { IsLowestBit ready (lowest_bit ready) }
        ensures after { self.new ≡ record { left = drop 1 self.old.left } }
    {
        let listed = self.picks.get(self.next).copied();
        if listed.is_some() {
            self.next += 1;
        }
        choose(listed, ready)
    }
}

// The number listed where its bit is set, else the lowest set bit.
fn choose(listed: Option<u32>, ready: u32) -> u32
    requires { 0 < ready }
    ensures bit { IsBit ready result }
    ensures value { result ≡ picked (option_to_list listed) ready }
    ensures lowest { IsLowestBit ready (lowest_bit ready) }
{
    match listed {
        Some(pick) if pick < 32 && ready >> pick & 1 == 1 => pick,
        _ => ready.trailing_zeros(),
    }
}

/// Turns that go to the highest set bit.
#[derive(Drop)]
pub struct HighTurns;

impl HighTurns {
    pub fn new() -> HighTurns {
        HighTurns
    }
}

impl Turns for HighTurns {
    /// Changes nothing: a pick depends on `ready` alone.
    fn start(&mut self, _seed: u64)
        ensures { self.new ≡ self.old }
    {}

    fn pick(&mut self, ready: u32) -> u32
        requires { 0 < ready }
        ensures bit { IsBit ready result }
        ensures highest { IsHighestBit ready result }
    {
        ready.ilog2()
    }
}

/// Turns by the words of a PCG generator: a pick takes the next word, and answers the set bit whose rank is the word modulo the number of set bits.
#[derive(Drop)]
pub struct SeedTurns {
    words: Lcg64Xsh32,
}

impl Model for SeedTurns {
    ghost use Rattle.rand_pcg.specs.Lcg.{Lcg};

    ghost Value = { Lcg };

    ghost view = { λ t. t.words };
}

impl SeedTurns {
    /// The turns of seed 0.
    pub fn new() -> SeedTurns
        ensures { result ≡ seeded 0 }
    {
        SeedTurns { words: words_of(0) }
    }
}

impl Turns for SeedTurns {
    /// The same seed gives the same words again.
    fn start(&mut self, seed: u64)
        ensures { self.new ≡ seeded seed }
    {
        self.words = words_of(seed);
    }

    fn pick(&mut self, ready: u32) -> u32
        requires { 0 < ready }
        ensures bit { IsBit ready result }
        ensures ranked { IsRankedBit ready ((pcg32 self.old).0 % count_ones ready) result }
        ensures after { self.new ≡ (pcg32 self.old).1 }
    {
        let word = self.words.next_word();
        ranked_bit(ready, word % ready.count_ones())
    }
}

// The generator of a seed.
fn words_of(seed: u64) -> Lcg64Xsh32
    ensures { result ≡ seeded seed }
{
    Lcg64Xsh32::new(seed, 1)
}

// The set bit of this rank: the lowest one, when that many have been cleared.
fn ranked_bit(ready: u32, rank: u32) -> u32
    requires { rank < count_ones ready }
    ensures { IsRankedBit ready rank result }
{
    let mut left = ready;
    'clear: for _ in 0..rank {
        left &= left - 1;
    }
    left.trailing_zeros()
}
