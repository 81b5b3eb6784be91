// Vertices are loaded from their records, compute a superstep of pagerank, and are stored again.
ghost use Rattle.std.specs.Prelude.{◌≡◌, ◌+◌, [], true, false};
ghost use Rattle.px_program.specs.Numbers.{sum_rule};
ghost use Rattle.px_program.specs.Posted.{gathered, pieces_in};
ghost use Rattle.px_program.specs.Saturating.{saturating_sum};
ghost use Rattle.px_verdict.specs.Verdict.{verdict_rule};

use crate::record::record_of;
use crate::tally::{Tally, number};
use anyhow::{Result, bail};
use byteorder::{BigEndian, ByteOrder};
use px_core::{Stop, Vid};
use px_frames::{Buf, Frame};
use px_program::{At, Outbox, Program};
use px_programs::PageRank;
use px_record::VertexBuf;
use std::alloc::{AllocError, Global};

/// The bytes of a frame, and the most that a vertex or a message may have.
const FRAME: u32 = 262_144;

const ROOM: u32 = FRAME / 2 - 16;

/// An outbox that sums what is sent and contributed. It tells nothing of what it took.
#[derive(Drop)]
struct Sums {
    sum: u64,
    spare: Buf,
    long: bool,

    ghost is: { 13 + spare.limit ≡ 131056 },
}

impl Sums {
    fn new(alloc: Global) -> Result<Sums, AllocError> {
        Ok(Sums {
            sum: 0,
            spare: Buf::over(Frame::new(alloc, FRAME)?, ROOM - 13),
            long: false,
        })
    }

    // Lets all pieces go.
    fn clear(&mut self)
        ensures { pieces_in self.new.long self.new.spare.bytes ≡ gathered 131056 [] }
    {
        self.spare.clear();
        self.long = false;
    }
}

impl Outbox for Sums {
    ghost took = { λ o p. ⊥ };

    ghost made_for = { λ o. record { message = sum_rule; verdict = verdict_rule; room = 131056; unit = 0; join = saturating_sum; lent = [] } };

    ghost faults = { λ o. 0 };

    ghost is_open = { λ o. true };

    ghost pieces = { λ o. pieces_in o.long o.spare.bytes };

    fn send(&mut self, to: Vid, payload: &[u8]) -> Result<(), Stop> {
        if payload.len() > ROOM as usize - 13 {
            return Err(Stop::Beyond);
        }
        self.sum = self.sum.wrapping_add(to).wrapping_add(number(payload));
        Ok(())
    }

    fn piece(&mut self, bytes: &[u8]) {
        if !self.long {
            self.long = self.spare.append(bytes).is_err();
        }
    }

    fn send_pieces(&mut self, to: Vid) -> Result<(), Stop> {
        let long = self.long;
        self.sum = self
            .sum
            .wrapping_add(to)
            .wrapping_add(number(self.spare.bytes()));
        self.clear();
        if long {
            return Err(Stop::Beyond);
        }
        Ok(())
    }

    fn request(&mut self, _vid: Vid, verdict: &[u8]) -> Result<(), Stop> {
        if verdict.len() > ROOM as usize - 13 {
            return Err(Stop::Beyond);
        }
        Ok(())
    }

    fn contribute(&mut self, n: u64) {
        self.sum = self.sum.wrapping_add(n);
    }
}

// Makes it the vertex of this vid that has a value of eight bytes and at most seven edges.
fn make(v: &mut VertexBuf, vid: Vid) -> Result<()> {
    v.reset(vid);
    v.set_value(&vid.to_be_bytes())?;
    for i in 1..=vid % 8 {
        v.push_edge(vid.wrapping_mul(i), i as u32)?;
    }
    Ok(())
}

/// Puts the record of a vertex behind the others: the length of its body in 4 bytes, and the body.
pub fn push_record(records: &mut Vec<u8>, v: &VertexBuf) -> Result<()> {
    let body = v.body();
    records.extend_from_slice(&(body.len() as u32).to_be_bytes())?;
    records.extend_from_slice(body)?;
    Ok(())
}

/// The records of so many vertices, one behind the other.
pub fn build(alloc: Global, count: u64) -> Result<Vec<u8>> {
    let mut records = Vec::new(alloc);
    let mut v = record_of(alloc, FRAME)?;
    for vid in 0..count {
        make(&mut v, vid)?;
        push_record(&mut records, &v)?;
    }
    Ok(records)
}

// The body of the first record, and the records behind it.
fn split_record(records: &[u8]) -> Option<(&[u8], &[u8])> {
    let (len, rest) = records.split_at_checked(4)?;
    rest.split_at_checked(BigEndian::read_u32(len) as usize)
}

// The sum of the numbers in a body's eights of bytes.
fn sum_of(body: &[u8]) -> u64 {
    body.chunks_exact(8)
        .fold(0u64, |sum, word| sum.wrapping_add(number(word)))
}

// Loads a vertex, computes it and sums its bytes.
fn step(
    at: &At,
    v: &mut VertexBuf,
    vid: Vid,
    body: &[u8],
    message: u64,
    out: &mut Sums,
) -> Result<u64>
    requires { at.now.fresh ≡ false }
{
    if !v.load(vid, body) {
        bail!("a record is no vertex");
    }
    out.clear();
    PageRank::new(2).compute(at, v, Some(&message.to_be_bytes()), out)?;
    Ok(sum_of(v.body()))
}

// Computes each vertex once.
fn round(at: &At, records: &[u8], round: u64, v: &mut VertexBuf, out: &mut Sums) -> Result<Tally>
    requires { at.now.fresh ≡ false }
{
    let mut tally = Tally::default();
    let mut rest = records;
    for vid in 0..at.count {
        let Some((body, after)) = split_record(rest) else {
            bail!("a record is short");
        };
        rest = after;
        let message = vid.wrapping_mul(1000).wrapping_add(round);
        tally.add(1, step(at, v, vid, body, message, out)?);
    }
    Ok(tally)
}

/// Computes so many vertices in each of so many rounds, and sums their bytes and what they send and contribute.
pub fn run(alloc: Global, records: &[u8], count: u64, rounds: u64) -> Result<Tally> {
    let at = At {
        superstep: 1,
        aggregate: 0,
        count,
        fresh: false,
    };
    let mut v = record_of(alloc, FRAME)?;
    let mut out = Sums::new(alloc)?;
    let mut tally = Tally::default();
    for number in 0..rounds {
        let ranked = round(&at, records, number, &mut v, &mut out)?;
        tally.add(ranked.count, ranked.sum);
    }
    tally.add(0, out.sum);
    Ok(tally)
}
