// Values are printed, each as a rank and as a distance.
use crate::record::record_of;
use crate::tally::Tally;
use anyhow::Result;
use px_core::{Failed, Sink};
use px_program::Program;
use px_programs::{PageRank, Sssp};
use std::alloc::Global;

/// The bytes of a frame.
const FRAME: u32 = 256;

/// A sink that counts and sums bytes. It tells nothing of what it took.
#[derive(Drop)]
struct Sums {
    tally: Tally,
}

impl Sink for Sums {
    ghost holds = { λ s h. ⊥ };

    ghost faults = { λ s. 0 };

    fn write(&mut self, from: &[u8]) -> Result<usize, Failed> {
        let sum = from
            .iter()
            .fold(0u64, |sum, byte| sum.wrapping_add(u64::from(*byte)));
        self.tally.add(from.len() as u64, sum);
        Ok(from.len())
    }
}

// Numbers of all lengths, and every sixteenth the one that stands for no path.
fn number(n: u64) -> u64 {
    if n % 16 == 0 {
        u64::MAX
    } else {
        n.wrapping_mul(11_400_714_819_323_198_485) >> (n % 64)
    }
}

/// Prints so many values twice each, and counts and sums the bytes.
pub fn run(alloc: Global, count: u64) -> Result<Tally> {
    let ranks = PageRank::new(2);
    let distances = Sssp::new(0);
    let mut v = record_of(alloc, FRAME)?;
    let mut sink = Sums {
        tally: Tally::default(),
    };
    for n in 0..count {
        v.set_value(&number(n).to_be_bytes())?;
        ranks.print_value(&v, &mut sink)?;
        distances.print_value(&v, &mut sink)?;
    }
    Ok(sink.tally)
}
