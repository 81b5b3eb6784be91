// pagerank: how often a walk that follows edges at random is at a vertex.
ghost use Rattle.std.specs.Prelude.{◌≡◌, ◌/◌, if◌then◌else◌, nat_lt, option_copied, option_map, Some, None, refl};
ghost use Rattle.px_meaning.specs.Merge.{IsValidMessage};
ghost use Rattle.px_program.specs.Numbers.{number, sum_rule};
ghost use Rattle.px_programs.specs.PageRank.{pagerank_table, pagerank_laws, rank_of, new_rank};

use crate::along::post_along;
use crate::numbers::{bytes_of, heard, number_of, print_number};
use crate::plain::{Plain, PlainProgram};
use crate::sum::Sum;
use px_core::{Failed, Sink, Stop};
use px_program::{At, Outbox};
use px_record::VertexBuf;

// What all vertices share, and 15 percent of it.
const SCALE: u64 = 1_000_000_000_000;

const RESTART: u64 = 150_000_000_000;

/// Ranks vertices by how often a walk is at them that follows a random edge 85 times in 100, and
/// else goes on from any vertex. The ranks are parts of 10^12 after so many rounds, and the
/// aggregate is the sum of the last ones. What a vertex without edges would send is lost.
pub type PageRank = PlainProgram<PageRankTable>;

/// The table of `PageRank`.
#[derive(Clone, Copy, Debug, PartialEq, Eq)]
pub struct PageRankTable {
    pub rounds: u32,
}

impl PageRank {
    pub fn new(rounds: u32) -> PageRank
        ensures { result.table.rounds ≡ rounds }
    {
        PlainProgram::of(PageRankTable { rounds }, Sum)
    }
}

impl PageRankTable {
    // The new rank of a vertex, until the last round is over.
    fn new_rank(&self, at: &At, msg: Option<&[u8]>) -> Option<u64>
        ensures { IsValidMessage sum_rule (option_copied msg.entry)
            → result ≡ new_rank self.now.rounds at.now.superstep at.now.count (option_map number (option_copied msg.entry)) }
    {
        if at.superstep == 0 {
            Some(SCALE / at.count.max(1))
        } else if at.superstep > u64::from(self.rounds) {
            None
        } else {
            Some(rank_of(at.count, heard(msg).unwrap_or(0)))
        }
    }

    // The part of a rank for each of so many edges, until the last round.
    fn share(&self, at: &At, rank: u64, edges: u64) -> Option<u64>
        ensures { result ≡ (if nat_lt at.now.superstep self.now.rounds then Some (rank / edges) else None) }
    {
        if at.superstep >= u64::from(self.rounds) {
            None
        } else {
            Some(share_of(rank, edges))
        }
    }
}

// The rank of one of so many vertices, where the shares sent to it have this sum.
fn rank_of(count: u64, sum: u64) -> u64
    ensures { result ≡ rank_of count sum }
{
    let walked = u128::from(sum) * 85 / 100;
    (RESTART / count.max(1)).saturating_add(walked as u64)
}

// An equal part of a rank for each of so many edges.
fn share_of(rank: u64, edges: u64) -> u64
    ensures { result ≡ rank / edges }
{
    if edges == 0 { 0 } else { rank / edges }
}

impl Plain for PageRankTable {
    type Message = Sum;

    ghost table = { λ t. pagerank_table t.rounds };

    ghost one_rule = { λ t m. refl };

    ghost laws = { λ t. pagerank_laws t.rounds };

    fn compute<O: Outbox>(
        &self,
        at: &At,
        v: &mut VertexBuf,
        msg: Option<&[u8]>,
        out: &mut O,
    ) -> Result<(), Stop> {
        let edges = u64::from(v.edges());
        let Some(rank) = self.new_rank(at, msg) else {
            v.set_halt(true);
            return Ok(());
        };
        let share = self.share(at, rank, edges);
        v.set_halt(share.is_none());
        if v.set_value(&bytes_of(rank)).is_err() {
            return Err(Stop::Beyond);
        }
        let Some(share) = share else {
            out.contribute(rank);
            return Ok(());
        };
        post_along(v, rank, &bytes_of(share), out)
    }

    fn print_value<W: Sink>(&self, v: &VertexBuf, sink: &mut W) -> Result<(), Failed> {
        print_number(number_of(v.value()), sink)
    }
}
