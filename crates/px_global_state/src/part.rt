// What the partitions of a superstep make.
ghost use Rattle.std.specs.Prelude.{◌≡◌, ◌≤◌, ◌<◌, ◌+◌, ◌^◌};
ghost use Rattle.px_global_state.specs.States.{joined_part, no_part as no_part_of};

use px_program::Program;

/// What a partition's compute phase made: how many sends and requests, and what its contributions join to.
#[derive(Clone, Copy, Debug, PartialEq, Eq)]
pub struct Part {
    pub sends: u64,
    pub requests: u64,
    pub contributed: u64,
}

/// Nothing was made yet.
pub fn no_part<P: Program>(program: &P) -> Part
    ensures part { result ≡ no_part_of (P.meaning program.now) }
    ensures small { result.contributed < 2 ^ 64 }
{
    Part {
        sends: 0,
        requests: 0,
        contributed: program.unit(),
    }
}

/// What two partitions made.
pub fn join_parts<P: Program>(program: &P, a: &Part, b: &Part) -> Part
    requires sends { a.now.sends + b.now.sends ≤ 2 ^ 48 }
    requires requests { a.now.requests + b.now.requests ≤ 2 ^ 48 }
    ensures part { result ≡ joined_part (P.meaning program.now) a.now b.now }
    ensures small { result.contributed < 2 ^ 64 }
{
    Part {
        sends: a.sends + b.sends,
        requests: a.requests + b.requests,
        contributed: program.join(a.contributed, b.contributed),
    }
}
