// The global state.
ghost use Rattle.std.specs.Prelude.{◌≡◌, ◌↔◌, IsTrue};

/// The numbers of a state. `live` counts the vertices that have not voted to halt, `count` all vertices, `in_flight` the sends.
#[derive(Clone, Copy, Debug, PartialEq, Eq)]
pub struct Gs {
    pub superstep: u64,
    pub aggregate: u64,
    pub live: u64,
    pub count: u64,
    pub in_flight: u64,
}

impl Gs {
    /// Before the first superstep: all vertices are awake, and nothing was sent. `unit` is the aggregate of no contributions.
    pub fn first(unit: u64, count: u64) -> Gs
        ensures { result ≡ record { superstep = 0; aggregate = unit; live = count; count = count; in_flight = 0 } }
    {
        Gs {
            superstep: 0,
            aggregate: unit,
            live: count,
            count,
            in_flight: 0,
        }
    }

    /// Whether every vertex has voted to halt and no message is in transit.
    pub fn halted(&self) -> bool
        ensures { IsTrue result ↔ ((self.now.live ≡ 0) × (self.now.in_flight ≡ 0)) }
    {
        self.live == 0 && self.in_flight == 0
    }
}
