// The choices of a plan, the uses of frames, and the ends of a run.
use px_core::Vid;
use px_graph_text::Kind;

/// How messages meet vertices.
#[derive(Clone, Copy, Debug, PartialEq, Eq)]
pub enum JoinKind {
    /// All vertices are scanned.
    Full,
    /// The vertices that are awake or have a message are looked up.
    Left,
}

/// How messages to one vid come together.
#[derive(Clone, Copy, Debug, PartialEq, Eq)]
pub enum GroupKind {
    Sort,
    Hash,
}

/// How messages go to the partitions of their vids.
#[derive(Clone, Copy, Debug, PartialEq, Eq)]
pub enum ConnectorKind {
    Plain,
    /// The order of the vids is kept.
    Merge,
}

/// Where vertices lie.
#[derive(Clone, Copy, Debug, PartialEq, Eq)]
pub enum StoreKind {
    BTree,
    Lsm,
}

/// Four choices. Each of the sixteen plans computes the same.
#[derive(Clone, Copy, Debug, PartialEq, Eq)]
pub struct Plan {
    pub join: JoinKind,
    pub group: GroupKind,
    pub connector: ConnectorKind,
    pub store: StoreKind,
}

/// How many frames each use has.
#[derive(Clone, Copy, Debug, PartialEq, Eq)]
pub struct Shares {
    /// One vertex, one message, one verdict and one spare.
    pub work: u32,
    /// What files of one partition are read and written through.
    pub streams: u32,
    /// One of messages and one of requests to each partition.
    pub out: u32,
    /// The one grouping that is active, with its slot table.
    pub group: u32,
    /// Pages of the graph disk.
    pub cache: u32,
    /// What was put lately to the one store that is written to, where the plan keeps that apart.
    pub lsm: u32,
}

/// What a run is made with.
#[derive(Clone, Copy, Debug, PartialEq, Eq)]
pub struct Setup {
    pub plan: Plan,
    pub partitions: u32,
    pub frames: u32,
    pub frame_bytes: u32,
    /// The most supersteps.
    pub max: u32,
    /// Whether the last line alone is written.
    pub summary: bool,
    /// Whether a line is written for each superstep.
    pub stats: bool,
}

/// How a run ended.
#[derive(Clone, Copy, Debug, PartialEq, Eq)]
pub enum End {
    /// It halted, and its text was written.
    Done,
    /// The plan needs more frames than there are.
    Short { need: u32, have: u32 },
    /// Memory was wanted before the text was read.
    Memory,
    /// The text is refused on this line, counted from 1.
    Bad { line: u64, kind: Kind },
    /// No line is refused, and this vid, the least such, stands on two lines.
    Twice { vid: Vid },
    /// This superstep would pass the limits.
    Beyond { superstep: u64 },
    /// It has not halted after so many supersteps, the most.
    Limit { n: u32 },
    /// The disk of the graph failed.
    Graph,
    /// The disk of scratch files failed.
    Scratch,
    /// The source failed.
    Source,
    /// The sink failed. It holds a prefix of the text.
    Sink,
}
