// What the words ask for.

/// The program that the words name, with the number that it needs: the vid that it starts from, or its rounds.
#[derive(Clone, Copy, Debug, PartialEq, Eq)]
pub enum Chosen {
    Reach { from: u64 },
    Sssp { from: u64 },
    Components,
    PageRank { rounds: u32 },
    Chains,
    Reverse,
    Close,
    Prune,
}

/// What the words ask for.
#[derive(Clone, Copy, Debug, PartialEq, Eq)]
pub struct Job {
    pub chosen: Chosen,
    /// The most supersteps.
    pub most: u32,
    pub partitions: u32,
    pub frames: u32,
    pub frame_bytes: u32,
    /// The seed of the turns, and of a generated graph.
    pub seed: u64,
    /// The vertices of a graph that is generated in place of the source's text.
    pub generate: Option<u32>,
    /// Whether a line is written for each superstep.
    pub stats: bool,
}
